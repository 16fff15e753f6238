//! What the workers of a pass have in common, and its streamer.

ghost use Rattle.std.specs.Prelude.{◌≡◌};
ghost use Rattle.vt_load.specs.declared.queued.Queues.{Queues as Both};

use std::marker::PhantomData;
use vt_load::{Loaded, QueuePass, Queues};
use vt_pass_rows::{Filter, Geometry, PageTable, Schedule};
use vt_streaming::StreamReport;

/// What the workers of a pass have in common, whether a machine keeps it or its caller lends it.
pub trait InCommon {
    /// The page table.
    type Table: PageTable;

    /// How the samplers come by rows.
    type Rows: Schedule;

    /// The filter by which they draw.
    type Look: Filter;

    /// Of the page table.
    ghost table: { Self → Self.Table.Shared };

    /// Of the rows.
    ghost rows: { Self → Self.Rows.Shared };

    /// The queues of the requests and of the results.
    ghost queues: { Self → Both };

    /// What is shared of the page table.
    fn table(&self) -> &<Self::Table as PageTable>::Shared
        ensures { result.now ≡ table self.now };

    /// What is shared of the rows.
    fn rows(&self) -> &<Self::Rows as Schedule>::Shared
        ensures { result.now ≡ rows self.now };

    /// The queues.
    fn queues(&self) -> &Queues
        ensures { result.now ≡ queues self.now };
}

/// What a machine keeps of it. It names what is shared of the page table and of the rows by types of their own, `H` and `B`: else to give it up
/// would ask that a page table's writer can be given up too, which none is.
#[derive(Drop)]
pub struct OwnParts<H, B, T, S, P> {
    /// Of the page table.
    pub table: H,
    /// Of the rows.
    pub rows: B,
    /// The queues of the requests and of the results.
    pub queues: Queues,
    /// Which page table it is.
    pub kind: PhantomData<T>,
    /// How the samplers come by rows.
    pub schedule: PhantomData<S>,
    /// The filter by which the samplers draw.
    pub filter: PhantomData<P>,
}

/// What a caller lends of it.
#[derive(Drop)]
pub struct LentParts<'a, T: PageTable, S: Schedule, P: Filter> {
    /// Of the page table.
    pub table: &'a T::Shared,
    /// Of the rows.
    pub rows: &'a S::Shared,
    /// The queues of the requests and of the results.
    pub queues: &'a Queues,
    /// The filter by which the samplers draw.
    pub filter: PhantomData<P>,
}

impl<T: PageTable, S: Schedule, P: Filter> InCommon for OwnParts<T::Shared, S::Shared, T, S, P> {
    type Table = T;

    type Rows = S;

    type Look = P;

    ghost table = { λ parts. parts.table };

    ghost rows = { λ parts. parts.rows };

    ghost queues = { λ parts. parts.queues };

    fn table(&self) -> &T::Shared {
        &self.table
    }

    fn rows(&self) -> &S::Shared {
        &self.rows
    }

    fn queues(&self) -> &Queues {
        &self.queues
    }
}

impl<'a, T: PageTable, S: Schedule, P: Filter> InCommon for LentParts<'a, T, S, P> {
    type Table = T;

    type Rows = S;

    type Look = P;

    ghost table = { λ parts. parts.table.now };

    ghost rows = { λ parts. parts.rows.now };

    ghost queues = { λ parts. parts.queues.now };

    fn table(&self) -> &T::Shared {
        self.table
    }

    fn rows(&self) -> &S::Shared {
        self.rows
    }

    fn queues(&self) -> &Queues {
        self.queues
    }
}

/// What the workers of a pass share. It is a type of this crate, so that the tasks can be written once for all that they may have in common.
#[derive(Drop)]
pub struct PassShared<C> {
    /// What they have in common.
    pub parts: C,
}

/// The writer of the page table, with the pass by which it takes results, and what it tells of the batch.
pub struct PassStreamer<T: PageTable> {
    /// The writer.
    pub writer: T::Writer,
    /// How the texture is cut into pages.
    pub geometry: Geometry,
    /// How many bytes a sample has.
    pub depth: u32,
    /// The pass of the results.
    pub answers: QueuePass<Loaded>,
    /// What is told.
    pub report: StreamReport,
    /// Whether memory was refused.
    pub refused: bool,
}
