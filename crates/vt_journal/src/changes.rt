//! What a journal is made of: changes of a page table, and what a pass of a walk tells.

use vt_text::Items;

/// A change of the page table, which makes its next version.
#[derive(Clone, Copy, Debug, PartialEq, Eq)]
pub enum Change {
    /// The page is mapped to the frame; both were free before.
    Map { page: u32, frame: u32 },
    /// The page, which was mapped to the frame, is mapped no more.
    Unmap { page: u32, frame: u32 },
}

/// What a pass of a walk met.
#[derive(Clone, Copy, Debug, PartialEq, Eq)]
pub enum Event {
    /// The page table was changed.
    Changed(Change),
    /// The tile of the page could not be read.
    Lost { page: u32 },
}

/// By whom a row of a picture was drawn, and from which version of the page table.
#[derive(Clone, Copy, Debug, PartialEq, Eq)]
pub struct RowLine {
    /// The row, from the top.
    pub row: u32,
    /// The sampler that drew it.
    pub sampler: u32,
    /// The version that the sampler held.
    pub version: u64,
}

/// The events of a pass, in their order.
pub type Events = Items<Event>;

/// The rows of a pass, from the top.
pub type RowLines = Items<RowLine>;
