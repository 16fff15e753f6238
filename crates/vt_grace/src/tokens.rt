//! The words, and the tokens with which threads step on them.

use crate::board::{Board, Chair};
use crate::sizes::Sizes;
use std::marker::Model;

/// The table of words, which threads share by reference. Contracts see which table it is, and its sizes. They call a token one of
/// these words where its table and its sizes are these.
#[derive(Drop)]
pub struct Words {
    pub(crate) table: Board,
    pub(crate) sizes: Sizes,
}

impl Model for Words {
    ghost use Rattle.std.specs.Prelude.{◌≡◌};
    ghost use Rattle.vt_grace.specs.Places.{words_of};
    ghost use Rattle.vt_grace.specs.Sizes.{AreWithinLimits};
    ghost use Rattle.vt_grace.specs.Values.{WordsValue};

    ghost Value = { WordsValue };

    ghost view = { λ w. record { table = w.table.shared.table_id; sizes = w.sizes } };

    ghost invariant = { λ w. (w.table.shared.table_id.words ≡ words_of w.sizes) × (w.table.shared.key ≡ w.sizes)
        × AreWithinLimits w.sizes };
}

/// The right of one sampler to hold versions; it holds none. Contracts see of which table it is, and its view: the versions that it
/// held and what it read. Neither takes memory.
#[derive(Drop)]
pub struct Pass {
    pub(crate) seat: Chair,
    pub(crate) sampler: u32,
}

impl Model for Pass {
    ghost use Rattle.vt_grace.specs.Seats.{IsPassing, pass_at};
    ghost use Rattle.vt_grace.specs.Holds.{HoldsNothing};
    ghost use Rattle.vt_grace.specs.Values.{PassValue};

    ghost Value = { PassValue };

    ghost view = { λ p. record { table = p.seat.table_id; view = pass_at p.seat } };

    ghost invariant = { λ p. IsPassing p.seat × HoldsNothing p.seat p.sampler };
}

/// A version that a sampler holds. Contracts see of which table it is, the version, and the view of its pass.
#[derive(Drop)]
pub struct Held {
    pub(crate) seat: Chair,
    pub(crate) sampler: u32,
    pub(crate) version: u64,
    // The word of the first entry of the version's bank, and of the first texel.
    pub(crate) first_entry: usize,
    pub(crate) first_texel: usize,
    // How many texels a frame has.
    pub(crate) texels: usize,
}

impl Model for Held {
    ghost use Rattle.std.specs.Prelude.{◌%◌};
    ghost use Rattle.vt_grace.specs.Seats.{IsPassing, pass_at};
    ghost use Rattle.vt_grace.specs.Holds.{IsHolding};
    ghost use Rattle.vt_grace.specs.Places.{AreStarts};
    ghost use Rattle.vt_grace.specs.Values.{HeldValue};

    ghost Value = { HeldValue };

    ghost view = { λ h. record { table = h.seat.table_id; version = h.version; view = pass_at h.seat } };

    ghost invariant = { λ h. IsPassing h.seat × IsHolding h.seat h.sampler h.version
        × AreStarts (pass_at h.seat).sizes (h.version % 4) h.first_entry h.first_texel h.texels };
}

/// The right to publish versions. Contracts see of which table it is, and what the writer knows, with which the words agree: only the
/// writer's own steps change it.
#[derive(Drop)]
pub struct WriterSeat {
    pub(crate) seat: Chair,
    // The newest version.
    pub(crate) version: u64,
}

impl Model for WriterSeat {
    ghost use Rattle.std.specs.Prelude.{◌≡◌, ◌≤◌};
    ghost use Rattle.vt_grace.specs.Seats.{IsWriting, writer_at};
    ghost use Rattle.vt_grace.specs.WriterViews.{version_of};
    ghost use Rattle.vt_journal.specs.Limits.{most_versions};
    ghost use Rattle.vt_grace.specs.Values.{WriterValue};

    ghost Value = { WriterValue };

    ghost view = { λ w. record { table = w.seat.table_id; view = writer_at w.seat } };

    ghost invariant = { λ w. IsWriting w.seat × (w.version ≡ version_of (writer_at w.seat)) × (w.version ≤ most_versions) };
}
