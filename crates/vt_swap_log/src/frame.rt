//! A frame: a page's tile, and what was seen of the log when it was put there.

ghost use Rattle.std.specs.Prelude.{◌≡◌, ◌<◌, Some, length, slice_get};
ghost use Rattle.vt_swap_log.specs.declared.records.LogRecord.TheVariants.{Filled};

use crate::log::Front;
use crate::records::Tile;
use counted_slot::{Counted, Fits};

/// A tile, and under which number the log tells that the frame was filled with it.
#[derive(Drop)]
pub struct Frame {
    /// The tile.
    pub tile: Tile,
    /// Its number.
    pub number: u64,
    /// What was seen of the log.
    pub front: Front,
    ghost noted: { 0 < length tile.words.items
        → slice_get front.seen.log number ≡ Some (Filled tile.frame tile.page tile.words.items) },
}

/// Which frame a slot is, and of which page cache.
#[derive(Drop)]
pub struct FrameKey {
    pub(crate) frame: u32,
    pub(crate) front: Front,
}

impl Fits for Frame {
    ghost use Rattle.std.specs.Prelude.{◌≡◌};
    ghost use Rattle.vt_swap_log.specs.Caches.{AreOfOneLog};

    type Tag = FrameKey;

    ghost fits = { λ tag x. (x.tile.frame ≡ tag.frame) × AreOfOneLog x.front tag.front };
}

/// The slot of a frame, whose value readers have the right to read, or the writer to write. In a clause it is its key.
pub type Slot = Counted<Frame>;
