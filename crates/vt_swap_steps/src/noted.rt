//! A tile that was noted in the log, and has to be put into its frame.

ghost use Rattle.std.specs.Prelude.{◌≡◌, ◌<◌, ◌^◌, [], ◌∷◌, ◌++◌, drop, length, IfSome};
ghost use Rattle.vt_swap_log.specs.declared.records.LogRecord.TheVariants.{Filled};
ghost use Rattle.vt_swap_log.specs.Logs.{MayFollow};
ghost use Rattle.vt_swap_log.specs.Heads.{IsHeadOf};
ghost use Rattle.vt_swap_log.specs.Caches.{AreOfOneLog, cache_of};
ghost use Rattle.vt_swap_steps.specs.Tables.{IsPublished};
ghost use Rattle.vt_swap_log.specs.Slots.{IsSlotOf};

use crate::publishing::TableWriter;
use counted_slot::PRESENT;
use logbook::Offer;
use std::sync::Wait;
use vt_swap_log::{
    Add, Frame, Front, Head, Law, LogRecord, Nothing, Slot, Tile, add, again, right_to_write,
};

/// A tile that was noted as the one with which its frame is filled. It has no `Drop`, and `put` alone takes it: so who notes a tile has
/// to put it into the slot of its frame.
pub(crate) struct NotedTile {
    frame: Frame,
}

/// Notes that a frame, which is free, is filled with a tile, which has to be put there then; `None` where the log is longer than what
/// was seen of it.
#[tactic(auto, using(crate::proofs::Published::noted_last))]
pub(crate) fn note_tile(head: &Head, front: &mut Front, tile: Tile) -> Option<NotedTile>
    requires of { IsHeadOf head.now front.old }
    requires may { MayFollow front.old.seen.log (Filled tile.frame tile.page tile.words.items) }
    requires room { length front.old.seen.log < 2 ^ 62 }
    ensures of { IsHeadOf head.now front.new }
    ensures cache { AreOfOneLog front.new front.old }
    ensures added { IfSome result (λ noted. front.new.seen.log
        ≡ front.old.seen.log ++ Filled tile.frame tile.page tile.words.items ∷ []) }
    ensures tile { IfSome result (λ noted. (noted.frame.tile ≡ tile) × (noted.frame.front ≡ front.new)) }
{
    let number = front.count;
    let offer: Offer<LogRecord, u64, Law, Nothing> = front.seen.plain::<Nothing, Tile, Add>(&tile);
    if !add(head, front, offer) {
        return None;
    }
    let frame = Frame {
        tile,
        number,
        front: again(front),
    };
    Some(NotedTile { frame })
}

impl NotedTile {
    /// Takes the right to write the slot of its frame, and puts the tile there. The words that were there come back. Each change of the
    /// page table is published by then, so readers who enter find no page in the frame. It waits for those who still read it.
    pub(crate) fn put<R: Wait>(self, rt: &R, home: &Option<TableWriter>, slot: &Slot) -> Vec<u64>
        requires slot { IsSlotOf (cache_of self.frame.front) self.frame.tile.frame slot.now }
        requires published { IfSome home.now
            (λ w. IsPublished w.desk.shown.value (drop w.behind w.log.items) self.frame.front) }
    {
        let _ = home;
        let NotedTile { frame } = self;
        let Frame {
            tile,
            number: _,
            front: _,
        } = right_to_write(rt, slot).put(frame, PRESENT);
        let Tile {
            frame: _,
            page: _,
            words,
        } = tile;
        words
    }
}
