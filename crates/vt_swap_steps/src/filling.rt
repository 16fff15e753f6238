//! A free frame is filled with the tile of a page, and the page is mapped to it.

ghost use Rattle.std.specs.Prelude.{◌≡◌, ◌+◌, ◌<◌, ◌≤◌, ◌^◌, [], ◌∷◌, ◌++◌, drop, length, IfSome, IsSome, OnOk};
ghost use Rattle.vt_journal.specs.Limits.{most_versions};
ghost use Rattle.vt_journal.specs.declared.changes.Change.TheVariants.{Map};
ghost use Rattle.vt_journal.specs.Changes.{newest, IsNext};
ghost use Rattle.vt_swap_log.specs.declared.records.LogRecord.TheVariants.{Changed, Filled};
ghost use Rattle.vt_swap_log.specs.Logs.{MayFollow};
ghost use Rattle.vt_swap_log.specs.Heads.{IsHeadOf};
ghost use Rattle.vt_swap_log.specs.Caches.{AreOfOneLog, cache_of};
ghost use Rattle.vt_swap_steps.specs.Tables.{IsPublished, journal_of};
ghost use Rattle.vt_swap_log.specs.Slots.{IsSlotOf};

use crate::noted::note_tile;
use crate::publishing::{MOST_RECORDS, TableWriter, note_and_publish};
use std::sync::Wait;
use vt_journal::Change;
use vt_outside::NoMemory;
use vt_swap_log::{Front, Head, Slot, Tile};

// Notes that a free frame is filled with the tile of a page, takes the right to write it, and puts the tile there. The words that
// were there come back. Each change before is published.
fn fill_slot<R: Wait>(
    rt: &R,
    home: &Option<TableWriter>,
    head: &Head,
    front: &mut Front,
    slot: &Slot,
    frame: u32,
    page: u32,
    words: Vec<u64>,
) -> Result<Vec<u64>, NoMemory>
    requires published { IfSome home.now (λ w. IsPublished w.desk.shown.value (drop w.behind w.log.items) front.old) }
    requires of { IsHeadOf head.now front.old }
    requires may { MayFollow front.old.seen.log (Filled frame page words.items) }
    requires slot { IsSlotOf (cache_of front.old) frame slot.now }
    ensures of { IsHeadOf head.now front.new }
    ensures cache { AreOfOneLog front.new front.old }
    ensures noted { OnOk result (front.new.seen.log ≡ front.old.seen.log ++ Filled frame page words.items ∷ []) }
{
    if front.count >= MOST_RECORDS {
        return Err(NoMemory);
    }
    match note_tile(head, front, Tile { frame, page, words }) {
        Some(noted) => Ok(noted.put(rt, home, slot)),
        None => Err(NoMemory),
    }
}

/// Fills a free frame with the words of a page's tile, and then maps the page to it. The words that were there come back.
#[tactic(auto, using(crate::proofs::Published::log_mapped))]
pub fn fill_and_map<R: Wait>(
    rt: &R,
    home: &mut Option<TableWriter>,
    head: &Head,
    front: &mut Front,
    slot: &Slot,
    page: u32,
    frame: u32,
    words: Vec<u64>,
) -> Result<Vec<u64>, NoMemory>
    requires there { IsSome home.old }
    requires published { IfSome home.old (λ w. IsPublished w.desk.shown.value (drop w.behind w.log.items) front.old) }
    requires of { IsHeadOf head.now front.old }
    requires slot { IsSlotOf (cache_of front.old) frame slot.now }
    requires next { IsNext (newest (journal_of front.old)) (Map page frame) }
    requires early { length (journal_of front.old) + 1 ≤ most_versions }
    requires small { frame + 1 < 2 ^ 32 }
    ensures there { IsSome home.new }
    ensures of { IsHeadOf head.now front.new }
    ensures cache { AreOfOneLog front.new front.old }
    ensures noted { OnOk result (front.new.seen.log
        ≡ front.old.seen.log ++ Filled frame page words.items ∷ Changed (Map page frame) ∷ []) }
    ensures journal { OnOk result (journal_of front.new ≡ journal_of front.old ++ Map page frame ∷ []) }
    ensures published { OnOk result
        (IfSome home.new (λ w. IsPublished w.desk.shown.value (drop w.behind w.log.items) front.new)) }
{
    let before = fill_slot(rt, home, head, front, slot, frame, page, words)?;
    note_and_publish(rt, home, head, front, Change::Map { page, frame })?;
    Ok(before)
}
