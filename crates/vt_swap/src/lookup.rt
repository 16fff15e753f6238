//! The look-up in a version that was entered.

ghost use Rattle.std.specs.Prelude.{◌≡◌, ◌+◌, ◌<◌, ◌≤◌, false, IfSome, length};
ghost use mathlib.Core.List.{IsPrefix};
ghost use Rattle.vt_pages.specs.Pages.{pages_of, level_of, levels_of, ancestor_of};
ghost use Rattle.vt_pictures.specs.DrawLookups.{IsFinestFound};
ghost use Rattle.vt_swap_steps.specs.Tables.{IsNewestTable};
ghost use Rattle.vt_swap_steps.specs.Slots.{AreSlotsOf, IsSlotOf};
ghost use Rattle.vt_swap_steps.specs.Caches.{Cache, cache_of};
ghost use Rattle.vt_swap_steps.specs.LogWords.{HasWord, IsEntry};
ghost use Rattle.vt_swap.specs.Notes.{IsSaidBy};
ghost use Rattle.vt_swap.specs.Readers.{LookupView, IsSaidIn, lookup_base};

use counted_slot::Claim;
use std::marker::Model;
use std::mem;
use vt_pages::Geometry;
use vt_pictures::{Found, Lookup, place_of};
use vt_swap_steps::{
    Frame, Front, NewestTable, Slot, entry_of, give_back, right_to_read, word_in_hand,
};

/// A look-up of pages in a version of the page table that was entered. It has the right to read one frame at a time: that of the
/// texel it read last. Where a frame does not have the tile of the page that the table maps to it, the check is noted as failed, and
/// from then on nothing that it tells means anything.
pub(crate) struct SwapLookup<'a> {
    table: &'a NewestTable,
    front: Front,
    slots: &'a [Slot],
    geometry: &'a Geometry,
    held: Option<Claim<'a, Frame>>,
    // The frame that may be read, if one may.
    slot: u32,
    failed: bool,
}

impl<'a> Model for SwapLookup<'a> {
    ghost use Rattle.std.specs.Prelude.{◌≡◌, IfSome};
    ghost use Rattle.vt_swap_steps.specs.Caches.{cache_of};
    ghost use Rattle.vt_swap_steps.specs.Slots.{IsSlotOf};
    ghost use Rattle.vt_swap.specs.Readers.{LookupView, IsLookup};

    ghost Value = { LookupView };

    ghost view = { λ l. record {
      shape = l.geometry.now;
      table = l.table.now;
      slots = l.slots.now;
      cache = cache_of l.front;
      log = l.front.seen.log;
      slot = l.slot;
      failed = l.failed;
    } };

    ghost invariant = { λ l. IsLookup (record {
      shape = l.geometry.now;
      table = l.table.now;
      slots = l.slots.now;
      cache = cache_of l.front;
      log = l.front.seen.log;
      slot = l.slot;
      failed = l.failed;
    }) × IfSome l.held (λ claim. (claim.right ≡ 1) × IsSlotOf (cache_of l.front) l.slot claim.tag) };
}

impl<'a> SwapLookup<'a> {
    /// The look-up in a version that was entered, by what was seen of the log.
    pub(crate) fn new(
        table: &'a NewestTable,
        front: Front,
        slots: &'a [Slot],
        geometry: &'a Geometry,
    ) -> SwapLookup<'a>
        requires table { IsNewestTable table.now }
        requires seen { IsPrefix table.now.front.seen.log front.seen.log }
        requires slots { AreSlotsOf (cache_of front) slots.now }
        ensures { result ≡ record {
          shape = geometry.now;
          table = table.now;
          slots = slots.now;
          cache = cache_of front;
          log = front.seen.log;
          slot = 0;
          failed = false;
        } }
    {
        SwapLookup {
            table,
            front,
            slots,
            geometry,
            held: None,
            slot: 0,
            failed: false,
        }
    }

    /// Gives the right in hand back, and tells what was seen of the log and whether a check failed.
    pub(crate) fn end(self) -> (Front, bool)
        ensures front { (result.0.seen.log ≡ self.entry.log) × (cache_of result.0 ≡ self.entry.cache) }
        ensures failed { result.1 ≡ self.entry.failed }
    {
        let SwapLookup {
            table: _,
            front,
            slots: _,
            geometry: _,
            held,
            slot: _,
            failed,
        } = self;
        give_back(held);
        (front, failed)
    }

    // The finest page that the version maps of a page and its ancestors, if it maps one.
    fn find_mapped(&self, page: u32) -> Option<Found>
        requires { page < pages_of self.now.shape }
        ensures { IfSome result (IsFinestFound self.now.shape self.now.table.version (IsSaidIn self.now) page) }
    {
        finest_mapped(self.table, self.geometry, page)
    }

    // Takes the right to read a frame, in the place of the one in hand, which it gives back.
    fn take_right(&mut self, frame: u32)
        ensures { self.new ≡ record self.old { slot = frame } }
    {
        let held = mem::replace(&mut self.held, None);
        give_back(held);
        self.slot = frame;
        let right = right_to_frame(self.slots, frame);
        let nothing = mem::replace(&mut self.held, right);
        match nothing {
            None => {}
            Some(_) => unreachable!(),
        }
    }

    // Has the right to read a frame in hand, which is mostly there.
    #[inline(always)]
    fn reach(&mut self, frame: u32)
        ensures { self.new ≡ record self.old { slot = frame } }
    {
        if frame != self.slot || self.held.is_none() {
            self.take_right(frame);
        }
    }

    // The word at a place of the tile of a page, where the frame in hand has it; else the check failed.
    #[inline(always)]
    fn word(&mut self, page: u32, place: u32) -> u64
        ensures word { self.new.failed ≡ false → HasWord self.new.log self.new.slot page place result }
        ensures later { IsPrefix self.old.log self.new.log }
        ensures failed { self.new.failed ≡ false → self.old.failed ≡ false }
        ensures rest { self.new ≡ record self.old { log = self.new.log; failed = self.new.failed } }
    {
        match word_in_hand(&self.held, &mut self.front, self.slot, page, place) {
            Some(word) => word,
            None => {
                self.failed = true;
                0
            }
        }
    }
}

// The right to read a frame, if there is such a frame, and it has a tile that nobody is writing.
fn right_to_frame<'a>(slots: &'a [Slot], frame: u32) -> Option<Claim<'a, Frame>>
    ensures { (cache : Cache) → AreSlotsOf cache slots.now
        → IfSome result (λ claim. (claim.right ≡ 1) × IsSlotOf cache frame claim.tag) }
{
    let place = frame as usize;
    if place >= slots.len() {
        return None;
    }
    right_to_read(&slots[place])
}

// The finest page that a version maps of a page and its ancestors, if it maps one. It is called once for a run of pixels, and keeps out of
// their loop.
#[inline(never)]
fn finest_mapped(table: &NewestTable, geometry: &Geometry, page: u32) -> Option<Found>
    requires table { IsNewestTable table.now }
    requires page { page < pages_of geometry.now }
    ensures { IfSome result (IsFinestFound geometry.now table.now.version (IsSaidBy table.now.front.seen.log) page) }
{
    let name = geometry.page_at(page);
    for level in name.level..geometry.levels() {
        let ancestor = geometry.ancestor_at(page, level);
        let entry = entry_of(table, ancestor)?;
        if entry != 0 {
            return Some(Found {
                page: ancestor,
                level,
                slot: entry - 1,
            });
        }
    }
    None
}

// A page as if it had been found.
fn page_itself(geometry: &Geometry, page: u32) -> Found
    requires page { page < pages_of geometry.now }
    ensures level { (level_of geometry.now page ≤ result.level) × (result.level < levels_of geometry.now) }
    ensures page { result.page ≡ ancestor_of geometry.now page result.level }
    ensures own { result.level ≡ level_of geometry.now result.page }
    ensures least { result.level ≤ level_of geometry.now page }
{
    let level = geometry.page_at(page).level;
    Found {
        page: geometry.ancestor_at(page, level),
        level,
        slot: 0,
    }
}

impl Lookup for SwapLookup<'_> {
    ghost shape = { λ v. v.shape };

    ghost version = { λ v. v.table.version };

    ghost says = { IsSaidIn };

    ghost Kept = { LookupView };

    ghost kept = { lookup_base };

    #[inline]
    fn find(&mut self, page: u32) -> Found {
        match self.find_mapped(page) {
            Some(found) => found,
            None => {
                self.failed = true;
                page_itself(self.geometry, page)
            }
        }
    }

    #[inline(always)]
    fn texel(&mut self, found: &Found, x: u32, y: u32) -> u64 {
        let place = place_of(self.geometry, x, y);
        self.reach(found.slot);
        self.word(found.page, place)
    }
}
