//! A reader of a page cache.

ghost use Rattle.std.specs.Prelude.{◌≡◌, ℕ, ◌+◌, ◌*◌, ◌<◌, ◌≤◌, ◌^◌, [], ◌∷◌, false, length, slice_index, All, IfSome, MatchBool, MatchOption};
ghost use mathlib.Core.List.{IsPrefix};
ghost use Rattle.vt_definitions.specs.Depths.{IsDepth, texel_length};
ghost use Rattle.vt_pages.specs.Pages.{pages_of};
ghost use Rattle.vt_pictures.specs.Shots.{shot_row};
ghost use Rattle.vt_pictures.specs.Evidence.{AreShown, AreRaised};
ghost use Rattle.vt_swap_steps.specs.Logs.{changes_in, IsLawfulLog};
ghost use Rattle.vt_swap_steps.specs.Slots.{AreSlotsOf};
ghost use Rattle.vt_swap_steps.specs.LogWords.{IsEntry};
ghost use Rattle.vt_swap.specs.Notes.{IsSaidBy};
ghost use Rattle.vt_swap.specs.Readers.{HasEnteredMore, WasEntered};

use crate::drawing::draw_under;
use crate::streamer::SwapStreamer;
use std::marker::Model;
use std::sync::Wait;
use std::thread;
use vt_outside::{Gate, Point};
use vt_pictures::{Filter, Shot};
use vt_swap_steps::{Front, LeftRightReader, Slot, enter, entry_of, is_behind, is_lawful};

/// A reader of the newest page table and of the frames, as a sampler has it. Contracts see which cache it is, what the reader has
/// seen of its log, and which versions it entered, the newest first.
#[derive(Drop)]
pub struct TableReader {
    pub(crate) reader: LeftRightReader,
    pub(crate) front: Front,
}

impl Model for TableReader {
    ghost use Rattle.left_right.specs.Sides.{view as known_by};
    ghost use Rattle.vt_swap_steps.specs.Caches.{cache_of};
    ghost use Rattle.vt_swap_steps.specs.Rules.{KnowsLog};
    ghost use Rattle.vt_swap.specs.Readers.{ReaderView};

    ghost Value = { ReaderView };

    ghost view = { λ r. record { cache = cache_of r.front; log = r.front.seen.log; entered = (known_by r.reader.place).entered } };

    ghost invariant = { λ r. KnowsLog (known_by r.reader.place) r.front };
}

impl TableReader {
    /// Whether what it has seen of the log is a beginning of what the writer has done.
    pub fn is_known_to(&self, writer: &SwapStreamer) -> bool
        requires { self.now.cache ≡ writer.now.cache }
        ensures { MatchBool result (IsPrefix self.now.log writer.now.log) (IsPrefix writer.now.log self.now.log) }
    {
        is_behind(&self.front, &writer.front)
    }

    /// What it has seen of the log is lawful: each record could come after those before it.
    pub fn saw_lawful_log(&self)
        ensures { IsLawfulLog self.now.log }
    {
        is_lawful(&self.front);
    }

    /// The entry of a page in the version that was published last, which is 0 where the page is not mapped and else 1 more than its
    /// frame; `None` where the cache has no such page, and only there. It tells that version.
    pub fn entry<R: Wait>(self, rt: &R, page: u32) -> (TableReader, u64, Option<u32>)
        ensures entered { WasEntered self result.0 result.1 }
        ensures entry { IfSome result.2 (IsEntry result.0.log result.1 page) }
        ensures inside { MatchOption result.2 (self.cache.pages ≤ page) (λ entry. page < self.cache.pages) }
    {
        let TableReader { reader, mut front } = self;
        let (reading, version) = enter(rt, reader, &mut front);
        let entry = entry_of(reading.get(), page);
        let reader = reading.leave();
        (TableReader { reader, front }, version, entry)
    }

    /// Draws row `y` of a picture by a filter for a sampler, in a version of the page table that it enters, and tells that version. It
    /// enters anew, and draws the row anew, each time a frame did not have the tile of the page that the version maps to it. So it may
    /// wait.
    ///
    /// `slots` are those of all frames, `y` is below the picture's height, `out` has three samples a column of the shot's depth, and `counts` has a number for each
    /// page, each of which can rise by four times the picture's width; they are raised once. `spare` has as many numbers, which
    /// mean nothing. The gate is told of the row each time after a version was entered, and before the first look-up. It takes no
    /// memory and refuses nothing.
    pub fn draw_row<P: Filter, G: Gate, R: Wait>(
        self,
        rt: &R,
        slots: &[Slot],
        shot: &Shot,
        sampler: u32,
        y: u32,
        gate: &G,
        out: &mut [u8],
        counts: &mut [u32],
        spare: &mut [u32],
    ) -> (TableReader, u64)
        requires slots { AreSlotsOf self.cache slots.now }
        requires depth { IsDepth shot.now.depth }
        requires picture { shot.now.picture < length shot.now.path.now.cameras }
        requires within { y < shot.now.path.now.height }
        requires bytes { length out.old ≡ texel_length shot.now.depth * shot.now.path.now.width }
        requires pages { length counts.old ≡ pages_of shot.now.geometry.now }
        requires spares { length spare.old ≡ pages_of shot.now.geometry.now }
        requires room { (p : ℕ) → p < length counts.old → slice_index counts.old p + 4 * shot.now.path.now.width < 2 ^ 32 }
        ensures entered { WasEntered self result.0 result.1 }
        ensures drawn { let row = shot_row shot.now.geometry.now shot.now.path.now shot.now.picture y in
            AreShown P.shown shot.now.geometry.now shot.now.depth result.1 (IsSaidBy result.0.log) row
            shot.now.path.now.width out.new }
        ensures counted { let row = shot_row shot.now.geometry.now shot.now.path.now shot.now.picture y in
            AreRaised P.wants shot.now.geometry.now row shot.now.path.now.width counts.old counts.new }
    {
        let (reader, version, failed) = try_row::<P, G, R>(
            rt, self, slots, shot, sampler, y, gate, out, counts,
        );
        if !failed {
            return (reader, version);
        }
        draw_again::<P, G, R>(rt, reader, slots, shot, sampler, y, gate, out, spare)
    }
}

// Enters a version and draws a row in it; tells the version, and whether a check of a frame failed, so that the row means nothing.
fn try_row<P: Filter, G: Gate, R: Wait>(
    rt: &R,
    reader: TableReader,
    slots: &[Slot],
    shot: &Shot,
    sampler: u32,
    y: u32,
    gate: &G,
    out: &mut [u8],
    counts: &mut [u32],
) -> (TableReader, u64, bool)
    requires slots { AreSlotsOf reader.cache slots.now }
    requires depth { IsDepth shot.now.depth }
    requires picture { shot.now.picture < length shot.now.path.now.cameras }
    requires within { y < shot.now.path.now.height }
    requires bytes { length out.old ≡ texel_length shot.now.depth * shot.now.path.now.width }
    requires pages { length counts.old ≡ pages_of shot.now.geometry.now }
    requires room { (p : ℕ) → p < length counts.old → slice_index counts.old p + 4 * shot.now.path.now.width < 2 ^ 32 }
    ensures entered { HasEnteredMore reader result.0 (result.1 ∷ []) }
    ensures later { All (λ u. u ≤ result.1) reader.entered }
    ensures known { result.1 ≤ length (changes_in result.0.log) }
    ensures drawn { result.2 ≡ false
        → let row = shot_row shot.now.geometry.now shot.now.path.now shot.now.picture y in
        AreShown P.shown shot.now.geometry.now shot.now.depth result.1 (IsSaidBy result.0.log) row
        shot.now.path.now.width out.new }
    ensures counted { let row = shot_row shot.now.geometry.now shot.now.path.now shot.now.picture y in
        AreRaised P.wants shot.now.geometry.now row shot.now.path.now.width counts.old counts.new }
{
    let TableReader { reader, mut front } = reader;
    let (reading, version) = enter(rt, reader, &mut front);
    gate.at(Point::Row { sampler, row: y });
    let failed = draw_under::<P>(reading.get(), &mut front, slots, shot, y, out, counts);
    let reader = reading.leave();
    (TableReader { reader, front }, version, failed)
}

// Draws a row until no check of a frame failed.
fn draw_again<P: Filter, G: Gate, R: Wait>(
    rt: &R,
    reader: TableReader,
    slots: &[Slot],
    shot: &Shot,
    sampler: u32,
    y: u32,
    gate: &G,
    out: &mut [u8],
    spare: &mut [u32],
) -> (TableReader, u64)
    requires slots { AreSlotsOf reader.cache slots.now }
    requires depth { IsDepth shot.now.depth }
    requires picture { shot.now.picture < length shot.now.path.now.cameras }
    requires within { y < shot.now.path.now.height }
    requires bytes { length out.old ≡ texel_length shot.now.depth * shot.now.path.now.width }
    requires spares { length spare.old ≡ pages_of shot.now.geometry.now }
    ensures entered { WasEntered reader result.0 result.1 }
    ensures drawn { let row = shot_row shot.now.geometry.now shot.now.path.now shot.now.picture y in
        AreShown P.shown shot.now.geometry.now shot.now.depth result.1 (IsSaidBy result.0.log) row
        shot.now.path.now.width out.new }
{
    let mut reader = reader;
    for _ in rt.forever() {
        thread::yield_now();
        clear(spare);
        let _width = shot.path.width();
        let (back, version, failed) = try_row::<P, G, R>(
            rt, reader, slots, shot, sampler, y, gate, out, spare,
        );
        reader = back;
        if !failed {
            return (reader, version);
        }
    }
    unreachable!()
}

// Sets the count of each page to 0.
fn clear(counts: &mut [u32])
    ensures { (p : ℕ) → p < length counts.new → slice_index counts.new p ≡ 0 }
{
    counts.fill(0);
}
