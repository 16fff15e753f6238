//! The drawing of a row in a version that was entered.

ghost use Rattle.std.specs.Prelude.{◌≡◌, ℕ, ◌+◌, ◌*◌, ◌<◌, ◌≤◌, ◌^◌, false, length, slice_index};
ghost use mathlib.Core.List.{IsPrefix};
ghost use Rattle.vt_definitions.specs.Depths.{IsDepth, texel_length};
ghost use Rattle.vt_pages.specs.Pages.{pages_of};
ghost use Rattle.vt_pictures.specs.Shots.{shot_row};
ghost use Rattle.vt_pictures.specs.Evidence.{AreShown, AreRaised};
ghost use Rattle.vt_swap_steps.specs.Caches.{AreOfOneLog, cache_of};
ghost use Rattle.vt_swap_steps.specs.Tables.{IsNewestTable};
ghost use Rattle.vt_swap_steps.specs.Slots.{AreSlotsOf};
ghost use Rattle.vt_swap.specs.Notes.{IsSaidBy};

use crate::lookup::SwapLookup;
use vt_pictures::{Filter, Shot};
use vt_swap_steps::{Front, NewestTable, Slot, again, learn};

/// Draws row `y` of a picture in a version that was entered, and tells whether a check of a frame failed. If one did, what it drew means
/// nothing; the counts are raised all the same.
pub(crate) fn draw_under<P: Filter>(
    table: &NewestTable,
    front: &mut Front,
    slots: &[Slot],
    shot: &Shot,
    y: u32,
    out: &mut [u8],
    counts: &mut [u32],
) -> bool
    requires table { IsNewestTable table.now }
    requires seen { IsPrefix table.now.front.seen.log front.old.seen.log }
    requires slots { AreSlotsOf (cache_of front.old) slots.now }
    requires depth { IsDepth shot.now.depth }
    requires picture { shot.now.picture < length shot.now.path.now.cameras }
    requires within { y < shot.now.path.now.height }
    requires bytes { length out.old ≡ texel_length shot.now.depth * shot.now.path.now.width }
    requires pages { length counts.old ≡ pages_of shot.now.geometry.now }
    requires room { (p : ℕ) → p < length counts.old → slice_index counts.old p + 4 * shot.now.path.now.width < 2 ^ 32 }
    ensures cache { AreOfOneLog front.new front.old }
    ensures later { IsPrefix front.old.seen.log front.new.seen.log }
    ensures drawn { result ≡ false
        → let row = shot_row shot.now.geometry.now shot.now.path.now shot.now.picture y in
        AreShown P.shown shot.now.geometry.now shot.now.depth table.now.version (IsSaidBy front.new.seen.log) row
        shot.now.path.now.width out.new }
    ensures counted { let row = shot_row shot.now.geometry.now shot.now.path.now shot.now.picture y in
        AreRaised P.wants shot.now.geometry.now row shot.now.path.now.width counts.old counts.new }
{
    let mut lookup = SwapLookup::new(table, again(front), slots, shot.geometry);
    P::draw_row(&mut lookup, shot, y, out, counts);
    let (seen, failed) = lookup.end();
    learn(front, &seen);
    failed
}
