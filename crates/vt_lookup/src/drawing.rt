//! The drawing of a row under a hold.

ghost use Rattle.std.specs.Prelude.{◌≡◌, ℕ, ◌+◌, ◌*◌, ◌<◌, ◌≤◌, ◌^◌, true, [], ◌∷◌, length, slice_index};
ghost use Rattle.vt_pictures.specs.Depths.{IsDepth, texel_length};
ghost use Rattle.vt_pages.specs.Pages.{pages_of};
ghost use Rattle.vt_pictures.specs.Shots.{shot_row};
ghost use Rattle.vt_pictures.specs.Evidence.{AreShown, AreRaised};
ghost use Rattle.vt_grace.specs.PassViews.{NoneAbove};
ghost use Rattle.vt_grace.specs.Tokens.{IsPassOf, IsHeldOf};
ghost use Rattle.vt_lookup.specs.Notes.{FitsShape, IsNotedIn, HasNotedMore, HasHeldMore};

use crate::lookup::HeldLookup;
use vt_grace::{Held, Pass, Words};
use vt_outside::{Gate, Point};
use vt_pictures::{Filter, Shot};

// Draws row y of a picture in the version that is held.
fn draw_under<P: Filter>(
    held: Held,
    words: &Words,
    shot: &Shot,
    y: u32,
    out: &mut [u8],
    counts: &mut [u32],
) -> Held
    requires of { IsHeldOf words.now held }
    requires fits { FitsShape shot.now.geometry.now words.now.sizes }
    requires rooted { held.view.rooted ≡ true }
    requires depth { IsDepth shot.now.depth }
    requires picture { shot.now.picture < length shot.now.path.now.cameras }
    requires within { y < shot.now.path.now.height }
    requires bytes { length out.old ≡ texel_length shot.now.depth * shot.now.path.now.width }
    requires pages { length counts.old ≡ pages_of shot.now.geometry.now }
    requires room { (p : ℕ) → p < length counts.old → slice_index counts.old p + 4 * shot.now.path.now.width < 2 ^ 32 }
    ensures of { IsHeldOf words.now result }
    ensures version { result.version ≡ held.version }
    ensures more { HasNotedMore held.view result.view }
    ensures drawn { let row = shot_row shot.now.geometry.now shot.now.path.now shot.now.picture y in
        AreShown P.shown shot.now.geometry.now shot.now.depth held.version (IsNotedIn result.view) row
        shot.now.path.now.width out.new }
    ensures counted { let row = shot_row shot.now.geometry.now shot.now.path.now shot.now.picture y in
        AreRaised P.wants shot.now.geometry.now row shot.now.path.now.width counts.old counts.new }
{
    let mut lookup = HeldLookup::new(held, words, shot.geometry);
    P::draw_row(&mut lookup, shot, y, out, counts);
    lookup.into_held()
}

/// Draws row `y` of a picture by a filter for a sampler in the newest version of a table of words, holds that version
/// meanwhile, and tells it.
///
/// The pass is the sampler's and was given at a version that maps the root, and the words are those of the picture's geometry.
/// `y` is below the picture's height, `out` has three samples a column of the shot's depth, and `counts` has a number for each page,
/// each of which can rise by four times the picture's width. The gate is told of the row after the pin and before the first look-up.
/// It takes no memory and refuses nothing.
pub fn draw_held<P: Filter, G: Gate>(
    pass: Pass,
    words: &Words,
    shot: &Shot,
    sampler: u32,
    y: u32,
    gate: &G,
    out: &mut [u8],
    counts: &mut [u32],
) -> (Pass, u64)
    requires of { IsPassOf words.now pass }
    requires fits { FitsShape shot.now.geometry.now words.now.sizes }
    requires rooted { pass.view.rooted ≡ true }
    requires own { pass.view.sampler ≡ sampler }
    requires depth { IsDepth shot.now.depth }
    requires picture { shot.now.picture < length shot.now.path.now.cameras }
    requires within { y < shot.now.path.now.height }
    requires bytes { length out.old ≡ texel_length shot.now.depth * shot.now.path.now.width }
    requires pages { length counts.old ≡ pages_of shot.now.geometry.now }
    requires room { (p : ℕ) → p < length counts.old → slice_index counts.old p + 4 * shot.now.path.now.width < 2 ^ 32 }
    ensures of { IsPassOf words.now result.0 }
    ensures more { HasHeldMore pass.view result.0.view (result.1 ∷ []) }
    ensures later { NoneAbove result.1 pass.view.held }
    ensures given { pass.view.given ≤ result.1 }
    ensures drawn { let row = shot_row shot.now.geometry.now shot.now.path.now shot.now.picture y in
        AreShown P.shown shot.now.geometry.now shot.now.depth result.1 (IsNotedIn result.0.view) row
        shot.now.path.now.width out.new }
    ensures counted { let row = shot_row shot.now.geometry.now shot.now.path.now shot.now.picture y in
        AreRaised P.wants shot.now.geometry.now row shot.now.path.now.width counts.old counts.new }
{
    let held = pass.pin(words);
    let version = held.version();
    gate.at(Point::Row { sampler, row: y });
    let held = draw_under::<P>(held, words, shot, y, out, counts);
    (held.unpin(words), version)
}
