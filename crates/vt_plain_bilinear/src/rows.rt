//! Drawing a row of a picture by blends over a look-up of pages.

ghost use Rattle.std.specs.Prelude.{◌≡◌, ℕ, ◌+◌, ◌*◌, ◌<◌, ◌≤◌, ◌^◌, length, slice_index};
ghost use Rattle.vt_definitions.specs.Depths.{IsDepth, texel_length};
ghost use Rattle.vt_definitions.specs.Sides.{side};
ghost use Rattle.vt_pages.specs.Pages.{levels_of, pages_of, IsWithinLimits};
ghost use Rattle.vt_draw.specs.Lookups.{Note};
ghost use Rattle.vt_draw.specs.Shots.{paged_surface, shot_row, run_of};
ghost use Rattle.vt_blend.specs.Corners.{AreInside};
ghost use Rattle.vt_plain_bilinear.specs.Served.{LookupGoesOn, AreCornersServed, pages_about, IsMemo, AreBlended, AreTexelsCounted};
ghost use Rattle.vt_blend.specs.Counting.{times_among};

use crate::served::{Memo, are_one, memo_of, pages_about, words_on};
use vt_blend::{
    Corners, Texels, add_texels, blend_words, corners_of, count_apart, count_together, weights_of,
};
use vt_camera::Row;
use vt_definitions::put_word;
use vt_draw::{Lookup, Shot, row_of};
use vt_pages::Geometry;

/// Draws row `y` of a picture by bilinear filtering: writes the bytes of its pixels to `out`, three samples a pixel, the most
/// significant byte of a sample first, each the blend of the four texels about the pixel's place, and adds these texels to the counts of
/// their pages.
///
/// `y` is below the picture's height, the shot's depth is 1 or 2, `out` has three samples of so many bytes for each column, and
/// `counts` has a number for each page, each of which can rise by four times the picture's width. The look-up is asked once for
/// neighbouring texels of one page. It takes no memory and refuses nothing.
pub fn draw_row_blend<K: Lookup>(
    lookup: &mut K,
    shot: &Shot,
    y: u32,
    out: &mut [u8],
    counts: &mut [u32],
)
    requires depth { IsDepth shot.now.depth }
    requires picture { shot.now.picture < length shot.now.path.now.cameras }
    requires within { y < shot.now.path.now.height }
    requires bytes { length out.old ≡ texel_length shot.now.depth * shot.now.path.now.width }
    requires pages { length counts.old ≡ pages_of shot.now.geometry.now }
    requires room { (p : ℕ) → p < length counts.old → slice_index counts.old p + 4 * shot.now.path.now.width < 2 ^ 32 }
    requires shape { K.shape lookup.old ≡ shot.now.geometry.now }
    ensures drawn { let row = shot_row shot.now.geometry.now shot.now.path.now shot.now.picture y in
        AreBlended shot.now.geometry.now shot.now.depth (K.version lookup.new) (K.says lookup.new) row
        shot.now.path.now.width out.new }
    ensures counted { let row = shot_row shot.now.geometry.now shot.now.path.now shot.now.picture y in
        AreTexelsCounted shot.now.geometry.now row shot.now.path.now.width counts.old counts.new }
    ensures said { (note : Note) → K.says lookup.old note → K.says lookup.new note }
    ensures version { K.version lookup.new ≡ K.version lookup.old }
    ensures shape { K.shape lookup.new ≡ K.shape lookup.old }
    ensures kept { K.kept lookup.new ≡ K.kept lookup.old }
{
    let row = row_of(shot, y);
    let columns = shot.path.width();
    if shot.depth == 1 {
        blend_pixels::<K, 1>(lookup, shot.geometry, row, columns, out, counts);
    } else {
        blend_pixels::<K, 2>(lookup, shot.geometry, row, columns, out, counts);
    }
}

// The words at the corners of a pixel of a level, and counts its texels; and the page of the last pixel whose texels are all on one
// page, with the length of its run.
#[inline(always)]
fn take_texels<K: Lookup>(
    lookup: &mut K,
    geometry: &Geometry,
    memo: &mut Memo,
    level: u32,
    at: &Corners,
    last: u32,
    run: u32,
    counts: &mut [u32],
) -> (Texels, u32, u32)
    requires limits { IsWithinLimits geometry.now }
    requires shape { K.shape lookup.old ≡ geometry.now }
    requires known { IsMemo geometry.now (K.version lookup.old) (K.says lookup.old) memo.old }
    requires level { level < levels_of geometry.now }
    requires inside { AreInside (side geometry.now.width level) (side geometry.now.height level) at.now }
    requires page { last < pages_of geometry.now }
    requires pages { length counts.old ≡ pages_of geometry.now }
    requires room { (p : ℕ) → p < length counts.old → slice_index counts.old p + run_of last run p + 4 < 2 ^ 32 }
    ensures served { AreCornersServed geometry.now (K.version lookup.old) (K.says lookup.new) level at.now result.0 }
    ensures page { result.1 < pages_of geometry.now }
    ensures known { IsMemo geometry.now (K.version lookup.old) (K.says lookup.new) memo.new }
    ensures counted { (p : ℕ) → slice_index counts.new p + run_of result.1 result.2 p
        ≡ slice_index counts.old p + run_of last run p + times_among (pages_about geometry.now level at.now) p }
    ensures on { LookupGoesOn (K.shape lookup.old) (K.version lookup.old) (K.says lookup.old) (K.kept lookup.old)
        (K.shape lookup.new) (K.version lookup.new) (K.says lookup.new) (K.kept lookup.new) }
{
    let pages = pages_about(geometry, level, at);
    let texels = words_on(lookup, geometry, memo, level, at, &pages);
    if are_one(&pages) {
        let run = count_together(counts, last, run, pages.first);
        (texels, pages.first, run)
    } else {
        count_apart(counts, &pages);
        (texels, last, run)
    }
}

// Draws so many pixels of a row of a picture whose samples have DEPTH bytes. It takes the row by value, for then no write can be one
// to the row's numbers.
#[inline(never)]
fn blend_pixels<K: Lookup, const DEPTH: u32>(
    lookup: &mut K,
    geometry: &Geometry,
    row: Row,
    columns: u32,
    out: &mut [u8],
    counts: &mut [u32],
)
    requires depth { IsDepth DEPTH }
    requires limits { IsWithinLimits geometry.now }
    requires surface { row.surface ≡ paged_surface geometry.now }
    requires some { 1 ≤ columns }
    requires width { columns ≤ row.width }
    requires bytes { length out.old ≡ texel_length DEPTH * columns }
    requires pages { length counts.old ≡ pages_of geometry.now }
    requires room { (p : ℕ) → p < length counts.old → slice_index counts.old p + 4 * columns < 2 ^ 32 }
    requires shape { K.shape lookup.old ≡ geometry.now }
    ensures drawn { AreBlended geometry.now DEPTH (K.version lookup.new) (K.says lookup.new) row columns out.new }
    ensures counted { AreTexelsCounted geometry.now row columns counts.old counts.new }
    ensures on { LookupGoesOn (K.shape lookup.old) (K.version lookup.old) (K.says lookup.old) (K.kept lookup.old)
        (K.shape lookup.new) (K.version lookup.new) (K.says lookup.new) (K.kept lookup.new) }
{
    let level = row.level();
    let (wide, high) = geometry.level_size(level);
    let at = corners_of(&row, level, wide, high, 0);
    let page = geometry.page_of_texel(level, at.column, at.line);
    let mut memo = memo_of(lookup, geometry, page);
    let mut last = page;
    let mut run = 0;
    for x in 0..columns {
        let at = corners_of(&row, level, wide, high, x);
        let (texels, page, length) = take_texels(
            lookup, geometry, &mut memo, level, &at, last, run, counts,
        );
        last = page;
        run = length;
        put_word::<DEPTH>(
            out,
            x as usize,
            blend_words::<DEPTH>(&weights_of(&at), &texels),
        );
    }
    add_texels(counts, last, run);
}
