//! Drawing a row of a picture over a look-up of pages.

ghost use Rattle.std.specs.Prelude.{◌≡◌, ℕ, ◌+◌, ◌*◌, ◌<◌, ◌≤◌, ◌^◌, length, slice_index};
ghost use Rattle.vt_pages.specs.Depths.{IsDepth, texel_length};
ghost use Rattle.vt_pages.specs.Pages.{pages_of, IsWithinLimits};
ghost use Rattle.vt_draw.specs.Lookups.{Note};
ghost use Rattle.vt_draw.specs.Shots.{paged_surface, shot_row, run_of, AreDrawn, AreCounted};

use crate::lookups::Lookup;
use crate::pixels::{found_for, page_at_place, word_at_place};
use vt_camera::{Path, Row, Surface};
use vt_pages::{Geometry, put_word};

/// A picture to draw: a texture that is cut into pages, a path, and the number of one of the path's pictures.
#[derive(Clone, Copy)]
pub struct Shot<'a> {
    /// How the texture is cut into pages.
    pub geometry: &'a Geometry,
    /// The path along which pictures are taken.
    pub path: &'a Path,
    /// The picture's number, below the path's number of pictures.
    pub picture: u32,
    /// How many bytes a sample has, 1 or 2.
    pub depth: u32,
}

/// Row `y` of the picture, below its height.
pub fn row_of(shot: &Shot, y: u32) -> Row
    requires picture { shot.now.picture < length shot.now.path.now.cameras }
    requires within { y < shot.now.path.now.height }
    ensures row { result ≡ shot_row shot.now.geometry.now shot.now.path.now shot.now.picture y }
    ensures width { result.width ≡ shot.now.path.now.width }
    ensures surface { result.surface ≡ paged_surface shot.now.geometry.now }
    ensures limits { IsWithinLimits shot.now.geometry.now }
{
    let surface = Surface {
        width: shot.geometry.width(),
        height: shot.geometry.height(),
        levels: shot.geometry.levels(),
    };
    let camera = shot.path.camera(shot.picture);
    Row::of(shot.path, &camera, y, &surface)
}

/// Draws row `y` of a picture: writes the bytes of its pixels to `out`, three samples a pixel, the most significant byte of a
/// sample first, and adds its pixels to the counts of their wanted pages.
///
/// `y` is below the picture's height, the shot's depth is 1 or 2, `out` has three samples of so many bytes for each column,
/// and `counts` has a number for each page, each of which can rise by the picture's width. The look-up is asked once for a
/// run of neighbouring pixels that want the same page. It takes no memory and refuses nothing.
pub fn draw_row<K: Lookup>(lookup: &mut K, shot: &Shot, y: u32, out: &mut [u8], counts: &mut [u32])
    requires depth { IsDepth shot.now.depth }
    requires picture { shot.now.picture < length shot.now.path.now.cameras }
    requires within { y < shot.now.path.now.height }
    requires bytes { length out.old ≡ texel_length shot.now.depth * shot.now.path.now.width }
    requires pages { length counts.old ≡ pages_of shot.now.geometry.now }
    requires room { (p : ℕ) → p < length counts.old → slice_index counts.old p + shot.now.path.now.width < 2 ^ 32 }
    requires shape { K.shape lookup.old ≡ shot.now.geometry.now }
    ensures drawn { let row = shot_row shot.now.geometry.now shot.now.path.now shot.now.picture y in
        AreDrawn shot.now.geometry.now shot.now.depth (K.version lookup.new) (K.says lookup.new) row
        shot.now.path.now.width out.new }
    ensures counted { let row = shot_row shot.now.geometry.now shot.now.path.now shot.now.picture y in
        AreCounted shot.now.geometry.now row shot.now.path.now.width counts.old counts.new }
    ensures said { (note : Note) → K.says lookup.old note → K.says lookup.new note }
    ensures version { K.version lookup.new ≡ K.version lookup.old }
    ensures shape { K.shape lookup.new ≡ K.shape lookup.old }
    ensures kept { K.kept lookup.new ≡ K.kept lookup.old }
{
    let row = row_of(shot, y);
    let columns = shot.path.width();
    if shot.depth == 1 {
        draw_pixels::<K, 1>(lookup, shot.geometry, row, columns, out, counts);
    } else {
        draw_pixels::<K, 2>(lookup, shot.geometry, row, columns, out, counts);
    }
}

// Adds a run of pixels that want a page to the page's count.
fn add_run(counts: &mut [u32], page: u32, run: u32)
    requires page { page < length counts.old }
    requires room { slice_index counts.old page + run < 2 ^ 32 }
    ensures added { (p : ℕ) → slice_index counts.new p ≡ slice_index counts.old p + run_of page run p }
{
    counts[page as usize] += run;
}

// Counts a pixel: one that wants the page of the pixel before it makes that page's run longer, and any other begins a run.
#[inline(always)]
fn count_pixel(counts: &mut [u32], before: u32, run: u32, page: u32) -> u32
    requires before { before < length counts.old }
    requires room { slice_index counts.old before + run < 2 ^ 32 }
    requires short { run + 1 < 2 ^ 32 }
    ensures counted { (p : ℕ) → slice_index counts.new p + run_of page result p
        ≡ slice_index counts.old p + run_of before run p + run_of page 1 p }
    ensures short { result ≤ run + 1 }
{
    if page == before {
        return run + 1;
    }
    add_run(counts, before, run);
    1
}

// Draws so many pixels of a row of a picture whose samples have DEPTH bytes. It takes the row by value, for then no write can be one
// to the row's numbers.
#[inline(never)]
fn draw_pixels<K: Lookup, const DEPTH: u32>(
    lookup: &mut K,
    geometry: &Geometry,
    row: Row,
    columns: u32,
    out: &mut [u8],
    counts: &mut [u32],
)
    requires depth { IsDepth DEPTH }
    requires limits { IsWithinLimits geometry.now }
    requires surface { row.surface ≡ paged_surface geometry.now }
    requires some { 1 ≤ columns }
    requires width { columns ≤ row.width }
    requires bytes { length out.old ≡ texel_length DEPTH * columns }
    requires pages { length counts.old ≡ pages_of geometry.now }
    requires room { (p : ℕ) → p < length counts.old → slice_index counts.old p + columns < 2 ^ 32 }
    requires shape { K.shape lookup.old ≡ geometry.now }
    ensures drawn { AreDrawn geometry.now DEPTH (K.version lookup.new) (K.says lookup.new) row columns out.new }
    ensures counted { AreCounted geometry.now row columns counts.old counts.new }
    ensures said { (note : Note) → K.says lookup.old note → K.says lookup.new note }
    ensures version { K.version lookup.new ≡ K.version lookup.old }
    ensures shape { K.shape lookup.new ≡ K.shape lookup.old }
    ensures kept { K.kept lookup.new ≡ K.kept lookup.old }
{
    let level = row.level();
    let (column, line) = row.texel(0);
    let mut wanted = page_at_place(geometry, level, column, line);
    let mut found = lookup.find(wanted);
    let mut run = 0;
    for x in 0..columns {
        let (column, line) = row.texel(x);
        let page = page_at_place(geometry, level, column, line);
        found = found_for(lookup, wanted, found, page);
        run = count_pixel(counts, wanted, run, page);
        wanted = page;
        let word = word_at_place(lookup, &found, level, column, line);
        put_word::<DEPTH>(out, x as usize, word);
    }
    add_run(counts, wanted, run);
}
