//! Drawing the plain picture by blends.

ghost use Rattle.std.specs.Prelude.{◌≡◌, ◌+◌, ◌*◌, ◌<◌, ◌≤◌, length, IfOk};
ghost use Rattle.vt_definitions.specs.Depths.{IsDepth, texel_length, word_at};
ghost use Rattle.vt_definitions.specs.Limits.{most_levels, most_read_side};
ghost use Rattle.vt_plain.specs.Plain.{chain_of, surface_of};
ghost use Rattle.vt_blend.specs.Corners.{AreInside};
ghost use Rattle.vt_blend.specs.Blends.{texels_of};
ghost use Rattle.vt_plain.specs.BlendedPlain.{row_blends, plain_blends};
ghost use Rattle.vt_plain.specs.BlendViews.{IsBlendRowOf, row_blended};

use crate::parts::{Rows, draw_in_threads};
use crate::plain::surface_of;
use std::alloc::Global;
use std::thread::Threads;
use vt_blend::{Corners, Texels, blend_words, corners_of, weights_of};
use vt_camera::{Camera, Path, Row, Surface};
use vt_definitions::{put_word, texel_length, texels_with_bytes_have_words, word_at};
use vt_mip::{Chain, chain_words_are_small, texture_samples_are_bytes};
use vt_outside::NoMemory;
use vt_threads::{BLENDING_TIME, processors, threads_for};

/// Draws the plain picture with this number of a path by bilinear filtering, row by row from the top: three samples a pixel, each of as
/// many bytes as the chain's samples have, the most significant first. A pixel is the blend of the four texels about its place, of the
/// level of its row.
pub fn draw_plain_blend<Rt: Threads + Sync>(
    rt: &Rt,
    alloc: Global,
    chain: &Chain,
    path: &Path,
    picture: u32,
) -> Result<Vec<u8>, NoMemory>
    requires { picture < length path.now.cameras }
    ensures samples { IfOk result (λ samples. samples.items ≡ plain_blends chain.now.base chain.now.tile path.now picture) }
    ensures size { IfOk result (λ samples.
        length samples.items ≡ texel_length chain.now.base.depth * (path.now.width * path.now.height)) }
{
    let size = texel_length(chain.depth()) * path.width() as usize * path.height() as usize;
    let mut samples = vec![in alloc; 0u8; size]?;
    let threads = threads_for(
        processors(rt),
        BLENDING_TIME * path.width() as u64 * path.height() as u64,
    );
    draw_plain_blend_into(rt, threads, chain, path, picture, samples.as_mut_slice());
    Ok(samples)
}

/// Draws the plain picture as `draw_plain_blend` does into room for its bytes, in so many threads. It takes no memory and refuses
/// nothing.
pub fn draw_plain_blend_into<Rt: Threads + Sync>(
    rt: &Rt,
    threads: usize,
    chain: &Chain,
    path: &Path,
    picture: u32,
    out: &mut [u8],
)
    requires picture { picture < length path.now.cameras }
    requires room { length out.old ≡ texel_length chain.now.base.depth * (path.now.width * path.now.height) }
    ensures { out.new ≡ plain_blends chain.now.base chain.now.tile path.now picture }
{
    let view = BlendView {
        chain,
        path,
        camera: path.camera(picture),
        surface: surface_of(chain),
    };
    let size = texel_length(chain.depth()) * path.width() as usize;
    draw_in_threads(rt, threads, &view, path.height(), size, out);
}

// What the rows of a picture are blended of: a chain, a path, the picture's camera, and the chain as a surface to it.
#[derive(Clone, Copy)]
struct BlendView<'a> {
    chain: &'a Chain,
    path: &'a Path,
    camera: Camera,
    surface: Surface,
}

impl Rows for BlendView<'_> {
    ghost use Rattle.vt_plain.specs.BlendViews.{IsBlendRowOf, row_blended};

    ghost fits = { IsBlendRowOf };

    ghost bytes = { row_blended };

    fn draw_row(&self, y: u32, out: &mut [u8]) {
        if self.chain.depth() == 1 {
            blend_view_row::<1>(self, y, out);
        } else {
            blend_view_row::<2>(self, y, out);
        }
    }
}

// Writes the bytes of a row of a chain whose samples have DEPTH bytes.
fn blend_view_row<const DEPTH: u32>(view: &BlendView<'_>, y: u32, out: &mut [u8])
    requires depth { IsDepth DEPTH }
    requires own { view.now.chain.now.base.depth ≡ DEPTH }
    requires row { IsBlendRowOf view.now y (length out.old) }
    ensures { out.new ≡ row_blended view.now y }
{
    let columns = view.path.width();
    let row = Row::of(view.path, &view.camera, y, &view.surface);
    blend_row::<DEPTH>(view.chain, row, columns, out);
}

// Writes the bytes of a row of so many pixels. It takes the row by value, for then no write can be one to the row's numbers.
#[inline(never)]
fn blend_row<const DEPTH: u32>(chain: &Chain, row: Row, columns: u32, out: &mut [u8])
    requires depth { IsDepth DEPTH }
    requires own { chain.now.base.depth ≡ DEPTH }
    requires surface { row.surface ≡ surface_of chain.now.base chain.now.tile }
    requires width { columns ≤ row.width }
    requires levels { row.surface.levels ≤ most_levels }
    requires room { length out.old ≡ texel_length DEPTH * columns }
    ensures { out.new ≡ row_blends DEPTH (chain_of chain.now.base) row columns }
{
    texture_samples_are_bytes(chain);
    chain_words_are_small();
    texels_with_bytes_have_words();
    let level = row.level();
    let texels = chain.samples(level);
    let (wide, high) = chain.size(level);
    for x in 0..columns {
        let at = corners_of(&row, level, wide, high, x);
        let words = texels_about::<DEPTH>(texels, wide, high, &at);
        put_word::<DEPTH>(
            out,
            x as usize,
            blend_words::<DEPTH>(&weights_of(&at), &words),
        );
    }
}

// The words at some corners of a level whose texels are row by row, in so many columns and rows.
#[inline(always)]
fn texels_about<const DEPTH: u32>(texels: &[u8], columns: u32, rows: u32, at: &Corners) -> Texels
    requires depth { IsDepth DEPTH }
    requires few_columns { columns ≤ most_read_side }
    requires few_rows { rows ≤ most_read_side }
    requires full { length texels.now ≡ texel_length DEPTH * (columns * rows) }
    requires inside { AreInside columns rows at.now }
    ensures { result ≡ texels_of (λ x y. word_at DEPTH texels.now (y * columns + x)) at.now }
{
    let line = at.line as usize * columns as usize;
    let next_line = at.next_line as usize * columns as usize;
    Texels {
        first: word_at::<DEPTH>(texels, line + at.column as usize),
        second: word_at::<DEPTH>(texels, line + at.next_column as usize),
        third: word_at::<DEPTH>(texels, next_line + at.column as usize),
        fourth: word_at::<DEPTH>(texels, next_line + at.next_column as usize),
    }
}
