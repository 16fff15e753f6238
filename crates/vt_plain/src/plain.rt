//! Drawing the plain picture.

ghost use Rattle.std.specs.Prelude.{◌≡◌, ◌+◌, ◌-◌, ◌*◌, ◌<◌, ◌≤◌, ◌++◌, length, take, IfOk};
ghost use Rattle.vt_pages.specs.Depths.{IsDepth, texel_length, texel_bytes};
ghost use Rattle.vt_pages.specs.Limits.{most_levels};
ghost use Rattle.vt_pages.specs.Sides.{side};
ghost use Rattle.vt_mip.specs.Chains.{chain_levels, chain_width, chain_height};
ghost use Rattle.vt_camera.specs.Rows.{IsSurface, row_level};
ghost use Rattle.vt_camera.specs.Paths.{camera_at};
ghost use Rattle.vt_plain.specs.Plain.{chain_of, levels_from, surface_of, row_samples, plain_picture, plain_samples};
ghost use Rattle.vt_plain.specs.Views.{AreLevels, IsRowOf, WantsNone, row_shown, source_of};

use crate::parts::{Rows, draw_in_threads};
use std::alloc::Global;
use std::thread::Threads;
use vt_camera::{Camera, Path, Row, Surface};
use vt_mip::{Chain, NoMemory};
use vt_pages::texel_length;
use vt_threads::{DRAWING_TIME, processors, threads_for};

/// Draws the plain picture with this number of a path, row by row from the top: three samples a pixel, each of as many bytes as
/// the chain's samples have, the most significant first. A pixel shows what the level of its row has at the pixel's place
/// (van Waveren 2012).
pub fn draw_plain<Rt: Threads + Sync>(
    rt: &Rt,
    alloc: Global,
    chain: &Chain,
    path: &Path,
    picture: u32,
) -> Result<Vec<u8>, NoMemory>
    requires { picture < length path.now.cameras }
    ensures samples { IfOk result (λ samples. samples.items ≡ plain_samples chain.now.base chain.now.tile path.now picture) }
    ensures size { IfOk result (λ samples.
        length samples.items ≡ texel_length chain.now.base.depth * (path.now.width * path.now.height)) }
{
    let size = texel_length(chain.depth()) * path.width() as usize * path.height() as usize;
    let mut samples = vec![in alloc; 0u8; size]?;
    let threads = threads_for(
        processors(rt),
        DRAWING_TIME * path.width() as u64 * path.height() as u64,
    );
    draw_plain_into(rt, threads, chain, path, picture, samples.as_mut_slice());
    Ok(samples)
}

/// Draws the plain picture as `draw_plain` does into room for its bytes, in so many threads. It takes no memory and refuses nothing.
pub fn draw_plain_into<Rt: Threads + Sync>(
    rt: &Rt,
    threads: usize,
    chain: &Chain,
    path: &Path,
    picture: u32,
    out: &mut [u8],
)
    requires picture { picture < length path.now.cameras }
    requires room { length out.old ≡ texel_length chain.now.base.depth * (path.now.width * path.now.height) }
    ensures { out.new ≡ plain_samples chain.now.base chain.now.tile path.now picture }
{
    let levels = Levels {
        chain,
        skipped: 0,
        surface: surface_of(chain),
    };
    draw_levels_into(rt, threads, &levels, path, picture, out);
}

/// The levels of a texture that pictures are drawn of. The first ones may be left out: then the chain begins with the first that is there.
#[derive(Clone, Copy)]
pub struct Levels<'a> {
    /// The chain of the first level that is there.
    pub chain: &'a Chain,
    /// How many levels are left out.
    pub skipped: u32,
    /// The whole texture as a camera sees it.
    pub surface: Surface,
}

/// Draws the plain picture with this number of a path as `draw_plain_into` does, of levels of which it wants none that is left out.
pub fn draw_levels_into<Rt: Threads + Sync>(
    rt: &Rt,
    threads: usize,
    levels: &Levels<'_>,
    path: &Path,
    picture: u32,
    out: &mut [u8],
)
    requires levels { AreLevels levels.now }
    requires wants { WantsNone levels.now path.now (camera_at path.now picture) }
    requires picture { picture < length path.now.cameras }
    requires room { length out.old ≡ texel_length levels.now.chain.now.base.depth * (path.now.width * path.now.height) }
    ensures { out.new ≡ plain_picture levels.now.chain.now.base.depth (source_of levels.now) levels.now.surface path.now picture }
{
    let view = View {
        levels: *levels,
        path,
        camera: path.camera(picture),
    };
    let size = texel_length(levels.chain.depth()) * path.width() as usize;
    draw_in_threads(rt, threads, &view, path.height(), size, out);
}

/// The surface that a chain is to a camera.
pub fn surface_of(chain: &Chain) -> Surface
    ensures value { result ≡ surface_of chain.now.base chain.now.tile }
    ensures limits { IsSurface result }
    ensures levels { result.levels ≤ most_levels }
{
    let levels = chain.levels();
    let (width, height) = chain.size(0);
    Surface {
        width,
        height,
        levels,
    }
}

// What the rows of a picture are drawn of: levels, a path, and the picture's camera.
#[derive(Clone, Copy)]
struct View<'a> {
    levels: Levels<'a>,
    path: &'a Path,
    camera: Camera,
}

impl Rows for View<'_> {
    ghost use Rattle.vt_plain.specs.Views.{IsRowOf, row_shown};

    ghost fits = { IsRowOf };

    ghost bytes = { row_shown };

    fn draw_row(&self, y: u32, out: &mut [u8]) {
        if self.levels.chain.depth() == 1 {
            draw_view_row::<1>(self, y, out);
        } else {
            draw_view_row::<2>(self, y, out);
        }
    }
}

// Writes the bytes of a row of levels whose samples have DEPTH bytes.
fn draw_view_row<const DEPTH: u32>(view: &View<'_>, y: u32, out: &mut [u8])
    requires depth { IsDepth DEPTH }
    requires own { view.now.levels.chain.now.base.depth ≡ DEPTH }
    requires row { IsRowOf view.now y (length out.old) }
    ensures { out.new ≡ row_shown view.now y }
{
    let levels = view.levels;
    let columns = view.path.width();
    let row = Row::of(view.path, &view.camera, y, &levels.surface);
    draw_plain_row::<DEPTH>(levels.chain, levels.skipped, row, columns, out);
}

// Writes the bytes of a row of so many pixels. It takes the row by value, for then no write can be one to the row's numbers.
#[inline(never)]
fn draw_plain_row<const DEPTH: u32>(
    chain: &Chain,
    skipped: u32,
    row: Row,
    columns: u32,
    out: &mut [u8],
)
    requires depth { IsDepth DEPTH }
    requires own { chain.now.base.depth ≡ DEPTH }
    requires wanted { skipped ≤ row_level row }
    requires there { row_level row - skipped < chain_levels chain.now }
    requires columns { chain_width chain.now (row_level row - skipped) ≡ side row.surface.width (row_level row) }
    requires rows { chain_height chain.now (row_level row - skipped) ≡ side row.surface.height (row_level row) }
    requires width { columns ≤ row.width }
    requires room { length out.old ≡ texel_length DEPTH * columns }
    ensures { out.new ≡ row_samples DEPTH (levels_from skipped (chain_of chain.now.base)) row columns }
{
    let wanted = row.level();
    let level = wanted - skipped;
    let texels = chain.samples(level);
    let (width, _) = chain.size(level);
    for x in 0..columns {
        let (column, line) = row.texel_in_level(x);
        let texel = line as usize * width as usize + column as usize;
        put_texel::<DEPTH>(texels, texel, out, x as usize);
    }
}

// Copies a texel behind those that are before its place.
#[inline(always)]
fn put_texel<const DEPTH: u32>(texels: &[u8], texel: usize, out: &mut [u8], x: usize)
    requires depth { IsDepth DEPTH }
    requires from { texel_length DEPTH * texel + texel_length DEPTH ≤ length texels.now }
    requires to { texel_length DEPTH * x + texel_length DEPTH ≤ length out.old }
    ensures { take (texel_length DEPTH * x + texel_length DEPTH) out.new
        ≡ take (texel_length DEPTH * x) out.old ++ texel_bytes DEPTH texels.now texel }
{
    let size = texel_length(DEPTH);
    let from = size * texel;
    let to = size * x;
    out[to..to + size].copy_from_slice(&texels[from..from + size]);
}
