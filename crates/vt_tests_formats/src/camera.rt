//! The worked rows, and others computed by hand.

mod parse;

ghost use Rattle.vt_camera.specs.Rows.{IsSurface};

use crate::fixtures::no_row_is_wrong;
use std::alloc::Global;
use vt_camera::{Camera, Path, Row, Surface, parse_path};

// Whether a path has these numbers: its width, its height, its focal length and the number of its pictures.
fn has_numbers(path: &Path, want: (u32, u32, u32, u32)) -> bool {
    (path.width(), path.height(), path.focal(), path.pictures()) == want
}

/// A picture of a path: the path's text, its numbers, the picture's number and its camera.
pub type Seen = (&'static [u8], (u32, u32, u32, u32), u32, Camera);

// Whether a picture of a path is this.
fn is_seen(alloc: Global, seen: &Seen) -> bool {
    match parse_path(alloc, seen.0) {
        Ok(path) => {
            has_numbers(&path, seen.1) && seen.2 < path.pictures() && path.camera(seen.2) == seen.3
        }
        Err(_) => false,
    }
}

/// The first of these pictures that is another.
pub fn other_camera(alloc: Global, rows: &[Seen]) -> Option<usize> {
    for i in 0..rows.len() {
        if !is_seen(alloc, &rows[i]) {
            return Some(i);
        }
    }
    None
}

#[test]
fn a_path_gives_its_parts(rt: HostRuntime) {
    const ROWS: [Seen; 1] = [(
        b"size 2048 1\nfocal 4096\nat -2147483648 2147483648 16777216 16384 -16384\n",
        (2048, 1, 4096, 1),
        0,
        Camera {
            u: -2147483648,
            v: 2147483648,
            h: 16777216,
            c: 16384,
            s: -16384,
        },
    )];
    no_row_is_wrong(&rt, other_camera(rt.alloc(), &ROWS));
}

// A texel of a row of the first picture of a path: the path's text, the width of its pictures, the row, its level, the column, and
// the texel as it is in the texture and in that level.
type Texel = (&'static [u8], u32, u32, u32, u32, (u32, u32), (u32, u32));

// Whether a row of the first picture of a path has this level and this texel.
fn is_texel(path: &Path, surface: &Surface, texel: &Texel) -> bool
    requires { IsSurface surface.now }
{
    let (_, width, y, level, x, place, in_level) = *texel;
    if path.pictures() < 1 || path.width() != width || y >= path.height() || x >= width {
        return false;
    }
    let row = Row::of(path, &path.camera(0), y, surface);
    row.level() == level && row.texel(x) == place && row.texel_in_level(x) == in_level
}

// Whether a text is a path that has this texel.
fn has_texel(alloc: Global, surface: &Surface, texel: &Texel) -> bool
    requires { IsSurface surface.now }
{
    match parse_path(alloc, texel.0) {
        Ok(path) => is_texel(&path, surface, texel),
        Err(_) => false,
    }
}

// The first of these texels that is another over this surface.
fn other_texel(alloc: Global, surface: &Surface, rows: &[Texel]) -> Option<usize>
    requires { IsSurface surface.now }
{
    for i in 0..rows.len() {
        if !has_texel(alloc, surface, &rows[i]) {
            return Some(i);
        }
    }
    None
}

#[test]
fn a_coarser_level_comes_with_its_span(rt: HostRuntime) {
    const NEAR: &[u8] = b"size 2 1\nfocal 1\nat 0 0 256 16384 0\n";
    const NEARLY: &[u8] = b"size 2 1\nfocal 1\nat 0 0 511 16384 0\n";
    const FAR: &[u8] = b"size 2 1\nfocal 1\nat 0 0 512 16384 0\n";
    const ROWS: [Texel; 6] = [
        (NEAR, 2, 0, 0, 0, (1, 3), (1, 3)),
        (NEAR, 2, 0, 0, 1, (1, 0), (1, 0)),
        (NEARLY, 2, 0, 0, 0, (1, 3), (1, 3)),
        (NEARLY, 2, 0, 0, 1, (1, 0), (1, 0)),
        (FAR, 2, 0, 1, 0, (2, 3), (1, 1)),
        (FAR, 2, 0, 1, 1, (2, 1), (1, 0)),
    ];
    let surface = Surface {
        width: 4,
        height: 4,
        levels: 2,
    };
    no_row_is_wrong(&rt, other_texel(rt.alloc(), &surface, &ROWS));
}

// Row 1 has the distance 1000 and the span 500, row 0 twice as much; no quotient is whole.
#[test]
fn slanted_rows_round_down(rt: HostRuntime) {
    const TEXT: &[u8] = b"size 3 2\nfocal 2\nat -1 300 1000 9830 13107\n";
    const ROWS: [Texel; 6] = [
        (TEXT, 3, 1, 0, 0, (3, 3), (3, 3)),
        (TEXT, 3, 1, 0, 1, (2, 4), (2, 4)),
        (TEXT, 3, 1, 0, 2, (0, 5), (0, 5)),
        (TEXT, 3, 0, 1, 0, (2, 5), (1, 2)),
        (TEXT, 3, 0, 1, 1, (4, 0), (2, 0)),
        (TEXT, 3, 0, 1, 2, (1, 2), (0, 1)),
    ];
    let surface = Surface {
        width: 5,
        height: 7,
        levels: 3,
    };
    no_row_is_wrong(&rt, other_texel(rt.alloc(), &surface, &ROWS));
}

// Every number as large as it can be: the column is 2^15*5889 modulo 16383, the row is -2^15*9983 modulo 16383, and both
// are found by 2^14 being 1 there.
#[test]
fn the_largest_numbers_fit(rt: HostRuntime) {
    const ROWS: [Texel; 1] = [(
        b"size 2048 1\nfocal 4096\nat -2147483648 2147483648 16777216 16384 -16384\n",
        2048,
        0,
        16,
        0,
        (11778, 12800),
        (0, 0),
    )];
    let surface = Surface {
        width: 16383,
        height: 16383,
        levels: 20,
    };
    no_row_is_wrong(&rt, other_texel(rt.alloc(), &surface, &ROWS));
}
