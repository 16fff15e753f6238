//! Where the rows of a texture are in its file.
ghost use Rattle.std.specs.Prelude.{◌≡◌, ◌+◌, ◌*◌, ◌≤◌, MatchBool};
ghost use Rattle.vt_definitions.specs.Limits.{header_limit, most_tiled_side};
ghost use Rattle.vt_ppm.specs.Strips.{IsTextureHeader, MayBeOver, row_length, row_start, piece_rows, pieces_of};

use crate::Header;
use crate::header::depth_of;
use vt_definitions::{greatest_sample, texel_length};

// How many bytes are looked over at once, but for the rest of a row.
const PIECE_LENGTH: usize = 1048576;

/// How many bytes a row has.
pub fn row_length(header: &Header) -> usize
    requires { IsTextureHeader header.now }
    ensures value { result ≡ row_length header.now }
    ensures some { 1 ≤ result }
    ensures few { result ≤ 6 * most_tiled_side }
{
    texel_length(depth_of(header.maximum)) * header.width as usize
}

/// How many samples so many rows have.
pub fn sample_count(header: &Header, rows: u32) -> usize
    requires header { IsTextureHeader header.now }
    requires few { rows ≤ header.now.height }
    ensures { result ≡ 3 * (header.now.width * rows) }
{
    3 * (header.width as usize * rows as usize)
}

/// The place of a row in the file, or that of the raster's end for the number of rows.
pub fn row_start(header: &Header, y: u32) -> u64
    requires header { IsTextureHeader header.now }
    requires inside { y ≤ header.now.height }
    ensures value { result ≡ row_start header.now y }
    ensures few { result ≤ header_limit + 6 * (most_tiled_side * most_tiled_side) }
{
    header.raster + y as u64 * row_length(header) as u64
}

/// Whether a sample may be above the maximum, which then is not the greatest of its depth.
pub fn may_be_over(header: &Header) -> bool
    ensures { MatchBool result (MayBeOver header.now) (MayBeOver header.now → ⊥) }
{
    header.maximum < greatest_sample(depth_of(header.maximum))
}

/// How many rows are looked over at once.
pub fn piece_rows(header: &Header) -> u32
    requires { IsTextureHeader header.now }
    ensures value { result ≡ piece_rows header.now }
    ensures some { 1 ≤ result }
    ensures few { result ≤ header.now.height }
{
    let row = row_length(header);
    header.height.min(((PIECE_LENGTH - 1 + row) / row) as u32)
}

/// In how many pieces the raster is looked over.
pub fn pieces_of(header: &Header) -> u32
    requires { IsTextureHeader header.now }
    ensures value { result ≡ pieces_of header.now }
    ensures few { result ≤ header.now.height }
{
    let step = piece_rows(header);
    (header.height + step - 1) / step
}
