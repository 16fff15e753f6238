//! The runs of texels that the tiles of a store are made of.
ghost use Rattle.std.specs.Prelude.{◌≡◌, ℕ, ◌+◌, ◌*◌, ◌<◌, ◌≤◌, length, slice_index};
ghost use Rattle.vt_pages.specs.Limits.{most_tiled_side};
ghost use Rattle.vt_pages.specs.Pages.{IsPage};
ghost use Rattle.vt_tiles.specs.TileLines.{IsFilled, IsSpan};

use vt_pages::{Geometry, PageName};

// Writes a texel all over, as often as there is room for it.
fn fill_texels(out: &mut [u8], texel: &[u8])
    requires { 1 ≤ length texel.now }
    ensures { IsFilled texel.now out.new }
{
    let size = texel.len();
    for x in 0..out.len() / size {
        let at = size * x;
        out[at..at + size].copy_from_slice(texel);
    }
}

/// Writes the texels of a row, of `size` bytes each, from byte `at` on; past the row's end its last texel is repeated.
pub fn put_span(out: &mut [u8], row: &[u8], at: usize, size: usize)
    requires some { 1 ≤ size }
    requires inside { at + size ≤ length row.now }
    ensures { (columns first count : ℕ) → length row.now ≡ size * columns → at ≡ size * first → length out.old ≡ size * count
        → IsSpan size row.now columns first count out.new }
{
    let inside = out.len().min(row.len() - at);
    out[..inside].copy_from_slice(&row[at..at + inside]);
    fill_texels(&mut out[inside..], &row[row.len() - size..]);
}

/// Writes each byte twice: as two bytes it is 257 times the sample that it was as one.
pub fn double_bytes(out: &mut [u8], bytes: &[u8])
    requires { length out.old ≡ 2 * length bytes.now }
    ensures first { (i : ℕ) → i < length bytes.now → slice_index out.new (2 * i) ≡ slice_index bytes.now i }
    ensures second { (i : ℕ) → i < length bytes.now → slice_index out.new (2 * i + 1) ≡ slice_index bytes.now i }
{
    for (i, byte) in bytes.iter().enumerate() {
        out[2 * i] = *byte;
        out[2 * i + 1] = *byte;
    }
}

/// How many rows of texels of its level are above the tile of the page with a name.
pub fn rows_above(geometry: &Geometry, name: PageName) -> usize
    requires { IsPage geometry.now name }
    ensures value { result ≡ name.row * geometry.now.tile }
    ensures few { result < most_tiled_side }
{
    name.row as usize * geometry.tile() as usize
}
