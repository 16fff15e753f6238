//! The boxes of samples of one byte or of two.

ghost use Rattle.std.specs.Prelude.{◌≡◌, ℕ, ◌+◌, ◌*◌, ◌<◌, ◌≤◌, length};
ghost use Rattle.vt_definitions.specs.Depths.{IsDepth, sample_at, sample_base, texel_length};
ghost use Rattle.vt_box_filter.specs.Boxes.{box, box_at};

use vt_definitions::{put_sample, sample_at};

// The box filter of four samples of one channel: their mean, a half rounded up.
#[inline(always)]
pub(crate) fn box_of<const DEPTH: u32>(a: u16, b: u16, c: u16, d: u16) -> u16
    requires depth { IsDepth DEPTH }
    requires few_a { a < sample_base DEPTH }
    requires few_b { b < sample_base DEPTH }
    requires few_c { c < sample_base DEPTH }
    requires few_d { d < sample_base DEPTH }
    ensures value { result ≡ box a b c d }
    ensures few { result < sample_base DEPTH }
{
    ((a as u32 + b as u32 + c as u32 + d as u32 + 2) / 4) as u16
}

/// The box filter of four samples of one byte.
#[inline(always)]
pub(crate) fn narrow_box(a: u8, b: u8, c: u8, d: u8) -> u8
    ensures { result ≡ box a b c d }
{
    box_of::<1>(u16::from(a), u16::from(b), u16::from(c), u16::from(d)) as u8
}

// The box filter of samples i and j of two rows.
#[inline(always)]
fn box_at<const DEPTH: u32>(top: &[u8], bottom: &[u8], i: usize, j: usize) -> u16
    requires depth { IsDepth DEPTH }
    requires first_top { DEPTH * i + DEPTH ≤ length top.now }
    requires second_top { DEPTH * j + DEPTH ≤ length top.now }
    requires first_bottom { DEPTH * i + DEPTH ≤ length bottom.now }
    requires second_bottom { DEPTH * j + DEPTH ≤ length bottom.now }
    ensures value { result ≡ box_at DEPTH top.now bottom.now i j }
    ensures few { result < sample_base DEPTH }
{
    box_of::<DEPTH>(
        sample_at::<DEPTH>(top, i),
        sample_at::<DEPTH>(top, j),
        sample_at::<DEPTH>(bottom, i),
        sample_at::<DEPTH>(bottom, j),
    )
}

// Writes the boxes of two texels of each of two rows, which begin at samples i and j, as the texel that begins at sample k.
#[inline(always)]
pub(crate) fn put_boxes<const DEPTH: u32>(
    top: &[u8],
    bottom: &[u8],
    i: usize,
    j: usize,
    out: &mut [u8],
    k: usize,
)
    requires depth { IsDepth DEPTH }
    requires first_top { DEPTH * i + texel_length DEPTH ≤ length top.now }
    requires second_top { DEPTH * j + texel_length DEPTH ≤ length top.now }
    requires first_bottom { DEPTH * i + texel_length DEPTH ≤ length bottom.now }
    requires second_bottom { DEPTH * j + texel_length DEPTH ≤ length bottom.now }
    requires room { DEPTH * k + texel_length DEPTH ≤ length out.old }
    ensures written { (c : ℕ) → c < 3 → sample_at DEPTH out.new (k + c) ≡ box_at DEPTH top.now bottom.now (i + c) (j + c) }
    ensures kept { (m : ℕ) → m < k → sample_at DEPTH out.new m ≡ sample_at DEPTH out.old m }
{
    put_sample::<DEPTH>(out, k, box_at::<DEPTH>(top, bottom, i, j));
    put_sample::<DEPTH>(out, k + 1, box_at::<DEPTH>(top, bottom, i + 1, j + 1));
    put_sample::<DEPTH>(out, k + 2, box_at::<DEPTH>(top, bottom, i + 2, j + 2));
}
