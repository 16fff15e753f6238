//! The halving of two rows of texels: blocks of texels first, then the pairs of columns behind them, and an odd last column.

ghost use Rattle.std.specs.Prelude.{◌≡◌, ◌+◌, ◌*◌, ◌/◌, length};
ghost use Rattle.vt_definitions.specs.Depths.{IsDepth, AreBytes, texel_length};
ghost use Rattle.vt_box_filter.specs.HalvedRows.{IsHalvedRow};

use crate::blocks::{BLOCK, halve_block};
use crate::boxes::put_boxes;
use vt_definitions::texel_length;

// Halves the whole blocks of two rows.
fn halve_blocks<const DEPTH: u32>(width: usize, top: &[u8], bottom: &[u8], out: &mut [u8])
    requires depth { IsDepth DEPTH }
    requires top { length top.now ≡ texel_length DEPTH * width }
    requires bottom { length bottom.now ≡ texel_length DEPTH * width }
    requires out { length out.old ≡ texel_length DEPTH * ((width + 1) / 2) }
    ensures { IsHalvedRow DEPTH top.now bottom.now width (16 * (width / 32)) out.new }
{
    let size = texel_length(DEPTH) * BLOCK;
    let half_size = texel_length(DEPTH) * (BLOCK / 2);
    for block in 0..width / BLOCK {
        let from = size * block;
        let to = half_size * block;
        halve_block::<DEPTH>(
            &top[from..from + size],
            &bottom[from..from + size],
            &mut out[to..to + half_size],
        );
    }
}

// Halves the pairs of columns of two rows behind the whole blocks, which are halved.
fn halve_pairs<const DEPTH: u32>(width: usize, top: &[u8], bottom: &[u8], out: &mut [u8])
    requires depth { IsDepth DEPTH }
    requires top { length top.now ≡ texel_length DEPTH * width }
    requires bottom { length bottom.now ≡ texel_length DEPTH * width }
    requires out { length out.old ≡ texel_length DEPTH * ((width + 1) / 2) }
    requires blocks { IsHalvedRow DEPTH top.now bottom.now width (16 * (width / 32)) out.old }
    ensures { IsHalvedRow DEPTH top.now bottom.now width (width / 2) out.new }
{
    for x in BLOCK / 2 * (width / BLOCK)..width / 2 {
        put_boxes::<DEPTH>(top, bottom, 6 * x, 6 * x + 3, out, 3 * x);
    }
}

// Halves two rows of texels: an odd last column counts twice.
fn halve_row<const DEPTH: u32>(width: usize, top: &[u8], bottom: &[u8], out: &mut [u8])
    requires depth { IsDepth DEPTH }
    requires top { length top.now ≡ texel_length DEPTH * width }
    requires bottom { length bottom.now ≡ texel_length DEPTH * width }
    requires out { length out.old ≡ texel_length DEPTH * ((width + 1) / 2) }
    ensures { IsHalvedRow DEPTH top.now bottom.now width ((width + 1) / 2) out.new }
{
    halve_blocks::<DEPTH>(width, top, bottom, out);
    halve_pairs::<DEPTH>(width, top, bottom, out);
    if width % 2 == 1 {
        let last = 3 * (width - 1);
        put_boxes::<DEPTH>(top, bottom, last, last, out, 3 * (width / 2));
    }
}

/// Halves two rows of `width` texels, whose samples have `depth` bytes, 1 or 2: each texel of `out`, of which there are half as many, rounded
/// up, is the box filter of two texels of each row, channel by channel. An odd last column counts twice.
pub fn halve_rows(depth: u32, width: usize, top: &[u8], bottom: &[u8], out: &mut [u8])
    requires depth { IsDepth depth }
    requires top { length top.now ≡ texel_length depth * width }
    requires bottom { length bottom.now ≡ texel_length depth * width }
    requires out { length out.old ≡ texel_length depth * ((width + 1) / 2) }
    ensures row { IsHalvedRow depth top.now bottom.now width ((width + 1) / 2) out.new }
    ensures values { AreBytes out.new }
    ensures above { AreBytes top.now }
    ensures below { AreBytes bottom.now }
{
    if depth == 1 {
        halve_row::<1>(width, top, bottom, out);
    } else {
        halve_row::<2>(width, top, bottom, out);
    }
}
