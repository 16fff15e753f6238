//! The halving of a block of texels of two rows.

ghost use Rattle.std.specs.Prelude.{◌≡◌, ℕ, ◌+◌, ◌*◌, ◌/◌, ◌%◌, ◌<◌, length, slice_index};
ghost use Rattle.vt_definitions.specs.Depths.{IsDepth};
ghost use Rattle.vt_box_filter.specs.HalvedRows.{IsHalvedRow};
ghost use Rattle.vt_box_filter.specs.Blocks.{AreBoxes, AreEveryOther, AreWideSamples, AreWords};

use crate::boxes::{box_of, narrow_box};
use vt_definitions::put_sample;

// How many texels of a row are halved at once.
pub(crate) const BLOCK: usize = 32;

// How many samples they have.
const BLOCK_SAMPLES: usize = 96;

// Copies the bytes of a block of two-byte samples as words, the first byte of each the low one.
#[inline(always)]
fn copy_words(bytes: &[u8], words: &mut [u16; BLOCK_SAMPLES])
    requires { length bytes.now ≡ 192 }
    ensures { AreWords bytes.now 96 words.new }
{
    for i in 0..BLOCK_SAMPLES {
        words[i] = bytes[2 * i] as u16 + bytes[2 * i + 1] as u16 * 256;
    }
}

// Swaps the two bytes of each word.
#[inline(always)]
fn swap_words(words: &mut [u16; BLOCK_SAMPLES])
    ensures { (k : ℕ) → k < 96 → slice_index words.new k ≡ slice_index words.old k % 256 * 256 + slice_index words.old k / 256 }
{
    for i in 0..BLOCK_SAMPLES {
        words[i] = words[i] % 256 * 256 + words[i] / 256;
    }
}

// Reads the samples of a block, of two bytes each. First come words as they lie in memory, and then their bytes are swapped:
// there are vectors for either step, and for both at once there are none.
#[inline(always)]
fn read_wide(bytes: &[u8], samples: &mut [u16; BLOCK_SAMPLES])
    requires { length bytes.now ≡ 192 }
    ensures { AreWideSamples bytes.now samples.new }
{
    copy_words(bytes, samples);
    swap_words(samples);
}

// Boxes each texel of a block of two rows but the last with the texel behind it, also those that begin no pair: the samples
// then lie side by side.
#[inline(always)]
fn box_wide(
    top: &[u8],
    upper: &[u16; BLOCK_SAMPLES],
    bottom: &[u8],
    lower: &[u16; BLOCK_SAMPLES],
    boxes: &mut [u16; BLOCK_SAMPLES],
)
    requires upper { AreWideSamples top.now upper.now }
    requires lower { AreWideSamples bottom.now lower.now }
    ensures { AreBoxes 2 top.now bottom.now 93 boxes.new }
{
    let _ = top;
    let _ = bottom;
    for i in 0..BLOCK_SAMPLES - 3 {
        boxes[i] = box_of::<2>(upper[i], upper[i + 3], lower[i], lower[i + 3]);
    }
}

// Writes every other texel of a block, of which the samples are given.
#[inline(always)]
fn put_wide_texels(samples: &[u16; BLOCK_SAMPLES], out: &mut [u8])
    requires { length out.old ≡ 96 }
    ensures { AreEveryOther 2 samples.now 16 out.new }
{
    for x in 0..BLOCK / 2 {
        put_sample::<2>(out, 3 * x, samples[6 * x]);
        put_sample::<2>(out, 3 * x + 1, samples[6 * x + 1]);
        put_sample::<2>(out, 3 * x + 2, samples[6 * x + 2]);
    }
}

// Halves a block of texels of two rows, of samples of two bytes.
#[inline(always)]
fn halve_wide_block(top: &[u8], bottom: &[u8], out: &mut [u8])
    requires top { length top.now ≡ 192 }
    requires bottom { length bottom.now ≡ 192 }
    requires out { length out.old ≡ 96 }
    ensures { IsHalvedRow 2 top.now bottom.now 32 16 out.new }
{
    let mut upper = [0; BLOCK_SAMPLES];
    let mut lower = [0; BLOCK_SAMPLES];
    let mut boxes = [0; BLOCK_SAMPLES];
    read_wide(top, &mut upper);
    read_wide(bottom, &mut lower);
    box_wide(top, &upper, bottom, &lower, &mut boxes);
    put_wide_texels(&boxes, out);
}

// Boxes each texel of a block of two rows but the last with the texel behind it, where samples have one byte.
#[inline(always)]
fn box_narrow(top: &[u8], bottom: &[u8], boxes: &mut [u8; BLOCK_SAMPLES])
    requires top { length top.now ≡ 96 }
    requires bottom { length bottom.now ≡ 96 }
    ensures { AreBoxes 1 top.now bottom.now 93 boxes.new }
{
    for i in 0..BLOCK_SAMPLES - 3 {
        boxes[i] = narrow_box(top[i], top[i + 3], bottom[i], bottom[i + 3]);
    }
}

// Writes every other texel of a block, of which the samples are given: three bytes at once, which takes half as long as bytes.
#[inline(always)]
fn put_narrow_texels(samples: &[u8; BLOCK_SAMPLES], out: &mut [u8])
    requires { length out.old ≡ 48 }
    ensures { AreEveryOther 1 samples.now 16 out.new }
{
    for x in 0..BLOCK / 2 {
        out[3 * x..3 * x + 3].copy_from_slice(&samples[6 * x..6 * x + 3]);
    }
}

// Halves a block of texels of two rows, of samples of one byte.
#[inline(always)]
fn halve_narrow_block(top: &[u8], bottom: &[u8], out: &mut [u8])
    requires top { length top.now ≡ 96 }
    requires bottom { length bottom.now ≡ 96 }
    requires out { length out.old ≡ 48 }
    ensures { IsHalvedRow 1 top.now bottom.now 32 16 out.new }
{
    let mut boxes = [0; BLOCK_SAMPLES];
    box_narrow(top, bottom, &mut boxes);
    put_narrow_texels(&boxes, out);
}

// Halves a block of texels of two rows.
#[inline(always)]
pub(crate) fn halve_block<const DEPTH: u32>(top: &[u8], bottom: &[u8], out: &mut [u8])
    requires depth { IsDepth DEPTH }
    requires top { length top.now ≡ DEPTH * 96 }
    requires bottom { length bottom.now ≡ DEPTH * 96 }
    requires out { length out.old ≡ DEPTH * 48 }
    ensures { IsHalvedRow DEPTH top.now bottom.now 32 16 out.new }
{
    if DEPTH == 1 {
        halve_narrow_block(top, bottom, out);
    } else {
        halve_wide_block(top, bottom, out);
    }
}
