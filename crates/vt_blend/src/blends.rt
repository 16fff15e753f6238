//! The blend of the words of four texels.

ghost use Rattle.std.specs.Prelude.{◌≡◌, ◌/◌, ◌%◌, ◌<◌, ◌≤◌};
ghost use Rattle.vt_definitions.specs.Depths.{IsDepth};
ghost use Rattle.vt_blend.specs.Corners.{AreWhole};
ghost use Rattle.vt_blend.specs.Blends.{blended, blended_word};

use crate::corners::Weights;

/// The words of the four texels about a place, in the order of their weights.
#[derive(Clone, Copy)]
pub struct Texels {
    pub first: u64,
    pub second: u64,
    pub third: u64,
    pub fourth: u64,
}

// The blend of four samples.
#[inline(always)]
fn blend_samples(w: &Weights, a: u32, b: u32, c: u32, e: u32) -> u32
    requires whole { AreWhole w.now }
    requires first { a < 65536 }
    requires second { b < 65536 }
    requires third { c < 65536 }
    requires fourth { e < 65536 }
    ensures value { result ≡ blended w.now a b c e }
    ensures few { result < 65536 }
{
    (w.first * a + w.second * b + w.third * c + w.fourth * e + 32768) / 65536
}

// A sample of one byte of a word, of which one stands for so much.
#[inline(always)]
fn narrow_sample(word: u64, unit: u64) -> u32
    requires { 1 ≤ unit }
    ensures value { result ≡ word / unit % 256 }
    ensures few { result < 65536 }
{
    (word / unit % 256) as u32
}

// A sample of two bytes of a word, of which one stands for so much.
#[inline(always)]
fn wide_sample(word: u64, unit: u64) -> u32
    requires { 1 ≤ unit }
    ensures value { result ≡ word / unit % 65536 }
    ensures few { result < 65536 }
{
    (word / unit % 65536) as u32
}

// The blend of the samples of one byte of which one stands for so much.
#[inline(always)]
fn narrow_channel(w: &Weights, t: &Texels, unit: u64) -> u64
    requires whole { AreWhole w.now }
    requires some { 1 ≤ unit }
    ensures value { result ≡ blended w.now (t.now.first / unit % 256) (t.now.second / unit % 256)
        (t.now.third / unit % 256) (t.now.fourth / unit % 256) }
    ensures few { result < 65536 }
{
    let (first, second) = (narrow_sample(t.first, unit), narrow_sample(t.second, unit));
    let (third, fourth) = (narrow_sample(t.third, unit), narrow_sample(t.fourth, unit));
    u64::from(blend_samples(w, first, second, third, fourth))
}

// The blend of the samples of two bytes of which one stands for so much.
#[inline(always)]
fn wide_channel(w: &Weights, t: &Texels, unit: u64) -> u64
    requires whole { AreWhole w.now }
    requires some { 1 ≤ unit }
    ensures value { result ≡ blended w.now (t.now.first / unit % 65536) (t.now.second / unit % 65536)
        (t.now.third / unit % 65536) (t.now.fourth / unit % 65536) }
    ensures few { result < 65536 }
{
    let (first, second) = (wide_sample(t.first, unit), wide_sample(t.second, unit));
    let (third, fourth) = (wide_sample(t.third, unit), wide_sample(t.fourth, unit));
    u64::from(blend_samples(w, first, second, third, fourth))
}

// The blend of the words of four texels of one-byte samples.
#[inline(always)]
fn narrow_blend(w: &Weights, t: &Texels) -> u64
    requires { AreWhole w.now }
    ensures { result ≡ blended_word 1 w.now t.now }
{
    narrow_channel(w, t, 65536) * 65536 + narrow_channel(w, t, 256) * 256 + narrow_channel(w, t, 1)
}

// The blend of the words of four texels of two-byte samples.
#[inline(always)]
fn wide_blend(w: &Weights, t: &Texels) -> u64
    requires { AreWhole w.now }
    ensures { result ≡ blended_word 2 w.now t.now }
{
    wide_channel(w, t, 4_294_967_296) * 4_294_967_296
        + wide_channel(w, t, 65536) * 65536
        + wide_channel(w, t, 1)
}

/// The blend of the words of four texels whose samples have DEPTH bytes, 1 or 2.
#[inline(always)]
pub fn blend_words<const DEPTH: u32>(w: &Weights, t: &Texels) -> u64
    requires depth { IsDepth DEPTH }
    requires whole { AreWhole w.now }
    ensures { result ≡ blended_word DEPTH w.now t.now }
{
    if DEPTH == 1 {
        narrow_blend(w, t)
    } else {
        wide_blend(w, t)
    }
}
