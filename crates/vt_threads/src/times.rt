//! How long pieces of work take, in nanoseconds, as they were measured: by these callers ask how many threads a work is worth.

/// How many nanoseconds it takes to look at a sample or to scale one, about.
pub const SAMPLE_TIME: u64 = 1;

/// How many nanoseconds it takes to make a texel of a half, about: from 2.5 to 3 were measured.
pub const HALVING_TIME: u64 = 3;

/// How many nanoseconds it takes to read a texel and to halve it, about.
pub const STRIP_HALVING_TIME: u64 = 2;

/// How many nanoseconds it takes to draw a pixel, about: 3.5 were measured.
pub const DRAWING_TIME: u64 = 4;

/// How many nanoseconds it takes to blend a pixel, about: 12.7 were measured.
pub const BLENDING_TIME: u64 = 13;

/// How long a pixel takes at least, in nanoseconds.
pub const REPLAYING_TIME: u64 = 4;
