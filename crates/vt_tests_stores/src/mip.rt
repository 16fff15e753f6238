//! Mip chains of whole textures.

mod halves;
mod strips;

ghost use Rattle.vt_text.specs.Tiles.{IsTileSide};

use crate::fixtures::{FIVE_BY_THREE, FOUR, holds, image_of};
use std::alloc::Global;
use std::thread::Threads;
use vt_mip::Chain;

// What a texture is halved to in tiles of side 2: the sides of all levels, some words by level, column and row, some rows by
// level and row, and the samples of the last level.
struct Halved {
    depth: u32,
    samples: &'static [u8],
    sizes: &'static [(u32, u32)],
    words: &'static [(u32, u32, u32, u64)],
    rows: &'static [(u32, u32, &'static [u8])],
    last: &'static [u8],
}

// The chain of these samples.
fn chain_of<Rt: Threads + Sync>(
    rt: &Rt,
    alloc: Global,
    depth: u32,
    size: (u32, u32),
    samples: &[u8],
    tile: u32,
) -> Option<Chain>
    requires { IsTileSide tile }
{
    Chain::build(
        rt,
        alloc,
        image_of(alloc, depth, size.0, size.1, samples)?,
        tile,
    )
    .ok()
}

// Whether these are the sides of all levels.
fn has_sizes(chain: &Chain, sizes: &[(u32, u32)]) -> bool {
    if chain.levels() as usize != sizes.len() {
        return false;
    }
    for level in 0..chain.levels() {
        if chain.size(level) != sizes[level as usize] {
            return false;
        }
    }
    true
}

// Whether a level has this word in a column and row.
fn has_word(chain: &Chain, level: u32, x: u32, y: u32, word: u64) -> bool {
    level < chain.levels()
        && x < chain.size(level).0
        && y < chain.size(level).1
        && chain.texel(level, x, y) == word
}

// Whether levels have these words.
fn has_words(chain: &Chain, words: &[(u32, u32, u32, u64)]) -> bool {
    for (level, x, y, word) in words {
        if !has_word(chain, *level, *x, *y, *word) {
            return false;
        }
    }
    true
}

// Whether a level has this row.
fn has_row(chain: &Chain, level: u32, y: u32, row: &[u8]) -> bool {
    level < chain.levels() && y < chain.size(level).1 && chain.row(level, y) == row
}

// Whether levels have these rows.
fn has_rows(chain: &Chain, rows: &[(u32, u32, &[u8])]) -> bool {
    for (level, y, row) in rows {
        if !has_row(chain, *level, *y, *row) {
            return false;
        }
    }
    true
}

// Whether a chain is that one.
fn is_chain(chain: &Chain, want: &Halved) -> bool {
    chain.tile_side() == 2
        && chain.depth() == want.depth
        && has_sizes(chain, want.sizes)
        && has_words(chain, want.words)
        && has_rows(chain, want.rows)
        && chain.samples(chain.levels() - 1) == want.last
}

// Whether a texture is halved so.
fn is_halved<Rt: Threads + Sync>(rt: &Rt, alloc: Global, want: &Halved) -> bool {
    if want.sizes.is_empty() {
        return false;
    }
    match chain_of(rt, alloc, want.depth, want.sizes[0], want.samples, 2) {
        Some(chain) => is_chain(&chain, want),
        None => false,
    }
}

#[test]
fn a_texture_of_four_by_four_is_halved_once(rt: HostRuntime) {
    const HALVED: Halved = Halved {
        depth: 1,
        samples: &FOUR,
        sizes: &[(4, 4), (2, 2)],
        words: &[
            (0, 1, 3, 0x0d0d0d),
            (1, 0, 0, 0x030303),
            (1, 1, 0, 0x050505),
        ],
        rows: &[(1, 1, &[11, 11, 11, 13, 13, 13])],
        last: &[3, 3, 3, 5, 5, 5, 11, 11, 11, 13, 13, 13],
    };
    holds(&rt, is_halved(&rt, rt.alloc(), &HALVED));
}

#[test]
fn odd_last_columns_and_rows_count_twice(rt: HostRuntime) {
    const HALVED: Halved = Halved {
        depth: 1,
        samples: &FIVE_BY_THREE,
        sizes: &[(5, 3), (3, 2), (2, 1)],
        words: &[],
        rows: &[
            (1, 0, &[6, 6, 6, 8, 8, 8, 9, 9, 9]),
            (1, 1, &[21, 21, 21, 23, 23, 23, 24, 24, 24]),
            (2, 0, &[15, 15, 15, 17, 17, 17]),
        ],
        last: &[15, 15, 15, 17, 17, 17],
    };
    holds(&rt, is_halved(&rt, rt.alloc(), &HALVED));
}

#[test]
fn a_half_counts_up_and_channels_stay_apart(rt: HostRuntime) {
    const HALVED: Halved = Halved {
        depth: 1,
        samples: &[
            0, 10, 20, 1, 11, 21, 0, 10, 20, 0, 10, 20, 2, 12, 22, 3, 13, 23, 0, 10, 20, 1, 11, 21,
        ],
        sizes: &[(4, 2), (2, 1)],
        words: &[],
        rows: &[(1, 0, &[2, 12, 22, 0, 10, 20])],
        last: &[2, 12, 22, 0, 10, 20],
    };
    holds(&rt, is_halved(&rt, rt.alloc(), &HALVED));
}

#[test]
fn two_byte_samples_are_boxed_as_numbers(rt: HostRuntime) {
    const HALVED: Halved = Halved {
        depth: 2,
        samples: &[
            0x00, 0x00, 0x00, 0x00, 0xff, 0xff, 0x00, 0x00, 0x00, 0x01, 0xff, 0xff, 0x9c, 0x40,
            0x00, 0xff, 0xff, 0xff, 0xc3, 0x50, 0x01, 0x00, 0x00, 0x00, 0x00, 0x00, 0x00, 0x02,
            0xff, 0xff, 0x00, 0x01, 0x00, 0x03, 0xff, 0xff, 0xea, 0x60, 0x01, 0x01, 0x00, 0x00,
            0x75, 0x31, 0x01, 0x02, 0x00, 0x01,
        ],
        sizes: &[(4, 2), (2, 1)],
        words: &[
            (0, 2, 1, 0xea60_0101_0000),
            (1, 0, 0, 0x0000_0002_ffff),
            (1, 1, 0, 0xafc8_0101_4000),
        ],
        rows: &[],
        last: &[
            0x00, 0x00, 0x00, 0x02, 0xff, 0xff, 0xaf, 0xc8, 0x01, 0x01, 0x40, 0x00,
        ],
    };
    holds(&rt, is_halved(&rt, rt.alloc(), &HALVED));
}

// A texture of two rows of 70 columns, in samples of one byte: its column's number.
fn narrow_columns() -> [u8; 420] {
    let mut samples = [0; 420];
    for i in 0..420 {
        samples[i] = (i / 3 % 70) as u8;
    }
    samples
}

// The same texture in samples of two bytes, of which the high one is 0x80.
fn wide_columns() -> [u8; 840] {
    let mut samples = [0x80; 840];
    for i in 0..420 {
        samples[2 * i + 1] = (i / 3 % 70) as u8;
    }
    samples
}

// Whether two rows of 70 columns are halved to one row whose first word is given, and the step from one word to the next.
fn is_stepped<Rt: Threads + Sync>(
    rt: &Rt,
    alloc: Global,
    depth: u32,
    samples: &[u8],
    first: u64,
    step: u64,
) -> bool {
    let Some(chain) = chain_of(rt, alloc, depth, (70, 2), samples, 64) else {
        return false;
    };
    let mut word = first;
    for x in 0..35 {
        if !has_word(&chain, 1, x, 0, word) {
            return false;
        }
        word = word.wrapping_add(step);
    }
    has_sizes(&chain, &[(70, 2), (35, 1)])
}

#[test]
fn long_rows_are_halved_like_short_ones(rt: HostRuntime) {
    let narrow = narrow_columns();
    holds(
        &rt,
        is_stepped(&rt, rt.alloc(), 1, &narrow, 0x010101, 0x020202),
    );
    let wide = wide_columns();
    holds(
        &rt,
        is_stepped(
            &rt,
            rt.alloc(),
            2,
            &wide,
            0x8001_8001_8001,
            0x0002_0002_0002,
        ),
    );
}
