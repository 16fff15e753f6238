//! The definitions that several crates cite, the laws about them, the sides of tiles, the rows of samplers, and the texels of bytes.
#![tactic(auto)]

mod dealing;
mod depths;
mod sides;
mod tiles;

pub use dealing::{dealt_row, own_count, rows_are_dealt_once, sampler_of, turn_of};
pub use depths::{
    bytes_make_their_word, greatest_sample, put_sample, put_word, sample_at, texel_length,
    texels_are_their_words, texels_with_bytes_have_words, word_at, word_in,
    words_have_their_samples, words_of_bytes_are_small,
};
pub use sides::{level_count_is_least, level_count_is_one, side_is_positive};
pub use tiles::{MOST_TILE_SIDE, is_tile_side};
