//! Tile stores: the tiles of all pages of a mip chain in one file, raw, each at a place that its page's index tells. Stores are
//! written here, and read in `vt_tiles`.
#![tactic(auto)]

mod laws;
mod levels;
mod ring;
mod round;
mod steps;
mod strip;
mod strips;
mod widen;
mod write;

pub use laws::stores_hold_chains;
pub use strips::write_strips;
pub use vt_tiles::{
    Store, StoreError, Stores, pieces_hold_texels, store_length, stored_words_are_small,
    stores_hold_sources, stores_open, tile_length,
};
pub use widen::widen_store;
pub use write::{tile_columns, write_store};
