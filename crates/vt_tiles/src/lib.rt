//! Tile stores as they are read: their form and its laws, a store that was opened, and the runs of texels that tiles are made of.
#![tactic(auto)]

mod error;
mod header;
mod laws;
mod store;
mod texels;

pub use error::StoreError;
pub use header::{header_of, parse_header, store_length, tile_length, tile_start};
pub use laws::{pieces_hold_texels, stored_words_are_small, stores_hold_sources, stores_open};
pub use store::{Store, Stores};
pub use texels::{double_bytes, put_span, rows_above};
pub use vt_pages::Geometry;
