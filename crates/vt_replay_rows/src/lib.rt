//! The rows of a replayed picture: drawn over a page table that follows a journal and over a bounded set of loaded tiles, in parts beside one
//! another where that is worth it.
#![tactic(auto)]

mod beside;
mod draw;
mod noted;
mod replay_lookup;
mod table;
mod tiles;
mod version;

pub use beside::{Part, parts_for};
pub use table::PageTable;
pub use tiles::Tiles;
pub use version::draw_version;
pub use vt_pictures::{Filter, Nearest, Shot, picture_name};
