//! A page table that changes only between draws: which page is in which frame, and the tiles of the frames.
#![tactic(auto)]

mod laws;
mod steps;
mod table;

pub use laws::{held_tiles_stay, tile_word_has_its_depth};
pub use steps::{depth_in, free_owner, put_entry};
pub use table::StillTable;
pub use vt_journal::{Change, Geometry, Journal};
