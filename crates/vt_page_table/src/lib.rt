//! A page table as its readers and its writer see it.
#![tactic(auto)]

mod table;

pub use table::PageTable;
pub use vt_machine::{FeedbackCounts, HandTask, Losses, Planned, Task};
pub use vt_pictures::{Filter, Path, Shot};
pub use vt_tiles::{Geometry, tile_length};
