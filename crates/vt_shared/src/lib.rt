//! A page table of shared words in several hands: one owner who changes it, and readers that never wait. Each hand has the words by a
//! count of its own, so it may lie anywhere and pass to another thread, and the last one gives the words back.
#![tactic(auto)]

mod crossing;
mod owner;
mod reader;
mod steps;

pub use crossing::{owner_may_cross, reader_may_cross};
pub use owner::Owner;
pub use reader::{Reader, Stand};
pub use vt_streamer::Waiting;
pub use vt_texel_runs::{Point, Span, are_points, is_run};
