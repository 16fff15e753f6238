//! A page cache whose newest page table is published in two copies, and whose frames have rights
//! to read and to write.
//!
//! What the writer does is in a log, of which who reads knows a beginning (vt_swap_steps).
#![tactic(auto)]

mod drawing;
mod layout;
mod lookup;
mod making;
mod reader;
mod streamer;

pub use making::new_cache;
pub use reader::TableReader;
pub use streamer::SwapStreamer;
pub use vt_swap_steps::{FrameKey, LogRecord, Slot, Tile};
