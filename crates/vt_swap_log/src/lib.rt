//! The log of a page cache, and the frames with what was noted of them.
//!
//! A writer notes what it does before it does it: each change of the page table, and each tile that it puts into a frame. What is seen
//! of the log lies as a token in each frame. So who has the right to read a frame knows which tile lies there.
#![tactic(auto)]

mod frame;
mod fronts;
mod log;
mod records;
mod slots;

pub use frame::{Frame, FrameKey, Slot};
pub use fronts::{add, again, is_behind, is_lawful, learn, note_change, open_log};
pub use log::{Add, Front, Head, Law, Nothing};
pub use records::{LogRecord, Tile};
pub use slots::{give_back, new_slot, right_to_read, right_to_write, word_in_hand};
