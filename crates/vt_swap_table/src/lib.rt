//! The swapped table as a page table: a sampler's reader enters a version for each row; the writer changes one copy while readers read the
//! other, and its log tells what it did.
//! Rows that were drawn by what the log says are the replay of its journal.
#![tactic(auto)]

mod laws;
mod readers;
mod table;

pub use laws::{
    fills_add_up, logs_are_true, pictures_by_a_log_are_replayed, rows_by_a_log_are_replayed,
    what_is_said_stays_said,
};
pub use table::{SwapReader, SwapTable, SwapWriter};
