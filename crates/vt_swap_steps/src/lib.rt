//! The steps of readers and of the writer of a page cache: its newest page table is published in two copies, and its frames have
//! rights to read and to write.
//!
//! What is seen of the log lies as a token in the published table. So who enters knows which version of the one journal it entered. A
//! frame is written only once each change of the table is published, and who notes a tile has to put it.
#![tactic(auto)]

mod entered;
mod filling;
mod noted;
mod publishing;
mod rule;
mod table;

pub use entered::{EnteredTable, LeftRightReader, enter};
pub use filling::fill_and_map;
pub use publishing::{TableWriter, note_and_publish};
pub use rule::{Known, OneJournal, Publishes, Tells};
pub use table::{NewestTable, Operation, TableState, entry_of, first_table};
pub use vt_swap_log::{
    Frame, FrameKey, Front, Head, LogRecord, Slot, Tile, again, give_back, is_behind, is_lawful,
    learn, new_slot, open_log, right_to_read, word_in_hand,
};
