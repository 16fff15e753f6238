//! The shared words as a page table: a sampler's reader has its pass of the words, under which each row is held on its own; the writer is
//! the streamer of the words, which takes passes back.
#![tactic(auto)]

mod table;

pub use table::{WordReader, WordTable, no_readers};
pub use vt_sampler::Nearest;
