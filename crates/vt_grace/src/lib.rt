//! A page table of shared words, with one writer and readers that never wait.
//!
//! The words are the newest version, an announcement for each sampler, four banks of entries, and the texels of all frames.
//! A version is in the bank that its number has modulo 4. A sampler holds a version while it reads; the writer publishes
//! versions, and writes a bank or a frame only while no version that a sampler may still hold needs it.
#![tactic(auto)]

mod board;
mod laws;
mod places;
mod plays;
mod reader;
mod sizes;
mod tokens;
mod views;
mod words;
mod writer;

pub use board::HoldRule;
pub use laws::{contents_are_those_of_the_change_in_force, contents_have_the_versions_frames};
pub use sizes::Sizes;
pub use tokens::{Held, Pass, Words, WriterSeat};
pub use views::{EntryNote, Look, PassView, Returned, Stage, View, WordNote, WriterView};
