//! A pass over words and a streamer that its caller holds: its batch is streamed while its picture is drawn.
#![tactic(auto)]

mod laws;
mod parts;
mod pass;
mod pass_kit;

pub use laws::rows_of_words_were_held;
pub use pass_kit::{PassKit, run_pass, run_pass_by};
