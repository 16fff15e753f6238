//! What the words of commands are read with, each command by a simple `clap` command of its own; and the words of the
//! commands that walk or replay.
#![tactic(auto)]

pub mod arguments;
mod clashes;
mod command;
pub mod filters;
mod machines;
pub mod numbers;
mod replay;
mod trial;
mod walk;

pub use arguments::WordsError;
pub use command::{WalkingCommand, WalkingKind, read_walking_command, walking_kind_of};
pub use filters::Filtering;
pub use machines::MachineChoice;
pub use replay::ReplayWords;
pub use trial::TrialWords;
pub use walk::WalkWords;
