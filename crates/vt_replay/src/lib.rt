//! Pictures from a journal: each picture of a walk drawn again from its store, its path and its journal, without the walk.
#![tactic(auto)]

mod error;
mod judge;
mod laws;
mod pictures;
mod play;
mod stream;
mod writing;

pub use error::ReplayError;
pub use laws::replay_is_one;
pub use pictures::{replay, replay_by};
