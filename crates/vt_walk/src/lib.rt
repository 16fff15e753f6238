//! A walk over the pictures of a path: pass after pass, live or settled, and what is written of them. One crew of hands runs all passes of a walk.
#![tactic(auto)]

mod advance;
mod beside;
mod errand;
mod files;
mod loaders;
mod output_folder;
mod passes;
mod pictures;
mod pinned;
mod uncounted;
mod walk;
mod walk_steps;

pub use uncounted::walk_with;
pub use vt_walk_decisions::{Crew, Mode, Names, PassMachine, SentMachine, Settings, WalkError};
pub use walk::walk_counted;
pub use walk_steps::Walked;
