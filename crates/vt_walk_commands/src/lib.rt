//! The commands that walk or replay: `walk`, `replay` and `trial`.
#![tactic(auto)]

mod blend_replay;
mod commands;
mod live;
mod machines;

pub use blend_replay::replay_blend;
pub use commands::replay::replay;
pub use commands::trial::trial;
pub use commands::walk::walk;
pub use live::{walk_live, walk_settled};
pub use machines::Machines;
pub use vt_pass_machines::{Bilinear, BlendMachine, StealMachine, SwapMachine, WordMachine};
pub use vt_store_commands::commands::{
    StoreCommand, perform_store_command, read_store_command, usage_line,
};
pub use vt_walk::{PassMachine, SentMachine};
