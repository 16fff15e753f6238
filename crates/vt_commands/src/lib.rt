//! Which command words ask for, and its run to a status: of the commands that do not wait, and of those that may.
#![tactic(auto)]

mod at_once;
mod choice;
mod command;
mod unread;
mod waiting;

pub use at_once::{may_wait, run_at_once};
pub use command::{Command, choice_of, read_command};
pub use unread::refuse_unread;
pub use vt_walk_commands::{
    Bilinear, BlendMachine, Machines, PassMachine, SentMachine, StealMachine, SwapMachine,
    WordMachine, usage_line, walk_live, walk_settled,
};
pub use waiting::run_waiting;
