//! The top call, which does any command that words ask for.
#![tactic(auto)]

mod machine_set;
mod top_call;

pub use machine_set::{run_by, run_one};
pub use top_call::run;
pub use vt_commands::{
    Bilinear, BlendMachine, Command, StealMachine, SwapMachine, WordMachine, choice_of, may_wait,
    read_command, refuse_unread, run_at_once, usage_line, walk_live, walk_settled,
};
