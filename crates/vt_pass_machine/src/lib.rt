//! One machine for all page tables, schedules and filters.
#![tactic(auto)]

mod machine;
mod passes;

pub use machine::Machine;
pub use passes::{begin_pass, end_pass};
pub use vt_loading::{PassMachine, SentMachine};
pub use vt_outside::File;
pub use vt_pass_pool::{
    Dealt, FeedbackCounts, Filter, Geometry, Nothing, PageTable, PassPool, PassSampler,
    PassStreamer, Path, Schedule, Shared, Shot,
};
