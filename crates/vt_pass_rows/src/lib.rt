//! The rows that a sampler of a pass draws, for all page tables, schedules and filters.
#![tactic(auto)]

mod rows;
mod sampler;

pub use sampler::PassSampler;
pub use vt_page_table::{
    FeedbackCounts, Filter, Geometry, HandTask, PageTable, Path, Planned, Shot, Task,
};
pub use vt_schedules::{Dealt, Nothing, RowJob, Schedule, Shared};
