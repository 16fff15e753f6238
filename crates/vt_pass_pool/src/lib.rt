//! The workers of a pass over any page table, samplers, loaders and the streamer as tasks, and how a batch is streamed into the table; and
//! the samplers of a machine between its passes: made, made ready for a pass, and brought home after it with the rows that they drew.
#![tactic(auto)]

mod dealing;
mod ending;
mod making;
mod opening;
mod placing;
mod pool;
mod returning;
mod shared;
mod stream;
mod tasks;
mod tiles;

pub use pool::PassPool;
pub use shared::{InCommon, LentParts, OwnParts, PassShared, PassStreamer};
pub use stream::stream_into;
pub use vt_journal::{Geometry, Journal};
pub use vt_pass_rows::{
    Dealt, FeedbackCounts, Filter, Nothing, PageTable, PassSampler, Path, RowJob, Schedule, Shared,
    Shot,
};
pub use vt_streaming::StreamReport;
