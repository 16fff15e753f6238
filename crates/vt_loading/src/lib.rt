//! What the loaders of a pass work with, whoever streams their results and whoever draws meanwhile: requests, stores and buffers.
#![tactic(auto)]

mod pool;
mod room;
mod round;

pub use pool::LoaderPool;
pub use round::{blank_report, new_queues};
pub use vt_requests::{Batch, Crew, PassMachine, PassReport, Planned, SentMachine, work_together};
