//! A round of requests for a batch: what is asked, what comes back and is told, and what the results are for the batch.
#![tactic(auto)]

mod asks;
mod report;
mod rounds;

pub use asks::{ask_batch, give_back};
pub use report::StreamReport;
pub use rounds::rounds_are_passes;
pub use vt_machine::{
    Batch, Crew, Events, FeedbackCounts as Counts, Losses, PassMachine, PassReport, Planned,
    SentMachine, Shot, work_together,
};
