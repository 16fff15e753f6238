//! One pass of a walk: a batch of pages is streamed into the page table while a picture is drawn from it.
//!
//! `PassMachine` is what streams and draws, as its callers see it; a `Task` is what one worker of a pass does, and `work_together` has
//! loaders, samplers and a streamer at work at once, each thread made for the pass. A `HandTask` is what a loader or a sampler does that may go to a
//! hand of vt_crew, and `work_with_crew` does a pass with those hands.
#![tactic(auto)]

mod crew;
mod crewed;
mod hand_task;
mod laws;
mod lent_worker;
mod machine;
mod meanwhile;
mod task;
mod threads;
mod work;

pub use crew::{Crew, PassReport};
pub use crewed::work_with_crew;
pub use hand_task::HandTask;
pub use laws::{
    entries_are_streamed_one_by_one, mapped_pixels_are_plain, order_leaves_one_table, reads_add_up,
    settled_pass_is_plain,
};
pub use lent_worker::{LentWorker, Role};
pub use machine::{PassMachine, SentMachine};
pub use meanwhile::{Meanwhile, Nothing};
pub use task::Task;
pub use threads::hands_for;
pub use vt_crew::{Desks, Errand, run_with_crew};
pub use vt_evict::{Batch, Counts as FeedbackCounts, Losses, Planned};
pub use vt_pictures::{Events, Journal, Path, RowLines, Shot};
pub use work::work_together;
