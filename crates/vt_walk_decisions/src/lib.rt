//! The steps of a walk: what it is given, what is known between two passes, and what it decides after each.
#![tactic(auto)]

mod error;
mod input;
mod judging;
mod mode;
mod settings;
mod steps;
mod tallies;

pub use error::WalkError;
pub use input::WalkInput;
pub use judging::{has_too_few_frames, is_finished, is_written_beside, judge, pinned_page};
pub use mode::Mode;
pub use settings::{Names, Settings};
pub use steps::{Drawn, Next, NextPlan, Passed, WalkStep, drawn_of, step_after};
pub use tallies::Tally;
pub use vt_machine::{
    Crew, Desks, Errand, LentWorker, Meanwhile, Nothing, PassMachine, PassReport, SentMachine,
    hands_for, run_with_crew,
};
