//! A crew of threads that lives as long as an errand, as a walk of many passes.
//!
//! Each hand of a crew is a thread at one end of a desk. Whoever runs the errand has the other ends: it lays a job on a desk, does what else there
//! is, and takes the job back once the hand has done it. A job that the hand has not begun by then the caller does itself. Of what comes back it knows
//! what a join tells of a closure: what the job was and what it is.
//!
//! A desk is a table of one atomic word, which says whose turn it is, one slot, in which the job lies, and a seat for each end. The caller's seat
//! knows which job it laid there, in proofs alone. Where no hand is there a job is handed back at once, and the caller does it itself.
//!
//! It is not proved that a thread was made, that a hand begins, wakes or gets on, nor that it ends: a call that waits for a job may wait for ever.
#![tactic(auto)]

mod board;
mod crew;
mod desk;
mod ends;
mod errand;
mod hand;
mod plays;
mod views;
mod work;

pub use board::TurnRule;
pub use crew::Desks;
pub use ends::Pending;
pub use errand::{Errand, run_with_crew};
pub use views::DeskView;
pub use work::Work;
