//! The queues of a pass: requests for tiles, which loaders take, and results, which they put.
//!
//! Both are one bounded queue under one rule. Threads share the queue by reference; each has a pass of its own, which knows
//! what it put and took. Once all passes are one again, it knows that what was put is what was taken and what is left,
//! first in, first out.
#![tactic(auto)]

mod calls;
mod items;
mod laws;
mod queue;
mod views;

pub use calls::Full;
pub use items::{Loaded, Outcome, Request, RequestQueue, ResultQueue};
pub use laws::{
    ItemFact, facts_of_puts_hold_of_takes, first_in_is_first_out, joined_pass_has_all,
    nothing_is_lost_or_doubled, whole_pass_goes_in_order, whole_pass_knows_the_queue,
};
pub use queue::{Queue, QueuePass};
pub use views::PassView;
