//! Which pages are kept and which are loaded next: the recency of the mapped pages, and the plan of a pass, which asks
//! for coarse pages before fine ones. The parts of a plan are made in `vt_plan`.
//!
//! A page table has an entry for each page: 0 for an unmapped page, else its frame and 1. The pinned pages have the last
//! indexes, and are always mapped (Mayer 2010). The other mapped pages are kept in the order in which they were last
//! wanted, and the least recently wanted ones are given up (van Waveren 2012).
#![tactic(auto)]

mod lawful;
mod laws;
mod lines;
mod orders;
mod recency;

pub use lawful::plan_is_lawful;
pub use laws::{
    candidates_rise_by_stamps, no_stamps_at_first, order_is_by_stamps, pass_gives_one_stamp_a_page,
    stamps_give_one_order,
};
pub use recency::Recency;
pub use vt_plan::{Batch, Counts, Losses, Planned};
