//! The parts of a plan: which pages are loaded next, and which frames they get. A page table is here the list of its entries (0 for an
//! unmapped page, else its frame and 1), and the pages that may be given up are an order, the most recently used first. What both are to
//! each other is known above, in `vt_evict`.
#![tactic(auto)]

mod batches;
mod plans;

pub use batches::{Batch, Losses, Planned};
pub use plans::{add_page, missing_of, put_victims, with_free};
pub use vt_feedback::{Counts, Geometry, Wants};
