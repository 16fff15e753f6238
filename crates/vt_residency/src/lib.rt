//! Which pages have frames and which are loaded next, for a caller that reads the tiles itself: its loads may stay under way over
//! several passes, and it tells what its pixels want in one of three forms.
#![tactic(auto)]

mod changes;
mod feedback;
mod levels;
mod loads;
mod needs;
mod places;
mod residency;
mod tally;

pub use changes::{Change, put_changes};
pub use feedback::{Listed, are_pages, are_pages_or_none};
pub use levels::{Level, level_at};
pub use loads::{Load, NO_PAGE, put_loads};
pub use places::Place;
pub use residency::{Info, Residency};
