//! The blend of four texels: which they are and what they weigh, their words' blend, and the counts of their pages.
#![tactic(auto)]

mod blends;
mod corners;
mod counting;

pub use blends::{Texels, blend_words};
pub use corners::{Corners, Weights, corners_at, corners_of, weights_of};
pub use counting::{Pages, add_texels, count_apart, count_together};
