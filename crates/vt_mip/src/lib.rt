//! The box-filtered mip chain of a texture: each level is the one before it halved, down to the first that fits into a tile.
#![tactic(auto)]

mod chain;
mod halved_strips;
mod halving;
mod laws;
mod shrinking;
mod strip_chain;
mod taken_rows;

pub use chain::{Chain, texture_samples_are_bytes};
pub use halved_strips::halve_texture;
pub use laws::{chain_words_are_small, chains_go_on};
pub use shrinking::Shrinking;
pub use strip_chain::StripChain;
pub use taken_rows::Halving;
pub use vt_ppm::NoMemory;
