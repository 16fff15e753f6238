//! Plain pictures: what a camera sees of a whole mip chain, with no pages, by one texel a pixel and by blends.
#![tactic(auto)]

mod blended;
mod parts;
mod plain;
mod wanted_levels;

pub use blended::{draw_plain_blend, draw_plain_blend_into};
pub use plain::{Levels, draw_levels_into, draw_plain, draw_plain_into};
pub use wanted_levels::wants_level_0;
