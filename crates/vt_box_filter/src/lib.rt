//! The box filter of two rows of texels, whose samples have one byte or two.
#![tactic(auto)]

mod blocks;
mod boxes;
mod rows;

pub use rows::halve_rows;
