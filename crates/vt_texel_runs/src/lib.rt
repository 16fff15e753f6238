//! Texels by places of level 0 and wanted levels, one by one and in runs, read over a look-up of pages: the nearest ones, and blends of four.
#![tactic(auto)]

mod blends;
mod points;
mod spans;
mod stretches;

pub use blends::blend_run;
pub use points::{Point, are_points, read_all};
pub use spans::{Span, is_run, read_run};
