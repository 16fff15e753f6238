//! The camera's path over a texture, and the texels that the rows of its pictures show.
#![tactic(auto)]

mod laws;
mod parse;
mod paths;
mod rows;
mod surfaces;
mod ways;

pub use laws::{level_is_greatest, level_within_chain, place_within_level, place_within_surface};
pub use parse::{PathError, parse_path, path_flaw_is_unique, path_has_no_flaw, path_is_unique};
pub use paths::{Camera, Path};
pub use rows::Row;
pub use surfaces::Surface;
