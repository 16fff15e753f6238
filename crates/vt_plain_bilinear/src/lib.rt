//! Bilinear filtering over any look-up of pages: each pixel is the blend of the four texels about its place.
#![tactic(auto)]

mod filter;
mod rows;
mod served;

pub use filter::Bilinear;
pub use rows::draw_row_blend;
pub use served::{Memo, Seen, memo_of, words_about};
pub use vt_pictures::{is_picture_name, picture_name};
