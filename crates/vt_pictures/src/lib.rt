//! What pictures show: the definitions of a pixel under a page table, of a pass's replay and of a picture's bytes, and how the pixels
//! of a row are made of the texels that a look-up serves: the trait, and its first implementation, by which each pixel is one texel.
//! And the names of pictures.
#![tactic(auto)]

mod filters;
mod name_laws;
mod names;
mod nearest;

pub use filters::Filter;
pub use name_laws::{known_names_are_pictures, picture_names_are_known};
pub use names::{is_picture_name, picture_name};
pub use nearest::Nearest;
pub use vt_draw::{Found, Lookup, Path, Shot, draw_row, place_of};
pub use vt_journal::{Events, Journal, RowLines};
