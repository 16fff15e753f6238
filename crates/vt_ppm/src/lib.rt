//! Images in the raw PPM form (P6): reading and writing.
#![tactic(auto)]

mod error;
mod field;
mod header;
mod image;
mod laws;
mod parts;
mod picture;
mod raster;
mod read;
mod rows;
mod strips;
mod whole;

pub use error::PpmError;
pub use header::{Header, MOST_READ_SIDE, MOST_TILED_SIDE};
pub use image::Image;
pub use laws::{
    flaw_is_one, header_has_no_flaw, header_is_one, image_has_no_flaw, image_is_one,
    image_is_texture, sample_flaw_within_sides, samples_are_bytes, spelt_samples_are_bytes,
    texel_words_are_small, texture_within_sides, written_is_read,
};
pub use picture::{begin_picture, encode, encode_into, encode_wide};
pub use read::{read_header, read_image};
pub use strips::StripReader;
pub use vt_definitions::texel_length;
pub use vt_outside::{Failed, File, NoMemory, OutsideError};
pub use vt_threads::{HALVING_TIME, STRIP_HALVING_TIME, processors, share, threads_for};
pub use whole::image_flaw;
