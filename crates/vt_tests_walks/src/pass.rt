//! Passes over shared words and a streamer that the test holds.

mod came;
pub mod kits;
mod stores;
