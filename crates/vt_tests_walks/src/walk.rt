//! Walks in a folder in memory: by the machine over shared words, and by those that no words ask for.

mod live;
mod machines;
mod settled;
pub mod worked;
