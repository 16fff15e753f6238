//! The lines of a journal's text.

use crate::changes::{Change, RowLine};

/// What a line of a journal's text says.
#[derive(Clone, Copy)]
pub enum Line {
    /// A pass of a picture begins at a version.
    Begins { pass: u32, picture: u32, start: u64 },
    /// A change made a version.
    Makes { version: u64, change: Change },
    /// The tile of a page could not be read.
    Loses { page: u32 },
    /// A row was drawn.
    Draws(RowLine),
}
