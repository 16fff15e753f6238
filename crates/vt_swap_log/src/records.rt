//! What the log of a page cache tells.

use std::collections::LinkedList;
use vt_journal::Change;

/// What was done to the page table or to a frame. No value of it is made.
pub enum LogRecord {
    /// The page table was changed.
    Changed(Change),
    /// A frame was filled with the tile of a page, which has these texel words.
    Filled {
        frame: u32,
        page: u32,
        words: LinkedList<u64>,
    },
}

/// The tile of a page in a frame: its texel words, row by row. It has none before the frame is filled.
#[derive(Drop)]
pub struct Tile {
    /// The frame.
    pub frame: u32,
    /// The page.
    pub page: u32,
    /// The texel words.
    pub words: Vec<u64>,
}
