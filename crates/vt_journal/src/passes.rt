//! What one pass of a walk tells.

use crate::changes::{Events, RowLines};

/// What the text of a pass tells.
#[derive(Drop)]
pub struct PassText {
    /// The number of the pass, from 1 on.
    pub pass: u32,
    /// The picture that the pass drew, from 0 on.
    pub picture: u32,
    /// The version of the page table at the beginning of the pass.
    pub start: u64,
    /// The changes that were made and the tiles that were lost, in their order.
    pub events: Events,
    /// The rows, from the top.
    pub rows: RowLines,
}
