//! The workers of a pass, and what a pass tells.

use vt_evict::Losses;
use vt_pictures::{Events, RowLines};

/// How many workers draw and load, and how many pages a pass loads at most.
#[derive(Clone, Copy)]
pub struct Crew {
    /// The number of samplers, from 1 to 64.
    pub samplers: u32,
    /// The number of loaders, from 1 to 16.
    pub loaders: u32,
    /// The most entries that a batch has, from 1 to 4,096.
    pub batch: u32,
}

/// What a pass did.
#[derive(Drop)]
pub struct PassReport {
    /// By whom each row was drawn and from which version, from the top.
    pub rows: RowLines,
    /// The changes that were made and the tiles that were lost, in their order.
    pub events: Events,
    /// For each entry of the batch whether its tile was lost.
    pub losses: Losses,
}
