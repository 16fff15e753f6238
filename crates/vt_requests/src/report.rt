//! What streaming a batch tells.

use vt_load::Loaded;
use vt_machine::{Events, Losses};
use vt_outside::Items;

/// What streaming a batch tells.
#[derive(Drop)]
pub struct StreamReport {
    /// The events, in their order.
    pub events: Events,
    /// For each entry of the batch whether its tile was lost.
    pub losses: Losses,
    /// For each entry whether its result was taken.
    pub taken: Losses,
    /// The results that were applied, in their order.
    pub results: Items<Loaded>,
}
