//! What a pass loads.

use vt_feedback::Items;

/// A page that is to be loaded.
#[derive(Clone, Copy, Debug, PartialEq, Eq)]
pub struct Planned {
    /// The index of the page.
    pub page: u32,
    /// The frame that it gets.
    pub frame: u32,
    /// The mapped page whose frame that is, which is unmapped before; `None` for a free frame.
    pub victim: Option<u32>,
}

/// The pages that a pass loads, in the order in which they are asked for.
pub type Batch = Items<Planned>;

/// For each entry of a batch whether its tile was lost.
pub type Losses = Items<bool>;
