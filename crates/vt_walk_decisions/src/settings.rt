//! What a walk is made with.

use vt_machine::Crew;

/// How many frames a walk has, how many levels are pinned, and its crew.
#[derive(Clone, Copy)]
pub struct Settings {
    /// The number of frames, from 1 to 65,535, with at most 8,388,608 texels together.
    pub frames: u32,
    /// The pages of the last so many levels are always mapped; at least 1 (Mayer 2010).
    pub pinned: u32,
    /// How many workers there are, and how many pages a pass loads at most.
    pub crew: Crew,
}

/// The names of a walk's files.
#[derive(Clone, Copy)]
pub struct Names<'a> {
    /// The store.
    pub store: &'a str,
    /// What the name of each picture begins with.
    pub prefix: &'a str,
    /// The journal.
    pub journal: &'a str,
}
