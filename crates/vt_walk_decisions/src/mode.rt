//! The two ways to walk.

/// How many passes a walk gives a picture.
#[derive(Clone, Copy, PartialEq, Eq)]
pub enum Mode {
    /// One pass, with what is loaded by then; a lost tile is left out.
    Live,
    /// As many passes as it takes until nothing is missing; a lost tile ends the walk.
    Settled,
}
