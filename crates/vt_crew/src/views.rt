//! What an end of a desk knows.

/// What an end of a desk knows. No value of it is made: contracts alone see it.
pub enum DeskView<J> {
    /// The caller's end, while there is no other.
    Alone,
    /// The caller's end, which has not had the slot yet.
    Fresh,
    /// The caller's end: it has the slot, and the slot is empty.
    Free,
    /// The caller's end: it waits for this job.
    Waiting(J),
    /// The hand's end: it has no job.
    Idle,
    /// The hand's end: it has this job to do.
    Working(J),
    /// An end that has left.
    Left,
}
