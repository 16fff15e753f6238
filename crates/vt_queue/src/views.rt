use std::collections::LinkedList;

/// What a pass knows, as contracts see it: each item stands with its place in the queue's one order, from 0. No value of it
/// is ever made.
pub struct PassView<I> {
    /// Its part of the right to know the whole; a pass that has all shares is the only one.
    pub shares: u64,
    /// What others put before they split this pass off, or before a pass was joined to it.
    pub known: LinkedList<(u64, I)>,
    /// What it put itself, and each pass that was joined to it.
    pub put: LinkedList<(u64, I)>,
    /// What it took itself, and each pass that was joined to it.
    pub took: LinkedList<(u64, I)>,
}
