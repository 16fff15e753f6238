//! What these tests look with.

use std::alloc::{AllocError, Global};
use std::process::Abort;

/// Looks that something holds.
pub fn holds(rt: &impl Abort, it: bool) {
    assert!(rt; it);
}

/// Looks that no row of a table is wrong; where one is, the failure names the first.
pub fn no_row_is_wrong(rt: &impl Abort, wrong: Option<usize>) {
    assert_eq!(rt; wrong, None);
}

/// A front and the lines behind it.
pub fn joined(alloc: Global, front: &str, lines: &str) -> Result<String, AllocError> {
    let mut text = String::from_str(alloc, front)?;
    text.push_str(lines)?;
    Ok(text)
}
