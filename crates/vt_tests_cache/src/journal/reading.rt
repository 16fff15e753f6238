//! Texts that are read as journals, for a texture of four by four texels in tiles of two by two and pictures of one row.

use super::{LOST_TILE, SETTLED};
use crate::checks::{joined, no_row_is_wrong};
use std::alloc::Global;
use vt_journal::{JournalError, parse_journal};
use vt_pages::Geometry;

// The line of the one pinned page.
const HEAD: &str = "map 1 1 0 0 0\n";

// How many passes a text tells.
fn passes_of(alloc: Global, text: &[u8]) -> Result<u32, JournalError> {
    let Ok(geometry) = Geometry::new(4, 4, 2) else {
        return Err(JournalError::NoMemory);
    };
    match parse_journal(alloc, &geometry, 1, text) {
        Ok(read) => Ok(read.passes()),
        Err(refusal) => Err(refusal),
    }
}

// The answers that the lines 1 to 4 are refused.
const BAD1: Result<u32, JournalError> = Err(JournalError::BadLine { line: 1 });

const BAD2: Result<u32, JournalError> = Err(JournalError::BadLine { line: 2 });

const BAD3: Result<u32, JournalError> = Err(JournalError::BadLine { line: 3 });

const BAD4: Result<u32, JournalError> = Err(JournalError::BadLine { line: 4 });

// Whether a text of a front and these lines is read so.
fn is_read(alloc: Global, front: &str, lines: &str, want: Result<u32, JournalError>) -> bool {
    match joined(alloc, front, lines) {
        Ok(text) => passes_of(alloc, text.as_bytes()) == want,
        Err(_) => false,
    }
}

// The first row whose lines behind a front are read otherwise.
fn misread(
    alloc: Global,
    front: &str,
    rows: &[(&str, Result<u32, JournalError>)],
) -> Option<usize> {
    for i in 0..rows.len() {
        let (lines, want) = rows[i];
        if !is_read(alloc, front, lines, want) {
            return Some(i);
        }
    }
    None
}

static WHOLE: [(&str, Result<u32, JournalError>); 4] = [
    ("", BAD1),
    ("map 1 0 1 1 0\nmap 2 1 0 0 1\n", Ok(0)),
    (LOST_TILE, Ok(4)),
    (SETTLED, Ok(4)),
];

#[test]
fn a_text_ends_after_a_whole_head_or_a_whole_pass(rt: HostRuntime) {
    no_row_is_wrong(&rt, misread(rt.alloc(), "", &WHOLE));
}

static FOLLOWING: [(&str, Result<u32, JournalError>); 4] = [
    ("row 0 0 1\n", BAD2),
    ("pass 1 picture 0 start 1\nrow 0 0 2\n", BAD3),
    ("pass 1 picture 0 start 1\nrow 0 0 1\nmap 2 0 0 0 1\n", BAD4),
    ("pass 1 picture 0 start 1\nrow 0 63 1\n", Ok(1)),
];

#[test]
fn a_line_that_may_not_follow_is_refused(rt: HostRuntime) {
    no_row_is_wrong(&rt, misread(rt.alloc(), HEAD, &FOLLOWING));
}
