//! A text that is read: its places, the line at a place, and the refusal of a line.

ghost use Rattle.std.specs.Prelude.{◌≡◌, ◌⊎◌, MatchOption};
ghost use Rattle.vt_journal.specs.JournalReading.{IsCursor, IsLineRead, IsNoLine};

use crate::lines::Line;
use crate::parse::{JournalError, parse_line};
use vt_pages::Geometry;
use vt_text::next_line;

/// A text of a journal, for the pages of a geometry and pictures of a height.
#[derive(Clone, Copy)]
pub struct Source<'a> {
    pub geometry: &'a Geometry,
    pub height: u32,
    pub text: &'a [u8],
}

/// The place and the number of a line.
#[derive(Clone, Copy)]
pub struct Cursor {
    pub at: usize,
    pub number: u64,
}

/// A line that was read, and what comes after it.
#[derive(Clone, Copy)]
pub struct LineRead {
    pub line: Line,
    pub next: Cursor,
}

/// The refusal of the line with a number; lines past 2^32 - 1 are taken for want of memory.
pub fn bad(number: u64) -> JournalError
    ensures { (result ≡ JournalError.NoMemory) ⊎ (result ≡ JournalError.BadLine number) }
{
    if number > u64::from(u32::MAX) {
        return JournalError::NoMemory;
    }
    JournalError::BadLine {
        line: number as u32,
    }
}

/// The line at a place, if one is there.
pub fn read_line(source: &Source, cursor: Cursor) -> Option<LineRead>
    requires { IsCursor source.now.text.now cursor.at cursor.number }
    ensures { MatchOption result (IsNoLine source.now.geometry.now source.now.text.now cursor.at)
        (λ r. IsLineRead source.now.geometry.now source.now.text.now cursor.at cursor.number r.line r.next.at r.next.number) }
{
    let end = next_line(source.text, cursor.at)?;
    let line = parse_line(source.geometry, &source.text[cursor.at..end])?;
    let next = Cursor {
        at: end + 1,
        number: cursor.number + 1,
    };
    Some(LineRead { line, next })
}
