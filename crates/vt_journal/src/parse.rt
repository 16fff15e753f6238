//! The lines of a journal's text, read.

ghost use Rattle.std.specs.Prelude.{◌≡◌, ◌≢◌, ◌-◌, ◌<◌, ℕ, MatchOption};
ghost use Rattle.vt_text.specs.Limits.{most_frames};
ghost use Rattle.vt_text.specs.Lines.{fields_of};
ghost use Rattle.vt_journal.specs.declared.parse.JournalError.TheVariants as journal_error;
ghost use Rattle.vt_pages.specs.Pages.{pages_of};
ghost use Rattle.vt_journal.specs.declared.changes.Change.{Change};
ghost use Rattle.vt_journal.specs.declared.changes.RowLine.{RowLine};
ghost use Rattle.vt_journal.specs.JournalText.{begin_fields, pair_fields, loss_fields, row_fields};
ghost use Rattle.vt_journal.specs.declared.lines.Line.{Line};
ghost use Rattle.vt_journal.specs.JournalReading.{Says, AreBeginNumbers, ArePairNumbers, AreRowNumbers, IsNumberAt};

use crate::changes::{Change, RowLine};
use crate::fields::{ends_before, has_word, number_at, page_at, small_at};
use crate::limits::{MOST_FRAMES, MOST_SAMPLERS};
use crate::lines::Line;
use std::alloc::AllocError;
use thiserror::Error;
use vt_pages::Geometry;
use vt_text::NoMemory;

/// Why a text was not read as a journal. Lines count from 1.
#[derive(Clone, Copy, Debug, PartialEq, Eq, Error)]
#[error("the journal was not read")]
pub enum JournalError {
    /// The line is not allowed there, or the text ends before it.
    BadLine { line: u32 },
    /// There was no memory for what the text tells.
    NoMemory,
}

impl From<NoMemory> for JournalError {
    ghost from_gives = { λ _ e. e ≡ journal_error.NoMemory };

    fn from(_: NoMemory) -> JournalError {
        JournalError::NoMemory
    }
}

impl From<AllocError> for JournalError {
    ghost from_gives = { λ _ e. e ≡ journal_error.NoMemory };

    fn from(_: AllocError) -> JournalError {
        JournalError::NoMemory
    }
}

// The numbers of the line that begins a pass.
#[derive(Clone, Copy)]
struct Begin {
    pass: u32,
    picture: u32,
    start: u64,
}

// The numbers of a change's line.
#[derive(Clone, Copy)]
struct Pair {
    version: u64,
    page: u32,
    frame: u32,
}

// What a line says of the beginning of a pass.
fn read_begin(line: &[u8]) -> Option<Begin>
    ensures { MatchOption result
        ((pass picture start : ℕ) → AreBeginNumbers pass picture start → fields_of line.now ≢ begin_fields pass picture start)
        (λ b. AreBeginNumbers b.pass b.picture b.start × (fields_of line.now ≡ begin_fields b.pass b.picture b.start)) }
{
    if !has_word(line, 0, b"pass") {
        return None;
    }
    if !has_word(line, 2, b"picture") {
        return None;
    }
    if !has_word(line, 4, b"start") {
        return None;
    }
    if !ends_before(line, 6) {
        return None;
    }
    let pass = small_at(line, 1, u32::MAX)?;
    let picture = small_at(line, 3, u32::MAX)?;
    let start = number_at(line, 5)?;
    Some(Begin {
        pass,
        picture,
        start,
    })
}

// The number of a frame that is a line's field `i`, if it is one.
fn frame_at(line: &[u8], i: usize) -> Option<u32>
    ensures { IsNumberAt line.now i (most_frames - 1) result }
{
    small_at(line, i, MOST_FRAMES - 1)
}

// What a line says of a change, by the word that it begins with.
fn read_pair(geometry: &Geometry, line: &[u8], word: &[u8]) -> Option<Pair>
    ensures { MatchOption result
        ((version page frame : ℕ) → ArePairNumbers geometry.now version page frame
        → fields_of line.now ≢ pair_fields geometry.now word.now version page frame)
        (λ p. ArePairNumbers geometry.now p.version p.page p.frame
        × (fields_of line.now ≡ pair_fields geometry.now word.now p.version p.page p.frame)) }
{
    if !has_word(line, 0, word) {
        return None;
    }
    if !ends_before(line, 6) {
        return None;
    }
    let version = number_at(line, 1)?;
    let page = page_at(geometry, line, 2)?;
    let frame = frame_at(line, 5)?;
    Some(Pair {
        version,
        page,
        frame,
    })
}

// What a line says of a change that makes a version.
fn read_change(geometry: &Geometry, line: &[u8]) -> Option<Line>
    ensures { MatchOption result
        ((version : ℕ) (change : Change) → ¬ Says geometry.now line.now (Line.Makes version change))
        (Says geometry.now line.now) }
{
    if let Some(pair) = read_pair(geometry, line, b"map") {
        let change = Change::Map {
            page: pair.page,
            frame: pair.frame,
        };
        return Some(Line::Makes {
            version: pair.version,
            change,
        });
    }
    let pair = read_pair(geometry, line, b"unmap")?;
    let change = Change::Unmap {
        page: pair.page,
        frame: pair.frame,
    };
    Some(Line::Makes {
        version: pair.version,
        change,
    })
}

// What a line says of a lost page.
fn read_loss(geometry: &Geometry, line: &[u8]) -> Option<u32>
    ensures { MatchOption result
        ((page : ℕ) → page < pages_of geometry.now → fields_of line.now ≢ loss_fields geometry.now page)
        (λ page. (page < pages_of geometry.now) × (fields_of line.now ≡ loss_fields geometry.now page)) }
{
    if !has_word(line, 0, b"lost") {
        return None;
    }
    if !ends_before(line, 4) {
        return None;
    }
    page_at(geometry, line, 1)
}

// What a line says of a row.
fn read_row(line: &[u8]) -> Option<RowLine>
    ensures { MatchOption result
        ((row : RowLine) → AreRowNumbers row → fields_of line.now ≢ row_fields row)
        (λ row. AreRowNumbers row × (fields_of line.now ≡ row_fields row)) }
{
    if !has_word(line, 0, b"row") {
        return None;
    }
    if !ends_before(line, 4) {
        return None;
    }
    let row = small_at(line, 1, u32::MAX)?;
    let sampler = small_at(line, 2, MOST_SAMPLERS as u32 - 1)?;
    let version = number_at(line, 3)?;
    Some(RowLine {
        row,
        sampler,
        version,
    })
}

/// What a line says, in the order of the forms that are met most often.
pub fn parse_line(geometry: &Geometry, line: &[u8]) -> Option<Line>
    ensures { MatchOption result ((l : Line) → ¬ Says geometry.now line.now l) (Says geometry.now line.now) }
{
    if let Some(row) = read_row(line) {
        return Some(Line::Draws(row));
    }
    if let Some(change) = read_change(geometry, line) {
        return Some(change);
    }
    if let Some(page) = read_loss(geometry, line) {
        return Some(Line::Loses { page });
    }
    let begin = read_begin(line)?;
    Some(Line::Begins {
        pass: begin.pass,
        picture: begin.picture,
        start: begin.start,
    })
}
