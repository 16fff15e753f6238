//! The rows of a pass, read.

ghost use Rattle.std.specs.Prelude.{◌≡◌, ◌+◌, ◌<◌, ◌≤◌, [], ◌∷◌, ◌++◌, length, slice_index, MatchResult};
ghost use Rattle.std.specs.Bool.{MatchBool};
ghost use Rattle.vt_text.specs.Limits.{most_samplers};
ghost use Rattle.vt_journal.specs.JournalReading.{IsCursor, IsJournalRefusal, IsSmall, IsNoEventAt, IsRowInTurn, AreSeen, AreRowsBegun, IsRowRead, AreRowsRead, with_rows};

use crate::changes::{RowLine, RowLines};
use crate::kept::Kept;
use crate::limits::MOST_SAMPLERS;
use crate::lines::Line;
use crate::parse::JournalError;
use crate::passes::PassText;
use crate::read::source::{Cursor, Source, bad, read_line};
use std::alloc::Global;

// Whether a row comes next after so many, by the versions that the samplers have seen and the newest version.
fn is_row_in_turn(rows: usize, seen: &[u64], version: u64, row: RowLine) -> bool
    requires count { length seen.now ≡ most_samplers }
    requires sampler { row.sampler < most_samplers }
    ensures { MatchBool result (IsRowInTurn rows seen.now version row) (IsRowInTurn rows seen.now version row → ⊥) }
{
    if row.row as usize != rows {
        return false;
    }
    if seen[row.sampler as usize] > row.version {
        return false;
    }
    row.version <= version
}

// Adds a row that comes next.
fn add_row(rows: &mut RowLines, seen: &mut [u64], start: u64, row: RowLine)
    requires room { 1 ≤ rows.old.spare }
    requires seen { AreSeen start rows.old.elements seen.old }
    requires sampler { row.sampler < most_samplers }
    requires rises { slice_index seen.old row.sampler ≤ row.version }
    ensures added { rows.new.elements ≡ rows.old.elements ++ row ∷ [] }
    ensures spare { rows.old.spare ≤ rows.new.spare + 1 }
    ensures seen { AreSeen start rows.new.elements seen.new }
{
    seen[row.sampler as usize] = row.version;
    rows.push(row);
}

// Reads the next row of a pass, and answers the place after it.
fn read_row(
    source: &Source,
    kept: &Kept,
    pass: &PassText,
    rows: &mut RowLines,
    seen: &mut [u64],
    cursor: Cursor,
) -> Result<Cursor, JournalError>
    requires cursor { IsCursor source.now.text.now cursor.at cursor.number }
    requires begun { AreRowsBegun source.now.geometry.now source.now.height kept.now.changes pass.now rows.old.elements seen.old }
    requires no_event { rows.old.elements ≡ [] → IsNoEventAt source.now.geometry.now source.now.text.now cursor.at }
    requires below { length rows.old.elements < source.now.height }
    requires room { 1 ≤ rows.old.spare }
    ensures { MatchResult result
        (λ next. IsRowRead source.now.geometry.now source.now.height source.now.text.now kept.now.changes pass.now
        rows.old rows.new seen.new
        cursor.at cursor.number next.at next.number)
        (IsJournalRefusal source.now.geometry.now source.now.height source.now.text.now (with_rows kept.now.changes pass.now
        rows.old.elements)
        cursor.at cursor.number) }
{
    let Some(read) = read_line(source, cursor) else {
        return Err(bad(cursor.number));
    };
    let Line::Draws(row) = read.line else {
        return Err(bad(cursor.number));
    };
    if !is_row_in_turn(rows.len(), seen, kept.version(), row) {
        return Err(bad(cursor.number));
    }
    add_row(rows, seen, pass.start, row);
    Ok(read.next)
}

// What the samplers have seen before the first row of a pass that begins at a version.
fn unseen(start: u64) -> [u64; MOST_SAMPLERS]
    ensures { AreSeen start [] result }
{
    [start; MOST_SAMPLERS]
}

// Reads the rows of a pass into a list with room for them.
fn read_into(
    source: &Source,
    kept: &Kept,
    pass: &PassText,
    rows: &mut RowLines,
    cursor: Cursor,
) -> Result<Cursor, JournalError>
    requires cursor { IsCursor source.now.text.now cursor.at cursor.number }
    requires small { IsSmall source.now.geometry.now source.now.height (with_rows kept.now.changes pass.now []) }
    requires in_pass { 1 ≤ pass.now.pass }
    requires no_event { IsNoEventAt source.now.geometry.now source.now.text.now cursor.at }
    requires none { rows.old.elements ≡ [] }
    requires room { source.now.height ≤ rows.old.spare }
    ensures { MatchResult result
        (λ next. AreRowsRead source.now.geometry.now source.now.height source.now.text.now kept.now.changes pass.now
        cursor.at cursor.number rows.new.elements next.at next.number)
        (IsJournalRefusal source.now.geometry.now source.now.height source.now.text.now (with_rows kept.now.changes pass.now [])
        cursor.at cursor.number) }
{
    let mut seen = unseen(pass.start);
    let mut place = cursor;
    'rows: while rows.len() < source.height as usize {
        place = read_row(source, kept, pass, rows, &mut seen, place)?;
    }
    Ok(place)
}

/// The rows of a pass that were read, and what comes after them.
#[derive(Drop)]
pub struct RowsRead {
    pub rows: RowLines,
    pub next: Cursor,
}

/// Reads the rows of a pass.
pub fn read_rows(
    alloc: Global,
    source: &Source,
    kept: &Kept,
    pass: &PassText,
    cursor: Cursor,
) -> Result<RowsRead, JournalError>
    requires cursor { IsCursor source.now.text.now cursor.at cursor.number }
    requires small { IsSmall source.now.geometry.now source.now.height (with_rows kept.now.changes pass.now []) }
    requires in_pass { 1 ≤ pass.now.pass }
    requires no_event { IsNoEventAt source.now.geometry.now source.now.text.now cursor.at }
    ensures { MatchResult result
        (λ r. AreRowsRead source.now.geometry.now source.now.height source.now.text.now kept.now.changes pass.now
        cursor.at cursor.number r.rows.elements r.next.at r.next.number)
        (IsJournalRefusal source.now.geometry.now source.now.height source.now.text.now (with_rows kept.now.changes pass.now [])
        cursor.at cursor.number) }
{
    let mut rows = RowLines::new(alloc);
    rows.reserve(u64::from(source.height))?;
    let next = read_into(source, kept, pass, &mut rows, cursor)?;
    Ok(RowsRead { rows, next })
}
