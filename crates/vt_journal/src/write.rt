//! The text of a journal, written.

ghost use Rattle.std.specs.Prelude.{◌≡◌, ◌+◌, ◌<◌, ◌≤◌, [], ◌∷◌, ◌++◌, length, map, OnOk, IfOk, All};
ghost use Rattle.std.specs.List.{join_with_byte};
ghost use Rattle.vt_text.specs.Limits.{blank, most_versions};
ghost use Rattle.vt_text.specs.Numbers.{number_spelling};
ghost use Rattle.vt_pages.specs.Pages.{pages_of};
ghost use Rattle.vt_journal.specs.declared.lines.Line.{Line};
ghost use Rattle.vt_journal.specs.Changes.{Pinned};
ghost use Rattle.vt_journal.specs.Fronts.{IsFrontOf};
ghost use Rattle.vt_journal.specs.JournalText.{changes_of, event_lines, page_fields, change_fields, begin_fields, loss_fields, row_fields, behind_blanks, line_text, lines_text, IsLineInChain, IsEventInChain, head_text, pass_text};
ghost use Rattle.vt_journal.specs.Passes.{pass_of};

use crate::changes::{Change, Event, RowLine};
use crate::journal::Journal;
use crate::lines::Line;
use crate::passes::PassText;
use std::alloc::Global;
use vt_pages::Geometry;
use vt_text::{NoMemory, put_number};

// Appends bytes.
fn add(text: &mut Vec<u8>, bytes: &[u8]) -> Result<(), NoMemory>
    ensures whole { OnOk result (text.new.items ≡ text.old.items ++ bytes.now) }
    ensures front { IsFrontOf text.old.items text.new.items }
{
    text.extend_from_slice(bytes)?;
    Ok(())
}

// Appends a blank and a number.
fn add_number(text: &mut Vec<u8>, n: u64) -> Result<(), NoMemory>
    ensures whole { OnOk result (text.new.items ≡ text.old.items ++ (blank ∷ number_spelling n)) }
    ensures front { IsFrontOf text.old.items text.new.items }
{
    let mut field = [b' '; 21];
    let end = put_number(&mut field, 1, n);
    add(text, &field[..end])
}

// Appends a word, a blank and a number.
fn add_named(text: &mut Vec<u8>, word: &[u8], n: u64) -> Result<(), NoMemory>
    ensures whole { OnOk result (text.new.items ≡ text.old.items ++ (word.now ++ blank ∷ number_spelling n)) }
    ensures front { IsFrontOf text.old.items text.new.items }
{
    add(text, word)?;
    add_number(text, n)
}

// Appends the level, the column and the row of a page, each behind a blank.
fn add_page(text: &mut Vec<u8>, geometry: &Geometry, page: u32) -> Result<(), NoMemory>
    requires { page < pages_of geometry.now }
    ensures whole { OnOk result (text.new.items ≡ text.old.items ++ behind_blanks (page_fields geometry.now page)) }
    ensures front { IsFrontOf text.old.items text.new.items }
{
    let name = geometry.page_at(page);
    add_number(text, u64::from(name.level))?;
    add_number(text, u64::from(name.col))?;
    add_number(text, u64::from(name.row))
}

// Appends what is in a line behind its first word, for a change that makes a version.
fn add_pair(
    text: &mut Vec<u8>,
    geometry: &Geometry,
    version: u64,
    page: u32,
    frame: u32,
) -> Result<(), NoMemory>
    requires { page < pages_of geometry.now }
    ensures whole { OnOk result (text.new.items ≡ text.old.items
        ++ behind_blanks (number_spelling version ∷ page_fields geometry.now page ++ number_spelling frame ∷ [])) }
    ensures front { IsFrontOf text.old.items text.new.items }
{
    add_number(text, version)?;
    add_page(text, geometry, page)?;
    add_number(text, u64::from(frame))
}

// Appends what is in the line of a change before its line feed.
fn add_change(
    text: &mut Vec<u8>,
    geometry: &Geometry,
    version: u64,
    change: Change,
) -> Result<(), NoMemory>
    requires { IsLineInChain geometry.now (Line.Makes version change) }
    ensures whole { OnOk result (text.new.items ≡ text.old.items ++ join_with_byte blank (change_fields geometry.now version change)) }
    ensures front { IsFrontOf text.old.items text.new.items }
{
    match change {
        Change::Map { page, frame } => {
            add(text, b"map")?;
            add_pair(text, geometry, version, page, frame)
        }
        Change::Unmap { page, frame } => {
            add(text, b"unmap")?;
            add_pair(text, geometry, version, page, frame)
        }
    }
}

// Appends the first line of a pass without its line feed.
fn add_begin(text: &mut Vec<u8>, pass: u32, picture: u32, start: u64) -> Result<(), NoMemory>
    ensures whole { OnOk result (text.new.items ≡ text.old.items ++ join_with_byte blank (begin_fields pass picture start)) }
    ensures front { IsFrontOf text.old.items text.new.items }
{
    add_named(text, b"pass", u64::from(pass))?;
    add_named(text, b" picture", u64::from(picture))?;
    add_named(text, b" start", start)
}

// Appends the line of a row without its line feed.
fn add_row(text: &mut Vec<u8>, row: RowLine) -> Result<(), NoMemory>
    ensures whole { OnOk result (text.new.items ≡ text.old.items ++ join_with_byte blank (row_fields row)) }
    ensures front { IsFrontOf text.old.items text.new.items }
{
    add_named(text, b"row", u64::from(row.row))?;
    add_number(text, u64::from(row.sampler))?;
    add_number(text, row.version)
}

// Appends the line of a lost page without its line feed.
fn add_loss(text: &mut Vec<u8>, geometry: &Geometry, page: u32) -> Result<(), NoMemory>
    requires { page < pages_of geometry.now }
    ensures whole { OnOk result (text.new.items ≡ text.old.items ++ join_with_byte blank (loss_fields geometry.now page)) }
    ensures front { IsFrontOf text.old.items text.new.items }
{
    add(text, b"lost")?;
    add_page(text, geometry, page)
}

// Appends a line.
fn add_line(text: &mut Vec<u8>, geometry: &Geometry, line: Line) -> Result<(), NoMemory>
    requires { IsLineInChain geometry.now line }
    ensures whole { OnOk result (text.new.items ≡ text.old.items ++ line_text geometry.now line) }
    ensures front { IsFrontOf text.old.items text.new.items }
{
    match line {
        Line::Begins {
            pass,
            picture,
            start,
        } => add_begin(text, pass, picture, start)?,
        Line::Makes { version, change } => add_change(text, geometry, version, change)?,
        Line::Loses { page } => add_loss(text, geometry, page)?,
        Line::Draws(row) => add_row(text, row)?,
    }
    add(text, b"\n")
}

// Appends the line of an event after a version, and answers the version after it.
fn add_event(
    text: &mut Vec<u8>,
    geometry: &Geometry,
    version: u64,
    event: Event,
) -> Result<u64, NoMemory>
    requires page { IsEventInChain geometry.now event }
    requires room { version < most_versions }
    ensures whole { IfOk result (λ v. (v ≡ version + length (changes_of (event ∷ [])))
        × (text.new.items ≡ text.old.items ++ lines_text geometry.now (event_lines version (event ∷ [])))) }
    ensures front { IsFrontOf text.old.items text.new.items }
{
    match event {
        Event::Changed(change) => {
            let version = version + 1;
            add_line(text, geometry, Line::Makes { version, change })?;
            Ok(version)
        }
        Event::Lost { page } => {
            add_line(text, geometry, Line::Loses { page })?;
            Ok(version)
        }
    }
}

// Appends the lines of events after a version.
fn add_events(
    text: &mut Vec<u8>,
    geometry: &Geometry,
    start: u64,
    events: &[Event],
) -> Result<(), NoMemory>
    requires pages { All (IsEventInChain geometry.now) events.now }
    requires room { start + length events.now ≤ most_versions }
    ensures whole { OnOk result (text.new.items ≡ text.old.items ++ lines_text geometry.now (event_lines start events.now)) }
    ensures front { IsFrontOf text.old.items text.new.items }
{
    let mut version = start;
    for event in events {
        version = add_event(text, geometry, version, *event)?;
    }
    Ok(())
}

// Appends the lines of rows.
fn add_rows(text: &mut Vec<u8>, geometry: &Geometry, rows: &[RowLine]) -> Result<(), NoMemory>
    ensures whole { OnOk result (text.new.items ≡ text.old.items ++ lines_text geometry.now (map Line.Draws rows.now)) }
    ensures front { IsFrontOf text.old.items text.new.items }
{
    for row in rows {
        add_line(text, geometry, Line::Draws(*row))?;
    }
    Ok(())
}

/// Appends the text of a pass: the line that begins it, a line for each event, and a line for each row. `start` and the number
/// of events together are at most 2^62. The old text is a prefix of the new one, also after want of memory.
pub fn add_pass(text: &mut Vec<u8>, geometry: &Geometry, pass: &PassText) -> Result<(), NoMemory>
    requires pages { All (IsEventInChain geometry.now) pass.now.events.elements }
    requires room { pass.now.start + length pass.now.events.elements ≤ most_versions }
    ensures whole { OnOk result (text.new.items ≡ text.old.items ++ pass_text geometry.now (pass_of pass.now)) }
    ensures front { IsFrontOf text.old.items text.new.items }
{
    let begins = Line::Begins {
        pass: pass.pass,
        picture: pass.picture,
        start: pass.start,
    };
    add_line(text, geometry, begins)?;
    add_events(text, geometry, pass.start, pass.events.slice())?;
    add_rows(text, geometry, pass.rows.slice())
}

/// The text of a pass, as `add_pass` appends it.
pub fn write_pass(alloc: Global, geometry: &Geometry, pass: &PassText) -> Result<Vec<u8>, NoMemory>
    requires pages { All (IsEventInChain geometry.now) pass.now.events.elements }
    requires room { pass.now.start + length pass.now.events.elements ≤ most_versions }
    ensures { IfOk result (λ v. v.items ≡ pass_text geometry.now (pass_of pass.now)) }
{
    let mut text = Vec::new(alloc);
    add_pass(&mut text, geometry, pass)?;
    Ok(text)
}

// Appends the lines of the pinned pages.
fn add_head(
    text: &mut Vec<u8>,
    geometry: &Geometry,
    journal: &Journal,
    pinned: u32,
) -> Result<(), NoMemory>
    requires { Pinned geometry.now journal.now.changes pinned }
    ensures { OnOk result (text.new.items ≡ text.old.items ++ head_text geometry.now pinned) }
{
    for place in 0..pinned {
        let version = u64::from(place) + 1;
        let change = journal.change(version);
        let made = Line::Makes { version, change };
        add_line(text, geometry, made)?;
    }
    Ok(())
}

/// The text of the pinned pages, by which a journal begins: a line for each of its first `pinned` changes.
pub fn write_head(
    alloc: Global,
    geometry: &Geometry,
    journal: &Journal,
    pinned: u32,
) -> Result<Vec<u8>, NoMemory>
    requires { Pinned geometry.now journal.now.changes pinned }
    ensures { IfOk result (λ v. v.items ≡ head_text geometry.now pinned) }
{
    let mut text = Vec::new(alloc);
    add_head(&mut text, geometry, journal, pinned)?;
    Ok(text)
}
