//! A pass, read.

ghost use Rattle.std.specs.Prelude.{◌≡◌, ◌+◌, ◌<◌, ◌≤◌, [], ◌∷◌, length, MatchResult, OnOk, IfOk};
ghost use Rattle.std.specs.Bool.{MatchBool};
ghost use Rattle.vt_journal.specs.declared.lines.Line.{Line};
ghost use Rattle.vt_journal.specs.JournalReading.{IsCursor, IsJournalRefusal, IsNoEventAt, IsBetweenPasses, IsNextPassLine, Advances, IsAwaited, IsInPass, IsPassFilled, IsPassRead, reading_of};
ghost use Rattle.vt_journal.specs.JournalFlaws.{Reading, IsNextPicture};

use crate::changes::{Events, RowLines};
use crate::kept::Kept;
use crate::lines::Line;
use crate::parse::JournalError;
use crate::passes::PassText;
use crate::read::events::read_events;
use crate::read::rows::read_rows;
use crate::read::source::{Cursor, Source, bad, read_line};
use std::alloc::Global;

// Whether a pass may have a picture after so many passes, of which the last had the picture before.
fn is_next_picture(passes: u32, before: u32, picture: u32) -> bool
    ensures { MatchBool result (IsNextPicture passes before picture) (IsNextPicture passes before picture → ⊥) }
{
    if passes == 0 {
        return picture == 0;
    }
    picture == before || u64::from(picture) == u64::from(before) + 1
}

// Whether the numbers of a line that begins a pass are those of the next pass.
fn is_next_pass(version: u64, passes: u32, before: u32, pass: u32, picture: u32, start: u64) -> bool
    ensures { MatchBool result (IsNextPassLine version passes before pass picture start)
        (IsNextPassLine version passes before pass picture start → ⊥) }
{
    if u64::from(pass) != u64::from(passes) + 1 {
        return false;
    }
    if start != version {
        return false;
    }
    is_next_picture(passes, before, picture)
}

// The line that begins a pass, and what comes after it.
#[derive(Clone, Copy)]
struct BeginRead {
    pass: u32,
    picture: u32,
    start: u64,
    next: Cursor,
}

// Reads the line that begins the pass after so many, of which the last had the picture before.
fn read_begin(
    source: &Source,
    kept: &Kept,
    passes: u32,
    before: u32,
    cursor: Cursor,
) -> Result<BeginRead, JournalError>
    requires cursor { IsCursor source.now.text.now cursor.at cursor.number }
    requires more { cursor.at < length source.now.text.now }
    requires no_event { source.now.height ≡ 0 → 1 ≤ passes → IsNoEventAt source.now.geometry.now source.now.text.now cursor.at }
    ensures begun { IfOk result (λ b. IsCursor source.now.text.now b.next.at b.next.number × (b.pass ≡ passes + 1)
        × IsNextPicture passes before b.picture) }
    ensures read { (r : Reading) → IsBetweenPasses source.now.geometry.now source.now.height kept.now.changes passes before r
        → MatchResult result
        (λ b. Advances source.now.geometry.now source.now.height source.now.text.now r cursor.at cursor.number
        (Line.Begins b.pass b.picture b.start ∷ []) b.next.at b.next.number)
        (IsJournalRefusal source.now.geometry.now source.now.height source.now.text.now r cursor.at cursor.number) }
{
    let Some(read) = read_line(source, cursor) else {
        return Err(bad(cursor.number));
    };
    let Line::Begins {
        pass,
        picture,
        start,
    } = read.line
    else {
        return Err(bad(cursor.number));
    };
    if !is_next_pass(kept.version(), passes, before, pass, picture, start) {
        return Err(bad(cursor.number));
    }
    Ok(BeginRead {
        pass,
        picture,
        start,
        next: read.next,
    })
}

// Reads the events and the rows of a pass, and answers the place after them.
fn fill_pass(
    alloc: Global,
    source: &Source,
    kept: &mut Kept,
    pinned: u32,
    pass: &mut PassText,
    cursor: Cursor,
) -> Result<Cursor, JournalError>
    requires cursor { IsCursor source.now.text.now cursor.at cursor.number }
    requires in_pass { IsInPass source.now.geometry.now source.now.height kept.old.changes kept.old.pages pinned pass.old }
    ensures { MatchResult result
        (λ next. (kept.new.pages ≡ kept.old.pages)
        × IsPassFilled source.now.geometry.now source.now.height source.now.text.now kept.old.changes kept.new.changes
        pass.old pass.new cursor.at cursor.number next.at next.number)
        (IsJournalRefusal source.now.geometry.now source.now.height source.now.text.now (reading_of kept.old.changes pass.old)
        cursor.at cursor.number) }
{
    let next = read_events(source, kept, pinned, pass, cursor)?;
    let read = read_rows(alloc, source, kept, pass, next)?;
    pass.rows = read.rows;
    Ok(read.next)
}

/// A pass that was read, and what comes after it.
#[derive(Drop)]
pub struct PassRead {
    pub pass: PassText,
    pub next: Cursor,
}

/// Reads the pass after so many, of which the last had the picture before.
pub fn read_pass(
    alloc: Global,
    source: &Source,
    kept: &mut Kept,
    pinned: u32,
    passes: u32,
    before: u32,
    cursor: Cursor,
) -> Result<PassRead, JournalError>
    requires cursor { IsCursor source.now.text.now cursor.at cursor.number }
    requires more { cursor.at < length source.now.text.now }
    requires no_event { source.now.height ≡ 0 → 1 ≤ passes → IsNoEventAt source.now.geometry.now source.now.text.now cursor.at }
    requires awaited { IsAwaited source.now.geometry.now source.now.height kept.old.changes kept.old.pages pinned passes before }
    ensures pages { OnOk result (kept.new.pages ≡ kept.old.pages) }
    ensures read { (r : Reading) → IsBetweenPasses source.now.geometry.now source.now.height kept.old.changes passes before r
        → MatchResult result
        (λ p. IsPassRead source.now.geometry.now source.now.height source.now.text.now r
        kept.old.changes kept.new.changes passes p.pass
        cursor.at cursor.number p.next.at p.next.number)
        (IsJournalRefusal source.now.geometry.now source.now.height source.now.text.now r cursor.at cursor.number) }
{
    let begin = read_begin(source, kept, passes, before, cursor)?;
    let mut pass = PassText {
        pass: begin.pass,
        picture: begin.picture,
        start: begin.start,
        events: Events::new(alloc),
        rows: RowLines::new(alloc),
    };
    let next = fill_pass(alloc, source, kept, pinned, &mut pass, begin.next)?;
    Ok(PassRead { pass, next })
}
