//! The events of a pass, read.

ghost use Rattle.std.specs.Prelude.{◌≡◌, ◌≢◌, None, ◌<◌, ◌≤◌, length, MatchOption, MatchResult};
ghost use Rattle.std.specs.Bool.{MatchBool};
ghost use Rattle.vt_text.specs.Limits.{most_versions};
ghost use Rattle.vt_pages.specs.Pages.{pages_of};
ghost use Rattle.vt_journal.specs.declared.lines.Line.{Line};
ghost use Rattle.vt_journal.specs.declared.changes.Event.{Event};
ghost use Rattle.vt_journal.specs.Changes.{newest};
ghost use Rattle.vt_journal.specs.JournalReading.{IsReadable, IsCursor, IsUnpinned, IsEventChange, IsInPass, IsEventAdded, AreEventsRead, IsJournalRefusal, IsNoEventAt, reading_of};

use crate::changes::{Change, Event};
use crate::kept::Kept;
use crate::lines::Line;
use crate::parse::JournalError;
use crate::passes::PassText;
use crate::read::source::{Cursor, Source, bad, read_line};
use vt_pages::Geometry;

// Whether a change unmaps none of the last so many pages.
fn is_unpinned(geometry: &Geometry, pinned: u32, change: Change) -> bool
    requires { pinned ≤ pages_of geometry.now }
    ensures { MatchBool result (IsUnpinned geometry.now pinned change) (IsUnpinned geometry.now pinned change → ⊥) }
{
    match change {
        Change::Map { .. } => true,
        Change::Unmap { page, .. } => page < geometry.page_count() - pinned,
    }
}

// Whether a change that makes a version may come among the events of a pass.
fn is_event_change(
    geometry: &Geometry,
    kept: &Kept,
    pinned: u32,
    version: u64,
    change: Change,
) -> bool
    requires pages { kept.now.pages ≡ pages_of geometry.now }
    requires pinned { pinned ≤ pages_of geometry.now }
    requires readable { IsReadable geometry.now (Line.Makes version change) }
    ensures { MatchBool result (IsEventChange geometry.now kept.now.changes pinned version change)
        (IsEventChange geometry.now kept.now.changes pinned version change → ⊥) }
{
    if version != kept.version() + 1 {
        return false;
    }
    if !is_unpinned(geometry, pinned, change) {
        return false;
    }
    kept.is_next(change)
}

// Adds the change that a line says to the journal and to the events of a pass, if it may come there.
fn add_change(
    source: &Source,
    kept: &mut Kept,
    pinned: u32,
    pass: &mut PassText,
    version: u64,
    change: Change,
) -> Result<bool, JournalError>
    requires pages { kept.old.pages ≡ pages_of source.now.geometry.now }
    requires pinned { pinned ≤ pages_of source.now.geometry.now }
    requires readable { IsReadable source.now.geometry.now (Line.Makes version change) }
    ensures { MatchResult result
        (λ b. MatchBool b
        ((length kept.new.changes ≤ most_versions) × IsEventChange source.now.geometry.now kept.old.changes pinned version change
        × IsEventAdded kept.old kept.new pass.old pass.new (Event.Changed change))
        (IsEventChange source.now.geometry.now kept.old.changes pinned version change → ⊥))
        (λ e. e ≡ JournalError.NoMemory) }
{
    if !is_event_change(source.geometry, kept, pinned, version, change) {
        return Ok(false);
    }
    kept.add(change)?;
    pass.events.reserve(1)?;
    pass.events.push(Event::Changed(change));
    Ok(true)
}

// Adds a lost page to the events of a pass, if the newest version does not map it.
fn add_loss(kept: &Kept, pass: &mut PassText, page: u32) -> Result<bool, JournalError>
    requires { page < kept.now.pages }
    ensures { MatchResult result
        (λ b. MatchBool b
        ((newest kept.now.changes page ≡ None) × IsEventAdded kept.now kept.now pass.old pass.new (Event.Lost page))
        (newest kept.now.changes page ≢ None))
        (λ e. e ≡ JournalError.NoMemory) }
{
    if kept.is_mapped(page) {
        return Ok(false);
    }
    pass.events.reserve(1)?;
    pass.events.push(Event::Lost { page });
    Ok(true)
}

// Reads an event of a pass, if the next line is one, and answers the place after it.
fn read_event(
    source: &Source,
    kept: &mut Kept,
    pinned: u32,
    pass: &mut PassText,
    cursor: Cursor,
) -> Result<Option<Cursor>, JournalError>
    requires cursor { IsCursor source.now.text.now cursor.at cursor.number }
    requires in_pass { IsInPass source.now.geometry.now source.now.height kept.old.changes kept.old.pages pinned pass.old }
    ensures { MatchResult result
        (λ o. MatchOption o (IsNoEventAt source.now.geometry.now source.now.text.now cursor.at × (kept.new ≡ kept.old)
        × (pass.new ≡ pass.old))
        (λ next. (cursor.at < next.at) × (kept.new.pages ≡ kept.old.pages) × (length kept.new.changes ≤ most_versions)
        × AreEventsRead source.now.geometry.now source.now.height source.now.text.now kept.old.changes kept.new.changes
        pass.old pass.new
        cursor.at cursor.number next.at next.number))
        (IsJournalRefusal source.now.geometry.now source.now.height source.now.text.now (reading_of kept.old.changes pass.old)
        cursor.at cursor.number) }
{
    let Some(read) = read_line(source, cursor) else {
        return Ok(None);
    };
    match read.line {
        Line::Makes { version, change } => {
            if !add_change(source, kept, pinned, pass, version, change)? {
                return Err(bad(cursor.number));
            }
            Ok(Some(read.next))
        }
        Line::Loses { page } => {
            if !add_loss(kept, pass, page)? {
                return Err(bad(cursor.number));
            }
            Ok(Some(read.next))
        }
        Line::Begins { .. } => Ok(None),
        Line::Draws(_) => Ok(None),
    }
}

/// Reads the events of a pass, and answers the place after them.
pub fn read_events(
    source: &Source,
    kept: &mut Kept,
    pinned: u32,
    pass: &mut PassText,
    cursor: Cursor,
) -> Result<Cursor, JournalError>
    requires cursor { IsCursor source.now.text.now cursor.at cursor.number }
    requires in_pass { IsInPass source.now.geometry.now source.now.height kept.old.changes kept.old.pages pinned pass.old }
    ensures { MatchResult result
        (λ next. IsNoEventAt source.now.geometry.now source.now.text.now next.at
        × IsInPass source.now.geometry.now source.now.height kept.new.changes kept.new.pages pinned pass.new
        × (kept.new.pages ≡ kept.old.pages)
        × AreEventsRead source.now.geometry.now source.now.height source.now.text.now kept.old.changes kept.new.changes
        pass.old pass.new cursor.at cursor.number next.at next.number)
        (IsJournalRefusal source.now.geometry.now source.now.height source.now.text.now (reading_of kept.old.changes pass.old)
        cursor.at cursor.number) }
{
    let mut place = cursor;
    'events: loop {
        let found = read_event(source, kept, pinned, pass, place)?;
        match found {
            Some(next) => place = next,
            None => return Ok(place),
        }
    }
}
