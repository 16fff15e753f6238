//! The lines of the pinned pages, read.

ghost use Rattle.std.specs.Prelude.{◌≡◌, ◌≢◌, ◌+◌, ◌<◌, [], MatchOption, MatchResult, ℕ};
ghost use Rattle.vt_pages.specs.Pages.{pages_of};
ghost use Rattle.vt_journal.specs.declared.lines.Line.{Line};
ghost use Rattle.vt_journal.specs.declared.changes.Change.{Change};
ghost use Rattle.vt_journal.specs.JournalReading.{IsJournalRefusal, IsSource, IsHeadBegun};
ghost use Rattle.vt_journal.specs.JournalFlaws.{nothing_read};

use crate::changes::Change;
use crate::kept::Kept;
use crate::lines::Line;
use crate::parse::JournalError;
use crate::read::source::{Cursor, Source, bad, read_line};

/// The pinned pages that were read, and what comes after them.
#[derive(Clone, Copy)]
pub struct HeadRead {
    pub pinned: u32,
    pub next: Cursor,
}

// The numbers of a line that says a map.
#[derive(Clone, Copy)]
struct MapRead {
    version: u64,
    page: u32,
    frame: u32,
}

// The map that a line says, if it says one.
fn map_of(line: Line) -> Option<MapRead>
    ensures { MatchOption result ((v p f : ℕ) → line ≢ Line.Makes v (Change.Map p f))
        (λ m. line ≡ Line.Makes m.version (Change.Map m.page m.frame)) }
{
    let Line::Makes { version, change } = line else {
        return None;
    };
    let Change::Map { page, frame } = change else {
        return None;
    };
    Some(MapRead {
        version,
        page,
        frame,
    })
}

// Reads the line of the first pinned page.
fn read_first(source: &Source, kept: &mut Kept) -> Result<HeadRead, JournalError>
    requires limits { IsSource source.now.geometry.now source.now.height }
    requires none { kept.old.changes ≡ [] }
    requires pages { kept.old.pages ≡ pages_of source.now.geometry.now }
    ensures { MatchResult result
        (λ h. (kept.new.pages ≡ kept.old.pages)
        × IsHeadBegun source.now.geometry.now source.now.height source.now.text.now kept.new.changes h.pinned 1
        h.next.at h.next.number)
        (IsJournalRefusal source.now.geometry.now source.now.height source.now.text.now nothing_read 0 1) }
{
    let Some(read) = read_line(source, Cursor { at: 0, number: 1 }) else {
        return Err(bad(1));
    };
    let Some(map) = map_of(read.line) else {
        return Err(bad(1));
    };
    if map.version != 1 {
        return Err(bad(1));
    }
    if map.frame != 0 {
        return Err(bad(1));
    }
    kept.add(Change::Map {
        page: map.page,
        frame: 0,
    })?;
    Ok(HeadRead {
        pinned: source.geometry.page_count() - map.page,
        next: read.next,
    })
}

// Reads the line of a further pinned page.
fn read_further(
    source: &Source,
    kept: &mut Kept,
    pinned: u32,
    place: u32,
    cursor: Cursor,
) -> Result<Cursor, JournalError>
    requires limits { IsSource source.now.geometry.now source.now.height }
    requires pages { kept.old.pages ≡ pages_of source.now.geometry.now }
    requires below { place < pinned }
    requires begun { IsHeadBegun source.now.geometry.now source.now.height source.now.text.now kept.old.changes
        pinned place cursor.at cursor.number }
    ensures { MatchResult result
        (λ next. (kept.new.pages ≡ kept.old.pages)
        × IsHeadBegun source.now.geometry.now source.now.height source.now.text.now kept.new.changes pinned (place + 1)
        next.at next.number)
        (IsJournalRefusal source.now.geometry.now source.now.height source.now.text.now nothing_read 0 1) }
{
    let Some(read) = read_line(source, cursor) else {
        return Err(bad(cursor.number));
    };
    let Some(map) = map_of(read.line) else {
        return Err(bad(cursor.number));
    };
    let page = source.geometry.page_count() - pinned + place;
    if map.version != u64::from(place) + 1 {
        return Err(bad(cursor.number));
    }
    if map.page != page {
        return Err(bad(cursor.number));
    }
    if map.frame != place {
        return Err(bad(cursor.number));
    }
    let change = Change::Map {
        page: map.page,
        frame: map.frame,
    };
    if !kept.is_next(change) {
        return Err(bad(cursor.number));
    }
    kept.add(change)?;
    Ok(read.next)
}

/// Reads the lines of the pinned pages.
pub fn read_head(source: &Source, kept: &mut Kept) -> Result<HeadRead, JournalError>
    requires limits { IsSource source.now.geometry.now source.now.height }
    requires none { kept.old.changes ≡ [] }
    requires pages { kept.old.pages ≡ pages_of source.now.geometry.now }
    ensures { MatchResult result
        (λ h. (kept.new.pages ≡ kept.old.pages)
        × IsHeadBegun source.now.geometry.now source.now.height source.now.text.now kept.new.changes h.pinned h.pinned
        h.next.at h.next.number)
        (IsJournalRefusal source.now.geometry.now source.now.height source.now.text.now nothing_read 0 1) }
{
    let first = read_first(source, kept)?;
    let mut place = first.next;
    for i in 1..first.pinned {
        place = read_further(source, kept, first.pinned, i, place)?;
    }
    Ok(HeadRead {
        pinned: first.pinned,
        next: place,
    })
}
