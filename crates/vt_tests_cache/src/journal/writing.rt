//! Journals that are written from what they tell, and read again.

ghost use Rattle.std.specs.Prelude.{All};
ghost use Rattle.std.specs.Bool.{MatchBool};
ghost use Rattle.vt_journal.specs.JournalText.{IsEventInChain};

use super::versions::one_map;
use super::{LOST_TILE, SETTLED};
use std::alloc::Global;
use vt_journal::{
    Change, Event, Events, Journal, JournalText, PassText, RowLine, RowLines, add_pass,
    parse_journal, write_head, write_pass,
};
use vt_outside::NoMemory;
use vt_pages::Geometry;

// What a pass of one row tells, which sampler 0 drew.
struct Told {
    pass: u32,
    picture: u32,
    start: u64,
    events: &'static [Event],
    version: u64,
}

// Whether the page that an event names is in the chain.
fn is_in_chain(geometry: &Geometry, event: Event) -> bool
    ensures { MatchBool result (IsEventInChain geometry.now event) (Unit {0}) }
{
    match event {
        Event::Changed(Change::Map { page, .. }) => page < geometry.page_count(),
        Event::Changed(Change::Unmap { page, .. }) => page < geometry.page_count(),
        Event::Lost { page } => page < geometry.page_count(),
    }
}

// Whether the pages that events name are in the chain.
fn are_in_chain(geometry: &Geometry, events: &[Event]) -> bool
    ensures { MatchBool result (All (IsEventInChain geometry.now) events.now) (Unit {0}) }
{
    for event in events {
        if !is_in_chain(geometry, *event) {
            return false;
        }
    }
    true
}

// The row of a pass.
fn row_of(told: &Told) -> RowLine {
    RowLine {
        row: 0,
        sampler: 0,
        version: told.version,
    }
}

// The text of the one pinned page.
fn head_text(alloc: Global, geometry: &Geometry) -> Result<Vec<u8>, NoMemory> {
    let journal = one_map(alloc)?;
    if geometry.page_count() != 5 {
        return Err(NoMemory);
    }
    write_head(alloc, geometry, &journal, 1)
}

// A pass that tells this.
fn pass_of(alloc: Global, told: &Told) -> Result<PassText, NoMemory> {
    let events = Events::from_slice(alloc, told.events)?;
    let rows = RowLines::from_slice(alloc, &[row_of(told)])?;
    Ok(PassText {
        pass: told.pass,
        picture: told.picture,
        start: told.start,
        events,
        rows,
    })
}

// Appends the text of a pass, and tells whether it is the same as what is written of it alone.
fn is_added(alloc: Global, text: &mut Vec<u8>, geometry: &Geometry, pass: &PassText) -> bool {
    if !are_in_chain(geometry, pass.events.slice())
        || pass.events.len() >= 100
        || pass.start >= 100
    {
        return false;
    }
    let is_added = add_pass(text, geometry, pass).is_ok();
    match write_pass(alloc, geometry, pass) {
        Ok(alone) => is_added && text.as_slice().ends_with(alone.as_slice()),
        Err(_) => false,
    }
}

// Appends the texts of passes, and tells whether each is the same as what is written of it alone.
fn are_added(alloc: Global, text: &mut Vec<u8>, geometry: &Geometry, passes: &[Told]) -> bool {
    for told in passes {
        match pass_of(alloc, told) {
            Ok(pass) => {
                if !is_added(alloc, text, geometry, &pass) {
                    return false;
                }
            }
            Err(_) => return false,
        }
    }
    true
}

// Whether the passes are written as the text.
fn are_written(alloc: Global, geometry: &Geometry, passes: &[Told], text: &str) -> bool {
    match head_text(alloc, geometry) {
        Ok(mut written) => {
            are_added(alloc, &mut written, geometry, passes)
                && written.as_slice() == text.as_bytes()
        }
        Err(_) => false,
    }
}

// Whether a pass that was read tells what it is to tell.
fn is_told(read: &PassText, told: &Told) -> bool {
    read.pass == told.pass
        && read.picture == told.picture
        && read.start == told.start
        && read.events.slice() == told.events
        && read.rows.slice() == [row_of(told)].as_slice()
}

// Whether the passes that were read tell what they are to tell.
fn are_known_to(read: &JournalText, passes: &[Told]) -> bool {
    if read.passes() as usize != passes.len() {
        return false;
    }
    for i in 0..read.passes() {
        if !is_told(read.pass(i), &passes[i as usize]) {
            return false;
        }
    }
    true
}

// Whether the journal has these changes.
fn has_changes(journal: &Journal, changes: &[Change]) -> bool {
    if journal.version() as usize != changes.len() {
        return false;
    }
    for i in 0..changes.len() {
        if journal.change(i as u64 + 1) != changes[i] {
            return false;
        }
    }
    true
}

// Whether the text is read as the passes, with these changes.
fn is_read(
    alloc: Global,
    geometry: &Geometry,
    text: &str,
    passes: &[Told],
    changes: &[Change],
) -> bool {
    match parse_journal(alloc, geometry, 1, text.as_bytes()) {
        Ok(read) => {
            read.pinned() == 1
                && are_known_to(&read, passes)
                && has_changes(read.journal(), changes)
        }
        Err(_) => false,
    }
}

// Whether the passes are written as the text, which is read as they are, with these changes.
fn is_written_and_read(alloc: Global, passes: &[Told], changes: &[Change], text: &str) -> bool {
    match Geometry::new(4, 4, 2) {
        Ok(geometry) => {
            are_written(alloc, &geometry, passes, text)
                && is_read(alloc, &geometry, text, passes, changes)
        }
        Err(_) => false,
    }
}

// The changes of both journals.
const ROOT: Change = Change::Map { page: 4, frame: 0 };

const FIRST: Change = Change::Map { page: 0, frame: 1 };

const SECOND: Change = Change::Map { page: 2, frame: 2 };

const VICTIM: Change = Change::Unmap { page: 0, frame: 1 };

const THIRD: Change = Change::Map { page: 3, frame: 1 };

const LOST: [Event; 3] = [
    Event::Lost { page: 1 },
    Event::Changed(VICTIM),
    Event::Changed(THIRD),
];

static LOSING_PASSES: [Told; 4] = [
    Told {
        pass: 1,
        picture: 0,
        start: 1,
        events: &[],
        version: 1,
    },
    Told {
        pass: 2,
        picture: 1,
        start: 1,
        events: &[Event::Changed(FIRST), Event::Changed(SECOND)],
        version: 1,
    },
    Told {
        pass: 3,
        picture: 2,
        start: 3,
        events: &[],
        version: 3,
    },
    Told {
        pass: 4,
        picture: 3,
        start: 3,
        events: &LOST,
        version: 3,
    },
];

#[test]
fn the_journal_of_a_lost_tile_is_written_and_read(rt: HostRuntime) {
    let changes = [ROOT, FIRST, SECOND, VICTIM, THIRD];
    assert!(rt; is_written_and_read(rt.alloc(), &LOSING_PASSES, &changes, LOST_TILE));
}

static SETTLING_PASSES: [Told; 4] = [
    Told {
        pass: 1,
        picture: 0,
        start: 1,
        events: &[],
        version: 1,
    },
    Told {
        pass: 2,
        picture: 0,
        start: 1,
        events: &[Event::Changed(FIRST)],
        version: 2,
    },
    Told {
        pass: 3,
        picture: 0,
        start: 2,
        events: &[Event::Changed(SECOND)],
        version: 3,
    },
    Told {
        pass: 4,
        picture: 0,
        start: 3,
        events: &[],
        version: 3,
    },
];

#[test]
fn the_journal_of_a_settled_picture_is_written_and_read(rt: HostRuntime) {
    let changes = [ROOT, FIRST, SECOND];
    assert!(rt; is_written_and_read(rt.alloc(), &SETTLING_PASSES, &changes, SETTLED));
}

// The text of no pinned page.
fn empty_head(alloc: Global, geometry: &Geometry) -> Result<Vec<u8>, NoMemory> {
    let journal = Journal::new(alloc);
    write_head(alloc, geometry, &journal, 0)
}

// Whether the text of no pinned page is empty.
fn is_head_empty(alloc: Global) -> bool {
    let Ok(geometry) = Geometry::new(4, 4, 2) else {
        return false;
    };
    match empty_head(alloc, &geometry) {
        Ok(head) => head.is_empty(),
        Err(_) => false,
    }
}

#[test]
fn the_head_of_no_pinned_page_is_empty(rt: HostRuntime) {
    assert!(rt; is_head_empty(rt.alloc()));
}
