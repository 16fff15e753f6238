//! A page table that follows a journal, change by change.

ghost use Rattle.std.specs.Prelude.{◌≡◌, ◌<◌, ◌≤◌, length, None, IfOk};
ghost use Rattle.vt_definitions.specs.Limits.{most_frames};
ghost use Rattle.vt_journal.specs.Changes.{with_entry, changed};
ghost use Rattle.vt_journal.specs.Lookups.{change_page};
ghost use Rattle.vt_journal.specs.Kept.{entries_of, change_frame};
ghost use Rattle.vt_replay_rows.specs.Following.{MayBePlayed, Follows};

use crate::tiles::put_entry;
use std::alloc::Global;
use vt_journal::{Change, Journal};
use vt_outside::NoMemory;
use vt_pages::Geometry;

/// A page table at a version of a journal. It has no tiles.
#[derive(Drop)]
pub struct PageTable {
    /// The version of the journal.
    pub version: u64,
    /// For each page 1 more than its frame, or 0.
    pub entries: Vec<u32>,
}

impl PageTable {
    /// The table of version 0.
    pub fn new(alloc: Global, geometry: &Geometry, journal: &Journal) -> Result<PageTable, NoMemory>
        ensures first { IfOk result (λ t. t.version ≡ 0) }
        ensures follows { IfOk result (λ t. Follows geometry.now journal.now.changes t.entries.items t.version) }
    {
        let entries = Vec::from_elem(alloc, 0, geometry.page_count() as usize)?;
        let _newest = journal.version();
        Ok(PageTable {
            version: 0,
            entries,
        })
    }

    /// Brings the table to a version.
    pub fn advance(&mut self, geometry: &Geometry, journal: &Journal, version: u64)
        requires follows { Follows geometry.now journal.now.changes self.old.entries.items self.old.version }
        requires played { MayBePlayed geometry.now journal.now.changes }
        requires forward { self.old.version ≤ version }
        requires inside { version ≤ length journal.now.changes }
        ensures follows { Follows geometry.now journal.now.changes self.new.entries.items self.new.version }
        ensures there { self.new.version ≡ version }
    {
        let entries = self.entries.as_mut_slice();
        make_changes(entries, geometry, journal, self.version, version);
        self.version = version;
    }
}

// Gives the page of a change the number of its new entry.
fn make_change(entries: &mut [u32], change: Change)
    requires page { change_page change < length entries.old }
    requires frame { change_frame change < most_frames }
    ensures { entries_of entries.new ≡ changed (entries_of entries.old) change }
{
    match change {
        Change::Map { page, frame } => put_entry(entries, page, frame),
        Change::Unmap { page, frame: _ } => clear_entry(entries, page),
    }
}

// Takes its entry from a page.
fn clear_entry(entries: &mut [u32], page: u32)
    requires { page < length entries.old }
    ensures { entries_of entries.new ≡ with_entry (entries_of entries.old) page None }
{
    entries[page as usize] = 0;
}

// Makes the changes from one version to another.
fn make_changes(
    entries: &mut [u32],
    geometry: &Geometry,
    journal: &Journal,
    from: u64,
    version: u64,
)
    requires follows { Follows geometry.now journal.now.changes entries.old from }
    requires played { MayBePlayed geometry.now journal.now.changes }
    requires forward { from ≤ version }
    requires inside { version ≤ length journal.now.changes }
    ensures { Follows geometry.now journal.now.changes entries.new version }
{
    let _newest = journal.version();
    for made in from..version {
        make_change(entries, journal.change(made + 1));
    }
}
