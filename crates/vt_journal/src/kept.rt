//! A journal that is read, with its newest version.

ghost use Rattle.std.specs.Prelude.{◌≡◌, ◌≢◌, ◌+◌, ◌<◌, ◌≤◌, None, [], ◌∷◌, ◌++◌, length, OnOk, IfOk};
ghost use Rattle.std.specs.Bool.{MatchBool};
ghost use Rattle.vt_text.specs.Limits.{most_pages, most_versions};
ghost use Rattle.vt_journal.specs.Changes.{IsNext, newest};
ghost use Rattle.vt_journal.specs.Lookups.{change_page};
ghost use Rattle.vt_journal.specs.Kept.{change_frame, IsWithinTable};

use crate::changes::Change;
use crate::journal::Journal;
use crate::limits::MOST_VERSIONS;
use crate::table::PageTable;
use std::alloc::Global;
use std::marker::Model;
use vt_text::NoMemory;

/// A journal and the page table of its newest version. Contracts see the changes and how many pages there are.
#[derive(Drop)]
pub struct Kept {
    journal: Journal,
    table: PageTable,
}

impl Model for Kept {
    ghost use Rattle.std.specs.Prelude.{◌≡◌, length};
    ghost use Rattle.vt_journal.specs.Changes.{newest};
    ghost use Rattle.vt_journal.specs.Kept.{KeptView, entries_of};

    ghost Value = { KeptView };

    ghost view = { λ k. record { changes = k.journal.changes; pages = length k.table } };

    ghost invariant = { λ k. entries_of k.table ≡ newest k.journal.changes };
}

impl Kept {
    /// The journal of version 0, over so many pages.
    pub fn new(alloc: Global, pages: u32) -> Result<Kept, NoMemory>
        requires { pages ≤ most_pages }
        ensures { IfOk result (λ k. (k.changes ≡ []) × (k.pages ≡ pages)) }
    {
        Ok(Kept {
            journal: Journal::new(alloc),
            table: PageTable::new(alloc, pages)?,
        })
    }

    /// The newest version.
    pub fn version(&self) -> u64
        ensures version { result ≡ length self.now.changes }
        ensures most { result ≤ most_versions }
    {
        self.journal.version()
    }

    /// Whether the newest version maps a page.
    pub fn is_mapped(&self, page: u32) -> bool
        requires { page < self.now.pages }
        ensures { MatchBool result (newest self.now.changes page ≢ None) (newest self.now.changes page ≡ None) }
    {
        self.table.entry(page).is_some()
    }

    // Whether a page and a frame are free.
    fn is_map_next(&self, page: u32, frame: u32) -> bool
        requires { IsWithinTable self.now.pages page frame }
        ensures { MatchBool result (IsNext (newest self.now.changes) (Change.Map page frame))
            (IsNext (newest self.now.changes) (Change.Map page frame) → ⊥) }
    {
        if self.is_mapped(page) {
            return false;
        }
        self.table.is_free(frame)
    }

    /// Whether a change may come next.
    pub fn is_next(&self, change: Change) -> bool
        requires { IsWithinTable self.now.pages (change_page change) (change_frame change) }
        ensures { MatchBool result (IsNext (newest self.now.changes) change) (IsNext (newest self.now.changes) change → ⊥) }
    {
        match change {
            Change::Map { page, frame } => self.is_map_next(page, frame),
            Change::Unmap { page, frame } => self.table.entry(page) == Some(frame),
        }
    }

    /// Adds a change that may come next.
    pub fn add(&mut self, change: Change) -> Result<(), NoMemory>
        requires within { IsWithinTable self.old.pages (change_page change) (change_frame change) }
        requires in_turn { IsNext (newest self.old.changes) change }
        ensures added { OnOk result (self.new ≡ record { changes = self.old.changes ++ change ∷ []; pages = self.old.pages }) }
        ensures most { OnOk result (length self.old.changes + 1 ≤ most_versions) }
    {
        if self.journal.version() == MOST_VERSIONS {
            return Err(NoMemory);
        }
        self.journal.reserve(1)?;
        self.table.change(change);
        self.journal.push(change);
        Ok(())
    }

    /// The journal.
    pub fn into_journal(self) -> Journal
        ensures { result.changes ≡ self.changes }
    {
        self.journal
    }
}
