//! The versions of a page table, kept as the list of changes.

ghost use Rattle.std.specs.Prelude.{◌≡◌, ◌+◌, ◌-◌, ◌≤◌, [], ◌∷◌, ◌++◌, length, slice_get, Some, OnOk, OnErr};
ghost use Rattle.vt_text.specs.Limits.{most_versions};
ghost use Rattle.vt_journal.specs.Changes.{IsNext, AreInTurn, newest};

use crate::changes::Change;
use std::alloc::Global;
use std::marker::Model;
use vt_text::{Items, NoMemory};

/// The versions of a page table: version 0 maps nothing, and each change makes the next version. Contracts see the
/// changes, of which the last made the newest version, and the room for more.
#[derive(Drop)]
pub struct Journal {
    changes: Items<Change>,
}

impl Model for Journal {
    ghost use Rattle.std.specs.Prelude.{length, ◌≤◌};
    ghost use Rattle.vt_text.specs.Limits.{most_versions};
    ghost use Rattle.vt_journal.specs.Changes.{AreInTurn};
    ghost use Rattle.vt_journal.specs.Journals.{JournalView, room_for_changes};

    ghost Value = { JournalView };

    ghost view = { λ j. record { changes = j.changes.elements; spare = room_for_changes j.changes.elements j.changes.spare } };

    ghost invariant = { λ j. (length j.changes.elements ≤ most_versions) × AreInTurn j.changes.elements };
}

impl Journal {
    /// The journal of version 0, which takes no memory.
    pub fn new(alloc: Global) -> Journal
        ensures { result.changes ≡ [] }
    {
        Journal {
            changes: Items::new(alloc),
        }
    }

    /// Makes room for at least `n` more changes; no version may pass 2^62. After a refusal nothing changed.
    pub fn reserve(&mut self, n: u64) -> Result<(), NoMemory>
        requires { length self.old.changes + n ≤ most_versions }
        ensures changes { self.new.changes ≡ self.old.changes }
        ensures room { OnOk result (n ≤ self.new.spare) }
        ensures bound { length self.new.changes + self.new.spare ≤ most_versions }
        ensures refused { OnErr result (self.new.spare ≡ self.old.spare) }
    {
        self.changes.reserve(n)
    }

    /// Adds a change, which makes the next version. There is room for it, and it may come next: a map's page and frame
    /// are free, and an unmap's page is mapped to its frame.
    pub fn push(&mut self, change: Change)
        requires room { 1 ≤ self.old.spare }
        requires in_turn { IsNext (newest self.old.changes) change }
        ensures changes { self.new.changes ≡ self.old.changes ++ change ∷ [] }
        ensures spare { self.old.spare ≤ self.new.spare + 1 }
        ensures bound { length self.new.changes + self.new.spare ≤ most_versions }
    {
        self.changes.push(change);
    }

    /// The newest version, which is the number of changes and at most 2^62.
    pub fn version(&self) -> u64
        ensures version { result ≡ length self.now.changes }
        ensures most { result ≤ most_versions }
        ensures bound { length self.now.changes + self.now.spare ≤ most_versions }
        ensures in_turn { AreInTurn self.now.changes }
    {
        self.changes.len() as u64
    }

    /// The change that made a version, from 1 to the newest.
    pub fn change(&self, version: u64) -> Change
        requires some { 1 ≤ version }
        requires inside { version ≤ length self.now.changes }
        ensures { slice_get self.now.changes (version - 1) ≡ Some result }
    {
        *self.changes.at((version - 1) as usize)
    }
}
