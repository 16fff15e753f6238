//! The page table as it is published.

ghost use Rattle.std.specs.Prelude.{◌≡◌, ◌<◌, ◌≤◌, [], ◌∷◌, replicate, slice_set, IfOk, IfSome, MatchOption};
ghost use Rattle.vt_swap_steps.specs.Entries.{changed_entries};
ghost use Rattle.vt_swap_steps.specs.Tables.{IsNewestTable, shown};
ghost use Rattle.vt_swap_steps.specs.Rules.{IsNewestKept, nothing_known};
ghost use Rattle.vt_swap_log.specs.LogWords.{IsEntry};

use left_right::Absorb;
use std::alloc::{AllocError, Global};
use vt_journal::Change;
use vt_outside::NoMemory;
use vt_swap_log::{Front, again};

/// A version of the page table: for each page 1 more than its frame, or 0, and what was seen of the log when it was made.
#[derive(Drop)]
pub struct NewestTable {
    /// The version.
    pub version: u64,
    /// The entries.
    pub entries: Vec<u32>,
    /// What was seen of the log.
    pub front: Front,
}

/// What the two copies have in common. No value of it is made.
pub struct TableState {
    pub version: u64,
    pub entries: [u32; 0],
    pub front: Front,
}

/// A change of the page table, and what is seen of the log that ends with it.
#[derive(Drop)]
pub struct Operation {
    /// The change.
    pub change: Change,
    /// The log that ends with it.
    pub front: Front,
}

/// A table of version 0, which maps none of the cache's pages.
#[tactic(auto, using(crate::proofs::Turning::kept_first))]
pub fn first_table(alloc: Global, front: &Front) -> Result<NewestTable, NoMemory>
    requires empty { front.now.seen.log ≡ [] }
    ensures shown { IfOk result
        (λ t. shown t ≡ record { version = 0; entries = replicate front.now.pages 0; front = front.now }) }
    ensures front { IfOk result (λ t. t.front ≡ front.now) }
    ensures kept { IfOk result (λ t. IsNewestKept t (nothing_known ∷ [])) }
{
    let entries = Vec::from_elem(alloc, 0, front.pages as usize)?;
    Ok(NewestTable {
        version: 0,
        entries,
        front: again(front),
    })
}

/// The entry of a page; `None` where the cache has no such page.
#[inline(always)]
pub fn entry_of(table: &NewestTable, page: u32) -> Option<u32>
    requires { IsNewestTable table.now }
    ensures entry { IfSome result (IsEntry table.now.front.seen.log table.now.version page) }
    ensures inside { MatchOption result (table.now.front.pages ≤ page) (λ entry. page < table.now.front.pages) }
{
    let place = page as usize;
    if place >= table.entries.len() {
        return None;
    }
    Some(table.entries[place])
}

// Sets the entry of a page, if there is one.
fn set_entry(entries: &mut [u32], page: u32, entry: u32)
    ensures { entries.new ≡ slice_set entries.old page entry }
{
    let page = page as usize;
    if page < entries.len() {
        entries[page] = entry;
    }
}

// Makes a change of the entries.
fn change_entries(entries: &mut [u32], change: Change)
    ensures { entries.new ≡ changed_entries entries.old change }
{
    match change {
        Change::Map { page, frame } => set_entry(entries, page, frame.wrapping_add(1)),
        Change::Unmap { page, frame: _ } => set_entry(entries, page, 0),
    }
}

impl Absorb<Operation> for NewestTable {
    ghost use Rattle.vt_swap_steps.specs.Tables.{shown, applied};

    type State = TableState;

    ghost state = { shown };

    ghost applied = { applied };

    ghost never_fails = { Unit {0} };

    fn absorb_first(
        &mut self,
        operation: &Operation,
        _other: &NewestTable,
    ) -> Result<(), AllocError> {
        self.version = self.version.wrapping_add(1);
        self.front = again(&operation.front);
        change_entries(self.entries.as_mut_slice(), operation.change);
        Ok(())
    }
}
