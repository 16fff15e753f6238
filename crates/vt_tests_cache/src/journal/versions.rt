//! The versions of a journal.

ghost use Rattle.std.specs.Prelude.{◌≡◌, [], ◌∷◌, IfOk};
ghost use Rattle.vt_journal.specs.declared.changes.Change.{Change};

use std::alloc::Global;
use vt_journal::{Change, Journal};
use vt_outside::NoMemory;

/// The journal of the one pinned page of a texture of four by four texels in tiles of two by two.
pub fn one_map(alloc: Global) -> Result<Journal, NoMemory>
    ensures { IfOk result (λ journal. journal.changes ≡ Change.Map 4 0 ∷ []) }
{
    let mut journal = Journal::new(alloc);
    journal.reserve(1)?;
    journal.push(Change::Map { page: 4, frame: 0 });
    Ok(journal)
}

// Whether the journal of one change has that change.
fn has_one_version(alloc: Global) -> bool {
    match one_map(alloc) {
        Ok(journal) => journal.version() == 1
            && journal.change(1) == Change::Map { page: 4, frame: 0 },
        Err(_) => false,
    }
}

#[test]
fn changes_make_the_versions_of_a_journal(rt: HostRuntime) {
    let empty = Journal::new(rt.alloc());
    assert!(rt; empty.version() == 0 && has_one_version(rt.alloc()));
}
