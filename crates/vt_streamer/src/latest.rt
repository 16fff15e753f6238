//! The last three changes of a page table, which are all that its next version is made from.

ghost use Rattle.std.specs.Prelude.{◌≡◌, ◌-◌, ◌≤◌, [], ◌∷◌, ◌++◌, List, Some, length, slice_get};
ghost use Rattle.vt_table.specs.JournalTypes.changes.Change.{Change};
ghost use Rattle.vt_streamer.specs.Latests.{AreLatest};

use vt_table::Change;

/// The changes that made the newest version, the one before it and the one before that, as far as there were so many.
#[derive(Clone, Copy)]
pub struct Latest {
    pub last: Change,
    pub second: Change,
    pub third: Change,
}

/// Where no change was made yet; what it has is no change of the table.
pub(crate) fn none_yet() -> Latest
    ensures { AreLatest [] result }
{
    let none = Change::Unmap { page: 0, frame: 0 };
    Latest {
        last: none,
        second: none,
        third: none,
    }
}

/// After one change more.
pub(crate) fn one_more(latest: Latest, change: Change) -> Latest
    ensures { (changes : List Change) → AreLatest changes latest → AreLatest (changes ++ change ∷ []) result }
{
    Latest {
        last: change,
        second: latest.last,
        third: latest.second,
    }
}

/// The change that made the version so far before the next one.
pub(crate) fn change_back(latest: &Latest, back: u64) -> Change
    requires some { 1 ≤ back }
    requires few { back ≤ 3 }
    ensures { (changes : List Change) → AreLatest changes latest.now → back ≤ length changes
        → slice_get changes (length changes - back) ≡ Some result }
{
    if back == 1 {
        return latest.last;
    }
    if back == 2 {
        return latest.second;
    }
    latest.third
}
