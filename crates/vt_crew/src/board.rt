//! The board of a desk with its rule, and what the two ends of a desk have in common.

ghost use Rattle.std.specs.Prelude.{◌≡◌};

use crate::views::DeskView;
use crate::work::Work;
use atomic_table::{Seat, Table, TableRule};
use std::alloc::Global;
use std::marker::PhantomData;
use std::sync::atomic::AtomicBool;
use std::thread::Parker;

/// The rule of a desk, which each step on its board keeps: a job that lies there for the hand may be done, and one that lies there for the caller
/// was done.
pub struct TurnRule<J> {
    job: PhantomData<J>,
}

impl<J: Work> TableRule<Option<J>, DeskView<J>, ()> for TurnRule<J> {
    ghost use Rattle.vt_crew.specs.declared.views.DeskView.TheVariants.{Alone};
    ghost use Rattle.vt_crew.specs.TurnRules.{IsDeskKept};

    ghost holds = { λ _. IsDeskKept J.ready J.did };

    ghost first = { λ _. Alone };
}

// The word, the slot and the rule.
pub(crate) type Board<J> = Table<Option<J>, DeskView<J>, (), TurnRule<J>, Global>;

// A seat at a board, from which an end steps on it.
pub(crate) type Chair<J> = Seat<Option<J>, DeskView<J>>;

// The word of a new board.
pub(crate) const NOBODY: u64 = 0;

// The word while a job lies there for the hand.
pub(crate) const HAND: u64 = 1;

// The word once the job was done.
pub(crate) const DONE: u64 = 2;

// The word once the caller has left.
pub(crate) const OVER: u64 = 3;

// The word once the hand has begun a job.
pub(crate) const BEGUN: u64 = 4;

/// The board of a desk, and by what each of its ends wakes the other. It has no `Drop`, since a job may lie there.
pub struct DeskTop<J: Work> {
    pub(crate) board: Board<J>,
    // On which the hand sleeps while it has no job.
    pub(crate) hand_bell: Parker,
    // On which the caller sleeps while it waits for a job.
    pub(crate) desk_bell: Parker,
    // Whether the hand has begun to serve. No contract speaks of it.
    pub(crate) is_served: AtomicBool,
    pub(crate) ghost sized: { (board.shared.table_id.words ≡ 1) × (board.shared.table_id.slots ≡ 1) },
}
