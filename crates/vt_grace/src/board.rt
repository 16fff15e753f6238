//! The table of words with its rule.

use crate::sizes::Sizes;
use crate::views::View;
use atomic_table::{Seat, Table, TableRule};
use std::alloc::Global;

/// The hold rule, which each step on the words keeps: what holds of the words and of all that the writer and the passes know.
pub struct HoldRule;

impl TableRule<(), View, Sizes> for HoldRule {
    ghost use Rattle.vt_grace.specs.Rules.{Ruled};
    ghost use Rattle.vt_grace.specs.Giving.{writers_first_view};

    ghost holds = { Ruled };

    ghost first = { writers_first_view };
}

// The words with their rule.
pub(crate) type Board = Table<(), View, Sizes, HoldRule, Global>;

// A seat at the words, from which a thread steps on them.
pub(crate) type Chair = Seat<(), View>;
