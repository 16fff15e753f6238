//! The rule by which the page table is published and entered.

use crate::table::NewestTable;
use atomic_table::{Join, Split};
use crossbeam_utils::rule::{Outcome, Protocol};
use std::collections::LinkedList;
use vt_swap_log::Front;

/// What a reader or the writer knows: something that was seen of the log, from which it knows which log it is, and the versions
/// that it entered, the newest first. No value of it is made.
pub struct Known {
    pub front: Option<Front>,
    pub entered: LinkedList<u64>,
}

/// The rule: the table is that of the changes in the log, which is the one log that anybody knows, and nobody entered a later
/// version.
pub struct OneJournal;

impl Protocol<NewestTable, Known> for OneJournal {
    ghost use Rattle.vt_swap_steps.specs.Rules.{IsNewestKept, nothing_known};

    ghost holds = { IsNewestKept };

    ghost first = { nothing_known };
}

/// A reader enters: it sees a version of the one journal, not older than any that it entered before.
pub(crate) struct Enters;

impl Outcome<NewestTable, Known> for Enters {
    ghost use Rattle.vt_swap_steps.specs.Rules.{HasEnteredVersion};

    ghost then = { HasEnteredVersion };
}

/// The writer publishes what it has, and knows which log it is.
pub struct Publishes;

impl Outcome<NewestTable, Known> for Publishes {
    ghost use Rattle.vt_swap_steps.specs.Rules.{KnowsItsLog};

    ghost then = { KnowsItsLog };
}

/// The writer tells a reader which log it is.
pub struct Tells;

impl Split<Known> for Tells {
    ghost left = { λ v. v };

    ghost right = { λ v. v };
}

impl Join<Known> for Tells {
    ghost use Rattle.vt_swap_steps.specs.Rules.{nothing_known};

    ghost both = { λ v w. record { front = w.front; entered = v.entered } };

    ghost spent = { nothing_known };
}
