ghost use Rattle.std.specs.Prelude.{◌≤◌};
ghost use Rattle.crossbeam_queue.specs.Passes.{ruled_capacity};
ghost use Rattle.vt_definitions.specs.Limits.{most_entries};

use crate::views::PassView;
use crossbeam_queue::protocol::{Join, Lesson, Outcome, Protocol, Split};
use crossbeam_queue::{Pass, RuledArrayQueue};

/// A bounded queue, first in, first out, which threads share by reference.
#[derive(Drop)]
pub struct Queue<I> {
    pub(crate) ring: RuledArrayQueue<I, PassView<I>, OneOrder>,
    ghost sized: { ruled_capacity ring ≤ most_entries },
}

/// What one thread knows of a queue, and its leave to put and take.
#[derive(Drop)]
pub struct QueuePass<I> {
    pub(crate) pass: Pass<I, PassView<I>>,
    // How often it, and what is split off from it, may be split: fewer times than it has shares. A whole pass may have any
    // number here, so no call can tell by it who is alone.
    pub(crate) splits: u64,
}

/// The rule of a queue: all that was put is in one order, and what was taken is its front.
pub struct OneOrder;

impl<I> Protocol<I, PassView<I>> for OneOrder {
    ghost use Rattle.vt_queue.specs.PassViews.{first_view};
    ghost use Rattle.vt_queue.specs.Rules.{IsQueueKept};

    ghost holds = { IsQueueKept };

    ghost first = { first_view };
}

/// The step of a put.
pub struct Putting;

impl<I> Outcome<I, PassView<I>> for Putting {
    ghost use Rattle.vt_queue.specs.Steps.{Puts};

    ghost then = { Puts };
}

impl<I> Lesson<I, PassView<I>> for Putting {
    ghost use Rattle.vt_queue.specs.Steps.{IsAtStep};

    ghost fact = { IsAtStep };
}

/// The step of a take.
pub struct Taking;

impl<I> Outcome<I, PassView<I>> for Taking {
    ghost use Rattle.vt_queue.specs.Steps.{Takes};

    ghost then = { Takes };
}

impl<I> Lesson<I, PassView<I>> for Taking {
    ghost use Rattle.vt_queue.specs.Steps.{IsAtStep};

    ghost fact = { IsAtStep };
}

/// The steps by which a pass becomes two, and two become one.
pub struct Sharing;

impl<I> Split<PassView<I>> for Sharing {
    ghost use Rattle.vt_queue.specs.PassViews.{kept_view, given_view};

    ghost left = { kept_view };

    ghost right = { given_view };
}

impl<I> Join<PassView<I>> for Sharing {
    ghost use Rattle.vt_queue.specs.PassViews.{joined, spent_view};

    ghost both = { joined };

    ghost spent = { spent_view };
}
