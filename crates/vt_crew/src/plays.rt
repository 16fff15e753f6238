//! What each step on a board tells the end that makes it.

use crate::views::DeskView;
use crate::work::Work;
use atomic_table::{Play, Split};

/// The hand's seat is made.
pub(crate) struct Pair;

impl<J> Split<DeskView<J>> for Pair {
    ghost use Rattle.vt_crew.specs.declared.views.DeskView.TheVariants.{Fresh, Idle};

    ghost left = { λ _. Fresh };

    ghost right = { λ _. Idle };
}

/// The caller takes the slot for the first time.
pub(crate) struct Begin;

impl<J> Play<Option<J>, DeskView<J>> for Begin {
    ghost use Rattle.vt_crew.specs.DeskPlays.{TakesSlot};

    ghost then = { λ step m r n. TakesSlot n };
}

/// The caller lays a job down.
pub(crate) struct Lay;

impl<J> Play<Option<J>, DeskView<J>> for Lay {
    ghost use Rattle.vt_crew.specs.DeskPlays.{LaysJob};

    ghost then = { λ step m r n. LaysJob m n };
}

/// The hand looks whether there is a job, and begins it.
pub(crate) struct Look;

impl<J: Work> Play<Option<J>, DeskView<J>> for Look {
    ghost use Rattle.vt_crew.specs.DeskPlays.{FindsJob};

    ghost then = { λ step m r n. FindsJob J.ready m r n };
}

/// The hand lays the job back, and tells that it was done.
pub(crate) struct Tell;

impl<J> Play<Option<J>, DeskView<J>> for Tell {
    ghost use Rattle.vt_crew.specs.DeskPlays.{TellsDone};

    ghost then = { λ step m r n. TellsDone n };
}

/// The caller takes its job back, unless the hand is at it.
pub(crate) struct Take;

impl<J: Work> Play<Option<J>, DeskView<J>> for Take {
    ghost use Rattle.vt_crew.specs.DeskPlays.{TakesBack};

    ghost then = { λ step m r n. TakesBack J.ready J.did m r n };
}

/// The caller leaves.
pub(crate) struct Leave;

impl<J> Play<Option<J>, DeskView<J>> for Leave {
    ghost use Rattle.vt_crew.specs.DeskPlays.{LeavesDesk};

    ghost then = { λ step m r n. LeavesDesk n };
}
