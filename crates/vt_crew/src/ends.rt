//! The two ends of a desk.

ghost use Rattle.std.specs.Prelude.{◌≡◌};
ghost use Rattle.std.specs.Arc.{arc_value};
ghost use Rattle.vt_crew.specs.DeskEnds.{IsFreeEnd, IsIdleEnd, WaitsForSome};

use crate::board::{Chair, DeskTop};
use crate::work::Work;
use std::sync::Arc;

/// The caller's end of a desk on which nothing lies. It has no `Drop`, so that the hand is told when it ends.
pub struct Desk<J: Work> {
    pub(crate) top: Arc<DeskTop<J>>,
    pub(crate) chair: Chair<J>,
    pub(crate) ghost fits: { chair.table_id ≡ (arc_value top).board.shared.table_id },
    pub(crate) ghost free: { IsFreeEnd chair.me },
}

/// The caller's end of a desk on which a job was laid. It has no `Drop`, so that the job is taken back.
pub struct Pending<J: Work> {
    pub(crate) top: Arc<DeskTop<J>>,
    pub(crate) chair: Chair<J>,
    pub(crate) ghost fits: { chair.table_id ≡ (arc_value top).board.shared.table_id },
    pub(crate) ghost waits: { WaitsForSome chair.me },
}

/// The hand's end of a desk, at which it has no job.
pub struct Hand<J: Work> {
    pub(crate) top: Arc<DeskTop<J>>,
    pub(crate) chair: Chair<J>,
    pub(crate) ghost fits: { chair.table_id ≡ (arc_value top).board.shared.table_id },
    pub(crate) ghost idle: { IsIdleEnd chair.me },
}
