//! What a walk decides: whether it may begin, and whether it goes on after a pass.

ghost use Rattle.std.specs.Prelude.{◌≡◌, ◌+◌, ◌-◌, ◌<◌, ◌≤◌, length, MatchBool};
ghost use Rattle.vt_walk_decisions.specs.Judging.{Judges, IsEnd, IsFollowed};

use crate::error::WalkError;
use crate::input::WalkInput;
use crate::mode::Mode;
use crate::steps::Passed;
use vt_machine::{Batch, Path};

/// Whether a walk has fewer frames than pinned pages.
pub fn has_too_few_frames(input: &WalkInput<'_>) -> bool
    ensures { MatchBool result (input.now.settings.frames < input.now.pinned) (input.now.pinned ≤ input.now.settings.frames) }
{
    input.settings.frames < input.pinned
}

/// The page that is pinned in a frame: of so many pages the last ones are pinned, in order from frame 0 (Mayer 2010).
pub fn pinned_page(pages: u32, pinned: u32, frame: u32) -> u32
    requires pinned { pinned ≤ pages }
    requires frame { frame < pinned }
    ensures { result ≡ pages - pinned + frame }
{
    pages - pinned + frame
}

/// Whether a walk may go on after a pass: in a settled walk no tile was lost in it, and its picture fits.
pub fn judge(input: &WalkInput<'_>, passed: &Passed) -> Result<(), WalkError>
    requires enough_frames { input.now.pinned ≤ input.now.settings.frames }
    ensures { Judges input.now passed.now result }
{
    if input.mode == Mode::Live {
        return Ok(());
    }
    if passed.lost > 0 {
        return Err(WalkError::Failed);
    }
    let room = input.settings.frames - input.pinned;
    if passed.next_plan.needed > room {
        return Err(WalkError::DoesNotFit {
            picture: passed.picture,
            wanted: passed.next_plan.needed,
            room,
        });
    }
    Ok(())
}

/// Whether a pass has finished its picture: in a settled walk one that loads nothing, and after which nothing is planned.
pub fn is_finished(mode: Mode, loads_nothing: bool, plan: &Batch) -> bool
    ensures { MatchBool result (IsEnd mode loads_nothing plan.now.elements) (IsEnd mode loads_nothing plan.now.elements → ⊥) }
{
    mode == Mode::Live || (loads_nothing && plan.len() == 0)
}

// The least number of pixels of a picture that is written while the next one is drawn. To draw so many takes some 20 microseconds, and as long takes
// their file; a job for a hand costs 10, so smaller pictures do not win it back. What a walk writes does not depend on it.
const LEAST_BESIDE: u32 = 4_096;

/// Whether a picture is written while the next one's first pass is drawn: the pass has finished it, there is a next one, and it is large
/// enough to be worth a hand.
pub fn is_written_beside(input: &WalkInput<'_>, passed: &Passed) -> bool
    ensures { MatchBool result (IsFollowed input.now passed.now) (Unit {0}) }
{
    let pixels = input.path.width().saturating_mul(input.path.height());
    pixels >= LEAST_BESIDE
        && has_next(input.path, passed.picture)
        && is_finished(input.mode, passed.loads_nothing, &passed.next_plan.plan)
}

// Whether a path has a picture after this one.
fn has_next(path: &Path, picture: u32) -> bool
    ensures { MatchBool result (picture + 1 < length path.now.cameras) (length path.now.cameras ≤ picture + 1) }
{
    let pictures = path.pictures();
    picture < pictures && 1 < pictures - picture
}
