ghost use Rattle.std.specs.Prelude.{◌≡◌};
ghost use Rattle.vt_walk_decisions.specs.declared.error.WalkError.TheVariants as walk_error;
ghost use Rattle.vt_walk_decisions.specs.Refusals.{walk_refusal_by};

use thiserror::Error;
use vt_outside::{NoMemory, OutsideError};

/// Why a walk was refused.
#[derive(Clone, Copy, Debug, PartialEq, Eq, Error)]
#[error("the walk was refused")]
pub enum WalkError {
    /// There are `frames` frames, and `needed` pages are pinned.
    TooFewFrames {
        frames: u32,
        needed: u32,
    },
    /// In a settled walk the picture needs `wanted` unpinned pages at once, and there is room for `room`.
    DoesNotFit {
        picture: u32,
        wanted: u32,
        room: u32,
    },
    /// A call on the folder, its files or the output failed, or a tile of a settled walk was lost.
    Failed,
    /// Memory was refused.
    NoMemory,
}

impl From<NoMemory> for WalkError {
    ghost from_gives = { λ _ e. e ≡ walk_error.NoMemory };

    fn from(_: NoMemory) -> WalkError {
        WalkError::NoMemory
    }
}

impl From<OutsideError> for WalkError {
    ghost from_gives = { λ e r. r ≡ walk_refusal_by e };

    fn from(refusal: OutsideError) -> WalkError {
        match refusal {
            OutsideError::Failed => WalkError::Failed,
            OutsideError::NoMemory => WalkError::NoMemory,
        }
    }
}
