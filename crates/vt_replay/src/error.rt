//! Why a journal was not replayed.

ghost use Rattle.std.specs.Prelude.{◌≡◌};
ghost use Rattle.vt_replay.specs.declared.error.ReplayError.TheVariants as replay_error;

use thiserror::Error;
use vt_outside::{NoMemory, OutsideError};

/// Why a journal was not replayed. Lines count from 1.
#[derive(Clone, Copy, Debug, PartialEq, Eq, Error)]
#[error("the journal was not replayed")]
pub enum ReplayError {
    /// The line is the first that the journal's reader refuses or that names a picture that the path has not.
    BadJournal { line: u32 },
    /// A call on the folder or on the store's file failed.
    Failed,
    /// Memory was refused.
    NoMemory,
}

impl From<NoMemory> for ReplayError {
    ghost from_gives = { λ _ e. e ≡ replay_error.NoMemory };

    fn from(_: NoMemory) -> ReplayError {
        ReplayError::NoMemory
    }
}
