ghost use Rattle.std.specs.Prelude.{◌≡◌};
ghost use Rattle.vt_outside.specs.declared.answers.OutsideError.TheVariants as outside_error;

use std::alloc::{AllocError, AllocFailed};

/// A call on the outside failed.
#[derive(Clone, Copy, Debug, PartialEq, Eq)]
pub struct Failed;

/// Memory was refused.
#[derive(Clone, Copy, Debug, PartialEq, Eq)]
pub struct NoMemory;

/// Why a call on the outside was refused.
#[derive(Clone, Copy, Debug)]
pub enum OutsideError {
    /// The call failed.
    Failed,
    /// Memory was refused.
    NoMemory,
}

impl From<AllocError> for NoMemory {
    fn from(_: AllocError) -> NoMemory {
        NoMemory
    }
}

impl<T: Drop> From<AllocFailed<T>> for NoMemory {
    fn from(_: AllocFailed<T>) -> NoMemory {
        NoMemory
    }
}

impl From<NoMemory> for OutsideError {
    ghost from_gives = { λ _ e. e ≡ outside_error.NoMemory };

    fn from(_: NoMemory) -> OutsideError {
        OutsideError::NoMemory
    }
}

impl From<AllocError> for OutsideError {
    ghost from_gives = { λ _ e. e ≡ outside_error.NoMemory };

    fn from(_: AllocError) -> OutsideError {
        OutsideError::NoMemory
    }
}

impl<T: Drop> From<AllocFailed<T>> for OutsideError {
    ghost from_gives = { λ _ e. e ≡ outside_error.NoMemory };

    fn from(_: AllocFailed<T>) -> OutsideError {
        OutsideError::NoMemory
    }
}

impl From<Failed> for OutsideError {
    ghost from_gives = { λ _ e. e ≡ outside_error.Failed };

    fn from(_: Failed) -> OutsideError {
        OutsideError::Failed
    }
}
