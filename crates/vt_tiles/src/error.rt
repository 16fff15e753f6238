ghost use Rattle.std.specs.Prelude.{◌≡◌};
ghost use Rattle.vt_tiles.specs.declared.error.StoreError.TheVariants as store_error;
ghost use Rattle.vt_tiles.specs.Refusals.{refusal_by};

use thiserror::Error;
use vt_outside::{Failed, NoMemory, OutsideError};

/// Why a store was not opened or not written.
#[derive(Clone, Copy, Debug, PartialEq, Eq, Error)]
#[error("the store was not opened or not written")]
pub enum StoreError {
    /// The first four bytes are neither `VTS1` nor `VTS2`.
    BadMagic,
    /// The header's three numbers make no geometry of pages.
    BadGeometry,
    /// The file has `have` bytes, and its header or its store has `want`.
    WrongLength { want: u64, have: u64 },
    /// A call on the outside failed.
    Failed,
    /// Memory was refused.
    NoMemory,
}

impl From<Failed> for StoreError {
    ghost from_gives = { λ _ e. e ≡ store_error.Failed };

    fn from(_: Failed) -> StoreError {
        StoreError::Failed
    }
}

impl From<NoMemory> for StoreError {
    ghost from_gives = { λ _ e. e ≡ store_error.NoMemory };

    fn from(_: NoMemory) -> StoreError {
        StoreError::NoMemory
    }
}

impl From<OutsideError> for StoreError {
    ghost from_gives = { λ e r. r ≡ refusal_by e };

    fn from(refusal: OutsideError) -> StoreError {
        match refusal {
            OutsideError::Failed => StoreError::Failed,
            OutsideError::NoMemory => StoreError::NoMemory,
        }
    }
}
