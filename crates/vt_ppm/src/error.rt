ghost use Rattle.std.specs.Prelude.{◌≡◌};
ghost use Rattle.vt_ppm.specs.declared.error.PpmError.TheVariants as ppm_error;

use thiserror::Error;
use vt_outside::{Failed, NoMemory};

/// Why an image was not read.
#[derive(Clone, Copy, Debug, PartialEq, Eq, Error)]
#[error("the image was not read")]
pub enum PpmError {
    /// The first two bytes are not `P6`.
    BadMagic,
    /// Some header begins as the first `at` bytes do, and none as those and the byte behind them do. Where no byte is
    /// wrong so, `at` is how many bytes there are, or how many a header may have.
    BadHeader { at: u64 },
    /// A side is 0, or above the limit: 8,192 for an image that is read whole, and 16,384 for a texture that is read by rows
    /// and for a header alone.
    BadSize,
    /// The maximum is 0 or above 65,535.
    BadMaximum,
    /// `have` bytes follow the header, and the raster has `want`.
    Truncated { want: u64, have: u64 },
    /// A sample is above the maximum; the first such one begins at byte `at` of the file.
    SampleOver { at: u64 },
    /// A call on the file failed.
    Failed,
    /// Memory was refused.
    NoMemory,
}

impl From<Failed> for PpmError {
    ghost from_gives = { λ _ e. e ≡ ppm_error.Failed };

    fn from(_: Failed) -> PpmError {
        PpmError::Failed
    }
}

impl From<NoMemory> for PpmError {
    ghost from_gives = { λ _ e. e ≡ ppm_error.NoMemory };

    fn from(_: NoMemory) -> PpmError {
        PpmError::NoMemory
    }
}
