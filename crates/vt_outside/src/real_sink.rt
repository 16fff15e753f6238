ghost use Rattle.std.specs.Bool.{OnTrue};
ghost use Rattle.std.specs.Io.KnownBytes.{Appends};
ghost use Rattle.std.specs.Prelude.{◌≡◌, ◌≤◌, ℕ, None, take, is_err, IsErrOf, OnOk};
ghost use Rattle.vt_outside.specs.Outcomes.{raised_if};

use crate::fails::next;
use crate::{OutsideError, Sink};
use std::io::{ErrorKind, Write};

/// A stream of the system, as the standard output. It tells no bytes, and is never refused memory.
#[derive(Drop)]
pub struct RealSink<W> {
    writer: W,
    faults: u64,
}

impl<W> RealSink<W> {
    /// A sink with no faults so far.
    pub fn new(writer: W) -> RealSink<W>
        ensures { result.faults ≡ 0 }
    {
        RealSink { writer, faults: 0 }
    }

    /// How many puts failed.
    pub fn faults(&self) -> u64
        ensures { result ≡ self.now.faults }
    {
        self.faults
    }
}

impl<W: Write> Sink for RealSink<W> {
    ghost held = { λ _. None };

    ghost faults = { λ sink. sink.faults };

    ghost refusals = { λ _. 0 };

    /// Writes the bytes and flushes the stream. Each refusal raises the count by one.
    fn put(&mut self, bytes: &[u8]) -> Result<(), OutsideError>
        ensures faults { self.new.faults ≡ raised_if (is_err result) self.old.faults }
        ensures rises { self.old.faults ≤ self.new.faults }
        ensures written { OnOk result (Appends (W.contents self.old.writer) (W.contents self.new.writer) bytes.now) }
        ensures part { (k : ℕ) × Appends (W.contents self.old.writer) (W.contents self.new.writer) (take k bytes.now) }
        ensures memory { IsErrOf result OutsideError.NoMemory → ⊥ }
    {
        if is_written(&mut self.writer, bytes) && self.writer.flush().is_ok() {
            return Ok(());
        }
        self.faults = next(self.faults);
        Err(OutsideError::Failed)
    }
}

/// Writes until all the bytes are written; no, after a prefix of them, where a write fails or takes none.
pub fn is_written<W: Write>(writer: &mut W, bytes: &[u8]) -> bool
    ensures written { OnTrue result (Appends (W.contents writer.old) (W.contents writer.new) bytes.now) }
    ensures part { (k : ℕ) × Appends (W.contents writer.old) (W.contents writer.new) (take k bytes.now) }
{
    let mut rest = bytes;
    for _ in 0..u64::MAX {
        if rest.is_empty() {
            return true;
        }
        match writer.write(rest) {
            Ok(0) => return false,
            Ok(n) => rest = &rest[n..],
            Err(e) => {
                if e.kind() != ErrorKind::Interrupted {
                    return false;
                }
            }
        }
    }
    false
}
