ghost use Rattle.std.specs.Bool.{OnTrue};
ghost use Rattle.std.specs.Io.KnownBytes.{Consumes};
ghost use Rattle.std.specs.Prelude.{◌≡◌, ◌≤◌, ◌-◌, ◌^◌, [], None, is_err, IsOk};
ghost use Rattle.vt_outside.specs.Outcomes.{raised_if};

use crate::fails::next;
use crate::{Failed, File, NoMemory};
use std::fs::OpenFile;
use std::io::{ErrorKind, Read, Seek, SeekFrom};

/// A file of the system, opened for reading. It tells no bytes and no places, and can note any number of reads.
#[derive(Drop)]
pub struct RealFile<F> {
    file: F,
    faults: u64,
}

impl<F> RealFile<F> {
    /// A file with no faults so far.
    pub fn new(file: F) -> RealFile<F>
        ensures { result.faults ≡ 0 }
    {
        RealFile { file, faults: 0 }
    }

    /// How many calls on it failed.
    pub fn faults(&self) -> u64
        ensures { result ≡ self.now.faults }
    {
        self.faults
    }
}

impl<F: Read + Seek + OpenFile + Drop> File for RealFile<F> {
    ghost bytes = { λ _. None };

    ghost asked = { λ _. None };

    ghost name = { λ _. [] };

    ghost spare = { λ _. 2 ^ 64 - 1 };

    ghost faults = { λ file. file.faults };

    /// Answers the number of bytes. Each refusal raises the count by one.
    fn length(&mut self) -> Result<u64, Failed>
        ensures faults { self.new.faults ≡ raised_if (is_err result) self.old.faults }
        ensures rises { self.old.faults ≤ self.new.faults }
    {
        match self.file.metadata() {
            Ok(metadata) => Ok(metadata.len()),
            Err(_) => {
                self.faults = next(self.faults);
                Err(Failed)
            }
        }
    }

    /// There is always room.
    fn reserve(&mut self, _reads: u64) -> Result<(), NoMemory>
        ensures done { IsOk result }
        ensures room { _reads ≤ 2 ^ 64 - 1 }
        ensures faults { self.new.faults ≡ self.old.faults }
    {
        Ok(())
    }

    /// Fills `buf` with the bytes from `at` on. Each refusal raises the count by one; the end of the file is one.
    fn read_at(&mut self, at: u64, buf: &mut [u8]) -> Result<(), Failed>
        ensures faults { self.new.faults ≡ raised_if (is_err result) self.old.faults }
        ensures rises { self.old.faults ≤ self.new.faults }
    {
        let sought = self.file.seek(SeekFrom::Start(at)).is_ok();
        if sought && is_filled(&mut self.file, buf) {
            return Ok(());
        }
        self.faults = next(self.faults);
        Err(Failed)
    }
}

// Reads until the buffer is full; no at the end of what there is, and at a read that fails.
fn is_filled<R: Read>(reader: &mut R, buf: &mut [u8]) -> bool
    ensures { OnTrue result (Consumes (R.remaining reader.old) (R.remaining reader.new) buf.new) }
{
    let mut done = 0;
    for _ in 0..u64::MAX {
        if done == buf.len() {
            return true;
        }
        match reader.read(&mut buf[done..]) {
            Ok(0) => return false,
            Ok(n) => done += n,
            Err(e) => {
                if e.kind() != ErrorKind::Interrupted {
                    return false;
                }
            }
        }
    }
    false
}
