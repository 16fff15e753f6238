ghost use Rattle.std.specs.Prelude.{◌≡◌, ◌≤◌, None, is_err, IfOk};
ghost use Rattle.vt_outside.specs.Outcomes.{raised_if};

use crate::fails::next;
use crate::real_sink::is_written;
use crate::{Folder, OutsideError, RealFile};
use std::fs;
use std::fs::OpenOptions;
use std::rt::Files;

/// The files of the system, by their paths. It tells no bytes and no places.
#[derive(Drop)]
pub struct RealFolder<'a, R> {
    rt: &'a R,
    faults: u64,
}

impl<'a, R: Files> RealFolder<'a, R> {
    /// A folder with no faults so far.
    pub fn new(rt: &'a R) -> RealFolder<'a, R>
        ensures { result.faults ≡ 0 }
    {
        RealFolder { rt, faults: 0 }
    }

    /// How many calls on it failed, with those on the files that it closed.
    pub fn faults(&self) -> u64
        ensures { result ≡ self.now.faults }
    {
        self.faults
    }
}

impl<R: Files> Folder for RealFolder<'_, R>
where
    R::File: Send,
{
    type File = RealFile<R::File>;

    ghost files = { λ _. None };

    ghost asked = { λ _. None };

    ghost faults = { λ folder. folder.faults };

    /// Opens a path for reading. Each refusal raises the count by one.
    fn open(&mut self, name: &str) -> Result<RealFile<R::File>, OutsideError>
        ensures no_faults { IfOk result (λ file. file.faults ≡ 0) }
        ensures faults { self.new.faults ≡ raised_if (is_err result) self.old.faults }
        ensures rises { self.old.faults ≤ self.new.faults }
    {
        match fs::open(self.rt, name) {
            Ok(file) => Ok(RealFile::new(file)),
            Err(_) => {
                self.faults = next(self.faults);
                Err(OutsideError::Failed)
            }
        }
    }

    /// Closes a file: its faults become the folder's.
    fn close(&mut self, file: RealFile<R::File>) {
        self.faults = self.faults.saturating_add(file.faults());
    }

    /// Makes the path a file of no bytes. Each refusal raises the count by one.
    fn create(&mut self, name: &str) -> Result<(), OutsideError>
        ensures faults { self.new.faults ≡ raised_if (is_err result) self.old.faults }
        ensures rises { self.old.faults ≤ self.new.faults }
    {
        match fs::create(self.rt, name) {
            Ok(_) => Ok(()),
            Err(_) => {
                self.faults = next(self.faults);
                Err(OutsideError::Failed)
            }
        }
    }

    /// Adds the bytes at the end of the path's file. Each refusal raises the count by one.
    fn append(&mut self, name: &str, bytes: &[u8]) -> Result<(), OutsideError>
        ensures faults { self.new.faults ≡ raised_if (is_err result) self.old.faults }
        ensures rises { self.old.faults ≤ self.new.faults }
    {
        if is_appended(self.rt, name, bytes) {
            return Ok(());
        }
        self.faults = next(self.faults);
        Err(OutsideError::Failed)
    }
}

// Whether the bytes were added at the end of the path's file.
fn is_appended(rt: &impl Files, name: &str, bytes: &[u8]) -> bool {
    match OpenOptions::new().append(true).open(rt, name) {
        Ok(mut file) => is_written(&mut file, bytes),
        Err(_) => false,
    }
}
