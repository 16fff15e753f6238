//! A folder as a walk writes to it.

ghost use Rattle.std.specs.Prelude.{◌≡◌, ℕ, ◌≤◌, Option, [], take, is_err, option_map, if◌then◌else◌, IsErrOf, OnOk, OnErr};
ghost use Rattle.vt_outside.specs.Counts.{Rose};
ghost use Rattle.vt_outside.specs.Files.{Files, Asked, IsThere, with_bytes, with_appended};

use vt_outside::{Folder, OutsideError};

/// A folder as a walk writes to it while its crew is there. It is each folder, and says nothing of the files that a folder opens: that these may be
/// sent to a thread is an assumption of each function over folders, and the method of an errand may rest on none.
pub trait OutputFolder {
    /// The bytes of each name, where they are known.
    ghost files: { Self → Option Files };

    /// The places asked of each name by files that were closed, in the order of closing, where they are known.
    ghost asked: { Self → Option Asked };

    /// How many faults it has met.
    ghost faults: { Self → ℕ };

    /// Makes the name hold no bytes, as `create` of a folder.
    fn begin_file(&mut self, name: &str) -> Result<(), OutsideError>
        ensures files { files self.new ≡ (if is_err result then files self.old else option_map (with_bytes name.now []) (files self.old)) }
        ensures failed { IsErrOf result OutsideError.Failed → Rose (faults self.old) (faults self.new) }
        ensures asked { asked self.new ≡ asked self.old }
        ensures faults { faults self.old ≤ faults self.new };

    /// Appends the bytes to what the name holds, as `append` of a folder.
    fn extend_file(&mut self, name: &str, bytes: &[u8]) -> Result<(), OutsideError>
        ensures files { OnOk result (files self.new ≡ option_map (with_appended name.now bytes.now) (files self.old)) }
        ensures there { OnOk result (IsThere (files self.old) name.now) }
        ensures part { OnErr result ((k : ℕ) × (files self.new ≡ option_map (with_appended name.now (take k bytes.now)) (files self.old))) }
        ensures failed { IsErrOf result OutsideError.Failed → IsThere (files self.old) name.now → Rose (faults self.old) (faults self.new) }
        ensures asked { asked self.new ≡ asked self.old }
        ensures faults { faults self.old ≤ faults self.new };
}

impl<D: Folder> OutputFolder for D {
    ghost files = { D.Folder.files };

    ghost asked = { D.Folder.asked };

    ghost faults = { D.Folder.faults };

    fn begin_file(&mut self, name: &str) -> Result<(), OutsideError> {
        self.create(name)
    }

    fn extend_file(&mut self, name: &str, bytes: &[u8]) -> Result<(), OutsideError> {
        self.append(name, bytes)
    }
}
