ghost use Rattle.std.specs.Prelude.{◌≡◌, ℕ, ◌+◌, ◌≤◌, List, [], length, take, Option, is_some, is_err, option_map, if◌then◌else◌, IsErr, IsErrOf, IfOk, IfSome, OnOk, OnErr, OnSome};
ghost use Rattle.vt_outside.specs.Counts.{Rose, added};
ghost use Rattle.vt_outside.specs.Files.{Files, Asked, IsPiece, AreBytesIfKnown, HasPlace, IsThere, noted, with_bytes, with_appended, with_places, bytes_at, gained};
ghost use Rattle.vt_outside.specs.declared.place.Place.{Place};

use crate::{Failed, NoMemory, OutsideError, Point};

/// A file that was opened for reading.
///
/// What it holds may be untold, as for a real file: then clauses on its bytes or its places say nothing.
/// A count of faults never falls; at the end of its type it stands still, and then counts as risen.
pub trait File {
    /// The bytes, where they are known. No call changes them.
    ghost bytes: { Self → Option (List ℕ) };

    /// The places asked so far, in order, where they are known.
    ghost asked: { Self → Option (List Place) };

    /// The name that was opened; it says something only where places are known. No call changes it.
    ghost name: { Self → List ℕ };

    /// How many more reads it can note.
    ghost spare: { Self → ℕ };

    /// How many faults it has met.
    ghost faults: { Self → ℕ };

    /// Answers the number of bytes. Once it did, what is told are bytes, each below 256.
    fn length(&mut self) -> Result<u64, Failed>
        ensures known { IfOk result (λ n. IfSome (bytes self.old) (λ b. n ≡ length b)) }
        ensures values { OnOk result (AreBytesIfKnown (bytes self.old)) }
        ensures failed { IsErr result → Rose (faults self.old) (faults self.new) }
        ensures bytes { bytes self.new ≡ bytes self.old }
        ensures asked { asked self.new ≡ asked self.old }
        ensures name { name self.new ≡ name self.old }
        ensures spare { spare self.new ≡ spare self.old }
        ensures faults { faults self.old ≤ faults self.new };

    /// Makes room to note so many more reads. After a refusal nothing changed.
    fn reserve(&mut self, reads: u64) -> Result<(), NoMemory>
        ensures room { OnOk result (reads ≤ spare self.new) }
        ensures refused { OnErr result (spare self.new ≡ spare self.old) }
        ensures bytes { bytes self.new ≡ bytes self.old }
        ensures asked { asked self.new ≡ asked self.old }
        ensures name { name self.new ≡ name self.old }
        ensures faults { faults self.new ≡ faults self.old };

    /// Fills `buf` with the bytes from `at` on. The place is noted whatever the answer, with whether it failed.
    fn read_at(&mut self, at: u64, buf: &mut [u8]) -> Result<(), Failed>
        requires { 1 ≤ spare self.old }
        ensures piece { OnOk result (IfSome (bytes self.old) (λ b. IsPiece b at buf.new)) }
        // The count rises, but at a place past the end of bytes that are known.
        ensures failed { IsErr result → HasPlace (bytes self.old) at (length buf.new) → Rose (faults self.old) (faults self.new) }
        ensures asked { asked self.new ≡ option_map (noted at (length buf.new) (is_err result)) (asked self.old) }
        ensures spare { spare self.old ≤ spare self.new + 1 }
        ensures bytes { bytes self.new ≡ bytes self.old }
        ensures name { name self.new ≡ name self.old }
        ensures faults { faults self.old ≤ faults self.new };
}

/// A folder of named files.
pub trait Folder {
    type File: File + Send;

    /// The bytes of each name, where they are known.
    ghost files: { Self → Option Files };

    /// The places asked of each name by files that were closed, in the order of closing, where they are known.
    ghost asked: { Self → Option Asked };

    /// How many faults it has met.
    ghost faults: { Self → ℕ };

    /// Opens a name for reading. After a refusal the folder is as before.
    fn open(&mut self, name: &str) -> Result<Self::File, OutsideError>
        ensures bytes { IfOk result (λ file. Self.File.bytes file ≡ bytes_at (files self.old) name.now) }
        // A file tells its bytes exactly where the folder tells its files, and its places where the folder does.
        ensures known_too { IfOk result (λ file. is_some (Self.File.bytes file) ≡ is_some (files self.old)) }
        ensures no_places { IfOk result (λ file. Self.File.asked file ≡ option_map (λ _. []) (asked self.old)) }
        ensures name { IfOk result (λ file. OnSome (asked self.old) (Self.File.name file ≡ name.now)) }
        ensures no_faults { IfOk result (λ file. Self.File.faults file ≡ 0) }
        // The count rises, but at a missing name of files that are known.
        ensures failed { IsErrOf result OutsideError.Failed → IsThere (files self.old) name.now → Rose (faults self.old) (faults self.new) }
        ensures files { files self.new ≡ files self.old }
        ensures asked { asked self.new ≡ asked self.old }
        ensures faults { faults self.old ≤ faults self.new };

    /// Closes a file of this folder: its places and its faults become the folder's. It takes no memory.
    fn close(&mut self, file: Self::File)
        ensures asked { asked self.new ≡ option_map (with_places (Self.File.name file) (Self.File.asked file)) (asked self.old) }
        ensures faults { faults self.new ≡ added (faults self.old) (Self.File.faults file) }
        ensures kept { faults self.old ≤ faults self.new }
        ensures files { files self.new ≡ files self.old };

    /// Makes the name hold no bytes, whether it was there or not. After a refusal the files are as before.
    fn create(&mut self, name: &str) -> Result<(), OutsideError>
        ensures files { files self.new ≡ (if is_err result then files self.old else option_map (with_bytes name.now []) (files self.old)) }
        ensures failed { IsErrOf result OutsideError.Failed → Rose (faults self.old) (faults self.new) }
        ensures asked { asked self.new ≡ asked self.old }
        ensures faults { faults self.old ≤ faults self.new };

    /// Appends the bytes to what the name holds. A refused call may have appended a prefix of them.
    fn append(&mut self, name: &str, bytes: &[u8]) -> Result<(), OutsideError>
        ensures files { OnOk result (files self.new ≡ option_map (with_appended name.now bytes.now) (files self.old)) }
        ensures there { OnOk result (IsThere (files self.old) name.now) }
        ensures part { OnErr result ((k : ℕ) × (files self.new ≡ option_map (with_appended name.now (take k bytes.now)) (files self.old))) }
        ensures failed { IsErrOf result OutsideError.Failed → IsThere (files self.old) name.now → Rose (faults self.old) (faults self.new) }
        ensures asked { asked self.new ≡ asked self.old }
        ensures faults { faults self.old ≤ faults self.new };
}

/// Where bytes are put, as the standard output.
pub trait Sink {
    /// The bytes put so far, where they are known.
    ghost held: { Self → Option (List ℕ) };

    /// How many faults it has met.
    ghost faults: { Self → ℕ };

    /// How many puts it has refused for memory.
    ghost refusals: { Self → ℕ };

    /// Appends the bytes. A refused call may have appended a prefix of them.
    fn put(&mut self, bytes: &[u8]) -> Result<(), OutsideError>
        ensures held { OnOk result (held self.new ≡ option_map (gained bytes.now) (held self.old)) }
        ensures part { OnErr result ((k : ℕ) × (held self.new ≡ option_map (gained (take k bytes.now)) (held self.old))) }
        ensures failed { IsErrOf result OutsideError.Failed → Rose (faults self.old) (faults self.new) }
        ensures no_memory { IsErrOf result OutsideError.NoMemory → Rose (refusals self.old) (refusals self.new) }
        ensures faults { faults self.old ≤ faults self.new }
        ensures refusals { refusals self.old ≤ refusals self.new };
}

/// A place where a test may make a pass wait. It changes nothing and answers nothing.
pub trait Gate {
    fn at(&self, point: Point);
}
