ghost use Rattle.std.specs.Prelude.{◌≡◌, ◌+◌, ◌<◌, ◌≤◌, ◌||◌, [], Some, All, length, nat_le, is_err, string_bytes, IfOk, OnOk, OnErr};
ghost use Rattle.std.specs.Bool.{OnTrue, OnFalse};
ghost use Rattle.vt_outside.specs.Counts.{added};
ghost use Rattle.vt_outside.specs.Files.{IsPiece, noted};

use crate::closed_files::ClosedFiles;
use crate::fails::{meets_fault, next};
use crate::{Fail, Failed, File, NoMemory, Place};
use std::alloc::Global;

/// A file of a folder in memory: a copy of the bytes at its opening.
#[derive(Drop)]
pub struct MemoryFile {
    name: String,
    bytes: Vec<u8>,
    places: Vec<Place>,
    fails: Vec<Fail>,
    opening: u64,
    reads: u64,
    faults: u64,
    // What the folder keeps the name and the places in, once the file is closed.
    cell: Box<ClosedFiles>,
}

/// What is left of a file that was closed.
#[derive(Drop)]
pub(crate) struct Remains {
    pub name: String,
    pub places: Vec<Place>,
    pub faults: u64,
    pub cell: Box<ClosedFiles>,
}

impl Remains {
    // What is left of a file of that name that was not read.
    fn new(alloc: Global, name: &str) -> Result<Remains, NoMemory>
        ensures { IfOk result (λ remains. (string_bytes remains.name ≡ name.now) × (remains.places.items ≡ []) × (remains.faults ≡ 0)) }
    {
        Ok(Remains {
            name: String::from_str(alloc, name)?,
            places: Vec::new(alloc),
            faults: 0,
            cell: Box::new(alloc, ClosedFiles::Nothing)?,
        })
    }
}

impl MemoryFile {
    ghost use Rattle.vt_outside.specs.MemoryFile.{IsFileUnread, file_name, file_places, file_faults};

    /// A file of these bytes that was not read yet.
    pub(crate) fn new(
        alloc: Global,
        name: &str,
        bytes: &[u8],
        fails: &[Fail],
        opening: u64,
    ) -> Result<MemoryFile, NoMemory>
        ensures { IfOk result (λ file. IsFileUnread file name.now bytes.now fails.now opening) }
    {
        let bytes = Vec::from_slice(alloc, bytes)?;
        let fails = Vec::from_slice(alloc, fails)?;
        let Remains {
            name,
            places,
            faults,
            cell,
        } = Remains::new(alloc, name)?;
        Ok(MemoryFile {
            name,
            bytes,
            places,
            fails,
            opening,
            reads: 0,
            faults,
            cell,
        })
    }

    /// What the folder keeps of the file.
    pub(crate) fn remains(self) -> Remains
        ensures name { string_bytes result.name ≡ file_name self }
        ensures places { result.places.items ≡ file_places self }
        ensures faults { result.faults ≡ file_faults self }
    {
        Remains {
            name: self.name,
            places: self.places,
            faults: self.faults,
            cell: self.cell,
        }
    }
}

impl File for MemoryFile {
    ghost use Rattle.vt_outside.specs.Outcomes.{raised_if};
    ghost use Rattle.vt_outside.specs.MemoryFile.{file_name, file_bytes, file_places, file_spare, file_fails, file_opening, file_reads, file_faults, passes_end, is_length_listed, is_read_listed};

    ghost bytes = { λ file. Some (file_bytes file) };

    ghost asked = { λ file. Some (file_places file) };

    ghost name = { file_name };

    ghost spare = { file_spare };

    ghost faults = { file_faults };

    /// Answers the number of bytes. It fails exactly where `Length` of this opening is in the list.
    fn length(&mut self) -> Result<u64, Failed>
        ensures known { IfOk result (λ n. n ≡ length (file_bytes self.old)) }
        ensures values { OnOk result (All (λ byte. byte < 256) (file_bytes self.old)) }
        ensures failed { is_err result ≡ is_length_listed self.old }
        ensures faults { file_faults self.new ≡ raised_if (is_err result) (file_faults self.old) }
        ensures rises { file_faults self.old ≤ file_faults self.new }
        ensures bytes { file_bytes self.new ≡ file_bytes self.old }
        ensures asked { file_places self.new ≡ file_places self.old }
        ensures name { file_name self.new ≡ file_name self.old }
        ensures spare { file_spare self.new ≡ file_spare self.old }
        ensures fails { file_fails self.new ≡ file_fails self.old }
        ensures opening { file_opening self.new ≡ file_opening self.old }
        ensures reads { file_reads self.new ≡ file_reads self.old }
    {
        if meets_fault(
            &self.fails,
            Fail::Length {
                opening: self.opening,
            },
            &mut self.faults,
        ) {
            return Err(Failed);
        }
        Ok(length_of(&self.bytes))
    }

    /// Makes room to note so many more reads. After a refusal nothing changed.
    fn reserve(&mut self, reads: u64) -> Result<(), NoMemory>
        ensures room { OnOk result (reads ≤ file_spare self.new) }
        ensures refused { OnErr result (file_spare self.new ≡ file_spare self.old) }
        ensures bytes { file_bytes self.new ≡ file_bytes self.old }
        ensures asked { file_places self.new ≡ file_places self.old }
        ensures name { file_name self.new ≡ file_name self.old }
        ensures faults { file_faults self.new ≡ file_faults self.old }
        ensures fails { file_fails self.new ≡ file_fails self.old }
        ensures opening { file_opening self.new ≡ file_opening self.old }
        ensures reads { file_reads self.new ≡ file_reads self.old }
    {
        self.places.reserve(reads as usize)?;
        Ok(())
    }

    /// Fills `buf` with the bytes from `at` on, and notes the place. It fails exactly where the place passes the end,
    /// or where `Read` of this opening and of the number of reads so far is in the list; only then the count rises.
    fn read_at(&mut self, at: u64, buf: &mut [u8]) -> Result<(), Failed>
        requires { 1 ≤ file_spare self.old }
        ensures piece { OnOk result (IsPiece (file_bytes self.old) at buf.new) }
        ensures failed { is_err result ≡ (is_read_listed self.old || passes_end self.old at (length buf.new)) }
        ensures faults { file_faults self.new ≡ raised_if (is_read_listed self.old) (file_faults self.old) }
        ensures rises { file_faults self.old ≤ file_faults self.new }
        ensures asked { file_places self.new ≡ noted at (length buf.new) (is_err result) (file_places self.old) }
        ensures reads { file_reads self.new ≡ added (file_reads self.old) 1 }
        ensures spare { file_spare self.old ≤ file_spare self.new + 1 }
        ensures bytes { file_bytes self.new ≡ file_bytes self.old }
        ensures name { file_name self.new ≡ file_name self.old }
        ensures fails { file_fails self.new ≡ file_fails self.old }
        ensures opening { file_opening self.new ≡ file_opening self.old }
    {
        let call = Fail::Read {
            opening: self.opening,
            read: self.reads,
        };
        self.reads = next(self.reads);
        let met = meets_fault(&self.fails, call, &mut self.faults);
        let copied = copy_at(&self.bytes, at, buf);
        let failed = met || !copied;
        self.places.push_reserved(Place {
            at,
            len: buf.len() as u64,
            failed,
        });
        if failed { Err(Failed) } else { Ok(()) }
    }
}

// The number of the bytes, each of which is below 256.
fn length_of(bytes: &[u8]) -> u64
    ensures length { result ≡ length bytes.now }
    ensures values { All (λ byte. byte < 256) bytes.now }
{
    bytes.len() as u64
}

// Fills the buffer with the bytes from a place on; no, and nothing changes, where that passes their end.
fn copy_at(bytes: &[u8], at: u64, buf: &mut [u8]) -> bool
    ensures within { result ≡ nat_le (at + length buf.old) (length bytes.now) }
    ensures piece { OnTrue result (IsPiece bytes.now at buf.new) }
    ensures unchanged { OnFalse result (buf.new ≡ buf.old) }
{
    let len = buf.len();
    if at as usize > bytes.len() || len > bytes.len() - at as usize {
        return false;
    }
    let start = at as usize;
    buf.copy_from_slice(&bytes[start..start + len]);
    true
}
