ghost use Rattle.std.specs.Prelude.{◌≡◌, ◌≤◌, ℕ, List, ◌/◌, ◌||◌, [], Some, false, length, take, IsTrue, is_some, is_ok, if◌then◌else◌, slice_get, is_none, IfOk, IsErrOf, OnOk, OnErr};
ghost use Rattle.std.specs.Option.{option_copied, option_map};
ghost use Rattle.vt_outside.specs.Counts.{added};
ghost use Rattle.vt_outside.specs.FileMaps.{held_in_map};
ghost use Rattle.vt_outside.specs.Files.{with_appended, with_bytes, with_places};
ghost use Rattle.vt_outside.specs.Outcomes.{is_failed};

use crate::closed_files::{ClosedFiles, keep_places, place_in};
use crate::fails::{meets_fault, next, part_of};
use crate::memory_file::Remains;
use crate::{Fail, Fails, Folder, MemoryFile, NoMemory, OutsideError, Place};
use std::alloc::{AllocError, Global};
use std::collections::BTreeMap;

type Entries = BTreeMap<String, Vec<u8>>;

/// A folder in memory.
#[derive(Drop)]
pub struct MemoryFolder {
    alloc: Global,
    entries: Entries,
    closed: ClosedFiles,
    fails: Fails,
    opens: u64,
    openings: u64,
    creates: u64,
    appends: u64,
    faults: u64,
}

impl MemoryFolder {
    ghost use Rattle.vt_outside.specs.MemoryFolder.{IsOpenedMemory, no_files, no_places, memory_files, asked_of, fails_of, opens_of, openings_of, creates_of, appends_of, faults_of, is_missing};

    /// A folder of no names, with the calls that are to fail. It takes no memory.
    pub fn new(alloc: Global, fails: Fails) -> MemoryFolder
        ensures files { memory_files result ≡ no_files }
        ensures asked { asked_of result ≡ no_places }
        ensures fails { fails_of result ≡ fails.elements }
        ensures opens { opens_of result ≡ 0 }
        ensures openings { openings_of result ≡ 0 }
        ensures creates { creates_of result ≡ 0 }
        ensures appends { appends_of result ≡ 0 }
        ensures faults { faults_of result ≡ 0 }
    {
        MemoryFolder {
            alloc,
            entries: BTreeMap::new(alloc),
            closed: ClosedFiles::Nothing,
            fails,
            opens: 0,
            openings: 0,
            creates: 0,
            appends: 0,
            faults: 0,
        }
    }

    /// Makes the name hold these bytes, whether it was there or not. It counts as no call, and after a refusal nothing changed.
    pub fn add(&mut self, name: &str, bytes: &[u8]) -> Result<(), NoMemory>
        ensures files { memory_files self.new ≡ (if is_ok result then with_bytes name.now bytes.now (memory_files self.old) else memory_files self.old) }
        ensures asked { asked_of self.new ≡ asked_of self.old }
        ensures fails { fails_of self.new ≡ fails_of self.old }
        ensures opens { opens_of self.new ≡ opens_of self.old }
        ensures openings { openings_of self.new ≡ openings_of self.old }
        ensures creates { creates_of self.new ≡ creates_of self.old }
        ensures appends { appends_of self.new ≡ appends_of self.old }
        ensures faults { faults_of self.new ≡ faults_of self.old }
    {
        put_copy(&mut self.entries, self.alloc, name, bytes)
    }

    /// The bytes of a name; `None` exactly where the name is missing.
    pub fn bytes_of(&self, name: &str) -> Option<&[u8]>
        ensures { option_copied result ≡ memory_files self.now name.now }
    {
        match self.entries.get(name) {
            Some(bytes) => Some(bytes.as_slice()),
            None => None,
        }
    }

    /// The place of that number among those that closed files of the name were asked for, in the order of closing;
    /// `None` exactly past the end of them.
    pub fn asked(&self, name: &str, i: usize) -> Option<Place>
        ensures { result ≡ slice_get (asked_of self.now name.now) i }
    {
        match place_in(&self.closed, name, i) {
            Ok(place) => Some(place),
            Err(_) => None,
        }
    }

    // A file of the name's bytes; refused where the call met a fault, or the name is missing.
    fn opened(&self, name: &str, met: bool) -> Result<MemoryFile, OutsideError>
        ensures file { IfOk result (λ file. IsOpenedMemory self.now name.now file) }
        ensures failed { is_failed result ≡ (met || is_missing self.now name.now) }
    {
        if met {
            return Err(OutsideError::Failed);
        }
        let Some(bytes) = self.entries.get(name) else {
            return Err(OutsideError::Failed);
        };
        let file = MemoryFile::new(self.alloc, name, bytes, self.fails.slice(), self.openings)?;
        Ok(file)
    }
}

// Makes the name hold these bytes.
fn put_bytes(
    entries: &mut Entries,
    alloc: Global,
    name: &str,
    held: Vec<u8>,
) -> Result<(), NoMemory>
    ensures { (q : List ℕ) → held_in_map entries.new q
        ≡ (if is_ok result then with_bytes name.now held.items (held_in_map entries.old) q else held_in_map entries.old q) }
{
    let key = String::from_str(alloc, name)?;
    entries.insert(key, held)?;
    Ok(())
}

// Makes the name hold a copy of these bytes.
fn put_copy(entries: &mut Entries, alloc: Global, name: &str, bytes: &[u8]) -> Result<(), NoMemory>
    ensures { held_in_map entries.new ≡ (if is_ok result then with_bytes name.now bytes.now (held_in_map entries.old) else held_in_map entries.old) }
{
    let held = Vec::from_slice(alloc, bytes)?;
    put_bytes(entries, alloc, name, held)?;
    Ok(())
}

// Makes the name hold no bytes; refused where the call met a fault.
fn put_nothing(
    entries: &mut Entries,
    alloc: Global,
    name: &str,
    met: bool,
) -> Result<(), OutsideError>
    ensures files { held_in_map entries.new ≡ (if is_ok result then with_bytes name.now [] (held_in_map entries.old) else held_in_map entries.old) }
    ensures failed { is_failed result ≡ met }
{
    if met {
        return Err(OutsideError::Failed);
    }
    let held = Vec::new(alloc);
    put_bytes(entries, alloc, name, held)?;
    Ok(())
}

// Adds bytes to what the name holds; answers whether it is there.
fn append_bytes(entries: &mut Entries, name: &str, bytes: &[u8]) -> Result<bool, AllocError>
    ensures found { IfOk result (λ found. found ≡ is_some (held_in_map entries.old name.now)) }
    ensures added { (q : List ℕ) → held_in_map entries.new q
        ≡ (if is_ok result then with_appended name.now bytes.now (held_in_map entries.old) q else held_in_map entries.old q) }
{
    let Some(held) = entries.get_mut(name) else {
        return Ok(false);
    };
    held.extend_from_slice(bytes)?;
    Ok(true)
}

// Adds the bytes to what the name holds, or the first half of them where the call met a fault; refused also where the name is missing.
fn append_part(
    entries: &mut Entries,
    name: &str,
    bytes: &[u8],
    met: bool,
) -> Result<(), OutsideError>
    ensures files { OnOk result (held_in_map entries.new ≡ with_appended name.now bytes.now (held_in_map entries.old)) }
    ensures half { IsErrOf result OutsideError.Failed
        → held_in_map entries.new ≡ with_appended name.now (take (length bytes.now / 2) bytes.now) (held_in_map entries.old) }
    ensures none { IsErrOf result OutsideError.NoMemory → held_in_map entries.new ≡ held_in_map entries.old }
    ensures failed { IsErrOf result OutsideError.Failed → IsTrue (met || is_none (held_in_map entries.old name.now)) }
    ensures done { OnOk result ((met || is_none (held_in_map entries.old name.now)) ≡ false) }
{
    let found = append_bytes(entries, name, part_of(bytes, met))?;
    if met || !found {
        return Err(OutsideError::Failed);
    }
    Ok(())
}

impl Folder for MemoryFolder {
    ghost use Rattle.vt_outside.specs.MemoryFolder.{memory_files, asked_of, fails_of, opens_of, openings_of, creates_of, appends_of, faults_of, is_missing, is_open_listed, is_create_listed, is_append_listed};
    ghost use Rattle.vt_outside.specs.MemoryFile.{file_name, file_bytes, file_places, file_fails, file_opening, file_reads, file_faults};
    ghost use Rattle.vt_outside.specs.Outcomes.{raised_if};

    type File = MemoryFile;

    ghost files = { λ folder. Some (memory_files folder) };

    ghost asked = { λ folder. Some (asked_of folder) };

    ghost faults = { faults_of };

    /// Opens a name for reading. It fails exactly where `Open` of the number of calls so far is in the list, or the name is missing;
    /// only a call in the list raises the count. The file has the folder's list, and the number of openings so far.
    fn open(&mut self, name: &str) -> Result<MemoryFile, OutsideError>
        ensures bytes { IfOk result (λ file. memory_files self.old name.now ≡ Some (file_bytes file)) }
        ensures places { IfOk result (λ file. file_places file ≡ []) }
        ensures name { IfOk result (λ file. file_name file ≡ name.now) }
        ensures no_faults { IfOk result (λ file. file_faults file ≡ 0) }
        ensures no_reads { IfOk result (λ file. file_reads file ≡ 0) }
        ensures list { IfOk result (λ file. file_fails file ≡ fails_of self.old) }
        ensures opening { IfOk result (λ file. file_opening file ≡ openings_of self.old) }
        ensures failed { is_failed result ≡ (is_open_listed self.old || is_missing self.old name.now) }
        ensures faults { faults_of self.new ≡ raised_if (is_open_listed self.old) (faults_of self.old) }
        ensures rises { faults_of self.old ≤ faults_of self.new }
        ensures opens { opens_of self.new ≡ added (opens_of self.old) 1 }
        ensures openings { openings_of self.new ≡ raised_if (is_ok result) (openings_of self.old) }
        ensures files { memory_files self.new ≡ memory_files self.old }
        ensures asked { asked_of self.new ≡ asked_of self.old }
        ensures fails { fails_of self.new ≡ fails_of self.old }
        ensures creates { creates_of self.new ≡ creates_of self.old }
        ensures appends { appends_of self.new ≡ appends_of self.old }
    {
        let call = Fail::Open(self.opens);
        self.opens = next(self.opens);
        let met = meets_fault(self.fails.slice(), call, &mut self.faults);
        let opened = self.opened(name, met);
        if opened.is_ok() {
            self.openings = next(self.openings);
        }
        opened
    }

    /// Closes a file: its places and its faults become the folder's. It takes no memory.
    fn close(&mut self, file: MemoryFile)
        ensures asked { asked_of self.new ≡ with_places (file_name file) (Some (file_places file)) (asked_of self.old) }
        ensures faults { faults_of self.new ≡ added (faults_of self.old) (file_faults file) }
        ensures kept { faults_of self.old ≤ faults_of self.new }
        ensures files { memory_files self.new ≡ memory_files self.old }
        ensures fails { fails_of self.new ≡ fails_of self.old }
        ensures opens { opens_of self.new ≡ opens_of self.old }
        ensures openings { openings_of self.new ≡ openings_of self.old }
        ensures creates { creates_of self.new ≡ creates_of self.old }
        ensures appends { appends_of self.new ≡ appends_of self.old }
    {
        let Remains {
            name,
            places,
            faults,
            cell,
        } = file.remains();
        self.faults = self.faults.saturating_add(faults);
        keep_places(&mut self.closed, name, places, cell);
    }

    /// Makes the name hold no bytes. It fails exactly where `Create` of the number of calls so far is in the list, and only then the count rises.
    fn create(&mut self, name: &str) -> Result<(), OutsideError>
        ensures files { memory_files self.new ≡ (if is_ok result then with_bytes name.now [] (memory_files self.old) else memory_files self.old) }
        ensures failed { is_failed result ≡ is_create_listed self.old }
        ensures faults { faults_of self.new ≡ raised_if (is_failed result) (faults_of self.old) }
        ensures rises { faults_of self.old ≤ faults_of self.new }
        ensures creates { creates_of self.new ≡ added (creates_of self.old) 1 }
        ensures asked { asked_of self.new ≡ asked_of self.old }
        ensures fails { fails_of self.new ≡ fails_of self.old }
        ensures opens { opens_of self.new ≡ opens_of self.old }
        ensures openings { openings_of self.new ≡ openings_of self.old }
        ensures appends { appends_of self.new ≡ appends_of self.old }
    {
        let call = Fail::Create(self.creates);
        self.creates = next(self.creates);
        let met = meets_fault(self.fails.slice(), call, &mut self.faults);
        put_nothing(&mut self.entries, self.alloc, name, met)
    }

    /// Adds the bytes to the name's. Up to want of memory it fails exactly where `Append` of the number of calls so far is in the list,
    /// or the name is missing; only a call in the list raises the count. An append that fails leaves the first half of the bytes
    /// (their number halved, rounded down) where the name is there; one that is refused for memory leaves none.
    fn append(&mut self, name: &str, bytes: &[u8]) -> Result<(), OutsideError>
        ensures files { OnOk result (memory_files self.new ≡ with_appended name.now bytes.now (memory_files self.old)) }
        ensures part { OnErr result ((k : ℕ)
            × (Some (memory_files self.new) ≡ option_map (with_appended name.now (take k bytes.now)) (Some (memory_files self.old)))) }
        ensures half { IsErrOf result OutsideError.Failed
            → memory_files self.new ≡ with_appended name.now (take (length bytes.now / 2) bytes.now) (memory_files self.old) }
        ensures none { IsErrOf result OutsideError.NoMemory → memory_files self.new ≡ memory_files self.old }
        ensures failed { IsErrOf result OutsideError.Failed → IsTrue (is_append_listed self.old || is_missing self.old name.now) }
        ensures done { OnOk result ((is_append_listed self.old || is_missing self.old name.now) ≡ false) }
        ensures faults { faults_of self.new ≡ raised_if (is_append_listed self.old) (faults_of self.old) }
        ensures rises { faults_of self.old ≤ faults_of self.new }
        ensures appends { appends_of self.new ≡ added (appends_of self.old) 1 }
        ensures asked { asked_of self.new ≡ asked_of self.old }
        ensures fails { fails_of self.new ≡ fails_of self.old }
        ensures opens { opens_of self.new ≡ opens_of self.old }
        ensures openings { openings_of self.new ≡ openings_of self.old }
        ensures creates { creates_of self.new ≡ creates_of self.old }
    {
        let call = Fail::Append(self.appends);
        self.appends = next(self.appends);
        let met = meets_fault(self.fails.slice(), call, &mut self.faults);
        append_part(&mut self.entries, name, bytes, met)
    }
}
