//! What several of these tests are made of.

use std::alloc::{AllocError, Global};
use std::process::Abort;
use vt_outside::{Fail, Fails, MemoryFolder, MemorySink, NoMemory};

/// Looks that no row of a table is wrong; where one is, the failure names the first.
pub fn no_row_is_wrong(rt: &impl Abort, wrong: Option<usize>) {
    assert_eq!(rt; wrong, None);
}

/// A folder in which a name holds these bytes, and of which these calls fail.
pub fn folder_of(
    alloc: Global,
    name: &str,
    bytes: &[u8],
    calls: &[Fail],
) -> Result<MemoryFolder, NoMemory> {
    let mut folder = MemoryFolder::new(alloc, Fails::from_slice(alloc, calls)?);
    folder.add(name, bytes)?;
    Ok(folder)
}

/// A sink in which the put of that number fails.
pub fn sink_failing_at(alloc: Global, put: u64) -> Result<MemorySink, NoMemory> {
    Ok(MemorySink::new(alloc, Fails::from_slice(alloc, &[Fail::Put(put)])?))
}

/// A front, one byte so many times, and what follows it.
pub fn around(
    alloc: Global,
    front: &[u8],
    byte: u8,
    count: usize,
    rest: &[u8],
) -> Result<Vec<u8>, AllocError> {
    let mut bytes = Vec::from_slice(alloc, front)?;
    bytes.resize(front.len().saturating_add(count), byte)?;
    bytes.extend_from_slice(rest)?;
    Ok(bytes)
}
