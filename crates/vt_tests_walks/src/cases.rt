//! Tables of cases: what a folder in memory holds before, what is done, and what is to result.

use crate::pass::kits::passes_come;
use crate::replay::{Replay, replay_comes};
use crate::walk::worked::{Walk, walk_comes};
use std::alloc::Global;
use std::process::Abort;
use std::sync::Wait;
use std::thread::Threads;
use vt_camera::{Path, parse_path};
use vt_outside::{Fail, Fails, MemoryFolder, NoMemory};

/// What is done over a store along a path, and what is to come of it.
#[derive(Clone, Copy)]
pub enum Deed<'a> {
    Walk(Walk<'a>),
    Replay(Replay<'a>),
    /// Passes over words of the test.
    Passes,
}

/// A row of a table. In the folder the name `s` holds the store and the name `p` the path, which are to stay.
///
/// A test has its table as a `static`: of a constant with such rows each test would prove how it is made.
#[derive(Clone, Copy)]
pub struct Case<'a> {
    pub store: &'a [u8],
    pub path: &'a [u8],
    /// The calls that fail.
    pub fails: &'a [Fail],
    pub deed: Deed<'a>,
}

// A folder of no names, in which these calls fail.
fn folder_of(alloc: Global, calls: &[Fail]) -> Result<MemoryFolder, NoMemory> {
    Ok(MemoryFolder::new(alloc, Fails::from_slice(alloc, calls)?))
}

// Whether the store and the path of a case could be put into a folder.
fn is_laid(folder: &mut MemoryFolder, case: &Case<'_>) -> bool {
    folder.add("s", case.store).is_ok() && folder.add("p", case.path).is_ok()
}

// Does what a case is of, in its folder: whether all came of it that was to come.
fn comes<Rt: Abort + Threads + Wait + Sync>(
    rt: &Rt,
    alloc: Global,
    folder: &mut MemoryFolder,
    path: &Path,
    case: &Case<'_>,
) -> bool {
    match &case.deed {
        Deed::Walk(walk) => walk_comes(rt, alloc, folder, path, case.fails, walk),
        Deed::Replay(replay) => replay_comes(rt, alloc, folder, path, replay),
        Deed::Passes => passes_come(rt, alloc, folder, path),
    }
}

// Whether a case comes out in a folder of no names.
fn comes_in<Rt: Abort + Threads + Wait + Sync>(
    rt: &Rt,
    alloc: Global,
    folder: &mut MemoryFolder,
    case: &Case<'_>,
) -> bool {
    match parse_path(alloc, case.path) {
        Ok(path) => {
            is_laid(folder, case)
                && comes(rt, alloc, folder, &path, case)
                && folder.holds("s", case.store)
                && folder.holds("p", case.path)
        }
        Err(_) => false,
    }
}

// Whether a case comes out.
fn holds<Rt: Abort + Threads + Wait + Sync>(rt: &Rt, alloc: Global, case: &Case<'_>) -> bool {
    match folder_of(alloc, case.fails) {
        Ok(mut folder) => comes_in(rt, alloc, &mut folder, case),
        Err(_) => false,
    }
}

/// Looks whether each case of a table comes out.
pub fn check<Rt: Abort + Threads + Wait + Sync>(rt: &Rt, alloc: Global, cases: &[Case<'_>]) {
    for i in 0..cases.len() {
        assert!(rt; holds(rt, alloc, &cases[i]), "case {i}");
    }
}
