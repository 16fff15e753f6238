// Rows of runs, and what is left after each. A test is a static table of rows and a call or two, since each step of a function is proved, and a table has
// none.

use super::runs::{Scene, play};
use crate::told::Told;
use std::alloc::Global;
use std::process::Abort;
use std::sync::Wait;
use std::test::*;
use std::thread::Threads;
use vt_outside::{Fail, MemoryFolder};

/// Bytes that a name holds.
#[derive(Clone, Copy)]
pub enum Held<'a> {
    /// All of these.
    All(&'a [u8]),
    /// The first so many of these.
    Front(&'a [u8], usize),
    /// A journal of this text.
    Journal(Told<'a>),
    /// A journal of one of these texts.
    Either(Told<'a>, Told<'a>),
}

/// A run, and what it leaves.
#[derive(Clone, Copy)]
pub struct Row<'a> {
    /// The words, with blanks between them.
    pub words: &'a str,
    /// The files that the folder has before the run. After it they hold what they held, but for those of `left`.
    pub files: &'a [(&'a str, Held<'a>)],
    /// A call on the folder or on the output that fails.
    pub fail: Option<Fail>,
    /// A call on the error output that fails.
    pub err_fail: Option<Fail>,
    pub status: u8,
    /// What these names hold after the run.
    pub left: &'a [(&'a str, Held<'a>)],
    /// Names that are not there after the run.
    pub missing: &'a [&'a str],
    /// What the first pictures hold; no others are there.
    pub pictures: &'a [&'a [u8]],
    pub out: &'a [u8],
    pub err: &'a [u8],
}

/// The names of the first pictures.
pub(super) static PICTURES: [&str; 5] = [
    "f0000.ppm",
    "f0001.ppm",
    "f0002.ppm",
    "f0003.ppm",
    "f0004.ppm",
];

// The bytes themselves; of a journal the text, or the first.
fn bytes_of<'a>(held: &Held<'a>) -> &'a [u8] {
    match *held {
        Held::All(bytes) => bytes,
        Held::Front(bytes, count) => {
            if count <= bytes.len() {
                &bytes[..count]
            } else {
                bytes
            }
        }
        Held::Journal(told) => told.text,
        Held::Either(told, _) => told.text,
    }
}

/// Adds the files to the folder, if there is memory.
pub fn adds(folder: &mut MemoryFolder, files: &[(&str, Held<'_>)]) -> bool {
    for (name, held) in files {
        if folder.add(name, bytes_of(held)).is_err() {
            return false;
        }
    }
    true
}

// The name holds these.
fn is_held(folder: &MemoryFolder, name: &str, held: &Held<'_>) -> bool {
    match (held, folder.bytes_of(name)) {
        (Held::Journal(told), Some(bytes)) => told.is(bytes),
        (Held::Either(told, other), Some(bytes)) => told.is(bytes) || other.is(bytes),
        (_, Some(bytes)) => bytes == bytes_of(held),
        (_, None) => false,
    }
}

// Each of the names holds its bytes.
fn has_left(folder: &MemoryFolder, left: &[(&str, Held<'_>)]) -> bool {
    for (name, held) in left {
        if !is_held(folder, name, held) {
            return false;
        }
    }
    true
}

// The name is in the list.
fn is_in(list: &[(&str, Held<'_>)], name: &str) -> bool {
    for (listed, _) in list {
        if *listed == name {
            return true;
        }
    }
    false
}

// Each file that the row does not say more of holds what it held.
fn has_kept(folder: &MemoryFolder, row: &Row<'_>) -> bool {
    for (name, held) in row.files {
        if !is_in(row.left, name) && !folder.holds(name, bytes_of(held)) {
            return false;
        }
    }
    true
}

// None of the names is there.
fn misses(folder: &MemoryFolder, names: &[&str]) -> bool {
    for name in names {
        if folder.bytes_of(name).is_some() {
            return false;
        }
    }
    true
}

// The pictures are these, and no others.
fn has_pictures(folder: &MemoryFolder, pictures: &[&[u8]]) -> bool {
    for i in 0..PICTURES.len() {
        if folder.bytes_of(PICTURES[i]) != pictures.get(i).copied() {
            return false;
        }
    }
    true
}

/// What a row says that a run leaves, but for the pictures.
pub(super) fn stands_beside(scene: &Scene, row: &Row<'_>) -> bool {
    has_left(&scene.folder, row.left)
        && has_kept(&scene.folder, row)
        && misses(&scene.folder, row.missing)
        && scene.printed(row.out, row.err)
}

// What a row says that a run leaves.
fn stands(scene: &Scene, row: &Row<'_>) -> bool {
    has_pictures(&scene.folder, row.pictures) && stands_beside(scene, row)
}

/// A run over a scene, to whose folder the files of its row are added first, leaves what its row says.
pub fn leaves_in(
    rt: &(impl Threads + Wait + Sync),
    alloc: Global,
    row: &Row<'_>,
    scene: &mut Scene,
) -> bool {
    adds(&mut scene.folder, row.files)
        && play(rt, alloc, row.words, scene) == row.status
        && stands(scene, row)
}

/// A run over an empty folder, to which the files of its row are added first, leaves what its row says.
pub fn leaves(rt: &(impl Threads + Wait + Sync), alloc: Global, row: &Row<'_>) -> bool {
    match Scene::failing(alloc, row.fail, row.err_fail) {
        Ok(mut scene) => leaves_in(rt, alloc, row, &mut scene),
        Err(_) => false,
    }
}

/// Each run leaves what its row says.
pub(super) fn hold(rt: &(impl Abort + Threads + Wait + Sync), alloc: Global, rows: &[Row<'_>]) {
    for i in 0..rows.len() {
        assert!(rt; leaves(rt, alloc, &rows[i]), "row {i}");
    }
}
