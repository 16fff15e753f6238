//! Walks in a folder in memory, and what is to be there after them.

ghost use Rattle.std.specs.Prelude.{◌≡◌, [], ◌∷◌, is_some};
ghost use Rattle.std.specs.Bool.{OnTrue};
ghost use Rattle.vt_outside.specs.Files.{bytes_at};
ghost use Rattle.vt_machine.specs.Machines.{file_state};
ghost use Rattle.vt_walk.specs.Walks.{AreSettings};
ghost use Rattle.vt_walk.specs.States.{AreOpen};

use crate::fixtures::{is_crew, open_store, pictures_stand};
use crate::told::Told;
use std::alloc::Global;
use std::process::Abort;
use std::sync::Wait;
use std::thread::Threads;
use vt_camera::Path;
use vt_journal::Geometry;
use vt_outside::{Fail, Fails, Folder, MemoryFolder, MemorySink, NoMemory, OpenGate, Sink};
use vt_tiles::Store;
use vt_top_call::{walk_live, walk_settled};
use vt_walk::{Mode, Names, Settings, WalkError};

/// A walk, and what is to be there after it. In the folder opening 0 is the path's, opening 1 the store's, and the loaders' follow.
#[derive(Clone, Copy)]
pub struct Walk<'a> {
    pub settings: Settings,
    pub mode: Mode,
    pub error: Option<WalkError>,
    /// What the journal holds, if its name is there.
    pub journal: Option<Told<'a>>,
    pub log: &'a [u8],
    /// What the names of the first pictures hold, the others of which are not there.
    pub pictures: &'a [&'a [u8]],
}

/// Opens the store of a folder, after its path, as the program does.
pub fn open_after_path<D: Folder>(rt: &impl Abort, folder: &mut D, name: &str) -> Store<D::File>
    ensures bytes { D.File.bytes result.file ≡ bytes_at (D.files folder.new) name.now }
    ensures known_too { is_some (D.File.bytes result.file) ≡ is_some (D.files folder.new) }
    ensures opened { AreOpen 1 name.now (D.asked folder.new) (file_state D.File.File result.file ∷ []) }
{
    let Ok(path) = folder.open("p") else {
        panic!(rt; "no path");
    };
    folder.close(path);
    open_store(rt, folder, name)
}

/// Whether settings are within their limits, for tiles of the side 2.
pub fn are_lawful(geometry: &Geometry, settings: &Settings) -> bool
    ensures { OnTrue result (AreSettings geometry.now settings.now) }
{
    geometry.tile() == 2
        && 1 <= settings.frames
        && settings.frames <= 65535
        && 1 <= settings.pinned
        && is_crew(&settings.crew)
}

// What a walk over the store of a folder answers.
fn walked<Rt: Abort + Threads + Wait + Sync, D: Folder, O: Sink>(
    rt: &Rt,
    alloc: Global,
    folder: &mut D,
    path: &Path,
    settings: &Settings,
    mode: Mode,
    out: &mut O,
) -> Result<(), WalkError> {
    let names = Names {
        store: "s",
        prefix: "f",
        journal: "j",
    };
    let store = open_after_path(rt, folder, names.store);
    let lawful = are_lawful(&store.geometry(), settings);
    assert!(rt; lawful);
    match mode {
        Mode::Live => walk_live(
            rt, alloc, folder, store, path, &names, settings, out, &OpenGate,
        ),
        Mode::Settled => {
            walk_settled(
                rt, alloc, folder, store, path, &names, settings, out, &OpenGate,
            )
        }
    }
}

// The sink of a walk, in which these calls fail.
fn sink_of(alloc: Global, calls: &[Fail]) -> Result<MemorySink, NoMemory> {
    Ok(MemorySink::new(alloc, Fails::from_slice(alloc, calls)?))
}

// Whether the journal's name holds such a journal, or is not there where there is none.
fn has_journal(folder: &MemoryFolder, journal: Option<Told<'_>>) -> bool {
    match (folder.bytes_of("j"), journal) {
        (Some(bytes), Some(told)) => told.is(bytes),
        (None, None) => true,
        _ => false,
    }
}

// Whether a folder holds what is to be there after a walk.
fn is_left(folder: &MemoryFolder, walk: &Walk<'_>) -> bool {
    has_journal(folder, walk.journal) && pictures_stand(folder, walk.pictures)
}

/// Walks over the store of a folder, by a sink in which these calls fail, too: whether all came of it that was to come.
pub fn walk_comes<Rt: Abort + Threads + Wait + Sync>(
    rt: &Rt,
    alloc: Global,
    folder: &mut MemoryFolder,
    path: &Path,
    fails: &[Fail],
    walk: &Walk<'_>,
) -> bool {
    match sink_of(alloc, fails) {
        Ok(mut out) => {
            let answer = walked(rt, alloc, folder, path, &walk.settings, walk.mode, &mut out);
            answer.err() == walk.error && out.bytes() == walk.log && is_left(folder, walk)
        }
        Err(_) => false,
    }
}
