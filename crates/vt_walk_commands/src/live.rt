//! Walks by the machine over shared words.

ghost use Rattle.std.specs.Prelude.{◌≡◌, ◌<◌, ◌≤◌, [], true, false, is_some};
ghost use Rattle.vt_outside.specs.Files.{bytes_at};
ghost use Rattle.vt_tiles.specs.Pages.{pinned_of};
ghost use Rattle.vt_walk.specs.Nearest.{nearest};
ghost use Rattle.vt_walk.specs.DrawnBy.{IsDrawnBySome};
ghost use Rattle.vt_walk.specs.Walks.{given_to, AreSettings};
ghost use Rattle.vt_walk.specs.States.{AreOpen};
ghost use Rattle.vt_walk.specs.WalkEffects.{walk_effect, file_of, Walks};
ghost use Rattle.vt_walk.specs.Closing.{AreOtherNamesAsBefore};

use std::alloc::Global;
use std::sync::Wait;
use std::thread::Threads;
use vt_camera::Path;
use vt_outside::{Folder, Gate, Sink};
use vt_pass_machines::WordMachine;
use vt_tiles::Store;
use vt_walk::{Names, PassMachine, Settings, WalkError, walk_with};

/// Walks over all pictures of a path, one pass a picture: what is missing is loaded for the next picture, and a lost
/// tile is left out. Conditions, refusals and causes are those of `walk_with`, but that `DoesNotFit` does not come.
/// It may wait.
pub fn walk_live<Rt: Threads + Wait + Sync, D: Folder, O: Sink, G: Gate + Sync>(
    rt: &Rt,
    alloc: Global,
    folder: &mut D,
    store: Store<D::File>,
    path: &Path,
    names: &Names<'_>,
    settings: &Settings,
    out: &mut O,
    gate: &G,
) -> Result<(), WalkError>
    requires settings { AreSettings store.shape settings.now }
    requires bytes { D.File.bytes store.file ≡ bytes_at (D.files folder.old) names.now.store.now }
    requires known_too { is_some (D.File.bytes store.file) ≡ is_some (D.files folder.old) }
    requires opened { AreOpen 1 names.now.store.now (D.asked folder.old) (file_of D.File.File store) }
    ensures walked { Walks (IsDrawnBySome ⟦<WordMachine<D::File> as PassMachine>⟧)
        (given_to nearest D.File.File store path.now names.now settings.now false)
        (walk_effect D.Folder O.Sink names.now.store.now (file_of D.File.File store) [] folder.old folder.new out.old
        out.new) result }
    ensures few { let needed = pinned_of store.shape settings.now.pinned in settings.now.frames < needed
        → result ≡ Err (WalkError.TooFewFrames settings.now.frames needed) }
    ensures others { AreOtherNamesAsBefore names.now.store.now (D.asked folder.old) (D.asked folder.new) }
    ensures faults { D.faults folder.old ≤ D.faults folder.new }
    ensures out_faults { O.faults out.old ≤ O.faults out.new }
{
    walk_with::<Rt, WordMachine<D::File>, D, O, G>(
        rt, alloc, folder, store, path, names, settings, false, out, gate,
    )
}

/// Walks over all pictures of a path, each drawn until nothing is missing: it is then the plain picture. A lost tile
/// ends the walk with `Failed`. Conditions, refusals and causes are those of `walk_with`. It may wait.
pub fn walk_settled<Rt: Threads + Wait + Sync, D: Folder, O: Sink, G: Gate + Sync>(
    rt: &Rt,
    alloc: Global,
    folder: &mut D,
    store: Store<D::File>,
    path: &Path,
    names: &Names<'_>,
    settings: &Settings,
    out: &mut O,
    gate: &G,
) -> Result<(), WalkError>
    requires settings { AreSettings store.shape settings.now }
    requires bytes { D.File.bytes store.file ≡ bytes_at (D.files folder.old) names.now.store.now }
    requires known_too { is_some (D.File.bytes store.file) ≡ is_some (D.files folder.old) }
    requires opened { AreOpen 1 names.now.store.now (D.asked folder.old) (file_of D.File.File store) }
    ensures walked { Walks (IsDrawnBySome ⟦<WordMachine<D::File> as PassMachine>⟧)
        (given_to nearest D.File.File store path.now names.now settings.now true)
        (walk_effect D.Folder O.Sink names.now.store.now (file_of D.File.File store) [] folder.old folder.new out.old
        out.new) result }
    ensures few { let needed = pinned_of store.shape settings.now.pinned in settings.now.frames < needed
        → result ≡ Err (WalkError.TooFewFrames settings.now.frames needed) }
    ensures others { AreOtherNamesAsBefore names.now.store.now (D.asked folder.old) (D.asked folder.new) }
    ensures faults { D.faults folder.old ≤ D.faults folder.new }
    ensures out_faults { O.faults out.old ≤ O.faults out.new }
{
    walk_with::<Rt, WordMachine<D::File>, D, O, G>(
        rt, alloc, folder, store, path, names, settings, true, out, gate,
    )
}
