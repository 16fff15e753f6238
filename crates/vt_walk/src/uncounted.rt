//! Walks that answer nothing but that they are done.

ghost use Rattle.std.specs.Prelude.{◌≡◌, ◌<◌, ◌≤◌, [], is_some};
ghost use Rattle.vt_outside.specs.Files.{bytes_at};
ghost use Rattle.vt_pages.specs.Pages.{pinned_of};
ghost use Rattle.vt_walk.specs.Walks.{given_to, AreSettings};
ghost use Rattle.vt_walk.specs.States.{AreOpen};
ghost use Rattle.vt_walk.specs.DrawnBy.{IsDrawnBySome};
ghost use Rattle.vt_walk.specs.WalkEffects.{walk_effect, file_of, Walks};
ghost use Rattle.vt_walk.specs.Closing.{AreOtherNamesAsBefore};

use crate::walk::walk_counted;
use std::alloc::Global;
use std::sync::Wait;
use std::thread::Threads;
use vt_camera::Path;
use vt_outside::{Folder, Gate, Sink};
use vt_tiles::Store;
use vt_walk_decisions::{Names, SentMachine, Settings, WalkError};

/// Walks over all pictures of a path by a machine, live or settled.
///
/// The store was opened from `names.store`, which still holds its bytes where the folder tells them. First the store
/// is opened once more for each loader, and the tiles of the pinned pages are read from the given one in the order of
/// their indexes. Then the journal is created with its head. Each pass is run, and its text is added to the journal
/// in one call. After a picture's last pass the picture is created and written in one call, and its line is put. The
/// last line ends the walk, and all files are closed, also after a refusal. A picture of 4,096 pixels or more is written
/// while the next one's first pass is run: what is written keeps this order, and after a refusal of the writing or of
/// the line the tiles of that pass may have been asked for.
///
/// `TooFewFrames` comes exactly where there are fewer frames than pinned pages, `DoesNotFit` in a settled walk at the
/// first picture that needs more unpinned pages at once than there is room for, after its first pass. `Failed` comes
/// only where the count of faults of the folder, taken at the beginning with that of the store's file, rose by more
/// than the tiles that were lost, or that of the output rose; or at a lost tile of a settled walk, after the pass
/// that lost it was told. It may wait.
pub fn walk_with<
    Rt: Threads + Wait + Sync,
    M: SentMachine<File = D::File>,
    D: Folder,
    O: Sink,
    G: Gate + Sync,
>(
    rt: &Rt,
    alloc: Global,
    folder: &mut D,
    store: Store<D::File>,
    path: &Path,
    names: &Names<'_>,
    settings: &Settings,
    settled: bool,
    out: &mut O,
    gate: &G,
) -> Result<(), WalkError>
    requires settings { AreSettings store.shape settings.now }
    requires bytes { D.File.bytes store.file ≡ bytes_at (D.files folder.old) names.now.store.now }
    requires known_too { is_some (D.File.bytes store.file) ≡ is_some (D.files folder.old) }
    requires opened { AreOpen 1 names.now.store.now (D.asked folder.old) (file_of D.File.File store) }
    ensures walked { Walks (IsDrawnBySome M.PassMachine) (given_to M.drawing D.File.File store path.now names.now settings.now settled)
        (walk_effect D.Folder O.Sink names.now.store.now (file_of D.File.File store) [] folder.old folder.new out.old
        out.new) result }
    ensures few { let needed = pinned_of store.shape settings.now.pinned in settings.now.frames < needed
        → result ≡ Err (WalkError.TooFewFrames settings.now.frames needed) }
    ensures others { AreOtherNamesAsBefore names.now.store.now (D.asked folder.old) (D.asked folder.new) }
    ensures faults { D.faults folder.old ≤ D.faults folder.new }
    ensures out_faults { O.faults out.old ≤ O.faults out.new }
{
    let walked = walk_counted::<Rt, M, D, O, G>(
        rt, alloc, folder, store, path, names, settings, settled, out, gate,
    );
    match walked {
        Ok(_) => Ok(()),
        Err(error) => Err(error),
    }
}
