//! The pictures of a journal.

ghost use Rattle.std.specs.Prelude.{◌≡◌, ◌⊎◌, ◌≤◌, ℕ, length};
ghost use Rattle.vt_outside.specs.Counts.{Rose, added};
ghost use Rattle.vt_outside.specs.Effects.{folder_effect};
ghost use Rattle.vt_outside.specs.Expectations.{AsksNone};
ghost use Rattle.vt_replay_rows.specs.Replays.{pixel_under};
ghost use Rattle.vt_replay_rows.specs.Following.{IsReadOn};
ghost use Rattle.vt_replay.specs.Flaws.{IsFirstRefused};
ghost use Rattle.vt_replay.specs.Outcomes.{LeavesReplay, IsStoreClosed, replay_answer};

use crate::error::ReplayError;
use crate::judge::judged;
use crate::play::play;
use std::alloc::Global;
use std::thread::Threads;
use vt_camera::Path;
use vt_outside::{Folder, OutsideError};
use vt_replay_rows::{Filter, Nearest};
use vt_tiles::Store;

/// Writes the picture of the last pass of each picture of a journal, drawn from a store along the journal's path, each pixel of the
/// texel that serves it, and answers their number. A picture's name is the prefix, its number in four digits and `.ppm`. The store's
/// file is closed.
///
/// `BadJournal` comes exactly for the first line that the journal's reader refuses or that names a picture that the path has
/// not, before anything is written; `Failed` only where the folder's count of faults rose above what it was with that of the
/// store's file; `NoMemory` where memory was refused, and where one row needs more tiles than 8,388,608 texels make, which no
/// journal of a walk does. After the latter two some pictures are whole, and of the next a prefix may be there.
pub fn replay<Rt: Threads + Sync, D: Folder>(
    rt: &Rt,
    alloc: Global,
    folder: &mut D,
    store: Store<D::File>,
    path: &Path,
    journal: &[u8],
    prefix: &str,
) -> Result<u32, ReplayError>
    ensures leaves { LeavesReplay pixel_under store.shape store.depth (D.File.bytes store.file) path.now journal.now prefix.now
        (D.files folder.old) (D.files folder.new) result }
    ensures refused { (line : ℕ) → IsFirstRefused store.shape path.now.height (length path.now.cameras) journal.now line
        → (result ≡ Err (ReplayError.BadJournal line)) ⊎ (result ≡ Err ReplayError.NoMemory) }
    ensures failed { result ≡ Err ReplayError.Failed
        → Rose (added (D.faults folder.old) (D.File.faults store.file)) (D.faults folder.new) }
    ensures closed { IsStoreClosed store.shape store.depth (D.File.name store.file) (D.File.asked store.file)
        (D.asked folder.old) (D.asked folder.new) }
    ensures faults { added (D.faults folder.old) (D.File.faults store.file) ≤ D.faults folder.new }
{
    replay_by::<Rt, Nearest, D>(rt, alloc, folder, store, path, journal, prefix)
}

/// Writes the pictures of a journal as `replay` does, their pixels made of texels by a filter.
pub fn replay_by<Rt: Threads + Sync, P: Filter + Sync, D: Folder>(
    rt: &Rt,
    alloc: Global,
    folder: &mut D,
    store: Store<D::File>,
    path: &Path,
    journal: &[u8],
    prefix: &str,
) -> Result<u32, ReplayError>
    ensures leaves { LeavesReplay P.under store.shape store.depth (D.File.bytes store.file) path.now journal.now prefix.now
        (D.files folder.old) (D.files folder.new) result }
    ensures refused { (line : ℕ) → IsFirstRefused store.shape path.now.height (length path.now.cameras) journal.now line
        → (result ≡ Err (ReplayError.BadJournal line)) ⊎ (result ≡ Err ReplayError.NoMemory) }
    ensures failed { result ≡ Err ReplayError.Failed
        → Rose (added (D.faults folder.old) (D.File.faults store.file)) (D.faults folder.new) }
    ensures closed { IsStoreClosed store.shape store.depth (D.File.name store.file) (D.File.asked store.file)
        (D.asked folder.old) (D.asked folder.new) }
    ensures faults { added (D.faults folder.old) (D.File.faults store.file) ≤ D.faults folder.new }
{
    let mut store = store;
    let result = replay_open::<Rt, P, D>(rt, alloc, folder, &mut store, path, journal, prefix);
    folder.close(store.into_file());
    result
}

// Judges a journal and plays it, over a store that stays open.
fn replay_open<Rt: Threads + Sync, P: Filter + Sync, D: Folder>(
    rt: &Rt,
    alloc: Global,
    folder: &mut D,
    store: &mut Store<D::File>,
    path: &Path,
    journal: &[u8],
    prefix: &str,
) -> Result<u32, ReplayError>
    ensures leaves { LeavesReplay P.under store.old.shape store.old.depth (D.File.bytes store.old.file) path.now journal.now prefix.now
        (D.files folder.old) (D.files folder.new) result }
    ensures refused { (line : ℕ) → IsFirstRefused store.old.shape path.now.height (length path.now.cameras) journal.now line
        → (result ≡ Err (ReplayError.BadJournal line)) ⊎ (result ≡ Err ReplayError.NoMemory) }
    ensures failed { result ≡ Err ReplayError.Failed → Rose (D.faults folder.old) (D.faults folder.new)
        ⊎ Rose (D.File.faults store.old.file) (D.File.faults store.new.file) }
    ensures asks { AsksNone (folder_effect D.Folder folder.old folder.new) }
    ensures read { IsReadOn D.File.File store.old store.new }
{
    let geometry = store.geometry();
    let text = judged(alloc, &geometry, path, journal)?;
    answer_of(play::<Rt, P, D>(rt, alloc, folder, store, path, &text, prefix))
}

// The answer of a replay, by that of its passes.
fn answer_of(played: Result<u32, OutsideError>) -> Result<u32, ReplayError>
    ensures { result ≡ replay_answer played }
{
    match played {
        Ok(count) => Ok(count),
        Err(OutsideError::Failed) => Err(ReplayError::Failed),
        Err(OutsideError::NoMemory) => Err(ReplayError::NoMemory),
    }
}
