//! The replay of a journal by blends.

ghost use Rattle.std.specs.Prelude.{◌≡◌, ◌⊎◌, ◌≤◌, ℕ, length};
ghost use Rattle.vt_outside.specs.Counts.{Rose, added};
ghost use Rattle.vt_replay.specs.Flaws.{IsFirstRefused};
ghost use Rattle.vt_replay.specs.Outcomes.{LeavesReplay, IsStoreClosed};
ghost use Rattle.vt_plain_bilinear.specs.Shown.{blend_under};

use std::alloc::Global;
use std::thread::Threads;
use vt_camera::Path;
use vt_outside::Folder;
use vt_plain_bilinear::Bilinear;
use vt_replay::{ReplayError, replay_by};
use vt_tiles::Store;

/// Writes the pictures of a journal by bilinear filtering: that of the last pass of each, drawn from a store along the journal's path,
/// each pixel the blend of the texels that serve the four about its place. A journal does not say by which filter its walk drew. All else,
/// names, refusals and their causes, is as `vt_replay::replay` has it.
pub fn replay_blend<Rt: Threads + Sync, D: Folder>(
    rt: &Rt,
    alloc: Global,
    folder: &mut D,
    store: Store<D::File>,
    path: &Path,
    journal: &[u8],
    prefix: &str,
) -> Result<u32, ReplayError>
    ensures leaves { LeavesReplay blend_under store.shape store.depth (D.File.bytes store.file) path.now journal.now prefix.now
        (D.files folder.old) (D.files folder.new) result }
    ensures refused { (line : ℕ) → IsFirstRefused store.shape path.now.height (length path.now.cameras) journal.now line
        → (result ≡ Err (ReplayError.BadJournal line)) ⊎ (result ≡ Err ReplayError.NoMemory) }
    ensures failed { result ≡ Err ReplayError.Failed
        → Rose (added (D.faults folder.old) (D.File.faults store.file)) (D.faults folder.new) }
    ensures closed { IsStoreClosed store.shape store.depth (D.File.name store.file) (D.File.asked store.file)
        (D.asked folder.old) (D.asked folder.new) }
    ensures faults { added (D.faults folder.old) (D.File.faults store.file) ≤ D.faults folder.new }
{
    replay_by::<Rt, Bilinear, D>(rt, alloc, folder, store, path, journal, prefix)
}
