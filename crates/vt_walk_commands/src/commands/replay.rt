//! The command `replay`: the pictures of a journal, drawn again from its store and its path.

ghost use Rattle.std.specs.Prelude.{◌≡◌, ◌⊎◌, ℕ, length, IfOk, IfErr};
ghost use Rattle.vt_outside.specs.Counts.{Rose, added};
ghost use Rattle.vt_command_inputs.specs.Effects.{call_effect, folder_effect};
ghost use Rattle.vt_command_words.specs.Replay.{shown_replay};
ghost use Rattle.vt_replay.specs.Flaws.{IsFirstRefused};
ghost use Rattle.vt_replay.specs.Outcomes.{LeavesReplay, IsStoreClosed};
ghost use Rattle.vt_command_inputs.specs.Inputs.{JournalInput, TextContent};
ghost use Rattle.vt_command_inputs.specs.Reads.{file_state, TookInput};
ghost use Rattle.vt_command_inputs.specs.CommandSpecs.{EndsBy};
ghost use Rattle.vt_walk_commands.specs.commands.Replay.{under_by, replay_spec, RefusedBeside, IsReplayAnswer, flaw_of_replay};

use crate::blend_replay::replay_blend;
use std::alloc::Global;
use std::thread::Threads;
use vt_camera::Path;
use vt_command_inputs::{Flaw, Refusal, open_store, put_end, read_journal, read_path, refusal_of};
use vt_command_words::{Filtering, ReplayWords};
use vt_outside::{Folder, OutsideError, Sink};
use vt_pictures::Nearest;
use vt_replay::{ReplayError, replay_by};
use vt_tiles::Store;

/// Reads the path, opens the store and reads the journal, writes each picture of the journal under its name, and puts
/// the end line.
pub fn replay<'a, Rt: Threads + Sync, D: Folder, O: Sink>(
    rt: &Rt,
    alloc: Global,
    words: &ReplayWords<'a>,
    folder: &mut D,
    out: &mut O,
) -> Result<(), Refusal<'a>>
    ensures { EndsBy (replay_spec (shown_replay words.now))
        (call_effect D.Folder O.Sink folder.old folder.new out.old out.new) result }
{
    let path = read_path(alloc, folder, words.path)?;
    let store = open_store(folder, words.store)?;
    let (store, text) = read_beside(alloc, folder, store, words.journal)?;
    let played = play(
        rt,
        words.filter,
        alloc,
        folder,
        store,
        &path,
        &text,
        words.prefix,
    );
    let pictures = answer_of(words.journal, played)?;
    put_end(out, pictures)?;
    Ok(())
}

// Reads the text of a journal beside an open store, which is closed where the journal is refused.
fn read_beside<'a, D: Folder>(
    alloc: Global,
    folder: &mut D,
    store: Store<D::File>,
    name: &'a str,
) -> Result<(Store<D::File>, Vec<u8>), Refusal<'a>>
    ensures same { IfOk result (λ read. read.0 ≡ store) }
    ensures took { IfOk result (λ read. TookInput (JournalInput name.now) (TextContent read.1.items)
        (folder_effect D.Folder folder.old folder.new)) }
    ensures refused { IfErr result (λ refusal. RefusedBeside name.now refusal (file_state D.File.File store.file)
        (folder_effect D.Folder folder.old folder.new)) }
{
    match read_journal(alloc, folder, name) {
        Ok(text) => Ok((store, text)),
        Err(refusal) => {
            folder.close(store.into_file());
            Err(refusal)
        }
    }
}

// Draws the pictures of a journal by a filter, and closes the store.
fn play<Rt: Threads + Sync, D: Folder>(
    rt: &Rt,
    filter: Filtering,
    alloc: Global,
    folder: &mut D,
    store: Store<D::File>,
    path: &Path,
    journal: &[u8],
    prefix: &str,
) -> Result<u32, ReplayError>
    ensures leaves { LeavesReplay (under_by filter) store.shape store.depth (D.File.bytes store.file) path.now journal.now
        prefix.now (D.files folder.old) (D.files folder.new) result }
    ensures refused { (line : ℕ) → IsFirstRefused store.shape path.now.height (length path.now.cameras) journal.now line
        → (result ≡ Err (ReplayError.BadJournal line)) ⊎ (result ≡ Err ReplayError.NoMemory) }
    ensures failed { result ≡ Err ReplayError.Failed
        → Rose (added (D.faults folder.old) (D.File.faults store.file)) (D.faults folder.new) }
    ensures closed { IsStoreClosed store.shape store.depth (D.File.name store.file) (D.File.asked store.file)
        (D.asked folder.old) (D.asked folder.new) }
{
    match filter {
        Filtering::Nearest => replay_by::<Rt, Nearest, D>(
            rt, alloc, folder, store, path, journal, prefix,
        ),
        Filtering::Bilinear => { replay_blend(rt, alloc, folder, store, path, journal, prefix) }
    }
}

// The answer of a replay, with the journal's name beside its flaw.
fn answer_of(name: &str, played: Result<u32, ReplayError>) -> Result<u32, Refusal<'_>>
    ensures { IsReplayAnswer name.now played result }
{
    match played {
        Ok(pictures) => Ok(pictures),
        Err(error) => Err(refusal_of(name, flaw_of_replay(error))),
    }
}

// The flaw of a journal that is refused, or what the outside refused.
fn flaw_of_replay(error: ReplayError) -> Result<Flaw, OutsideError>
    ensures { result ≡ flaw_of_replay error }
{
    match error {
        ReplayError::BadJournal { line } => Ok(Flaw::BadLine(line)),
        ReplayError::Failed => Err(OutsideError::Failed),
        ReplayError::NoMemory => Err(OutsideError::NoMemory),
    }
}
