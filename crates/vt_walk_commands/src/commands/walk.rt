//! The command `walk`: the pictures of a path, drawn while the pages that they want are streamed from a store.

ghost use Rattle.std.specs.Prelude.{◌≡◌, ◌<◌, ◌≤◌, ◌*◌, ◌↔◌, IsTrue};
ghost use Rattle.vt_pages.specs.Limits.{most_frames, most_frame_texels};
ghost use Rattle.vt_command_inputs.specs.Effects.{call_effect};
ghost use Rattle.vt_command_words.specs.Walk.{shown_walk, IsLawfulWalk};
ghost use Rattle.vt_walk_commands.specs.Machines.{kind_of};
ghost use Rattle.vt_command_inputs.specs.CommandSpecs.{EndsBy};
ghost use Rattle.vt_walk_commands.specs.commands.Walk.{walk_spec, IsWalkAnswer, refusal_of_walk};

use std::alloc::Global;
use std::sync::Wait;
use std::thread::Threads;
use vt_command_inputs::{Refusal, open_store, read_path};
use vt_command_words::WalkWords;
use vt_outside::{Folder, Gate, Sink};
use vt_pages::Geometry;
use vt_walk::{Crew, Names, SentMachine, Settings, WalkError, walk_with};

// How many texels the frames of a walk have together at most.
const MOST_FRAME_TEXELS: u64 = 8_388_608;

const _LIMIT: () = prove!(MOST_FRAME_TEXELS == 8_388_608);

/// Reads the path and opens the store, and walks by a machine over all pictures of the path. It may wait.
pub fn walk<
    'a,
    M: SentMachine<File = D::File>,
    Rt: Threads + Wait + Sync,
    D: Folder,
    O: Sink,
    G: Gate + Sync,
>(
    rt: &Rt,
    alloc: Global,
    words: &WalkWords<'a>,
    folder: &mut D,
    out: &mut O,
    gate: &G,
) -> Result<(), Refusal<'a>>
    requires { IsLawfulWalk words.now }
    ensures { EndsBy (walk_spec (kind_of M.PassMachine) (shown_walk words.now))
        (call_effect D.Folder O.Sink folder.old folder.new out.old out.new) result }
{
    let path = read_path(alloc, folder, words.path)?;
    let store = open_store(folder, words.store)?;
    if has_many_texels(&store.geometry(), words.frames) {
        folder.close(store.into_file());
        return Err(Refusal::Usage);
    }
    let names = Names {
        store: words.store,
        prefix: words.prefix,
        journal: words.journal,
    };
    let settings = Settings {
        frames: words.frames,
        pinned: words.pinned,
        crew: Crew {
            samplers: words.samplers,
            loaders: words.loaders,
            batch: words.batch,
        },
    };
    let settled = words.settled;
    let walked = walk_with::<Rt, M, D, O, G>(
        rt, alloc, folder, store, &path, &names, &settings, settled, out, gate,
    );
    answer_of(walked)
}

// Whether so many frames have more texels together than they may.
fn has_many_texels(geometry: &Geometry, frames: u32) -> bool
    requires { frames ≤ most_frames }
    ensures { IsTrue result ↔ (most_frame_texels < frames * (geometry.now.tile * geometry.now.tile)) }
{
    let side = u64::from(geometry.tile());
    u64::from(frames) * (side * side) > MOST_FRAME_TEXELS
}

// The answer of a walk.
fn answer_of<'a>(walked: Result<(), WalkError>) -> Result<(), Refusal<'a>>
    ensures { IsWalkAnswer walked result }
{
    match walked {
        Ok(()) => Ok(()),
        Err(error) => Err(refusal_of(error)),
    }
}

// The refusal of a walk.
fn refusal_of<'a>(error: WalkError) -> Refusal<'a>
    ensures { result ≡ refusal_of_walk error }
{
    match error {
        WalkError::TooFewFrames { frames, needed } => Refusal::TooFewFrames { frames, needed },
        WalkError::DoesNotFit {
            picture,
            wanted,
            room,
        } => Refusal::DoesNotFit {
            picture,
            wanted,
            room,
        },
        WalkError::Failed => Refusal::Fault,
        WalkError::NoMemory => Refusal::NoMemory,
    }
}
