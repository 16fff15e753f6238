//! Passes over shared words that the test holds, with their streamer.

ghost use Rattle.std.specs.Prelude.{◌≡◌, ◌<◌, ◌≤◌, [], ◌∷◌, length, None, IfSome, IfOk};
ghost use Rattle.std.specs.Bool.{OnTrue};
ghost use Rattle.vt_outside.specs.Files.{IsPiece};
ghost use Rattle.vt_journal.specs.Pages.{pages_of};
ghost use Rattle.vt_journal.specs.Changes.{newest};
ghost use Rattle.vt_journal.specs.declared.changes.Change.TheVariants.{Map as MapEntry};
ghost use Rattle.vt_tiles.specs.Format.{tile_length, tile_start};
ghost use Rattle.vt_streamer.specs.TableViews.{IsTile};
ghost use Rattle.vt_streamer.specs.Views.{IsStreamerOf};
ghost use Rattle.vt_machine.specs.Jobs.{job_of};
ghost use Rattle.vt_machine.specs.Machines.{known_bytes};
ghost use Rattle.vt_machine.specs.Outcomes.{IsBatchFor};
ghost use Rattle.vt_machine.specs.Passes.{IsJobFor};
ghost use Rattle.vt_tests_walks.specs.Placed.{HasPlaced};
ghost use Rattle.vt_pass.specs.PassKits.{kit_setup, IsIdleKit};

use crate::cases::{Case, Deed, check};
use crate::fixtures::{FOUR, HEADER, ONE_PICTURE, ROOT_TILE, TILE_0, TILE_2};
use crate::pass::came::Expected;
use crate::pass::stores::{close_all, one_store, open_with_root, root_page};
use std::alloc::Global;
use std::process::Abort;
use std::sync::Wait;
use std::thread::Threads;
use vt_camera::Path;
use vt_feedback::Wanted;
use vt_grace::Words;
use vt_journal::{Change, Event};
use vt_machine::{Batch, Crew, PassReport, Planned};
use vt_outside::{Fail, File, Folder, Items, MemoryFolder, NoMemory, OpenGate, Place};
use vt_pass::{PassKit, run_pass};
use vt_pictures::Shot;
use vt_streamer::Streamer;

// Maps a page to the first frame of words in which nothing is mapped and no sampler has a pass: whether it was done.
fn place(words: &Words, streamer: &mut Streamer, page: u32, tile: &[u8]) -> bool
    requires of { IsStreamerOf words.now streamer.old }
    requires page { page < pages_of streamer.old.shape }
    requires journal { streamer.old.writer.journal ≡ [] }
    requires tile { IsTile streamer.old.shape tile.now }
    ensures of { IsStreamerOf words.now streamer.new }
    ensures placed { OnTrue result (HasPlaced streamer.old streamer.new page 0 tile.now) }
    ensures frames { length streamer.new.owners ≡ length streamer.old.owners }
{
    if streamer.reserve(1).is_err() {
        return false;
    }
    if streamer.try_free(words, 0).is_err() {
        return false;
    }
    streamer.fill(words, 0, page, tile);
    streamer
        .try_publish(words, Change::Map { page, frame: 0 })
        .is_ok()
}

// Prepares a pass for a batch, and runs it, where the journal is short and maps the root.
fn pass<Rt: Threads + Wait + Sync, F: File + Send>(
    rt: &Rt,
    pool: &mut PassKit<F>,
    words: &Words,
    streamer: &mut Streamer,
    shot: &Shot<'_>,
    batch: &Batch,
) -> Option<PassReport>
    requires idle { IsIdleKit F.File words.now streamer.old pool.old }
    requires lawful { IsBatchFor streamer.old.shape (length streamer.old.owners)
        (newest streamer.old.writer.journal) batch.now.elements }
    requires few { length batch.now.elements ≤ pool.old.streams.crew.batch }
    requires job { IsJobFor (kit_setup F.File words.now pool.old) (job_of shot.now []) }
    ensures idle { IfSome result (λ _. IsIdleKit F.File words.now streamer.new pool.new) }
    ensures job { IfSome result (λ _. IsJobFor (kit_setup F.File words.now pool.new) (job_of shot.now [])) }
{
    if streamer.journal().version() > 1000
        || streamer.frame_of(root_page(shot.geometry)).is_none()
        || pool.prepare(words, streamer, batch).is_err()
    {
        return None;
    }
    Some(run_pass(rt, pool, words, streamer, shot, batch, &OpenGate))
}

// Runs a pass: whether that comes of it.
fn runs<Rt: Threads + Wait + Sync, F: File + Send>(
    rt: &Rt,
    alloc: Global,
    pool: &mut PassKit<F>,
    words: &Words,
    streamer: &mut Streamer,
    shot: &Shot<'_>,
    batch: &Batch,
    expected: &Expected<'_>,
) -> bool
    requires idle { IsIdleKit F.File words.now streamer.old pool.old }
    requires lawful { IsBatchFor streamer.old.shape (length streamer.old.owners)
        (newest streamer.old.writer.journal) batch.now.elements }
    requires few { length batch.now.elements ≤ pool.old.streams.crew.batch }
    requires job { IsJobFor (kit_setup F.File words.now pool.old) (job_of shot.now []) }
    ensures idle { OnTrue result (IsIdleKit F.File words.now streamer.new pool.new) }
    ensures job { OnTrue result (IsJobFor (kit_setup F.File words.now pool.new) (job_of shot.now [])) }
{
    match pass(rt, pool, words, streamer, shot, batch) {
        Some(report) => {
            let wanted = pool.counts().wanted(alloc, shot.geometry);
            expected.came(&report, pool.picture(alloc), wanted)
        }
        None => false,
    }
}

// The pages 0 and 2 for frames that are free.
fn two_pages(alloc: Global) -> Result<Batch, NoMemory>
    ensures { IfOk result (λ batch. batch.elements ≡ record { page = 0; frame = 1; victim = None }
        ∷ record { page = 2; frame = 2; victim = None } ∷ []) }
{
    let entries = [
        Planned {
            page: 0,
            frame: 1,
            victim: None,
        },
        Planned {
            page: 2,
            frame: 2,
            victim: None,
        },
    ];
    Items::from_slice(alloc, &entries)
}

// What is to come of the pass that loads page 0 and loses page 2.
static LOADS_ONE: Expected<'static> = Expected {
    events: &[
        Event::Changed(Change::Map { page: 0, frame: 1 }),
        Event::Lost { page: 2 },
    ],
    losses: &[false, true],
    least: 1,
    shown: &[
        &[0x0b, 0x0b, 0x0b, 0x03, 0x03, 0x03],
        &[0x0b, 0x0b, 0x0b, 0x01, 0x01, 0x01],
    ],
    wanted: &[Wanted { page: 0, pixels: 1 }, Wanted { page: 2, pixels: 1 }],
};

// And of the pass after it, which loads nothing.
static LOADS_NONE: Expected<'static> = Expected {
    events: &[],
    losses: &[],
    least: 2,
    shown: &[&[0x0b, 0x0b, 0x0b, 0x01, 0x01, 0x01]],
    wanted: &[Wanted { page: 0, pixels: 1 }, Wanted { page: 2, pixels: 1 }],
};

// Runs the two passes over words of three frames, the first of which has the root: whether that comes of them.
fn run_both<Rt: Threads + Wait + Sync, F: File + Send>(
    rt: &Rt,
    alloc: Global,
    pool: &mut PassKit<F>,
    words: &Words,
    streamer: &mut Streamer,
    shot: &Shot<'_>,
) -> bool
    requires idle { IsIdleKit F.File words.now streamer.old pool.old }
    requires journal { streamer.old.writer.journal ≡ MapEntry 4 0 ∷ [] }
    requires pages { pages_of streamer.old.shape ≡ 5 }
    requires frames { length streamer.old.owners ≡ 3 }
    requires entries { pool.old.streams.crew.batch ≡ 2 }
    requires job { IsJobFor (kit_setup F.File words.now pool.old) (job_of shot.now []) }
{
    let Ok(batch) = two_pages(alloc) else {
        return false;
    };
    let none = Items::new(alloc);
    runs(rt, alloc, pool, words, streamer, shot, &batch, &LOADS_ONE)
        && runs(rt, alloc, pool, words, streamer, shot, &none, &LOADS_NONE)
}

// Places the root, and runs the passes.
fn place_and_run<Rt: Threads + Wait + Sync, F: File + Send>(
    rt: &Rt,
    alloc: Global,
    pool: &mut PassKit<F>,
    words: &Words,
    streamer: &mut Streamer,
    shot: &Shot<'_>,
    tile: &[u8],
) -> bool
    requires idle { IsIdleKit F.File words.now streamer.old pool.old }
    requires journal { streamer.old.writer.journal ≡ [] }
    requires pages { pages_of streamer.old.shape ≡ 5 }
    requires frames { length streamer.old.owners ≡ 3 }
    requires entries { pool.old.streams.crew.batch ≡ 2 }
    requires job { IsJobFor (kit_setup F.File words.now pool.old) (job_of shot.now []) }
    requires depth { pool.old.streams.depth ≡ 1 }
    requires size { length tile.now ≡ tile_length pool.old.streams.shape 1 }
    requires tile { IfSome (known_bytes F.File pool.old.streams.stores) (λ b. IsPiece b (tile_start pool.old.streams.shape 1 4) tile.now) }
{
    place(words, streamer, 4, tile) && run_both(rt, alloc, pool, words, streamer, shot)
}

// Makes words of three frames and a pool over the store of a folder, and runs the passes.
fn drive<Rt: Abort + Threads + Wait + Sync, D: Folder>(
    rt: &Rt,
    alloc: Global,
    folder: &mut D,
    path: &Path,
) -> bool {
    let mut tile = [0; 12];
    let store = open_with_root(rt, folder, "s", &mut tile);
    let geometry = store.geometry();
    assert!(rt; path.pictures() > 0);
    let shot = Shot {
        geometry: &geometry,
        path,
        picture: 0,
        depth: 1,
    };
    let crew = Crew {
        samplers: 1,
        loaders: 1,
        batch: 2,
    };
    let stores = one_store(rt, alloc, store);
    let Ok((words, mut streamer)) = Streamer::new(alloc, &geometry, 3, 1) else {
        panic!(rt; "no words");
    };
    match PassKit::new(alloc, &geometry, path, &crew, 1, stores) {
        Ok(mut pool) => {
            let right = place_and_run(rt, alloc, &mut pool, &words, &mut streamer, &shot, &tile);
            close_all(folder, pool.end());
            right
        }
        Err((stores, _)) => {
            close_all(folder, stores);
            false
        }
    }
}

// The places of the store that are asked.
const ASKED: &[Place] = &[
    HEADER,
    ROOT_TILE,
    TILE_0,
    Place {
        failed: true,
        ..TILE_2
    },
];

/// Runs passes over the store of a folder with words and a streamer of their own: whether all came of it that was to come.
pub fn passes_come<Rt: Abort + Threads + Wait + Sync>(
    rt: &Rt,
    alloc: Global,
    folder: &mut MemoryFolder,
    path: &Path,
) -> bool {
    drive(rt, alloc, folder, path) && folder.was_asked("s", ASKED)
}

// Page 2 is lost.
static LOST: [Case<'static>; 1] = [Case {
    store: &FOUR,
    path: ONE_PICTURE,
    fails: &[Fail::Read {
        opening: 0,
        read: 3,
    }],
    deed: Deed::Passes,
}];

#[test]
fn passes_run_over_words_of_their_caller(rt: HostRuntime) {
    check(&rt, rt.alloc(), &LOST);
}
