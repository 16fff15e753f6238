//! One thread draws pictures of a texture of 4x4 texels, whose texel (x, y) is 4y+x in each channel, while another maps and unmaps its pages.

ghost use Rattle.std.specs.Prelude.{◌≡◌, ◌<◌, length, true, false, IfOk, IfSome};
ghost use Rattle.vt_grace.specs.Tokens.{IsPassOf};
ghost use Rattle.vt_grace.specs.WriterViews.{is_out};
ghost use Rattle.vt_sampler.specs.Samplers.{IsFor, IsOwn};
ghost use Rattle.vt_tests_words.specs.SmallStreams.{IsSmallStreamer, MayDrawSmall};

use crate::streamer::patient::{comes_in, goes_out};
use crate::streamer::small::{is_mapped_to, small_streamer};
use std::alloc::Global;
use std::thread::{Threads, join};
use vt_camera::{Path, parse_path};
use vt_draw::Shot;
use vt_grace::{Pass, Words};
use vt_journal::{Change, Journal};
use vt_outside::{NoMemory, OpenGate};
use vt_pages::Geometry;
use vt_sampler::Sampler;
use vt_streamer::Streamer;

// How often each picture is drawn.
const ROUNDS: usize = 1_000;

// How many pages are mapped meanwhile.
const CHANGES: u32 = 1_000;

// Two pictures of two pixels that want the pages 2 and 0, and two that want the pages 3 and 1.
const FOUR_PICTURES: &[u8] = b"size 2 1\nfocal 1\nat 0 0 256 16384 0\nat 0 0 256 16384 0\n\
    at 512 0 256 16384 0\nat 512 0 256 16384 0\n";

// The tile of each page: those of the four pages of level 0, and that of the root.
const TILES: [[u8; 12]; 5] = [
    [0, 0, 0, 1, 1, 1, 4, 4, 4, 5, 5, 5],
    [2, 2, 2, 3, 3, 3, 6, 6, 6, 7, 7, 7],
    [8, 8, 8, 9, 9, 9, 12, 12, 12, 13, 13, 13],
    [10, 10, 10, 11, 11, 11, 14, 14, 14, 15, 15, 15],
    [3, 3, 3, 5, 5, 5, 11, 11, 11, 13, 13, 13],
];

// What was drawn of a picture, and at which version.
#[derive(Clone, Copy)]
struct Drawn {
    picture: u32,
    version: u64,
    bytes: [u8; 6],
}

// Maps the pages 0 to 3 in turn, each to the one of the frames 1 and 2 that was not used last, and unmaps the one before.
fn stream(words: &Words, mut streamer: Streamer) -> (Streamer, bool)
    requires { IsSmallStreamer words.now 3 streamer }
    ensures { IsSmallStreamer words.now 3 result.0 }
{
    let mut is_done = true;
    for round in 0..CHANGES {
        let page = round % 4;
        is_done &= comes_in(
            words,
            &mut streamer,
            page,
            1 + round % 2,
            &TILES[page as usize],
        );
        if round > 0 {
            let last = round - 1;
            is_done &= goes_out(words, &mut streamer, last % 4, 1 + last % 2);
        }
    }
    (streamer, is_done)
}

// The first row of a picture that was drawn.
fn drawn_row(sampler: &Sampler, picture: u32) -> Drawn
    requires { IsOwn sampler.now 0 }
{
    let mut bytes = [0; 6];
    let row = sampler.row(0);
    if row.len() == 6 {
        bytes.copy_from_slice(row);
    }
    Drawn {
        picture,
        version: sampler.version(0),
        bytes,
    }
}

// Draws a picture under a hold.
fn draw_one(words: &Words, shot: &Shot, sampler: &mut Sampler, pass: Pass) -> (Pass, Drawn)
    requires may { MayDrawSmall words.now shot.now.geometry.now shot.now.path.now sampler.old pass }
    requires picture { shot.now.picture < length shot.now.path.now.cameras }
    requires depth { shot.now.depth ≡ 1 }
    ensures { MayDrawSmall words.now shot.now.geometry.now shot.now.path.now sampler.new result.0 }
{
    let _some = shot.path.height();
    let pass = sampler.draw(shot, words, pass, &OpenGate);
    (pass, drawn_row(sampler, shot.picture))
}

// Draws the four pictures in turn, as often as there is room for.
fn sample(
    words: &Words,
    geometry: &Geometry,
    path: &Path,
    mut sampler: Sampler,
    mut pass: Pass,
    mut rows: Vec<Drawn>,
) -> (Pass, Vec<Drawn>)
    requires may { MayDrawSmall words.now geometry.now path.now sampler pass }
    requires pictures { length path.now.cameras ≡ 4 }
    ensures { IsPassOf words.now result.0 }
{
    for i in 0..rows.len() {
        let shot = Shot {
            geometry,
            path,
            picture: (i % 4) as u32,
            depth: 1,
        };
        let (idle, drawn) = draw_one(words, &shot, &mut sampler, pass);
        pass = idle;
        rows[i] = drawn;
    }
    (pass, rows)
}

// Which of the pages 0 to 3 are mapped after a change.
fn follow(mapped: &mut [bool; 4], change: Change) {
    match change {
        Change::Map { page, frame: _ } if page < 4 => mapped[page as usize] = true,
        Change::Unmap { page, frame: _ } if page < 4 => mapped[page as usize] = false,
        _ => {}
    }
}

// What a picture is where these of the pages 0 to 3 are mapped: each pixel is of its page's tile or of the root's.
fn picture_over(picture: u32, mapped: [bool; 4]) -> [u8; 6] {
    let (left, right) = if picture < 2 {
        (
            if mapped[2] { 0x0d } else { 0x0b },
            if mapped[0] { 0x01 } else { 0x03 },
        )
    } else {
        (
            if mapped[3] { 0x0f } else { 0x0d },
            if mapped[1] { 0x03 } else { 0x05 },
        )
    };
    [left, left, left, right, right, right]
}

// Whether each row is the replay of the journal at its version. Versions do not fall from row to row.
fn are_replayed(journal: &Journal, rows: &[Drawn]) -> bool {
    let mut mapped = [false; 4];
    let mut version = 0;
    for drawn in rows {
        if drawn.version < version || drawn.version > journal.version() {
            return false;
        }
        for last in version..drawn.version {
            follow(&mut mapped, journal.change(last + 1));
        }
        version = drawn.version;
        if drawn.bytes != picture_over(drawn.picture, mapped) {
            return false;
        }
    }
    true
}

// The streamer and the sampler at once.
fn run_both<R: Threads + Sync>(
    rt: &R,
    words: &Words,
    geometry: &Geometry,
    path: &Path,
    streamer: Streamer,
    sampler: Sampler,
    pass: Pass,
    rows: Vec<Drawn>,
) -> (Streamer, bool, Pass, Vec<Drawn>)
    requires small { IsSmallStreamer words.now 3 streamer }
    requires may { MayDrawSmall words.now geometry.now path.now sampler pass }
    requires pictures { length path.now.cameras ≡ 4 }
    ensures small { IsSmallStreamer words.now 3 result.0 }
    ensures of { IsPassOf words.now result.2 }
{
    let samples = move || -> (Pass, Vec<Drawn>)
        requires { MayDrawSmall words.now geometry.now path.now sampler pass × (length path.now.cameras ≡ 4) }
        ensures { IsPassOf words.entry.now result.0 }
    { sample(words, geometry, path, sampler, pass, rows) };
    let streams = move || -> (Streamer, bool)
        requires { IsSmallStreamer words.now 3 streamer }
        ensures { IsSmallStreamer words.entry.now 3 result.0 }
    { stream(words, streamer) };
    let ((pass, rows), (streamer, is_done)) = join(rt, samples, streams);
    (streamer, is_done, pass, rows)
}

// The pass of sampler 0, if the root is mapped to frame 0.
fn rooted_pass(words: &Words, streamer: &mut Streamer) -> Option<Pass>
    requires small { IsSmallStreamer words.now 3 streamer.old }
    requires samplers { words.now.sizes.samplers ≡ 1 }
    requires none_out { is_out streamer.old.writer 0 ≡ false }
    ensures small { IsSmallStreamer words.now 3 streamer.new }
    ensures of { IfSome result (λ pass. IsPassOf words.now pass) }
    ensures rooted { IfSome result (λ pass. pass.view.rooted ≡ true) }
    ensures own { IfSome result (λ pass. pass.view.sampler ≡ 0) }
{
    if !is_mapped_to(streamer, 4, 0) {
        return None;
    }
    Some(streamer.give_pass(words, 0))
}

// Maps the root to frame 0, and gives the pass of sampler 0 then.
fn first_pass(words: &Words, streamer: &mut Streamer) -> Option<Pass>
    requires small { IsSmallStreamer words.now 3 streamer.old }
    requires samplers { words.now.sizes.samplers ≡ 1 }
    requires none_out { is_out streamer.old.writer 0 ≡ false }
    ensures small { IsSmallStreamer words.now 3 streamer.new }
    ensures of { IfSome result (λ pass. IsPassOf words.now pass) }
    ensures rooted { IfSome result (λ pass. pass.view.rooted ≡ true) }
    ensures own { IfSome result (λ pass. pass.view.sampler ≡ 0) }
{
    if !comes_in(words, streamer, 4, 0, &TILES[4]) {
        return None;
    }
    rooted_pass(words, streamer)
}

// A sampler that draws all rows, and room for what it draws.
fn sampler_and_room(
    alloc: Global,
    geometry: &Geometry,
    path: &Path,
) -> Result<(Sampler, Vec<Drawn>), NoMemory>
    ensures for_it { IfOk result (λ made. IsFor made.0 geometry.now path.now 1) }
    ensures sampler { IfOk result (λ made. made.0.sampler ≡ 0) }
    ensures samplers { IfOk result (λ made. made.0.samplers ≡ 1) }
{
    let blank = Drawn {
        picture: 0,
        version: 0,
        bytes: [0; 6],
    };
    let rows = Vec::from_elem(alloc, blank, 4 * ROUNDS)?;
    Ok((Sampler::new(alloc, 0, 1, path, geometry, 1)?, rows))
}

// Whether all pictures that were drawn beside are those of the journal, in a table of three frames with the root in frame 0.
fn is_true_beside<R: Threads + Sync>(
    rt: &R,
    alloc: Global,
    words: &Words,
    mut streamer: Streamer,
    geometry: &Geometry,
    path: &Path,
) -> bool
    requires small { IsSmallStreamer words.now 3 streamer }
    requires samplers { words.now.sizes.samplers ≡ 1 }
    requires none_out { is_out streamer.writer 0 ≡ false }
    requires shape { streamer.shape ≡ geometry.now }
    requires pictures { length path.now.cameras ≡ 4 }
{
    let Ok((sampler, rows)) = sampler_and_room(alloc, geometry, path) else {
        return false;
    };
    let Some(pass) = first_pass(words, &mut streamer) else {
        return false;
    };
    let (mut streamer, is_done, pass, rows) = run_both(
        rt, words, geometry, path, streamer, sampler, pass, rows,
    );
    streamer.take_back(words, pass);
    is_done && are_replayed(streamer.journal(), &rows)
}

// Whether it is so over the four pages of level 0 and the root.
fn is_true<R: Threads + Sync>(rt: &R, alloc: Global) -> bool {
    let Ok(geometry) = Geometry::new(4, 4, 2) else {
        return false;
    };
    let Ok(path) = parse_path(alloc, FOUR_PICTURES) else {
        return false;
    };
    if geometry.page_count() != 5 || geometry.tile() != 2 || path.pictures() != 4 {
        return false;
    }
    let Ok((words, streamer)) = small_streamer(alloc, &geometry, 3) else {
        return false;
    };
    is_true_beside(rt, alloc, &words, streamer, &geometry, &path)
}

#[test]
fn what_a_sampler_draws_beside_is_the_replay_of_its_versions(rt: HostRuntime) {
    assert!(&rt; is_true(&rt, rt.alloc()));
}
