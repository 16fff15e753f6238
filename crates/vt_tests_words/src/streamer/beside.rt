//! One thread reads rows while another maps and unmaps pages.

ghost use Rattle.std.specs.Prelude.{◌≡◌, ◌<◌, ◌≤◌, length, false};
ghost use Rattle.vt_grace.specs.WriterViews.{is_out};
ghost use Rattle.vt_grace.specs.Tokens.{IsPassOf, IsHeldOf};
ghost use Rattle.vt_tests_words.specs.SmallStreams.{IsSmallStreamer};

use crate::streamer::patient::{comes_in, goes_out};
use crate::streamer::small::small_streamer;
use std::alloc::Global;
use std::thread::{Threads, join};
use vt_grace::{Held, Pass, Words};
use vt_journal::{Change, Journal};
use vt_pages::Geometry;
use vt_streamer::Streamer;

// How many pages are mapped and unmapped, and how many rows are read.
const ROUNDS: u64 = 10_000;

const ROWS: usize = 40_000;

// What a row read under one hold: of each of the pages 0 to 3 the entry, and a word of its frame.
#[derive(Clone, Copy)]
struct Seen {
    version: u64,
    entries: [u64; 4],
    words: [u64; 4],
}

// The tile of a round: four texels, whose word is the round.
fn tile_of(round: u64) -> [u8; 12] {
    let high = (round / 256 % 256) as u8;
    let low = (round % 256) as u8;
    [0, high, low, 0, high, low, 0, high, low, 0, high, low]
}

// Maps and unmaps the pages 0 to 3 in turn, each to the one of the frames 1 and 2 that was not used last. Round r is mapped by version 2r + 2.
fn stream(words: &Words, mut streamer: Streamer) -> (Streamer, bool)
    requires { IsSmallStreamer words.now 3 streamer }
    ensures { IsSmallStreamer words.now 3 result.0 }
{
    let mut is_done = true;
    for round in 0..ROUNDS {
        let page = (round % 4) as u32;
        let frame = 1 + (round % 2) as u32;
        is_done &= comes_in(words, &mut streamer, page, frame, &tile_of(round));
        is_done &= goes_out(words, &mut streamer, page, frame);
    }
    (streamer, is_done)
}

/// Reads the entry of a page, and the last word of its frame where it is mapped.
pub(crate) fn read_page(words: &Words, held: &mut Held, page: u32) -> (u64, u64)
    requires of { IsHeldOf words.now held.old }
    requires page { page < words.now.sizes.pages }
    requires texels { 3 < words.now.sizes.texels }
    ensures { IsHeldOf words.now held.new }
{
    let entry = held.entry(words, page);
    if entry == 0 {
        return (0, 0);
    }
    let frame = (entry - 1) as u32;
    (entry, held.word(words, frame, 3))
}

// Reads a row under one hold.
fn read_row(words: &Words, pass: Pass) -> (Pass, Seen)
    requires of { IsPassOf words.now pass }
    requires pages { words.now.sizes.pages ≡ 5 }
    requires texels { 3 < words.now.sizes.texels }
    ensures { IsPassOf words.now result.0 }
{
    let mut held = pass.pin(words);
    let version = held.version();
    let first = read_page(words, &mut held, 0);
    let second = read_page(words, &mut held, 1);
    let third = read_page(words, &mut held, 2);
    let fourth = read_page(words, &mut held, 3);
    let seen = Seen {
        version,
        entries: [first.0, second.0, third.0, fourth.0],
        words: [first.1, second.1, third.1, fourth.1],
    };
    (held.unpin(words), seen)
}

// Reads as many rows as there is room for.
fn sample(words: &Words, mut pass: Pass, mut rows: Vec<Seen>) -> (Pass, Vec<Seen>)
    requires of { IsPassOf words.now pass }
    requires pages { words.now.sizes.pages ≡ 5 }
    requires texels { 3 < words.now.sizes.texels }
    ensures { IsPassOf words.now result.0 }
{
    for row in 0..rows.len() {
        let (idle, seen) = read_row(words, pass);
        pass = idle;
        rows[row] = seen;
    }
    (pass, rows)
}

// What the pages 0 to 3 show after a change that made a version.
fn follow(shown: &mut Seen, change: Change, version: u64) {
    match change {
        Change::Map { page, frame } if page < 4 => {
            shown.entries[page as usize] = u64::from(frame) + 1;
            shown.words[page as usize] = (version / 2).saturating_sub(1);
        }
        Change::Unmap { page, frame: _ } if page < 4 => {
            shown.entries[page as usize] = 0;
            shown.words[page as usize] = 0;
        }
        _ => {}
    }
}

// Whether each row is the replay of the journal at its version. Versions do not fall from row to row.
fn are_replayed(journal: &Journal, rows: &[Seen]) -> bool {
    let mut shown = Seen {
        version: 0,
        entries: [0; 4],
        words: [0; 4],
    };
    for seen in rows {
        if seen.version < shown.version || seen.version > journal.version() {
            return false;
        }
        for version in shown.version..seen.version {
            follow(&mut shown, journal.change(version + 1), version + 1);
        }
        shown.version = seen.version;
        if seen.entries != shown.entries || seen.words != shown.words {
            return false;
        }
    }
    true
}

// The streamer and the sampler at once.
fn run_both<R: Threads + Sync>(
    rt: &R,
    words: &Words,
    streamer: Streamer,
    pass: Pass,
    rows: Vec<Seen>,
) -> (Streamer, bool, Pass, Vec<Seen>)
    requires small { IsSmallStreamer words.now 3 streamer }
    requires of { IsPassOf words.now pass }
    ensures small { IsSmallStreamer words.now 3 result.0 }
    ensures of { IsPassOf words.now result.2 }
{
    let samples = move || -> (Pass, Vec<Seen>)
        requires { IsPassOf words.now pass × (words.now.sizes.pages ≡ 5) × (3 < words.now.sizes.texels) }
        ensures { IsPassOf words.entry.now result.0 }
    { sample(words, pass, rows) };
    let streams = move || -> (Streamer, bool)
        requires { IsSmallStreamer words.now 3 streamer }
        ensures { IsSmallStreamer words.entry.now 3 result.0 }
    { stream(words, streamer) };
    let ((pass, rows), (streamer, is_done)) = join(rt, samples, streams);
    (streamer, is_done, pass, rows)
}

// Whether all rows that were read beside are true of the journal, in a table of three frames with the root in frame 0.
fn is_true_beside<R: Threads + Sync>(
    rt: &R,
    alloc: Global,
    words: &Words,
    mut streamer: Streamer,
) -> bool
    requires small { IsSmallStreamer words.now 3 streamer }
    requires samplers { words.now.sizes.samplers ≡ 1 }
    requires none_out { is_out streamer.writer 0 ≡ false }
{
    if !comes_in(words, &mut streamer, 4, 0, &tile_of(0)) {
        return false;
    }
    let blank = Seen {
        version: 0,
        entries: [0; 4],
        words: [0; 4],
    };
    let Ok(rows) = Vec::from_elem(alloc, blank, ROWS) else {
        return false;
    };
    let pass = streamer.give_pass(words, 0);
    let (mut streamer, is_done, pass, rows) = run_both(rt, words, streamer, pass, rows);
    streamer.take_back(words, pass);
    is_done && are_replayed(streamer.journal(), &rows)
}

// Whether it is so in a table of 3 frames.
fn is_true<R: Threads + Sync>(rt: &R, alloc: Global) -> bool {
    let Ok(geometry) = Geometry::new(4, 4, 2) else {
        return false;
    };
    if geometry.page_count() != 5 || geometry.tile() != 2 {
        return false;
    }
    let Ok((words, streamer)) = small_streamer(alloc, &geometry, 3) else {
        return false;
    };
    is_true_beside(rt, alloc, &words, streamer)
}

#[test]
fn what_a_sampler_reads_beside_is_the_replay_of_its_version(rt: HostRuntime) {
    assert!(&rt; is_true(&rt, rt.alloc()));
}
