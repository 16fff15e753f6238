//! A version that is held stays as it is while the pages of a texture are unmapped.

ghost use Rattle.std.specs.Prelude.{◌≡◌, false};
ghost use Rattle.vt_grace.specs.WriterViews.{is_out};
ghost use Rattle.vt_tests_words.specs.SmallStreams.{IsSmallStreamer};

use crate::streamer::small::{freed, mapped, small_streamer, unmapped};
use std::alloc::Global;
use vt_grace::Words;
use vt_pages::Geometry;
use vt_streamer::{Streamer, Waiting};

// A tile of one-byte samples, of four texels.
const TILE: [u8; 12] = [1, 2, 3, 4, 5, 6, 7, 8, 9, 10, 11, 12];

// Whether an answer is this version.
fn is_version(answer: Option<Result<u64, Waiting>>, version: u64) -> bool {
    match answer {
        Some(Ok(found)) => found == version,
        _ => false,
    }
}

// Whether sampler 0 is waited for, which announced version 5.
fn is_behind(waiting: Waiting) -> bool {
    waiting.sampler == 0 && waiting.holds == 5
}

// Whether page 4 is mapped to frame 0 by version 1, and pages 0 to 3 to the frames 1 to 4 by the versions 2 to 5.
fn are_mapped(words: &Words, streamer: &mut Streamer) -> bool
    requires { IsSmallStreamer words.now 5 streamer.old }
    ensures { IsSmallStreamer words.now 5 streamer.new }
{
    let first = mapped(words, streamer, 5, 4, 0, &TILE);
    let second = mapped(words, streamer, 5, 0, 1, &TILE);
    let third = mapped(words, streamer, 5, 1, 2, &TILE);
    let fourth = mapped(words, streamer, 5, 2, 3, &TILE);
    let fifth = mapped(words, streamer, 5, 3, 4, &TILE);
    is_version(first, 1)
        && is_version(second, 2)
        && is_version(third, 3)
        && is_version(fourth, 4)
        && is_version(fifth, 5)
}

// Whether the pages 0, 1 and 2 are unmapped by the versions 6, 7 and 8.
fn are_unmapped(words: &Words, streamer: &mut Streamer) -> bool
    requires { IsSmallStreamer words.now 5 streamer.old }
    ensures { IsSmallStreamer words.now 5 streamer.new }
{
    let first = unmapped(words, streamer, 5, 0, 1);
    let second = unmapped(words, streamer, 5, 1, 2);
    let third = unmapped(words, streamer, 5, 2, 3);
    is_version(first, 6) && is_version(second, 7) && is_version(third, 8)
}

// Whether frame 1 is not free yet and page 3 cannot be unmapped yet.
fn are_waiting(words: &Words, streamer: &mut Streamer) -> bool
    requires { IsSmallStreamer words.now 5 streamer.old }
    ensures { IsSmallStreamer words.now 5 streamer.new }
{
    let first = match freed(words, streamer, 5, 1) {
        Some(Err(waiting)) => is_behind(waiting),
        _ => false,
    };
    let second = match unmapped(words, streamer, 5, 3, 4) {
        Some(Err(waiting)) => is_behind(waiting),
        _ => false,
    };
    first && second
}

// Whether frame 1 is free and page 3 is unmapped by version 9.
fn are_done(words: &Words, streamer: &mut Streamer) -> bool
    requires { IsSmallStreamer words.now 5 streamer.old }
    ensures { IsSmallStreamer words.now 5 streamer.new }
{
    let first = match freed(words, streamer, 5, 1) {
        Some(Ok(())) => true,
        _ => false,
    };
    let second = unmapped(words, streamer, 5, 3, 4);
    first && is_version(second, 9)
}

// Whether a sampler that holds version 5 is waited for, reads of it what it says, and is waited for no more once it holds nothing.
fn is_kept(words: &Words, streamer: &mut Streamer) -> bool
    requires small { IsSmallStreamer words.now 5 streamer.old }
    requires samplers { words.now.sizes.samplers ≡ 1 }
    requires none_out { is_out streamer.old.writer 0 ≡ false }
{
    let pass = streamer.give_pass(words, 0);
    let are_first = are_mapped(words, streamer);
    let mut held = pass.pin(words);
    let version = held.version();
    let are_next = are_unmapped(words, streamer);
    let is_waiting = are_waiting(words, streamer);
    let entry = held.entry(words, 0);
    let pass = held.unpin(words);
    let is_done = are_done(words, streamer);
    streamer.take_back(words, pass);
    are_first && version == 5 && are_next && is_waiting && entry == 2 && is_done
}

// Whether it is so in a table of 5 frames.
fn is_held(alloc: Global) -> bool {
    let Ok(geometry) = Geometry::new(4, 4, 2) else {
        return false;
    };
    if geometry.page_count() != 5 || geometry.tile() != 2 {
        return false;
    }
    let Ok((words, mut streamer)) = small_streamer(alloc, &geometry, 5) else {
        return false;
    };
    is_kept(&words, &mut streamer)
}

#[test]
fn a_version_that_is_held_is_waited_for(rt: HostRuntime) {
    assert!(&rt; is_held(rt.alloc()));
}
