//! Calls of a small streamer that look first whether they may be made.

ghost use Rattle.std.specs.Prelude.{◌≡◌, ◌≢◌, ◌≤◌, ◌<◌, Some, None, IfOk, length, false};
ghost use Rattle.std.specs.Bool.{MatchBool};
ghost use Rattle.vt_pages.specs.Pages.{pages_of};
ghost use Rattle.vt_journal.specs.Changes.{newest, IsFree};
ghost use Rattle.vt_grace.specs.WriterViews.{is_out};
ghost use Rattle.vt_streamer.specs.Views.{StreamerView};
ghost use Rattle.vt_tests_words.specs.SmallStreams.{IsSmallStreamer};

use std::alloc::Global;
use vt_grace::Words;
use vt_journal::Change;
use vt_outside::NoMemory;
use vt_pages::Geometry;
use vt_streamer::{Streamer, Waiting};

/// The words and the streamer of so many frames and one sampler, with no page mapped.
pub(crate) fn small_streamer(
    alloc: Global,
    geometry: &Geometry,
    frames: u32,
) -> Result<(Words, Streamer), NoMemory>
    requires tile { geometry.now.tile ≡ 2 }
    requires pages { pages_of geometry.now ≡ 5 }
    requires some_frame { 1 ≤ frames }
    requires few_frames { frames ≤ 5 }
    ensures small { IfOk result (λ made. IsSmallStreamer made.0 frames made.1) }
    ensures samplers { IfOk result (λ made. made.0.sizes.samplers ≡ 1) }
    ensures none_out { IfOk result (λ made. is_out made.1.writer 0 ≡ false) }
    ensures shape { IfOk result (λ made. made.1.shape ≡ geometry.now) }
{
    Streamer::new(alloc, geometry, frames, 1)
}

/// Whether a page is mapped to a frame.
pub(crate) fn is_mapped_to(streamer: &Streamer, page: u32, frame: u32) -> bool
    requires { page < pages_of streamer.now.shape }
    ensures { MatchBool result (newest streamer.now.writer.journal page ≡ Some frame) (newest streamer.now.writer.journal page ≢ Some frame) }
{
    streamer.frame_of(page) == Some(frame)
}

/// Whether a page is not mapped.
pub(crate) fn is_unmapped(streamer: &Streamer, page: u32) -> bool
    requires { page < pages_of streamer.now.shape }
    ensures { MatchBool result (newest streamer.now.writer.journal page ≡ None) (newest streamer.now.writer.journal page ≢ None) }
{
    streamer.frame_of(page).is_none()
}

/// Whether no page is mapped to a frame.
pub(crate) fn is_unused(words: &Words, streamer: &Streamer, frames: u32, frame: u32) -> bool
    requires { IsSmallStreamer words.now frames streamer.now }
    ensures { MatchBool result (IsFree (newest streamer.now.writer.journal) frame) (Unit {0}) }
{
    for page in 0..5 {
        if is_mapped_to(streamer, page, frame) {
            return false;
        }
    }
    true
}

// Makes room for a change.
fn is_reserved(streamer: &mut Streamer) -> bool
    ensures rest { streamer.new ≡ record streamer.old { spare = streamer.new.spare } }
    ensures room { MatchBool result (1 ≤ streamer.new.spare) (Unit {0}) }
{
    if streamer.journal().version() > 1_000_000_000 {
        return false;
    }
    streamer.reserve(1).is_ok()
}

/// The result of freeing a frame, if no page is mapped to it.
pub(crate) fn freed(
    words: &Words,
    streamer: &mut Streamer,
    frames: u32,
    frame: u32,
) -> Option<Result<(), Waiting>>
    requires small { IsSmallStreamer words.now frames streamer.old }
    requires inside { frame < frames }
    ensures { IsSmallStreamer words.now frames streamer.new }
{
    if !is_unused(words, streamer, frames, frame) {
        return None;
    }
    Some(streamer.try_free(words, frame))
}

/// The result of mapping a page to a frame, with a tile that is filled in, if both are free.
pub(crate) fn mapped(
    words: &Words,
    streamer: &mut Streamer,
    frames: u32,
    page: u32,
    frame: u32,
    tile: &[u8],
) -> Option<Result<u64, Waiting>>
    requires small { IsSmallStreamer words.now frames streamer.old }
    requires page { page < 5 }
    requires inside { frame < frames }
    requires tile { length tile.now ≡ 12 }
    ensures small { IsSmallStreamer words.now frames streamer.new }
    ensures out { streamer.new.writer.out ≡ streamer.old.writer.out }
{
    if !is_unused(words, streamer, frames, frame) || !is_unmapped(streamer, page) {
        return None;
    }
    if let Err(waiting) = streamer.try_free(words, frame) {
        return Some(Err(waiting));
    }
    streamer.fill(words, frame, page, tile);
    if !is_reserved(streamer) {
        return None;
    }
    Some(streamer.try_publish(words, Change::Map { page, frame }))
}

/// The result of unmapping a page that is not the root, if it is mapped to the frame.
pub(crate) fn unmapped(
    words: &Words,
    streamer: &mut Streamer,
    frames: u32,
    page: u32,
    frame: u32,
) -> Option<Result<u64, Waiting>>
    requires small { IsSmallStreamer words.now frames streamer.old }
    requires page { page < 4 }
    requires inside { frame < frames }
    ensures { IsSmallStreamer words.now frames streamer.new }
{
    if !is_mapped_to(streamer, page, frame) {
        return None;
    }
    if !is_reserved(streamer) {
        return None;
    }
    Some(streamer.try_publish(words, Change::Unmap { page, frame }))
}
