//! Whether a batch may be streamed into a small table.

ghost use Rattle.std.specs.Prelude.{ℕ, ◌<◌, All, AllPairs, MatchOption, length, slice_index_or};
ghost use Rattle.std.specs.Bool.{MatchBool};
ghost use Rattle.vt_journal.specs.Changes.{newest, IsFree};
ghost use Rattle.vt_evict.specs.PlanTypes.batches.Planned.{Planned as Entry};
ghost use Rattle.vt_streaming.specs.Outcomes.{IsEntryFor, IsVictimOf, IsBatchFor};
ghost use Rattle.vt_tests_words.specs.SmallStreams.{IsSmallStreamer, AreOther};

use crate::streamer::small::{is_mapped_to, is_unmapped, is_unused};
use vt_evict::Planned;
use vt_grace::Words;
use vt_streamer::Streamer;

// Whether a page that is not the root is mapped to a frame.
fn is_victim(words: &Words, streamer: &Streamer, frames: u32, frame: u32, page: u32) -> bool
    requires { IsSmallStreamer words.now frames streamer.now }
    ensures { MatchBool result (IsVictimOf streamer.now.shape (newest streamer.now.writer.journal) frame page)
        (Unit {0}) }
{
    page < 4 && is_mapped_to(streamer, page, frame)
}

// Whether an entry's frame is its victim's, or free.
fn has_place(words: &Words, streamer: &Streamer, frames: u32, planned: &Planned) -> bool
    requires { IsSmallStreamer words.now frames streamer.now }
    ensures { MatchBool result (MatchOption planned.now.victim
        (IsFree (newest streamer.now.writer.journal) planned.now.frame)
        (IsVictimOf streamer.now.shape (newest streamer.now.writer.journal) planned.now.frame)) (Unit {0}) }
{
    match planned.victim {
        None => is_unused(words, streamer, frames, planned.frame),
        Some(page) => is_victim(words, streamer, frames, planned.frame, page),
    }
}

// Whether an entry is lawful.
fn is_entry(words: &Words, streamer: &Streamer, frames: u32, planned: &Planned) -> bool
    requires { IsSmallStreamer words.now frames streamer.now }
    ensures { MatchBool result (IsEntryFor streamer.now.shape frames (newest streamer.now.writer.journal) planned.now)
        (Unit {0}) }
{
    planned.page < 5
        && planned.frame < frames
        && is_unmapped(streamer, planned.page)
        && has_place(words, streamer, frames, planned)
}

// Whether each entry is lawful.
fn are_entries(words: &Words, streamer: &Streamer, frames: u32, batch: &[Planned]) -> bool
    requires { IsSmallStreamer words.now frames streamer.now }
    ensures { MatchBool result (All (IsEntryFor streamer.now.shape frames (newest streamer.now.writer.journal)) batch.now)
        (Unit {0}) }
{
    for i in 0..batch.len() {
        if !is_entry(words, streamer, frames, &batch[i]) {
            return false;
        }
    }
    true
}

// Whether two entries have other pages and other frames.
fn are_other(first: &Planned, second: &Planned) -> bool
    ensures { MatchBool result (AreOther first.now second.now) (Unit {0}) }
{
    first.page != second.page && first.frame != second.frame
}

// Whether an entry has another page and another frame than those before it.
fn is_apart(batch: &[Planned], place: usize) -> bool
    requires { place < length batch.now }
    ensures { MatchBool result ((i : ℕ) (d : Entry) → i < place
        → AreOther (slice_index_or batch.now i d) (slice_index_or batch.now place d)) (Unit {0}) }
{
    for i in 0..place {
        if !are_other(&batch[i], &batch[place]) {
            return false;
        }
    }
    true
}

// Whether no two entries have one page or one frame.
fn are_apart(batch: &[Planned]) -> bool
    ensures { MatchBool result (AllPairs AreOther batch.now) (Unit {0}) }
{
    for place in 0..batch.len() {
        if !is_apart(batch, place) {
            return false;
        }
    }
    true
}

/// Whether a batch is lawful for the newest version.
pub(crate) fn is_lawful(words: &Words, streamer: &Streamer, frames: u32, batch: &[Planned]) -> bool
    requires { IsSmallStreamer words.now frames streamer.now }
    ensures { MatchBool result (IsBatchFor streamer.now.shape (length streamer.now.owners)
        (newest streamer.now.writer.journal) batch.now)
        (Unit {0}) }
{
    are_entries(words, streamer, frames, batch) && are_apart(batch)
}
