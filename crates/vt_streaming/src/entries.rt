//! Entries of a batch that are put into the words.

ghost use Rattle.std.specs.Prelude.{◌≡◌, ◌+◌, ◌<◌, ◌≤◌, false, None, [], ◌∷◌, length};
ghost use Rattle.vt_journal.specs.Pages.{pages_of};
ghost use Rattle.vt_journal.specs.declared.changes.Change.TheVariants.{Map};
ghost use Rattle.vt_journal.specs.declared.changes.Event.TheVariants.{Changed};
ghost use Rattle.vt_journal.specs.Changes.{newest, IsFree};
ghost use Rattle.vt_streamer.specs.TableViews.{IsTile};
ghost use Rattle.vt_streamer.specs.Fills.{words_in};
ghost use Rattle.vt_streamer.specs.Views.{IsStreamerOf};
ghost use Rattle.vt_requests.specs.Outcomes.{IsEntryFor, group_of, victim_events};
ghost use Rattle.vt_streaming.specs.Made.{HasMade, victim_contents, group_contents};

use crate::waits::{free_frame, publish};
use std::sync::Wait;
use vt_journal::Change;
use vt_outside::{Gate, Point};
use vt_requests::Planned;
use vt_streamer::{Streamer, Words};

// Unmaps an entry's victim, if it has one.
fn unmap_victim<Rt: Wait, G: Gate>(
    rt: &Rt,
    words: &Words,
    streamer: &mut Streamer,
    planned: &Planned,
    gate: &G,
)
    requires of { IsStreamerOf words.now streamer.old }
    requires entry { IsEntryFor streamer.old.shape (length streamer.old.owners) (newest streamer.old.writer.journal)
        planned.now }
    requires spare { 1 ≤ streamer.old.spare }
    ensures of { IsStreamerOf words.now streamer.new }
    ensures made { HasMade (victim_events planned.now.victim planned.now.frame) (victim_contents planned.now.victim)
        streamer.old.writer streamer.new.writer }
    ensures shape { streamer.new.shape ≡ streamer.old.shape }
    ensures spare { streamer.old.spare ≤ streamer.new.spare + 1 }
{
    let Some(victim) = planned.victim else {
        return;
    };
    let change = Change::Unmap {
        page: victim,
        frame: planned.frame,
    };
    let version = publish(rt, words, streamer, change);
    gate.at(Point::Published { version });
}

/// Fills a frame with the tile of a page, once no sampler may look at it any more, and maps the page to it; tells the version.
pub fn map_page<Rt: Wait>(
    rt: &Rt,
    words: &Words,
    streamer: &mut Streamer,
    page: u32,
    frame: u32,
    tile: &[u8],
) -> u64
    requires of { IsStreamerOf words.now streamer.old }
    requires page { page < pages_of streamer.old.shape }
    requires unmapped { newest streamer.old.writer.journal page ≡ None }
    requires frame { frame < length streamer.old.owners }
    requires free { IsFree (newest streamer.old.writer.journal) frame }
    requires tile { IsTile streamer.old.shape tile.now }
    requires spare { 1 ≤ streamer.old.spare }
    ensures of { IsStreamerOf words.now streamer.new }
    ensures version { result ≡ length streamer.new.writer.journal }
    ensures made { HasMade (Changed (Map page frame) ∷ [])
        (words_in streamer.old.shape tile.now ∷ []) streamer.old.writer streamer.new.writer }
    ensures shape { streamer.new.shape ≡ streamer.old.shape }
    ensures spare { streamer.old.spare ≤ streamer.new.spare + 1 }
{
    free_frame(rt, words, streamer, frame);
    streamer.fill(words, frame, page, tile);
    publish(rt, words, streamer, Change::Map { page, frame })
}

/// Puts the page of an entry in the place of its victim, if it has one.
pub fn put_entry<Rt: Wait, G: Gate>(
    rt: &Rt,
    words: &Words,
    streamer: &mut Streamer,
    planned: &Planned,
    tile: &[u8],
    gate: &G,
)
    requires of { IsStreamerOf words.now streamer.old }
    requires entry { IsEntryFor streamer.old.shape (length streamer.old.owners) (newest streamer.old.writer.journal)
        planned.now }
    requires tile { IsTile streamer.old.shape tile.now }
    requires spare { 2 ≤ streamer.old.spare }
    ensures of { IsStreamerOf words.now streamer.new }
    ensures made { HasMade (group_of planned.now false) (group_contents streamer.old.shape planned.now false tile.now)
        streamer.old.writer streamer.new.writer }
    ensures shape { streamer.new.shape ≡ streamer.old.shape }
    ensures spare { streamer.old.spare ≤ streamer.new.spare + 2 }
{
    unmap_victim(rt, words, streamer, planned, gate);
    let version = map_page(rt, words, streamer, planned.page, planned.frame, tile);
    gate.at(Point::Published { version });
}
