//! Results that come in any order are streamed, and what they leave is told.

ghost use Rattle.std.specs.Prelude.{◌≡◌, ◌≤◌, ◌<◌, ◌^◌, false, length, IfOk};
ghost use Rattle.std.specs.Bool.{MatchBool};
ghost use Rattle.vt_grace.specs.WriterViews.{is_out};
ghost use Rattle.vt_grace.specs.Tokens.{IsPassOf};
ghost use Rattle.vt_queue.specs.Queues.{IsPassOfQueue};
ghost use Rattle.vt_requests.specs.BlankReports.{IsBlank};
ghost use Rattle.vt_tests_words.specs.SmallStreams.{IsSmallStreamer};

use crate::streamer::beside::read_page;
use crate::streamer::lawful::is_lawful;
use crate::streamer::small::{mapped, small_streamer};
use std::alloc::Global;
use std::sync::Wait;
use std::thread::Threads;
use vt_evict::{Losses, Planned};
use vt_grace::{Pass, Words};
use vt_journal::{Change, Event, Journal};
use vt_outside::{Bytes, Items, NoMemory, OpenGate};
use vt_pages::Geometry;
use vt_queue::{Loaded, Outcome, Queue, QueuePass, Request, ResultQueue};
use vt_requests::StreamReport;
use vt_streamer::Streamer;
use vt_streaming::stream_batch;

// Tiles of four texels, of one-byte samples and of two-byte ones.
const TILE: [u8; 12] = [1, 2, 3, 4, 5, 6, 7, 8, 9, 10, 11, 12];

const OTHER_TILE: [u8; 12] = [0; 12];

const WIDE_TILE: [u8; 24] = [
    0, 1, 0, 2, 0, 3, 0, 4, 0, 5, 0, 6, 0, 7, 0, 8, 0, 9, 0, 10, 1, 0, 2, 0,
];

// Page 1 gets the frame of page 0, and the pages 2 and 3 get free frames.
const BATCH: [Planned; 3] = [
    Planned {
        page: 1,
        frame: 1,
        victim: Some(0),
    },
    Planned {
        page: 2,
        frame: 2,
        victim: None,
    },
    Planned {
        page: 3,
        frame: 3,
        victim: None,
    },
];

// What the results of the tickets 2, 1 and 0 tell, where ticket 1 is lost.
const EVENTS: [Event; 4] = [
    Event::Changed(Change::Map { page: 3, frame: 3 }),
    Event::Lost { page: 2 },
    Event::Changed(Change::Unmap { page: 0, frame: 1 }),
    Event::Changed(Change::Map { page: 1, frame: 1 }),
];

const CHANGES: [Change; 5] = [
    Change::Map { page: 4, frame: 0 },
    Change::Map { page: 0, frame: 1 },
    Change::Map { page: 3, frame: 3 },
    Change::Unmap { page: 0, frame: 1 },
    Change::Map { page: 1, frame: 1 },
];

// Whether a result was put, for the page that has the ticket's number and 1 more.
fn is_put<Rt: Threads + Wait>(
    rt: &Rt,
    alloc: Global,
    results: &ResultQueue,
    answers: &mut QueuePass<Loaded>,
    ticket: u32,
    tile: &[u8],
    outcome: Outcome,
) -> bool
    requires ticket { ticket < 2 ^ 16 }
    requires of { IsPassOfQueue results.now answers.old }
    ensures { IsPassOfQueue results.now answers.new }
{
    let Ok(buffer) = Bytes::from_slice(alloc, tile) else {
        return false;
    };
    let request = Request {
        ticket,
        page: ticket + 1,
        buffer,
    };
    results
        .put(rt, answers, Loaded { request, outcome })
        .is_ok()
}

// Whether results were put: of a ticket that is too high, of another length, twice for ticket 2, and those of the tickets
// 1 and 0.
fn are_put<Rt: Threads + Wait>(
    rt: &Rt,
    alloc: Global,
    results: &ResultQueue,
    answers: &mut QueuePass<Loaded>,
) -> bool
    requires { IsPassOfQueue results.now answers.old }
    ensures { IsPassOfQueue results.now answers.new }
{
    let high = is_put(rt, alloc, results, answers, 3, &OTHER_TILE, Outcome::Read);
    let short = is_put(
        rt,
        alloc,
        results,
        answers,
        2,
        &OTHER_TILE[0..11],
        Outcome::Read,
    );
    let third = is_put(rt, alloc, results, answers, 2, &TILE, Outcome::Read);
    let second = is_put(rt, alloc, results, answers, 1, &OTHER_TILE, Outcome::Lost);
    let again = is_put(rt, alloc, results, answers, 2, &OTHER_TILE, Outcome::Lost);
    let first = is_put(rt, alloc, results, answers, 0, &WIDE_TILE, Outcome::Read);
    high && short && third && second && again && first
}

// A report of three entries, with room.
fn blank_report(alloc: Global) -> Result<StreamReport, NoMemory>
    ensures { IfOk result (IsBlank 3) }
{
    let mut events = Items::new(alloc);
    events.reserve(6)?;
    let mut results = Items::new(alloc);
    results.reserve(3)?;
    Ok(StreamReport {
        events,
        losses: Losses::from_slice(alloc, &[false; 3])?,
        taken: Losses::from_slice(alloc, &[false; 3])?,
        results,
    })
}

// Whether these are all the changes of a journal.
fn has_changes(journal: &Journal, changes: &[Change]) -> bool {
    if journal.version() != changes.len() as u64 {
        return false;
    }
    for i in 0..changes.len() {
        if journal.change(i as u64 + 1) != changes[i] {
            return false;
        }
    }
    true
}

// Whether the results have these tickets.
fn have_tickets(results: &[Loaded], tickets: &[u32]) -> bool {
    if results.len() != tickets.len() {
        return false;
    }
    for i in 0..results.len() {
        if results[i].request.ticket != tickets[i] {
            return false;
        }
    }
    true
}

// Whether a report tells what it should.
fn is_told(report: &StreamReport) -> bool {
    report.events.slice() == &EVENTS[..]
        && report.losses.slice() == &[false, true, false][..]
        && report.taken.slice() == &[true; 3][..]
        && have_tickets(report.results.slice(), &[2, 1, 0])
}

// Whether a sampler sees the pages 1 and 3 with the last texels of their tiles, and the pages 0 and 2 not.
fn is_seen(words: &Words, pass: Pass) -> (Pass, bool)
    requires of { IsPassOf words.now pass }
    requires pages { words.now.sizes.pages ≡ 5 }
    requires texels { 3 < words.now.sizes.texels }
    ensures { IsPassOf words.now result.0 }
{
    let mut held = pass.pin(words);
    let first = read_page(words, &mut held, 0);
    let second = read_page(words, &mut held, 1);
    let third = read_page(words, &mut held, 2);
    let fourth = read_page(words, &mut held, 3);
    let is_so = first == (0, 0)
        && second == (2, 0xa_0100_0200)
        && third == (0, 0)
        && fourth == (4, 0xa_0b0c);
    (held.unpin(words), is_so)
}

// Makes room for the changes of three entries.
fn is_ready(words: &Words, streamer: &mut Streamer) -> bool
    requires { IsSmallStreamer words.now 4 streamer.old }
    ensures small { IsSmallStreamer words.now 4 streamer.new }
    ensures room { MatchBool result (6 ≤ streamer.new.spare) (Unit {0}) }
{
    if streamer.journal().version() > 1_000_000_000 {
        return false;
    }
    streamer.reserve(6).is_ok()
}

// Streams the batch from a queue that has its results.
fn is_streamed<Rt: Threads + Wait>(
    rt: &Rt,
    alloc: Global,
    words: &Words,
    streamer: &mut Streamer,
    report: &mut StreamReport,
) -> bool
    requires small { IsSmallStreamer words.now 4 streamer.old }
    requires report { IsBlank 3 report.old }
    ensures { IsSmallStreamer words.now 4 streamer.new }
{
    let Ok((results, mut answers)) = Queue::new(alloc, 6) else {
        return false;
    };
    if !are_put(rt, alloc, &results, &mut answers) || !is_ready(words, streamer) {
        return false;
    }
    if !is_lawful(words, streamer, 4, &BATCH) {
        return false;
    }
    stream_batch(
        rt,
        words,
        streamer,
        &results,
        &mut answers,
        &BATCH,
        report,
        &OpenGate,
    );
    true
}

// Whether it is so in words of which a sampler has a pass, where the root is in frame 0 and page 0 in frame 1.
fn is_true<Rt: Threads + Wait>(
    rt: &Rt,
    alloc: Global,
    words: &Words,
    streamer: &mut Streamer,
) -> bool
    requires small { IsSmallStreamer words.now 4 streamer.old }
    requires samplers { words.now.sizes.samplers ≡ 1 }
    requires none_out { is_out streamer.old.writer 0 ≡ false }
{
    let Ok(mut report) = blank_report(alloc) else {
        return false;
    };
    let pass = streamer.give_pass(words, 0);
    let _root = mapped(words, streamer, 4, 4, 0, &OTHER_TILE);
    let _first = mapped(words, streamer, 4, 0, 1, &OTHER_TILE);
    let is_done = is_streamed(rt, alloc, words, streamer, &mut report);
    let (pass, is_so) = is_seen(words, pass);
    streamer.take_back(words, pass);
    is_done && is_so && is_told(&report) && has_changes(streamer.journal(), &CHANGES)
}

// Whether it is so in a table of 4 frames.
fn is_right<Rt: Threads + Wait>(rt: &Rt, alloc: Global) -> bool {
    let Ok(geometry) = Geometry::new(4, 4, 2) else {
        return false;
    };
    if geometry.page_count() != 5 || geometry.tile() != 2 {
        return false;
    }
    let Ok((words, mut streamer)) = small_streamer(alloc, &geometry, 4) else {
        return false;
    };
    is_true(rt, alloc, &words, &mut streamer)
}

#[test]
fn results_in_any_order_are_streamed_and_told(rt: HostRuntime) {
    assert!(&rt; is_right(&rt, rt.alloc()));
}
