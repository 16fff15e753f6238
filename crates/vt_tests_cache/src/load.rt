//! Loaders over stores in memory.

ghost use Rattle.vt_queue.specs.Queues.{IsPassOfQueue};

use crate::checks::holds;
use std::alloc::Global;
use std::sync::Wait;
use std::thread::Threads;
use vt_load::*;
use vt_outside::{Bytes, Fail, Fails, Folder, MemoryFile, MemoryFolder, OpenGate, Place};
use vt_queue::{Loaded, Outcome, QueuePass, Request, RequestQueue, ResultQueue};
use vt_tiles::Store;

mod beside;

// The store, with tiles of side 2, of a texture of 4 by 4 texels: its header, and the tiles of five pages.
const STORE: [u8; 76] = [
    0x56, 0x54, 0x53, 0x31, 0, 0, 0, 4, 0, 0, 0, 4, 0, 0, 0, 2, 0, 0, 0, 1, 1, 1, 4, 4, 4, 5, 5, 5,
    2, 2, 2, 3, 3, 3, 6, 6, 6, 7, 7, 7, 8, 8, 8, 9, 9, 9, 12, 12, 12, 13, 13, 13, 10, 10, 10, 11,
    11, 11, 14, 14, 14, 15, 15, 15, 3, 3, 3, 5, 5, 5, 11, 11, 11, 13, 13, 13,
];

// The same store with two bytes a sample, each the same.
const WIDE_STORE: [u8; 136] = [
    0x56, 0x54, 0x53, 0x32, 0, 0, 0, 4, 0, 0, 0, 4, 0, 0, 0, 2, 0, 0, 0, 0, 0, 0, 1, 1, 1, 1, 1, 1,
    4, 4, 4, 4, 4, 4, 5, 5, 5, 5, 5, 5, 2, 2, 2, 2, 2, 2, 3, 3, 3, 3, 3, 3, 6, 6, 6, 6, 6, 6, 7, 7,
    7, 7, 7, 7, 8, 8, 8, 8, 8, 8, 9, 9, 9, 9, 9, 9, 12, 12, 12, 12, 12, 12, 13, 13, 13, 13, 13, 13,
    10, 10, 10, 10, 10, 10, 11, 11, 11, 11, 11, 11, 14, 14, 14, 14, 14, 14, 15, 15, 15, 15, 15, 15,
    3, 3, 3, 3, 3, 3, 5, 5, 5, 5, 5, 5, 11, 11, 11, 11, 11, 11, 13, 13, 13, 13, 13, 13,
];

// A folder whose name `a` holds these bytes, and in which these calls fail.
fn folder_of(alloc: Global, calls: &[Fail], bytes: &[u8]) -> Option<MemoryFolder> {
    let mut folder = MemoryFolder::new(alloc, Fails::from_slice(alloc, calls).ok()?);
    folder.add("a", bytes).ok()?;
    Some(folder)
}

// The store that the name `a` holds.
fn store_of(folder: &mut MemoryFolder) -> Option<Store<MemoryFile>> {
    Store::open(folder.open("a").ok()?).ok()
}

// Lets a loader of the store run, if there is one.
fn run_one<Rt: Threads + Wait>(
    rt: &Rt,
    folder: &mut MemoryFolder,
    requests: &RequestQueue,
    asks: &mut QueuePass<Request>,
    results: &ResultQueue,
    answers: &mut QueuePass<Loaded>,
)
    requires asks { IsPassOfQueue requests.now asks.old }
    requires answers { IsPassOfQueue results.now answers.old }
    ensures answers { IsPassOfQueue results.now answers.new }
{
    if let Some(store) = store_of(folder) {
        let mut loader = Loader::new(store, 0);
        if let Ok(()) = loader.reserve(u64::from(requests.capacity())) {
            loader.run(rt, requests, asks, results, answers, &OpenGate);
        }
        folder.close(loader.into_store().into_file());
    }
}

// Puts a request with this ticket, page and buffer, and answers whether it did.
fn ask<Rt: Threads + Wait>(
    rt: &Rt,
    alloc: Global,
    requests: &RequestQueue,
    asks: &mut QueuePass<Request>,
    ticket: u32,
    page: u32,
    buffer: &[u8],
) -> bool
    requires { IsPassOfQueue requests.now asks.old }
    ensures { IsPassOfQueue requests.now asks.new }
{
    let Ok(buffer) = Bytes::from_slice(alloc, buffer) else {
        return false;
    };
    let request = Request {
        ticket,
        page,
        buffer,
    };
    requests.put(rt, asks, request).is_ok()
}

// A result that is to be: its ticket, and the tile that was read, which is empty where it was lost, with a buffer of 12 bytes.
struct Answer {
    ticket: u32,
    tile: &'static [u8],
}

// What a loader is to do with two requests, with the tickets 0 and 1: the second one's page and buffer, the results, and the places
// that are asked of the store.
struct Round {
    calls: &'static [Fail],
    store: &'static [u8],
    second: (u32, &'static [u8]),
    answers: &'static [Answer],
    places: &'static [Place],
}

// Whether this is that result.
fn is_result(loaded: &Loaded, answer: &Answer) -> bool {
    let is_right = if answer.tile.is_empty() {
        loaded.outcome == Outcome::Lost && loaded.request.buffer.len() == 12
    } else {
        loaded.outcome == Outcome::Read && loaded.request.buffer.slice() == answer.tile
    };
    is_right && loaded.request.ticket == answer.ticket
}

// Whether this is that result, or none where there is to be none.
fn is_answer(found: Option<Loaded>, answer: Option<&Answer>) -> bool {
    match (found, answer) {
        (Some(loaded), Some(answer)) => is_result(&loaded, answer),
        (None, None) => true,
        _ => false,
    }
}

// Whether three results are taken that are those, and none behind them.
fn are_answers<Rt: Threads + Wait>(
    rt: &Rt,
    results: &ResultQueue,
    pass: &mut QueuePass<Loaded>,
    answers: &[Answer],
) -> bool
    requires { IsPassOfQueue results.now pass.old }
{
    is_answer(results.take(rt, pass), answers.get(0))
        && is_answer(results.take(rt, pass), answers.get(1))
        && is_answer(results.take(rt, pass), answers.get(2))
}

// Whether a loader answers two requests so, the first of which is for this page and with this buffer.
fn is_answered<Rt: Threads + Wait>(
    rt: &Rt,
    alloc: Global,
    folder: &mut MemoryFolder,
    first: (u32, &[u8]),
    round: &Round,
) -> bool {
    let Ok((requests, mut asks)) = RequestQueue::new(alloc, 2) else {
        return false;
    };
    let Ok((results, mut answers)) = ResultQueue::new(alloc, 2) else {
        return false;
    };
    let (page, buffer) = round.second;
    let is_first = ask(rt, alloc, &requests, &mut asks, 0, first.0, first.1);
    let is_second = ask(rt, alloc, &requests, &mut asks, 1, page, buffer);
    run_one(rt, folder, &requests, &mut asks, &results, &mut answers);
    is_first && is_second && are_answers(rt, &results, &mut answers, round.answers)
}

// Whether a loader does that, where the first request is for this page and with this buffer.
fn is_served<Rt: Threads + Wait>(
    rt: &Rt,
    alloc: Global,
    first: (u32, &[u8]),
    round: &Round,
) -> bool {
    match folder_of(alloc, round.calls, round.store) {
        Some(mut folder) => {
            is_answered(rt, alloc, &mut folder, first, round) && folder.was_asked("a", round.places)
        }
        None => false,
    }
}

// The header, of 16 bytes.
const HEADER: Place = Place {
    at: 0,
    len: 16,
    failed: false,
};

// The tiles of two pages, of 12 bytes each.
const TILE_1: Place = Place {
    at: 28,
    len: 12,
    failed: false,
};

const TILE_2: Place = Place {
    at: 40,
    len: 12,
    failed: false,
};

const TILE_4: Place = Place {
    at: 64,
    len: 12,
    failed: false,
};

static IN_ORDER: Round = Round {
    calls: &[],
    store: &STORE,
    second: (4, &[9; 12]),
    answers: &[
        Answer {
            ticket: 0,
            tile: &[2, 2, 2, 3, 3, 3, 6, 6, 6, 7, 7, 7],
        },
        Answer {
            ticket: 1,
            tile: &[3, 3, 3, 5, 5, 5, 11, 11, 11, 13, 13, 13],
        },
    ],
    places: &[HEADER, TILE_1, TILE_4],
};

#[test]
fn requests_are_answered_in_the_order_of_the_queue(rt: HostRuntime) {
    holds(&rt, is_served(&rt, rt.alloc(), (1, &[0; 12]), &IN_ORDER));
}

const LOST_TILE_3: Place = Place {
    at: 52,
    len: 12,
    failed: true,
};

const TILE_0: Place = Place {
    at: 16,
    len: 12,
    failed: false,
};

static LOSES_ONE: Round = Round {
    calls: &[Fail::Read {
        opening: 0,
        read: 1,
    }],
    store: &STORE,
    second: (0, &[0; 12]),
    answers: &[
        Answer {
            ticket: 0,
            tile: &[],
        },
        Answer {
            ticket: 1,
            tile: &[0, 0, 0, 1, 1, 1, 4, 4, 4, 5, 5, 5],
        },
    ],
    places: &[HEADER, LOST_TILE_3, TILE_0],
};

#[test]
fn a_loader_goes_on_after_a_lost_read(rt: HostRuntime) {
    holds(&rt, is_served(&rt, rt.alloc(), (3, &[0; 12]), &LOSES_ONE));
}

static DROPPED: [(u32, &[u8]); 4] = [(5, &[0; 12]), (u32::MAX, &[0; 12]), (1, &[0; 11]), (1, &[])];

static DROPS_ONE: Round = Round {
    calls: &[],
    store: &STORE,
    second: (2, &[0; 12]),
    answers: &[Answer {
        ticket: 1,
        tile: &[8, 8, 8, 9, 9, 9, 12, 12, 12, 13, 13, 13],
    }],
    places: &[HEADER, TILE_2],
};

#[test]
fn a_request_of_no_page_or_with_another_buffer_is_dropped(rt: HostRuntime) {
    for case in &DROPPED {
        holds(&rt, is_served(&rt, rt.alloc(), *case, &DROPS_ONE));
    }
}

const WIDE_TILE: Place = Place {
    at: 64,
    len: 24,
    failed: false,
};

static READS_WIDE: Round = Round {
    calls: &[],
    store: &WIDE_STORE,
    second: (2, &[0; 12]),
    answers: &[Answer {
        ticket: 0,
        tile: &[
            8, 8, 8, 8, 8, 8, 9, 9, 9, 9, 9, 9, 12, 12, 12, 12, 12, 12, 13, 13, 13, 13, 13, 13,
        ],
    }],
    places: &[HEADER, WIDE_TILE],
};

#[test]
fn a_store_of_two_bytes_a_sample_has_tiles_of_twice_the_length(rt: HostRuntime) {
    holds(&rt, is_served(&rt, rt.alloc(), (2, &[0; 24]), &READS_WIDE));
}
