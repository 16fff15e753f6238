//! Requests, read one after another.

ghost use Rattle.std.specs.Prelude.{◌≡◌, ◌+◌, ◌<◌, ◌≤◌, true, nat_lt, [], ◌∷◌, length, IfSome};
ghost use Rattle.vt_outside.specs.Counts.{Rose};
ghost use Rattle.vt_outside.specs.Files.{IsPiece};
ghost use Rattle.vt_tiles.specs.Pages.{pages_of};
ghost use Rattle.vt_tiles.specs.Format.{tile_start, tile_length};
ghost use Rattle.vt_tiles.specs.Places.{TileAsked};
ghost use Rattle.vt_queue.specs.Steps.{Puts};
ghost use Rattle.vt_queue.specs.Queues.{queue_view_of, queue_splits_of, IsPassOfQueue, capacity_of};
ghost use Rattle.vt_load.specs.Readings.{is_readable, is_lost, IsReading};
ghost use Rattle.vt_load.specs.Loads.{Answers, Loads, HasEndedLoading};

use std::sync::Wait;
use std::thread;
use std::thread::Threads;
use vt_outside::{Bytes, File, Gate, Point};
use vt_queue::{Full, Loaded, Outcome, QueuePass, Request, RequestQueue, ResultQueue};
use vt_tiles::{Geometry, Store, tile_length};

// Puts a result, and tries again where the queue is full.
fn put_waiting<Rt: Threads + Wait>(
    rt: &Rt,
    results: &ResultQueue,
    answers: &mut QueuePass<Loaded>,
    loaded: Loaded,
)
    requires { IsPassOfQueue results.now answers.old }
    ensures of { IsPassOfQueue results.now answers.new × (queue_splits_of answers.new ≡ queue_splits_of answers.old) }
    ensures puts { Puts (queue_view_of answers.old) loaded (queue_view_of answers.new) }
{
    let mut item = loaded;
    for _ in rt.forever() {
        match results.put(rt, answers, item) {
            Ok(()) => return,
            Err(Full { item: back }) => {
                item = back;
                thread::yield_now();
            }
        }
    }
    unreachable!()
}

// Reads the tile of a page into a buffer of its length.
fn read_tile<F: File>(store: &mut Store<F>, page: u32, buffer: &mut Bytes) -> Outcome
    requires size { length buffer.old.elements ≡ tile_length store.old.shape store.old.depth }
    requires page { page < pages_of store.old.shape }
    requires spare { 1 ≤ F.spare store.old.file }
    ensures size { length buffer.new.elements ≡ tile_length store.old.shape store.old.depth }
    ensures tile { result ≡ Outcome.Read → IfSome (F.bytes store.old.file)
        (λ b. IsPiece b (tile_start store.old.shape store.old.depth page) buffer.new.elements) }
    ensures lost { result ≡ Outcome.Lost → Rose (F.faults store.old.file) (F.faults store.new.file) }
    ensures asked { TileAsked store.old.shape store.old.depth page (is_lost result) (F.asked store.old.file) (F.asked store.new.file) }
    ensures faults { F.faults store.old.file ≤ F.faults store.new.file }
    ensures bytes { F.bytes store.new.file ≡ F.bytes store.old.file }
    ensures name { F.name store.new.file ≡ F.name store.old.file }
    ensures room { F.spare store.old.file ≤ F.spare store.new.file + 1 }
    ensures shape { store.new.shape ≡ store.old.shape }
    ensures depth { store.new.depth ≡ store.old.depth }
{
    match store.read_tile(page, buffer.slice_mut()) {
        Ok(()) => Outcome::Read,
        Err(_) => Outcome::Lost,
    }
}

// Whether a geometry has the page.
fn has_page(geometry: &Geometry, page: u32) -> bool
    ensures { result ≡ nat_lt page (pages_of geometry.now) }
{
    page < geometry.page_count()
}

// Whether the store has the page, and the buffer the length of a tile.
fn is_readable<F: File>(store: &Store<F>, request: &Request) -> bool
    ensures { result ≡ is_readable store.now.shape store.now.depth request.now }
{
    let geometry = store.geometry();
    has_page(&geometry, request.page)
        && request.buffer.len() == tile_length(&geometry, store.depth())
}

// Reads a request that the store can read.
fn read<F: File, G: Gate>(store: &mut Store<F>, loader: u32, request: Request, gate: &G) -> Loaded
    requires readable { is_readable store.old.shape store.old.depth request ≡ true }
    requires spare { 1 ≤ F.spare store.old.file }
    ensures reading { IsReading F.File store.old.shape store.old.depth request result store.old.file store.new.file }
    ensures shape { store.new.shape ≡ store.old.shape }
    ensures depth { store.new.depth ≡ store.old.depth }
{
    let Request {
        ticket,
        page,
        mut buffer,
    } = request;
    gate.at(Point::Read { loader, ticket });
    let outcome = read_tile(store, page, &mut buffer);
    let request = Request {
        ticket,
        page,
        buffer,
    };
    Loaded { request, outcome }
}

// Reads a request and puts its result, where the store can read it.
#[tactic(auto, using(crate::proofs::Loading::read_one))]
fn answer<Rt: Threads + Wait, F: File, G: Gate>(
    rt: &Rt,
    store: &mut Store<F>,
    loader: u32,
    request: Request,
    results: &ResultQueue,
    answers: &mut QueuePass<Loaded>,
    gate: &G,
)
    requires of { IsPassOfQueue results.now answers.old }
    requires spare { 1 ≤ F.spare store.old.file }
    ensures of { IsPassOfQueue results.now answers.new × (queue_splits_of answers.new ≡ queue_splits_of answers.old) }
    ensures puts { Answers F.File store.old.shape store.old.depth (request ∷ []) (queue_view_of answers.old) (queue_view_of answers.new)
        store.old.file store.new.file }
    ensures shape { store.new.shape ≡ store.old.shape }
    ensures depth { store.new.depth ≡ store.old.depth }
    ensures room { F.spare store.old.file ≤ F.spare store.new.file + 1 }
{
    if !is_readable(store, &request) {
        return;
    }
    let loaded = read(store, loader, request, gate);
    put_waiting(rt, results, answers, loaded);
}

/// Takes requests until there are none, or as many as the queue has room for, and answers each.
pub(crate) fn load<Rt: Threads + Wait, F: File, G: Gate>(
    rt: &Rt,
    store: &mut Store<F>,
    loader: u32,
    requests: &RequestQueue,
    asks: &mut QueuePass<Request>,
    results: &ResultQueue,
    answers: &mut QueuePass<Loaded>,
    gate: &G,
)
    requires asks { IsPassOfQueue requests.now asks.old }
    requires answers { IsPassOfQueue results.now answers.old }
    requires spare { capacity_of requests.now ≤ F.spare store.old.file }
    ensures asks { IsPassOfQueue requests.now asks.new × (queue_splits_of asks.new ≡ queue_splits_of asks.old) }
    ensures answers { IsPassOfQueue results.now answers.new × (queue_splits_of answers.new ≡ queue_splits_of answers.old) }
    ensures loads { Loads F.File store.old.shape store.old.depth (queue_view_of asks.old) (queue_view_of asks.new)
        (queue_view_of answers.old) (queue_view_of answers.new) store.old.file store.new.file }
    ensures ended { HasEndedLoading (capacity_of requests.now) (queue_view_of asks.old) (queue_view_of asks.new) }
    ensures shape { store.new.shape ≡ store.old.shape }
    ensures depth { store.new.depth ≡ store.old.depth }
{
    let mut left = requests.capacity();
    while left > 0 {
        let Some(request) = requests.take(rt, asks) else {
            return;
        };
        left -= 1;
        answer(rt, store, loader, request, results, answers, gate);
    }
}
