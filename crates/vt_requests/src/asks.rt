//! Requests for the tiles of a batch.

ghost use Rattle.std.specs.Prelude.{◌≡◌, ℕ, ◌<◌, ◌≤◌, ◌+◌, ◌^◌, [], ◌∷◌, ◌++◌, length, All, slice_get};
ghost use Rattle.vt_table.specs.Shape.{Shape};
ghost use Rattle.vt_table.specs.Pages.{pages_of};
ghost use Rattle.vt_load.specs.Format.{tile_length};
ghost use Rattle.vt_load.specs.PassViews.{first_view};
ghost use Rattle.vt_load.specs.Steps.{Puts};
ghost use Rattle.vt_load.specs.Queues.{queue_view_of, queue_splits_of, IsPassOfQueue, capacity_of, WasFull};
ghost use Rattle.vt_requests.specs.BatchRounds.{ArePut, page_if};
ghost use Rattle.vt_requests.specs.Sizes.{AreSized};

use std::sync::Wait;
use std::thread::Threads;
use vt_load::{Loaded, QueuePass, Request, RequestQueue};
use vt_machine::Planned;
use vt_outside::{Bytes, Items};

// The request for an entry of a batch, by its place, with a buffer from the end of a list.
fn request_for(batch: &[Planned], ticket: usize, buffers: &mut Items<Bytes>) -> Request
    requires inside { ticket < length batch.now }
    requires few { length batch.now < 2 ^ 32 }
    requires some { 1 ≤ length buffers.old.elements }
    ensures ticket { result.ticket ≡ ticket }
    ensures page { result.page ≡ page_if (slice_get batch.now ticket) }
    ensures buffer { buffers.old.elements ≡ buffers.new.elements ++ result.buffer ∷ [] }
    ensures room { buffers.new.spare ≡ buffers.old.spare + 1 }
{
    let Some(buffer) = buffers.pop() else {
        unreachable!()
    };
    Request {
        ticket: ticket as u32,
        page: batch[ticket].page,
        buffer,
    }
}

// Puts a request into a queue that is not full.
fn put_next<Rt: Threads + Wait>(
    rt: &Rt,
    requests: &RequestQueue,
    asks: &mut QueuePass<Request>,
    request: Request,
)
    requires of { IsPassOfQueue requests.now asks.old }
    requires room { WasFull requests.now (queue_view_of asks.old) → ⊥ }
    ensures of { IsPassOfQueue requests.now asks.new × (queue_splits_of asks.new ≡ queue_splits_of asks.old) }
    ensures puts { Puts (queue_view_of asks.old) request (queue_view_of asks.new) }
{
    match requests.put(rt, asks, request) {
        Ok(()) => {}
        Err(_) => unreachable!(),
    }
}

/// Puts a request for each entry of a batch into a new queue, with a buffer from the end of a list for each.
pub fn ask_batch<Rt: Threads + Wait>(
    rt: &Rt,
    requests: &RequestQueue,
    asks: &mut QueuePass<Request>,
    batch: &[Planned],
    buffers: &mut Items<Bytes>,
)
    requires of { IsPassOfQueue requests.now asks.old }
    requires new { queue_view_of asks.old ≡ first_view }
    requires room { length batch.now ≤ capacity_of requests.now }
    requires few { length batch.now < 2 ^ 32 }
    requires buffers { length batch.now ≤ length buffers.old.elements }
    ensures of { IsPassOfQueue requests.now asks.new × (queue_splits_of asks.new ≡ queue_splits_of asks.old) }
    ensures asked { (s : Shape) (d : ℕ) → All (λ e. e.page < pages_of s) batch.now
        → AreSized (tile_length s d) buffers.old.elements
        → ArePut s d batch.now (length batch.now) (queue_view_of asks.new) }
    ensures left { (n : ℕ) → AreSized n buffers.old.elements → AreSized n buffers.new.elements }
    ensures count { length buffers.new.elements + length batch.now ≡ length buffers.old.elements }
    ensures room { buffers.new.spare ≡ buffers.old.spare + length batch.now }
{
    for ticket in 0..batch.len() {
        let request = request_for(batch, ticket, buffers);
        put_next(rt, requests, asks, request);
    }
}

/// Puts the buffers of results behind those of a list, the last result's first, and leaves no results.
pub fn give_back(results: &mut Items<Loaded>, buffers: &mut Items<Bytes>)
    requires { length results.old.elements ≤ buffers.old.spare }
    ensures none { results.new.elements ≡ [] }
    ensures room { results.new.spare ≡ results.old.spare + length results.old.elements }
    ensures count { length buffers.new.elements ≡ length buffers.old.elements + length results.old.elements }
    ensures sizes { (n : ℕ) → All (λ x. length x.request.buffer.elements ≡ n) results.old.elements
        → AreSized n buffers.old.elements → AreSized n buffers.new.elements }
{
    while let Some(loaded) = results.pop() {
        let Loaded {
            request,
            outcome: _,
        } = loaded;
        let Request {
            buffer,
            ticket: _,
            page: _,
        } = request;
        buffers.push(buffer);
    }
}
