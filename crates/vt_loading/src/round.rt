//! The requests, stores and buffers of a pass's loaders, whose results are taken while they work.

ghost use Rattle.std.specs.Prelude.{◌≡◌, ℕ, ◌^◌, ◌+◌, ◌<◌, ◌≤◌, false, [], List, length, reverse, All, IfOk, OnOk};
ghost use Rattle.vt_definitions.specs.Limits.{most_entries, most_loaders};
ghost use Rattle.vt_tiles.specs.Shape.{Shape};
ghost use Rattle.vt_tiles.specs.Pages.{pages_of};
ghost use Rattle.vt_tiles.specs.Format.{tile_length};
ghost use Rattle.vt_queue.specs.declared.items.Request.{Request as Ask};
ghost use Rattle.vt_queue.specs.declared.items.Loaded.{Loaded as Answer};
ghost use Rattle.vt_queue.specs.declared.queue.QueuePass.{QueuePass as Token};
ghost use Rattle.vt_queue.specs.PassViews.{all_shares, first_view, all_joined};
ghost use Rattle.vt_queue.specs.Steps.{IsAtStep};
ghost use Rattle.vt_queue.specs.Queues.{queue_view_of, queue_splits_of, IsPassOfQueue, capacity_of};
ghost use Rattle.vt_load.specs.QueuedLoaders.{AreOf, MayLoad, stores_of, asks_of, answers_of};
ghost use Rattle.vt_requests.specs.MachineTypes.crew.Crew.{Crew as Hands};
ghost use Rattle.vt_requests.specs.Sizes.{AreSized};
ghost use Rattle.vt_requests.specs.BlankReports.{IsBlank};
ghost use Rattle.vt_loading.specs.RoundStocks.{AreNew, HasPlaces, IsSetUp, IsAsked, IsDealt};

use crate::room::with_room;
use std::alloc::Global;
use std::marker::Model;
use std::mem;
use std::sync::Wait;
use std::thread::Threads;
use vt_load::{QueuedLoader, Queues, deal, take_back};
use vt_outside::{Bytes, File, Items, NoMemory};
use vt_queue::{Loaded, QueuePass, Request, RequestQueue, ResultQueue};
use vt_requests::{Crew, Losses, Planned, StreamReport, ask_batch, give_back};
use vt_tiles::Stores;

/// What the loaders of a pass work with: the pass of the requests, and room for the loaders, their stores and the
/// buffers. Contracts see all of these.
pub(crate) struct RoundStock<F: File> {
    alloc: Global,
    asks: QueuePass<Request>,
    loaders: Items<QueuedLoader<F>>,
    stores: Stores<F>,
    buffers: Items<Bytes>,
    ghost no_loaders: { loaders.elements ≡ [] },
    ghost no_stores: { stores.elements ≡ [] },
}

impl<F: File> Model for RoundStock<F> {
    ghost use Rattle.vt_loading.specs.RoundStocks.{RoundStockView};

    ghost Value = { RoundStockView F };

    ghost view = { λ r. record {
      asks = r.asks;
      loaders = r.loaders;
      stores = r.stores;
      buffers = r.buffers;
    } };
}

/// New queues with room for so many items, and their passes.
pub fn new_queues(
    alloc: Global,
    capacity: u32,
) -> Result<(Queues, QueuePass<Request>, QueuePass<Loaded>), NoMemory>
    requires { (1 ≤ capacity) × (capacity ≤ most_entries) }
    ensures { IfOk result (λ made. AreNew capacity made.0 made.1 made.2) }
{
    let (requests, asks) = RequestQueue::new(alloc, capacity)?;
    let (results, answers) = ResultQueue::new(alloc, capacity)?;
    Ok((Queues { requests, results }, asks, answers))
}

// A list by which nothing is so of so many entries.
fn none_of(alloc: Global, entries: u64) -> Result<Losses, NoMemory>
    ensures count { IfOk result (λ flags. length flags.elements ≡ entries) }
    ensures none { IfOk result (λ flags. All (λ flag. flag ≡ false) flags.elements) }
{
    let mut flags = Items::new(alloc);
    flags.reserve(entries)?;
    for _ in 0..entries {
        flags.push(false);
    }
    Ok(flags)
}

/// What streaming so many entries is to tell: nothing yet.
pub fn blank_report(alloc: Global, entries: u64) -> Result<StreamReport, NoMemory>
    requires few { entries ≤ most_entries }
    ensures blank { IfOk result (IsBlank entries) }
    ensures no_events { IfOk result (λ report. report.events.elements ≡ []) }
{
    let losses = none_of(alloc, entries)?;
    let taken = none_of(alloc, entries)?;
    let events = with_room(alloc, 2 * entries)?;
    let results = with_room(alloc, entries)?;
    Ok(StreamReport {
        events,
        losses,
        taken,
        results,
    })
}

// Makes buffers of a tile's length until there are so many.
fn make_buffers(
    alloc: Global,
    buffers: &mut Items<Bytes>,
    count: u64,
    tile: &[u8],
) -> Result<(), NoMemory>
    requires { AreSized (length tile.now) buffers.old.elements }
    ensures count { OnOk result (count ≤ length buffers.new.elements) }
    ensures sizes { AreSized (length tile.now) buffers.new.elements }
{
    for made in 0..count {
        if buffers.len() as u64 <= made {
            let buffer = Items::from_slice(alloc, tile)?;
            buffers.reserve(1)?;
            buffers.push(buffer);
        }
    }
    Ok(())
}

impl<F: File> RoundStock<F> {
    /// The pool with this pass of requests, which has no buffers.
    pub fn new(alloc: Global, asks: QueuePass<Request>) -> RoundStock<F>
        ensures { result.buffers.elements ≡ [] }
    {
        RoundStock {
            alloc,
            asks,
            loaders: Items::new(alloc),
            stores: Items::new(alloc),
            buffers: Items::new(alloc),
        }
    }

    /// Ends the pool.
    pub fn end(self) {
        let RoundStock {
            alloc: _,
            asks: _,
            loaders,
            stores,
            buffers: _,
        } = self;
        loaders.destroy_empty();
        stores.destroy_empty();
    }

    // Makes new queues with room for so many items, and takes their passes.
    fn renew(
        &mut self,
        queues: &mut Queues,
        answers: &mut QueuePass<Loaded>,
        capacity: u32,
    ) -> Result<(), NoMemory>
        requires { (1 ≤ capacity) × (capacity ≤ most_entries) }
        ensures new { OnOk result (AreNew capacity queues.new self.new.asks answers.new) }
        ensures rest { self.new ≡ record self.old { asks = self.new.asks } }
    {
        let (made, asks, results) = new_queues(self.alloc, capacity)?;
        *queues = made;
        *answers = results;
        self.asks = asks;
        Ok(())
    }

    // Makes room for a crew's loaders, and for so many entries a buffer of a tile's length for each.
    fn make_places(&mut self, crew: &Crew, tile: &[u8], entries: u64) -> Result<(), NoMemory>
        requires { AreSized (length tile.now) self.old.buffers.elements }
        ensures places { OnOk result (HasPlaces self.new (length tile.now) crew.now entries) }
        ensures asks { self.new.asks ≡ self.old.asks }
    {
        self.loaders.reserve(u64::from(crew.loaders))?;
        make_buffers(self.alloc, &mut self.buffers, entries, tile)
    }

    /// Makes new queues, and room for all that a batch of so many entries needs later. The buffers have a tile's length.
    pub fn prepare(
        &mut self,
        queues: &mut Queues,
        answers: &mut QueuePass<Loaded>,
        crew: &Crew,
        tile: &[u8],
        entries: u64,
    ) -> Result<(), NoMemory>
        requires capacity { (1 ≤ crew.now.batch) × (crew.now.batch ≤ most_entries) }
        requires sizes { AreSized (length tile.now) self.old.buffers.elements }
        ensures { OnOk result (IsSetUp queues.new self.new answers.new (length tile.now) crew.now entries) }
    {
        self.renew(queues, answers, crew.batch)?;
        self.make_places(crew, tile, entries)
    }

    /// Puts a request for each entry of a batch into the queues, which are new.
    pub fn ask<Rt: Threads + Wait>(&mut self, rt: &Rt, queues: &Queues, batch: &[Planned])
        requires of { IsPassOfQueue queues.now.requests self.old.asks }
        requires new { queue_view_of self.old.asks ≡ first_view }
        requires room { length batch.now ≤ capacity_of queues.now.requests }
        requires few { length batch.now < 2 ^ 32 }
        requires buffers { length batch.now ≤ length self.old.buffers.elements }
        ensures { (answers : Token Answer) (s : Shape) (d : ℕ) (crew : Hands) → All (λ e. e.page < pages_of s) batch.now
            → IsSetUp queues.now self.old answers (tile_length s d) crew (length batch.now)
            → IsAsked queues.now self.new answers s d crew batch.now }
    {
        ask_batch(
            rt,
            &queues.requests,
            &mut self.asks,
            batch,
            &mut self.buffers,
        );
    }

    /// Makes a loader of each store, with its passes of the queues.
    pub fn deal(
        &mut self,
        queues: &Queues,
        answers: &mut QueuePass<Loaded>,
        stores: Stores<F>,
    ) -> Items<QueuedLoader<F>>
        requires passes { AreOf queues.now self.old.asks answers.old }
        requires splits { (queue_splits_of self.old.asks + 1 ≡ all_shares) × (queue_splits_of answers.old + 1 ≡ all_shares) }
        requires few { length stores.elements ≤ most_loaders }
        requires room { length stores.elements ≤ self.old.loaders.spare }
        requires reads { All (λ store. capacity_of queues.now.requests ≤ F.spare store.file) stores.elements }
        ensures dealt { IsDealt F.File queues.now self.old self.new answers.old answers.new stores.elements
            result.elements }
        ensures may { All (MayLoad F.File queues.now) result.elements }
    {
        let mut stores = stores;
        let mut loaders = mem::replace(&mut self.loaders, Items::new(self.alloc));
        deal(
            queues,
            self.alloc,
            &mut self.asks,
            answers,
            &mut stores,
            &mut loaders,
        );
        mem::replace(&mut self.stores, stores).destroy_empty();
        loaders
    }

    /// Makes the passes of loaders that have ended one with those of the requests and of the results, and hands their
    /// stores back.
    pub fn end_round(
        &mut self,
        queues: &Queues,
        answers: &mut QueuePass<Loaded>,
        loaders: Items<QueuedLoader<F>>,
    ) -> Stores<F>
        requires passes { AreOf queues.now self.old.asks answers.old }
        requires loaders { All (λ l. AreOf queues.now l.asks l.answers) loaders.elements }
        requires some { 1 ≤ length loaders.elements }
        requires room { length loaders.elements ≤ self.old.stores.spare }
        ensures stores { result.elements ≡ reverse (stores_of loaders.elements) }
        ensures passes { AreOf queues.now self.new.asks answers.new }
        ensures asks { queue_view_of self.new.asks ≡ all_joined (queue_view_of self.old.asks) (asks_of loaders.elements) }
        ensures answers { queue_view_of answers.new ≡ all_joined (queue_view_of answers.old) (answers_of loaders.elements) }
        ensures asks_at_step { (left : List Ask) × IsAtStep (queue_view_of self.new.asks) left }
        ensures answers_at_step { (left : List Answer) × IsAtStep (queue_view_of answers.new) left }
        ensures buffers { self.new.buffers ≡ self.old.buffers }
    {
        let mut stores = mem::replace(&mut self.stores, Items::new(self.alloc));
        take_back(queues, &mut self.asks, answers, loaders, &mut stores);
        stores
    }

    /// Has the buffers of results back, of which none is left.
    pub fn keep(&mut self, results: &mut Items<Loaded>)
        requires { length results.old.elements ≤ self.old.buffers.spare }
        ensures none { results.new.elements ≡ [] }
        ensures asks { self.new.asks ≡ self.old.asks }
        ensures count { length self.new.buffers.elements
            ≡ length self.old.buffers.elements + length results.old.elements }
        ensures sizes { (n : ℕ) → All (λ x. length x.request.buffer.elements ≡ n) results.old.elements
            → AreSized n self.old.buffers.elements → AreSized n self.new.buffers.elements }
    {
        give_back(results, &mut self.buffers);
    }
}
