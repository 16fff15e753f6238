//! What the loaders of a pass are done with.

ghost use Rattle.std.specs.Prelude.{◌≡◌, ◌<◌, ◌≤◌, List, All, OnOk, length};
ghost use Rattle.vt_tiles.specs.Depths.{IsDepth};
ghost use Rattle.vt_tiles.specs.Pages.{pages_of};
ghost use Rattle.vt_tiles.specs.Format.{tile_length};
ghost use Rattle.vt_requests.specs.PlanTypes.batches.Planned.{Planned as Entry};
ghost use Rattle.vt_queue.specs.declared.queue.QueuePass.{QueuePass as Token};
ghost use Rattle.vt_queue.specs.declared.items.Loaded.{Loaded as Answer};
ghost use Rattle.vt_load.specs.QueuedLoaders.{MayLoad};
ghost use Rattle.vt_requests.specs.Crews.{IsCrew};
ghost use Rattle.vt_requests.specs.Machines.{AreStoresFor};
ghost use Rattle.vt_requests.specs.Sizes.{AreSized};
ghost use Rattle.vt_requests.specs.declared.report.StreamReport.{StreamReport as Told};
ghost use Rattle.vt_loading.specs.RoundStocks.{IsSetUp, AreEmptied};
ghost use Rattle.vt_loading.specs.LoaderPools.{LoaderPoolView, IsLoaderPool, IsPreparedStream, IsAskedStream, IsSameStream, AreLoadersOut, StreamBegun, MayEndStream, HasEndedStream};

use crate::room::reserve_reads;
use crate::round::{RoundStock, blank_report};
use std::alloc::Global;
use std::marker::Model;
use std::mem;
use std::sync::Wait;
use std::thread::Threads;
use vt_load::{QueuedLoader, Queues};
use vt_outside::{File, Items, NoMemory};
use vt_queue::{Loaded, QueuePass, Request};
use vt_requests::{Batch, Crew, Events, Losses, StreamReport};
use vt_tiles::{Geometry, Stores, tile_length};

/// What the loaders of a pass are done with but for the queues: their stores, and what they are made with. Contracts see all of these.
pub struct LoaderPool<F: File> {
    alloc: Global,
    geometry: Geometry,
    depth: u32,
    crew: Crew,
    stores: Stores<F>,
    round: RoundStock<F>,
}

impl<F: File> Model for LoaderPool<F> {
    ghost use Rattle.vt_loading.specs.LoaderPools.{LoaderPoolView};

    ghost Value = { LoaderPoolView F };

    ghost view = { λ k. record {
      shape = k.geometry;
      depth = k.depth;
      crew = k.crew;
      stores = k.stores.elements;
      round = k.round;
    } };
}

impl<F: File> LoaderPool<F> {
    /// The pool of a crew with one store for each loader, and with a pass of requests that is not used.
    pub fn new(
        alloc: Global,
        geometry: &Geometry,
        crew: &Crew,
        depth: u32,
        asks: QueuePass<Request>,
        stores: Stores<F>,
    ) -> LoaderPool<F>
        requires crew { IsCrew crew.now }
        requires depth { IsDepth depth }
        requires stores { AreStoresFor F.File geometry.now depth crew.now.loaders stores.elements }
        ensures pool { IsLoaderPool F.File result }
        ensures shape { result.shape ≡ geometry.now }
        ensures depth { result.depth ≡ depth }
        ensures crew { result.crew ≡ crew.now }
        ensures stores { result.stores ≡ stores.elements }
    {
        let _known = stores.at(0).geometry();
        LoaderPool {
            alloc,
            geometry: *geometry,
            depth,
            crew: *crew,
            stores,
            round: RoundStock::new(alloc, asks),
        }
    }

    /// The loaders' stores, in place of the pool.
    pub fn end(self) -> Stores<F>
        ensures { result.elements ≡ self.stores }
    {
        let LoaderPool {
            alloc: _,
            geometry: _,
            depth: _,
            crew: _,
            stores,
            round,
        } = self;
        round.end();
        stores
    }

    /// Makes room for the loaders of a batch no longer than the crew's, with new queues, and a report that tells nothing yet.
    pub fn prepare(
        &mut self,
        queues: &mut Queues,
        answers: &mut QueuePass<Loaded>,
        report: &mut StreamReport,
        batch: &Batch,
    ) -> Result<(), NoMemory>
        requires pool { IsLoaderPool F.File self.old }
        requires few { length batch.now.elements ≤ self.old.crew.batch }
        ensures prepared { OnOk result (IsPreparedStream F.File queues.new answers.new report.new self.new batch.now.elements) }
        ensures same { IsSameStream F.File self.old self.new }
    {
        let entries = batch.len() as u64;
        *report = blank_report(self.alloc, entries)?;
        self.make_room()?;
        self.set_up(queues, answers, entries)
    }

    // Makes room for the reads of a round.
    fn make_room(&mut self) -> Result<(), NoMemory>
        ensures reads { OnOk result (All (λ store. self.new.crew.batch ≤ F.spare store.file) self.new.stores) }
        ensures round { self.new.round ≡ self.old.round }
        ensures same { IsSameStream F.File self.old self.new }
    {
        let reads = u64::from(self.crew.batch);
        reserve_reads(self.stores.slice_mut(), reads)
    }

    // Makes new queues, and room for what the loaders of so many entries need.
    fn set_up(
        &mut self,
        queues: &mut Queues,
        answers: &mut QueuePass<Loaded>,
        entries: u64,
    ) -> Result<(), NoMemory>
        requires crew { IsCrew self.old.crew }
        requires depth { IsDepth self.old.depth }
        requires sizes { AreSized (tile_length self.old.shape self.old.depth) self.old.round.buffers.elements }
        ensures set_up { OnOk result (IsSetUp queues.new self.new.round answers.new
            (tile_length self.new.shape self.new.depth) self.new.crew entries) }
        ensures rest { self.new ≡ record self.old { round = self.new.round } }
    {
        let blank = Vec::from_elem(self.alloc, 0, tile_length(&self.geometry, self.depth))?;
        self.round
            .prepare(queues, answers, &self.crew, blank.as_slice(), entries)
    }

    /// Puts a request for each entry of the batch for which the pool is prepared into its queues. It takes no memory.
    pub fn ask<Rt: Threads + Wait>(&mut self, rt: &Rt, queues: &Queues, batch: &Batch)
        requires prepared { (answers : Token Answer) × (report : Told)
            × IsPreparedStream F.File queues.now answers report self.old batch.now.elements }
        requires inside { All (λ e. e.page < pages_of self.old.shape) batch.now.elements }
        ensures asked { (answers : Token Answer) (report : Told)
            → IsPreparedStream F.File queues.now answers report self.old batch.now.elements
            → IsAskedStream F.File queues.now answers report self.new batch.now.elements }
        ensures rest { self.new ≡ record self.old { round = self.new.round } }
    {
        self.round.ask(rt, queues, batch.slice());
    }

    /// Moves a loader of each store out.
    pub fn detach(
        &mut self,
        queues: &Queues,
        answers: &mut QueuePass<Loaded>,
    ) -> Items<QueuedLoader<F>>
        requires asked { (report : Told) × (batch : List Entry)
            × IsAskedStream F.File queues.now answers.old report self.old batch }
        ensures out { AreLoadersOut F.File queues.now self.old self.new answers.old answers.new result.elements }
        ensures may { All (MayLoad F.File queues.now) result.elements }
    {
        let stores = mem::replace(&mut self.stores, Items::new(self.alloc));
        self.round.deal(queues, answers, stores)
    }

    /// Ends the round of the loaders, has their stores and the buffers of the results back, and takes from the report which changes
    /// were made and which tiles were lost.
    pub fn end_round(
        &mut self,
        queues: &Queues,
        loaders: Items<QueuedLoader<F>>,
        answers: &mut QueuePass<Loaded>,
        report: &mut StreamReport,
    ) -> (Events, Losses)
        requires { (batch : List Entry) × (b : StreamBegun F)
            × MayEndStream F.File queues.now self.old batch loaders.elements answers.old report.old b }
        ensures ended { (batch : List Entry) (b : StreamBegun F)
            → MayEndStream F.File queues.now self.old batch loaders.elements answers.old report.old b
            → HasEndedStream F.File self.old self.new batch report.old b }
        ensures emptied { AreEmptied queues.now self.new.round.asks answers.new }
        ensures events { result.0.elements ≡ report.old.events.elements }
        ensures losses { result.1.elements ≡ report.old.losses.elements }
    {
        let stores = self.round.end_round(queues, answers, loaders);
        self.round.keep(&mut report.results);
        mem::replace(&mut self.stores, stores).destroy_empty();
        let events = mem::replace(&mut report.events, Items::new(self.alloc));
        let losses = mem::replace(&mut report.losses, Items::new(self.alloc));
        (events, losses)
    }
}
