//! Loaders with their passes of the two queues, and how these are made of a pass and made one again.

ghost use Rattle.std.specs.Prelude.{◌≡◌, ◌+◌, ◌/◌, ◌≤◌, [], List, Option, length, reverse, All, ℕ};
ghost use Rattle.std.specs.List.{range_with_len};
ghost use Rattle.vt_queue.specs.Limits.{most_loaders};
ghost use Rattle.vt_tiles.specs.Shape.{Shape};
ghost use Rattle.vt_queue.specs.PassViews.{all_shares, split_part, Splits, all_joined};
ghost use Rattle.vt_queue.specs.Steps.{IsAtStep};
ghost use Rattle.vt_queue.specs.Queues.{queue_view_of, queue_splits_of, IsPassOfQueue, capacity_of};
ghost use Rattle.vt_queue.specs.declared.items.Request.{Request as Ask};
ghost use Rattle.vt_queue.specs.declared.items.Loaded.{Loaded as Answer};
ghost use Rattle.vt_load.specs.QueuedLoaders.{AreOf, MayLoad, HasLoaded, IsLoaderOf, AreSplitOff, asks_of, answers_of, stores_of, numbers_of};

use crate::loader::Loader;
use std::alloc::Global;
use std::marker::Model;
use std::sync::Wait;
use std::thread::Threads;
use vt_outside::{File, Gate, Items};
use vt_queue::{Loaded, Queue, QueuePass, Request, RequestQueue, ResultQueue};
use vt_tiles::{Store, Stores};

/// The two queues of a pass, which its workers share.
#[derive(Drop)]
pub struct Queues {
    /// From those who want tiles to the loaders.
    pub requests: RequestQueue,
    /// From the loaders to the streamer.
    pub results: ResultQueue,
}

/// A loader with its passes of the two queues. Contracts see all of these.
pub struct QueuedLoader<F: File> {
    loader: Loader<F>,
    asks: QueuePass<Request>,
    answers: QueuePass<Loaded>,
}

impl<F: File> Model for QueuedLoader<F> {
    ghost use Rattle.vt_load.specs.QueuedLoaders.{QueuedView};

    ghost Value = { QueuedView F };

    ghost view = { λ l. record { loader = l.loader; asks = l.asks; answers = l.answers } };
}

impl<F: File> QueuedLoader<F> {
    /// A loader with these passes.
    pub fn new(
        loader: Loader<F>,
        asks: QueuePass<Request>,
        answers: QueuePass<Loaded>,
    ) -> QueuedLoader<F>
        ensures { result ≡ record { loader = loader; asks = asks; answers = answers } }
    {
        QueuedLoader {
            loader,
            asks,
            answers,
        }
    }

    /// Lets the loader run.
    pub fn run<Rt: Threads + Wait, G: Gate>(&mut self, rt: &Rt, queues: &Queues, gate: &G)
        requires { MayLoad F.File queues.now self.old }
        ensures { HasLoaded F.File queues.now self.old self.new }
    {
        self.loader.run(
            rt,
            &queues.requests,
            &mut self.asks,
            &queues.results,
            &mut self.answers,
            gate,
        );
    }

    // The store and the passes, in place of all.
    fn into_parts(self) -> (Store<F>, QueuePass<Request>, QueuePass<Loaded>)
        ensures { result ≡ record { 0 = self.loader.store; 1 = self.asks; 2 = self.answers } }
    {
        let QueuedLoader {
            loader,
            asks,
            answers,
        } = self;
        (loader.into_store(), asks, answers)
    }
}

// Splits a pass off one that has splits left.
#[tactic(auto, using(crate::proofs::Dealing::part_small))]
fn split_off<I>(queue: &Queue<I>, alloc: Global, pass: &mut QueuePass<I>) -> QueuePass<I>
    requires of { IsPassOfQueue queue.now pass.old }
    requires some { 1 ≤ queue_splits_of pass.old }
    requires few { queue_splits_of pass.old ≤ all_shares }
    ensures of { IsPassOfQueue queue.now pass.new }
    ensures other { IsPassOfQueue queue.now result }
    ensures splits { Splits (queue_view_of pass.old) (queue_view_of pass.new) (queue_view_of result) }
    ensures less { queue_splits_of pass.new ≤ queue_splits_of pass.old }
    ensures left { queue_splits_of pass.old ≤ queue_splits_of pass.new + all_shares / split_part + 1 }
{
    match queue.split(alloc, pass) {
        Ok(other) => other,
        Err(_) => unreachable!(),
    }
}

// Makes a loader of a store and a number, and splits passes off for it.
fn loader_for<F: File>(
    queues: &Queues,
    alloc: Global,
    asks: &mut QueuePass<Request>,
    answers: &mut QueuePass<Loaded>,
    store: Store<F>,
    number: u32,
) -> QueuedLoader<F>
    requires passes { AreOf queues.now asks.old answers.old }
    requires some { (1 ≤ queue_splits_of asks.old) × (1 ≤ queue_splits_of answers.old) }
    requires few { (queue_splits_of asks.old ≤ all_shares) × (queue_splits_of answers.old ≤ all_shares) }
    ensures passes { AreOf queues.now asks.new answers.new }
    ensures other { AreOf queues.now result.asks result.answers }
    ensures store { result.loader.store ≡ store }
    ensures number { result.loader.loader ≡ number }
    ensures asks { Splits (queue_view_of asks.old) (queue_view_of asks.new) (queue_view_of result.asks) }
    ensures answers { Splits (queue_view_of answers.old) (queue_view_of answers.new) (queue_view_of result.answers) }
    ensures less { (queue_splits_of asks.new ≤ queue_splits_of asks.old) × (queue_splits_of answers.new ≤ queue_splits_of answers.old) }
    ensures left { (queue_splits_of asks.old ≤ queue_splits_of asks.new + all_shares / split_part + 1)
        × (queue_splits_of answers.old ≤ queue_splits_of answers.new + all_shares / split_part + 1) }
{
    let theirs = split_off(&queues.requests, alloc, asks);
    let results = split_off(&queues.results, alloc, answers);
    QueuedLoader::new(Loader::new(store, number), theirs, results)
}

/// Makes a loader of each store of a list, which becomes empty, and splits passes off for it. The loader of the first store
/// has number 0.
pub fn deal<F: File>(
    queues: &Queues,
    alloc: Global,
    asks: &mut QueuePass<Request>,
    answers: &mut QueuePass<Loaded>,
    stores: &mut Stores<F>,
    loaders: &mut Items<QueuedLoader<F>>,
)
    requires passes { AreOf queues.now asks.old answers.old }
    requires splits { (queue_splits_of asks.old + 1 ≡ all_shares) × (queue_splits_of answers.old + 1 ≡ all_shares) }
    requires few { length stores.old.elements ≤ most_loaders }
    requires none { loaders.old.elements ≡ [] }
    requires room { length stores.old.elements ≤ loaders.old.spare }
    requires reads { All (λ store. capacity_of queues.now.requests ≤ F.spare store.file) stores.old.elements }
    ensures passes { AreOf queues.now asks.new answers.new }
    ensures stores { stores.new.elements ≡ [] }
    ensures room { length loaders.new.elements ≤ stores.new.spare }
    ensures loaders { reverse (stores_of loaders.new.elements) ≡ stores.old.elements }
    ensures numbers { reverse (numbers_of loaders.new.elements) ≡ range_with_len 0 (length stores.old.elements) }
    ensures of { (s : Shape) (d : ℕ) (known : Option (List ℕ))
        → All (λ store. (store.shape ≡ s) × (store.depth ≡ d) × (F.bytes store.file ≡ known)) stores.old.elements
        → All (IsLoaderOf F.File s d known) loaders.new.elements }
    ensures may { All (MayLoad F.File queues.now) loaders.new.elements }
    ensures split_off { AreSplitOff (queue_view_of asks.old) (queue_view_of asks.new) (queue_view_of answers.old) (queue_view_of answers.new) loaders.new.elements }
{
    while let Some(store) = stores.pop() {
        let number = stores.len();
        let loader = loader_for(queues, alloc, asks, answers, store, number as u32);
        loaders.push(loader);
    }
}

/// Makes the passes of loaders one with those from which they were split off, the last loader's first, and puts their stores
/// behind those of a list.
pub fn take_back<F: File>(
    queues: &Queues,
    asks: &mut QueuePass<Request>,
    answers: &mut QueuePass<Loaded>,
    mut loaders: Items<QueuedLoader<F>>,
    stores: &mut Stores<F>,
)
    requires passes { AreOf queues.now asks.old answers.old }
    requires loaders { All (λ l. AreOf queues.now l.asks l.answers) loaders.elements }
    requires some { 1 ≤ length loaders.elements }
    requires none { stores.old.elements ≡ [] }
    requires room { length loaders.elements ≤ stores.old.spare }
    ensures passes { AreOf queues.now asks.new answers.new }
    ensures asks { queue_view_of asks.new ≡ all_joined (queue_view_of asks.old) (asks_of loaders.elements) }
    ensures answers { queue_view_of answers.new ≡ all_joined (queue_view_of answers.old) (answers_of loaders.elements) }
    ensures stores { stores.new.elements ≡ reverse (stores_of loaders.elements) }
    ensures asks_at_step { (left : List Ask) × IsAtStep (queue_view_of asks.new) left }
    ensures answers_at_step { (left : List Answer) × IsAtStep (queue_view_of answers.new) left }
{
    while let Some(loader) = loaders.pop() {
        let (store, theirs, given) = loader.into_parts();
        stores.push(store);
        queues.requests.join(asks, theirs);
        queues.results.join(answers, given);
    }
    loaders.destroy_empty();
}
