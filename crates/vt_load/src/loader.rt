//! A loader.

ghost use Rattle.std.specs.Prelude.{◌≡◌, ◌≤◌, OnOk, OnErr};
ghost use Rattle.vt_queue.specs.Queues.{queue_view_of, queue_splits_of, IsPassOfQueue, capacity_of};
ghost use Rattle.vt_load.specs.Loads.{Loads, HasEndedLoading};
ghost use Rattle.vt_load.specs.Loaders.{with_file};

use crate::load::load;
use std::marker::Model;
use std::sync::Wait;
use std::thread::Threads;
use vt_outside::{File, Gate, NoMemory};
use vt_queue::{Loaded, QueuePass, Request, RequestQueue, ResultQueue};
use vt_tiles::Store;

/// A worker that reads tiles from a store of its own. Contracts see the store and the loader's number.
pub struct Loader<F: File> {
    store: Store<F>,
    loader: u32,
}

impl<F: File> Model for Loader<F> {
    ghost use Rattle.vt_load.specs.Loaders.{LoaderView};

    ghost Value = { LoaderView F };

    ghost view = { λ l. record { store = l.store; loader = l.loader } };
}

impl<F: File> Loader<F> {
    /// The loader of that number, from 0, which reads this store.
    pub fn new(store: Store<F>, loader: u32) -> Loader<F>
        ensures { result ≡ record { store = store; loader = loader } }
    {
        Loader { store, loader }
    }

    /// Makes room to note so many more reads. After a refusal nothing changed.
    pub fn reserve(&mut self, reads: u64) -> Result<(), NoMemory>
        ensures room { OnOk result (reads ≤ F.spare self.new.store.file) }
        ensures refused { OnErr result (F.spare self.new.store.file ≡ F.spare self.old.store.file) }
        ensures bytes { F.bytes self.new.store.file ≡ F.bytes self.old.store.file }
        ensures asked { F.asked self.new.store.file ≡ F.asked self.old.store.file }
        ensures name { F.name self.new.store.file ≡ F.name self.old.store.file }
        ensures faults { F.faults self.new.store.file ≡ F.faults self.old.store.file }
        ensures same { self.new ≡ with_file self.old self.new.store.file }
    {
        self.store.reserve(reads)
    }

    /// Takes requests until the queue is empty, or until it has taken as many as the queue has room for. It reads each once,
    /// by one read of the tile of its page into its buffer, and puts the result; where the queue of the results is full it
    /// tries again, and so it may wait. The file can note at least as many reads as the queue of the requests has room for.
    ///
    /// A request is `Lost` only where the file's count of faults rose at its read. A request whose page the store has not, or
    /// whose buffer has not the length of a tile, is dropped: it is not read, and has no result. The gate is told of each read
    /// before it is made. It takes no memory.
    pub fn run<Rt: Threads + Wait, G: Gate>(
        &mut self,
        rt: &Rt,
        requests: &RequestQueue,
        asks: &mut QueuePass<Request>,
        results: &ResultQueue,
        answers: &mut QueuePass<Loaded>,
        gate: &G,
    )
        requires asks { IsPassOfQueue requests.now asks.old }
        requires answers { IsPassOfQueue results.now answers.old }
        requires room { capacity_of requests.now ≤ F.spare self.old.store.file }
        ensures asks { IsPassOfQueue requests.now asks.new × (queue_splits_of asks.new ≡ queue_splits_of asks.old) }
        ensures answers { IsPassOfQueue results.now answers.new × (queue_splits_of answers.new ≡ queue_splits_of answers.old) }
        ensures loads { Loads F.File self.old.store.shape self.old.store.depth (queue_view_of asks.old) (queue_view_of asks.new)
            (queue_view_of answers.old) (queue_view_of answers.new) self.old.store.file self.new.store.file }
        ensures ended { HasEndedLoading (capacity_of requests.now) (queue_view_of asks.old) (queue_view_of asks.new) }
        ensures same { self.new ≡ with_file self.old self.new.store.file }
    {
        load(
            rt,
            &mut self.store,
            self.loader,
            requests,
            asks,
            results,
            answers,
            gate,
        );
    }

    /// The store, in place of the loader.
    pub fn into_store(self) -> Store<F>
        ensures { result ≡ self.store }
    {
        let Loader { store, loader: _ } = self;
        store
    }
}
