//! Loaders at work in threads.

ghost use Rattle.std.specs.Prelude.{IfSome};
ghost use Rattle.std.specs.Thread.{IsSync, IsSend};
ghost use Rattle.vt_queue.specs.Queues.{IsPassOfQueue};

use super::*;
use std::thread;
use std::thread::join_mut;
use vt_outside::File;

// A loader with its passes.
struct Worker<F: File> {
    loader: Loader<F>,
    asks: QueuePass<Request>,
    answers: QueuePass<Loaded>,
}

impl<F: File> Worker<F> {
    // Lets the loader run.
    fn work<Rt: Threads + Wait>(&mut self, rt: &Rt, requests: &RequestQueue, results: &ResultQueue)
        requires asks { IsPassOfQueue requests.now self.old.asks }
        requires answers { IsPassOfQueue results.now self.old.answers }
        ensures asks { IsPassOfQueue requests.now self.new.asks }
        ensures answers { IsPassOfQueue results.now self.new.answers }
    {
        if let Ok(()) = self.loader.reserve(u64::from(requests.capacity())) {
            self.loader.run(
                rt,
                requests,
                &mut self.asks,
                results,
                &mut self.answers,
                &OpenGate,
            );
        }
    }
}

// Two loaders at once.
fn work_beside<Rt: Threads + Wait + Sync, F: File + Send>(
    rt: &Rt,
    first: &mut Worker<F>,
    second: &mut Worker<F>,
    requests: &RequestQueue,
    results: &ResultQueue,
)
    requires first { IsPassOfQueue requests.now first.old.asks × IsPassOfQueue results.now first.old.answers }
    requires second { IsPassOfQueue requests.now second.old.asks × IsPassOfQueue results.now second.old.answers }
    ensures first { IsPassOfQueue requests.now first.new.asks × IsPassOfQueue results.now first.new.answers }
    ensures second { IsPassOfQueue requests.now second.new.asks × IsPassOfQueue results.now second.new.answers }
{
    join_mut(
        rt,
        &mut || -> ()
            requires { IsSync Rt.row × IsSend F.row × IsPassOfQueue requests.now first.now.asks × IsPassOfQueue results.now first.now.answers }
            ensures { IsPassOfQueue requests.entry.now first.exit.now.asks × IsPassOfQueue results.entry.now first.exit.now.answers }
        { first.work(rt, requests, results) },
        &mut || -> ()
            requires { IsSync Rt.row × IsSend F.row × IsPassOfQueue requests.now second.now.asks × IsPassOfQueue results.now second.now.answers }
            ensures { IsPassOfQueue requests.entry.now second.exit.now.asks × IsPassOfQueue results.entry.now second.exit.now.answers }
        { second.work(rt, requests, results) },
    );
}

// Takes so many results, and tries again where there is none. The sum of their tickets.
fn sum_taken<Rt: Threads + Wait>(
    rt: &Rt,
    results: &ResultQueue,
    answers: &mut QueuePass<Loaded>,
    count: u32,
) -> u64
    requires { IsPassOfQueue results.now answers.old }
    ensures { IsPassOfQueue results.now answers.new }
{
    let mut sum = 0u64;
    let mut taken = 0;
    for _ in rt.forever() {
        if taken >= count {
            return sum;
        }
        let Some(loaded) = results.take(rt, answers) else {
            thread::yield_now();
            continue;
        };
        sum = sum.wrapping_add(u64::from(loaded.request.ticket));
        taken += 1;
    }
    unreachable!()
}

// A loader, and beside it one that takes so many of its results. The sum of their tickets.
fn take_beside<Rt: Threads + Wait + Sync, F: File + Send>(
    rt: &Rt,
    worker: &mut Worker<F>,
    answers: &mut QueuePass<Loaded>,
    requests: &RequestQueue,
    results: &ResultQueue,
    count: u32,
) -> u64
    requires worker { IsPassOfQueue requests.now worker.old.asks × IsPassOfQueue results.now worker.old.answers }
    requires answers { IsPassOfQueue results.now answers.old }
    ensures worker { IsPassOfQueue requests.now worker.new.asks × IsPassOfQueue results.now worker.new.answers }
    ensures answers { IsPassOfQueue results.now answers.new }
{
    let (_, sum) = join_mut(
        rt,
        &mut || -> ()
            requires { IsSync Rt.row × IsSend F.row × IsPassOfQueue requests.now worker.now.asks × IsPassOfQueue results.now worker.now.answers }
            ensures { IsPassOfQueue requests.entry.now worker.exit.now.asks × IsPassOfQueue results.entry.now worker.exit.now.answers }
        { worker.work(rt, requests, results) },
        &mut || -> u64
            requires { IsSync Rt.row × IsPassOfQueue results.now answers.now }
            ensures { IsPassOfQueue results.entry.now answers.exit.now }
        { sum_taken(rt, results, answers, count) },
    );
    sum
}

// Ends a worker, and closes its file.
fn end(folder: &mut MemoryFolder, worker: Worker<MemoryFile>) {
    let Worker {
        loader,
        asks: _,
        answers: _,
    } = worker;
    folder.close(loader.into_store().into_file());
}

// A worker over the store of a folder.
fn worker_of(
    alloc: Global,
    folder: &mut MemoryFolder,
    requests: &RequestQueue,
    asks: &mut QueuePass<Request>,
    results: &ResultQueue,
    answers: &mut QueuePass<Loaded>,
    loader: u32,
) -> Option<Worker<MemoryFile>>
    requires asks { IsPassOfQueue requests.now asks.old }
    requires answers { IsPassOfQueue results.now answers.old }
    ensures asks { IsPassOfQueue requests.now asks.new }
    ensures answers { IsPassOfQueue results.now answers.new }
    ensures worker { IfSome result (λ w. IsPassOfQueue requests.now w.asks × IsPassOfQueue results.now w.answers) }
{
    let asks = requests.split(alloc, asks).ok()?;
    let answers = results.split(alloc, answers).ok()?;
    let store = store_of(folder)?;
    Some(Worker {
        loader: Loader::new(store, loader),
        asks,
        answers,
    })
}

// Puts three requests, with the tickets 1, 2 and 4, and answers whether it did.
fn ask_three<Rt: Threads + Wait>(
    rt: &Rt,
    alloc: Global,
    requests: &RequestQueue,
    asks: &mut QueuePass<Request>,
) -> bool
    requires { IsPassOfQueue requests.now asks.old }
    ensures { IsPassOfQueue requests.now asks.new }
{
    let is_first = ask(rt, alloc, requests, asks, 1, 3, &[0; 12]);
    let is_second = ask(rt, alloc, requests, asks, 2, 0, &[0; 12]);
    ask(rt, alloc, requests, asks, 4, 4, &[0; 12]) && is_first && is_second
}

// Lets two loaders answer requests, and answers whether there were two.
fn work_two<Rt: Threads + Wait + Sync>(
    rt: &Rt,
    alloc: Global,
    folder: &mut MemoryFolder,
    requests: &RequestQueue,
    asks: &mut QueuePass<Request>,
    results: &ResultQueue,
    answers: &mut QueuePass<Loaded>,
) -> bool
    requires asks { IsPassOfQueue requests.now asks.old }
    requires answers { IsPassOfQueue results.now answers.old }
    ensures { IsPassOfQueue results.now answers.new }
{
    let Some(mut first) = worker_of(alloc, folder, requests, asks, results, answers, 0) else {
        return false;
    };
    let Some(mut second) = worker_of(alloc, folder, requests, asks, results, answers, 1) else {
        end(folder, first);
        return false;
    };
    work_beside(rt, &mut first, &mut second, requests, results);
    end(folder, first);
    end(folder, second);
    true
}

// Four requests, with the tickets 1, 2, 4 and 8, are put; two loaders answer them. The sum of the tickets of the results.
fn sum_of_two<Rt: Threads + Wait + Sync>(
    rt: &Rt,
    alloc: Global,
    folder: &mut MemoryFolder,
) -> Option<u64> {
    let (requests, mut asks) = RequestQueue::new(alloc, 4).ok()?;
    let (results, mut answers) = ResultQueue::new(alloc, 4).ok()?;
    let is_asked = ask_three(rt, alloc, &requests, &mut asks);
    let is_last = ask(rt, alloc, &requests, &mut asks, 8, 1, &[0; 12]);
    if is_asked
        && is_last
        && work_two(
            rt,
            alloc,
            folder,
            &requests,
            &mut asks,
            &results,
            &mut answers,
        )
    {
        return Some(sum_taken(rt, &results, &mut answers, 4));
    }
    None
}

// Whether two loaders answer each of four requests once, by one read each, beside one of the header each.
fn is_answered_once<Rt: Threads + Wait + Sync>(rt: &Rt, alloc: Global) -> bool {
    match folder_of(alloc, &[], &STORE) {
        Some(mut folder) => {
            sum_of_two(rt, alloc, &mut folder) == Some(15)
                && folder.asked("a", 5).is_some()
                && folder.asked("a", 6).is_none()
        }
        None => false,
    }
}

#[test]
fn two_loaders_answer_each_request_once(rt: HostRuntime) {
    for _ in 0..100 {
        holds(&rt, is_answered_once(&rt, rt.alloc()));
    }
}

// Lets a loader answer three requests, and takes its results beside it. The sum of their tickets, or 0 where there is no loader.
fn work_one<Rt: Threads + Wait + Sync>(
    rt: &Rt,
    alloc: Global,
    folder: &mut MemoryFolder,
    requests: &RequestQueue,
    asks: &mut QueuePass<Request>,
    results: &ResultQueue,
    answers: &mut QueuePass<Loaded>,
) -> u64
    requires asks { IsPassOfQueue requests.now asks.old }
    requires answers { IsPassOfQueue results.now answers.old }
{
    match worker_of(alloc, folder, requests, asks, results, answers, 0) {
        Some(mut worker) => {
            let sum = take_beside(rt, &mut worker, answers, requests, results, 3);
            end(folder, worker);
            sum
        }
        None => 0,
    }
}

// Three requests, with the tickets 1, 2 and 4, whose results go through a queue of one place. The sum of the tickets of the results.
fn sum_through_one_place<Rt: Threads + Wait + Sync>(
    rt: &Rt,
    alloc: Global,
    folder: &mut MemoryFolder,
) -> Option<u64> {
    let (requests, mut asks) = RequestQueue::new(alloc, 3).ok()?;
    let (results, mut answers) = ResultQueue::new(alloc, 1).ok()?;
    if !ask_three(rt, alloc, &requests, &mut asks) {
        return None;
    }
    Some(work_one(
        rt,
        alloc,
        folder,
        &requests,
        &mut asks,
        &results,
        &mut answers,
    ))
}

// Whether each of three requests is answered through a queue of one place.
fn is_answered_through_one_place<Rt: Threads + Wait + Sync>(rt: &Rt, alloc: Global) -> bool {
    match folder_of(alloc, &[], &STORE) {
        Some(mut folder) => sum_through_one_place(rt, alloc, &mut folder) == Some(7),
        None => false,
    }
}

#[test]
fn a_loader_tries_again_where_the_results_are_full(rt: HostRuntime) {
    holds(&rt, is_answered_through_one_place(&rt, rt.alloc()));
}
