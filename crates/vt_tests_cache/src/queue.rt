//! Queues of two places, alone and between two threads.

ghost use Rattle.std.specs.Thread.{IsSync};
ghost use Rattle.vt_queue.specs.Queues.{IsPassOfQueue};

use crate::checks::holds;
use std::alloc::Global;
use std::sync::Wait;
use std::thread::{Threads, join_mut};
use vt_outside::Bytes;
use vt_queue::*;

// An item with a ticket.
trait Ticketed {
    fn new(alloc: Global, ticket: u32) -> Self;

    fn ticket(&self) -> u32;
}

impl Ticketed for Request {
    fn new(alloc: Global, ticket: u32) -> Request {
        Request {
            ticket,
            page: 7,
            buffer: Bytes::new(alloc),
        }
    }

    fn ticket(&self) -> u32 {
        self.ticket
    }
}

impl Ticketed for Loaded {
    fn new(alloc: Global, ticket: u32) -> Loaded {
        Loaded {
            request: Request::new(alloc, ticket),
            outcome: Outcome::Read,
        }
    }

    fn ticket(&self) -> u32 {
        self.request.ticket
    }
}

// Puts an item, and answers the ticket of one that was handed back.
fn refused<Rt: Threads + Wait + Sync, I: Ticketed + Drop>(
    rt: &Rt,
    alloc: Global,
    queue: &Queue<I>,
    pass: &mut QueuePass<I>,
    ticket: u32,
) -> Option<u32>
    requires { IsPassOfQueue queue.now pass.old }
    ensures { IsPassOfQueue queue.now pass.new }
{
    match queue.put(rt, pass, I::new(alloc, ticket)) {
        Ok(()) => None,
        Err(Full { item }) => Some(item.ticket()),
    }
}

// Takes an item, and answers its ticket.
fn taken<Rt: Threads + Wait + Sync, I: Ticketed + Drop>(
    rt: &Rt,
    queue: &Queue<I>,
    pass: &mut QueuePass<I>,
) -> Option<u32>
    requires { IsPassOfQueue queue.now pass.old }
    ensures { IsPassOfQueue queue.now pass.new }
{
    Some(queue.take(rt, pass)?.ticket())
}

// Whether of three puts, of the tickets 0, 1 and 2, the last one hands back, and three takes then give the others and none, in a
// queue of two places.
fn is_in_order<Rt: Threads + Wait + Sync, I: Ticketed + Drop>(rt: &Rt, alloc: Global) -> bool {
    let Ok((queue, mut pass)) = Queue::<I>::new(alloc, 2) else {
        return false;
    };
    let puts = [
        refused(rt, alloc, &queue, &mut pass, 0),
        refused(rt, alloc, &queue, &mut pass, 1),
        refused(rt, alloc, &queue, &mut pass, 2),
    ];
    puts == [None, None, Some(2)] && taken_three(rt, &queue, &mut pass) == [Some(0), Some(1), None]
}

// What three takes give.
fn taken_three<Rt: Threads + Wait + Sync, I: Ticketed + Drop>(
    rt: &Rt,
    queue: &Queue<I>,
    pass: &mut QueuePass<I>,
) -> [Option<u32>; 3]
    requires { IsPassOfQueue queue.now pass.old }
{
    [
        taken(rt, queue, pass),
        taken(rt, queue, pass),
        taken(rt, queue, pass),
    ]
}

#[test]
fn the_first_request_comes_out_first_and_a_full_queue_hands_back(rt: HostRuntime) {
    holds(&rt, is_in_order::<HostRuntime, Request>(&rt, rt.alloc()));
}

#[test]
fn the_first_result_comes_out_first_and_a_full_queue_hands_back(rt: HostRuntime) {
    holds(&rt, is_in_order::<HostRuntime, Loaded>(&rt, rt.alloc()));
}

// Two threads put a request each, 3 and 4.
fn put_beside<Rt: Threads + Wait + Sync>(
    rt: &Rt,
    alloc: Global,
    queue: &RequestQueue,
    mine: &mut QueuePass<Request>,
    theirs: &mut QueuePass<Request>,
)
    requires { IsPassOfQueue queue.now mine.old × IsPassOfQueue queue.now theirs.old }
    ensures { IsPassOfQueue queue.now mine.new × IsPassOfQueue queue.now theirs.new }
{
    join_mut(
        rt,
        &mut || -> ()
            requires { IsSync Rt.row × IsPassOfQueue queue.now mine.now }
            ensures { IsPassOfQueue queue.entry.now mine.exit.now }
        {
            let _ = refused(rt, alloc, queue, mine, 3);
        },
        &mut || -> ()
            requires { IsSync Rt.row × IsPassOfQueue queue.now theirs.now }
            ensures { IsPassOfQueue queue.entry.now theirs.exit.now }
        {
            let _ = refused(rt, alloc, queue, theirs, 4);
        },
    );
}

// Whether what two threads put is taken, through one pass again, once each.
fn is_taken_once<Rt: Threads + Wait + Sync>(rt: &Rt, alloc: Global) -> bool {
    let Ok((queue, mut mine)) = RequestQueue::new(alloc, 2) else {
        return false;
    };
    let Ok(mut theirs) = queue.split(alloc, &mut mine) else {
        return false;
    };
    put_beside(rt, alloc, &queue, &mut mine, &mut theirs);
    queue.join(&mut mine, theirs);
    let takes = taken_three(rt, &queue, &mut mine);
    takes == [Some(3), Some(4), None] || takes == [Some(4), Some(3), None]
}

#[test]
fn what_two_threads_put_is_taken_once_each(rt: HostRuntime) {
    holds(&rt, is_taken_once(&rt, rt.alloc()));
}
