//! The desks of a crew.

ghost use Rattle.std.specs.Prelude.{◌≡◌, ◌<◌, All, IfSome, MatchResult, vec_capacity, vec_len};
ghost use Rattle.std.specs.List.{AllZip};
ghost use Rattle.vt_crew.specs.Pendings.{IsJobOf};

use crate::desk::new_desk;
use crate::ends::{Desk, Hand, Pending};
use crate::work::Work;
use std::alloc::Global;
use std::sync::Wait;
use std::sync::atomic::AtomicU64;
use std::thread;
use std::thread::Threads;
use std::time::Duration;

// How often a caller looks whether all hands have begun, the first of these looks with no sleep between.
const LONGEST: u32 = 950;

// How many of the first looks only let other threads go on.
const YIELDS: u32 = 150;

// For how many microseconds it sleeps before a later look.
const SLEEP: u64 = 200;

/// The desks of a crew, each with a hand at its other end. They have no `Drop`, so that the hands are told when they end.
pub struct Desks<J: Work> {
    free: Vec<Desk<J>>,
}

// All jobs of a list: the last ones on desks, and in this thread those for which there is no hand, and the first.
fn work_at<J: Work, Rt: Threads + Wait>(rt: &Rt, desks: &mut Desks<J>, jobs: &mut Vec<J>)
    requires ready { All J.ready jobs.old.items }
    ensures did { AllZip J.did jobs.old.items jobs.new.items }
    ensures number { vec_len jobs.new ≡ vec_len jobs.old }
    ensures room { vec_capacity jobs.new ≡ vec_capacity jobs.old }
{
    let Some(mut job) = jobs.pop() else {
        return;
    };
    if jobs.is_empty() {
        job.work(rt);
        jobs.push_reserved(job);
        return;
    }
    match desks.ask(job) {
        Ok(pending) => {
            work_at(rt, desks, jobs);
            let job = desks.take_back(rt, pending);
            jobs.push_reserved(job);
        }
        Err(mut job) => {
            work_at(rt, desks, jobs);
            job.work(rt);
            jobs.push_reserved(job);
        }
    }
}

// Ends all desks of a list, and so their hands.
fn end_all<J: Work>(desks: &mut Vec<Desk<J>>)
    ensures { vec_len desks.new ≡ 0 }
{
    while let Some(desk) = desks.pop() {
        desk.end();
    }
}

impl<J: Work> Desks<J> {
    /// So many desks, or fewer where there is no memory, whose hands are put into a list. No hand serves yet.
    pub(crate) fn new(alloc: Global, count: usize, hands: &mut Vec<Option<Hand<J>>>) -> Self {
        let mut desks = Desks {
            free: Vec::new(alloc),
        };
        for _ in 0..count {
            if hands.reserve(1).is_ok() {
                if let Ok((desk, hand)) = new_desk(alloc) {
                    hands.push_reserved(Some(hand));
                    desks.keep(desk);
                }
            }
        }
        desks
    }

    // Has a desk back, or ends it where there is no memory for it.
    fn keep(&mut self, desk: Desk<J>) {
        if let Err(refused) = self.free.push(desk) {
            refused.value.end();
        }
    }

    // The place of a desk whose hand serves, if there is one.
    fn served_place(&self) -> Option<usize>
        ensures { IfSome result (λ at. at < vec_len self.now.free) }
    {
        let count = self.free.len();
        for passed in 0..count {
            let at = count - 1 - passed;
            if self.free[at].is_served() {
                return Some(at);
            }
        }
        None
    }

    /// Whether the hand of each desk serves on which no job lies. No clause says so.
    pub fn are_served(&self) -> bool {
        for desk in self.free.as_slice() {
            if !desk.is_served() {
                return false;
            }
        }
        true
    }

    /// Waits until the hand of each desk serves, for about a fifth of a second. No clause says so.
    pub fn await_hands<Rt: Wait>(&self, rt: &Rt) {
        for look in 0..LONGEST {
            if self.are_served() {
                return;
            }
            if look < YIELDS {
                thread::yield_now();
            } else {
                AtomicU64::new(0).park_timeout(rt, 0, Duration::from_micros(SLEEP));
            }
        }
    }

    /// Lays a job on a desk whose hand serves. Where there is none, the job is handed back.
    pub fn ask(&mut self, job: J) -> Result<Pending<J>, J>
        requires { J.ready job }
        ensures { MatchResult result (λ pending. IsJobOf job pending) (λ back. back ≡ job) }
    {
        match self.served_place() {
            Some(at) => Ok(self.free.swap_remove(at).ask(job)),
            None => Err(job),
        }
    }

    /// Takes back a job that was laid on one of these desks, once it was done. One that no hand has begun is done in this thread, and else it waits.
    pub fn take_back<Rt: Threads + Wait>(&mut self, rt: &Rt, pending: Pending<J>) -> J
        ensures { (job : J) → IsJobOf job pending → J.did job result }
    {
        let (job, desk) = pending.wait(rt);
        self.keep(desk);
        job
    }

    /// Does all jobs of a list, at once as far as there are hands: the first one in this thread, and there each for which there is no hand. It may
    /// wait.
    pub fn work_all<Rt: Threads + Wait>(&mut self, rt: &Rt, jobs: &mut Vec<J>)
        requires { All J.ready jobs.old.items }
        ensures { AllZip J.did jobs.old.items jobs.new.items }
    {
        work_at(rt, self, jobs);
    }

    /// Ends all desks, and so their hands.
    pub(crate) fn dismiss(&mut self) {
        end_all(&mut self.free);
    }

    /// Ends all desks, and so their hands.
    pub(crate) fn end(self) {
        let Desks { mut free } = self;
        end_all(&mut free);
        free.destroy_empty();
    }
}
