//! Jobs of a crew.

use crate::checks::holds;
use std::alloc::{AllocError, Global};
use std::sync::Wait;
use std::sync::atomic::AtomicU64;
use std::sync::atomic::Ordering::SeqCst;
use std::thread;
use std::thread::Threads;
use vt_crew::{Desks, Errand, Work, run_with_crew};

// How often a job looks for others, and an errand for hands, before it goes on all the same.
const TURNS: u32 = 50_000_000;

// The jobs of a round.
const JOBS: u64 = 4;

// The rounds of small jobs, and how many there are in each. Most are over before a hand has woken for them, so that their caller does them.
const SMALL_ROUNDS: u64 = 10_000;

const SMALL_JOBS: u64 = 3;

// A job that counts how often it was done, and waits each time until so many jobs were begun that often.
#[derive(Drop)]
struct Meeting<'a> {
    times: u64,
    others: u64,
    begun: &'a AtomicU64,
    // Whether it waited in vain.
    is_late: bool,
}

impl<'a> Work for Meeting<'a> {
    ghost ready = { λ meeting. Unit {0} };

    ghost did = { λ before after. Unit {0} };

    fn work<Rt: Threads + Wait>(&mut self, _rt: &Rt) {
        self.begun.fetch_add(1, SeqCst);
        self.times = self.times.wrapping_add(1);
        if !comes_to(self.begun, self.others.wrapping_mul(self.times)) {
            self.is_late = true;
        }
    }
}

/// Whether a count comes to so much in time.
pub fn comes_to(count: &AtomicU64, least: u64) -> bool {
    for _ in 0..TURNS {
        if count.load(SeqCst) >= least {
            return true;
        }
        thread::yield_now();
    }
    false
}

/// Waits until all hands serve, or until it has looked often enough.
pub fn wait_for_hands<J: Work>(desks: &Desks<J>) {
    for _ in 0..TURNS {
        if desks.are_served() {
            return;
        }
        thread::yield_now();
    }
}

// Two rounds of the same jobs, once the hands are there.
#[derive(Drop)]
struct Rounds<'a> {
    jobs: Vec<Meeting<'a>>,
}

impl<'a> Errand<Meeting<'a>> for Rounds<'a> {
    ghost ready = { λ rounds. Unit {0} };

    ghost did = { λ before after. Unit {0} };

    fn run<Rt: Threads + Wait>(&mut self, rt: &Rt, desks: &mut Desks<Meeting<'a>>) {
        wait_for_hands(desks);
        desks.work_all(rt, &mut self.jobs);
        desks.work_all(rt, &mut self.jobs);
    }
}

// The jobs that are to find so many begun in time.
fn meetings(alloc: Global, others: u64, begun: &AtomicU64) -> Result<Vec<Meeting<'_>>, AllocError> {
    let mut jobs = Vec::new(alloc);
    for _ in 0..JOBS {
        jobs.push(Meeting {
            times: 0,
            others,
            begun,
            is_late: false,
        })?;
    }
    Ok(jobs)
}

// Whether each job was done twice and in time.
fn have_met(jobs: &[Meeting<'_>]) -> bool {
    for job in jobs {
        if job.times != 2 || job.is_late {
            return false;
        }
    }
    true
}

// Whether the jobs of two rounds by so many hands were each done twice, and each found so many begun in time.
fn are_done<Rt: Threads + Wait + Sync>(
    rt: &Rt,
    alloc: Global,
    hands: usize,
    others: u64,
) -> Result<bool, AllocError> {
    let begun = AtomicU64::new(0);
    let mut rounds = Rounds {
        jobs: meetings(alloc, others, &begun)?,
    };
    run_with_crew(rt, alloc, hands, &mut rounds);
    Ok(have_met(rounds.jobs.as_slice()) && begun.load(SeqCst) == 2 * JOBS)
}

#[test]
fn three_hands_and_their_caller_do_four_jobs_at_once_and_once_more(rt: HostRuntime) {
    holds(&rt, are_done(&rt, rt.alloc(), 3, JOBS).ok() == Some(true));
}

// A job that is over at once. It counts how often it was done, and adds its share to a sum each time.
#[derive(Drop)]
struct Small<'a> {
    times: u64,
    share: u64,
    sum: &'a AtomicU64,
}

impl<'a> Work for Small<'a> {
    ghost ready = { λ small. Unit {0} };

    ghost did = { λ before after. Unit {0} };

    fn work<Rt: Threads + Wait>(&mut self, _rt: &Rt) {
        self.times = self.times.wrapping_add(1);
        self.sum.fetch_add(self.share, SeqCst);
    }
}

// Many rounds of the same small jobs, once the hands are there.
#[derive(Drop)]
struct SmallRounds<'a> {
    jobs: Vec<Small<'a>>,
}

impl<'a> Errand<Small<'a>> for SmallRounds<'a> {
    ghost ready = { λ rounds. Unit {0} };

    ghost did = { λ before after. Unit {0} };

    fn run<Rt: Threads + Wait>(&mut self, rt: &Rt, desks: &mut Desks<Small<'a>>) {
        wait_for_hands(desks);
        for _ in 0..SMALL_ROUNDS {
            desks.work_all(rt, &mut self.jobs);
        }
    }
}

// The small jobs, with the shares from 1 on.
fn small_jobs(alloc: Global, sum: &AtomicU64) -> Result<Vec<Small<'_>>, AllocError> {
    let mut jobs = Vec::new(alloc);
    for share in 0..SMALL_JOBS {
        jobs.push(Small {
            times: 0,
            share: share + 1,
            sum,
        })?;
    }
    Ok(jobs)
}

// Whether each small job was done once in each round.
fn were_done_in_all(jobs: &[Small<'_>]) -> bool {
    for job in jobs {
        if job.times != SMALL_ROUNDS {
            return false;
        }
    }
    true
}

// Whether each small job was done once in each round by two hands and their caller, and the sum is that of all shares.
fn are_small_done<Rt: Threads + Wait + Sync>(rt: &Rt, alloc: Global) -> Result<bool, AllocError> {
    let sum = AtomicU64::new(0);
    let mut rounds = SmallRounds {
        jobs: small_jobs(alloc, &sum)?,
    };
    run_with_crew(rt, alloc, 2, &mut rounds);
    Ok(were_done_in_all(rounds.jobs.as_slice()) && sum.load(SeqCst) == SMALL_ROUNDS * (1 + 2 + 3))
}

#[test]
fn each_of_many_small_jobs_is_done_once_by_two_hands_or_their_caller(rt: HostRuntime) {
    holds(&rt, are_small_done(&rt, rt.alloc()).ok() == Some(true));
}

#[test]
fn a_caller_with_no_hand_does_all_jobs_itself(rt: HostRuntime) {
    holds(&rt, are_done(&rt, rt.alloc(), 0, 1).ok() == Some(true));
}
