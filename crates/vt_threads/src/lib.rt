//! How many threads a piece of work is worth, and how its pieces are dealt to them.
#![tactic(auto)]

mod times;

ghost use Rattle.std.specs.Prelude.{◌≡◌, ◌*◌, ◌≤◌, ◌⊎◌};
ghost use Rattle.vt_threads.specs.Parts.{least_work};

use std::thread::{Threads, available_parallelism};
pub use times::{
    BLENDING_TIME, DRAWING_TIME, HALVING_TIME, REPLAYING_TIME, SAMPLE_TIME, STRIP_HALVING_TIME,
};

// How many nanoseconds of work a thread is made for at least. To make a thread and join it takes 25 to 60 microseconds, and four parts by halves
// 90 to 120: a part that takes less than this gains nothing by a thread of its own.
const LEAST_WORK: u64 = 100_000;

/// How many processors this program may use at once, at least 1: those that are online and that it may run on, within its quota.
/// Where the system does not say, it is 1. The system's files are read for it, so a command asks once.
pub fn processors<Rt: Threads>(rt: &Rt) -> usize
    ensures { 1 ≤ result }
{
    match available_parallelism(rt) {
        Ok(count) => count.get(),
        Err(_) => 1,
    }
}

/// How many threads, the caller's own among them, are to share work that takes one thread so many nanoseconds: as many as there are
/// processors, but each has at least 100 microseconds of work. Work that is too small for two stays with the caller's own.
pub fn threads_for(processors: usize, nanoseconds: u64) -> usize
    ensures some { 1 ≤ result }
    ensures few { 1 ≤ processors → result ≤ processors }
    ensures worth { (result ≡ 1) ⊎ (least_work * result ≤ nanoseconds) }
{
    let worth = nanoseconds / LEAST_WORK;
    if worth < 2 || processors < 2 {
        return 1;
    }
    if worth < processors as u64 {
        worth as usize
    } else {
        processors
    }
}

/// How many of so many pieces, as the rows of a picture, the first threads take, where each thread takes about as many. The last takes what is
/// left over.
pub fn share(pieces: usize, threads: usize, first: usize) -> usize
    requires some { 1 ≤ threads }
    requires first { first ≤ threads }
    ensures { result ≤ pieces }
{
    pieces / threads * first
}
