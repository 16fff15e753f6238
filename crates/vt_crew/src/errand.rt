//! What is done with a crew.

ghost use Rattle.std.specs.Thread.{IsSend, IsSync};

use crate::crew::Desks;
use crate::ends::Hand;
use crate::hand::{end_hands, serve_all};
use crate::work::Work;
use std::alloc::Global;
use std::sync::Wait;
use std::thread::{Threads, join_mut};

/// What a thread does while a crew is there for its jobs. Its type may have no `Drop`.
pub trait Errand<J: Work> {
    /// It may be run.
    ghost ready: { Self → Type 0 };

    /// What it was and what it is, once it was run.
    ghost did: { Self → Self → Type 0 };

    /// Runs it. It may wait. It makes no threads of its own: what a method of an implementation sends to a thread may rest on no bound.
    fn run<Rt: Threads + Wait>(&mut self, rt: &Rt, desks: &mut Desks<J>)
        requires { ready self.old }
        ensures { did self.old self.new };
}

// Runs an errand, and ends the desks.
fn run_and_dismiss<Rt: Threads + Wait, J: Work, W: Errand<J>>(
    rt: &Rt,
    desks: &mut Desks<J>,
    errand: &mut W,
)
    requires { W.ready errand.old }
    ensures { W.did errand.old errand.new }
{
    errand.run(rt, desks);
    desks.dismiss();
}

// Runs an errand in this thread beside the hands, and returns once it is done and the hands have ended. Where no thread can be made it is run
// first, while no hand serves, and the hands then find that their desks have ended.
fn run_beside<Rt: Threads + Wait + Sync, J: Work + Send, W: Errand<J>>(
    rt: &Rt,
    hands: &mut [Option<Hand<J>>],
    desks: &mut Desks<J>,
    errand: &mut W,
)
    requires { W.ready errand.old }
    ensures { W.did errand.old errand.new }
{
    join_mut(
        rt,
        &mut || -> ()
            requires { IsSync Rt.row × IsSend J.row }
        { serve_all(rt, hands) },
        &mut || -> ()
            requires { IsSync Rt.row × W.ready errand.now }
            ensures { W.did errand.entry.now errand.exit.now }
        { run_and_dismiss(rt, desks, errand) },
    );
}

/// Runs an errand in this thread with a crew of so many hands, or fewer where there is no memory. Each hand has a thread of its own, as far as
/// threads can be made, which lives as long as the errand. It returns once the errand is done and all hands have ended, and may wait. With no
/// hands no thread is made.
pub fn run_with_crew<Rt: Threads + Wait + Sync, J: Work + Send, W: Errand<J>>(
    rt: &Rt,
    alloc: Global,
    hands: usize,
    errand: &mut W,
)
    requires { W.ready errand.old }
    ensures { W.did errand.old errand.new }
{
    let mut others = Vec::new(alloc);
    let mut desks = Desks::new(alloc, hands, &mut others);
    if others.is_empty() {
        run_and_dismiss(rt, &mut desks, errand);
    } else {
        run_beside(rt, others.as_mut_slice(), &mut desks, errand);
    }
    desks.end();
    end_hands(rt, others);
}
