//! What a loader or a sampler of a pass does, in whatever thread.

ghost use Rattle.std.specs.Prelude.{List};
ghost use Rattle.vt_evict.specs.PlanTypes.batches.Planned.{Planned};
ghost use Rattle.vt_machine.specs.Jobs.{Job, job_of};

use std::sync::Wait;
use std::thread::Threads;
use vt_outside::Gate;
use vt_pictures::Shot;

/// A part of a pass that a loader or a sampler does, in the caller's thread or in another: it changes itself alone, and reads what it shares with the other
/// workers, an `S`. It is told no batch, which goes to no hand.
pub trait HandTask<S> {
    /// Whether several samplers have two threads at least, however small the picture is: where they share rows, one thread alone would be held up by
    /// each slow row.
    const IN_TWO: bool = false;

    /// It may begin, on what is shared and for the pass's job.
    ghost ready: { S → Job → Self → Type 0 };

    /// What it was and what it is, once it has worked.
    ghost did: { S → Job → Self → Self → Type 0 };

    /// Does the part, of a pass with whatever batch.
    fn work<Rt: Threads + Wait, G: Gate>(&mut self, rt: &Rt, shared: &S, shot: &Shot<'_>, gate: &G)
        requires { (batch : List Planned) × ready shared.now (job_of shot.now batch) self.old }
        ensures { (batch : List Planned) → ready shared.now (job_of shot.now batch) self.old
            → did shared.now (job_of shot.now batch) self.old self.new };
}
