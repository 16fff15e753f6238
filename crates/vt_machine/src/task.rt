//! What the streamer of a pass does.

ghost use Rattle.vt_machine.specs.Jobs.{Job, job_of};

use std::sync::Wait;
use std::thread::Threads;
use vt_evict::Planned;
use vt_outside::Gate;
use vt_pictures::Shot;

/// The part of a pass that its streamer does: it changes itself alone, and reads what it shares with the other workers, an `S`.
pub trait Task<S> {
    /// It may begin, on what is shared and for the pass's job.
    ghost ready: { S → Job → Self → Type 0 };

    /// What it was and what it is, once it has worked.
    ghost did: { S → Job → Self → Self → Type 0 };

    /// Does the part.
    fn work<Rt: Threads + Wait, G: Gate>(
        &mut self,
        rt: &Rt,
        shared: &S,
        shot: &Shot<'_>,
        batch: &[Planned],
        gate: &G,
    )
        requires { ready shared.now (job_of shot.now batch.now) self.old }
        ensures { did shared.now (job_of shot.now batch.now) self.old self.new };
}
