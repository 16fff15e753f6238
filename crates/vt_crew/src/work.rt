//! What a hand does, or its caller.

use std::sync::Wait;
use std::thread::Threads;

/// A job that goes to another thread and comes back. Its type may have no `Drop`, as that of an open file.
pub trait Work {
    /// It may be done.
    ghost ready: { Self → Type 0 };

    /// What it was and what it is, once it was done.
    ghost did: { Self → Self → Type 0 };

    /// Does it. It may wait.
    fn work<Rt: Threads + Wait>(&mut self, rt: &Rt)
        requires { ready self.old }
        ensures { did self.old self.new };
}

/// Does a job.
pub(crate) fn do_job<J: Work, Rt: Threads + Wait>(rt: &Rt, mut job: J) -> J
    requires { J.ready job }
    ensures { J.did job result }
{
    job.work(rt);
    job
}
