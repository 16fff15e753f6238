//! The workers of a pass, at work at once.

ghost use Rattle.std.specs.Thread.{IsSync, IsSend};
ghost use Rattle.vt_machine.specs.Jobs.{job_of};
ghost use Rattle.vt_machine.specs.All.{AllReady, AllDid};

use crate::hand_task::HandTask;
use crate::task::Task;
use crate::threads::{loader_threads, sampler_threads};
use std::sync::Wait;
use std::thread::{Threads, join_mut};
use vt_evict::Planned;
use vt_outside::Gate;
use vt_pictures::Shot;

/// The samplers, and beside them the loaders and the streamer, in as many threads as pay: in this one alone where the batch is empty and the
/// picture small. Where no thread can be made, they work one after the other, and the streamer after the loaders.
pub fn work_together<
    Rt: Threads + Wait + Sync,
    S: Sync,
    L: HandTask<S> + Send,
    M: HandTask<S> + Send,
    R: Task<S> + Send,
    G: Gate + Sync,
>(
    rt: &Rt,
    loaders: &mut [L],
    samplers: &mut [M],
    streamer: &mut R,
    shared: &S,
    shot: &Shot<'_>,
    batch: &[Planned],
    gate: &G,
)
    requires loaders { AllReady (L.ready shared.now (job_of shot.now batch.now)) loaders.old }
    requires samplers { AllReady (M.ready shared.now (job_of shot.now batch.now)) samplers.old }
    requires streamer { R.ready shared.now (job_of shot.now batch.now) streamer.old }
    ensures loaders { AllDid (L.did shared.now (job_of shot.now batch.now)) loaders.old loaders.new }
    ensures samplers { AllDid (M.did shared.now (job_of shot.now batch.now)) samplers.old samplers.new }
    ensures streamer { R.did shared.now (job_of shot.now batch.now) streamer.old streamer.new }
{
    if batch.is_empty() {
        load_and_stream(rt, loaders, streamer, shared, shot, batch, gate);
        draw_all(rt, samplers, shared, shot, batch, gate);
    } else if samplers.len() == 1 || sampler_threads::<S, M>(shot.path) == 1 {
        draw_here(rt, loaders, samplers, streamer, shared, shot, batch, gate);
    } else {
        stream_here(rt, loaders, samplers, streamer, shared, shot, batch, gate);
    }
}

// Draws in this thread, where it begins at once, beside loaders and streamer. The second closure of a join runs in this thread, and before the
// first where no thread can be made.
fn draw_here<
    Rt: Threads + Wait + Sync,
    S: Sync,
    L: HandTask<S> + Send,
    M: HandTask<S> + Send,
    R: Task<S> + Send,
    G: Gate + Sync,
>(
    rt: &Rt,
    loaders: &mut [L],
    samplers: &mut [M],
    streamer: &mut R,
    shared: &S,
    shot: &Shot<'_>,
    batch: &[Planned],
    gate: &G,
)
    requires loaders { AllReady (L.ready shared.now (job_of shot.now batch.now)) loaders.old }
    requires samplers { AllReady (M.ready shared.now (job_of shot.now batch.now)) samplers.old }
    requires streamer { R.ready shared.now (job_of shot.now batch.now) streamer.old }
    ensures loaders { AllDid (L.did shared.now (job_of shot.now batch.now)) loaders.old loaders.new }
    ensures samplers { AllDid (M.did shared.now (job_of shot.now batch.now)) samplers.old samplers.new }
    ensures streamer { R.did shared.now (job_of shot.now batch.now) streamer.old streamer.new }
{
    join_mut(
        rt,
        &mut || -> ()
            requires { IsSync Rt.row × IsSync G.row × IsSync S.row × IsSend L.row × IsSend R.row
                × AllReady (L.ready shared.now (job_of shot.now batch.now)) loaders.now
                × R.ready shared.now (job_of shot.now batch.now) streamer.now }
            ensures { AllDid (L.did shared.entry.now (job_of shot.entry.now batch.entry.now)) loaders.entry.now
                loaders.exit.now
                × R.did shared.entry.now (job_of shot.entry.now batch.entry.now) streamer.entry.now streamer.exit.now }
        { load_and_stream(rt, loaders, streamer, shared, shot, batch, gate) },
        &mut || -> ()
            requires { IsSync Rt.row × IsSync G.row × IsSync S.row × IsSend M.row
                × AllReady (M.ready shared.now (job_of shot.now batch.now)) samplers.now }
            ensures { AllDid (M.did shared.entry.now (job_of shot.entry.now batch.entry.now)) samplers.entry.now
                samplers.exit.now }
        { draw_all(rt, samplers, shared, shot, batch, gate) },
    );
}

// Reads and streams in this thread, beside samplers that have several: so what is short begins first.
fn stream_here<
    Rt: Threads + Wait + Sync,
    S: Sync,
    L: HandTask<S> + Send,
    M: HandTask<S> + Send,
    R: Task<S> + Send,
    G: Gate + Sync,
>(
    rt: &Rt,
    loaders: &mut [L],
    samplers: &mut [M],
    streamer: &mut R,
    shared: &S,
    shot: &Shot<'_>,
    batch: &[Planned],
    gate: &G,
)
    requires loaders { AllReady (L.ready shared.now (job_of shot.now batch.now)) loaders.old }
    requires samplers { AllReady (M.ready shared.now (job_of shot.now batch.now)) samplers.old }
    requires streamer { R.ready shared.now (job_of shot.now batch.now) streamer.old }
    ensures loaders { AllDid (L.did shared.now (job_of shot.now batch.now)) loaders.old loaders.new }
    ensures samplers { AllDid (M.did shared.now (job_of shot.now batch.now)) samplers.old samplers.new }
    ensures streamer { R.did shared.now (job_of shot.now batch.now) streamer.old streamer.new }
{
    join_mut(
        rt,
        &mut || -> ()
            requires { IsSync Rt.row × IsSync G.row × IsSync S.row × IsSend M.row
                × AllReady (M.ready shared.now (job_of shot.now batch.now)) samplers.now }
            ensures { AllDid (M.did shared.entry.now (job_of shot.entry.now batch.entry.now)) samplers.entry.now
                samplers.exit.now }
        { draw_all(rt, samplers, shared, shot, batch, gate) },
        &mut || -> ()
            requires { IsSync Rt.row × IsSync G.row × IsSync S.row × IsSend L.row × IsSend R.row
                × AllReady (L.ready shared.now (job_of shot.now batch.now)) loaders.now
                × R.ready shared.now (job_of shot.now batch.now) streamer.now }
            ensures { AllDid (L.did shared.entry.now (job_of shot.entry.now batch.entry.now)) loaders.entry.now
                loaders.exit.now
                × R.did shared.entry.now (job_of shot.entry.now batch.entry.now) streamer.entry.now streamer.exit.now }
        { load_and_stream(rt, loaders, streamer, shared, shot, batch, gate) },
    );
}

// The loaders, and beside them the streamer. One request is read before there is anything to stream, so it needs no thread.
fn load_and_stream<
    Rt: Threads + Wait + Sync,
    S: Sync,
    L: HandTask<S> + Send,
    R: Task<S> + Send,
    G: Gate + Sync,
>(
    rt: &Rt,
    loaders: &mut [L],
    streamer: &mut R,
    shared: &S,
    shot: &Shot<'_>,
    batch: &[Planned],
    gate: &G,
)
    requires loaders { AllReady (L.ready shared.now (job_of shot.now batch.now)) loaders.old }
    requires streamer { R.ready shared.now (job_of shot.now batch.now) streamer.old }
    ensures loaders { AllDid (L.did shared.now (job_of shot.now batch.now)) loaders.old loaders.new }
    ensures streamer { R.did shared.now (job_of shot.now batch.now) streamer.old streamer.new }
{
    if batch.len() <= 1 {
        work_in_turn(rt, loaders, shared, shot, batch, gate);
        streamer.work(rt, shared, shot, batch, gate);
        return;
    }
    // Where no thread can be made, the loaders are done before a streamer waits for what they read.
    join_mut(
        rt,
        &mut || -> ()
            requires { IsSync Rt.row × IsSync G.row × IsSync S.row × IsSend R.row
                × R.ready shared.now (job_of shot.now batch.now) streamer.now }
            ensures { R.did shared.entry.now (job_of shot.entry.now batch.entry.now) streamer.entry.now
                streamer.exit.now }
        { streamer.work(rt, shared, shot, batch, gate) },
        &mut || -> ()
            requires { IsSync Rt.row × IsSync G.row × IsSync S.row × IsSend L.row
                × AllReady (L.ready shared.now (job_of shot.now batch.now)) loaders.now }
            ensures { AllDid (L.did shared.entry.now (job_of shot.entry.now batch.entry.now)) loaders.entry.now
                loaders.exit.now }
        {
            work_all(
                rt,
                loader_threads(batch),
                loaders,
                shared,
                shot,
                batch,
                gate,
            )
        },
    );
}

// All samplers, which share threads where the picture is small.
fn draw_all<Rt: Threads + Wait + Sync, S: Sync, M: HandTask<S> + Send, G: Gate + Sync>(
    rt: &Rt,
    samplers: &mut [M],
    shared: &S,
    shot: &Shot<'_>,
    batch: &[Planned],
    gate: &G,
)
    requires { AllReady (M.ready shared.now (job_of shot.now batch.now)) samplers.old }
    ensures { AllDid (M.did shared.now (job_of shot.now batch.now)) samplers.old samplers.new }
{
    let threads = sampler_threads::<S, M>(shot.path);
    work_all(rt, threads, samplers, shared, shot, batch, gate);
}

// All tasks of a list, by halves, in so many threads.
fn work_all<Rt: Threads + Wait + Sync, S: Sync, L: HandTask<S> + Send, G: Gate + Sync>(
    rt: &Rt,
    threads: usize,
    tasks: &mut [L],
    shared: &S,
    shot: &Shot<'_>,
    batch: &[Planned],
    gate: &G,
)
    requires ready { AllReady (L.ready shared.now (job_of shot.now batch.now)) tasks.old }
    ensures did { AllDid (L.did shared.now (job_of shot.now batch.now)) tasks.old tasks.new }
{
    if threads <= 1 || tasks.len() <= 1 {
        work_in_turn(rt, tasks, shared, shot, batch, gate);
        return;
    }
    let few = threads / 2;
    let rest = threads - few;
    let (low, high) = tasks.split_at_mut(tasks.len() / 2);
    join_mut(
        rt,
        &mut || -> ()
            requires { IsSync Rt.row × IsSync G.row × IsSync S.row × IsSend L.row
                × AllReady (L.ready shared.now (job_of shot.now batch.now)) low.now }
            ensures { AllDid (L.did shared.entry.now (job_of shot.entry.now batch.entry.now)) low.entry.now
                low.exit.now }
        { work_all(rt, few, low, shared, shot, batch, gate) },
        &mut || -> ()
            requires { IsSync Rt.row × IsSync G.row × IsSync S.row × IsSend L.row
                × AllReady (L.ready shared.now (job_of shot.now batch.now)) high.now }
            ensures { AllDid (L.did shared.entry.now (job_of shot.entry.now batch.entry.now)) high.entry.now
                high.exit.now }
        { work_all(rt, rest, high, shared, shot, batch, gate) },
    );
}

// All tasks of a list, one after the other.
fn work_in_turn<Rt: Threads + Wait, S: Sync, L: HandTask<S>, G: Gate>(
    rt: &Rt,
    tasks: &mut [L],
    shared: &S,
    shot: &Shot<'_>,
    batch: &[Planned],
    gate: &G,
)
    requires ready { AllReady (L.ready shared.now (job_of shot.now batch.now)) tasks.old }
    ensures did { AllDid (L.did shared.now (job_of shot.now batch.now)) tasks.old tasks.new }
{
    if tasks.is_empty() {
        return;
    }
    if tasks.len() == 1 {
        tasks[0].work(rt, shared, shot, gate);
        return;
    }
    let (low, high) = tasks.split_at_mut(tasks.len() / 2);
    work_in_turn(rt, low, shared, shot, batch, gate);
    work_in_turn(rt, high, shared, shot, batch, gate);
}
