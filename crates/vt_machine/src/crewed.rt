//! The workers of a pass, at work at once in the threads of a crew.

ghost use Rattle.std.specs.Prelude.{◌≡◌, ◌≤◌, List, length, IfSome, MatchOption};
ghost use Rattle.std.specs.Arc.{arc_value};
ghost use Rattle.vt_evict.specs.PlanTypes.batches.Planned.{Planned};
ghost use Rattle.vt_machine.specs.declared.lent_worker.Role.TheVariants.{Loader, Sampler};
ghost use Rattle.vt_machine.specs.Jobs.{job_of};
ghost use Rattle.vt_machine.specs.Roles.{AllBegin, HaveWorked, IsSameList, IsLastLaid};
ghost use Rattle.vt_machine.specs.All.{AllReady, AllDid};

use crate::hand_task::HandTask;
use crate::lent_worker::{
    LentWorker, lay_loader, lay_rest, lay_sampler, take_loader, take_rest, take_sampler,
};
use crate::meanwhile::Meanwhile;
use crate::task::Task;
use crate::threads::{loader_threads, sampler_hands};
use std::sync::{Arc, Wait};
use std::thread::Threads;
use vt_crew::{Desks, Pending};
use vt_evict::Planned;
use vt_outside::{Gate, Items};
use vt_pictures::Shot;

/// The loaders and the samplers in the threads of a crew, and beside them here what the caller does meanwhile and then the streamer. The samplers are
/// taken and handed back.
///
/// First loaders go to hands, as many as the batch has entries, and none where it has one at most. Then samplers do, as many as pay by the size of the
/// picture, and those that are left together to one more, unless there is nothing else to do here. Loaders that have no hand read here, before the
/// streamer begins, and samplers that have none draw here once it has ended. It may wait.
pub fn work_with_crew<
    'w,
    Rt: Threads + Wait,
    S: Drop,
    L: HandTask<S>,
    M: HandTask<S>,
    R: Task<S>,
    A: Meanwhile,
    G: Gate,
>(
    rt: &Rt,
    desks: &mut Desks<LentWorker<'w, S, L, M, G>>,
    loaders: &mut Items<L>,
    samplers: Items<M>,
    streamer: &mut R,
    meanwhile: &mut A,
    shared: &Arc<S>,
    shot: &Shot<'w>,
    batch: &[Planned],
    gate: &'w G,
) -> Items<M>
    requires loaders { AllReady (L.ready (arc_value shared.now) (job_of shot.now batch.now)) loaders.old.elements }
    requires samplers { AllReady (M.ready (arc_value shared.now) (job_of shot.now batch.now)) samplers.elements }
    requires streamer { R.ready (arc_value shared.now) (job_of shot.now batch.now) streamer.old }
    requires meanwhile { A.ready meanwhile.old }
    ensures loaders { AllDid (L.did (arc_value shared.now) (job_of shot.now batch.now)) loaders.old.elements
        loaders.new.elements }
    ensures loader_number { length loaders.new.elements ≡ length loaders.old.elements }
    ensures loader_room { loaders.old.spare ≤ loaders.new.spare }
    ensures samplers { AllDid (M.did (arc_value shared.now) (job_of shot.now batch.now)) samplers.elements
        result.elements }
    ensures sampler_number { length result.elements ≡ length samplers.elements }
    ensures sampler_room { samplers.spare ≤ result.spare }
    ensures streamer { R.did (arc_value shared.now) (job_of shot.now batch.now) streamer.old streamer.new }
    ensures meanwhile { A.did meanwhile.old meanwhile.new }
{
    let most = if batch.len() <= 1 {
        0
    } else {
        loader_threads(batch)
    };
    load_beside(
        rt, desks, most, loaders, samplers, streamer, meanwhile, shared, shot, batch, gate,
    )
}

// So many loaders at most in the threads of a crew, and beside them all else. The last ones of the list go first, and those that are left in it read
// in this thread.
fn load_beside<
    'w,
    Rt: Threads + Wait,
    S: Drop,
    L: HandTask<S>,
    M: HandTask<S>,
    R: Task<S>,
    A: Meanwhile,
    G: Gate,
>(
    rt: &Rt,
    desks: &mut Desks<LentWorker<'w, S, L, M, G>>,
    most: usize,
    loaders: &mut Items<L>,
    samplers: Items<M>,
    streamer: &mut R,
    meanwhile: &mut A,
    shared: &Arc<S>,
    shot: &Shot<'w>,
    batch: &[Planned],
    gate: &'w G,
) -> Items<M>
    requires loaders { AllReady (L.ready (arc_value shared.now) (job_of shot.now batch.now)) loaders.old.elements }
    requires samplers { AllReady (M.ready (arc_value shared.now) (job_of shot.now batch.now)) samplers.elements }
    requires streamer { R.ready (arc_value shared.now) (job_of shot.now batch.now) streamer.old }
    requires meanwhile { A.ready meanwhile.old }
    ensures loaders { AllDid (L.did (arc_value shared.now) (job_of shot.now batch.now)) loaders.old.elements
        loaders.new.elements }
    ensures loader_number { length loaders.new.elements ≡ length loaders.old.elements }
    ensures loader_room { loaders.old.spare ≤ loaders.new.spare }
    ensures samplers { AllDid (M.did (arc_value shared.now) (job_of shot.now batch.now)) samplers.elements
        result.elements }
    ensures sampler_number { length result.elements ≡ length samplers.elements }
    ensures sampler_room { samplers.spare ≤ result.spare }
    ensures streamer { R.did (arc_value shared.now) (job_of shot.now batch.now) streamer.old streamer.new }
    ensures meanwhile { A.did meanwhile.old meanwhile.new }
{
    if let Some(pending) = next_loader(desks, most, loaders, shared, shot, gate) {
        let samplers = load_beside(
            rt,
            desks,
            most - 1,
            loaders,
            samplers,
            streamer,
            meanwhile,
            shared,
            shot,
            batch,
            gate,
        );
        loaders.push(take_loader(rt, desks, pending));
        samplers
    } else {
        let most = sampler_hands::<S, M>(samplers.len(), shot.path);
        draw_beside(
            rt, desks, most, loaders, samplers, streamer, meanwhile, shared, shot, batch, gate,
        )
    }
}

// Lays the last loader of a list on a desk, unless none is to go any more. Where no hand serves it stays in the list.
fn next_loader<'w, S: Drop, L: HandTask<S>, M: HandTask<S>, G: Gate>(
    desks: &mut Desks<LentWorker<'w, S, L, M, G>>,
    most: usize,
    loaders: &mut Items<L>,
    shared: &Arc<S>,
    shot: &Shot<'w>,
    gate: &'w G,
) -> Option<Pending<LentWorker<'w, S, L, M, G>>>
    requires { AllBegin L.ready (arc_value shared.now) shot.now loaders.old.elements }
    ensures laid { MatchOption result (IsSameList loaders.old loaders.new)
        (λ pending. IsLastLaid Loader (arc_value shared.now) shot.now loaders.old loaders.new pending) }
    ensures some { IfSome result (λ pending. 1 ≤ most) }
{
    if most == 0 {
        return None;
    }
    let Some(loader) = loaders.pop() else {
        return None;
    };
    match lay_loader(desks, loader, shared, shot, gate) {
        Ok(pending) => Some(pending),
        Err(loader) => {
            loaders.push(loader);
            None
        }
    }
}

// So many samplers at most in the threads of a crew, and beside them all else. The last ones of the list go first, each to a hand of its own. The last
// hand is for those that are left together.
fn draw_beside<
    'w,
    Rt: Threads + Wait,
    S: Drop,
    L: HandTask<S>,
    M: HandTask<S>,
    R: Task<S>,
    A: Meanwhile,
    G: Gate,
>(
    rt: &Rt,
    desks: &mut Desks<LentWorker<'w, S, L, M, G>>,
    most: usize,
    loaders: &mut Items<L>,
    samplers: Items<M>,
    streamer: &mut R,
    meanwhile: &mut A,
    shared: &Arc<S>,
    shot: &Shot<'w>,
    batch: &[Planned],
    gate: &'w G,
) -> Items<M>
    requires loaders { AllReady (L.ready (arc_value shared.now) (job_of shot.now batch.now)) loaders.old.elements }
    requires samplers { AllReady (M.ready (arc_value shared.now) (job_of shot.now batch.now)) samplers.elements }
    requires streamer { R.ready (arc_value shared.now) (job_of shot.now batch.now) streamer.old }
    requires meanwhile { A.ready meanwhile.old }
    ensures loaders { AllDid (L.did (arc_value shared.now) (job_of shot.now batch.now)) loaders.old.elements
        loaders.new.elements }
    ensures loader_number { length loaders.new.elements ≡ length loaders.old.elements }
    ensures loader_room { loaders.old.spare ≤ loaders.new.spare }
    ensures samplers { AllDid (M.did (arc_value shared.now) (job_of shot.now batch.now)) samplers.elements
        result.elements }
    ensures sampler_number { length result.elements ≡ length samplers.elements }
    ensures sampler_room { samplers.spare ≤ result.spare }
    ensures streamer { R.did (arc_value shared.now) (job_of shot.now batch.now) streamer.old streamer.new }
    ensures meanwhile { A.did meanwhile.old meanwhile.new }
{
    let mut samplers = samplers;
    if let Some(pending) = next_sampler(desks, most, &mut samplers, shared, shot, gate) {
        let mut back = draw_beside(
            rt,
            desks,
            most - 1,
            loaders,
            samplers,
            streamer,
            meanwhile,
            shared,
            shot,
            batch,
            gate,
        );
        back.push(take_sampler(rt, desks, pending));
        back
    } else {
        draw_rest(
            rt, desks, loaders, samplers, streamer, meanwhile, shared, shot, batch, gate,
        )
    }
}

// Lays the last sampler of a list on a desk, unless it is to go with those that are left. Where no hand serves it stays in the list.
fn next_sampler<'w, S: Drop, L: HandTask<S>, M: HandTask<S>, G: Gate>(
    desks: &mut Desks<LentWorker<'w, S, L, M, G>>,
    most: usize,
    samplers: &mut Items<M>,
    shared: &Arc<S>,
    shot: &Shot<'w>,
    gate: &'w G,
) -> Option<Pending<LentWorker<'w, S, L, M, G>>>
    requires { AllBegin M.ready (arc_value shared.now) shot.now samplers.old.elements }
    ensures laid { MatchOption result (IsSameList samplers.old samplers.new)
        (λ pending. IsLastLaid Sampler (arc_value shared.now) shot.now samplers.old samplers.new pending) }
    ensures some { IfSome result (λ pending. 1 ≤ most) }
{
    if most <= 1 {
        return None;
    }
    let Some(sampler) = samplers.pop() else {
        return None;
    };
    match lay_sampler(desks, sampler, shared, shot, gate) {
        Ok(pending) => Some(pending),
        Err(sampler) => {
            samplers.push(sampler);
            None
        }
    }
}

// The samplers that are left in the thread of one hand, and beside them what is done here. They draw here where no hand serves, and where there is
// nothing to do beside them.
fn draw_rest<
    'w,
    Rt: Threads + Wait,
    S: Drop,
    L: HandTask<S>,
    M: HandTask<S>,
    R: Task<S>,
    A: Meanwhile,
    G: Gate,
>(
    rt: &Rt,
    desks: &mut Desks<LentWorker<'w, S, L, M, G>>,
    loaders: &mut Items<L>,
    samplers: Items<M>,
    streamer: &mut R,
    meanwhile: &mut A,
    shared: &Arc<S>,
    shot: &Shot<'w>,
    batch: &[Planned],
    gate: &'w G,
) -> Items<M>
    requires loaders { AllReady (L.ready (arc_value shared.now) (job_of shot.now batch.now)) loaders.old.elements }
    requires samplers { AllReady (M.ready (arc_value shared.now) (job_of shot.now batch.now)) samplers.elements }
    requires streamer { R.ready (arc_value shared.now) (job_of shot.now batch.now) streamer.old }
    requires meanwhile { A.ready meanwhile.old }
    ensures loaders { AllDid (L.did (arc_value shared.now) (job_of shot.now batch.now)) loaders.old.elements
        loaders.new.elements }
    ensures loader_number { length loaders.new.elements ≡ length loaders.old.elements }
    ensures loader_room { loaders.old.spare ≤ loaders.new.spare }
    ensures samplers { AllDid (M.did (arc_value shared.now) (job_of shot.now batch.now)) samplers.elements
        result.elements }
    ensures sampler_number { length result.elements ≡ length samplers.elements }
    ensures sampler_room { samplers.spare ≤ result.spare }
    ensures streamer { R.did (arc_value shared.now) (job_of shot.now batch.now) streamer.old streamer.new }
    ensures meanwhile { A.did meanwhile.old meanwhile.new }
{
    if batch.is_empty() && A::IS_NOTHING {
        return draw_last(
            rt, loaders, samplers, streamer, meanwhile, &**shared, shot, batch, gate,
        );
    }
    match lay_rest(desks, samplers, shared, shot, gate) {
        Ok(pending) => {
            stream_here(
                rt, loaders, streamer, meanwhile, &**shared, shot, batch, gate,
            );
            take_rest(rt, desks, pending)
        }
        Err(samplers) => draw_last(
            rt, loaders, samplers, streamer, meanwhile, &**shared, shot, batch, gate,
        ),
    }
}

// All that is left in this thread, and at last the samplers.
fn draw_last<
    Rt: Threads + Wait,
    S,
    L: HandTask<S>,
    M: HandTask<S>,
    R: Task<S>,
    A: Meanwhile,
    G: Gate,
>(
    rt: &Rt,
    loaders: &mut Items<L>,
    samplers: Items<M>,
    streamer: &mut R,
    meanwhile: &mut A,
    shared: &S,
    shot: &Shot<'_>,
    batch: &[Planned],
    gate: &G,
) -> Items<M>
    requires loaders { AllReady (L.ready shared.now (job_of shot.now batch.now)) loaders.old.elements }
    requires samplers { AllReady (M.ready shared.now (job_of shot.now batch.now)) samplers.elements }
    requires streamer { R.ready shared.now (job_of shot.now batch.now) streamer.old }
    requires meanwhile { A.ready meanwhile.old }
    ensures loaders { AllDid (L.did shared.now (job_of shot.now batch.now)) loaders.old.elements
        loaders.new.elements }
    ensures loader_number { length loaders.new.elements ≡ length loaders.old.elements }
    ensures loader_room { loaders.old.spare ≤ loaders.new.spare }
    ensures samplers { AllDid (M.did shared.now (job_of shot.now batch.now)) samplers.elements result.elements }
    ensures sampler_number { length result.elements ≡ length samplers.elements }
    ensures sampler_room { samplers.spare ≤ result.spare }
    ensures streamer { R.did shared.now (job_of shot.now batch.now) streamer.old streamer.new }
    ensures meanwhile { A.did meanwhile.old meanwhile.new }
{
    stream_here(rt, loaders, streamer, meanwhile, shared, shot, batch, gate);
    let mut drawn = samplers;
    work_one_by_one(rt, &mut drawn, shared, shot, gate);
    drawn
}

// What the caller does meanwhile, then the loaders that have no hand, then the streamer.
fn stream_here<Rt: Threads + Wait, S, L: HandTask<S>, R: Task<S>, A: Meanwhile, G: Gate>(
    rt: &Rt,
    loaders: &mut Items<L>,
    streamer: &mut R,
    meanwhile: &mut A,
    shared: &S,
    shot: &Shot<'_>,
    batch: &[Planned],
    gate: &G,
)
    requires loaders { AllReady (L.ready shared.now (job_of shot.now batch.now)) loaders.old.elements }
    requires streamer { R.ready shared.now (job_of shot.now batch.now) streamer.old }
    requires meanwhile { A.ready meanwhile.old }
    ensures loaders { AllDid (L.did shared.now (job_of shot.now batch.now)) loaders.old.elements
        loaders.new.elements }
    ensures loader_number { length loaders.new.elements ≡ length loaders.old.elements }
    ensures loader_room { loaders.old.spare ≤ loaders.new.spare }
    ensures streamer { R.did shared.now (job_of shot.now batch.now) streamer.old streamer.new }
    ensures meanwhile { A.did meanwhile.old meanwhile.new }
{
    meanwhile.act();
    work_one_by_one(rt, loaders, shared, shot, gate);
    streamer.work(rt, shared, shot, batch, gate);
}

/// All workers of a list, one after the other.
pub(crate) fn work_one_by_one<Rt: Threads + Wait, S, W: HandTask<S>, G: Gate>(
    rt: &Rt,
    workers: &mut Items<W>,
    shared: &S,
    shot: &Shot<'_>,
    gate: &G,
)
    requires { AllBegin W.ready shared.now shot.now workers.old.elements }
    ensures { HaveWorked W.ready W.did shared.now shot.now workers.old workers.new }
{
    if let Some(mut worker) = workers.pop() {
        work_one_by_one(rt, workers, shared, shot, gate);
        worker.work(rt, shared, shot, gate);
        workers.push(worker);
    }
}
