//! A worker of a pass as it lies on a desk.

ghost use Rattle.std.specs.Prelude.{◌≡◌, MatchResult};
ghost use Rattle.std.specs.Arc.{arc_value};
ghost use Rattle.vt_pictures.specs.DrawTypes.shots.Shot.{Shot};
ghost use Rattle.vt_machine.specs.declared.lent_worker.Role.{Role};
ghost use Rattle.vt_machine.specs.declared.lent_worker.Role.TheVariants.{Loader, Sampler, Rest};
ghost use Rattle.vt_machine.specs.Roles.{MayBegin, HasWorked, AllBegin, HaveWorked, IsLoader, IsSampler, AreRest, IsRoleReady, IsRoleDone, IsLaid};
ghost use Rattle.vt_outside.specs.Lists.{ListView};

use crate::crewed::work_one_by_one;
use crate::hand_task::HandTask;
use std::sync::{Arc, Wait};
use std::thread::Threads;
use vt_crew::{Desks, Pending, Work};
use vt_outside::{Gate, Items};
use vt_pictures::Shot;

/// A worker that may go to a hand, or several that go to one.
pub enum Role<L, M> {
    /// A loader.
    Loader(L),
    /// A sampler.
    Sampler(M),
    /// Samplers that draw one after the other.
    Rest(Items<M>),
}

/// A worker with all that it uses, as it goes to a hand. It has no `Drop` where workers have none, so that it is taken back.
pub struct LentWorker<'w, S, L, M, G> {
    role: Role<L, M>,
    shared: Arc<S>,
    shot: Shot<'w>,
    gate: &'w G,
}

impl<'w, S, L: HandTask<S>, M: HandTask<S>, G: Gate> Work for LentWorker<'w, S, L, M, G> {
    ghost use Rattle.std.specs.Arc.{arc_value};
    ghost use Rattle.vt_machine.specs.Roles.{IsRoleReady, IsRoleDone};

    ghost ready = { λ lent. IsRoleReady L.ready M.ready (arc_value lent.shared) lent.shot lent.role };

    ghost did = { λ before after. IsRoleDone L.ready L.did M.ready M.did (arc_value before.shared) before.shot before.role after.role };

    fn work<Rt: Threads + Wait>(&mut self, rt: &Rt) {
        match &mut self.role {
            Role::Loader(loader) => loader.work(rt, &*self.shared, &self.shot, self.gate),
            Role::Sampler(sampler) => sampler.work(rt, &*self.shared, &self.shot, self.gate),
            Role::Rest(samplers) => {
                work_one_by_one(rt, samplers, &*self.shared, &self.shot, self.gate)
            }
        }
    }
}

// Lays a worker on a desk with all that it uses. Where no hand serves it is handed back.
fn hand_over<'w, S: Drop, L: HandTask<S>, M: HandTask<S>, G: Gate>(
    desks: &mut Desks<LentWorker<'w, S, L, M, G>>,
    role: Role<L, M>,
    shared: &Arc<S>,
    shot: &Shot<'w>,
    gate: &'w G,
) -> Result<Pending<LentWorker<'w, S, L, M, G>>, Role<L, M>>
    requires { IsRoleReady L.ready M.ready (arc_value shared.now) shot.now role }
    ensures { MatchResult result (IsLaid (arc_value shared.now) shot.now role) (λ back. back ≡ role) }
{
    let Ok(theirs) = Arc::try_clone(shared) else {
        return Err(role);
    };
    let lent = LentWorker {
        role,
        shared: theirs,
        shot: *shot,
        gate,
    };
    match desks.ask(lent) {
        Ok(pending) => Ok(pending),
        Err(lent) => Err(role_of(lent)),
    }
}

// The worker alone, which gives up its part of what is shared.
fn role_of<'w, S: Drop, L, M, G>(lent: LentWorker<'w, S, L, M, G>) -> Role<L, M>
    ensures { result ≡ lent.entry.role }
{
    let LentWorker {
        role,
        shared,
        shot: _,
        gate: _,
    } = lent;
    drop(shared);
    role
}

// Waits for a worker that lies on a desk.
fn take_role<'w, Rt: Threads + Wait, S: Drop, L: HandTask<S>, M: HandTask<S>, G: Gate>(
    rt: &Rt,
    desks: &mut Desks<LentWorker<'w, S, L, M, G>>,
    pending: Pending<LentWorker<'w, S, L, M, G>>,
) -> Role<L, M>
    ensures { (s : S) (shot : Shot) (role : Role L M) → IsLaid s shot role pending.entry
        → IsRoleDone L.ready L.did M.ready M.did s shot role result }
{
    role_of(desks.take_back(rt, pending))
}

// The loader that a worker is.
fn loader_of<L, M>(role: Role<L, M>) -> L
    requires { IsLoader role }
    ensures { Loader result ≡ role }
{
    match role {
        Role::Loader(loader) => loader,
        Role::Sampler(_sampler) => unreachable!(),
        Role::Rest(_samplers) => unreachable!(),
    }
}

// The sampler that a worker is.
fn sampler_of<L, M>(role: Role<L, M>) -> M
    requires { IsSampler role }
    ensures { Sampler result ≡ role }
{
    match role {
        Role::Loader(_loader) => unreachable!(),
        Role::Sampler(sampler) => sampler,
        Role::Rest(_samplers) => unreachable!(),
    }
}

// The samplers that several workers are.
fn rest_of<L, M>(role: Role<L, M>) -> Items<M>
    requires { AreRest role }
    ensures { Rest result ≡ role }
{
    match role {
        Role::Loader(_loader) => unreachable!(),
        Role::Sampler(_sampler) => unreachable!(),
        Role::Rest(samplers) => samplers,
    }
}

/// Lays a loader on a desk. Where no hand serves it is handed back.
pub(crate) fn lay_loader<'w, S: Drop, L: HandTask<S>, M: HandTask<S>, G: Gate>(
    desks: &mut Desks<LentWorker<'w, S, L, M, G>>,
    loader: L,
    shared: &Arc<S>,
    shot: &Shot<'w>,
    gate: &'w G,
) -> Result<Pending<LentWorker<'w, S, L, M, G>>, L>
    requires { MayBegin L.ready (arc_value shared.now) shot.now loader }
    ensures { MatchResult result (IsLaid (arc_value shared.now) shot.now (Loader loader)) (λ back. back ≡ loader) }
{
    match hand_over(desks, Role::Loader(loader), shared, shot, gate) {
        Ok(pending) => Ok(pending),
        Err(role) => Err(loader_of(role)),
    }
}

/// Lays a sampler on a desk. Where no hand serves it is handed back.
pub(crate) fn lay_sampler<'w, S: Drop, L: HandTask<S>, M: HandTask<S>, G: Gate>(
    desks: &mut Desks<LentWorker<'w, S, L, M, G>>,
    sampler: M,
    shared: &Arc<S>,
    shot: &Shot<'w>,
    gate: &'w G,
) -> Result<Pending<LentWorker<'w, S, L, M, G>>, M>
    requires { MayBegin M.ready (arc_value shared.now) shot.now sampler }
    ensures { MatchResult result (IsLaid (arc_value shared.now) shot.now (Sampler sampler)) (λ back. back ≡ sampler) }
{
    match hand_over(desks, Role::Sampler(sampler), shared, shot, gate) {
        Ok(pending) => Ok(pending),
        Err(role) => Err(sampler_of(role)),
    }
}

/// Lays samplers on a desk that draw one after the other. Where no hand serves they are handed back.
pub(crate) fn lay_rest<'w, S: Drop, L: HandTask<S>, M: HandTask<S>, G: Gate>(
    desks: &mut Desks<LentWorker<'w, S, L, M, G>>,
    samplers: Items<M>,
    shared: &Arc<S>,
    shot: &Shot<'w>,
    gate: &'w G,
) -> Result<Pending<LentWorker<'w, S, L, M, G>>, Items<M>>
    requires { AllBegin M.ready (arc_value shared.now) shot.now samplers.elements }
    ensures { MatchResult result (IsLaid (arc_value shared.now) shot.now (Rest samplers)) (λ back. back ≡ samplers) }
{
    match hand_over(desks, Role::Rest(samplers), shared, shot, gate) {
        Ok(pending) => Ok(pending),
        Err(role) => Err(rest_of(role)),
    }
}

/// Waits for a loader that lies on a desk.
pub(crate) fn take_loader<'w, Rt: Threads + Wait, S: Drop, L: HandTask<S>, M: HandTask<S>, G: Gate>(
    rt: &Rt,
    desks: &mut Desks<LentWorker<'w, S, L, M, G>>,
    pending: Pending<LentWorker<'w, S, L, M, G>>,
) -> L
    requires { (s : S) × (shot : Shot) × (loader : L) × IsLaid s shot (Loader loader) pending }
    ensures { (s : S) (shot : Shot) (loader : L) → IsLaid s shot (Loader loader) pending.entry
        → HasWorked L.ready L.did s shot loader result }
{
    loader_of(take_role(rt, desks, pending))
}

/// Waits for a sampler that lies on a desk.
pub(crate) fn take_sampler<
    'w,
    Rt: Threads + Wait,
    S: Drop,
    L: HandTask<S>,
    M: HandTask<S>,
    G: Gate,
>(
    rt: &Rt,
    desks: &mut Desks<LentWorker<'w, S, L, M, G>>,
    pending: Pending<LentWorker<'w, S, L, M, G>>,
) -> M
    requires { (s : S) × (shot : Shot) × (sampler : M) × IsLaid s shot (Sampler sampler) pending }
    ensures { (s : S) (shot : Shot) (sampler : M) → IsLaid s shot (Sampler sampler) pending.entry
        → HasWorked M.ready M.did s shot sampler result }
{
    sampler_of(take_role(rt, desks, pending))
}

/// Waits for samplers that lie on a desk.
pub(crate) fn take_rest<'w, Rt: Threads + Wait, S: Drop, L: HandTask<S>, M: HandTask<S>, G: Gate>(
    rt: &Rt,
    desks: &mut Desks<LentWorker<'w, S, L, M, G>>,
    pending: Pending<LentWorker<'w, S, L, M, G>>,
) -> Items<M>
    requires { (s : S) × (shot : Shot) × (samplers : ListView M) × IsLaid s shot (Rest samplers) pending }
    ensures { (s : S) (shot : Shot) (samplers : ListView M) → IsLaid s shot (Rest samplers) pending.entry
        → HaveWorked M.ready M.did s shot samplers result }
{
    rest_of(take_role(rt, desks, pending))
}
