//! The drawing of the next pass of a walk.

ghost use Rattle.std.specs.Prelude.{ℕ, ◌<◌, List, Option, length, IfOk, OnOk, OnErr};
ghost use Rattle.vt_walk_decisions.specs.Requests.{AreSameFiles, ArePartlyReadFor};
ghost use Rattle.vt_walk.specs.WalkInputs.{given_of, IsWalkInput};
ghost use Rattle.vt_walk.specs.Runs.{WalkPass};
ghost use Rattle.vt_walk.specs.DrawnBy.{IsDrawnBySome};
ghost use Rattle.vt_walk.specs.WalkSteps.{MayTakeStep, HasDrawnPass};
ghost use Rattle.vt_walk.specs.Following.{PassBefore, MayStep, HasRunStep, DrawsNext};

use crate::passes::{plan_next, run_pass};
use std::alloc::Global;
use std::sync::Wait;
use std::thread::Threads;
use vt_evict::Recency;
use vt_outside::{Gate, NoMemory};
use vt_pictures::Shot;
use vt_walk_decisions::{
    Desks, Drawn, LentWorker, Next, Nothing, PassMachine, PassReport, WalkInput, WalkStep, drawn_of,
};

/// Draws the next pass of a walk, streams its batch, and plans what comes after it; or does nothing where all pictures are finished.
pub fn draw_next<'w, Rt: Threads + Wait, M: PassMachine, G: Gate>(
    rt: &Rt,
    desks: &mut Desks<LentWorker<'w, M::Shared, M::Loader, M::Sampler, G>>,
    alloc: Global,
    machine: &mut M,
    recency: &mut Recency,
    input: &WalkInput<'w>,
    number: u32,
    step: WalkStep,
    gate: &'w G,
) -> Result<Next, NoMemory>
    requires input { IsWalkInput input.now }
    requires idle { M.is_idle machine.old }
    requires may { (known : Option (List ℕ)) × (run : List WalkPass) × MayStep
        (given_of M.drawing input.now known) run number step (M.state machine.old) recency.old }
    ensures next { (known : Option (List ℕ)) (run : List WalkPass) → MayStep
        (given_of M.drawing input.now known) run number step (M.state machine.old) recency.old
        → IfOk result (DrawsNext (IsDrawnBySome M.PassMachine) (given_of M.drawing input.now known) run step
        (M.state machine.old) (M.state machine.new) recency.new) }
    ensures more { OnErr result (step.picture < length input.now.path.now.cameras) }
    ensures refused { OnErr result (ArePartlyReadFor input.now.geometry.now input.now.depth step.batch.elements
        (M.state machine.old).files (M.state machine.new).files) }
    ensures idle { OnOk result (M.is_idle machine.new) }
    ensures same { AreSameFiles (M.state machine.old).files (M.state machine.new).files }
{
    if step.picture == input.path.pictures() {
        return Ok(Next::End(step.reads));
    }
    match draw_pass(
        rt, desks, alloc, machine, recency, input, number, step, gate,
    ) {
        Ok(drawn) => Ok(Next::Pass(drawn)),
        Err(refusal) => Err(refusal),
    }
}

// Draws the next pass of a walk, streams its batch, and plans what comes after it.
fn draw_pass<'w, Rt: Threads + Wait, M: PassMachine, G: Gate>(
    rt: &Rt,
    desks: &mut Desks<LentWorker<'w, M::Shared, M::Loader, M::Sampler, G>>,
    alloc: Global,
    machine: &mut M,
    recency: &mut Recency,
    input: &WalkInput<'w>,
    number: u32,
    step: WalkStep,
    gate: &'w G,
) -> Result<Drawn, NoMemory>
    requires input { IsWalkInput input.now }
    requires idle { M.is_idle machine.old }
    requires may { (known : Option (List ℕ)) × (run : List WalkPass) × MayTakeStep
        (given_of M.drawing input.now known) run number step (M.state machine.old) recency.old }
    ensures drawn { (known : Option (List ℕ)) (run : List WalkPass) → MayTakeStep
        (given_of M.drawing input.now known) run number step (M.state machine.old) recency.old
        → IfOk result (HasDrawnPass (IsDrawnBySome M.PassMachine) (given_of M.drawing input.now known) run step
        (M.state machine.old) (M.state machine.new) recency.new) }
    ensures refused { OnErr result (ArePartlyReadFor input.now.geometry.now input.now.depth step.batch.elements
        (M.state machine.old).files (M.state machine.new).files) }
    ensures idle { OnOk result (M.is_idle machine.new) }
    ensures same { AreSameFiles (M.state machine.old).files (M.state machine.new).files }
{
    let shot = Shot {
        geometry: input.geometry,
        path: input.path,
        picture: step.picture,
        depth: input.depth,
    };
    let start = machine.journal().version();
    let report = run_pass(rt, desks, machine, &shot, &step.batch, gate, &mut Nothing)?;
    plan_on(alloc, machine, recency, input, number, step, start, report)
}

/// Plans what comes after a pass that was run, and began at this version.
pub fn plan_on<M: PassMachine>(
    alloc: Global,
    machine: &M,
    recency: &mut Recency,
    input: &WalkInput<'_>,
    number: u32,
    step: WalkStep,
    start: u64,
    report: PassReport,
) -> Result<Drawn, NoMemory>
    requires input { IsWalkInput input.now }
    requires idle { M.is_idle machine.now }
    requires ran { (b : PassBefore) × HasRunStep (IsDrawnBySome M.PassMachine) (given_of M.drawing input.now b.known) b.run
        number step start report b.machine (M.state machine.now) recency.old }
    ensures { (b : PassBefore) → HasRunStep (IsDrawnBySome M.PassMachine) (given_of M.drawing input.now b.known) b.run
        number step start report b.machine (M.state machine.now) recency.old
        → IfOk result (HasDrawnPass (IsDrawnBySome M.PassMachine) (given_of M.drawing input.now b.known) b.run step b.machine
        (M.state machine.now) recency.new) }
{
    let most = input.settings.crew.batch;
    let next_plan = plan_next(
        alloc,
        input.geometry,
        machine.counts(),
        recency,
        &step.batch,
        &report.losses,
        most,
    )?;
    Ok(drawn_of(number, step, start, report, next_plan))
}
