//! Pass after pass.

ghost use Rattle.std.specs.Prelude.{ℕ, ◌+◌, ◌<◌, ◌≤◌, ◌^◌, OnOk, IfOk};
ghost use Rattle.vt_plan.specs.Views.{RecencyView};
ghost use Rattle.vt_walk.specs.WalkInputs.{setup_of_input, IsWalkInput};
ghost use Rattle.vt_walk.specs.WalkSteps.{WalkStart};
ghost use Rattle.vt_walk.specs.Moments.{Moment, moment, at_folder, traces, KeepsTraces, KeepsWalk};
ghost use Rattle.vt_walk.specs.Goings.{walk_by, AtFirst, AtDrawn, AtPass, WalksOn, TakesSteps, JournalsPass, GoesFromDrawn, GoesFromPass, EndsPass};
ghost use Rattle.vt_walk.specs.Counts.{HasCounts};
ghost use Rattle.vt_walk_decisions.specs.Judging.{MayGoOn};
ghost use Rattle.vt_walk.specs.OutputFolders.{folder_of};

use crate::advance::draw_next;
use crate::beside::draw_beside;
use crate::output_folder::OutputFolder;
use crate::passes::journal_pass;
use crate::pictures::{put_end_line, put_picture_line, write_picture};
use std::alloc::Global;
use std::sync::Wait;
use std::thread::Threads;
use vt_evict::{Batch, Recency};
use vt_outside::{Gate, Sink};
use vt_walk_decisions::{
    Desks, Drawn, LentWorker, Next, NextPlan, PassMachine, Passed, Tally, WalkError, WalkInput,
    WalkStep, is_finished, is_written_beside, judge,
};

/// How much a walk took.
#[derive(Clone, Copy)]
pub struct Walked {
    /// The number of passes of all pictures.
    pub passes: u32,
    /// How many tiles were asked for.
    pub reads: u64,
}

/// Takes steps until all pictures are finished, and puts the last line. The text of each pass is made in the buffer.
pub fn walk_on<'w, Rt: Threads + Wait, M: PassMachine, D: OutputFolder, O: Sink, G: Gate>(
    rt: &Rt,
    desks: &mut Desks<LentWorker<'w, M::Shared, M::Loader, M::Sampler, G>>,
    alloc: Global,
    folder: &mut D,
    machine: &mut M,
    recency: &mut Recency,
    input: &WalkInput<'w>,
    buffer: &mut Vec<u8>,
    out: &mut O,
    gate: &'w G,
) -> Result<Walked, WalkError>
    requires input { IsWalkInput input.now }
    requires enough_frames { input.now.pinned ≤ input.now.settings.frames }
    requires idle { M.is_idle machine.old }
    requires stands { (b : WalkStart) × AtFirst (walk_by M.PassMachine input.now) b
        (moment (folder_of D.OutputFolder) O.Sink folder.old out.old (M.state machine.old) recency.old) }
    ensures walked { WalksOn (walk_by M.PassMachine input.now)
        (moment (folder_of D.OutputFolder) O.Sink folder.old out.old (M.state machine.old) recency.old)
        (moment (folder_of D.OutputFolder) O.Sink folder.new out.new (M.state machine.new) recency.new) result }
    ensures counted { IfOk result (HasCounts (setup_of_input M.drawing input.now)) }
    ensures kept { KeepsWalk (moment (folder_of D.OutputFolder) O.Sink folder.old out.old (M.state machine.old) recency.old)
        (moment (folder_of D.OutputFolder) O.Sink folder.new out.new (M.state machine.new) recency.new) }
{
    let took = take_steps(
        rt, desks, alloc, folder, machine, recency, input, buffer, out, gate,
    )?;
    put_end_line(out, input.path.pictures(), took.reads)?;
    Ok(took)
}

// Takes steps until all pictures are finished, and answers how much they took. Each pass is drawn in the step before it is journaled.
fn take_steps<'w, Rt: Threads + Wait, M: PassMachine, D: OutputFolder, O: Sink, G: Gate>(
    rt: &Rt,
    desks: &mut Desks<LentWorker<'w, M::Shared, M::Loader, M::Sampler, G>>,
    alloc: Global,
    folder: &mut D,
    machine: &mut M,
    recency: &mut Recency,
    input: &WalkInput<'w>,
    buffer: &mut Vec<u8>,
    out: &mut O,
    gate: &'w G,
) -> Result<Walked, WalkError>
    requires input { IsWalkInput input.now }
    requires enough_frames { input.now.pinned ≤ input.now.settings.frames }
    requires idle { M.is_idle machine.old }
    requires stands { (b : WalkStart) × AtFirst (walk_by M.PassMachine input.now) b
        (moment (folder_of D.OutputFolder) O.Sink folder.old out.old (M.state machine.old) recency.old) }
    ensures walked { TakesSteps (walk_by M.PassMachine input.now)
        (moment (folder_of D.OutputFolder) O.Sink folder.old out.old (M.state machine.old) recency.old)
        (moment (folder_of D.OutputFolder) O.Sink folder.new out.new (M.state machine.new) recency.new) result }
    ensures counted { IfOk result (HasCounts (setup_of_input M.drawing input.now)) }
    ensures kept { KeepsWalk (moment (folder_of D.OutputFolder) O.Sink folder.old out.old (M.state machine.old) recency.old)
        (moment (folder_of D.OutputFolder) O.Sink folder.new out.new (M.state machine.new) recency.new) }
{
    let step = WalkStep {
        picture: 0,
        batch: Batch::new(alloc),
        tally: Tally::new(),
        reads: input.pinned as u64,
    };
    let mut next = draw_next(rt, desks, alloc, machine, recency, input, 1, step, gate)?;
    for number in 1..u32::MAX {
        match next {
            Next::End(reads) => {
                return Ok(Walked {
                    passes: number - 1,
                    reads,
                });
            }
            Next::Pass(drawn) => {
                next = take_step(
                    rt, desks, alloc, folder, machine, recency, input, number, drawn, buffer, out,
                    gate,
                )?;
            }
        }
    }
    Err(WalkError::NoMemory)
}

// Tells a pass that was drawn, writes the picture that it finishes, and draws the next pass. The pass's text is made in the buffer.
fn take_step<'w, Rt: Threads + Wait, M: PassMachine, D: OutputFolder, O: Sink, G: Gate>(
    rt: &Rt,
    desks: &mut Desks<LentWorker<'w, M::Shared, M::Loader, M::Sampler, G>>,
    alloc: Global,
    folder: &mut D,
    machine: &mut M,
    recency: &mut Recency,
    input: &WalkInput<'w>,
    number: u32,
    drawn: Drawn,
    buffer: &mut Vec<u8>,
    out: &mut O,
    gate: &'w G,
) -> Result<Next, WalkError>
    requires input { IsWalkInput input.now }
    requires enough_frames { input.now.pinned ≤ input.now.settings.frames }
    requires idle { M.is_idle machine.old }
    requires few { number + 1 < 2 ^ 32 }
    requires stands { (b : WalkStart) × AtDrawn (walk_by M.PassMachine input.now) b
        (moment (folder_of D.OutputFolder) O.Sink folder.old out.old (M.state machine.old) recency.old) number drawn }
    ensures taken { GoesFromDrawn (walk_by M.PassMachine input.now) number drawn
        (moment (folder_of D.OutputFolder) O.Sink folder.old out.old (M.state machine.old) recency.old)
        (moment (folder_of D.OutputFolder) O.Sink folder.new out.new (M.state machine.new) recency.new) result }
    ensures idle { OnOk result (M.is_idle machine.new) }
    ensures kept { KeepsWalk (moment (folder_of D.OutputFolder) O.Sink folder.old out.old (M.state machine.old) recency.old)
        (moment (folder_of D.OutputFolder) O.Sink folder.new out.new (M.state machine.new) recency.new) }
{
    let passed = journal_drawn::<M, D>(buffer, folder, input, drawn)?;
    judge(input, &passed)?;
    go_on(
        rt, desks, alloc, folder, machine, recency, input, number, passed, buffer, out, gate,
    )
}

// Tells a pass that was drawn to the journal, by a text that is made in the buffer.
fn journal_drawn<M: PassMachine, D: OutputFolder>(
    buffer: &mut Vec<u8>,
    folder: &mut D,
    input: &WalkInput<'_>,
    drawn: Drawn,
) -> Result<Passed, WalkError>
    requires input { IsWalkInput input.now }
    requires stands { (t : Moment) × (number : ℕ) × (b : WalkStart) × (number < 2 ^ 32)
        × AtDrawn (walk_by M.PassMachine input.now) b (at_folder (folder_of D.OutputFolder) folder.old t) number drawn }
    ensures journaled { (t : Moment) (number : ℕ) → JournalsPass (walk_by M.PassMachine input.now) number drawn
        (at_folder (folder_of D.OutputFolder) folder.old t) (at_folder (folder_of D.OutputFolder) folder.new t) result }
    ensures kept { (t : Moment) → KeepsWalk (at_folder (folder_of D.OutputFolder) folder.old t) (at_folder (folder_of D.OutputFolder) folder.new t) }
{
    journal_pass(
        buffer,
        folder,
        input.names.journal,
        input.geometry,
        &drawn.text,
    )?;
    Ok(drawn.passed)
}

// Writes the picture that a pass has finished, and its line, and draws the next pass: meanwhile, where that is worth it.
fn go_on<'w, Rt: Threads + Wait, M: PassMachine, D: OutputFolder, O: Sink, G: Gate>(
    rt: &Rt,
    desks: &mut Desks<LentWorker<'w, M::Shared, M::Loader, M::Sampler, G>>,
    alloc: Global,
    folder: &mut D,
    machine: &mut M,
    recency: &mut Recency,
    input: &WalkInput<'w>,
    number: u32,
    passed: Passed,
    buffer: &mut Vec<u8>,
    out: &mut O,
    gate: &'w G,
) -> Result<Next, WalkError>
    requires input { IsWalkInput input.now }
    requires idle { M.is_idle machine.old }
    requires few { number + 1 < 2 ^ 32 }
    requires goes_on { MayGoOn input.now passed }
    requires stands { (b : WalkStart) × AtPass (walk_by M.PassMachine input.now) b
        (moment (folder_of D.OutputFolder) O.Sink folder.old out.old (M.state machine.old) recency.old) number passed }
    ensures taken { GoesFromPass (walk_by M.PassMachine input.now) number passed
        (moment (folder_of D.OutputFolder) O.Sink folder.old out.old (M.state machine.old) recency.old)
        (moment (folder_of D.OutputFolder) O.Sink folder.new out.new (M.state machine.new) recency.new) result }
    ensures idle { OnOk result (M.is_idle machine.new) }
    ensures kept { KeepsWalk (moment (folder_of D.OutputFolder) O.Sink folder.old out.old (M.state machine.old) recency.old)
        (moment (folder_of D.OutputFolder) O.Sink folder.new out.new (M.state machine.new) recency.new) }
{
    if is_written_beside(input, &passed) {
        return draw_beside(
            rt, desks, alloc, folder, machine, recency, input, number, passed, buffer, out, gate,
        );
    }
    let step = end_step(buffer, alloc, folder, machine, input, passed, out)?;
    let next = draw_next(
        rt,
        desks,
        alloc,
        machine,
        recency,
        input,
        number + 1,
        step,
        gate,
    )?;
    Ok(next)
}

// Writes the picture that a pass has finished, and its line, or leaves it to the next pass.
fn end_step<M: PassMachine, D: OutputFolder, O: Sink>(
    buffer: &mut Vec<u8>,
    alloc: Global,
    folder: &mut D,
    machine: &M,
    input: &WalkInput<'_>,
    passed: Passed,
    out: &mut O,
) -> Result<WalkStep, WalkError>
    requires input { IsWalkInput input.now }
    requires idle { M.is_idle machine.now }
    requires goes_on { MayGoOn input.now passed }
    requires stands { (number : ℕ) × (v : RecencyView) × (b : WalkStart) × AtPass (walk_by M.PassMachine input.now) b
        (moment (folder_of D.OutputFolder) O.Sink folder.old out.old (M.state machine.now) v) number passed }
    ensures ended { (number : ℕ) (v : RecencyView) → EndsPass (walk_by M.PassMachine input.now) number passed
        (moment (folder_of D.OutputFolder) O.Sink folder.old out.old (M.state machine.now) v)
        (moment (folder_of D.OutputFolder) O.Sink folder.new out.new (M.state machine.now) v) result }
    ensures kept { KeepsTraces (traces (folder_of D.OutputFolder) O.Sink folder.old out.old (M.state machine.now).files)
        (traces (folder_of D.OutputFolder) O.Sink folder.new out.new (M.state machine.now).files) }
{
    let Passed {
        picture,
        loads_nothing,
        lost: _,
        next_plan,
        tally,
        reads,
    } = passed;
    let NextPlan {
        wanted,
        needed: _,
        plan,
    } = next_plan;
    if !is_finished(input.mode, loads_nothing, &plan) {
        return Ok(WalkStep {
            picture,
            batch: plan,
            tally,
            reads,
        });
    }
    write_picture(
        buffer,
        alloc,
        folder,
        machine,
        input.depth,
        input.path,
        input.names.prefix,
        picture,
    )?;
    put_picture_line(out, picture, wanted, &tally)?;
    Ok(WalkStep {
        picture: picture + 1,
        batch: plan,
        tally: Tally::new(),
        reads,
    })
}
