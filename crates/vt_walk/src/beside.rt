//! A picture that is written while the next one is drawn.

ghost use Rattle.std.specs.Prelude.{ℕ, ◌≡◌, ◌+◌, ◌<◌, ◌^◌, OnOk};
ghost use Rattle.std.specs.List.{concat};
ghost use Rattle.vt_ppm.specs.Picture.{picture_bytes};
ghost use Rattle.vt_pictures.specs.Names.{picture_name};
ghost use Rattle.vt_plan.specs.Views.{RecencyView};
ghost use Rattle.vt_walk_decisions.specs.Jobs.{job_of};
ghost use Rattle.vt_walk_decisions.specs.Passes.{MayPrepare, IsJobFor, EndsPassRun};
ghost use Rattle.vt_walk_decisions.specs.Judging.{MayGoOn, IsFollowed};
ghost use Rattle.vt_walk_decisions.specs.Requests.{ArePartlyReadFor};
ghost use Rattle.vt_walk.specs.WalkInputs.{IsWalkInput};
ghost use Rattle.vt_walk.specs.Writing.{WritesFile};
ghost use Rattle.vt_walk.specs.WalkSteps.{WalkStart};
ghost use Rattle.vt_walk.specs.Moments.{moment, traces, KeepsTraces, KeepsWalk};
ghost use Rattle.vt_walk.specs.Goings.{walk_by, AtPass, GoesFromPass, RunsBeside};
ghost use Rattle.vt_walk.specs.OutputFolders.{folder_of};

use crate::advance::plan_on;
use crate::files::write_file;
use crate::output_folder::OutputFolder;
use crate::passes::run_pass;
use crate::pictures::{make_picture, put_picture_line};
use std::alloc::Global;
use std::sync::Wait;
use std::thread::Threads;
use vt_evict::{Batch, Recency};
use vt_outside::{Gate, NoMemory, OutsideError, Sink};
use vt_pictures::Shot;
use vt_walk_decisions::{
    Desks, LentWorker, Meanwhile, Next, PassMachine, PassReport, Passed, WalkError, WalkInput,
    step_after,
};

/// Draws the next picture's first pass while the one that was finished is written, and puts the line of that. Its bytes are made in the
/// buffer before. After a refusal of the writing nothing is told of the pass: of it only reads are seen.
pub fn draw_beside<'w, Rt: Threads + Wait, M: PassMachine, D: OutputFolder, O: Sink, G: Gate>(
    rt: &Rt,
    desks: &mut Desks<LentWorker<'w, M::Shared, M::Loader, M::Sampler, G>>,
    alloc: Global,
    folder: &mut D,
    machine: &mut M,
    recency: &mut Recency,
    input: &WalkInput<'w>,
    number: u32,
    passed: Passed,
    buffer: &mut Vec<u8>,
    out: &mut O,
    gate: &'w G,
) -> Result<Next, WalkError>
    requires input { IsWalkInput input.now }
    requires idle { M.is_idle machine.old }
    requires few { number + 1 < 2 ^ 32 }
    requires goes_on { MayGoOn input.now passed }
    requires followed { IsFollowed input.now passed }
    requires stands { (b : WalkStart) × AtPass (walk_by M.PassMachine input.now) b
        (moment (folder_of D.OutputFolder) O.Sink folder.old out.old (M.state machine.old) recency.old) number passed }
    ensures taken { GoesFromPass (walk_by M.PassMachine input.now) number passed
        (moment (folder_of D.OutputFolder) O.Sink folder.old out.old (M.state machine.old) recency.old)
        (moment (folder_of D.OutputFolder) O.Sink folder.new out.new (M.state machine.new) recency.new) result }
    ensures idle { OnOk result (M.is_idle machine.new) }
    ensures kept { KeepsWalk (moment (folder_of D.OutputFolder) O.Sink folder.old out.old (M.state machine.old) recency.old)
        (moment (folder_of D.OutputFolder) O.Sink folder.new out.new (M.state machine.new) recency.new) }
{
    let start = machine.journal().version();
    let name = make_picture(
        buffer,
        alloc,
        machine,
        input.depth,
        input.path,
        input.names.prefix,
        passed.picture,
    )?;
    let report = write_beside(
        rt,
        desks,
        folder,
        machine,
        input,
        &passed,
        name.as_str(),
        buffer,
        out,
        gate,
    )?;
    let step = step_after(passed);
    let drawn = plan_on(
        alloc,
        machine,
        recency,
        input,
        number + 1,
        step,
        start,
        report,
    )?;
    Ok(Next::Pass(drawn))
}

// Runs the next picture's first pass while the bytes of the one that was finished are written, and puts the line of that.
fn write_beside<'w, Rt: Threads + Wait, M: PassMachine, D: OutputFolder, O: Sink, G: Gate>(
    rt: &Rt,
    desks: &mut Desks<LentWorker<'w, M::Shared, M::Loader, M::Sampler, G>>,
    folder: &mut D,
    machine: &mut M,
    input: &WalkInput<'w>,
    passed: &Passed,
    name: &str,
    bytes: &[u8],
    out: &mut O,
    gate: &'w G,
) -> Result<PassReport, WalkError>
    requires input { IsWalkInput input.now }
    requires idle { M.is_idle machine.old }
    requires goes_on { MayGoOn input.now passed.now }
    requires followed { IsFollowed input.now passed.now }
    requires name { name.now ≡ picture_name input.now.names.prefix.now passed.now.picture }
    requires bytes { bytes.now ≡ picture_bytes input.now.depth input.now.path.now.width input.now.path.now.height
        (concat (M.state machine.old).rows) }
    requires stands { (number : ℕ) × (v : RecencyView) × (b : WalkStart) × (number + 1 < 2 ^ 32)
        × AtPass (walk_by M.PassMachine input.now) b
        (moment (folder_of D.OutputFolder) O.Sink folder.old out.old (M.state machine.old) v) number passed.now }
    ensures ran { (number : ℕ) (v : RecencyView) → RunsBeside (walk_by M.PassMachine input.now) number passed.now
        (moment (folder_of D.OutputFolder) O.Sink folder.old out.old (M.state machine.old) v)
        (moment (folder_of D.OutputFolder) O.Sink folder.new out.new (M.state machine.new) v) result }
    ensures idle { OnOk result (M.is_idle machine.new) }
    ensures kept { KeepsTraces (traces (folder_of D.OutputFolder) O.Sink folder.old out.old (M.state machine.old).files)
        (traces (folder_of D.OutputFolder) O.Sink folder.new out.new (M.state machine.new).files) }
{
    let shot = Shot {
        geometry: input.geometry,
        path: input.path,
        picture: passed.picture + 1,
        depth: input.depth,
    };
    let (ran, written) = run_and_write(
        rt,
        desks,
        machine,
        &shot,
        &passed.next_plan.plan,
        gate,
        folder,
        name,
        bytes,
    );
    written?;
    put_picture_line(out, passed.picture, passed.next_plan.wanted, &passed.tally)?;
    let report = ran?;
    Ok(report)
}

// A file that is to be written while a pass is run.
#[derive(Drop)]
struct Writing<'a, D> {
    folder: &'a mut D,
    name: &'a str,
    bytes: &'a [u8],
    // What its writing has answered.
    written: Result<(), OutsideError>,
}

impl<'a, D: OutputFolder> Meanwhile for Writing<'a, D> {
    ghost use Rattle.std.specs.Prelude.{◌≡◌};
    ghost use Rattle.vt_walk.specs.OutputFolders.{folder_of};
    ghost use Rattle.vt_walk.specs.Writing.{WritesFile};

    ghost ready = { λ writing. Unit {0} };

    ghost did = { λ before after. (after.folder.ghost_name ≡ before.folder.ghost_name)
        × WritesFile (folder_of D.OutputFolder) before.name.now before.bytes.now after.written before.folder.now after.folder.now };

    fn act(&mut self) {
        self.written = write_file(self.folder, self.name, self.bytes);
    }
}

// Runs a pass by hands at these desks, and writes a file in this thread meanwhile. It is written in any case.
fn run_and_write<'w, Rt: Threads + Wait, M: PassMachine, D: OutputFolder, G: Gate>(
    rt: &Rt,
    desks: &mut Desks<LentWorker<'w, M::Shared, M::Loader, M::Sampler, G>>,
    machine: &mut M,
    shot: &Shot<'w>,
    batch: &Batch,
    gate: &'w G,
    folder: &mut D,
    name: &str,
    bytes: &[u8],
) -> (Result<PassReport, NoMemory>, Result<(), OutsideError>)
    requires idle { M.is_idle machine.old }
    requires may { MayPrepare (M.state machine.old) batch.now.elements }
    requires job { IsJobFor (M.state machine.old).setup (job_of shot.now batch.now.elements) }
    ensures ran { EndsPassRun M.drawing (M.drawn machine.new) (M.is_idle machine.new) (job_of shot.now batch.now.elements)
        result.0 (M.state machine.old) (M.state machine.new) }
    ensures read { ArePartlyReadFor shot.now.geometry.now shot.now.depth batch.now.elements (M.state machine.old).files
        (M.state machine.new).files }
    ensures written { WritesFile (folder_of D.OutputFolder) name.now bytes.now result.1 folder.old folder.new }
{
    let mut writing = Writing {
        folder,
        name,
        bytes,
        written: Ok(()),
    };
    let ran = run_pass(rt, desks, machine, shot, batch, gate, &mut writing);
    (ran, writing.written)
}
