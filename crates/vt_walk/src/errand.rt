//! A walk by the hands of a crew.

ghost use Rattle.std.specs.Prelude.{◌≤◌, IfOk};
ghost use Rattle.vt_walk.specs.WalkInputs.{setup_of_input, IsWalkInput};
ghost use Rattle.vt_walk.specs.WalkSteps.{WalkStart};
ghost use Rattle.vt_walk.specs.Moments.{moment, KeepsWalk};
ghost use Rattle.vt_walk.specs.Goings.{walk_by, AtFirst, WalksOn};
ghost use Rattle.vt_walk.specs.Counts.{HasCounts};
ghost use Rattle.vt_walk.specs.OutputFolders.{folder_of};

use crate::output_folder::OutputFolder;
use crate::walk_steps::{Walked, walk_on};
use std::alloc::Global;
use std::sync::Wait;
use std::thread::Threads;
use vt_evict::Recency;
use vt_outside::{Gate, Sink};
use vt_walk_decisions::{
    Desks, Errand, LentWorker, PassMachine, SentMachine, WalkError, WalkInput, hands_for,
    run_with_crew,
};

// The passes of a walk that has begun, with all that they use. Each `&mut` has a lifetime of its own, without which the check does not cover the
// function that lends them.
#[derive(Drop)]
struct WalkErrand<'w, 'd, 'm, 'r, 'o, M, D, O, G> {
    alloc: Global,
    folder: &'d mut D,
    machine: &'m mut M,
    recency: &'r mut Recency,
    input: WalkInput<'w>,
    out: &'o mut O,
    gate: &'w G,
    // What the walk has answered, and before it a refusal.
    walked: Result<Walked, WalkError>,
}

impl<'w, 'd, 'm, 'r, 'o, M: PassMachine, D: OutputFolder, O: Sink, G: Gate> Errand<
    LentWorker<'w, M::Shared, M::Loader, M::Sampler, G>,
> for WalkErrand<'w, 'd, 'm, 'r, 'o, M, D, O, G> {
    ghost use Rattle.vt_walk.specs.OutputFolders.{folder_of};
    ghost use Rattle.vt_walk.specs.Moments.{moment};
    ghost use Rattle.vt_walk.specs.Goings.{walk_by};
    ghost use Rattle.vt_walk.specs.Errands.{MayWalkOn, HasWalkedOn, AreSamePlaces};

    ghost ready = { λ errand. MayWalkOn (walk_by M.PassMachine errand.input) (M.is_idle errand.machine.now)
        (moment (folder_of D.OutputFolder) O.Sink errand.folder.now errand.out.now (M.state errand.machine.now) errand.recency.now) };

    ghost did = { λ before after. AreSamePlaces before after × HasWalkedOn (walk_by M.PassMachine before.input)
        (moment (folder_of D.OutputFolder) O.Sink before.folder.now before.out.now (M.state before.machine.now) before.recency.now)
        (moment (folder_of D.OutputFolder) O.Sink after.folder.now after.out.now (M.state after.machine.now) after.recency.now)
        after.walked };

    fn run<Rt: Threads + Wait>(
        &mut self,
        rt: &Rt,
        desks: &mut Desks<LentWorker<'w, M::Shared, M::Loader, M::Sampler, G>>,
    ) {
        // A pass that finds no hand is done by this thread alone.
        desks.await_hands(rt);
        let mut buffer = Vec::new(self.alloc);
        self.walked = walk_on(
            rt,
            desks,
            self.alloc,
            self.folder,
            self.machine,
            self.recency,
            &self.input,
            &mut buffer,
            self.out,
            self.gate,
        );
    }
}

/// Takes steps until all pictures are finished, and puts the last line, by the hands of a crew that is made for it.
pub fn walk_by_crew<
    'w,
    Rt: Threads + Wait + Sync,
    M: SentMachine,
    D: OutputFolder,
    O: Sink,
    G: Gate + Sync,
>(
    rt: &Rt,
    alloc: Global,
    folder: &mut D,
    machine: &mut M,
    recency: &mut Recency,
    input: &WalkInput<'w>,
    out: &mut O,
    gate: &'w G,
) -> Result<Walked, WalkError>
    requires input { IsWalkInput input.now }
    requires enough_frames { input.now.pinned ≤ input.now.settings.frames }
    requires idle { M.is_idle machine.old }
    requires stands { (b : WalkStart) × AtFirst (walk_by M.PassMachine input.now) b
        (moment (folder_of D.OutputFolder) O.Sink folder.old out.old (M.state machine.old) recency.old) }
    ensures walked { WalksOn (walk_by M.PassMachine input.now)
        (moment (folder_of D.OutputFolder) O.Sink folder.old out.old (M.state machine.old) recency.old)
        (moment (folder_of D.OutputFolder) O.Sink folder.new out.new (M.state machine.new) recency.new) result }
    ensures counted { IfOk result (HasCounts (setup_of_input M.drawing input.now)) }
    ensures kept { KeepsWalk (moment (folder_of D.OutputFolder) O.Sink folder.old out.old (M.state machine.old) recency.old)
        (moment (folder_of D.OutputFolder) O.Sink folder.new out.new (M.state machine.new) recency.new) }
{
    let mut errand = WalkErrand {
        alloc,
        folder,
        machine,
        recency,
        input: *input,
        out,
        gate,
        walked: Err(WalkError::NoMemory),
    };
    let hands = hands_for::<M>(&input.settings.crew, input.path);
    run_with_crew(rt, alloc, hands, &mut errand);
    errand.walked
}
