//! The choice of the machine by which the words have a walk drawn: a machine is a type of `Machines`, an arm here, and one of
//! `run_chosen` of vtex.

ghost use Rattle.vt_command_words.specs.Walk.{shown_walk, IsLawfulWalk};
ghost use Rattle.vt_command_inputs.specs.Effects.{call_effect};
ghost use Rattle.vt_walk_commands.specs.commands.Walk.{walk_spec};
ghost use Rattle.vt_command_inputs.specs.CommandSpecs.{EndsBy};
ghost use Rattle.vt_walk_commands.specs.Machines.{chosen};

use std::alloc::Global;
use std::sync::Wait;
use std::thread::Threads;
use vt_command_inputs::Refusal;
use vt_command_words::{MachineChoice, WalkWords};
use vt_outside::{Folder, Gate, Sink};
use vt_walk_commands::{Machines, walk};

/// Walks by the machine that the words choose.
pub fn walk_chosen<
    'a,
    Ms: Machines<D::File>,
    Rt: Threads + Wait + Sync,
    D: Folder,
    O: Sink,
    G: Gate + Sync,
>(
    rt: &Rt,
    alloc: Global,
    words: &WalkWords<'a>,
    folder: &mut D,
    out: &mut O,
    gate: &G,
) -> Result<(), Refusal<'a>>
    requires { IsLawfulWalk words.now }
    ensures { let asked = shown_walk words.now in
        EndsBy (walk_spec (chosen Ms.kinds asked) asked)
        (call_effect D.Folder O.Sink folder.old folder.new out.old out.new) result }
{
    match words.machine {
        MachineChoice::Standard => walk::<Ms::Standard, Rt, D, O, G>(
            rt, alloc, words, folder, out, gate,
        ),
        MachineChoice::SwappedTable => {
            walk::<Ms::SwappedTable, Rt, D, O, G>(rt, alloc, words, folder, out, gate)
        }
        MachineChoice::SharedRows => {
            walk::<Ms::SharedRows, Rt, D, O, G>(rt, alloc, words, folder, out, gate)
        }
        MachineChoice::Bilinear => walk::<Ms::Bilinear, Rt, D, O, G>(
            rt, alloc, words, folder, out, gate,
        ),
    }
}
