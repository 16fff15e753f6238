//! The commands that may wait for other threads: `walk` and `trial`.

ghost use Rattle.std.specs.Prelude.{◌≡◌, true};
ghost use Rattle.vt_command_words.specs.Arguments.{texts};
ghost use Rattle.vt_commands.specs.Words.{shown_words, HasLawfulNumbers};
ghost use Rattle.vt_command_inputs.specs.Effects.{call_effect};
ghost use Rattle.vt_command_inputs.specs.CommandSpecs.{EndsBy};
ghost use Rattle.vt_commands.specs.commands.{spec_of, EndsRun};
ghost use Rattle.vt_commands.specs.Waits.{may_wait, MayWait};
ghost use Rattle.vt_commands.specs.Runs.{run_of, IsRun};

use crate::choice::walk_chosen;
use crate::command::{Command, read_command};
use std::alloc::Global;
use std::sync::Wait;
use std::thread::Threads;
use vt_command_inputs::{Refusal, print_end, status_of};
use vt_outside::{Folder, Gate, Sink};
use vt_walk_commands::{Machines, trial, usage_line};

/// Does what `run` does, where the words are those of a command that may wait.
pub fn run_waiting<
    Ms: Machines<D::File>,
    Rt: Threads + Wait + Sync,
    D: Folder,
    O: Sink,
    E: Sink,
    G: Gate + Sync,
>(
    rt: &Rt,
    alloc: Global,
    words: &[String],
    folder: &mut D,
    out: &mut O,
    err: &mut E,
    gate: &G,
) -> u8
    requires { may_wait (texts words.now) ≡ true }
    ensures { IsRun (run_of Ms.kinds
        D.Folder O.Sink E.Sink (texts words.now) folder.old folder.new out.old out.new err.old err.new) result }
{
    let end = do_waiting::<Ms, Rt, D, O, G>(rt, alloc, words, folder, out, gate);
    print_end(&end, usage_line(), err);
    status_of(&end)
}

// Reads the words and does the command that they ask for.
fn do_waiting<
    'a,
    Ms: Machines<D::File>,
    Rt: Threads + Wait + Sync,
    D: Folder,
    O: Sink,
    G: Gate + Sync,
>(
    rt: &Rt,
    alloc: Global,
    words: &'a [String],
    folder: &mut D,
    out: &mut O,
    gate: &G,
) -> Result<(), Refusal<'a>>
    requires { may_wait (texts words.now) ≡ true }
    ensures { EndsRun Ms.kinds
        (texts words.now) (call_effect D.Folder O.Sink folder.old folder.new out.old out.new) result }
{
    let command = read_command(alloc, words)?;
    perform_waiting::<Ms, Rt, D, O, G>(rt, alloc, &command, folder, out, gate)
}

// Does a command.
fn perform_waiting<
    'a,
    Ms: Machines<D::File>,
    Rt: Threads + Wait + Sync,
    D: Folder,
    O: Sink,
    G: Gate + Sync,
>(
    rt: &Rt,
    alloc: Global,
    command: &Command<'a>,
    folder: &mut D,
    out: &mut O,
    gate: &G,
) -> Result<(), Refusal<'a>>
    requires lawful { HasLawfulNumbers command.now }
    requires waits { MayWait (shown_words command.now) }
    ensures { EndsBy (spec_of Ms.kinds
        (shown_words command.now)) (call_effect D.Folder O.Sink folder.old folder.new out.old out.new) result }
{
    match command {
        Command::Walk(words) => {
            walk_chosen::<Ms, Rt, D, O, G>(rt, alloc, words, folder, out, gate)
        }
        Command::Trial(words) => trial(rt, alloc, words, out, gate),
        Command::Store(_) | Command::Replay(_) => unreachable!(),
    }
}
