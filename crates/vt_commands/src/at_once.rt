//! The commands that do not wait: all but `walk` and `trial`.

ghost use Rattle.std.specs.Prelude.{◌≡◌, false};
ghost use Rattle.vt_command_words.specs.Arguments.{texts};
ghost use Rattle.vt_commands.specs.Words.{shown_words, HasLawfulNumbers};
ghost use Rattle.vt_command_inputs.specs.Effects.{call_effect};
ghost use Rattle.vt_command_inputs.specs.CommandSpecs.{EndsBy};
ghost use Rattle.vt_commands.specs.commands.{spec_of, EndsRun};
ghost use Rattle.vt_commands.specs.Waits.{is_waiting_name, may_wait, MayWait, no_machines};
ghost use Rattle.vt_commands.specs.Runs.{run_of, IsRun};

use crate::command::{Command, read_command};
use std::alloc::Global;
use std::thread::Threads;
use vt_command_inputs::{Refusal, print_end, status_of};
use vt_outside::{Folder, Sink};
use vt_walk_commands::{perform_store_command, replay, usage_line};

/// Whether the words may be those of a command that waits: the first one is `walk` or `trial`.
pub fn may_wait(words: &[String]) -> bool
    ensures { result ≡ may_wait (texts words.now) }
{
    match words {
        [name, ..] => is_waiting_name(name.as_str()),
        [] => false,
    }
}

fn is_waiting_name(name: &str) -> bool
    ensures { result ≡ is_waiting_name name.now }
{
    name == "walk" || name == "trial"
}

/// Does what `run` does, where the words are not those of a command that may wait: it joins each thread that it starts and waits
/// for no other, so it returns whatever bytes, places and faults come.
pub fn run_at_once<Rt: Threads + Sync, D: Folder, O: Sink, E: Sink>(
    rt: &Rt,
    alloc: Global,
    words: &[String],
    folder: &mut D,
    out: &mut O,
    err: &mut E,
) -> u8
    requires { may_wait (texts words.now) ≡ false }
    ensures { IsRun (run_of no_machines D.Folder O.Sink E.Sink (texts words.now) folder.old folder.new out.old out.new
        err.old
        err.new) result }
{
    let end = do_at_once(rt, alloc, words, folder, out);
    print_end(&end, usage_line(), err);
    status_of(&end)
}

// Reads the words and does the command that they ask for.
fn do_at_once<'a, Rt: Threads + Sync, D: Folder, O: Sink>(
    rt: &Rt,
    alloc: Global,
    words: &'a [String],
    folder: &mut D,
    out: &mut O,
) -> Result<(), Refusal<'a>>
    requires { may_wait (texts words.now) ≡ false }
    ensures { EndsRun no_machines (texts words.now) (call_effect D.Folder O.Sink folder.old folder.new out.old out.new)
        result }
{
    let command = read_command(alloc, words)?;
    perform_at_once(rt, alloc, &command, folder, out)
}

// Does a command.
fn perform_at_once<'a, Rt: Threads + Sync, D: Folder, O: Sink>(
    rt: &Rt,
    alloc: Global,
    command: &Command<'a>,
    folder: &mut D,
    out: &mut O,
) -> Result<(), Refusal<'a>>
    requires lawful { HasLawfulNumbers command.now }
    requires at_once { MayWait (shown_words command.now) → ⊥ }
    ensures { EndsBy (spec_of no_machines (shown_words command.now))
        (call_effect D.Folder O.Sink folder.old folder.new out.old out.new) result }
{
    match command {
        Command::Store(store) => perform_store_command(rt, alloc, store, folder, out),
        Command::Replay(words) => replay(rt, alloc, words, folder, out),
        Command::Walk(_) => unreachable!(),
        Command::Trial(_) => unreachable!(),
    }
}
