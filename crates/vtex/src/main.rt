//! A page cache for software virtual texturing: the program.
#![tactic(auto)]

ghost use Rattle.std.specs.Prelude.{◌≡◌};
ghost use Rattle.std.specs.IoError.{error_kind};
ghost use Rattle.vt_command_inputs.specs.Refusals.{unread_refusal};
ghost use Rattle.vt_command_words.specs.Arguments.{texts};
ghost use Rattle.vt_top_call.specs.Runs.{run_of, Asks, IsRun};
ghost use Rattle.vt_top_call.specs.Words.{shown_words};
ghost use Rattle.vt_top_call.specs.Machines.{machines_of, kind_of};
ghost use Rattle.vtex.specs.Here.{DrawsHere};

use std::alloc::Global;
use std::io::ErrorKind;
use std::process::ExitCode;
use std::sync::Wait;
use std::thread::Threads;
use std::{env, io};
use vt_command_inputs::Refusal;
use vt_command_words::MachineChoice;
use vt_machine::PassMachine;
use vt_outside::{Folder, Gate, OpenGate, RealFolder, RealSink, Sink};
use vt_pictures::{Filter, Nearest};
pub use vt_top_call::run;
use vt_top_call::{
    Bilinear, BlendMachine, Command, StealMachine, SwapMachine, WordMachine, choice_of,
    read_command, refuse_unread, run_one, usage_line,
};

// The words after the program's name.
fn words_of(rt: &HostRuntime, alloc: Global) -> io::Result<Vec<String>> {
    let mut words = Vec::new(alloc);
    for word in env::args(rt)?.skip(1) {
        words.push(word)?;
    }
    Ok(words)
}

// The refusal where the words could not be read: a word that is no text is none of a command's.
fn unread(error: &io::Error) -> Refusal<'static>
    ensures { result ≡ unread_refusal (error_kind error.now) }
{
    match error.kind() {
        ErrorKind::OutOfMemory => Refusal::NoMemory,
        _ => Refusal::Usage,
    }
}

// Does the command that the words ask for: a walk draws the nearest texel over shared words with its rows dealt to the samplers, but where
// its words ask for the swapped table, for shared rows, or for blends. Each arm names one machine: a call that names all four exceeds the
// prover's limit of steps.
fn run_chosen<Rt: Threads + Wait + Sync, D: Folder, O: Sink, E: Sink, G: Gate + Sync>(
    rt: &Rt,
    alloc: Global,
    words: &[String],
    command: &Command<'_>,
    folder: &mut D,
    out: &mut O,
    err: &mut E,
    gate: &G,
) -> u8
    requires { Asks (texts words.now) (shown_words command.now) }
    ensures { IsRun (run_of (machines_of (kind_of ⟦<WordMachine<D::File> as PassMachine>⟧) (kind_of ⟦<SwapMachine<D::File> as PassMachine>⟧)
        (kind_of ⟦<StealMachine<D::File> as PassMachine>⟧) (kind_of ⟦<BlendMachine<D::File> as PassMachine>⟧)) D.Folder O.Sink E.Sink
        (texts words.now) folder.old folder.new out.old out.new err.old err.new) result }
{
    match choice_of(command) {
        MachineChoice::Standard => run_one::<WordMachine<D::File>, Rt, D, O, E, G>(
            rt, alloc, words, folder, out, err, gate,
        ),
        MachineChoice::SwappedTable => run_one::<SwapMachine<D::File>, Rt, D, O, E, G>(
            rt, alloc, words, folder, out, err, gate,
        ),
        MachineChoice::SharedRows => run_one::<StealMachine<D::File>, Rt, D, O, E, G>(
            rt, alloc, words, folder, out, err, gate,
        ),
        MachineChoice::Bilinear => run_one::<BlendMachine<D::File>, Rt, D, O, E, G>(
            rt, alloc, words, folder, out, err, gate,
        ),
    }
}

// Does what the words say, as `run` of vt_top_call does, by the machines of this program.
fn run_here<Rt: Threads + Wait + Sync, D: Folder, O: Sink, E: Sink, G: Gate + Sync>(
    rt: &Rt,
    alloc: Global,
    words: &[String],
    folder: &mut D,
    out: &mut O,
    err: &mut E,
    gate: &G,
) -> u8
    ensures run { IsRun (run_of (machines_of (kind_of ⟦<WordMachine<D::File> as PassMachine>⟧) (kind_of ⟦<SwapMachine<D::File> as PassMachine>⟧)
        (kind_of ⟦<StealMachine<D::File> as PassMachine>⟧) (kind_of ⟦<BlendMachine<D::File> as PassMachine>⟧)) D.Folder O.Sink E.Sink
        (texts words.now) folder.old folder.new out.old out.new err.old err.new) result }
    ensures drawings { DrawsHere ⟦<Nearest as Filter>⟧ ⟦<Bilinear as Filter>⟧ ⟦<WordMachine<D::File> as PassMachine>⟧.drawing
        ⟦<SwapMachine<D::File> as PassMachine>⟧.drawing ⟦<StealMachine<D::File> as PassMachine>⟧.drawing
        ⟦<BlendMachine<D::File> as PassMachine>⟧.drawing }
{
    match read_command(alloc, words) {
        Ok(command) => run_chosen(rt, alloc, words, &command, folder, out, err, gate),
        Err(error) => refuse_unread(error, err),
    }
}

fn main(rt: HostRuntime) -> ExitCode {
    let alloc = rt.alloc();
    let mut err = RealSink::new(rt.stderr());
    let words = match words_of(&rt, alloc) {
        Ok(words) => words,
        Err(error) => {
            let refusal = unread(&error);
            refusal.print(usage_line(), &mut err);
            return ExitCode::from(refusal.status());
        }
    };
    let mut folder = RealFolder::new(&rt);
    let mut out = RealSink::new(rt.stdout());
    let status = run_here(
        &rt,
        alloc,
        words.as_slice(),
        &mut folder,
        &mut out,
        &mut err,
        &OpenGate,
    );
    ExitCode::from(status)
}
