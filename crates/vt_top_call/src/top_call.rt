//! The top call.

ghost use Rattle.vt_commands.specs.Arguments.{texts};
ghost use Rattle.vt_commands.specs.Runs.{run_of, IsRun};

use std::alloc::Global;
use std::sync::Wait;
use std::thread::Threads;
use vt_commands::{Machines, may_wait, run_at_once, run_waiting};
use vt_outside::{Folder, Gate, Sink};

/// Does what the words after the program's name say, and answers the status of the program: 0 where it is done, 1 for
/// want of memory, 2 for words that are those of no command, 3 for a fault or a missing name, 4 for an input outside
/// its format, 5 where the frames are too few.
///
/// `plain` reads the path and then the texture, and writes the plain picture of each camera; `tile` reads a texture
/// and writes its tile store; `info` tells what a tile store's header says; `gen` writes the texture of a number;
/// `upgrade` reads a tile store of one-byte samples and writes the one of two-byte samples that it makes; `replay`
/// reads a path, a store and a journal, and writes the replay of each picture of the journal; `walk` reads a path and
/// opens a store, and writes a journal and each picture of the path as a machine draws it while it streams the tiles
/// of the store: one of `Ms`, that for the swapped table, for shared rows or for bilinear filtering where the words ask for it,
/// whichever machines these are; `trial` walks settled in memory over a texture and a path that are made from a number, and
/// tells how many passes and reads it took.
/// `walk` and `trial` may wait; any other words are handed to `run_at_once`.
///
/// The contract is the record `IsRun` of vt_commands `specs/Runs.antt`, with a field for each promise: what was left, what was
/// asked, the cause of each status, and the line on the error output.
pub fn run<
    Ms: Machines<D::File>,
    Rt: Threads + Wait + Sync,
    D: Folder,
    O: Sink,
    E: Sink,
    G: Gate + Sync,
>(
    rt: &Rt,
    alloc: Global,
    words: &[String],
    folder: &mut D,
    out: &mut O,
    err: &mut E,
    gate: &G,
) -> u8
    ensures { IsRun (run_of Ms.kinds
        D.Folder O.Sink E.Sink (texts words.now) folder.old folder.new out.old out.new err.old err.new) result }
{
    if may_wait(words) {
        return run_waiting::<Ms, Rt, D, O, E, G>(rt, alloc, words, folder, out, err, gate);
    }
    run_at_once(rt, alloc, words, folder, out, err)
}
