//! Runs by machines of given types: one for each choice, or one for all.

ghost use Rattle.vt_commands.specs.Arguments.{texts};
ghost use Rattle.vt_commands.specs.Machines.{machines_of, kind_of};
ghost use Rattle.vt_commands.specs.Runs.{run_of, IsRun};

use crate::top_call::run;
use std::alloc::Global;
use std::marker::PhantomData;
use std::sync::Wait;
use std::thread::Threads;
use vt_commands::{Machines, SentMachine};
use vt_outside::{File, Folder, Gate, Sink};

/// The machines of a run, a type for each choice that the words of a walk have.
struct MachineSet<Standard, SwappedTable, SharedRows, Bilinear> {
    standard: PhantomData<Standard>,
    swapped_table: PhantomData<SwappedTable>,
    shared_rows: PhantomData<SharedRows>,
    bilinear: PhantomData<Bilinear>,
}

impl<
    F: File + Send,
    Standard: SentMachine<File = F>,
    SwappedTable: SentMachine<File = F>,
    SharedRows: SentMachine<File = F>,
    Bilinear: SentMachine<File = F>,
> Machines<F> for MachineSet<Standard, SwappedTable, SharedRows, Bilinear> {
    type Standard = Standard;

    type SwappedTable = SwappedTable;

    type SharedRows = SharedRows;

    type Bilinear = Bilinear;

    ghost kinds = { machines_of (kind_of Standard.PassMachine) (kind_of SwappedTable.PassMachine) (kind_of SharedRows.PassMachine)
        (kind_of Bilinear.PassMachine) };

    ghost standard = { λ words c result ends. ends };

    ghost swapped_table = { λ words c result ends. ends };

    ghost shared_rows = { λ words c result ends. ends };

    ghost bilinear = { λ words c result ends. ends };
}

/// Does what `run` does by machines of these types, one for each choice that the words of a walk have.
pub fn run_by<
    Standard: SentMachine<File = D::File>,
    SwappedTable: SentMachine<File = D::File>,
    SharedRows: SentMachine<File = D::File>,
    Bilinear: SentMachine<File = D::File>,
    Rt: Threads + Wait + Sync,
    D: Folder,
    O: Sink,
    E: Sink,
    G: Gate + Sync,
>(
    rt: &Rt,
    alloc: Global,
    words: &[String],
    folder: &mut D,
    out: &mut O,
    err: &mut E,
    gate: &G,
) -> u8
    ensures { IsRun (run_of (machines_of (kind_of Standard.PassMachine) (kind_of SwappedTable.PassMachine) (kind_of SharedRows.PassMachine)
        (kind_of Bilinear.PassMachine)) D.Folder O.Sink E.Sink (texts words.now) folder.old folder.new out.old out.new err.old err.new) result }
{
    run::<MachineSet<Standard, SwappedTable, SharedRows, Bilinear>, Rt, D, O, E, G>(
        rt, alloc, words, folder, out, err, gate,
    )
}

/// Does what `run` does by machines of one type, whatever the words of a walk choose.
pub fn run_one<
    M: SentMachine<File = D::File>,
    Rt: Threads + Wait + Sync,
    D: Folder,
    O: Sink,
    E: Sink,
    G: Gate + Sync,
>(
    rt: &Rt,
    alloc: Global,
    words: &[String],
    folder: &mut D,
    out: &mut O,
    err: &mut E,
    gate: &G,
) -> u8
    ensures { IsRun (run_of (machines_of (kind_of M.PassMachine) (kind_of M.PassMachine) (kind_of M.PassMachine)
        (kind_of M.PassMachine)) D.Folder O.Sink E.Sink (texts words.now) folder.old folder.new out.old out.new err.old err.new) result }
{
    run_by::<M, M, M, M, Rt, D, O, E, G>(rt, alloc, words, folder, out, err, gate)
}
