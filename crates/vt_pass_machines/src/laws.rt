//! A law of the rows of a pass: it is the contract of a function that does nothing.

ghost use Rattle.std.specs.Prelude.{List};
ghost use Rattle.vt_pass_machine.specs.Jobs.{Job};
ghost use Rattle.vt_pass_machine.specs.JournalTypes.changes.RowLine.{RowLine};
ghost use Rattle.vt_pass_machine.specs.Placing.{bytes_of};
ghost use Rattle.vt_pass_machine.specs.Machines.{OfWriters};
ghost use Rattle.vt_pass_machines.specs.NewRows.{AreEnteredRows};

use vt_pass_machine::{File, Filter, Machine, PassMachine, Schedule};
use vt_swap_table::SwapTable;

/// How the rows of a pass came that was run over the swapped table: the reader of each row's sampler entered the row's version in it,
/// and the row was drawn by what that reader has seen of the log, which is a beginning of what the writer has done.
pub fn rows_of_a_swapped_table_were_entered<F: File + Send, S: Schedule, P: Filter>()
    ensures { let swapped = ⟦<Machine<F, SwapTable, S, P> as PassMachine>⟧ in
        (m : _) (p : _) (job : Job) (lines : List RowLine) → swapped.held m p job lines
        → OfWriters (λ v w. AreEnteredRows P.Filter p.pool.geometry p.pool.depth w.streamer m.pool.samplers.elements
        p.pool.samplers.elements job.scene.path job.picture lines (bytes_of p.pool.drawn.elements)) m.streamer p.streamer }
{}
