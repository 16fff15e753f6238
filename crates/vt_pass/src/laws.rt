//! A law of the rows of a pass: it is the contract of a function that does nothing.

ghost use Rattle.std.specs.Prelude.{◌≤◌, List, length};
ghost use Rattle.vt_pass_machine.specs.Jobs.{Job};
ghost use Rattle.vt_pass_machine.specs.PlanTypes.batches.Planned.{Planned};
ghost use Rattle.vt_pass_machine.specs.JournalTypes.changes.RowLine.{RowLine};
ghost use Rattle.vt_pass_machine.specs.Placing.{bytes_of};
ghost use Rattle.vt_pass_machine.specs.Machines.{OfWriters};
ghost use Rattle.vt_pass.specs.NewRows.{AreNewRows};

use vt_pass_machine::{File, Filter, Machine, PassMachine, Schedule};
use vt_word_table::WordTable;

/// How the rows of a pass came, if it has any, that was run over shared words after it was prepared: each was drawn at a version that a
/// pass of its sampler held, which was given at the version at which this pass of the machine began and was taken back in it, and by
/// notes that came back in it.
pub fn rows_of_words_were_held<F: File + Send, S: Schedule, P: Filter>()
    ensures { let words = ⟦<Machine<F, WordTable, S, P> as PassMachine>⟧ in
        (m : _) (p : _) (batch : List Planned) (job : Job) (lines : List RowLine) → words.is_ready m batch → words.held m p job lines
        → 1 ≤ length lines → OfWriters (λ v w. AreNewRows P.Filter p.pool.geometry p.pool.depth v.writer w.writer job.scene.path
        job.picture lines (bytes_of p.pool.drawn.elements)) m.streamer p.streamer }
{}
