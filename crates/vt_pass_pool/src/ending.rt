//! What is left of a pass for its samplers.

ghost use Rattle.std.specs.Prelude.{◌≡◌, ℕ, ◌<◌, ◌≤◌, ◌^◌, List, [], All, OnOk, OnErr, length, slice_index};
ghost use Rattle.vt_pass_rows.specs.SchedulesRows.{AreAllRows};
ghost use Rattle.vt_pass_rows.specs.declared.sampler.PassSampler.{PassSampler as Sampler};
ghost use Rattle.vt_pass_pool.specs.Pools.{AreSameSamplers, AreAtHome};
ghost use Rattle.vt_pass_pool.specs.Stills.{IsStill};
ghost use Rattle.vt_pass_pool.specs.Placing.{ArePlaced, all_kept, rows_kept, counted_by, lines_of};
ghost use Rattle.vt_pass_pool.specs.Returned.{AreOut, AreClosed, HaveTaken, MayCount};

use crate::placing::{count_together, note_lines};
use crate::returning::return_samplers;
use std::sync::Wait;
use vt_journal::RowLines;
use vt_outside::NoMemory;
use vt_pass_rows::{FeedbackCounts as Counts, PageTable, PassSampler, RowJob, Schedule};

/// Brings samplers home, puts the rows that they drew into their places, and tells of them. It refuses where the writer does not come to
/// know what their readers said. It may wait.
pub(crate) fn end_rows<T: PageTable, S: Schedule, R: Wait>(
    rt: &R,
    table: &T::Shared,
    rows: &S::Shared,
    writer: &mut T::Writer,
    home: &mut S::Home,
    samplers: &mut [PassSampler<T, S>],
    drawn: &mut [RowJob],
    counts: &mut Counts,
    lines: &mut RowLines,
) -> Result<(), NoMemory>
    requires of { T.is_of table.now writer.old }
    requires rows { S.is_home rows.now home.old }
    requires out { AreOut T.PageTable S.Schedule table.now rows.now (T.shape writer.old) (length drawn.old) samplers.old }
    requires pages { All (λ (a : Sampler T S T.Shared T.Reader T.Writer S.Shared S.Own S.Home). length a.counts.items ≡ length counts.old)
        samplers.old }
    requires taken { (height line count : ℕ) × (firsts : List S.Own) × HaveTaken S.Schedule rows.now height line count firsts home.old samplers.old
        × MayCount S.DEALT height count (length counts.old) samplers.old }
    requires none { lines.old.elements ≡ [] }
    requires room { length drawn.old ≤ lines.old.spare }
    ensures still { IsStill T.PageTable table.now writer.old writer.new }
    ensures same { AreSameSamplers samplers.old samplers.new }
    ensures home { AreAtHome T.PageTable writer.new samplers.new }
    ensures closed { OnOk result (AreClosed T.PageTable writer.old writer.new samplers.old samplers.new) }
    ensures all { (height line count : ℕ) (firsts : List S.Own) → HaveTaken S.Schedule rows.now height line count firsts home.old samplers.old
        → AreAllRows S.DEALT height count (rows_kept samplers.old) }
    ensures placed { ArePlaced (all_kept samplers.old) drawn.old drawn.new }
    ensures lines { OnOk result (lines.new.elements ≡ lines_of drawn.new) }
    ensures counts { length counts.new ≡ length counts.old }
    ensures sums { OnOk result ((p : ℕ) → p < length counts.old → slice_index counts.new p ≡ counted_by samplers.old p) }
    ensures refused { OnErr result T.refuses }
{
    let known = return_samplers::<T, S>(table, rows, writer, home, drawn, samplers);
    S::finish::<R>(rt, rows, home);
    if !known {
        return Err(NoMemory);
    }
    count_together::<T, S>(counts, samplers);
    note_lines(lines, drawn);
    Ok(())
}
