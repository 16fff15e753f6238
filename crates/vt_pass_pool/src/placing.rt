//! The rows that samplers drew are told, once they are at the places of their numbers.

ghost use Rattle.std.specs.Prelude.{◌≡◌, ℕ, ◌+◌, ◌<◌, ◌≤◌, ◌^◌, [], All, length, slice_index};
ghost use Rattle.vt_pass_rows.specs.declared.sampler.PassSampler.{PassSampler as Sampler};
ghost use Rattle.vt_pass_pool.specs.Placing.{IsRowInside, ArePlaced, counted_by, lines_of};

use vt_journal::{RowLine, RowLines};
use vt_outside::Items;
use vt_pass_rows::{FeedbackCounts as Counts, PageTable, PassSampler, RowJob, Schedule};

/// Puts the rows that a sampler keeps into the places of their numbers.
pub(crate) fn place_rows(kept: &mut Items<RowJob>, drawn: &mut [RowJob])
    requires { All (IsRowInside (length drawn.old)) kept.old.elements }
    ensures none { kept.new.elements ≡ [] }
    ensures placed { ArePlaced kept.old.elements drawn.old drawn.new }
{
    while let Some(job) = kept.pop() {
        let row = job.row as usize;
        drawn[row] = job;
    }
}

/// Puts what samplers have counted together in the place of counts.
pub(crate) fn count_together<T: PageTable, S: Schedule>(
    counts: &mut Counts,
    samplers: &[PassSampler<T, S>],
)
    requires lengths { All (λ (a : Sampler T S T.Shared T.Reader T.Writer S.Shared S.Own S.Home). length a.counts.items ≡ length counts.old)
        samplers.now }
    requires room { (p : ℕ) → p < length counts.old → counted_by samplers.now p < 2 ^ 32 }
    ensures length { length counts.new ≡ length counts.old }
    ensures sums { (p : ℕ) → p < length counts.old → slice_index counts.new p ≡ counted_by samplers.now p }
{
    counts.clear();
    for i in 0..samplers.len() {
        counts.merge(samplers[i].counts.as_slice());
    }
}

/// Notes by whom rows were drawn, and at which versions.
pub(crate) fn note_lines(lines: &mut RowLines, drawn: &[RowJob])
    requires none { lines.old.elements ≡ [] }
    requires room { length drawn.now ≤ lines.old.spare }
    ensures { lines.new.elements ≡ lines_of drawn.now }
{
    for y in 0..drawn.len() {
        lines.push(RowLine {
            row: drawn[y].row,
            sampler: drawn[y].sampler,
            version: drawn[y].version,
        });
    }
}
