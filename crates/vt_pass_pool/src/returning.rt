//! Samplers come home after a pass: their readers are closed, their ways to rows taken back, and their rows put into their places.

ghost use Rattle.std.specs.Prelude.{◌≡◌, ℕ, ◌<◌, ◌⊎◌, false, List, [], ◌∷◌, ◌++◌, All, IsTrue, length};
ghost use Rattle.vt_pass_rows.specs.declared.sampler.PassSampler.{PassSampler as Sampler};
ghost use Rattle.vt_pass_pool.specs.Pools.{IsSameSampler, AreSameSamplers, AreAtHome, ways_of};
ghost use Rattle.vt_pass_pool.specs.Stills.{IsStill};
ghost use Rattle.vt_pass_pool.specs.Placing.{IsRowInside, ArePlaced, all_kept};
ghost use Rattle.vt_pass_pool.specs.Returned.{IsClosed, AreOut, AreClosed};

use crate::placing::place_rows;
use vt_pass_rows::{PageTable, PassSampler, RowJob, Schedule};

// Brings one sampler home, and tells whether the writer knows by now what its reader said.
fn return_sampler<T: PageTable, S: Schedule>(
    table: &T::Shared,
    rows: &S::Shared,
    writer: &mut T::Writer,
    home: &mut S::Home,
    drawn: &mut [RowJob],
    sampler: &mut PassSampler<T, S>,
) -> bool
    requires of { T.is_of table.now writer.old }
    requires may { T.may_draw table.now (T.shape writer.old) sampler.old.number sampler.old.reader }
    requires way { (height : ℕ) × (line : ℕ) × S.is_of rows.now height line sampler.old.own }
    requires rows { S.is_home rows.now home.old }
    requires inside { All (IsRowInside (length drawn.old)) sampler.old.kept.elements }
    ensures still { IsStill T.PageTable table.now writer.old writer.new }
    ensures rows { S.is_home rows.now home.new }
    ensures same { IsSameSampler sampler.old sampler.new }
    ensures home { T.is_home writer.new sampler.old.number sampler.new.reader }
    ensures others { (k : ℕ) (b : Sampler T S T.Shared T.Reader T.Writer S.Shared S.Own S.Home) → T.is_home writer.old k b.reader
        → T.is_home writer.new k b.reader }
    ensures closed { IsTrue result → IsClosed T.PageTable writer.old writer.new sampler.old sampler.new }
    ensures gathered { (height line count : ℕ) (firsts owns : List S.Own) → S.has_gathered rows.now height line count firsts owns home.old
        → S.has_gathered rows.now height line count firsts (owns ++ sampler.old.own ∷ []) home.new }
    ensures placed { ArePlaced sampler.old.kept.elements drawn.old drawn.new }
    ensures refused { result ≡ false → T.refuses }
{
    S::gather(rows, home, &mut sampler.own);
    place_rows(&mut sampler.kept, drawn);
    T::close(table, writer, sampler.number, &mut sampler.reader)
}

// Whether both are so.
fn both(a: bool, b: bool) -> bool
    ensures first { IsTrue result → IsTrue a }
    ensures second { IsTrue result → IsTrue b }
    ensures neither { result ≡ false → (a ≡ false) ⊎ (b ≡ false) }
{
    a && b
}

/// Brings samplers home, and tells whether the writer knows by now what their readers said.
pub(crate) fn return_samplers<T: PageTable, S: Schedule>(
    table: &T::Shared,
    rows: &S::Shared,
    writer: &mut T::Writer,
    home: &mut S::Home,
    drawn: &mut [RowJob],
    samplers: &mut [PassSampler<T, S>],
) -> bool
    requires of { T.is_of table.now writer.old }
    requires out { AreOut T.PageTable S.Schedule table.now rows.now (T.shape writer.old) (length drawn.old) samplers.old }
    requires rows { S.is_home rows.now home.old }
    ensures still { IsStill T.PageTable table.now writer.old writer.new }
    ensures rows { S.is_home rows.now home.new }
    ensures same { AreSameSamplers samplers.old samplers.new }
    ensures home { AreAtHome T.PageTable writer.new samplers.new }
    ensures closed { IsTrue result → AreClosed T.PageTable writer.old writer.new samplers.old samplers.new }
    ensures gathered { (height line count : ℕ) (firsts : List S.Own) → S.has_gathered rows.now height line count firsts [] home.old
        → S.has_gathered rows.now height line count firsts (ways_of samplers.old) home.new }
    ensures placed { ArePlaced (all_kept samplers.old) drawn.old drawn.new }
    ensures refused { result ≡ false → T.refuses }
{
    let mut known = true;
    for i in 0..samplers.len() {
        let told = return_sampler::<T, S>(table, rows, writer, home, drawn, &mut samplers[i]);
        known = both(known, told);
    }
    known
}
