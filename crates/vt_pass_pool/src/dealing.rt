//! The ways to the rows of a picture are dealt to samplers.

ghost use Rattle.std.specs.Prelude.{◌≡◌, ℕ, ◌<◌, List, [], ◌∷◌, ◌++◌, Some, length, slice_get, OnOk};
ghost use Rattle.vt_pass_rows.specs.declared.sampler.PassSampler.{PassSampler as Sampler};
ghost use Rattle.vt_pass_pool.specs.Pools.{IsSameSampler, AreSameSamplers, HaveSameReaders, HasWay, HaveWays, ways_of};

use std::alloc::Global;
use vt_outside::NoMemory;
use vt_pass_rows::{PageTable, PassSampler, Schedule};

// Deals a way to one sampler, and makes room for its rows.
fn deal_sampler<T: PageTable, S: Schedule>(
    alloc: Global,
    rows: &S::Shared,
    home: &mut S::Home,
    count: u32,
    height: u32,
    sampler: &mut PassSampler<T, S>,
) -> Result<(), NoMemory>
    requires rows { S.is_home rows.now home.old }
    requires inside { sampler.old.number < count }
    requires none { sampler.old.kept.elements ≡ [] }
    ensures rows { OnOk result (S.is_home rows.now home.new) }
    ensures same { OnOk result (IsSameSampler sampler.old sampler.new) }
    ensures reader { OnOk result (sampler.new.reader ≡ sampler.old.reader) }
    ensures way { OnOk result ((line : ℕ) (owns : List S.Own) → S.has_dealt rows.now height line count owns home.old
        → length owns ≡ sampler.old.number → HasWay S.Schedule rows.now height line sampler.new) }
    ensures dealt { OnOk result ((line : ℕ) (owns : List S.Own) → S.has_dealt rows.now height line count owns home.old
        → length owns ≡ sampler.old.number → S.has_dealt rows.now height line count (owns ++ sampler.new.own ∷ []) home.new) }
{
    sampler.own = S::deal(alloc, rows, home, count, sampler.number)?;
    sampler.kept.reserve(u64::from(height))?;
    Ok(())
}

/// Deals ways to the rows of a picture of so many to samplers, and makes room for their rows. It waits for nobody.
pub(crate) fn deal_samplers<T: PageTable, S: Schedule>(
    alloc: Global,
    rows: &S::Shared,
    home: &mut S::Home,
    count: u32,
    height: u32,
    samplers: &mut [PassSampler<T, S>],
) -> Result<(), NoMemory>
    requires rows { S.is_home rows.now home.old }
    requires numbers { (k : ℕ) (a : Sampler T S T.Shared T.Reader T.Writer S.Shared S.Own S.Home) → slice_get samplers.old k ≡ Some a
        → a.number ≡ k }
    requires inside { length samplers.old ≡ count }
    requires none { (k : ℕ) (a : Sampler T S T.Shared T.Reader T.Writer S.Shared S.Own S.Home) → slice_get samplers.old k ≡ Some a
        → a.kept.elements ≡ [] }
    ensures rows { OnOk result (S.is_home rows.now home.new) }
    ensures same { OnOk result (AreSameSamplers samplers.old samplers.new) }
    ensures readers { OnOk result (HaveSameReaders samplers.old samplers.new) }
    ensures ways { OnOk result ((line : ℕ) → S.has_dealt rows.now height line count [] home.old
        → HaveWays S.Schedule rows.now height line samplers.new) }
    ensures dealt { OnOk result ((line : ℕ) → S.has_dealt rows.now height line count [] home.old
        → S.has_dealt rows.now height line count (ways_of samplers.new) home.new) }
{
    for i in 0..samplers.len() {
        deal_sampler::<T, S>(alloc, rows, home, count, height, &mut samplers[i])?;
    }
    Ok(())
}
