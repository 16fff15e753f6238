//! The readers of samplers are opened for a pass.

ghost use Rattle.std.specs.Prelude.{◌≡◌, ℕ, Some, length, slice_get, IsSome};
ghost use Rattle.vt_journal.specs.Pages.{root_of};
ghost use Rattle.vt_journal.specs.Changes.{newest};
ghost use Rattle.vt_pass_rows.specs.declared.sampler.PassSampler.{PassSampler as Sampler};
ghost use Rattle.vt_pass_pool.specs.Pools.{IsOpenedSampler, AreOpened, AreAtHome};
ghost use Rattle.vt_pass_pool.specs.Stills.{IsStill};

use vt_pass_rows::{PageTable, PassSampler, Schedule};

// Opens the reader of one sampler.
fn open_sampler<T: PageTable, S: Schedule>(
    table: &T::Shared,
    writer: &mut T::Writer,
    sampler: &mut PassSampler<T, S>,
)
    requires of { T.is_of table.now writer.old }
    requires home { T.is_home writer.old sampler.old.number sampler.old.reader }
    requires root { IsSome (newest (T.journal writer.old) (root_of (T.shape writer.old))) }
    ensures still { IsStill T.PageTable table.now writer.old writer.new }
    ensures room { (n : ℕ) → T.has_room writer.old n → T.has_room writer.new n }
    ensures others { (k : ℕ) (r : T.Reader) → (k ≡ sampler.old.number → ⊥) → T.is_home writer.old k r → T.is_home writer.new k r }
    ensures opened { IsOpenedSampler T.PageTable table.now (T.shape writer.old) (length (T.journal writer.old)) sampler.old.number
        sampler.old sampler.new }
{
    T::open(table, writer, sampler.number, &mut sampler.reader);
}

/// Opens the readers of samplers for a pass that starts at the newest version. It takes no memory and waits for nobody.
pub(crate) fn open_samplers<T: PageTable, S: Schedule>(
    table: &T::Shared,
    writer: &mut T::Writer,
    samplers: &mut [PassSampler<T, S>],
)
    requires of { T.is_of table.now writer.old }
    requires home { AreAtHome T.PageTable writer.old samplers.old }
    requires root { IsSome (newest (T.journal writer.old) (root_of (T.shape writer.old))) }
    requires numbers { (k : ℕ) (a : Sampler T S T.Shared T.Reader T.Writer S.Shared S.Own S.Home) → slice_get samplers.old k ≡ Some a
        → a.number ≡ k }
    ensures still { IsStill T.PageTable table.now writer.old writer.new }
    ensures room { (n : ℕ) → T.has_room writer.old n → T.has_room writer.new n }
    ensures opened { AreOpened T.PageTable table.now (T.shape writer.old) (length (T.journal writer.old)) samplers.old samplers.new }
{
    for i in 0..samplers.len() {
        open_sampler::<T, S>(table, writer, &mut samplers[i]);
    }
}
