//! What the results of a batch are applied to.

ghost use Rattle.std.specs.Prelude.{◌≡◌, ℕ, ◌+◌, ◌≤◌, Bool, false, true, List, ◌++◌, length};
ghost use Rattle.vt_journal.specs.Shape.{Shape};
ghost use Rattle.vt_journal.specs.declared.changes.Change.{Change};
ghost use Rattle.vt_journal.specs.Changes.{newest};
ghost use Rattle.vt_journal.specs.JournalText.{changes_of};
ghost use Rattle.vt_requests.specs.PlanTypes.batches.Planned.{Planned as Entry};
ghost use Rattle.vt_requests.specs.Outcomes.{IsEntryFor, group_of};

use std::sync::Wait;
use vt_outside::Gate;
use vt_requests::Planned;

/// What the results of a batch are applied to, entry by entry: words, or any page table.
pub trait Target {
    /// The right to change it.
    type Writer;

    /// It is what this writer changes.
    ghost is_of: { Self → Self.Writer → Type 0 };

    /// How the texture of a writer is cut into pages.
    ghost shape: { Self.Writer → Shape };

    /// How many frames it has.
    ghost frame_count: { Self.Writer → ℕ };

    /// Its journal.
    ghost journal: { Self.Writer → List Change };

    /// It may make so many more changes.
    ghost has_room: { Self.Writer → ℕ → Type 0 };

    /// It takes tiles of so many bytes, where the texture is cut in this way.
    ghost is_tile: { Self → Shape → ℕ → Bool };

    /// An entry was put with a tile: it was the first writer before, and is the second after.
    ghost has_put: { Self → Entry → List ℕ → Self.Writer → Self.Writer → Type 0 };

    /// What lasts from the first writer to the second, whatever was refused.
    ghost lasts: { Self.Writer → Self.Writer → Type 0 };

    /// What is so where memory is refused.
    ghost refuses: { Type 0 };

    /// Whether it takes tiles of so many bytes.
    fn takes(&self, writer: &Self::Writer, length: usize) -> bool
        requires { is_of self.now writer.now }
        ensures { result ≡ is_tile self.now (shape writer.now) length };

    /// Puts the page of an entry in the place of its victim, if it has one, with the tile that was read, and tells whether it did: else memory
    /// was refused. Room for two changes was reserved. It may wait. The gate is told of each version.
    fn put<R: Wait, G: Gate>(
        &self,
        rt: &R,
        writer: &mut Self::Writer,
        planned: &Planned,
        tile: &[u8],
        gate: &G,
    ) -> bool
        requires of { is_of self.now writer.old }
        requires entry { IsEntryFor (shape writer.old) (frame_count writer.old) (newest (journal writer.old)) planned.now }
        requires room { has_room writer.old 2 }
        requires tile { is_tile self.now (shape writer.old) (length tile.now) ≡ true }
        ensures of { is_of self.now writer.new }
        ensures shape { shape writer.new ≡ shape writer.old }
        ensures frames { frame_count writer.new ≡ frame_count writer.old }
        ensures lasts { lasts writer.old writer.new }
        ensures journal { result ≡ true → journal writer.new ≡ journal writer.old ++ changes_of (group_of planned.now false) }
        ensures room { result ≡ true → (n : ℕ) → has_room writer.old (n + 2) → has_room writer.new n }
        ensures put { result ≡ true → has_put self.now planned.now tile.now writer.old writer.new }
        ensures refused { result ≡ false → refuses };

    /// Where it may make many more changes, it may make fewer.
    ghost room_less: { (w : Self.Writer) (m n : ℕ) → n ≤ m → has_room w m → has_room w n };

    /// A writer that did nothing.
    ghost lasts_none: { (w : Self.Writer) → lasts w w };

    /// What lasts from one to the next and on to a third.
    ghost lasts_twice: { (u v w : Self.Writer) → lasts u v → lasts v w → lasts u w };
}
