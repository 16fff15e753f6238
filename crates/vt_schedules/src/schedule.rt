//! Which sampler draws which row.

ghost use Rattle.std.specs.Prelude.{◌≡◌, ℕ, ◌<◌, ◌≤◌, ◌^◌, Bool, List, [], ◌∷◌, ◌++◌, length, IfOk, IfSome, IfNone, OnOk};
ghost use Rattle.vt_schedules.specs.SharedRows.{FitsRow};
ghost use Rattle.vt_schedules.specs.Rows.{AreTaken, AreAllRows, AreRowsInPlace};

use crate::bag::RowJob;
use std::alloc::Global;
use std::sync::Wait;
use vt_outside::NoMemory;

/// How the samplers of a pass come by the rows of its picture: each takes the next one by a way of its own. `height` is the number of rows,
/// `line` the number of bytes of a row.
pub trait Schedule {
    /// Whether row y is always drawn by sampler y modulo their number.
    const DEALT: bool;

    /// The same, in clauses.
    ghost DEALT: { Bool };

    /// What the samplers share of the rows.
    type Shared: Drop;

    /// A sampler's way to rows.
    type Own: Drop;

    /// What is left at home while the samplers draw.
    type Home: Drop;

    /// A way is one of these shared rows, of a picture of so many, of so many bytes each.
    ghost is_of: { Self.Shared → ℕ → ℕ → Self.Own → Type 0 };

    /// What is at home is that of what is shared.
    ghost is_home: { Self.Shared → Self.Home → Type 0 };

    /// Between these two states of a way these rows were taken, in this order.
    ghost took: { ℕ → ℕ → Self.Own → Self.Own → List ℕ → Type 0 };

    /// They were, and nothing is left to take.
    ghost ended: { ℕ → ℕ → Self.Own → Self.Own → List ℕ → Type 0 };

    /// These ways to the rows of such a picture were dealt to the first of so many samplers.
    ghost has_dealt: { Self.Shared → ℕ → ℕ → ℕ → List Self.Own → Self.Home → Type 0 };

    /// The first of these ways, as they are now, were taken back.
    ghost has_gathered: { Self.Shared → ℕ → ℕ → ℕ → List Self.Own → List Self.Own → Self.Home → Type 0 };

    /// What is shared, and what is at home, between passes.
    fn make(alloc: Global) -> Result<(Self::Shared, Self::Home), NoMemory>
        ensures { IfOk result (λ made. is_home made.0 made.1) };

    /// What a sampler has between passes.
    fn no_way(alloc: Global) -> Self::Own;

    /// Begins the dealing of the rows of a picture: takes the rows out of their places, with their buffers. It has the bound `Wait` to put
    /// rows, into a bag that is new and that nobody else has. After a refusal the rows may be gone, and the pass can only be given up.
    fn begin<R: Wait>(
        rt: &R,
        alloc: Global,
        shared: &mut Self::Shared,
        home: &mut Self::Home,
        jobs: &mut [RowJob],
    ) -> Result<(), NoMemory>
        requires few { length jobs.old < 2 ^ 32 }
        ensures number { length jobs.new ≡ length jobs.old }
        ensures home { OnOk result (is_home shared.new home.new) }
        ensures dealt { OnOk result ((height line samplers : ℕ) → 1 ≤ samplers → AreRowsInPlace height line jobs.old
            → has_dealt shared.new height line samplers [] home.new) };

    /// The way of the next sampler.
    fn deal(
        alloc: Global,
        shared: &Self::Shared,
        home: &mut Self::Home,
        samplers: u32,
        number: u32,
    ) -> Result<Self::Own, NoMemory>
        requires home { is_home shared.now home.old }
        requires inside { number < samplers }
        ensures home { is_home shared.now home.new }
        ensures of { IfOk result (λ own. (height line : ℕ) (owns : List Self.Own)
            → has_dealt shared.now height line samplers owns home.old → length owns ≡ number → is_of shared.now height line own) }
        ensures dealt { IfOk result (λ own. (height line : ℕ) (owns : List Self.Own)
            → has_dealt shared.now height line samplers owns home.old → length owns ≡ number
            → has_dealt shared.now height line samplers (owns ++ own ∷ []) home.new) };

    /// The next row. `None` where nothing is left, or what was taken is no row of the picture. It may wait.
    fn next<R: Wait>(
        rt: &R,
        shared: &Self::Shared,
        own: &mut Self::Own,
        height: u32,
        line: usize,
    ) -> Option<RowJob>
        requires of { is_of shared.now height line own.old }
        ensures of { is_of shared.now height line own.new }
        ensures fits { IfSome result (FitsRow height line) }
        ensures some { IfSome result (λ job. (first : Self.Own) (rows : List ℕ) → took height line first own.old rows
            → took height line first own.new (rows ++ job.row ∷ [])) }
        ensures none { IfNone result ((first : Self.Own) (rows : List ℕ) → took height line first own.old rows
            → took height line first own.new rows × ended height line first own.new rows) };

    /// Takes a sampler's way back.
    fn gather(shared: &Self::Shared, home: &mut Self::Home, own: &mut Self::Own)
        requires home { is_home shared.now home.old }
        requires of { (height : ℕ) × (line : ℕ) × is_of shared.now height line own.old }
        ensures home { is_home shared.now home.new }
        ensures gathered { (height line samplers : ℕ) (firsts owns : List Self.Own)
            → has_gathered shared.now height line samplers firsts owns home.old
            → has_gathered shared.now height line samplers firsts (owns ++ own.old ∷ []) home.new };

    /// Once all are back, each row was taken once. It may wait.
    fn finish<R: Wait>(rt: &R, shared: &Self::Shared, home: &mut Self::Home)
        requires { is_home shared.now home.old }
        ensures { (height line samplers : ℕ) (firsts owns : List Self.Own) (rows : List (List ℕ))
            → has_gathered shared.now height line samplers firsts owns home.old
            → AreTaken (took height line) samplers firsts owns rows
            → AreTaken (ended height line) samplers firsts owns rows
            → AreAllRows DEALT height samplers rows };

    /// Before the first is back.
    ghost none_gathered: { (shared : Self.Shared) (height line samplers : ℕ) (firsts : List Self.Own) (home : Self.Home)
        → has_dealt shared height line samplers firsts home → has_gathered shared height line samplers firsts [] home };

    /// A way that is not used.
    ghost took_none: { (shared : Self.Shared) (height line : ℕ) (own : Self.Own) → is_of shared height line own → took height line own own [] };

    /// No more rows can be taken than there are.
    ghost all_taken: { (height line : ℕ) (first own : Self.Own) (rows : List ℕ) → took height line first own rows → height ≤ length rows
        → ended height line first own rows };
}
