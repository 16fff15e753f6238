//! Laws of the stamps: the order that is kept is that of the stamps. Each is the contract of a function that does nothing.

ghost use Rattle.std.specs.Prelude.{◌≡◌, ℕ, ◌+◌, ◌<◌, ◌&&◌, not, List, IsSome};
ghost use Rattle.std.specs.List.{All, AllPairs, list_any};
ghost use Rattle.vt_plan.specs.Shape.{Shape};
ghost use Rattle.vt_plan.specs.Pages.{pages_of, ancestors_of};
ghost use Rattle.vt_plan.specs.FeedbackTypes.Wanted.{Wanted};
ghost use Rattle.vt_plan.specs.PageLists.{is_in};
ghost use Rattle.vt_plan.specs.Views.{RecencyView, IsRecencyTable, is_loose, touched, first_view};
ghost use Rattle.vt_evict.specs.Batches.{IsLawfulBatch, IsSettledByReads, read_entries};
ghost use Rattle.vt_plan.specs.Plans.{candidates};
ghost use Rattle.vt_evict.specs.Stamps.{Stamps, no_stamps, StampedPass, AreAfter, AreBefore, IsAbove, IsByStamps};

/// At first no page has a stamp, and the order is empty.
pub fn no_stamps_at_first()
    ensures none { (n : ℕ) → AreBefore no_stamps n }
    ensures first { (s : Shape) (frames pinned : ℕ) (stamps : Stamps) → IsByStamps stamps (first_view s frames pinned).order }
{}

/// After each pass each page has one stamp or none.
pub fn pass_gives_one_stamp_a_page()
    ensures some { (old : Stamps) (x : StampedPass) → (new : Stamps) × AreAfter old x new }
    ensures one { (old a b : Stamps) (x : StampedPass) → AreAfter old x a → AreAfter old x b → a ≡ b }
{}

/// The kept order is that of the stamps. Let the order of a table go by falling stamps, all of passes before one. Once
/// the entries of that pass's batch that were read are settled, and its wanted list touched, the order goes by the falling
/// stamps after the pass, and these are of no later pass.
pub fn order_is_by_stamps()
    ensures order { (v : RecencyView) (old new : Stamps) (x : StampedPass) → IsRecencyTable v → IsByStamps old v.order → AreBefore old x.number
        → IsLawfulBatch v x.batch → IsSettledByReads v (read_entries x.batch x.lost) x.after
        → All (λ w. w.page < pages_of v.shape) x.wants → AreAfter old x new → IsByStamps new (touched x.after x.wants).order }
    ensures before { (old new : Stamps) (x : StampedPass) → AreBefore old x.number → AreAfter old x new → AreBefore new (x.number + 1) }
{}

/// Some pages have at most one order by falling stamps.
pub fn stamps_give_one_order()
    ensures { (stamps : Stamps) (xs ys : List ℕ) → IsByStamps stamps xs → IsByStamps stamps ys
        → ((p : ℕ) → is_in xs p ≡ is_in ys p) → xs ≡ ys }
{}

/// The candidates of a plan are the unpinned mapped pages that are in no line of a wanted page, by rising stamps.
pub fn candidates_rise_by_stamps()
    ensures exact { (v : RecencyView) (wants : List Wanted) (p : ℕ) → IsRecencyTable v → is_in (candidates v wants) p
        ≡ (is_loose v p && not (list_any (λ w. is_in (ancestors_of v.shape w.page) p) wants)) }
    ensures stamped { (v : RecencyView) (wants : List Wanted) (stamps : Stamps) → IsByStamps stamps v.order
        → All (λ p. IsSome (stamps p)) (candidates v wants) }
    ensures rising { (v : RecencyView) (wants : List Wanted) (stamps : Stamps) → IsByStamps stamps v.order
        → AllPairs (λ p q. IsAbove stamps q p) (candidates v wants) }
{}
