//! A law of plans: the contract of a function that does nothing.

ghost use Rattle.std.specs.Prelude.{ℕ, ◌<◌, ◌≤◌, List, length};
ghost use Rattle.std.specs.List.{All};
ghost use Rattle.vt_plan.specs.Pages.{pages_of};
ghost use Rattle.vt_plan.specs.FeedbackTypes.Wanted.{Wanted};
ghost use Rattle.vt_plan.specs.Views.{RecencyView, IsRecencyTable};
ghost use Rattle.vt_evict.specs.Batches.{IsLawfulBatch};
ghost use Rattle.vt_plan.specs.Plans.{plan_of};

/// The plan for a wanted list of the chain's pages is lawful for its table, and has at most `q` entries.
pub fn plan_is_lawful()
    ensures lawful { (v : RecencyView) (wants : List Wanted) (q : ℕ) → IsRecencyTable v → All (λ w. w.page < pages_of v.shape) wants
        → IsLawfulBatch v (plan_of v wants q) }
    ensures most { (v : RecencyView) (wants : List Wanted) (q : ℕ) → length (plan_of v wants q) ≤ q }
{}
