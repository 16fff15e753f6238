//! A law of the rows of a bag: the contract of a function that does nothing.

ghost use Rattle.std.specs.Prelude.{◌≡◌, ℕ, ◌<◌, List, [], All, AllPairs, Contains, IsPermutation};
ghost use Rattle.std.specs.List.{range_with_len};
ghost use Rattle.vt_queue.specs.declared.views.PassView.{PassView};
ghost use Rattle.vt_queue.specs.PassViews.{all_shares};
ghost use Rattle.vt_queue.specs.Orders.{items_of};
ghost use Rattle.vt_queue.specs.Steps.{IsAtStep};
ghost use Rattle.vt_schedules.specs.declared.bag.RowJob.{RowJob as Job};
ghost use Rattle.vt_schedules.specs.SharedRows.{AreRowsPut, Rise, rows_of};

/// All rows of a picture were put in order, and none is left: then those that were taken are each row once, whichever passes took them, and
/// the rows of entries that one pass took rise.
pub fn each_row_is_taken_once()
    ensures once { (height line : ℕ) (v : PassView Job) → v.shares ≡ all_shares → IsAtStep v [] → AreRowsPut height line v.put
        → IsPermutation (range_with_len 0 height) (rows_of (items_of v.took)) }
    ensures rise { (height line : ℕ) (v : PassView Job) (got : List (ℕ × Job)) → v.shares ≡ all_shares → IsAtStep v []
        → AreRowsPut height line v.put → All (Contains v.took) got → Rise got
        → AllPairs (λ a b. a.1.row < b.1.row) got }
{}
