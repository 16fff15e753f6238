ghost use Rattle.std.specs.Prelude.{◌≡◌, ℕ, List};
ghost use Rattle.vt_pages.specs.Shape.{Shape};
ghost use Rattle.vt_feedback.specs.declared.Wanted.{Wanted};
ghost use Rattle.vt_feedback.specs.Wants.{IsWants};

/// For the numbers of pixels that want each page there is one wanted list.
pub fn wants_are_one()
    ensures { (s : Shape) (pixels : ℕ → ℕ) (a b : List Wanted) → IsWants s pixels a → IsWants s pixels b → a ≡ b }
{}
