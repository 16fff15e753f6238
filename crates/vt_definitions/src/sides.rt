ghost use Rattle.std.specs.Prelude.{◌≡◌, ℕ, ◌≤◌};
ghost use Rattle.vt_definitions.specs.Sides.{side, level_count, IsLevelCount};

/// The number of levels is the least that ends with both sides at most the tile side.
pub fn level_count_is_least()
    ensures { (w h t : ℕ) → 1 ≤ t → IsLevelCount w h t (level_count w h t) }
{}

/// There is only one such number.
pub fn level_count_is_one()
    ensures { (w h t m n : ℕ) → IsLevelCount w h t m → IsLevelCount w h t n → m ≡ n }
{}

/// No level is empty.
pub fn side_is_positive()
    ensures { (w k : ℕ) → 1 ≤ w → 1 ≤ side w k }
{}
