//! Laws of the definitions: each is the contract of a function that does nothing.

ghost use Rattle.std.specs.Prelude.{◌≡◌, ℕ, ◌^◌, ◌<◌, ◌≤◌, sum_by};
ghost use Rattle.std.specs.List.{range_with_len};
ghost use Rattle.vt_pages.specs.Shape.{Shape};
ghost use Rattle.vt_lookup.specs.Paths.{PathView, ArePictureSides};
ghost use Rattle.vt_sampler.specs.Samplers.{own_rows};
ghost use Rattle.vt_lookup.specs.Shots.{wants_in_rows};

use vt_lookup::Filter;

/// What the samplers of a picture count together is what all its rows want.
pub fn samplers_share_the_rows<P: Filter>()
    ensures { (s : Shape) (path : PathView) (picture samplers height p : ℕ) → 1 ≤ samplers
        → sum_by (λ k. wants_in_rows P.wants s path picture (own_rows k samplers height) p) (range_with_len 0 samplers)
        ≡ wants_in_rows P.wants s path picture (range_with_len 0 height) p }
{}

/// What the samplers of a picture count together for a page stays below 2^32, for a picture wants no more texels.
pub fn samplers_count_few<P: Filter>()
    ensures { (s : Shape) (path : PathView) (picture samplers p : ℕ) → 1 ≤ samplers
        → ArePictureSides path.width path.height
        → sum_by (λ k. wants_in_rows P.wants s path picture (own_rows k samplers path.height) p) (range_with_len 0 samplers)
        < 2 ^ 32 }
{}
