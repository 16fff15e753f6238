//! Laws of the definitions: each is the contract of a function that does nothing.

ghost use Rattle.std.specs.Prelude.{ℕ, ◌-◌, ◌/◌, ◌^◌, ◌<◌, ◌≤◌};
ghost use Rattle.vt_text.specs.Sides.{side};
ghost use Rattle.vt_camera.specs.declared.paths.Camera.{Camera};
ghost use Rattle.vt_camera.specs.Rows.{span, camera_level, camera_place, IsLevelOfSpan};

/// A row's level is the greatest whose texels are no wider than what a pixel spans, or 0, and at most the last level.
pub fn level_is_greatest()
    ensures { (camera : Camera) (y levels : ℕ)
        → IsLevelOfSpan (span camera y) (levels - 1) (camera_level camera y levels) }
{}

/// A row's level is one of the chain's.
pub fn level_within_chain()
    ensures { (camera : Camera) (y levels : ℕ) → 1 ≤ levels → camera_level camera y levels < levels }
{}

/// What a pixel shows is a texel of the texture.
pub fn place_within_surface()
    ensures columns { (width focal : ℕ) (camera : Camera) (x y columns rows : ℕ) → 1 ≤ columns
        → (camera_place width focal camera x y columns rows).0 < columns }
    ensures rows { (width focal : ℕ) (camera : Camera) (x y columns rows : ℕ) → 1 ≤ rows
        → (camera_place width focal camera x y columns rows).1 < rows }
{}

/// A place of level 0, halved once a level, lies inside each level.
pub fn place_within_level()
    ensures { (width place k : ℕ) → place < width → place / 2 ^ k < side width k }
{}
