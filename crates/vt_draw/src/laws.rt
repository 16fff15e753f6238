//! Laws of the definitions: each is the contract of a function that does nothing.

ghost use Rattle.std.specs.Prelude.{◌≡◌, ℕ, ◌<◌, ◌≤◌};
ghost use Rattle.vt_pages.specs.Shape.{Shape};
ghost use Rattle.vt_pages.specs.Pages.{levels_of, ancestor_of, IsPageAt, IsWithinLimits};
ghost use Rattle.vt_camera.specs.Paths.{PathView};
ghost use Rattle.vt_camera.specs.Rows.{row_level, row_place};
ghost use Rattle.vt_draw.specs.Lookups.{covering_page};
ghost use Rattle.vt_draw.specs.Shots.{shot_row, wanted_page};

/// The page that a pixel wants is one of the chain's, of the row's own level.
pub fn wanted_page_in_chain()
    ensures { (s : Shape) (path : PathView) (picture y x : ℕ) → IsWithinLimits s
        → let row = shot_row s path picture y in IsPageAt s (row_level row) (wanted_page s row x) }
{}

/// Each page of the line of the page that a pixel wants covers the pixel's place: at its own level it is the page of the
/// texel there (van Waveren 2012).
pub fn line_covers_pixel()
    ensures { (s : Shape) (path : PathView) (picture y x j : ℕ) → IsWithinLimits s
        → let row = shot_row s path picture y in row_level row ≤ j → j < levels_of s
        → ancestor_of s (wanted_page s row x) j ≡ covering_page s j (row_place row x).0 (row_place row x).1 }
{}
