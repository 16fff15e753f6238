//! How pixels are made of texels, as who draws sees it.

ghost use Rattle.std.specs.Prelude.{◌≡◌, ℕ, ◌+◌, ◌*◌, ◌<◌, ◌^◌, List, length, slice_index};
ghost use Rattle.vt_pages.specs.Depths.{IsDepth, texel_length};
ghost use Rattle.vt_draw.specs.Texels.{Source};
ghost use Rattle.vt_journal.specs.Shape.{Shape};
ghost use Rattle.vt_journal.specs.Pages.{pages_of};
ghost use Rattle.vt_draw.specs.Rows.{RowView};
ghost use Rattle.vt_draw.specs.Lookups.{Note};
ghost use Rattle.vt_draw.specs.Shots.{shot_row};
ghost use Rattle.vt_journal.specs.Changes.{Table};
ghost use Rattle.vt_pictures.specs.Scenes.{Scene};
ghost use Rattle.vt_pictures.specs.Evidence.{AreShown, AreRaised};
ghost use Rattle.vt_pictures.specs.FilterLaws.{IsUnder, IsPlain, WantsFew};

use vt_draw::{Lookup, Shot};

/// How the pixels of a picture are made of texels: each of one or of several, of the row's own level, where each texel is
/// served by the finest mapped page that covers its place (van Waveren 2012).
pub trait Filter {
    /// How many texels the first n pixels of a row want of page p, at the row's own level: `wants s row n p`.
    ghost wants: { Shape → RowView → ℕ → ℕ → ℕ };

    /// By these notes of a version, pixel x of a row has these bytes, three samples of a depth: `shown s depth version notes
    /// row x bytes`.
    ghost shown: { Shape → ℕ → ℕ → List Note → RowView → ℕ → List ℕ → Type 0 };

    /// The bytes of pixel (x, y) of picture i of a scene under a page table, of a source of texels: `under source scene table i x y`.
    ghost under: { Source → Scene → Table → ℕ → ℕ → ℕ → List ℕ };

    /// The bytes of pixel (x, y) of picture i of a scene without a page table, of a source of texels: `plain source scene i x y`.
    ghost plain: { Source → Scene → ℕ → ℕ → ℕ → List ℕ };

    /// Draws row `y` of a picture: writes the bytes of its pixels to `out`, three samples a pixel, the most significant byte of
    /// a sample first, and adds the texels that they want to the counts of these texels' pages.
    ///
    /// `y` is below the picture's height, the shot's depth is 1 or 2, `out` has three samples of so many bytes for each column,
    /// and `counts` has a number for each page, each of which can rise by four times the picture's width. It takes no memory
    /// and refuses nothing.
    fn draw_row<K: Lookup>(lookup: &mut K, shot: &Shot, y: u32, out: &mut [u8], counts: &mut [u32])
        requires depth { IsDepth shot.now.depth }
        requires picture { shot.now.picture < length shot.now.path.now.cameras }
        requires within { y < shot.now.path.now.height }
        requires bytes { length out.old ≡ texel_length shot.now.depth * shot.now.path.now.width }
        requires pages { length counts.old ≡ pages_of shot.now.geometry.now }
        requires room { (p : ℕ) → p < length counts.old → slice_index counts.old p + 4 * shot.now.path.now.width < 2 ^ 32 }
        requires shape { K.shape lookup.old ≡ shot.now.geometry.now }
        ensures drawn { let row = shot_row shot.now.geometry.now shot.now.path.now shot.now.picture y in
            AreShown shown shot.now.geometry.now shot.now.depth (K.version lookup.new) (K.says lookup.new) row
            shot.now.path.now.width out.new }
        ensures counted { let row = shot_row shot.now.geometry.now shot.now.path.now shot.now.picture y in
            AreRaised wants shot.now.geometry.now row shot.now.path.now.width counts.old counts.new }
        ensures said { (note : Note) → K.says lookup.old note → K.says lookup.new note }
        ensures version { K.version lookup.new ≡ K.version lookup.old }
        ensures shape { K.shape lookup.new ≡ K.shape lookup.old }
        ensures kept { K.kept lookup.new ≡ K.kept lookup.old };

    /// By notes that are true of a table over a source, a pixel is that of the table.
    ghost is_under: { IsUnder shown under };

    /// Where a table maps the root and each page that the picture wants, a pixel under it is that without one.
    ghost is_plain: { IsPlain wants under plain };

    /// So many pixels want at most four texels each.
    ghost wants_few: { WantsFew wants };
}
