//! What a picture is drawn from: a look-up of pages.

ghost use Rattle.std.specs.Prelude.{◌≡◌, ℕ, ◌+◌, ◌*◌, ◌<◌};
ghost use Rattle.vt_pages.specs.Shape.{Shape};
ghost use Rattle.vt_pages.specs.Pages.{level_of, pages_of, texel_page};
ghost use Rattle.vt_pages.specs.Laws.{IsInside};
ghost use Rattle.vt_draw.specs.Lookups.{Note, EntryNote, WordNote, IsFinestFound, place_in_tile};

use vt_pages::Geometry;

/// What a look-up found for a page: a page of its line, and where its texels are.
#[derive(Clone, Copy, Debug, PartialEq, Eq)]
pub struct Found {
    /// The index of the page that was found: the page looked up, or one of its ancestors.
    pub page: u32,
    /// The level of that page.
    pub level: u32,
    /// The frame that holds that page.
    pub slot: u32,
}

/// A look-up of pages, at one version of a table that maps pages to frames: an absent page is served by the finest mapped
/// page above it (van Waveren 2012).
pub trait Lookup {
    /// The shape of the geometry whose pages it looks up. No call changes it.
    ghost shape: { Self → Shape };

    /// The version that it looks at. No call changes it.
    ghost version: { Self → ℕ };

    /// Whether it stands for a note. What it says once it says after each later call.
    ghost says: { Self → Note → Type 0 };

    /// What else the look-up rests on, as the table that it reads.
    ghost Kept: { Type 0 } = { Unit {0} };

    /// What this look-up rests on. No call changes it.
    ghost kept: { Self → Self.Kept };

    /// Answers the finest mapped page among a page and its ancestors; `page` is below the page count.
    fn find(&mut self, page: u32) -> Found
        requires { page < pages_of (shape self.old) }
        ensures finest { IsFinestFound (shape self.new) (version self.new) (says self.new) page result }
        ensures said { (note : Note) → says self.old note → says self.new note }
        ensures version { version self.new ≡ version self.old }
        ensures shape { shape self.new ≡ shape self.old }
        ensures kept { Self.kept self.new ≡ Self.kept self.old };

    /// Answers the word of the texel in column `x` and row `y` of the found page's level, where the page was found by this
    /// look-up at this version and the texel lies in it.
    fn texel(&mut self, found: &Found, x: u32, y: u32) -> u64
        requires mapped { says self.old (EntryNote (version self.old) found.now.page (found.now.slot + 1)) }
        requires level { found.now.level ≡ level_of (shape self.old) found.now.page }
        requires inside { IsInside (shape self.old) found.now.level x y }
        requires page { texel_page (shape self.old) found.now.level x y ≡ found.now.page }
        ensures read { says self.new (WordNote (version self.new) found.now.slot (place_in_tile (shape self.new) x y) result) }
        ensures said { (note : Note) → says self.old note → says self.new note }
        ensures version { version self.new ≡ version self.old }
        ensures shape { shape self.new ≡ shape self.old }
        ensures kept { Self.kept self.new ≡ Self.kept self.old };
}

/// The place of the texel in column `x` and row `y` of a level in the tile of its page, which goes row by row.
#[inline]
pub fn place_of(geometry: &Geometry, x: u32, y: u32) -> u32
    ensures place { result ≡ place_in_tile geometry.now x y }
    ensures inside { result < geometry.now.tile * geometry.now.tile }
{
    let side = geometry.tile();
    let mask = side - 1;
    (y & mask) * side + (x & mask)
}
