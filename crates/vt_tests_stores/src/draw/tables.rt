//! A look-up over the chain of a texture of 4x4 texels whose texel (x, y) is 4y+x in each channel, in tiles of side 2.

ghost use Rattle.std.specs.Prelude.{◌≡◌, ◌+◌, ◌<◌, ◌≤◌, max};
ghost use Rattle.vt_pages.specs.Pages.{level_of, levels_of};

use vt_draw::{Found, Lookup};
use vt_pages::Geometry;

// The coarser of two levels.
fn coarser(level: u32, least: u32) -> u32
    ensures { result ≡ max level least }
{
    if level < least { least } else { level }
}

// It maps each page from a level on, and each to the frame of its own number.
#[derive(Drop)]
pub struct Table {
    geometry: Geometry,
    least: u32,
    wide: bool,
    ghost within: { least < levels_of geometry },
}

impl Table {
    /// A table that maps the pages of a geometry from a level on, of tiles of one byte a sample or two.
    pub fn new(geometry: Geometry, least: u32, wide: bool) -> Table
        requires { least < levels_of geometry }
        ensures { result.geometry ≡ geometry }
    {
        Table {
            geometry,
            least,
            wide,
        }
    }
}

impl Lookup for Table {
    ghost use Rattle.vt_draw.specs.Lookups.{EntryNote, WordNote};

    ghost shape = { λ t. t.geometry };

    ghost version = { λ _. 0 };

    ghost says = { λ t. elim [
      | EntryNote version page entry ↦ (level_of t.geometry page < t.least → entry ≡ 0) × (t.least ≤ level_of t.geometry page → entry ≡ page + 1)
      | WordNote version frame place word ↦ Unit {0}
    ] };

    ghost kept = { λ _. tt };

    fn find(&mut self, page: u32) -> Found {
        let level = coarser(self.geometry.page_at(page).level, self.least);
        let page = self.geometry.ancestor_at(page, level);
        Found {
            page,
            level,
            slot: page,
        }
    }

    fn texel(&mut self, found: &Found, x: u32, y: u32) -> u64 {
        let (x, y) = (u64::from(x), u64::from(y));
        let grey = if found.level == 0 {
            4 * y + x
        } else {
            3 + 8 * y + 2 * x
        };
        if self.wide {
            (0x8000 + grey % 256) * 0x0001_0001_0001
        } else {
            grey % 256 * 0x0001_0101
        }
    }
}
