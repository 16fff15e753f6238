//! The look-up over a page table that changes only between draws.

ghost use Rattle.std.specs.Prelude.{◌≡◌, ◌*◌, ◌<◌, Some, None, length, IfSome, IfNone};
ghost use Rattle.vt_pages.specs.Pages.{pages_of, index_of, IsPage};
ghost use Rattle.vt_table.specs.Changes.{newest};
ghost use Rattle.vt_lookup.specs.Lookups.{IsFinestFound};
ghost use Rattle.vt_table.specs.Views.{TableView, IsMappedTo, word_in};
ghost use Rattle.vt_sampler.specs.Notes.{IsTrueOf, TableMapsRoot};

use std::marker::Model;
use vt_definitions::word_in;
use vt_lookup::{Found, Lookup, place_of};
use vt_pages::{Geometry, PageName};
use vt_table::StillTable;

/// A look-up of pages in a page table at its newest version, which maps the root (van Waveren 2012). Contracts see the
/// table. It says what is true of the table, and nothing else.
#[derive(Drop)]
pub struct StillLookup<'a> {
    table: &'a StillTable,
    geometry: &'a Geometry,
    // The frame that was found last, its tile, and how many bytes a sample of it has.
    slot: u32,
    tile: Option<&'a [u8]>,
    depth: u32,
}

impl<'a> Model for StillLookup<'a> {
    ghost use Rattle.std.specs.Prelude.{◌≡◌, IfSome};
    ghost use Rattle.vt_table.specs.Views.{TableView};
    ghost use Rattle.vt_sampler.specs.Notes.{TableMapsRoot, IsFound};

    ghost Value = { TableView };

    ghost view = { λ l. l.table.now };

    ghost invariant = { λ l. (l.table.now.shape ≡ l.geometry.now) × TableMapsRoot l.table.now
        × IfSome l.tile (λ tile. IsFound l.table.now l.slot l.depth tile.now) };
}

impl<'a> StillLookup<'a> {
    // The word at a place of the tile of a frame that a page is mapped to, which is mostly the frame that was found last.
    #[inline(always)]
    #[tactic(auto, using(crate::proofs::Truths::found_word))]
    fn word(&self, frame: u32, place: u32) -> u64
        requires mapped { IsMappedTo (newest self.now.changes) frame }
        requires inside { place < self.now.shape.tile * self.now.shape.tile }
        ensures { result ≡ word_in self.now frame place }
    {
        if frame != self.slot {
            return self.table.word(frame, place);
        }
        match self.tile {
            Some(tile) => word_in(tile, self.depth, place as usize),
            None => self.table.word(frame, place),
        }
    }

    /// The look-up over a table, which maps the root, and the geometry of its pages. It takes no memory.
    #[inline]
    pub fn new(table: &'a StillTable, geometry: &'a Geometry) -> StillLookup<'a>
        requires shape { table.now.shape ≡ geometry.now }
        requires root { TableMapsRoot table.now }
        ensures { result ≡ table.now }
    {
        StillLookup {
            table,
            geometry,
            slot: 0,
            tile: None,
            depth: 1,
        }
    }
}

// The page with a name and its frame, if a table maps it.
#[inline]
fn found_at(table: &StillTable, geometry: &Geometry, name: &PageName) -> Option<Found>
    requires shape { table.now.shape ≡ geometry.now }
    requires name { IsPage geometry.now name.now }
    ensures none { IfNone result (newest table.now.changes (index_of geometry.now name.now) ≡ None) }
    ensures page { IfSome result (λ found. found.page ≡ index_of geometry.now name.now) }
    ensures level { IfSome result (λ found. found.level ≡ name.now.level) }
    ensures mapped { IfSome result (λ found. newest table.now.changes found.page ≡ Some found.slot) }
{
    let page = geometry.index_of(name);
    let slot = table.frame_of(page)?;
    Some(Found {
        page,
        level: name.level,
        slot,
    })
}

// The finest page that a table maps of a page and its ancestors. It is called once for a run of pixels, and keeps out of their loop.
#[inline(never)]
fn finest_mapped(table: &StillTable, geometry: &Geometry, page: u32) -> Found
    requires shape { table.now.shape ≡ geometry.now }
    requires root { TableMapsRoot table.now }
    requires page { page < pages_of geometry.now }
    ensures { IsFinestFound geometry.now (length table.now.changes) (IsTrueOf table.now) page result }
{
    let name = geometry.page_at(page);
    let mut col = name.col;
    let mut row = name.row;
    for level in name.level..geometry.levels() {
        let ancestor = PageName { level, col, row };
        if let Some(found) = found_at(table, geometry, &ancestor) {
            return found;
        }
        col /= 2;
        row /= 2;
    }
    unreachable!()
}

impl Lookup for StillLookup<'_> {
    ghost shape = { λ v. v.shape };

    ghost version = { λ v. length v.changes };

    ghost says = { IsTrueOf };

    ghost kept = { λ _. tt };

    #[inline]
    fn find(&mut self, page: u32) -> Found {
        let found = finest_mapped(self.table, self.geometry, page);
        let (tile, depth) = self.table.tile(found.slot);
        self.slot = found.slot;
        self.tile = Some(tile);
        self.depth = depth;
        found
    }

    #[inline(always)]
    fn texel(&mut self, found: &Found, x: u32, y: u32) -> u64 {
        self.word(found.slot, place_of(self.geometry, x, y))
    }
}
