//! The look-up over a page table and a set of tiles.

ghost use Rattle.std.specs.Prelude.{◌≡◌, ℕ, ◌*◌, ◌<◌, false, length, IsSome};
ghost use Rattle.vt_definitions.specs.Depths.{IsDepth, word_at};
ghost use Rattle.vt_pages.specs.Pages.{pages_of, root_of};
ghost use Rattle.vt_journal.specs.Changes.{IsOneToOne};
ghost use Rattle.vt_journal.specs.Kept.{entries_of};
ghost use Rattle.vt_tiles.specs.Format.{tile_length};
ghost use Rattle.vt_replay_rows.specs.ReplayLookups.{ReplayLookupView, IsReplayLookup, IsTrueOfTiles, IsIn, Serves, bytes_row, replay_lookup_base};

use crate::noted::Noted;
use crate::table::PageTable;
use crate::tiles::{Tiles, entry_at};
use std::marker::Model;
use vt_definitions::word_in;
use vt_pages::Geometry;
use vt_pictures::{Found, Lookup, place_of};

/// A look-up of pages in a page table, which maps the root, over the loaded tiles. A page whose tile is not there is
/// noted, and what is told of its texels means nothing (van Waveren 2012). Contracts see what is looked at, and whether a tile was
/// missed.
#[derive(Drop)]
pub(crate) struct ReplayLookup<'a> {
    geometry: &'a Geometry,
    table: &'a PageTable,
    tiles: &'a Tiles,
    depth: u32,
    // The page that was found last, and its tile, if it was loaded.
    page: u32,
    tile: Option<&'a [u8]>,
    missed: bool,
    used: Noted,
    missing: Noted,
}

impl<'a> Model for ReplayLookup<'a> {
    ghost use Rattle.std.specs.Prelude.{IfSome};
    ghost use Rattle.vt_replay_rows.specs.ReplayLookups.{ReplayLookupView, IsReplayLookup, IsTileOf};

    ghost Value = { ReplayLookupView };

    ghost view = { λ l. record {
      shape = l.geometry.now;
      depth = l.depth;
      size = l.tiles.now.size;
      version = l.table.now.version;
      entries = l.table.now.entries.items;
      slots = l.tiles.now.slots.items;
      owners = l.tiles.now.owners.items;
      bytes = l.tiles.now.bytes.items;
      missed = l.missed;
    } };

    ghost invariant = { λ l. IsReplayLookup (record {
      shape = l.geometry.now;
      depth = l.depth;
      size = l.tiles.now.size;
      version = l.table.now.version;
      entries = l.table.now.entries.items;
      slots = l.tiles.now.slots.items;
      owners = l.tiles.now.owners.items;
      bytes = l.tiles.now.bytes.items;
      missed = l.missed;
    }) × IfSome l.tile (λ tile. IsTileOf l.tiles.now.size l.tiles.now.slots.items l.tiles.now.owners.items
        l.tiles.now.bytes.items l.page tile.now) };
}

impl<'a> ReplayLookup<'a> {
    /// The look-up over a table and a set of tiles of a depth. It takes no memory.
    pub(crate) fn new(
        geometry: &'a Geometry,
        table: &'a PageTable,
        tiles: &'a Tiles,
        depth: u32,
    ) -> ReplayLookup<'a>
        requires depth { IsDepth depth }
        requires entries { length table.now.entries.items ≡ pages_of geometry.now }
        requires root { IsSome (entries_of table.now.entries.items (root_of geometry.now)) }
        requires apart { IsOneToOne (entries_of table.now.entries.items) }
        requires size { tiles.now.size ≡ tile_length geometry.now depth }
        requires slots { length tiles.now.slots.items ≡ pages_of geometry.now }
        requires bytes { length tiles.now.bytes.items ≡ length tiles.now.owners.items * tiles.now.size }
        ensures { result ≡ record {
          shape = geometry.now;
          depth = depth;
          size = tiles.now.size;
          version = table.now.version;
          entries = table.now.entries.items;
          slots = tiles.now.slots.items;
          owners = tiles.now.owners.items;
          bytes = tiles.now.bytes.items;
          missed = false;
        } }
    {
        ReplayLookup {
            geometry,
            table,
            tiles,
            depth,
            page: 0,
            tile: None,
            missed: false,
            used: Noted::new(),
            missing: Noted::new(),
        }
    }

    /// A look-up over the same, which has missed no tile.
    pub(crate) fn again(&self) -> ReplayLookup<'a>
        ensures { result ≡ replay_lookup_base self.now }
    {
        ReplayLookup {
            geometry: self.geometry,
            table: self.table,
            tiles: self.tiles,
            depth: self.depth,
            page: 0,
            tile: None,
            missed: false,
            used: Noted::new(),
            missing: Noted::new(),
        }
    }

    /// Whether a tile was missed.
    pub(crate) fn missed(&self) -> bool
        ensures { result ≡ self.now.missed }
    {
        self.missed
    }

    /// The pages whose tiles were loaded.
    pub(crate) fn used(&self) -> Noted {
        self.used
    }

    /// The pages whose tiles were not.
    pub(crate) fn missing(&self) -> Noted {
        self.missing
    }
}

impl ReplayLookup<'_> {
    // The word at a place of the tile of a page. It means nothing where the tile is not loaded.
    #[inline(always)]
    fn word_of(&self, page: u32, place: u32) -> u64
        requires { place < self.now.shape.tile * self.now.shape.tile }
        ensures { (slot : ℕ) → IsIn self.now.slots self.now.owners page slot
            → result ≡ word_at self.now.depth (bytes_row self.now.size self.now.bytes slot) place }
    {
        match self.tile {
            Some(tile) if page == self.page => word_in(tile, self.depth, place as usize),
            _ => self.far_word(page, place),
        }
    }

    // The word at a place of the tile of a page that was not found last, or 0 where that is not loaded.
    fn far_word(&self, page: u32, place: u32) -> u64
        requires { place < self.now.shape.tile * self.now.shape.tile }
        ensures { (slot : ℕ) → IsIn self.now.slots self.now.owners page slot
            → result ≡ word_at self.now.depth (bytes_row self.now.size self.now.bytes slot) place }
    {
        match self.tiles.tile_of(page) {
            Some(tile) => word_in(tile, self.depth, place as usize),
            None => 0,
        }
    }
}

// The finest page that a table maps of a page and its ancestors.
fn finest_mapped(table: &PageTable, geometry: &Geometry, page: u32) -> Found
    requires entries { length table.now.entries.items ≡ pages_of geometry.now }
    requires root { IsSome (entries_of table.now.entries.items (root_of geometry.now)) }
    requires page { page < pages_of geometry.now }
    ensures { Serves geometry.now (entries_of table.now.entries.items) page result }
{
    let name = geometry.page_at(page);
    for level in name.level..geometry.levels() {
        let ancestor = geometry.ancestor_at(page, level);
        if let Some(slot) = entry_at(table.entries.as_slice(), ancestor) {
            return Found {
                page: ancestor,
                level,
                slot,
            };
        }
    }
    unreachable!()
}

impl Lookup for ReplayLookup<'_> {
    ghost shape = { λ v. v.shape };

    ghost version = { λ v. v.version };

    ghost says = { IsTrueOfTiles };

    ghost Kept = { ReplayLookupView };

    ghost kept = { replay_lookup_base };

    #[inline]
    fn find(&mut self, page: u32) -> Found {
        let found = finest_mapped(self.table, self.geometry, page);
        self.page = found.page;
        self.tile = self.tiles.tile_of(found.page);
        if self.tile.is_some() {
            self.used.add(found.page);
        } else {
            self.missing.add(found.page);
            self.missed = true;
        }
        found
    }

    #[inline(always)]
    fn texel(&mut self, found: &Found, x: u32, y: u32) -> u64 {
        self.word_of(found.page, place_of(self.geometry, x, y))
    }
}
