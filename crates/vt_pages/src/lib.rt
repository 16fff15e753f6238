//! The geometry of the pages of a mip chain: how each level is cut into square tiles, how the pages are
//! numbered, and which page lies over which.
//!
//! Level 0 is the texture, and each further level has half the sides of the one below, rounded up. A
//! page is the place of one tile. Pages are numbered from level 0 on, and within a level row by row.
#![tactic(auto)]

mod tables;

ghost use Rattle.std.specs.Prelude.{◌^◌, ◌≡◌, ℕ, ◌+◌, ◌/◌, ◌<◌, ◌≤◌, ◌↔◌, ◌&&◌, IfOk, IfErr, IfSome, IsNone, OnOk};
ghost use Rattle.vt_definitions.specs.Sides.{side};
ghost use Rattle.vt_pages.specs.Shape.{shape_of, is_texture_side};
ghost use Rattle.vt_pages.specs.Pages.{IsPage, IsPageAt, IsWithinLimits, columns_at, rows_at, pages_below, index_at, index_of, name_at, level_of, levels_of, pages_of, parent_of, ancestor_of, texel_page, pinned_of, refusal_of};
ghost use Rattle.vt_pages.specs.Laws.{AreInverse, ReachesRoot, PlacesNest, LinesFollowPlaces, TilesHoldPlaces, IsInside};

use std::marker::Model;
use tables::{Tables, last_level, make_tables, tile_shift};
use thiserror::Error;
pub use vt_definitions::{is_tile_side, put_word, texel_length};

/// The largest side of a texture, in texels.
pub const MOST_SIDE: u32 = 16_384;

/// The largest number of pages of a chain.
pub const MOST_PAGES: u32 = 262_144;

/// How many levels the tables have room for: no chain has more.
pub const MOST_LEVELS: usize = 14;

/// The name of a page: its mip level, finest first, and its column and row in that level, all from 0.
#[derive(Clone, Copy, Debug, PartialEq, Eq)]
pub struct PageName {
    /// The mip level; 0 is the texture itself.
    pub level: u32,
    /// The column of pages, from the left.
    pub col: u32,
    /// The row of pages, from the top.
    pub row: u32,
}

/// Why sides and a tile side make no geometry. The first limit that is broken, in this order, is named.
#[derive(Clone, Copy, Debug, PartialEq, Eq, Error)]
#[error("the sides make no geometry")]
pub enum PagesError {
    /// The number is no tile side (`is_tile_side`).
    BadTile,
    /// A side of the texture is 0 or above `MOST_SIDE`.
    BadSide,
    /// The chain has more than `MOST_PAGES` pages.
    TooManyPages {
        /// How many pages the chain would have.
        pages: u64,
    },
}

/// How a texture and its mip chain are cut into pages (van Waveren 2012). Contracts see the width and
/// the height of the texture and the tile side.
#[derive(Clone, Copy)]
pub struct Geometry {
    width: u32,
    height: u32,
    tile: u32,
    shift: u32,
    levels: u32,
    pages: u32,
    tables: Tables,
}

impl Model for Geometry {
    ghost use Rattle.vt_pages.specs.Shape.{Shape, shape_of, tile_exponent};
    ghost use Rattle.vt_pages.specs.Pages.{levels_of, pages_of};
    ghost use Rattle.vt_pages.specs.Tables.{IsGeometry, tables_of};
    ghost use Rattle.vt_pages.specs.Giving.{gives_back};

    ghost Value = { Shape };

    ghost view = { λ a. shape_of a.width a.height a.tile };

    ghost invariant = { λ a. IsGeometry (shape_of a.width a.height a.tile) a.shift a.levels a.pages a.tables };

    ghost inverse = { λ s. record {
      width = s.width;
      height = s.height;
      tile = s.tile;
      shift = tile_exponent s.tile;
      levels = levels_of s;
      pages = pages_of s;
      tables = tables_of s;
    } };

    ghost inverse_ok = { λ a h i. record {
      width = a.width;
      height = a.height;
      tile = a.tile;
      shift = (gives_back h).shift i;
      levels = (gives_back h).levels i;
      pages = (gives_back h).pages i;
      tables = (gives_back h).tables i;
    } };
}

// Whether both numbers are sides that a texture may have.
fn are_texture_sides(width: u32, height: u32) -> bool
    ensures { result ≡ (is_texture_side width && is_texture_side height) }
{
    1 <= width && width <= MOST_SIDE && 1 <= height && height <= MOST_SIDE
}

impl Geometry {
    /// The geometry of a texture of `width` by `height` texels in tiles of `tile` by `tile`.
    ///
    /// `BadTile` comes for a number that is no tile side; else `BadSide` for a side that is not from 1 to `MOST_SIDE`; else
    /// `TooManyPages` for a chain of more than `MOST_PAGES` pages.
    pub fn new(width: u32, height: u32, tile: u32) -> Result<Geometry, PagesError>
        ensures ok { IfOk result (λ g. g ≡ shape_of width height tile) }
        ensures limits { OnOk result (IsWithinLimits (shape_of width height tile)) }
        ensures err { IfErr result (λ e. refusal_of (shape_of width height tile) ≡ Some e) }
    {
        let Some(shift) = tile_shift(tile) else {
            return Err(PagesError::BadTile);
        };
        if !are_texture_sides(width, height) {
            return Err(PagesError::BadSide);
        }
        let tables = make_tables(width, height, tile, shift);
        let last = last_level(&tables, tile);
        let pages = tables.first[last] + tables.rows[last] * tables.columns[last];
        if pages > MOST_PAGES {
            return Err(PagesError::TooManyPages {
                pages: pages as u64,
            });
        }
        Ok(Geometry {
            width,
            height,
            tile,
            shift,
            levels: last as u32 + 1,
            pages,
            tables,
        })
    }

    /// The width of the texture in texels, from 1 to `MOST_SIDE`.
    pub fn width(&self) -> u32
        ensures width { result ≡ self.now.width }
        ensures limits { IsWithinLimits self.now }
    {
        self.width
    }

    /// The height of the texture in texels, from 1 to `MOST_SIDE`.
    pub fn height(&self) -> u32
        ensures height { result ≡ self.now.height }
        ensures limits { IsWithinLimits self.now }
    {
        self.height
    }

    /// The side of a tile in texels.
    pub fn tile(&self) -> u32
        ensures tile { result ≡ self.now.tile }
        ensures limits { IsWithinLimits self.now }
    {
        self.tile
    }

    /// The number of mip levels, at least 1.
    pub fn levels(&self) -> u32
        ensures levels { result ≡ levels_of self.now }
        ensures limits { IsWithinLimits self.now }
    {
        self.levels
    }

    /// The number of pages of all levels, from 1 to `MOST_PAGES`.
    pub fn page_count(&self) -> u32
        ensures pages { result ≡ pages_of self.now }
        ensures limits { IsWithinLimits self.now }
    {
        self.pages
    }

    /// The width and the height of a mip level in texels.
    pub fn level_size(&self, level: u32) -> (u32, u32)
        requires { level < levels_of self.now }
        ensures size { result ≡ (side self.now.width level, side self.now.height level) }
        ensures some { (1 ≤ result.0) × (1 ≤ result.1) }
        ensures most { (result.0 ≤ self.now.width) × (result.1 ≤ self.now.height) }
        ensures limits { IsWithinLimits self.now }
    {
        (
            self.tables.widths[level as usize],
            self.tables.heights[level as usize],
        )
    }

    // The index of the page at a level, a column and a row.
    #[inline]
    fn index_at(&self, level: u32, col: u32, row: u32) -> u32
        requires level_inside { level < levels_of self.now }
        requires col_inside { col < columns_at self.now level }
        requires row_inside { row < rows_at self.now level }
        ensures index { result ≡ index_at self.now level col row }
        ensures page { IsPageAt self.now level result }
        ensures limits { IsWithinLimits self.now }
    {
        let columns = self.tables.columns[level as usize];
        self.tables.first[level as usize] + (row * columns + col)
    }

    /// The index of a page of the chain.
    pub fn index_of(&self, name: &PageName) -> u32
        requires { IsPage self.now name.now }
        ensures index { result ≡ index_of self.now name.now }
        ensures inside { result < pages_of self.now }
        ensures undone { name_at self.now result ≡ name.now }
        ensures inverse { AreInverse self.now }
    {
        self.index_at(name.level, name.col, name.row)
    }

    // The level of the page with an index.
    fn level_of(&self, page: u32) -> u32
        requires { page < pages_of self.now }
        ensures level { result ≡ level_of self.now page }
        ensures inside { result < levels_of self.now }
        ensures from { pages_below self.now result ≤ page }
        ensures limits { IsWithinLimits self.now }
    {
        let mut level = 0;
        while level + 1 < self.levels && self.tables.first[level as usize + 1] <= page {
            level += 1;
        }
        level
    }

    /// The name of the page with an index.
    pub fn page_at(&self, page: u32) -> PageName
        requires { page < pages_of self.now }
        ensures name { result ≡ name_at self.now page }
        ensures level { result.level ≡ level_of self.now page }
        ensures in_chain { IsPage self.now result }
        ensures undone { index_of self.now result ≡ page }
        ensures inverse { AreInverse self.now }
        ensures limits { IsWithinLimits self.now }
    {
        let level = self.level_of(page);
        let columns = self.tables.columns[level as usize];
        let place = page - self.tables.first[level as usize];
        PageName {
            level,
            col: place % columns,
            row: place / columns,
        }
    }

    /// The page of the next coarser level over a page's place. `None` comes exactly for the root, the one
    /// page of the last level.
    pub fn parent(&self, page: u32) -> Option<u32>
        requires { page < pages_of self.now }
        ensures parent { result ≡ parent_of self.now page }
        ensures root { IsNone result ↔ (level_of self.now page + 1 ≡ levels_of self.now) }
        ensures inside { IfSome result (IsPageAt self.now (level_of self.now page + 1)) }
        ensures nest { PlacesNest self.now }
    {
        let name = self.page_at(page);
        if name.level + 1 == self.levels {
            return None;
        }
        Some(self.index_at(name.level + 1, name.col / 2, name.row / 2))
    }

    /// The page of a page's line, which is the page and its ancestors, at a level no finer than its own.
    pub fn ancestor_at(&self, page: u32, level: u32) -> u32
        requires page_inside { page < pages_of self.now }
        requires level_inside { level < levels_of self.now }
        requires no_finer { level_of self.now page ≤ level }
        ensures ancestor { result ≡ ancestor_of self.now page level }
        ensures inside { result < pages_of self.now }
        ensures level { level_of self.now result ≡ level }
        ensures line { ReachesRoot self.now page }
        ensures places { LinesFollowPlaces self.now }
    {
        let name = self.page_at(page);
        let up = level - name.level;
        self.index_at(level, name.col >> up, name.row >> up)
    }

    /// The page of the texel at column `x` and row `y` of a level.
    pub fn page_of_texel(&self, level: u32, x: u32, y: u32) -> u32
        requires { IsInside self.now level x y }
        ensures page { result ≡ texel_page self.now level x y }
        ensures inside { result < pages_of self.now }
        ensures level { level_of self.now result ≡ level }
        ensures nest { PlacesNest self.now }
        ensures places { LinesFollowPlaces self.now }
        ensures tiles { TilesHoldPlaces self.now }
    {
        self.index_at(level, x >> self.shift, y >> self.shift)
    }

    /// The page of the texel of a level that covers the place in column `x` and row `y` of level 0.
    #[inline]
    pub fn page_of_place(&self, level: u32, x: u32, y: u32) -> u32
        requires { IsInside self.now level (x / 2 ^ level) (y / 2 ^ level) }
        ensures page { result ≡ texel_page self.now level (x / 2 ^ level) (y / 2 ^ level) }
        ensures inside { result < pages_of self.now }
    {
        let up = level + self.shift;
        self.index_at(level, x >> up, y >> up)
    }

    /// How many pages the last `n` levels have, or all levels where there are fewer. They are the last so
    /// many indexes, and the pages that are always mapped (Mayer 2010).
    pub fn pinned_count(&self, n: u32) -> u32
        ensures count { result ≡ pinned_of self.now n }
        ensures most { result ≤ pages_of self.now }
        ensures last { (p : ℕ) → p < pages_of self.now
            → (levels_of self.now ≤ level_of self.now p + n) ↔ (pages_of self.now ≤ p + result) }
    {
        let unpinned = self.levels.saturating_sub(n);
        if unpinned == self.levels {
            return 0;
        }
        self.pages - self.tables.first[unpinned as usize]
    }
}
