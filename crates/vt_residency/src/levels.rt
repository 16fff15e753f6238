//! The levels of a mip chain.

ghost use Rattle.std.specs.Prelude.{◌≡◌, ◌+◌, ◌-◌, ◌*◌, ◌/◌, ◌<◌, ◌≤◌, length};
ghost use Rattle.std.specs.Bool.{MatchBool};
ghost use Rattle.vt_pages.specs.Limits.{most_tile_side, most_tiled_side};
ghost use Rattle.vt_pages.specs.Pages.{IsWithinLimits, levels_of, pages_of};
ghost use Rattle.vt_residency.specs.Levels.{IsLevelOf, IsLevelTable, HasLevelLength};

use vt_pages::Geometry;

/// A mip level: its sides in texels, how many columns and rows of pages it has, and the index of its first page.
#[repr(C)]
#[derive(Clone, Copy)]
pub struct Level {
    pub width: u32,
    pub height: u32,
    pub columns: u32,
    pub rows: u32,
    pub first: u32,
}

// How many tiles cover a side.
fn tiles_over(side: u32, tile: u32) -> u32
    requires side { side ≤ most_tiled_side }
    requires tile { tile ≤ most_tile_side }
    requires some { 1 ≤ tile }
    ensures { result ≡ (side + tile - 1) / tile }
{
    (side + tile - 1) / tile
}

/// A level of a geometry.
pub fn level_at(geometry: &Geometry, level: u32) -> Level
    requires { level < levels_of geometry.now }
    ensures level { IsLevelOf geometry.now level result }
    ensures inside { result.first + result.rows * result.columns ≤ pages_of geometry.now }
    ensures limits { IsWithinLimits geometry.now }
{
    let (width, height) = geometry.level_size(level);
    let tile = geometry.tile();
    Level {
        width,
        height,
        columns: tiles_over(width, tile),
        rows: tiles_over(height, tile),
        first: geometry.page_of_texel(level, 0, 0),
    }
}

/// Writes the entries of a level's pages to a list that is as long as the level has pages; otherwise changes nothing.
pub fn put_level(geometry: &Geometry, entries: &[u32], level: u32, out: &mut [u32]) -> bool
    requires { length entries.now ≡ pages_of geometry.now }
    ensures table { MatchBool result (IsLevelTable geometry.now entries.now level out.new)
        ((out.new ≡ out.old) × (HasLevelLength geometry.now level (length out.old) → ⊥)) }
    ensures long { length out.new ≡ length out.old }
{
    if level >= geometry.levels() {
        return false;
    }
    let at = level_at(geometry, level);
    let first = at.first as usize;
    let count = at.rows as usize * at.columns as usize;
    if out.len() != count {
        return false;
    }
    out.copy_from_slice(&entries[first..first + count]);
    true
}
