//! What a geometry computes once for all levels.

ghost use Rattle.std.specs.Prelude.{◌≡◌, ◌^◌, ◌<◌, ◌≤◌, false, MatchOption};
ghost use Rattle.vt_definitions.specs.Limits.{most_tiled_side};
ghost use Rattle.vt_definitions.specs.Tiles.{is_tile_side};
ghost use Rattle.vt_pages.specs.Shape.{shape_of};
ghost use Rattle.vt_pages.specs.Tables.{IsTabled, IsTileShift, IsFirstFit};

use crate::MOST_LEVELS;
use vt_definitions::is_tile_side;

/// For each level its first page, its columns and rows of pages, and its sides in texels.
#[derive(Clone, Copy)]
pub struct Tables {
    pub first: [u32; MOST_LEVELS],
    pub columns: [u32; MOST_LEVELS],
    pub rows: [u32; MOST_LEVELS],
    pub widths: [u32; MOST_LEVELS],
    pub heights: [u32; MOST_LEVELS],
}

/// The exponent of a tile side as a power of two; `None` for any other number.
pub fn tile_shift(tile: u32) -> Option<u32>
    ensures { MatchOption result (is_tile_side tile ≡ false) (IsTileShift tile) }
{
    if is_tile_side(tile) {
        Some(tile.trailing_zeros())
    } else {
        None
    }
}

/// The tables of a texture in tiles of `tile`, which is 2 to the power `shift`.
pub fn make_tables(width: u32, height: u32, tile: u32, shift: u32) -> Tables
    requires width_inside { width ≤ most_tiled_side }
    requires height_inside { height ≤ most_tiled_side }
    requires power { tile ≡ 2 ^ shift }
    requires shift_inside { shift < 8 }
    ensures { IsTabled (shape_of width height tile) result }
{
    let mut first = [0; MOST_LEVELS];
    let mut columns = [0; MOST_LEVELS];
    let mut rows = [0; MOST_LEVELS];
    let mut widths = [0; MOST_LEVELS];
    let mut heights = [0; MOST_LEVELS];
    let (mut wide, mut high, mut total) = (width, height, 0);
    for k in 0..MOST_LEVELS {
        let across = (wide + tile - 1) >> shift;
        let down = (high + tile - 1) >> shift;
        first[k] = total;
        columns[k] = across;
        rows[k] = down;
        widths[k] = wide;
        heights[k] = high;
        total += down * across;
        wide = (wide + 1) / 2;
        high = (high + 1) / 2;
    }
    Tables {
        first,
        columns,
        rows,
        widths,
        heights,
    }
}

/// The first level whose two sides are at most `tile`, or the last one of the tables.
pub fn last_level(tables: &Tables, tile: u32) -> usize
    ensures { IsFirstFit tables.now tile result }
{
    let mut level = 0;
    while level + 1 < MOST_LEVELS && (tables.widths[level] > tile || tables.heights[level] > tile) {
        level += 1;
    }
    level
}
