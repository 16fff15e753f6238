//! The sides that tiles may have.

ghost use Rattle.std.specs.Prelude.{◌≡◌};
ghost use Rattle.vt_definitions.specs.Tiles.{is_tile_side};

/// The largest side of a tile.
pub const MOST_TILE_SIDE: u32 = 128;

/// Whether a number is a tile side: a power of two from 2 to `MOST_TILE_SIDE`.
pub fn is_tile_side(side: u32) -> bool
    ensures { result ≡ is_tile_side side }
{
    matches!(side, 2 | 4 | 8 | 16 | 32 | 64 | MOST_TILE_SIDE)
}
