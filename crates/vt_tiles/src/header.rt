//! The header of a store.
ghost use Rattle.std.specs.Prelude.{◌≡◌, ◌+◌, ◌*◌, ◌≤◌, false, None, Some, IfOk, IfErr, OnOk, MatchOption, length, min, take, bytes_eq};
ghost use Rattle.vt_pages.specs.Depths.{IsDepth};
ghost use Rattle.vt_pages.specs.Limits.{most_tile_side};
ghost use Rattle.vt_pages.specs.Numbers.{number_from};
ghost use Rattle.vt_pages.specs.Pages.{pages_of};
ghost use Rattle.vt_tiles.specs.Format.{flaw_of, has_magic, header_shape, store_depth, tile_start, tile_length, store_length, header_length, header_bytes, magic};
ghost use Rattle.vt_tiles.specs.StoreViews.{SpellsDepth};
ghost use Rattle.vt_tiles.specs.Refusals.{IsOutsideRefusal};

use crate::StoreError;
use vt_pages::{Geometry, texel_length};

// The four bytes that a store of one-byte samples begins with, and those of one of two-byte samples.
const NARROW_MAGIC: [u8; 4] = *b"VTS1";

const WIDE_MAGIC: [u8; 4] = *b"VTS2";

/// How many bytes the header has.
pub const HEADER_LENGTH: usize = 16;

// The number that four bytes from a place on spell, the highest first.
fn number_at(head: &[u8], at: usize) -> u32
    requires { at + 4 ≤ length head.now }
    ensures { result ≡ number_from head.now at 4 }
{
    head[at] as u32 * 16777216
        + head[at + 1] as u32 * 65536
        + head[at + 2] as u32 * 256
        + head[at + 3] as u32
}

/// How many bytes a tile has whose samples have `depth` bytes, 1 or 2.
pub fn tile_length(geometry: &Geometry, depth: u32) -> usize
    requires { IsDepth depth }
    ensures value { result ≡ tile_length geometry.now depth }
    ensures few { result ≤ 6 * (most_tile_side * most_tile_side) }
{
    let side = geometry.tile() as usize;
    side * side * texel_length(depth)
}

/// Where the tile of a page begins in a store of samples of `depth` bytes, or the store's end for the number of pages.
pub fn tile_start(geometry: &Geometry, depth: u32, page: u32) -> u64
    requires depth { IsDepth depth }
    requires page { page ≤ pages_of geometry.now }
    ensures { result ≡ tile_start geometry.now depth page }
{
    let _ = geometry.page_count();
    HEADER_LENGTH as u64 + page as u64 * tile_length(geometry, depth) as u64
}

/// How many bytes the store of a geometry has whose samples have `depth` bytes, 1 or 2.
pub fn store_length(geometry: &Geometry, depth: u32) -> u64
    requires { IsDepth depth }
    ensures { result ≡ store_length geometry.now depth }
{
    tile_start(geometry, depth, geometry.page_count())
}

// The four bytes that a store begins with.
fn magic_of(depth: u32) -> [u8; 4]
    requires { IsDepth depth }
    ensures { result ≡ magic depth }
{
    if depth == 2 { WIDE_MAGIC } else { NARROW_MAGIC }
}

/// The header of a store whose samples have `depth` bytes, 1 or 2.
pub fn header_of(geometry: &Geometry, depth: u32) -> [u8; HEADER_LENGTH]
    requires { IsDepth depth }
    ensures { result ≡ header_bytes geometry.now depth }
{
    let magic = magic_of(depth);
    let width = geometry.width().to_be_bytes();
    let height = geometry.height().to_be_bytes();
    let tile = geometry.tile().to_be_bytes();
    [
        magic[0], magic[1], magic[2], magic[3], width[0], width[1], width[2], width[3], height[0],
        height[1], height[2], height[3], tile[0], tile[1], tile[2], tile[3],
    ]
}

// Whether the bytes begin with these four.
fn begins_with(head: &[u8], magic: [u8; 4]) -> bool
    ensures { result ≡ bytes_eq (take 4 head.now) magic }
{
    head.len() >= magic.len() && head[..magic.len()] == magic[..]
}

// The depth that the first bytes tell, where they are those of a store.
fn magic_depth(head: &[u8]) -> Option<u32>
    ensures { MatchOption result (has_magic head.now ≡ false) (SpellsDepth head.now) }
{
    if begins_with(head, WIDE_MAGIC) {
        Some(2)
    } else if begins_with(head, NARROW_MAGIC) {
        Some(1)
    } else {
        None
    }
}

/// The geometry and the depth of a store of so many bytes, of which `head` is the first 16, or all where there are fewer.
pub fn parse_header(head: &[u8], have: u64) -> Result<(Geometry, u32), StoreError>
    requires { length head.now ≡ min have header_length }
    ensures flaw { IfErr result (λ e. flaw_of head.now have ≡ Some e) }
    ensures no_flaw { OnOk result (flaw_of head.now have ≡ None) }
    ensures shape { IfOk result (λ h. h.0 ≡ header_shape head.now) }
    ensures depth { IfOk result (λ h. h.1 ≡ store_depth head.now) }
    ensures lawful { IfOk result (λ h. IsDepth h.1) }
    ensures long { OnOk result (header_length ≤ have) }
    ensures no_failure { IfErr result (λ e. IsOutsideRefusal e → ⊥) }
{
    let depth = match magic_depth(head) {
        Some(depth) => depth,
        None => return Err(StoreError::BadMagic),
    };
    if have < HEADER_LENGTH as u64 {
        return Err(StoreError::WrongLength {
            want: HEADER_LENGTH as u64,
            have,
        });
    }
    let geometry = match Geometry::new(
        number_at(head, 4),
        number_at(head, 8),
        number_at(head, 12),
    ) {
        Ok(geometry) => geometry,
        Err(_) => return Err(StoreError::BadGeometry),
    };
    let want = store_length(&geometry, depth);
    if have != want {
        return Err(StoreError::WrongLength { want, have });
    }
    Ok((geometry, depth))
}
