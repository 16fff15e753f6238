//! Tables over a texture of 4x4 texels whose texel (x, y) is 4y+x in each channel, in tiles of side 2.

ghost use Rattle.std.specs.Prelude.{◌≡◌, ◌+◌, ◌*◌, ◌<◌, ◌≤◌, None, [], ◌∷◌, ◌++◌, length, IfOk};
ghost use Rattle.vt_tiles.specs.Depths.{IsDepth};
ghost use Rattle.vt_pages.specs.Pages.{pages_of};
ghost use Rattle.vt_journal.specs.Changes.{newest, IsFree};
ghost use Rattle.vt_table.specs.Views.{IsTile};
ghost use Rattle.vt_sampler.specs.Notes.{TableMapsRoot};

use std::alloc::Global;
use vt_journal::Change;
use vt_outside::NoMemory;
use vt_pages::Geometry;
use vt_table::StillTable;

// The greys of each page's tile, row by row: four pages of level 0, and the root.
const GREYS: [[u8; 4]; 5] = [
    [0, 1, 4, 5],
    [2, 3, 6, 7],
    [8, 9, 12, 13],
    [10, 11, 14, 15],
    [3, 5, 11, 13],
];

// Writes a tile of greys, of which each sample has the byte once or twice.
fn put_greys(out: &mut [u8], greys: [u8; 4], texel: usize)
    requires few { texel ≤ 6 }
    requires room { length out.old ≡ 4 * texel }
{
    for i in 0..4 {
        for k in 0..texel {
            out[i * texel + k] = greys[i];
        }
    }
}

// Maps a page to a frame that it fills first.
fn load(table: &mut StillTable, page: u32, frame: u32, tile: &[u8])
    requires room { 1 ≤ table.old.spare }
    requires page { page < pages_of table.old.shape }
    requires frame { frame < table.old.frames }
    requires unmapped { newest table.old.changes page ≡ None }
    requires free { IsFree (newest table.old.changes) frame }
    requires tile { IsTile table.old.shape tile.now }
    ensures changes { table.new.changes ≡ table.old.changes ++ Change.Map page frame ∷ [] }
    ensures spare { table.old.spare ≤ table.new.spare + 1 }
    ensures shape { table.new.shape ≡ table.old.shape }
    ensures frames { table.new.frames ≡ table.old.frames }
{
    table.fill(frame, page, tile);
    table.publish(Change::Map { page, frame });
}

/// The table that maps the pages from `from` on, to its frames in order.
pub fn table_from(
    alloc: Global,
    geometry: &Geometry,
    from: u32,
    depth: u32,
) -> Result<StillTable, NoMemory>
    requires tile { geometry.now.tile ≡ 2 }
    requires pages { pages_of geometry.now ≡ 5 }
    requires from { from < 5 }
    requires depth { IsDepth depth }
    ensures shape { IfOk result (λ t. t.shape ≡ geometry.now) }
    ensures root { IfOk result TableMapsRoot }
{
    let mut table = StillTable::new(alloc, geometry, 5 - from)?;
    table.reserve(5)?;
    let texel = 3 * depth as usize;
    let mut bytes = [0; 24];
    for page in from..5 {
        put_greys(&mut bytes[..4 * texel], GREYS[page as usize], texel);
        load(&mut table, page, page - from, &bytes[..4 * texel]);
    }
    let _root_is_last = geometry.page_count();
    Ok(table)
}
