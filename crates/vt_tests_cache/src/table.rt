//! The calls of a table, over a texture of 4x4 texels in tiles of side 2, which has 5 pages.

ghost use Rattle.std.specs.Prelude.{◌≡◌, ◌≤◌, [], ◌∷◌, IfOk};
ghost use Rattle.vt_pages.specs.Pages.{pages_of, root_of};

use crate::checks::holds;
use std::alloc::Global;
use vt_journal::Change;
use vt_outside::NoMemory;
use vt_pages::Geometry;
use vt_table::StillTable;

// A tile of one-byte samples and one of two-byte samples, each of four texels.
const NARROW: [u8; 12] = [1, 2, 3, 4, 5, 6, 7, 8, 9, 10, 11, 12];

const WIDE: [u8; 24] = [
    1, 0, 2, 0, 3, 0, 4, 0, 5, 0, 6, 0, 7, 0, 8, 0, 9, 0, 10, 0, 11, 0, 12, 255,
];

// The table of two frames that has the root in frame 0.
fn with_root(alloc: Global, geometry: &Geometry) -> Result<StillTable, NoMemory>
    requires tile { geometry.now.tile ≡ 2 }
    requires pages { pages_of geometry.now ≡ 5 }
    ensures shape { IfOk result (λ t. t.shape ≡ geometry.now) }
    ensures frames { IfOk result (λ t. t.frames ≡ 2) }
    ensures spare { IfOk result (λ t. 3 ≤ t.spare) }
    ensures changes { IfOk result (λ t. t.changes ≡ Change.Map 4 0 ∷ []) }
    ensures root { IfOk result (λ t. root_of t.shape ≡ 4) }
{
    let mut table = StillTable::new(alloc, geometry, 2)?;
    table.reserve(4)?;
    table.fill(0, 4, &NARROW);
    table.publish(Change::Map { page: 4, frame: 0 });
    Ok(table)
}

// Whether these are the entries of the five pages.
fn has_entries(table: &StillTable, entries: [Option<u32>; 5]) -> bool
    requires { pages_of table.now.shape ≡ 5 }
{
    table.frame_of(0) == entries[0]
        && table.frame_of(1) == entries[1]
        && table.frame_of(2) == entries[2]
        && table.frame_of(3) == entries[3]
        && table.frame_of(4) == entries[4]
}

// Whether the table answers so where a page is mapped to a frame that was filled for another page before, and is then unmapped.
fn is_changed(alloc: Global) -> bool {
    const UNMAPPED: [Option<u32>; 5] = [None, None, None, None, Some(0)];
    const MAPPED: [Option<u32>; 5] = [Some(1), None, None, None, Some(0)];
    let Ok(geometry) = Geometry::new(4, 4, 2) else {
        return false;
    };
    if geometry.page_count() != 5 || geometry.tile() != 2 {
        return false;
    }
    let Ok(mut table) = with_root(alloc, &geometry) else {
        return false;
    };
    let is_first = has_entries(&table, UNMAPPED);
    table.fill(1, 2, &NARROW);
    table.fill(1, 0, &WIDE);
    let second = table.publish(Change::Map { page: 0, frame: 1 });
    let is_mapped = has_entries(&table, MAPPED);
    let word = table.word(0, 1);
    let wide_word = table.word(1, 3);
    let third = table.publish(Change::Unmap { page: 0, frame: 1 });
    let is_unmapped = has_entries(&table, UNMAPPED);
    let last_word = table.word(0, 3);
    is_first
        && second == 2
        && is_mapped
        && word == 0x04_0506
        && wide_word == 0x0a00_0b00_0cff
        && third == 3
        && is_unmapped
        && last_word == 0x0a_0b0c
        && table.journal().version() == 3
}

#[test]
fn a_page_is_mapped_filled_anew_and_unmapped(rt: HostRuntime) {
    holds(&rt, is_changed(rt.alloc()));
}
