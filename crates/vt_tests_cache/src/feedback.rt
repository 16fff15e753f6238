//! The wanted lists of counts made by hand: a texture of 8 by 8 texels in tiles of 2 has the pages 0 to 15 at level 0,
//! 16 to 19 at level 1, and 20.

ghost use Rattle.std.specs.Prelude.{ℕ, ◌<◌, slice_index};

use crate::checks::holds;
use std::alloc::Global;
use vt_feedback::*;
use vt_pages::Geometry;

// The counts of a picture whose wanted pages are given, each with the number of its pixels, which is below a thousand.
fn counted(wanted: &[(usize, u32)]) -> [u32; 21]
    ensures { (p : ℕ) → slice_index result p < 1000 }
{
    let mut counts = [0; 21];
    for (page, pixels) in wanted {
        if *page < 21 {
            counts[*page] = *pixels % 1000;
        }
    }
    counts
}

// The wanted list of two pictures, of counts that were cleared behind them or not.
fn list_of(
    alloc: Global,
    first: &[(usize, u32)],
    second: &[(usize, u32)],
    is_cleared: bool,
) -> Option<Wants> {
    let geometry = Geometry::new(8, 8, 2).ok()?;
    let mut counts = Counts::new(alloc, &geometry).ok()?;
    if geometry.page_count() != 21 {
        return None;
    }
    counts.merge(&counted(first));
    counts.merge(&counted(second));
    if is_cleared {
        counts.clear();
    }
    counts.wanted(alloc, &geometry).ok()
}

// Whether a wanted list was made, and is this one.
fn is_list(list: &Option<Wants>, want: &[Wanted]) -> bool {
    match list {
        Some(wants) => wants.slice() == want,
        None => false,
    }
}

#[test]
fn coarser_levels_come_first_then_more_pixels_then_smaller_indexes(rt: HostRuntime) {
    const FIRST: [(usize, u32); 4] = [(3, 4), (7, 9), (2, 5), (20, 1)];
    const SECOND: [(usize, u32); 2] = [(3, 1), (16, 1)];
    const LISTED: [Wanted; 5] = [
        Wanted {
            page: 20,
            pixels: 1,
        },
        Wanted {
            page: 16,
            pixels: 1,
        },
        Wanted { page: 7, pixels: 9 },
        Wanted { page: 2, pixels: 5 },
        Wanted { page: 3, pixels: 5 },
    ];
    holds(
        &rt,
        is_list(&list_of(rt.alloc(), &FIRST, &SECOND, false), &LISTED),
    );
}

#[test]
fn cleared_counts_want_nothing(rt: HostRuntime) {
    const ALL: [(usize, u32); 21] = [
        (0, 1),
        (1, 1),
        (2, 1),
        (3, 1),
        (4, 1),
        (5, 1),
        (6, 1),
        (7, 1),
        (8, 1),
        (9, 1),
        (10, 1),
        (11, 1),
        (12, 1),
        (13, 1),
        (14, 1),
        (15, 1),
        (16, 1),
        (17, 1),
        (18, 1),
        (19, 1),
        (20, 1),
    ];
    holds(&rt, is_list(&list_of(rt.alloc(), &ALL, &[], true), &[]));
}
