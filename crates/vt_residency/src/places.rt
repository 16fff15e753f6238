//! What a look-up finds.

ghost use Rattle.std.specs.Prelude.{◌≡◌, ◌+◌, ◌<◌, length, slice_index, MatchOption, None};
ghost use Rattle.vt_pages.specs.Pages.{IsWithinLimits, pages_of};
ghost use Rattle.vt_pages.specs.Lookups.{lookup};
ghost use Rattle.vt_evict.specs.Missing.{has_frame};
ghost use Rattle.vt_residency.specs.Places.{IsPlaceOf};

use vt_pages::Geometry;

/// A mapped page, its frame and its level.
#[repr(C)]
#[derive(Clone, Copy)]
pub struct Place {
    pub page: u32,
    pub frame: u32,
    pub level: u32,
}

// The frame of a page by the entries of a table.
fn frame_at(entries: &[u32], page: u32) -> Option<u32>
    requires { page < length entries.now }
    ensures { MatchOption result (slice_index entries.now page ≡ 0) (λ f. slice_index entries.now page ≡ f + 1) }
{
    match entries[page as usize] {
        0 => None,
        number => Some(number - 1),
    }
}

/// The look-up of a page by the entries of a table.
pub fn find(geometry: &Geometry, entries: &[u32], page: u32) -> Option<Place>
    requires long { length entries.now ≡ pages_of geometry.now }
    requires limits { IsWithinLimits geometry.now }
    requires inside { page < pages_of geometry.now }
    ensures { MatchOption result (lookup geometry.now (has_frame entries.now) page ≡ None) (IsPlaceOf geometry.now entries.now page) }
{
    match frame_at(entries, page) {
        Some(frame) => Some(Place {
            page,
            frame,
            level: geometry.page_at(page).level,
        }),
        None => match geometry.parent(page) {
            Some(parent) => find(geometry, entries, parent),
            None => None,
        },
    }
}
