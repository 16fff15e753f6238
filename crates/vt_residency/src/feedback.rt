//! What pixels want, as it comes: a number for each page, a list of pages with numbers, or a list of pages alone.

ghost use Rattle.std.specs.Prelude.{◌≡◌, ◌⊎◌, ℕ, ◌<◌, ◌≤◌, [], length, map, slice_index};
ghost use Rattle.std.specs.List.{All};
ghost use Rattle.std.specs.Bool.{MatchBool};
ghost use Rattle.vt_residency.specs.Tallies.{IsTally, IsPageOrNone, pixels_of, one_pixel, with_pixels};

use crate::loads::NO_PAGE;
use crate::tally::Tally;

/// A page, and how many pixels want it.
#[repr(C)]
#[derive(Clone, Copy)]
pub struct Listed {
    pub page: u32,
    pub pixels: u32,
}

/// Whether a list names pages of the first so many only.
pub fn are_pages(list: &[Listed], pages: u32) -> bool
    ensures { MatchBool result (All (λ w. w.page < pages) list.now) (All (λ w. w.page < pages) list.now → ⊥) }
{
    for listed in list {
        if listed.page >= pages {
            return false;
        }
    }
    true
}

/// Whether a list names pages of the first so many only, or 4294967295 for none.
pub fn are_pages_or_none(list: &[u32], pages: u32) -> bool
    ensures { MatchBool result (All (IsPageOrNone pages) list.now) (All (IsPageOrNone pages) list.now → ⊥) }
{
    for page in list {
        if *page >= pages && *page != NO_PAGE {
            return false;
        }
    }
    true
}

/// Adds a number of pixels for each page to a tally of no pixel.
pub fn add_counts(tally: &mut Tally, pages: u32, pixels: &[u32])
    requires tally { IsTally pages tally.old.counts.items tally.old.pages }
    requires none { tally.old.pages.elements ≡ [] }
    requires long { length pixels.now ≡ pages }
    ensures tally { IsTally pages tally.new.counts.items tally.new.pages }
    ensures counts { (p : ℕ) → slice_index tally.new.counts.items p ≡ slice_index pixels.now p }
{
    for page in 0..pages {
        tally.add(pages, page, pixels[page as usize]);
    }
}

/// Adds a list of pages with numbers of pixels to a tally of no pixel. A page may be in it several times.
pub fn add_listed(tally: &mut Tally, pages: u32, list: &[Listed])
    requires tally { IsTally pages tally.old.counts.items tally.old.pages }
    requires none { tally.old.pages.elements ≡ [] }
    requires inside { All (λ w. w.page < pages) list.now }
    ensures tally { IsTally pages tally.new.counts.items tally.new.pages }
    ensures counts { (p : ℕ) → p < pages → slice_index tally.new.counts.items p ≡ pixels_of list.now p }
{
    for listed in list {
        tally.add(pages, listed.page, listed.pixels);
    }
}

// Adds one pixel that wants a page, unless there is no such page.
fn add_one(tally: &mut Tally, pages: u32, page: u32)
    requires tally { IsTally pages tally.old.counts.items tally.old.pages }
    ensures tally { IsTally pages tally.new.counts.items tally.new.pages }
    ensures counts { (p : ℕ) → p < pages → slice_index tally.new.counts.items p
        ≡ with_pixels (one_pixel page) p (slice_index tally.old.counts.items p) }
{
    if page < pages {
        tally.add(pages, page, 1);
    }
}

/// Adds a list of pages, each wanted by one pixel, to a tally of no pixel. What is no page counts for none.
pub fn add_pages(tally: &mut Tally, pages: u32, list: &[u32])
    requires tally { IsTally pages tally.old.counts.items tally.old.pages }
    requires none { tally.old.pages.elements ≡ [] }
    ensures tally { IsTally pages tally.new.counts.items tally.new.pages }
    ensures counts { (p : ℕ) → p < pages → slice_index tally.new.counts.items p ≡ pixels_of (map one_pixel list.now) p }
{
    for page in list {
        add_one(tally, pages, *page);
    }
}
