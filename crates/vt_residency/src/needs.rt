//! Which loads under way a wanted page needs.

ghost use Rattle.std.specs.Prelude.{◌≡◌, ℕ, ◌<◌, ◌||◌, if◌then◌else◌, [], length, map};
ghost use Rattle.std.specs.List.{All};
ghost use Rattle.vt_pages.specs.Pages.{IsWithinLimits, pages_of, ancestors_of};
ghost use Rattle.vt_evict.specs.PageLists.{is_in};
ghost use Rattle.vt_residency.specs.Needs.{AreWholeLines, is_counted, is_needed, needs, load_state_by};
ghost use Rattle.vt_residency.specs.Tallies.{IsTally};

use crate::tally::Tally;
use vt_evict::Planned;
use vt_pages::Geometry;

// Counts a pixel for the pages of a page's line that have none. The lines of pages that have one have one throughout.
fn count_line(tally: &mut Tally, geometry: &Geometry, page: u32)
    requires limits { IsWithinLimits geometry.now }
    requires inside { page < pages_of geometry.now }
    requires tally { IsTally (pages_of geometry.now) tally.old.counts.items tally.old.pages }
    requires whole { AreWholeLines geometry.now tally.old.counts.items }
    ensures tally { IsTally (pages_of geometry.now) tally.new.counts.items tally.new.pages }
    ensures whole { AreWholeLines geometry.now tally.new.counts.items }
    ensures counted { (p : ℕ) → is_counted tally.new.counts.items p
        ≡ (is_in (ancestors_of geometry.now page) p || is_counted tally.old.counts.items p) }
{
    let pages = geometry.page_count();
    if tally.is_counted(pages, page) {
        return;
    }
    match geometry.parent(page) {
        Some(parent) => {
            count_line(tally, geometry, parent);
            tally.add(pages, page, 1);
        }
        None => tally.add(pages, page, 1),
    }
}

// Counts the line of a page, unless there is no such page.
fn count_wanted(tally: &mut Tally, geometry: &Geometry, page: u32)
    requires tally { IsTally (pages_of geometry.now) tally.old.counts.items tally.old.pages }
    requires whole { AreWholeLines geometry.now tally.old.counts.items }
    ensures tally { IsTally (pages_of geometry.now) tally.new.counts.items tally.new.pages }
    ensures whole { AreWholeLines geometry.now tally.new.counts.items }
    ensures counted { (p : ℕ) → is_counted tally.new.counts.items p
        ≡ (needs geometry.now p page || is_counted tally.old.counts.items p) }
{
    if page < geometry.page_count() {
        count_line(tally, geometry, page);
    }
}

/// Counts each page that one of a list of wanted pages needs, in a tally of no pixel. What is no page needs none.
pub fn count_needed(tally: &mut Tally, geometry: &Geometry, wanted: &[u32])
    requires tally { IsTally (pages_of geometry.now) tally.old.counts.items tally.old.pages }
    requires none { tally.old.pages.elements ≡ [] }
    ensures tally { IsTally (pages_of geometry.now) tally.new.counts.items tally.new.pages }
    ensures counted { (p : ℕ) → is_counted tally.new.counts.items p ≡ is_needed geometry.now wanted.now p }
{
    for page in wanted {
        count_wanted(tally, geometry, *page);
    }
}

// The number of a load that is under way: 2 where it stays so, 1 where it is lost.
fn state_of(is_needed: bool) -> u8
    ensures { result ≡ (if is_needed then 2 else 1) }
{
    if is_needed { 2 } else { 1 }
}

/// Writes for each load 2 where its page is counted, else 1, to a list of as many.
pub fn put_states(loads: &[Planned], tally: &Tally, pages: u32, states: &mut [u8])
    requires long { length states.old ≡ length loads.now }
    requires tally { IsTally pages tally.now.counts.items tally.now.pages }
    requires inside { All (λ e. e.page < pages) loads.now }
    ensures { states.new ≡ map (load_state_by tally.now.counts.items) loads.now }
{
    for i in 0..loads.len() {
        states[i] = state_of(tally.is_counted(pages, loads[i].page));
    }
}
