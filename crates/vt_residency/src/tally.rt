//! How many pixels want each page, gathered page by page, so that a wanted list costs what is wanted and not what there is.

ghost use Rattle.std.specs.Prelude.{◌≡◌, ℕ, ◌+◌, ◌<◌, ◌≤◌, ◌++◌, [], ◌∷◌, min, nat_lt, length, map, slice_index, slice_set, IfOk, IfSome, IfNone};
ghost use Rattle.std.specs.Bool.{MatchBool};
ghost use Rattle.std.specs.List.{All};
ghost use Rattle.vt_pages.specs.Pages.{pages_of};
ghost use Rattle.vt_feedback.specs.Wants.{IsWants};
ghost use Rattle.vt_feedback.specs.Ranks.{most_pixels, rank_of};
ghost use Rattle.vt_residency.specs.Needs.{is_counted};
ghost use Rattle.vt_residency.specs.Tallies.{IsTally, with_pixels};

use std::alloc::Global;
use vt_feedback::{Rank, Wants, rank_at, wants_of};
use vt_outside::{Items, NoMemory};
use vt_pages::Geometry;

/// A count for each page of a geometry, and a list of the pages whose count is not 0.
#[derive(Drop)]
pub struct Tally {
    pub counts: Vec<u32>,
    pub pages: Items<u32>,
}

// The ranks of listed pages, in the order of the list.
fn ranks_at(
    alloc: Global,
    geometry: &Geometry,
    counts: &[u32],
    pages: &[u32],
) -> Result<Vec<Rank>, NoMemory>
    requires long { length counts.now ≡ pages_of geometry.now }
    requires inside { All (λ p. p < pages_of geometry.now) pages.now }
    ensures { IfOk result (λ r. r.items ≡ map (rank_of geometry.now counts.now) pages.now) }
{
    let mut ranks = Vec::new(alloc);
    for page in pages {
        ranks.push(rank_at(geometry, counts, *page))?;
    }
    Ok(ranks)
}

// Whether a count is the first above 0 of its page.
fn is_first(before: u32, count: u32) -> bool
    requires { before ≤ count }
    ensures { MatchBool result ((before ≡ 0) × (0 < count)) (nat_lt 0 count ≡ nat_lt 0 before) }
{
    before == 0 && count > 0
}

impl Tally {
    /// The tally of no pixel, with room for all pages of a geometry.
    pub fn new(alloc: Global, geometry: &Geometry) -> Result<Tally, NoMemory>
        ensures tally { IfOk result (λ t. IsTally (pages_of geometry.now) t.counts.items t.pages) }
        ensures none { IfOk result (λ t. t.pages.elements ≡ []) }
    {
        let pages = geometry.page_count();
        let counts = Vec::from_elem(alloc, 0, pages as usize)?;
        let mut listed = Items::new(alloc);
        listed.reserve(pages as u64)?;
        Ok(Tally {
            counts,
            pages: listed,
        })
    }

    /// Adds pixels that want a page. A count that would pass the type stays the most that it can have.
    pub fn add(&mut self, pages: u32, page: u32, pixels: u32)
        requires tally { IsTally pages self.old.counts.items self.old.pages }
        requires inside { page < pages }
        ensures tally { IsTally pages self.new.counts.items self.new.pages }
        ensures counts { self.new.counts.items
            ≡ slice_set self.old.counts.items page (min most_pixels (slice_index self.old.counts.items page + pixels)) }
    {
        let before = self.counts[page as usize];
        let count = before.saturating_add(pixels);
        if is_first(before, count) {
            self.pages.push(page);
            self.counts[page as usize] = count;
        } else {
            self.counts[page as usize] = count;
        }
    }

    /// Whether a page has a count above 0.
    pub fn is_counted(&self, pages: u32, page: u32) -> bool
        requires tally { IsTally pages self.now.counts.items self.now.pages }
        requires inside { page < pages }
        ensures { result ≡ is_counted self.now.counts.items page }
    {
        let _ = pages;
        self.counts[page as usize] > 0
    }

    // Takes out the page that was listed last.
    fn pop(&mut self, pages: u32) -> Option<u32>
        requires tally { IsTally pages self.old.counts.items self.old.pages }
        ensures tally { IsTally pages self.new.counts.items self.new.pages }
        ensures some { IfSome result (λ p. self.old.pages.elements ≡ self.new.pages.elements ++ p ∷ []) }
        ensures none { IfNone result (self.new.pages.elements ≡ []) }
    {
        let page = self.pages.pop()?;
        self.counts[page as usize] = 0;
        Some(page)
    }

    /// Takes all pixels out.
    pub fn clear(&mut self, pages: u32)
        requires { IsTally pages self.old.counts.items self.old.pages }
        ensures tally { IsTally pages self.new.counts.items self.new.pages }
        ensures none { self.new.pages.elements ≡ [] }
    {
        while let Some(_page) = self.pop(pages) {}
    }

    // The wanted list of the pixels.
    fn wanted(&self, alloc: Global, geometry: &Geometry) -> Result<Wants, NoMemory>
        requires { IsTally (pages_of geometry.now) self.now.counts.items self.now.pages }
        ensures { IfOk result (λ w. IsWants geometry.now (slice_index self.now.counts.items) w.elements) }
    {
        let mut ranks = ranks_at(alloc, geometry, self.counts.as_slice(), self.pages.slice())?;
        ranks.sort_unstable();
        wants_of(alloc, ranks.as_slice())
    }

    /// Takes all pixels out, and makes their wanted list.
    pub fn take_wanted(&mut self, alloc: Global, geometry: &Geometry) -> Result<Wants, NoMemory>
        requires { IsTally (pages_of geometry.now) self.old.counts.items self.old.pages }
        ensures tally { IsTally (pages_of geometry.now) self.new.counts.items self.new.pages }
        ensures none { self.new.pages.elements ≡ [] }
        ensures wants { IfOk result (λ w. IsWants geometry.now (slice_index self.old.counts.items) w.elements) }
    {
        let wants = self.wanted(alloc, geometry);
        self.clear(geometry.page_count());
        wants
    }
}
