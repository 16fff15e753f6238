//! The pages that are in the lines of wanted pages.

ghost use Rattle.std.specs.Prelude.{◌≡◌, ◌+◌, ◌<◌, false, not, [], ◌∷◌, ◌++◌, IfOk, IfSome, IfNone, OnOk, reverse};
ghost use Rattle.std.specs.List.{filter, All};
ghost use Rattle.vt_plan.specs.Pages.{IsWithinLimits, pages_of, ancestors_of};
ghost use Rattle.vt_plan.specs.Wants.{pages_wanted};
ghost use Rattle.vt_plan.specs.Orders.{line_pages};
ghost use Rattle.vt_plan.specs.PageLists.{is_in};
ghost use Rattle.vt_evict.specs.Kept.{IsWalk, HasParents};

use indexmap::IndexSet;
use std::alloc::Global;
use vt_outside::{Items, NoMemory};
use vt_plan::{Geometry, Wants, add_page};

/// The pages that were walked over, each once, and a mark for each page whether it is one of them.
#[derive(Drop)]
pub struct Walk {
    /// A mark for each page of the chain.
    pub marks: Vec<bool>,
    /// The marked pages, in the order in which they were marked.
    pub walked: Items<u32>,
}

impl Walk {
    /// A walk over no page, with room for all pages of a geometry.
    pub fn new(alloc: Global, geometry: &Geometry) -> Result<Walk, NoMemory>
        ensures walk { IfOk result (λ w. IsWalk (pages_of geometry.now) w.marks.items w.walked) }
        ensures none { IfOk result (λ w. w.walked.elements ≡ []) }
    {
        let pages = geometry.page_count();
        let marks = Vec::from_elem(alloc, false, pages as usize)?;
        let mut walked = Items::new(alloc);
        walked.reserve(pages as u64)?;
        Ok(Walk { marks, walked })
    }

    // Whether a page was walked over.
    fn is_marked(&self, pages: u32, page: u32) -> bool
        requires walk { IsWalk pages self.now.marks.items self.now.walked }
        requires inside { page < pages }
        ensures { result ≡ is_in self.now.walked.elements page }
    {
        let _ = pages;
        self.marks[page as usize]
    }

    // Adds a page that is not marked.
    fn add(&mut self, pages: u32, page: u32)
        requires walk { IsWalk pages self.old.marks.items self.old.walked }
        requires inside { page < pages }
        requires new { is_in self.old.walked.elements page ≡ false }
        ensures walk { IsWalk pages self.new.marks.items self.new.walked }
        ensures added { self.new.walked.elements ≡ self.old.walked.elements ++ page ∷ [] }
    {
        self.marks[page as usize] = true;
        self.walked.push(page);
    }

    /// Takes out the page that was added last.
    pub fn pop(&mut self, pages: u32) -> Option<u32>
        requires walk { IsWalk pages self.old.marks.items self.old.walked }
        ensures walk { IsWalk pages self.new.marks.items self.new.walked }
        ensures some { IfSome result (λ p. self.old.walked.elements ≡ self.new.walked.elements ++ p ∷ []) }
        ensures inside { IfSome result (λ p. p < pages) }
        ensures none { IfNone result ((self.old.walked.elements ≡ []) × (self.new.walked.elements ≡ [])) }
    {
        let page = self.walked.pop()?;
        self.marks[page as usize] = false;
        Some(page)
    }
}

// Walks over a page's line from its coarsest page on. The lines of marked pages are marked.
fn walk_line(geometry: &Geometry, walk: &mut Walk, page: u32)
    requires limits { IsWithinLimits geometry.now }
    requires inside { page < pages_of geometry.now }
    requires walk { IsWalk (pages_of geometry.now) walk.old.marks.items walk.old.walked }
    requires closed { HasParents geometry.now walk.old.walked.elements }
    ensures walk { IsWalk (pages_of geometry.now) walk.new.marks.items walk.new.walked }
    ensures closed { HasParents geometry.now walk.new.walked.elements }
    ensures walked { walk.new.walked.elements
        ≡ walk.old.walked.elements ++ filter (λ p. not (is_in walk.old.walked.elements p)) (reverse (ancestors_of geometry.now page)) }
{
    let pages = geometry.page_count();
    if walk.is_marked(pages, page) {
        return;
    }
    match geometry.parent(page) {
        Some(parent) => {
            walk_line(geometry, walk, parent);
            walk.add(pages, page);
        }
        None => walk.add(pages, page),
    }
}

/// Walks over the lines of the pages of a wanted list, one after the other.
pub fn walk_lines(geometry: &Geometry, walk: &mut Walk, wants: &Wants)
    requires inside { All (λ w. w.page < pages_of geometry.now) wants.now.elements }
    requires walk { IsWalk (pages_of geometry.now) walk.old.marks.items walk.old.walked }
    requires none { walk.old.walked.elements ≡ [] }
    ensures walk { IsWalk (pages_of geometry.now) walk.new.marks.items walk.new.walked }
    ensures walked { walk.new.walked.elements ≡ line_pages geometry.now (pages_wanted wants.now.elements) }
{
    let _limits = geometry.page_count();
    let list = wants.slice();
    for want in list {
        walk_line(geometry, walk, want.page);
    }
}

// Adds the pages of a page's line from its coarsest page on. The lines of pages that are there are there.
fn add_line(geometry: &Geometry, pages: &mut IndexSet<u32>, page: u32) -> Result<(), NoMemory>
    requires limits { IsWithinLimits geometry.now }
    requires inside { page < pages_of geometry.now }
    requires closed { HasParents geometry.now pages.old.keys }
    ensures closed { OnOk result (HasParents geometry.now pages.new.keys) }
    ensures added { OnOk result (pages.new.keys
        ≡ pages.old.keys ++ filter (λ p. not (is_in pages.old.keys p)) (reverse (ancestors_of geometry.now page))) }
{
    if pages.contains(&page) {
        return Ok(());
    }
    match geometry.parent(page) {
        Some(parent) => {
            add_line(geometry, pages, parent)?;
            add_page(pages, page)
        }
        None => add_page(pages, page),
    }
}

/// The pages that are in the lines of a wanted list, each once: line after line, each from its coarsest page on. They are
/// gathered in a set of their own, since a plan only reads the table and cannot use its marks.
pub fn lines_of(
    alloc: Global,
    geometry: &Geometry,
    wants: &Wants,
) -> Result<IndexSet<u32>, NoMemory>
    requires { All (λ w. w.page < pages_of geometry.now) wants.now.elements }
    ensures { IfOk result (λ s. s.keys ≡ line_pages geometry.now (pages_wanted wants.now.elements)) }
{
    let mut pages = IndexSet::with_capacity(alloc, wants.slice().len())?;
    add_lines(geometry, &mut pages, wants)?;
    Ok(pages)
}

// Adds the pages of the lines of a wanted list to none.
fn add_lines(geometry: &Geometry, pages: &mut IndexSet<u32>, wants: &Wants) -> Result<(), NoMemory>
    requires inside { All (λ w. w.page < pages_of geometry.now) wants.now.elements }
    requires none { pages.old.keys ≡ [] }
    ensures { OnOk result (pages.new.keys ≡ line_pages geometry.now (pages_wanted wants.now.elements)) }
{
    let _limits = geometry.page_count();
    let list = wants.slice();
    for want in list {
        add_line(geometry, pages, want.page)?;
    }
    Ok(())
}
