//! What the pixels of a picture want: how many want each page, and the wanted pages in the order in which they are
//! asked for (Mayer 2010).
#![tactic(auto)]

mod blocks;
mod laws;
mod ranks;

ghost use Rattle.std.specs.Prelude.{◌≡◌, ℕ, ◌+◌, ◌^◌, ◌<◌, length, replicate, IfOk, slice_index};
ghost use Rattle.vt_pages.specs.Pages.{pages_of};
ghost use Rattle.vt_feedback.specs.Wants.{IsWants};

use blocks::{BLOCK, add_blocks, clear_blocks};
pub use laws::wants_are_one;
use ranks::ranks_of;
pub use ranks::{Rank, rank_at, wants_of};
use std::alloc::Global;
use std::marker::Model;
pub use vt_outside::{Items, NoMemory};
pub use vt_pages::Geometry;

/// A page that a picture wants.
#[derive(Clone, Copy, Debug, PartialEq, Eq)]
pub struct Wanted {
    /// The index of the page.
    pub page: u32,
    /// How many pixels want it, at least one.
    pub pixels: u32,
}

/// A list of wanted pages.
pub type Wants = Items<Wanted>;

/// How many pixels want each page of a geometry. Contracts see the numbers, in the order of the pages' indexes.
#[derive(Drop)]
pub struct Counts {
    counts: Vec<u32>,
    // For each block of pages whether a pixel may want one of them.
    marks: Vec<bool>,
}

impl Model for Counts {
    ghost use Rattle.std.specs.Prelude.{ℕ, List};
    ghost use Rattle.vt_feedback.specs.Blocks.{AreMarked};

    ghost Value = { List ℕ };

    ghost view = { λ c. c.counts.items };

    ghost invariant = { λ c. AreMarked c.counts.items c.marks.items };
}

impl Counts {
    /// Counts of no pixels, one for each page of a geometry.
    pub fn new(alloc: Global, geometry: &Geometry) -> Result<Counts, NoMemory>
        ensures { IfOk result (λ c. c ≡ replicate (pages_of geometry.now) 0) }
    {
        let pages = geometry.page_count() as usize;
        let counts = Vec::from_elem(alloc, 0, pages)?;
        let marks = Vec::from_elem(alloc, false, (pages + BLOCK - 1) / BLOCK)?;
        Ok(Counts { counts, marks })
    }

    /// Sets each count to 0.
    pub fn clear(&mut self)
        ensures { self.new ≡ replicate (length self.old) 0 }
    {
        clear_blocks(self.counts.as_mut_slice(), self.marks.as_mut_slice());
    }

    /// Adds counts, of which there is one for each page. No sum may pass the type.
    pub fn merge(&mut self, counts: &[u32])
        requires lengths { length counts.now ≡ length self.old }
        requires room { (p : ℕ) → p < length self.old → slice_index self.old p + slice_index counts.now p < 2 ^ 32 }
        ensures length { length self.new ≡ length self.old }
        ensures sums { (p : ℕ) → slice_index self.new p ≡ slice_index self.old p + slice_index counts.now p }
    {
        add_blocks(
            self.counts.as_mut_slice(),
            self.marks.as_mut_slice(),
            counts,
        );
    }

    /// The wanted list: each page that a pixel wants once, with the number of its pixels. A coarser level comes first,
    /// then more pixels, then the smaller index.
    pub fn wanted(&self, alloc: Global, geometry: &Geometry) -> Result<Wants, NoMemory>
        requires { length self.now ≡ pages_of geometry.now }
        ensures { IfOk result (λ w. IsWants geometry.now (slice_index self.now) w.elements) }
    {
        let mut ranks = ranks_of(
            alloc,
            geometry,
            self.counts.as_slice(),
            self.marks.as_slice(),
        )?;
        ranks.sort_unstable();
        wants_of(alloc, ranks.as_slice())
    }
}
