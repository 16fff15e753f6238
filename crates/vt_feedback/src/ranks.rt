//! The ranks by which std's sort puts wanted pages into their order.

ghost use Rattle.std.specs.Prelude.{◌≡◌, ℕ, ◌<◌, ◌≤◌, length, IfOk, OnOk, map, nat_lt, slice_index};
ghost use Rattle.vt_pages.specs.Pages.{pages_of};
ghost use Rattle.vt_feedback.specs.Blocks.{AreMarked};
ghost use Rattle.vt_feedback.specs.Ranks.{most_pixels, rank_of, ranks_below, wanted_by};

use crate::blocks::{BLOCK, block_end};
use crate::{Wanted, Wants};
use std::alloc::Global;
use vt_outside::NoMemory;
use vt_pages::Geometry;

/// The rank of a wanted page, which is less where the page is asked for earlier.
#[derive(Clone, Copy, PartialEq, Eq, PartialOrd, Ord)]
pub struct Rank {
    /// How many levels are coarser than the page's.
    pub fineness: u32,
    /// How far its pixels are below the most that the type has.
    pub rarity: u32,
    /// The index of the page.
    pub page: u32,
}

// Whether a pixel wants a page that so many pixels want.
fn is_wanted(pixels: u32) -> bool
    ensures { result ≡ nat_lt 0 pixels }
{
    pixels > 0
}

/// The rank of a page.
pub fn rank_at(geometry: &Geometry, counts: &[u32], page: u32) -> Rank
    requires pages { length counts.now ≡ pages_of geometry.now }
    requires inside { page < pages_of geometry.now }
    ensures { result ≡ rank_of geometry.now counts.now page }
{
    Rank {
        fineness: geometry.levels() - 1 - geometry.page_at(page).level,
        rarity: u32::MAX - counts[page as usize],
        page,
    }
}

// Adds the ranks of the pages from one on up to another that a pixel wants to those of the pages before them.
fn add_ranks(
    ranks: &mut Vec<Rank>,
    geometry: &Geometry,
    counts: &[u32],
    first: u32,
    end: u32,
) -> Result<(), NoMemory>
    requires pages { length counts.now ≡ pages_of geometry.now }
    requires order { first ≤ end }
    requires inside { end ≤ pages_of geometry.now }
    requires before { ranks.old.items ≡ ranks_below geometry.now counts.now first }
    ensures { OnOk result (ranks.new.items ≡ ranks_below geometry.now counts.now end) }
{
    for page in first..end {
        if is_wanted(counts[page as usize]) {
            ranks.push(rank_at(geometry, counts, page))?;
        }
    }
    Ok(())
}

/// The ranks of the pages that a pixel wants, by rising index. Blocks without a mark are passed over.
pub fn ranks_of(
    alloc: Global,
    geometry: &Geometry,
    counts: &[u32],
    marks: &[bool],
) -> Result<Vec<Rank>, NoMemory>
    requires pages { length counts.now ≡ pages_of geometry.now }
    requires marked { AreMarked counts.now marks.now }
    ensures ranks { IfOk result (λ r. r.items ≡ ranks_below geometry.now counts.now (length counts.now)) }
    ensures most { (p : ℕ) → slice_index counts.now p ≤ most_pixels }
{
    let mut ranks = Vec::new(alloc);
    let _pages = geometry.page_count();
    for block in 0..marks.len() {
        let first = block * BLOCK;
        if marks[block] {
            let end = block_end(first, counts.len());
            add_ranks(&mut ranks, geometry, counts, first as u32, end as u32)?;
        }
    }
    Ok(ranks)
}

/// The wanted pages of ranks, in their order.
pub fn wants_of(alloc: Global, ranks: &[Rank]) -> Result<Wants, NoMemory>
    ensures { IfOk result (λ w. w.elements ≡ map wanted_by ranks.now) }
{
    let mut wants = Wants::new(alloc);
    wants.reserve(ranks.len() as u64)?;
    for rank in ranks {
        wants.push(Wanted {
            page: rank.page,
            pixels: u32::MAX - rank.rarity,
        });
    }
    Ok(wants)
}
