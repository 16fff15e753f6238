//! The recency of mapped pages.

ghost use Rattle.std.specs.Prelude.{◌≡◌, ℕ, ◌+◌, ◌-◌, ◌<◌, ◌≤◌, ◌&&◌, ◌||◌, if◌then◌else◌, not, nat_eq, nat_le, nat_lt, count_by, replicate, ◌++◌, length, IfOk, OnOk};
ghost use Rattle.std.specs.List.{All, range_with_len};
ghost use Rattle.vt_plan.specs.Limits.{most_frames};
ghost use Rattle.vt_plan.specs.Pages.{pages_of};
ghost use Rattle.vt_plan.specs.PageLists.{is_in};
ghost use Rattle.vt_plan.specs.Views.{IsRecencyTable, first_view, free_frames, touched, pages_needed};
ghost use Rattle.vt_evict.specs.Batches.{IsLawfulBatch, IsLawfulEntry, IsSettledByReads, read_entries};
ghost use Rattle.vt_evict.specs.Kept.{applied, HasTakenFrames};
ghost use Rattle.vt_plan.specs.Plans.{plan_of, plan_by};

use crate::lines::{Walk, lines_of, walk_lines};
use crate::orders::{insert, put_first, remove};
use lru::LruCache;
use std::alloc::Global;
use std::collections::BTreeSet;
use std::marker::Model;
use vt_outside::NoMemory;
use vt_plan::{Batch, Geometry, Losses, Planned, Wants, missing_of, put_victims, with_free};

/// A table that maps pages to frames, with the recency of its mapped pages. Contracts see the table, and the unpinned
/// mapped pages, the most recently used first.
#[derive(Drop)]
pub struct Recency {
    geometry: Geometry,
    frames: u32,
    pinned: u32,
    entries: Vec<u32>,
    free: BTreeSet<u32>,
    order: LruCache<u32, ()>,
    walk: Walk,
}

impl Model for Recency {
    ghost use Rattle.std.specs.Map.{keys_of};
    ghost use Rattle.vt_plan.specs.Views.{RecencyView};
    ghost use Rattle.vt_evict.specs.Kept.{IsRecencyKept};

    ghost Value = { RecencyView };

    ghost view = { λ a. record {
      shape = a.geometry;
      frames = a.frames;
      pinned = a.pinned;
      entries = a.entries.items;
      order = keys_of a.order.entries;
    } };

    ghost invariant = { λ a. IsRecencyKept
        (record { shape = a.geometry; frames = a.frames; pinned = a.pinned; entries = a.entries.items; order = keys_of a.order.entries })
        a.free.keys a.order.cap a.walk.marks.items a.walk.walked };
}

impl Recency {
    /// The table of so many frames in which the last so many pages are mapped, in the order of their indexes, to the
    /// first frames. The pinned pages are at least one and at most the frames.
    pub fn new(
        alloc: Global,
        geometry: &Geometry,
        frames: u32,
        pinned: u32,
    ) -> Result<Recency, NoMemory>
        requires most_frames { frames ≤ most_frames }
        requires some_pinned { 1 ≤ pinned }
        requires enough_frames { pinned ≤ frames }
        requires enough_pages { pinned ≤ pages_of geometry.now }
        ensures first { IfOk result (λ r. r ≡ first_view geometry.now frames pinned) }
        ensures shape { IfOk result (λ r. r.shape ≡ geometry.now) }
        ensures table { IfOk result IsRecencyTable }
    {
        let entries = first_entries(alloc, geometry.page_count(), pinned)?;
        let free = frames_from(alloc, pinned, frames)?;
        let order = LruCache::unbounded(alloc)?;
        let walk = Walk::new(alloc, geometry)?;
        Ok(Recency {
            geometry: *geometry,
            frames,
            pinned,
            entries,
            free,
            order,
            walk,
        })
    }

    /// Applies the entries of a batch that were not lost: their victims are unmapped, and their pages mapped. These
    /// become the most recent pages, the first of the batch before the others. After a refusal the value can only be
    /// dropped.
    pub fn settle(&mut self, batch: &Batch, lost: &Losses) -> Result<(), NoMemory>
        requires lawful { IsLawfulBatch self.old batch.now.elements }
        requires lost_for_all { length lost.now.elements ≡ length batch.now.elements }
        ensures settled { OnOk result (IsSettledByReads self.old (read_entries batch.now.elements lost.now.elements) self.new) }
        ensures table { OnOk result (IsRecencyTable self.new) }
    {
        let _frames = self.frames();
        let mut left = batch.len();
        while left > 0 {
            left -= 1;
            let is_lost = *lost.at(left);
            self.apply_unless(is_lost, batch.at(left))?;
        }
        Ok(())
    }

    /// The entries of the table: for each page 0 where it is unmapped, else its frame and 1.
    pub fn entries(&self) -> &[u32]
        ensures entries { result.now ≡ self.now.entries }
        ensures table { IsRecencyTable self.now }
    {
        let _frames = self.frames();
        self.entries.as_slice()
    }

    /// How many frames no page has.
    pub fn free_count(&self) -> usize
        ensures { result ≡ length (free_frames self.now) }
    {
        self.free.len()
    }

    // The number of frames.
    fn frames(&self) -> u32
        ensures frames { result ≡ self.now.frames }
        ensures table { IsRecencyTable self.now }
    {
        self.frames
    }

    // Applies an entry whose tile was not lost.
    fn apply_unless(&mut self, lost: bool, planned: &Planned) -> Result<(), NoMemory>
        requires { IsLawfulEntry self.old planned.now }
        ensures applied { OnOk result (self.new ≡ (if lost then self.old else applied self.old planned.now)) }
        ensures table { OnOk result (IsRecencyTable self.new) }
    {
        let _frames = self.frames();
        if lost {
            return Ok(());
        }
        self.apply(planned)
    }

    // Unmaps an entry's victim and maps its page, which becomes the most recent one.
    fn apply(&mut self, planned: &Planned) -> Result<(), NoMemory>
        requires { IsLawfulEntry self.old planned.now }
        ensures applied { OnOk result (self.new ≡ applied self.old planned.now) }
        ensures table { OnOk result (IsRecencyTable self.new) }
    {
        let planned = *planned;
        insert(&mut self.order, planned.page)?;
        match planned.victim {
            Some(victim) => {
                remove(&mut self.order, victim);
                self.entries[victim as usize] = 0;
                self.entries[planned.page as usize] = planned.frame + 1;
                Ok(())
            }
            None => {
                take_frame(&mut self.free, planned.frame);
                self.entries[planned.page as usize] = planned.frame + 1;
                Ok(())
            }
        }
    }

    /// Makes the unpinned mapped pages in the lines of a wanted list the most recent ones: those of an earlier wanted
    /// page before those of a later one, and in a line the coarser before the finer.
    pub fn touch(&mut self, wants: &Wants)
        requires { All (λ w. w.page < pages_of self.old.shape) wants.now.elements }
        ensures touched { self.new ≡ touched self.old wants.now.elements }
        ensures table { IsRecencyTable self.new }
    {
        let pages = self.geometry.page_count();
        walk_lines(&self.geometry, &mut self.walk, wants);
        put_first(
            self.entries.as_slice(),
            pages,
            pages - self.pinned,
            &mut self.walk,
            &mut self.order,
        );
    }

    /// The plan for a wanted list, with at most `q` entries: the missing pages, of which each is the coarsest unmapped page
    /// below a wanted page's look-up, get the free frames and then those of the least recent pages that are in no line of
    /// a wanted page.
    pub fn plan(&self, alloc: Global, wants: &Wants, q: u32) -> Result<Batch, NoMemory>
        requires { All (λ w. w.page < pages_of self.now.shape) wants.now.elements }
        ensures plan { IfOk result (λ b. b.elements ≡ plan_of self.now wants.now.elements q) }
        ensures lawful { IfOk result (λ b. IsLawfulBatch self.now b.elements) }
        ensures most { IfOk result (λ b. length b.elements ≤ q) }
    {
        let asked = missing_of(alloc, &self.geometry, self.entries.as_slice(), wants)?;
        let missing = asked.as_slice();
        self.plan_by(alloc, wants, missing, q)
    }

    // The plan by its missing pages.
    fn plan_by(
        &self,
        alloc: Global,
        wants: &Wants,
        missing: &[u32],
        q: u32,
    ) -> Result<Batch, NoMemory>
        requires { All (λ w. w.page < pages_of self.now.shape) wants.now.elements }
        ensures { IfOk result (λ b. b.elements ≡ plan_by self.now wants.now.elements missing.now q) }
    {
        let most = missing.len().min(q as usize);
        let _ordered = self.free.len();
        let mut batch = with_free(alloc, missing, most, &self.free)?;
        self.put_taken(alloc, wants, missing, most, &mut batch)?;
        Ok(batch)
    }

    // Gives missing pages the frames of the least recent pages that are in no line of a wanted page, up to `most` entries.
    fn put_taken(
        &self,
        alloc: Global,
        wants: &Wants,
        missing: &[u32],
        most: usize,
        batch: &mut Batch,
    ) -> Result<(), NoMemory>
        requires inside { All (λ w. w.page < pages_of self.now.shape) wants.now.elements }
        requires enough { most ≤ length missing.now }
        requires room { most ≤ batch.old.spare + length batch.old.elements }
        ensures { OnOk result (HasTakenFrames self.now wants.now.elements missing.now most batch.old.elements batch.new.elements) }
    {
        if batch.len() >= most {
            return Ok(());
        }
        let kept = lines_of(alloc, &self.geometry, wants)?;
        let entries = self.entries.as_slice();
        put_victims(batch, missing, most, &kept, entries, &self.order);
        Ok(())
    }

    /// How many unpinned pages are in the lines of a wanted list.
    pub fn needed(&self, alloc: Global, wants: &Wants) -> Result<u32, NoMemory>
        requires { All (λ w. w.page < pages_of self.now.shape) wants.now.elements }
        ensures { IfOk result (λ n. n ≡ pages_needed self.now wants.now.elements) }
    {
        let unpinned = self.geometry.page_count() - self.pinned;
        let pages = lines_of(alloc, &self.geometry, wants)?;
        let needed = count_below(pages.as_slice(), unpinned);
        Ok(needed as u32)
    }
}

// The entries of a table in which only the last so many pages are mapped, to the first frames.
fn first_entries(alloc: Global, pages: u32, pinned: u32) -> Result<Vec<u32>, NoMemory>
    requires { pinned ≤ pages }
    ensures { IfOk result (λ v. v.items ≡ replicate (pages - pinned) 0 ++ range_with_len 1 pinned) }
{
    let mut entries = Vec::from_elem(alloc, 0, (pages - pinned) as usize)?;
    put_frames(&mut entries, pinned)?;
    Ok(entries)
}

// Maps so many more pages, to the first frames.
fn put_frames(entries: &mut Vec<u32>, pinned: u32) -> Result<(), NoMemory>
    ensures { OnOk result (entries.new.items ≡ entries.old.items ++ range_with_len 1 pinned) }
{
    for i in 0..pinned {
        entries.push(i + 1)?;
    }
    Ok(())
}

// The frames from one on.
fn frames_from(alloc: Global, first: u32, frames: u32) -> Result<BTreeSet<u32>, NoMemory>
    requires { first ≤ frames }
    ensures { IfOk result (λ s. (f : ℕ) → is_in s.keys f ≡ (nat_le first f && nat_lt f frames)) }
{
    let mut free = BTreeSet::new(alloc);
    for frame in first..frames {
        put_frame(&mut free, frame)?;
    }
    Ok(free)
}

// How many of some pages are below a bound.
fn count_below(pages: &[u32], bound: u32) -> usize
    ensures { result ≡ count_by (λ p. nat_lt p bound) pages.now }
{
    pages.iter().filter(|page| **page < bound).count()
}

// Puts a frame among the free ones.
fn put_frame(free: &mut BTreeSet<u32>, frame: u32) -> Result<(), NoMemory>
    ensures { OnOk result ((f : ℕ) → is_in free.new.keys f ≡ (is_in free.old.keys f || nat_eq frame f)) }
{
    free.insert(frame)?;
    Ok(())
}

// Takes a frame out of the free ones.
fn take_frame(free: &mut BTreeSet<u32>, frame: u32)
    ensures { (f : ℕ) → is_in free.new.keys f ≡ (is_in free.old.keys f && not (nat_eq frame f)) }
{
    free.remove(&frame);
}
