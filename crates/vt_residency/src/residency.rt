//! Which pages have frames, which loads are under way, and which are added next.

ghost use Rattle.std.specs.Prelude.{◌≡◌, ℕ, ◌+◌, ◌-◌, ◌<◌, ◌≤◌, ◌^◌, ◌++◌, [], length, map, IfOk, OnOk, OnErr, MatchOption, None, slice_index};
ghost use Rattle.std.specs.Bool.{MatchBool};
ghost use Rattle.std.specs.List.{All, range_with_len};
ghost use Rattle.vt_residency.specs.Levels.{IsLevelTable, HasLevelLength};
ghost use Rattle.vt_pages.specs.Limits.{most_frames};
ghost use Rattle.vt_pages.specs.Pages.{IsWithinLimits, pages_of, pages_below, levels_of};
ghost use Rattle.vt_pages.specs.Lookups.{lookup};
ghost use Rattle.vt_evict.specs.Missing.{has_frame};
ghost use Rattle.vt_plan.specs.Views.{IsRecencyTable, free_frames};
ghost use Rattle.vt_evict.specs.Batches.{IsLawfulBatch, read_entries};
ghost use Rattle.vt_residency.specs.Places.{IsPlaceOf};
ghost use Rattle.vt_residency.specs.Needs.{state_for};
ghost use Rattle.vt_residency.specs.Tallies.{IsTally, pixels_of, one_pixel};
ghost use Rattle.vt_residency.specs.Residencies.{IsPlanned, IsPassed, IsResidencyKept, IsCommitted, IsInfo, first_residency, pinned_at, has_not_come, is_over};

use crate::changes::change_count;
use crate::feedback::{Listed, add_counts, add_listed, add_pages};
use crate::levels::put_level;
use crate::loads::{add_apart, unmarked};
use crate::needs::{count_needed, put_states};
use crate::places::{Place, find};
use crate::tally::Tally;
use std::alloc::Global;
use std::marker::Model;
use vt_evict::{Batch, Losses, Planned, Recency};
use vt_outside::NoMemory;
use vt_pages::Geometry;

/// The numbers of a residency: its pages, the frames that no page has, the loads under way, and the changes of the last settling.
#[repr(C)]
#[derive(Clone, Copy)]
pub struct Info {
    pub pages: u32,
    pub free: u32,
    pub loads: u32,
    pub changes: u32,
}

/// The pages that have frames, the loads that are under way, and those that came by the last settling.
#[derive(Drop)]
pub struct Residency {
    geometry: Geometry,
    recency: Recency,
    tally: Tally,
    loads: Batch,
    came: Batch,
}

impl Model for Residency {
    ghost use Rattle.vt_residency.specs.Residencies.{ResidencyView, IsResidency};

    ghost Value = { ResidencyView };

    ghost view = { λ a. record { table = a.recency; loads = a.loads.elements; came = a.came.elements } };

    ghost invariant = { λ a. IsResidency a.geometry a.recency a.tally.counts.items a.tally.pages a.loads.elements a.came.elements };
}

// Takes what was gathered of the pixels, and adds to the loads what is planned for it.
fn plan_on(
    alloc: Global,
    geometry: &Geometry,
    tally: &mut Tally,
    recency: &mut Recency,
    loads: &mut Batch,
    q: u32,
) -> Result<(), NoMemory>
    requires shape { recency.old.shape ≡ geometry.now }
    requires table { IsRecencyTable recency.old }
    requires tally { IsTally (pages_of geometry.now) tally.old.counts.items tally.old.pages }
    requires lawful { IsLawfulBatch recency.old loads.old.elements }
    ensures planned { OnOk result (IsPlanned geometry.now recency.old loads.old.elements (slice_index tally.old.counts.items) q
        recency.new loads.new.elements) }
    ensures loads { OnErr result (loads.new.elements ≡ loads.old.elements) }
    ensures shape { recency.new.shape ≡ recency.old.shape }
    ensures entries { recency.new.entries ≡ recency.old.entries }
    ensures table { IsRecencyTable recency.new }
    ensures tally { IsTally (pages_of geometry.now) tally.new.counts.items tally.new.pages }
    ensures none { tally.new.pages.elements ≡ [] }
    ensures lawful { IsLawfulBatch recency.new loads.new.elements }
    ensures few { length loads.new.elements ≤ most_frames }
{
    let _table = recency.entries().len();
    let wants = tally.take_wanted(alloc, geometry)?;
    recency.touch(&wants);
    let plan = recency.plan(alloc, &wants, q)?;
    loads.reserve(plan.len() as u64)?;
    add_apart(loads, plan.slice());
    Ok(())
}

// The pinned pages, as loads that have come.
fn pinned_loads(alloc: Global, geometry: &Geometry, pinned: u32) -> Result<Batch, NoMemory>
    requires { pinned ≤ pages_of geometry.now }
    ensures { IfOk result (λ b. b.elements ≡ map (pinned_at geometry.now pinned) (range_with_len 0 pinned)) }
{
    let first = geometry.page_count() - pinned;
    let mut came = Batch::new(alloc);
    came.reserve(pinned as u64)?;
    for i in 0..pinned {
        came.push(Planned {
            page: first + i,
            frame: i,
            victim: None,
        });
    }
    Ok(came)
}

// Marks the loads that did not come, by a number for each.
fn not_come(alloc: Global, states: &[u8]) -> Result<Losses, NoMemory>
    ensures { IfOk result (λ l. l.elements ≡ map has_not_come states.now) }
{
    let mut marks = Losses::new(alloc);
    marks.reserve(states.len() as u64)?;
    for state in states {
        marks.push(*state != 0);
    }
    Ok(marks)
}

// Marks the loads that are not under way any more, by a number for each.
fn over(alloc: Global, states: &[u8]) -> Result<Losses, NoMemory>
    ensures { IfOk result (λ l. l.elements ≡ map is_over states.now) }
{
    let mut marks = Losses::new(alloc);
    marks.reserve(states.len() as u64)?;
    for state in states {
        marks.push(*state != 2);
    }
    Ok(marks)
}

impl Residency {
    /// The residency of so many frames in which the last so many pages are pinned.
    pub fn new(
        alloc: Global,
        geometry: &Geometry,
        frames: u32,
        pinned: u32,
    ) -> Result<Residency, NoMemory>
        requires most_frames { frames ≤ most_frames }
        requires some_pinned { 1 ≤ pinned }
        requires enough_frames { pinned ≤ frames }
        requires enough_pages { pinned ≤ pages_of geometry.now }
        ensures first { IfOk result (λ r. r ≡ first_residency geometry.now frames pinned) }
    {
        let recency = Recency::new(alloc, geometry, frames, pinned)?;
        let tally = Tally::new(alloc, geometry)?;
        let came = pinned_loads(alloc, geometry, pinned)?;
        Ok(Residency {
            geometry: *geometry,
            recency,
            tally,
            loads: Batch::new(alloc),
            came,
        })
    }

    /// How many pages there are.
    pub fn page_count(&self) -> u32
        ensures { result ≡ pages_of self.now.table.shape }
    {
        self.geometry.page_count()
    }

    /// The numbers of the residency.
    pub fn info(&self) -> Info
        ensures { IsInfo self.now result }
    {
        let changes = change_count(self.came.slice());
        Info {
            pages: self.geometry.page_count(),
            free: self.recency.free_count() as u32,
            loads: self.loads.len() as u32,
            changes: changes as u32,
        }
    }

    /// Takes the number of pixels that want each page, and plans for them with at most `q` entries.
    pub fn pass_counts(&mut self, alloc: Global, pixels: &[u32], q: u32) -> Result<(), NoMemory>
        requires { length pixels.now ≡ pages_of self.old.table.shape }
        ensures passed { OnOk result (IsPassed self.old (slice_index pixels.now) q self.new) }
        ensures kept { OnErr result (IsResidencyKept self.old self.new) }
    {
        let pages = self.geometry.page_count();
        add_counts(&mut self.tally, pages, pixels);
        plan_on(
            alloc,
            &self.geometry,
            &mut self.tally,
            &mut self.recency,
            &mut self.loads,
            q,
        )
    }

    /// Takes a list of wanted pages with their numbers of pixels, and plans for them with at most `q` entries.
    pub fn pass_listed(&mut self, alloc: Global, list: &[Listed], q: u32) -> Result<(), NoMemory>
        requires { All (λ w. w.page < pages_of self.old.table.shape) list.now }
        ensures passed { OnOk result (IsPassed self.old (pixels_of list.now) q self.new) }
        ensures kept { OnErr result (IsResidencyKept self.old self.new) }
    {
        let pages = self.geometry.page_count();
        add_listed(&mut self.tally, pages, list);
        plan_on(
            alloc,
            &self.geometry,
            &mut self.tally,
            &mut self.recency,
            &mut self.loads,
            q,
        )
    }

    /// Takes a list of pages, each wanted by one pixel, and plans for them with at most `q` entries.
    pub fn pass_pages(&mut self, alloc: Global, list: &[u32], q: u32) -> Result<(), NoMemory>
        ensures passed { OnOk result (IsPassed self.old (pixels_of (map one_pixel list.now)) q self.new) }
        ensures kept { OnErr result (IsResidencyKept self.old self.new) }
    {
        let pages = self.geometry.page_count();
        add_pages(&mut self.tally, pages, list);
        plan_on(
            alloc,
            &self.geometry,
            &mut self.tally,
            &mut self.recency,
            &mut self.loads,
            q,
        )
    }

    /// The loads that are under way, those of the last pass last.
    pub fn loads(&self) -> &[Planned]
        ensures loads { result.now ≡ self.now.loads }
        ensures few { length result.now < 2 ^ 31 }
    {
        self.loads.slice()
    }

    /// The loads that came by the last settling.
    pub fn came(&self) -> &[Planned]
        ensures loads { result.now ≡ self.now.came }
        ensures few { length result.now < 2 ^ 31 }
    {
        self.came.slice()
    }

    /// Writes a number for each load that is under way, as `settle` takes them: 2 where one of a list of wanted pages needs its page,
    /// which is then in that page's line, and 1 where none does. What is no page needs none. It takes no memory.
    pub fn put_needs(&mut self, wanted: &[u32], states: &mut [u8])
        requires { length states.old ≡ length self.old.loads }
        ensures same { self.new ≡ self.old }
        ensures states { states.new ≡ map (state_for self.old.table.shape wanted.now) self.old.loads }
    {
        let pages = self.geometry.page_count();
        count_needed(&mut self.tally, &self.geometry, wanted);
        put_states(self.loads.slice(), &self.tally, pages, states);
        self.tally.clear(pages);
    }

    /// The look-up of a page.
    pub fn find(&self, page: u32) -> Place
        requires { page < pages_of self.now.table.shape }
        ensures { IsPlaceOf self.now.table.shape self.now.table.entries page result }
    {
        let _pages = self.geometry.page_count();
        match find(&self.geometry, self.recency.entries(), page) {
            Some(place) => place,
            None => unreachable!(),
        }
    }

    /// Writes the entries of a level's pages, for each 0 where it is unmapped, else its frame and 1, to a list that is as long as the
    /// level has pages; otherwise changes nothing.
    pub fn put_level(&self, level: u32, out: &mut [u32]) -> bool
        ensures table { MatchBool result (IsLevelTable self.now.table.shape self.now.table.entries level out.new)
            ((out.new ≡ out.old) × (HasLevelLength self.now.table.shape level (length out.old) → ⊥)) }
        ensures long { length out.new ≡ length out.old }
    {
        put_level(&self.geometry, self.recency.entries(), level, out)
    }

    /// Settles the loads that are under way by a number for each: 0 for one that came, 2 for one that is still under way, and any other
    /// for one that was lost.
    pub fn settle(self, alloc: Global, states: &[u8]) -> Result<Residency, NoMemory>
        requires { length states.now ≡ length self.loads }
        ensures { IfOk result (λ r. IsCommitted self states.now r) }
    {
        let not_come = not_come(alloc, states)?;
        let over = over(alloc, states)?;
        let Residency {
            geometry,
            mut recency,
            tally,
            loads,
            came: _,
        } = self;
        let came = unmarked(alloc, &loads, &not_come)?;
        let left = unmarked(alloc, &loads, &over)?;
        recency.settle(&loads, &not_come)?;
        Ok(Residency {
            geometry,
            recency,
            tally,
            loads: left,
            came,
        })
    }
}
