//! The parts of a plan.

ghost use Rattle.std.specs.Prelude.{◌≡◌, ◌+◌, ◌-◌, ◌<◌, ◌≤◌, false, not, min, if◌then◌else◌, ◌++◌, [], ◌∷◌, map, reverse, length, IfOk, OnOk, IfSome, IfNone, slice_index};
ghost use Rattle.std.specs.List.{All, filter, range_with_len};
ghost use Rattle.std.specs.Map.{keys_of};
ghost use Rattle.vt_feedback.specs.Pages.{IsWithinLimits, pages_of};
ghost use Rattle.vt_feedback.specs.Wants.{pages_wanted};
ghost use Rattle.vt_feedback.specs.Lookups.{next_finer_page as step_above};
ghost use Rattle.vt_plan.specs.PageLists.{is_in, with_page};
ghost use Rattle.vt_plan.specs.Missing.{has_frame, missing_from};
ghost use Rattle.vt_plan.specs.Entries.{freed_at, taken_at, taken_with};

use crate::batches::{Batch, Planned};
use indexmap::IndexSet;
use lru::{Iter, LruCache};
use std::alloc::Global;
use std::collections::BTreeSet;
use vt_feedback::{Geometry, NoMemory, Wants};

/// Adds a page unless it is there. After a refusal the set can only be dropped.
pub fn add_page(pages: &mut IndexSet<u32>, page: u32) -> Result<(), NoMemory>
    ensures { OnOk result (pages.new.keys ≡ with_page pages.old.keys page) }
{
    pages.insert(page)?;
    Ok(())
}

// The page just before an unmapped page's look-up, in its line.
fn next_finer_page(geometry: &Geometry, entries: &[u32], page: u32) -> u32
    requires limits { IsWithinLimits geometry.now }
    requires inside { page < pages_of geometry.now }
    requires entries { length entries.now ≡ pages_of geometry.now }
    requires unmapped { has_frame entries.now page ≡ false }
    ensures step { result ≡ step_above geometry.now (has_frame entries.now) page }
    ensures inside { result < pages_of geometry.now }
{
    match geometry.parent(page) {
        Some(parent) => {
            if entries[parent as usize] > 0 {
                page
            } else {
                next_finer_page(geometry, entries, parent)
            }
        }
        None => page,
    }
}

// Asks for the next finer page of a page that is unmapped, unless it was asked for.
fn ask(
    geometry: &Geometry,
    entries: &[u32],
    missing: &mut IndexSet<u32>,
    page: u32,
) -> Result<(), NoMemory>
    requires inside { page < pages_of geometry.now }
    requires entries { length entries.now ≡ pages_of geometry.now }
    ensures { OnOk result (missing.new.keys
        ≡ (if has_frame entries.now page then missing.old.keys
        else with_page missing.old.keys (step_above geometry.now (has_frame entries.now) page))) }
{
    let _limits = geometry.page_count();
    if entries[page as usize] > 0 {
        return Ok(());
    }
    add_page(missing, next_finer_page(geometry, entries, page))
}

/// The steps of the unmapped pages of a wanted list, each once at its first place.
pub fn missing_of(
    alloc: Global,
    geometry: &Geometry,
    entries: &[u32],
    wants: &Wants,
) -> Result<IndexSet<u32>, NoMemory>
    requires inside { All (λ w. w.page < pages_of geometry.now) wants.now.elements }
    requires entries { length entries.now ≡ pages_of geometry.now }
    ensures { IfOk result (λ m. m.keys ≡ missing_from geometry.now entries.now (pages_wanted wants.now.elements)) }
{
    let mut missing = IndexSet::new(alloc);
    let list = wants.slice();
    for want in list {
        ask(geometry, entries, &mut missing, want.page)?;
    }
    Ok(missing)
}

// Gives missing pages free frames, up to `most` entries.
fn put_free(batch: &mut Batch, missing: &[u32], most: usize, free: &BTreeSet<u32>)
    requires none { batch.old.elements ≡ [] }
    requires enough { most ≤ length missing.now }
    requires room { most ≤ batch.old.spare }
    ensures put { batch.new.elements
        ≡ map (freed_at missing.now free.now.keys) (range_with_len 0 (min most (length free.now.keys))) }
    ensures count { length batch.new.elements ≡ min most (length free.now.keys) }
    ensures room { most ≤ batch.new.spare + length batch.new.elements }
{
    for frame in free {
        let place = batch.len();
        if place == most {
            break;
        }
        batch.push(Planned {
            page: missing[place],
            frame: *frame,
            victim: None,
        });
    }
}

/// A batch with room for `most` entries, in which missing pages have the free frames.
pub fn with_free(
    alloc: Global,
    missing: &[u32],
    most: usize,
    free: &BTreeSet<u32>,
) -> Result<Batch, NoMemory>
    requires { most ≤ length missing.now }
    ensures put { IfOk result (λ b. b.elements
        ≡ map (freed_at missing.now free.now.keys) (range_with_len 0 (min most (length free.now.keys)))) }
    ensures count { IfOk result (λ b. length b.elements ≡ min most (length free.now.keys)) }
    ensures room { IfOk result (λ b. most ≤ b.spare + length b.elements) }
{
    let mut batch = Batch::new(alloc);
    batch.reserve(most as u64)?;
    put_free(&mut batch, missing, most, free);
    Ok(batch)
}

// Gives a missing page the frame of a page, unless that is one of the kept ones.
fn put_victim(
    batch: &mut Batch,
    missing: &[u32],
    kept: &IndexSet<u32>,
    entries: &[u32],
    victim: u32,
)
    requires enough { length batch.old.elements < length missing.now }
    requires room { 1 ≤ batch.old.spare }
    requires inside { victim < length entries.now }
    requires mapped { 0 < slice_index entries.now victim }
    ensures put { batch.new.elements
        ≡ (if is_in kept.now.keys victim then batch.old.elements
        else batch.old.elements ++ taken_with entries.now missing.now (length batch.old.elements) victim ∷ []) }
    ensures room { batch.old.spare + length batch.old.elements ≤ batch.new.spare + length batch.new.elements }
{
    if kept.contains(&victim) {
        return;
    }
    batch.push(Planned {
        page: missing[batch.len()],
        frame: entries[victim as usize] - 1,
        victim: Some(victim),
    });
}

// Takes the least recent page of those that are left.
fn take_oldest(rest: &mut Iter<'_, u32, ()>) -> Option<u32>
    ensures some { IfSome result (λ p. keys_of rest.old ≡ keys_of rest.new ++ p ∷ []) }
    ensures none { IfNone result (rest.old ≡ []) }
{
    match rest.next_back() {
        Some((page, _)) => Some(*page),
        None => None,
    }
}

/// Gives missing pages the frames of the least recent pages that are not among the kept ones, up to `most` entries.
pub fn put_victims(
    batch: &mut Batch,
    missing: &[u32],
    most: usize,
    kept: &IndexSet<u32>,
    entries: &[u32],
    order: &LruCache<u32, ()>,
)
    requires enough { most ≤ length missing.now }
    requires room { most ≤ batch.old.spare + length batch.old.elements }
    requires inside { All (λ p. p < length entries.now) (keys_of order.now.entries) }
    requires mapped { All (λ p. 0 < slice_index entries.now p) (keys_of order.now.entries) }
    ensures put { let victims = filter (λ p. not (is_in kept.now.keys p)) (reverse (keys_of order.now.entries)) in
        let before = length batch.old.elements in
        batch.new.elements ≡ batch.old.elements
        ++ map (taken_at entries.now missing.now victims before) (range_with_len 0 (min (most - before) (length victims))) }
{
    let mut rest = order.iter();
    for _ in 0..order.len() {
        if batch.len() >= most {
            break;
        }
        let Some(victim) = take_oldest(&mut rest) else {
            break;
        };
        put_victim(batch, missing, kept, entries, victim);
    }
}
