//! A place for a residency, which C keeps in memory of its own.

ghost use Rattle.std.specs.Prelude.{◌≡◌, map, None, slice_index};
ghost use Rattle.std.specs.Bool.{MatchBool};
ghost use Rattle.vt_residency.specs.Tallies.{pixels_of, one_pixel};
ghost use Rattle.vtex_c.specs.Caches.{AreFrameCounts, IsCacheOpened, IsPassedBy, AreCounts, AreListed, ArePages, IsListed, AreStates, IsSettledBy, AreChanges, IsLookedUp, IsLevelListed, IsInfoAnswer, IsClosed};

use crate::shape::{VtexShape, geometry_of};
use crate::{BAD_NUMBER, BAD_SHAPE, CLOSED, DONE, NO_MEMORY};
use std::alloc::Global;
use vt_pages::Geometry;
use vt_residency::{
    Change, Info, Listed, Load, Place, Residency, are_pages, are_pages_or_none, put_changes,
    put_loads,
};

/// A place for a residency.
#[derive(Drop)]
pub struct Cache {
    pub alloc: Global,
    pub inner: Option<Residency>,
}

/// A place without a residency.
pub fn empty(alloc: Global) -> Cache
    ensures { result ≡ record { alloc = alloc; inner = None } }
{
    Cache { alloc, inner: None }
}

// Whether a residency may have so many frames and so many pinned pages.
fn are_frames(geometry: &Geometry, frames: u32, pinned: u32) -> bool
    ensures { MatchBool result (AreFrameCounts geometry.now frames pinned) (AreFrameCounts geometry.now frames pinned → ⊥) }
{
    let pages = geometry.page_count();
    frames <= 65535 && (1 <= pinned && (pinned <= frames && pinned <= pages))
}

/// Opens a residency, in place of the one that there is.
pub fn open(cache: &mut Cache, shape: &VtexShape, frames: u32, pinned: u32) -> u32
    ensures { IsCacheOpened cache.old shape.now frames pinned result cache.new }
{
    let Some(geometry) = geometry_of(shape) else {
        return BAD_SHAPE;
    };
    if !are_frames(&geometry, frames, pinned) {
        return BAD_NUMBER;
    }
    match Residency::new(cache.alloc, &geometry, frames, pinned) {
        Ok(residency) => {
            cache.inner = Some(residency);
            DONE
        }
        Err(_) => NO_MEMORY,
    }
}

/// Takes the number of pixels that want each page, and plans for them with at most `q` entries.
pub fn pass_counts(cache: &mut Cache, pixels: &[u32], q: u32) -> u32
    ensures { IsPassedBy cache.old (slice_index pixels.now) (AreCounts pixels.now) q result cache.new }
{
    let alloc = cache.alloc;
    match &mut cache.inner {
        None => CLOSED,
        Some(residency) => {
            if pixels.len() != residency.page_count() as usize {
                return BAD_NUMBER;
            }
            match residency.pass_counts(alloc, pixels, q) {
                Ok(()) => DONE,
                Err(_) => NO_MEMORY,
            }
        }
    }
}

/// Takes a list of wanted pages with their numbers of pixels, and plans for them with at most `q` entries.
pub fn pass_wanted(cache: &mut Cache, list: &[Listed], q: u32) -> u32
    ensures { IsPassedBy cache.old (pixels_of list.now) (AreListed list.now) q result cache.new }
{
    let alloc = cache.alloc;
    match &mut cache.inner {
        None => CLOSED,
        Some(residency) => {
            if !are_pages(list, residency.page_count()) {
                return BAD_NUMBER;
            }
            match residency.pass_listed(alloc, list, q) {
                Ok(()) => DONE,
                Err(_) => NO_MEMORY,
            }
        }
    }
}

/// Takes a list of pages, each wanted by one pixel, and plans for them with at most `q` entries.
pub fn pass_pages(cache: &mut Cache, list: &[u32], q: u32) -> u32
    ensures { IsPassedBy cache.old (pixels_of (map one_pixel list.now)) (ArePages list.now) q result cache.new }
{
    let alloc = cache.alloc;
    match &mut cache.inner {
        None => CLOSED,
        Some(residency) => {
            if !are_pages_or_none(list, residency.page_count()) {
                return BAD_NUMBER;
            }
            match residency.pass_pages(alloc, list, q) {
                Ok(()) => DONE,
                Err(_) => NO_MEMORY,
            }
        }
    }
}

/// Writes the loads that are under way to the front of a list with room for them, and answers how many they are.
pub fn loads(cache: &mut Cache, out: &mut [Load]) -> u32
    ensures { IsListed cache.old out.old result out.new cache.new }
{
    match &cache.inner {
        None => 0,
        Some(residency) => put_loads(residency.loads(), out),
    }
}

/// Writes a byte for each load that is under way, as `settle` takes them: 2 where a wanted page needs it, and 1 where none does.
pub fn stale_loads(cache: &mut Cache, wanted: &[u32], states: &mut [u8]) -> u32
    ensures { AreStates cache.old wanted.now states.old result states.new cache.new }
{
    match &mut cache.inner {
        None => CLOSED,
        Some(residency) => {
            if states.len() != residency.loads().len() {
                return BAD_NUMBER;
            }
            if !are_pages_or_none(wanted, residency.page_count()) {
                return BAD_NUMBER;
            }
            residency.put_needs(wanted, states);
            DONE
        }
    }
}

/// Settles the loads that are under way, of which `states` has a byte for each.
pub fn settle(cache: &mut Cache, states: &[u8]) -> u32
    ensures { IsSettledBy cache.old states.now result cache.new }
{
    let alloc = cache.alloc;
    let Some(residency) = cache.inner.take() else {
        return CLOSED;
    };
    if states.len() != residency.loads().len() {
        cache.inner = Some(residency);
        return BAD_NUMBER;
    }
    match residency.settle(alloc, states) {
        Ok(next) => {
            cache.inner = Some(next);
            DONE
        }
        Err(_) => NO_MEMORY,
    }
}

/// Writes the changes of the last settling to the front of a list with room for them, and answers how many they are.
pub fn changes(cache: &mut Cache, out: &mut [Change]) -> u32
    ensures { AreChanges cache.old out.old result out.new cache.new }
{
    match &cache.inner {
        None => 0,
        Some(residency) => put_changes(residency.came(), out),
    }
}

/// Looks a page up: the first page of its line that has a frame.
pub fn look_up(cache: &mut Cache, page: u32, found: &mut Place) -> u32
    ensures { IsLookedUp cache.old page found.old result found.new cache.new }
{
    match &cache.inner {
        None => CLOSED,
        Some(residency) => {
            if page >= residency.page_count() {
                return BAD_NUMBER;
            }
            *found = residency.find(page);
            DONE
        }
    }
}

/// Writes the entries of a level's pages to a list of as many.
pub fn table(cache: &mut Cache, level: u32, out: &mut [u32]) -> u32
    ensures { IsLevelListed cache.old level out.old result out.new cache.new }
{
    match &cache.inner {
        None => CLOSED,
        Some(residency) => {
            if residency.put_level(level, out) {
                DONE
            } else {
                BAD_NUMBER
            }
        }
    }
}

/// Tells the numbers of the residency.
pub fn info(cache: &mut Cache, told: &mut Info) -> u32
    ensures { IsInfoAnswer cache.old told.old result told.new cache.new }
{
    match &cache.inner {
        None => CLOSED,
        Some(residency) => {
            *told = residency.info();
            DONE
        }
    }
}

/// Gives up the residency.
pub fn close(cache: &mut Cache) -> u32
    ensures { IsClosed cache.old result cache.new }
{
    cache.inner = None;
    DONE
}
