//! The page cache for engines in C and C++: the geometry of pages, where their tiles are in a store, which pages have frames and
//! which are loaded next. The calls are described in `include/vtex.h`.
#![tactic(auto)]

mod cache;
mod reader;
mod settle;
mod shape;
mod shared;
mod store;
mod table;

ghost use Rattle.std.specs.Prelude.{◌≡◌, ◌<◌, ◌≤◌, None, map, slice_index};
ghost use Rattle.std.specs.Borrow.{full_share, sem};
ghost use Rattle.std.specs.Mem.{type_size};
ghost use Rattle.std.specs.Ptr.{lies_at, room_at};
ghost use Rattle.vt_pages.specs.Laws.{IsInside};
ghost use Rattle.vt_pages.specs.Pages.{IsWithinLimits, levels_of, pages_of, parent_of, pinned_of, texel_page};
ghost use Rattle.vt_residency.specs.Tallies.{pixels_of, one_pixel};
ghost use Rattle.vtex_c.specs.contracts.cache.Cache.{the_row};
ghost use Rattle.vtex_c.specs.declared.cache.Cache.{Cache};
ghost use Rattle.vtex_c.specs.Caches.{IsCacheOpened, IsPassedBy, AreCounts, AreListed, ArePages, IsListed, AreStates, IsSettledBy, AreChanges, IsLookedUp, IsLevelListed, IsInfoAnswer, IsClosed};
ghost use Rattle.vtex_c.specs.Shapes.{IsShapeRefused, shape_in, page_in, IsLevelAnswer, IsNamed, IsPageAnswer};
ghost use Rattle.vtex_c.specs.Stores.{IsStoreOpened, IsTileFound};

use cache::Cache;
use shape::{VtexName, VtexShape, geometry_of, is_inside, is_page, name_of, page_name};
use std::alloc::Global;
use store::{VtexRange, VtexStore, find_tile, open_store};
use vt_residency::{Change, Info, Level, Listed, Load, NO_PAGE, Place, level_at};

// What the numbers mean by which calls are answered.
const DONE: u32 = 0;

const BAD_SHAPE: u32 = 1;

const BAD_NUMBER: u32 = 2;

const NO_MEMORY: u32 = 3;

const CLOSED: u32 = 4;

const BAD_STORE: u32 = 5;

const WAITING: u32 = 6;

const NOT_HELD: u32 = 7;

const BAD_ORDER: u32 = 8;

const NO_SEAT: u32 = 9;

/// The version of the library: 10000 times the major number, 100 times the minor one, and the patch.
#[unsafe(no_mangle)]
pub extern "C" fn vtex_version() -> u32
    ensures { result ≡ 10000 }
{
    10000
}

/// How many pages the chain of a shape has.
#[unsafe(no_mangle)]
pub extern "C" fn vtex_page_count(shape: &VtexShape, pages: &mut u32) -> u32
    ensures lawful { result ≡ 0 → IsWithinLimits (shape_in shape.now) }
    ensures pages { result ≡ 0 → pages.new ≡ pages_of (shape_in shape.now) }
    ensures refused { (result ≡ 0 → ⊥) → (result ≡ 1) × IsShapeRefused (shape_in shape.now) × (pages.new ≡ pages.old) }
{
    match geometry_of(shape) {
        Some(geometry) => {
            *pages = geometry.page_count();
            DONE
        }
        None => BAD_SHAPE,
    }
}

/// How many levels the chain of a shape has.
#[unsafe(no_mangle)]
pub extern "C" fn vtex_level_count(shape: &VtexShape, levels: &mut u32) -> u32
    ensures lawful { result ≡ 0 → IsWithinLimits (shape_in shape.now) }
    ensures levels { result ≡ 0 → levels.new ≡ levels_of (shape_in shape.now) }
    ensures refused { (result ≡ 0 → ⊥) → (result ≡ 1) × IsShapeRefused (shape_in shape.now) × (levels.new ≡ levels.old) }
{
    match geometry_of(shape) {
        Some(geometry) => {
            *levels = geometry.levels();
            DONE
        }
        None => BAD_SHAPE,
    }
}

/// The sides, the columns and rows of pages, and the first page of a level.
#[unsafe(no_mangle)]
pub extern "C" fn vtex_level(shape: &VtexShape, level: u32, told: &mut Level) -> u32
    ensures { IsLevelAnswer shape.now level told.old result told.new }
{
    let Some(geometry) = geometry_of(shape) else {
        return BAD_SHAPE;
    };
    if level >= geometry.levels() {
        return BAD_NUMBER;
    }
    *told = level_at(&geometry, level);
    DONE
}

/// The page of a texel.
#[unsafe(no_mangle)]
pub extern "C" fn vtex_page_of_texel(
    shape: &VtexShape,
    level: u32,
    x: u32,
    y: u32,
    page: &mut u32,
) -> u32
    ensures lawful { result ≡ 0 → IsWithinLimits (shape_in shape.now) }
    ensures page { result ≡ 0 → page.new ≡ texel_page (shape_in shape.now) level x y }
    ensures refused { result ≡ 1 → IsShapeRefused (shape_in shape.now) × (page.new ≡ page.old) }
    ensures inside { result ≡ 0 → IsInside (shape_in shape.now) level x y }
    ensures outside { result ≡ 2 → (IsInside (shape_in shape.now) level x y → ⊥) × (page.new ≡ page.old) }
    ensures statuses { result ≤ 2 }
{
    let Some(geometry) = geometry_of(shape) else {
        return BAD_SHAPE;
    };
    if !is_inside(&geometry, level, x, y) {
        return BAD_NUMBER;
    }
    *page = geometry.page_of_texel(level, x, y);
    DONE
}

/// The level, the column and the row of a page.
#[unsafe(no_mangle)]
pub extern "C" fn vtex_page_name(shape: &VtexShape, page: u32, name: &mut VtexName) -> u32
    ensures { IsNamed shape.now page name.old result name.new }
{
    let Some(geometry) = geometry_of(shape) else {
        return BAD_SHAPE;
    };
    if page >= geometry.page_count() {
        return BAD_NUMBER;
    }
    *name = name_of(&geometry.page_at(page));
    DONE
}

/// The page at a level, a column and a row.
#[unsafe(no_mangle)]
pub extern "C" fn vtex_page_at(shape: &VtexShape, name: &VtexName, page: &mut u32) -> u32
    ensures { IsPageAnswer shape.now name.now page.old result page.new }
{
    let Some(geometry) = geometry_of(shape) else {
        return BAD_SHAPE;
    };
    let name = page_name(name);
    if !is_page(&geometry, &name) {
        return BAD_NUMBER;
    }
    *page = geometry.index_of(&name);
    DONE
}

/// The page of the next coarser level over a page's place, or 4294967295 for the root.
#[unsafe(no_mangle)]
pub extern "C" fn vtex_parent(shape: &VtexShape, page: u32, parent: &mut u32) -> u32
    ensures lawful { result ≡ 0 → IsWithinLimits (shape_in shape.now) }
    ensures parent { result ≡ 0 → parent.new ≡ page_in (parent_of (shape_in shape.now) page) }
    ensures refused { result ≡ 1 → IsShapeRefused (shape_in shape.now) }
    ensures inside { result ≡ 0 → page < pages_of (shape_in shape.now) }
    ensures outside { result ≡ 2 → pages_of (shape_in shape.now) ≤ page }
    ensures kept { (result ≡ 0 → ⊥) → parent.new ≡ parent.old }
    ensures statuses { result ≤ 2 }
{
    let Some(geometry) = geometry_of(shape) else {
        return BAD_SHAPE;
    };
    if page >= geometry.page_count() {
        return BAD_NUMBER;
    }
    *parent = geometry.parent(page).unwrap_or(NO_PAGE);
    DONE
}

/// How many pages the last so many levels have, which are the last indexes.
#[unsafe(no_mangle)]
pub extern "C" fn vtex_pinned_count(shape: &VtexShape, levels: u32, pages: &mut u32) -> u32
    ensures lawful { result ≡ 0 → IsWithinLimits (shape_in shape.now) }
    ensures pages { result ≡ 0 → pages.new ≡ pinned_of (shape_in shape.now) levels }
    ensures refused { (result ≡ 0 → ⊥) → (result ≡ 1) × IsShapeRefused (shape_in shape.now) × (pages.new ≡ pages.old) }
{
    match geometry_of(shape) {
        Some(geometry) => {
            *pages = geometry.pinned_count(levels);
            DONE
        }
        None => BAD_SHAPE,
    }
}

/// The shape and the depth of a store of so many bytes, of which `head` is the first 16, or all where there are fewer.
#[unsafe(no_mangle)]
pub extern "C" fn vtex_store_open(head: &[u8], have: u64, store: &mut VtexStore) -> u32
    ensures { IsStoreOpened head.now have store.old result store.new }
{
    open_store(head, have, store)
}

/// Where the tile of a page is in a store.
#[unsafe(no_mangle)]
pub extern "C" fn vtex_store_tile(store: &VtexStore, page: u32, range: &mut VtexRange) -> u32
    ensures { IsTileFound store.now page range.old result range.new }
{
    find_tile(store, page, range)
}

/// A place for a cache, of which C knows the size only.
#[repr(C)]
pub struct VtexCache {
    opaque: u8,
}

/// How many bytes a place for a cache has. Its alignment is that of a pointer.
#[unsafe(no_mangle)]
pub extern "C" fn vtex_cache_size() -> usize
    ensures { result ≡ type_size the_row }
{
    std::mem::size_of::<Cache>()
}

/// Makes an empty cache of a place.
#[unsafe(no_mangle)]
pub unsafe extern "C" fn vtex_cache_init(at: *mut VtexCache, alloc: Global)
    requires* { sem 𝓛 (room_at the_row at) }
    ensures* { sem 𝓛 (lies_at the_row full_share at (record { alloc = alloc; inner = None })) }
{
    std::ptr::write(at as *mut Cache, cache::empty(alloc));
}

/// Opens a residency of a shape's pages, in place of the one that there is.
#[unsafe(no_mangle)]
pub unsafe extern "C" fn vtex_cache_open(
    at: *mut VtexCache,
    shape: &VtexShape,
    frames: u32,
    pinned: u32,
) -> u32
    ghost c: { Cache }
    requires* { sem 𝓛 (lies_at the_row full_share at c) }
    ensures* { ∃ₛ (λ (d : Cache). sem 𝓛 (lies_at the_row full_share at d) ∗ ⌜ IsCacheOpened c shape.now frames pinned result d ⌝) }
{
    cache::open(&mut *(at as *mut Cache), shape, frames, pinned)
}

/// Takes the number of pixels that want each page, and plans for them with at most `q` entries.
#[unsafe(no_mangle)]
pub unsafe extern "C" fn vtex_cache_pass_counts(at: *mut VtexCache, pixels: &[u32], q: u32) -> u32
    ghost c: { Cache }
    requires* { sem 𝓛 (lies_at the_row full_share at c) }
    ensures* { ∃ₛ (λ (d : Cache). sem 𝓛 (lies_at the_row full_share at d) ∗ ⌜ IsPassedBy c (slice_index pixels.now) (AreCounts pixels.now) q result d ⌝) }
{
    cache::pass_counts(&mut *(at as *mut Cache), pixels, q)
}

/// Takes a list of wanted pages with their numbers of pixels, and plans for them with at most `q` entries.
#[unsafe(no_mangle)]
pub unsafe extern "C" fn vtex_cache_pass_wanted(at: *mut VtexCache, list: &[Listed], q: u32) -> u32
    ghost c: { Cache }
    requires* { sem 𝓛 (lies_at the_row full_share at c) }
    ensures* { ∃ₛ (λ (d : Cache). sem 𝓛 (lies_at the_row full_share at d) ∗ ⌜ IsPassedBy c (pixels_of list.now) (AreListed list.now) q result d ⌝) }
{
    cache::pass_wanted(&mut *(at as *mut Cache), list, q)
}

/// Takes a list of pages, each wanted by one pixel, and plans for them with at most `q` entries.
#[unsafe(no_mangle)]
pub unsafe extern "C" fn vtex_cache_pass_pages(at: *mut VtexCache, list: &[u32], q: u32) -> u32
    ghost c: { Cache }
    requires* { sem 𝓛 (lies_at the_row full_share at c) }
    ensures* { ∃ₛ (λ (d : Cache). sem 𝓛 (lies_at the_row full_share at d) ∗ ⌜ IsPassedBy c (pixels_of (map one_pixel list.now)) (ArePages list.now) q result d ⌝) }
{
    cache::pass_pages(&mut *(at as *mut Cache), list, q)
}

/// Lists the loads that are under way, where there is room for all of them, and answers how many they are.
#[unsafe(no_mangle)]
pub unsafe extern "C" fn vtex_cache_loads(at: *mut VtexCache, out: &mut [Load]) -> u32
    ghost c: { Cache }
    requires* { sem 𝓛 (lies_at the_row full_share at c) }
    ensures* { ∃ₛ (λ (d : Cache). sem 𝓛 (lies_at the_row full_share at d) ∗ ⌜ IsListed c out.old result out.new d ⌝) }
{
    cache::loads(&mut *(at as *mut Cache), out)
}

/// Tells which loads under way no wanted page needs, by a byte for each as `vtex_cache_settle` takes it: 1 for such a load, else 2.
#[unsafe(no_mangle)]
pub unsafe extern "C" fn vtex_cache_stale_loads(
    at: *mut VtexCache,
    wanted: &[u32],
    states: &mut [u8],
) -> u32
    ghost c: { Cache }
    requires* { sem 𝓛 (lies_at the_row full_share at c) }
    ensures* { ∃ₛ (λ (d : Cache). sem 𝓛 (lies_at the_row full_share at d) ∗ ⌜ AreStates c wanted.now states.old result states.new d ⌝) }
{
    cache::stale_loads(&mut *(at as *mut Cache), wanted, states)
}

/// Settles the loads that are under way. `states` has a byte for each: 0 it came, 2 it is still under way, else it was lost.
#[unsafe(no_mangle)]
pub unsafe extern "C" fn vtex_cache_settle(at: *mut VtexCache, states: &[u8]) -> u32
    ghost c: { Cache }
    requires* { sem 𝓛 (lies_at the_row full_share at c) }
    ensures* { ∃ₛ (λ (d : Cache). sem 𝓛 (lies_at the_row full_share at d) ∗ ⌜ IsSettledBy c states.now result d ⌝) }
{
    cache::settle(&mut *(at as *mut Cache), states)
}

/// Lists the changes of the last settling, where there is room for all of them, and answers how many they are.
#[unsafe(no_mangle)]
pub unsafe extern "C" fn vtex_cache_changes(at: *mut VtexCache, out: &mut [Change]) -> u32
    ghost c: { Cache }
    requires* { sem 𝓛 (lies_at the_row full_share at c) }
    ensures* { ∃ₛ (λ (d : Cache). sem 𝓛 (lies_at the_row full_share at d) ∗ ⌜ AreChanges c out.old result out.new d ⌝) }
{
    cache::changes(&mut *(at as *mut Cache), out)
}

/// Looks a page up: the first page of its line that has a frame.
#[unsafe(no_mangle)]
pub unsafe extern "C" fn vtex_cache_look_up(at: *mut VtexCache, page: u32, found: &mut Place) -> u32
    ghost c: { Cache }
    requires* { sem 𝓛 (lies_at the_row full_share at c) }
    ensures* { ∃ₛ (λ (d : Cache). sem 𝓛 (lies_at the_row full_share at d) ∗ ⌜ IsLookedUp c page found.old result found.new d ⌝) }
{
    cache::look_up(&mut *(at as *mut Cache), page, found)
}

/// Writes the page table of a level: for each page 0 where it has no frame, else its frame and 1.
#[unsafe(no_mangle)]
pub unsafe extern "C" fn vtex_cache_table(at: *mut VtexCache, level: u32, out: &mut [u32]) -> u32
    ghost c: { Cache }
    requires* { sem 𝓛 (lies_at the_row full_share at c) }
    ensures* { ∃ₛ (λ (d : Cache). sem 𝓛 (lies_at the_row full_share at d) ∗ ⌜ IsLevelListed c level out.old result out.new d ⌝) }
{
    cache::table(&mut *(at as *mut Cache), level, out)
}

/// Tells how many pages there are, how many frames are free, how many loads are under way, and how many changes there were.
#[unsafe(no_mangle)]
pub unsafe extern "C" fn vtex_cache_info(at: *mut VtexCache, told: &mut Info) -> u32
    ghost c: { Cache }
    requires* { sem 𝓛 (lies_at the_row full_share at c) }
    ensures* { ∃ₛ (λ (d : Cache). sem 𝓛 (lies_at the_row full_share at d) ∗ ⌜ IsInfoAnswer c told.old result told.new d ⌝) }
{
    cache::info(&mut *(at as *mut Cache), told)
}

/// Gives up the residency. The place may then be forgotten.
#[unsafe(no_mangle)]
pub unsafe extern "C" fn vtex_cache_close(at: *mut VtexCache) -> u32
    ghost c: { Cache }
    requires* { sem 𝓛 (lies_at the_row full_share at c) }
    ensures* { ∃ₛ (λ (d : Cache). sem 𝓛 (lies_at the_row full_share at d) ∗ ⌜ IsClosed c result d ⌝) }
{
    cache::close(&mut *(at as *mut Cache))
}
