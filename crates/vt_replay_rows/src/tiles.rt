//! A bounded set of tiles: each is read from the store when a row first needs it, in the room of the one that was used longest ago.

ghost use Rattle.std.specs.Prelude.{◌≡◌, ◌≢◌, ℕ, ◌+◌, ◌*◌, ◌<◌, ◌≤◌, ◌^◌, List, Option, Some, length, IfSome, IfOk, OnOk, MatchOption};
ghost use Rattle.vt_definitions.specs.Limits.{most_frame_texels};
ghost use Rattle.vt_definitions.specs.Depths.{IsDepth};
ghost use Rattle.vt_outside.specs.Counts.{Rose};
ghost use Rattle.vt_outside.specs.Files.{IsPiece};
ghost use Rattle.vt_pages.specs.Pages.{pages_of};
ghost use Rattle.vt_journal.specs.Changes.{with_entry};
ghost use Rattle.vt_journal.specs.Kept.{entries_of};
ghost use Rattle.vt_tiles.specs.Format.{tile_start, tile_length};
ghost use Rattle.vt_replay_rows.specs.Following.{IsReadOn};
ghost use Rattle.vt_replay_rows.specs.ReplayLookups.{bytes_row, IsIn, IsHeld, IsTileOf, AreTiles};

use crate::noted::Noted;
use lru::LruCache;
use std::alloc::Global;
use vt_outside::{File, NoMemory, OutsideError};
use vt_pages::Geometry;
use vt_tiles::{Store, tile_length};

/// A set of tiles.
#[derive(Drop)]
pub struct Tiles {
    /// How many bytes a tile has.
    pub size: usize,
    /// For each page 1 more than the slot where its tile may be, or 0.
    pub slots: Vec<u32>,
    /// For each slot 1 more than the page whose tile it has, or 0.
    pub owners: Vec<u32>,
    /// The tiles of the slots.
    pub bytes: Vec<u8>,
    // The slots that were filled, the most recently used first.
    order: LruCache<u32, ()>,
    // The pages whose tiles were used last, if no tile was brought since.
    last: Noted,
}

impl Tiles {
    /// The empty set with so many slots, of at most 8,388,608 texels together.
    pub fn new(
        alloc: Global,
        geometry: &Geometry,
        depth: u32,
        slots: u32,
    ) -> Result<Tiles, NoMemory>
        requires depth { IsDepth depth }
        requires some { 1 ≤ slots }
        requires few { slots * (geometry.now.tile * geometry.now.tile) ≤ most_frame_texels }
        ensures { IfOk result (λ t. (known : Option (List ℕ))
            → AreTiles geometry.now depth t.size t.slots.items t.owners.items t.bytes.items known) }
    {
        let size = tile_length(geometry, depth);
        let bytes = Vec::from_elem(alloc, 0, slots as usize * size)?;
        let owners = Vec::from_elem(alloc, 0, slots as usize)?;
        let slots = Vec::from_elem(alloc, 0, geometry.page_count() as usize)?;
        let order = LruCache::unbounded(alloc)?;
        Ok(Tiles {
            size,
            slots,
            owners,
            bytes,
            order,
            last: Noted::new(),
        })
    }

    /// The slot of a page's tile, if it is loaded.
    #[inline]
    pub(crate) fn slot_of(&self, page: u32) -> Option<u32>
        ensures slot { MatchOption result (IsHeld self.now.slots.items self.now.owners.items page → ⊥)
            (λ slot. IsIn self.now.slots.items self.now.owners.items page slot) }
        ensures inside { IfSome result (λ slot. slot < length self.now.owners.items) }
    {
        let slot = entry_at(self.slots.as_slice(), page)?;
        match entry_at(self.owners.as_slice(), slot) {
            Some(owner) if owner == page => Some(slot),
            _ => None,
        }
    }

    /// A page's tile, if it is loaded.
    #[inline]
    pub(crate) fn tile_of(&self, page: u32) -> Option<&[u8]>
        requires { length self.now.bytes.items ≡ length self.now.owners.items * self.now.size }
        ensures tile { MatchOption result (IsHeld self.now.slots.items self.now.owners.items page → ⊥)
            (λ tile. IsTileOf self.now.size self.now.slots.items self.now.owners.items self.now.bytes.items page tile.now) }
    {
        let slot = self.slot_of(page)?;
        let at = slot as usize * self.size;
        Some(&self.bytes[at..at + self.size])
    }
}

/// The entry at a place of numbers, of which each is 0 or one more than its entry.
#[inline]
pub(crate) fn entry_at(numbers: &[u32], at: u32) -> Option<u32>
    ensures entry { result ≡ entries_of numbers.now at }
    ensures inside { IfSome result (λ _. at < length numbers.now) }
{
    match numbers.get(at as usize) {
        Some(number) if *number > 0 => Some(*number - 1),
        _ => None,
    }
}

/// Writes an entry at a place of numbers.
pub(crate) fn put_entry(numbers: &mut [u32], at: u32, entry: u32)
    requires inside { at < length numbers.old }
    requires low { entry + 1 < 2 ^ 32 }
    ensures { entries_of numbers.new ≡ with_entry (entries_of numbers.old) at (Some entry) }
{
    numbers[at as usize] = entry + 1;
}

// Makes a slot the most recently used one.
fn promote(order: &mut LruCache<u32, ()>, slot: u32) {
    let _valid = order.len();
    order.promote(&slot);
}

// The slot that was used longest ago, if there is one.
fn oldest(order: &LruCache<u32, ()>) -> Option<u32> {
    let _valid = order.len();
    match order.peek_lru() {
        Some((slot, _)) => Some(*slot),
        None => None,
    }
}

// The slot that is filled next, which becomes the most recently used one: one that was never filled, while there is one.
fn next_slot(order: &mut LruCache<u32, ()>, slots: u32) -> Result<u32, NoMemory>
    requires { 1 ≤ slots }
    ensures { IfOk result (λ slot. slot < slots) }
{
    let filled = order.len();
    if filled < slots as usize {
        order.put(filled as u32, ())?;
        return Ok(filled as u32);
    }
    match oldest(order) {
        Some(slot) if slot < slots => {
            promote(order, slot);
            Ok(slot)
        }
        _ => Ok(0),
    }
}

// Reads the tile of a page.
fn read_page<F: File>(store: &mut Store<F>, page: u32, tile: &mut [u8]) -> Result<(), OutsideError>
    requires depth { IsDepth store.old.depth }
    requires size { length tile.old ≡ tile_length store.old.shape store.old.depth }
    requires page { page < pages_of store.old.shape }
    ensures tile { OnOk result (IfSome (F.bytes store.old.file)
        (λ b. IsPiece b (tile_start store.old.shape store.old.depth page) tile.new)) }
    ensures failed { result ≡ Err OutsideError.Failed → Rose (F.faults store.old.file) (F.faults store.new.file) }
    ensures read { IsReadOn F.File store.old store.new }
{
    store.reserve(1)?;
    Ok(store.read_tile(page, tile)?)
}

// Reads the tile of a page into a slot.
fn read_slot<F: File>(
    store: &mut Store<F>,
    page: u32,
    bytes: &mut [u8],
    slot: u32,
    size: usize,
    slots: usize,
) -> Result<(), OutsideError>
    requires depth { IsDepth store.old.depth }
    requires size { size ≡ tile_length store.old.shape store.old.depth }
    requires page { page < pages_of store.old.shape }
    requires bytes { length bytes.old ≡ slots * size }
    requires slot { slot < slots }
    ensures tile { OnOk result (IfSome (F.bytes store.old.file)
        (λ b. IsPiece b (tile_start store.old.shape store.old.depth page) (bytes_row size bytes.new slot))) }
    ensures others { (z : ℕ) → z ≢ slot → bytes_row size bytes.new z ≡ bytes_row size bytes.old z }
    ensures failed { result ≡ Err OutsideError.Failed → Rose (F.faults store.old.file) (F.faults store.new.file) }
    ensures read { IsReadOn F.File store.old store.new }
{
    let at = slot as usize * size;
    read_page(store, page, &mut bytes[at..at + size])
}

impl Tiles {
    /// Brings the tile of a page into the set, if it is not there. It becomes the most recently used one.
    pub(crate) fn bring<F: File>(
        &mut self,
        store: &mut Store<F>,
        page: u32,
    ) -> Result<(), OutsideError>
        requires depth { IsDepth store.old.depth }
        requires page { page < pages_of store.old.shape }
        requires low { page + 1 < 2 ^ 32 }
        requires tiles { AreTiles store.old.shape store.old.depth self.old.size self.old.slots.items self.old.owners.items
            self.old.bytes.items (F.bytes store.old.file) }
        ensures tiles { OnOk result (AreTiles store.old.shape store.old.depth self.new.size self.new.slots.items
            self.new.owners.items self.new.bytes.items (F.bytes store.old.file)) }
        ensures failed { result ≡ Err OutsideError.Failed → Rose (F.faults store.old.file) (F.faults store.new.file) }
        ensures read { IsReadOn F.File store.old store.new }
    {
        self.last = Noted::new();
        if let Some(slot) = self.slot_of(page) {
            promote(&mut self.order, slot);
            return Ok(());
        }
        let slot = next_slot(&mut self.order, self.owners.len() as u32)?;
        let slots = self.owners.len();
        let bytes = self.bytes.as_mut_slice();
        read_slot(store, page, bytes, slot, self.size, slots)?;
        put_entry(self.owners.as_mut_slice(), slot, page);
        put_entry(self.slots.as_mut_slice(), page, slot);
        Ok(())
    }

    /// Makes the tiles of a row's pages the most recently used ones. They still are where the same were used last.
    pub(crate) fn touch(&mut self, used: &Noted)
        ensures size { self.new.size ≡ self.old.size }
        ensures slots { self.new.slots.items ≡ self.old.slots.items }
        ensures owners { self.new.owners.items ≡ self.old.owners.items }
        ensures bytes { self.new.bytes.items ≡ self.old.bytes.items }
    {
        if used.pages() == self.last.pages() {
            return;
        }
        self.touch_all(used.pages());
        self.last = *used;
    }

    /// Makes the tiles of pages the most recently used ones.
    pub(crate) fn touch_all(&mut self, pages: &[u32])
        ensures size { self.new.size ≡ self.old.size }
        ensures slots { self.new.slots.items ≡ self.old.slots.items }
        ensures owners { self.new.owners.items ≡ self.old.owners.items }
        ensures bytes { self.new.bytes.items ≡ self.old.bytes.items }
    {
        for page in pages {
            self.touch_page(*page);
        }
    }

    // Makes the slot of a page's tile the most recently used one, if the tile is loaded.
    fn touch_page(&mut self, page: u32)
        ensures size { self.new.size ≡ self.old.size }
        ensures slots { self.new.slots.items ≡ self.old.slots.items }
        ensures owners { self.new.owners.items ≡ self.old.owners.items }
        ensures bytes { self.new.bytes.items ≡ self.old.bytes.items }
    {
        if let Some(slot) = self.slot_of(page) {
            promote(&mut self.order, slot);
        }
    }
}
