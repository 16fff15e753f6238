//! The page table and the tiles of its frames.

ghost use Rattle.std.specs.Prelude.{◌≡◌, ◌≢◌, ℕ, ◌+◌, ◌*◌, ◌<◌, ◌≤◌, Some, [], ◌∷◌, ◌++◌, length, IfOk, OnOk, OnErr};
ghost use Rattle.vt_journal.specs.Limits.{most_frames, most_frame_texels, most_versions};
ghost use Rattle.vt_journal.specs.Depths.{IsDepth, texel_length};
ghost use Rattle.vt_journal.specs.Pages.{pages_of};
ghost use Rattle.vt_journal.specs.Changes.{newest, nothing_mapped, IsFree, IsLegalNext};
ghost use Rattle.vt_table.specs.Views.{TableView, tile_of, filled_for, filled_after, IsReady, IsTableChange, IsMappedTo, IsTile, word_in, IsTable};

use crate::steps::{depth_in, free_owner, put_entry, put_tile};
use std::alloc::Global;
use std::marker::Model;
use vt_journal::{Change, Geometry, Journal, NoMemory, texel_length, word_in};

/// A page table that maps pages to frames, and the tiles of the frames (Mayer 2010). It changes only between draws.
/// Contracts see the changes that made its versions with the room for more, and of each frame the tile with which it was
/// last filled and for which page it was filled since it could be.
#[derive(Drop)]
pub struct StillTable {
    geometry: Geometry,
    // How many bytes the room of a frame has, of which a tile of one-byte samples takes the first half.
    room: usize,
    journal: Journal,
    // For each page 1 more than its frame, or 0.
    entries: Vec<u32>,
    // The rooms of all frames.
    bytes: Vec<u8>,
    // How many bytes a sample of each frame's tile has.
    depths: Vec<u8>,
    // For each frame 1 more than the page for which it was filled since it could be, or 0.
    owners: Vec<u32>,
}

impl Model for StillTable {
    ghost use Rattle.vt_table.specs.Views.{TableView};
    ghost use Rattle.vt_table.specs.Kept.{table_view_of, IsTableKept};

    ghost Value = { TableView };

    ghost view = { λ t. table_view_of t.geometry t.journal.changes t.journal.spare t.bytes.items t.depths.items t.owners.items };

    ghost invariant = { λ t. IsTableKept
        (table_view_of t.geometry t.journal.changes t.journal.spare t.bytes.items t.depths.items t.owners.items)
        t.room t.entries.items t.bytes.items t.depths.items };
}

impl StillTable {
    /// The table of version 0, which maps nothing, with so many frames, none of which is filled for a page. The frames are
    /// from 1 to 65,535, and have at most 8,388,608 texels together.
    pub fn new(alloc: Global, geometry: &Geometry, frames: u32) -> Result<StillTable, NoMemory>
        requires some_frame { 1 ≤ frames }
        requires few_frames { frames ≤ most_frames }
        requires few_texels { frames * (geometry.now.tile * geometry.now.tile) ≤ most_frame_texels }
        ensures shape { IfOk result (λ t. t.shape ≡ geometry.now) }
        ensures frames { IfOk result (λ t. t.frames ≡ frames) }
        ensures changes { IfOk result (λ t. t.changes ≡ []) }
        ensures unfilled { IfOk result (λ t. filled_for t ≡ nothing_mapped) }
        ensures table { IfOk result IsTable }
    {
        let side = geometry.tile() as usize;
        let room = 6 * (side * side);
        let entries = Vec::from_elem(alloc, 0, geometry.page_count() as usize)?;
        let bytes = Vec::from_elem(alloc, 0, frames as usize * room)?;
        let depths = Vec::from_elem(alloc, 1, frames as usize)?;
        let owners = Vec::from_elem(alloc, 0, frames as usize)?;
        Ok(StillTable {
            geometry: *geometry,
            room,
            journal: Journal::new(alloc),
            entries,
            bytes,
            depths,
            owners,
        })
    }

    /// Makes room for at least `n` more changes; no version may pass 2^62. After a refusal nothing changed.
    pub fn reserve(&mut self, n: u64) -> Result<(), NoMemory>
        requires { length self.old.changes + n ≤ most_versions }
        ensures room { OnOk result (n ≤ self.new.spare) }
        ensures bound { length self.new.changes + self.new.spare ≤ most_versions }
        ensures refused { OnErr result (self.new.spare ≡ self.old.spare) }
        ensures rest { self.new ≡ record self.old { spare = self.new.spare } }
    {
        self.journal.reserve(n)
    }

    /// Fills a frame that no page is mapped to with the tile of a page: the bytes of its texels row by row, three samples a
    /// texel, of one byte each or of two, the most significant first. It takes no memory and refuses nothing.
    pub fn fill(&mut self, frame: u32, page: u32, tile: &[u8])
        requires frame_inside { frame < self.old.frames }
        requires page_inside { page < pages_of self.old.shape }
        requires free { IsFree (newest self.old.changes) frame }
        requires tile { IsTile self.old.shape tile.now }
        ensures tile { tile_of self.new frame ≡ tile.now }
        ensures filled { filled_for self.new frame ≡ Some page }
        ensures other_tiles { (f : ℕ) → f ≢ frame → tile_of self.new f ≡ tile_of self.old f }
        ensures other_pages { (f : ℕ) → f ≢ frame → filled_for self.new f ≡ filled_for self.old f }
        ensures shape { self.new.shape ≡ self.old.shape }
        ensures frames { self.new.frames ≡ self.old.frames }
        ensures changes { self.new.changes ≡ self.old.changes }
        ensures spare { self.new.spare ≡ self.old.spare }
        ensures table { IsTable self.new }
    {
        put_tile(self.bytes.as_mut_slice(), frame as usize * self.room, tile);
        self.depths[frame as usize] = depth_in(tile.len(), self.room);
        self.owners[frame as usize] = page + 1;
    }

    /// Makes a change, which makes the next version, and answers that version. There is room for the change, it is legal
    /// next, and the frame that it maps a page to was last filled for that page since it could be filled, which it could
    /// since it was last unmapped. It takes no memory and refuses nothing.
    pub fn publish(&mut self, change: Change) -> u64
        requires room { 1 ≤ self.old.spare }
        requires within { IsTableChange self.old change }
        requires legal { IsLegalNext self.old.shape (newest self.old.changes) change }
        requires ready { IsReady self.old change }
        ensures version { result ≡ length self.new.changes }
        ensures changes { self.new.changes ≡ self.old.changes ++ change ∷ [] }
        ensures spare { self.old.spare ≤ self.new.spare + 1 }
        ensures bound { length self.new.changes + self.new.spare ≤ most_versions }
        ensures tiles { self.new.tiles ≡ self.old.tiles }
        ensures filled { filled_for self.new ≡ filled_after (filled_for self.old) change }
        ensures shape { self.new.shape ≡ self.old.shape }
        ensures frames { self.new.frames ≡ self.old.frames }
        ensures table { IsTable self.new }
    {
        self.journal.push(change);
        put_entry(self.entries.as_mut_slice(), change);
        free_owner(self.owners.as_mut_slice(), change);
        self.journal.version()
    }

    /// The journal of the table, whose newest version is the table's.
    #[inline]
    pub fn journal(&self) -> &Journal
        ensures changes { result.now.changes ≡ self.now.changes }
        ensures spare { result.now.spare ≡ self.now.spare }
        ensures table { IsTable self.now }
    {
        let _room = self.room;
        &self.journal
    }

    /// The frame of a page in the newest version; `None` exactly where the page is not mapped.
    #[inline]
    pub fn frame_of(&self, page: u32) -> Option<u32>
        requires { page < pages_of self.now.shape }
        ensures frame { result ≡ newest self.now.changes page }
        ensures table { IsTable self.now }
    {
        match self.entries[page as usize] {
            0 => None,
            number => Some(number - 1),
        }
    }

    /// The bytes of the tile of a frame that a page is mapped to, with which it was last filled, and how many bytes a sample of it
    /// has, 1 or 2. Texels go row by row.
    #[inline]
    pub fn tile(&self, frame: u32) -> (&[u8], u32)
        requires mapped { IsMappedTo (newest self.now.changes) frame }
        ensures tile { result.0.now ≡ tile_of self.now frame }
        ensures depth { IsDepth result.1 }
        ensures full { length result.0.now ≡ texel_length result.1 * (self.now.shape.tile * self.now.shape.tile) }
        ensures side { 1 ≤ self.now.shape.tile }
    {
        let side = self.geometry.tile() as usize;
        let depth = u32::from(self.depths[frame as usize]);
        let at = frame as usize * self.room;
        (
            &self.bytes[at..at + texel_length(depth) * (side * side)],
            depth,
        )
    }

    /// The texel word at a place of the tile of a frame that a page is mapped to, with which it was last filled. Places go
    /// row by row.
    #[inline]
    pub fn word(&self, frame: u32, place: u32) -> u64
        requires mapped { IsMappedTo (newest self.now.changes) frame }
        requires inside { place < self.now.shape.tile * self.now.shape.tile }
        ensures word { result ≡ word_in self.now frame place }
    {
        let (tile, depth) = self.tile(frame);
        word_in(tile, depth, place as usize)
    }
}
