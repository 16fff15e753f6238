//! The page table of shared words, as the one who changes it has it: of the changes it keeps the last three.

ghost use Rattle.std.specs.Prelude.{◌≡◌, ◌≢◌, ℕ, ◌-◌, ◌<◌, ◌≤◌, ◌*◌, false, length, IfOk, IfErr, OnOk, OnErr, IsOk, slice_index};
ghost use Rattle.vt_definitions.specs.Limits.{most_samplers, most_frames, most_frame_texels, most_versions};
ghost use Rattle.vt_table.specs.Pages.{pages_of};
ghost use Rattle.vt_table.specs.Changes.{newest, nothing_mapped, IsFree, IsLegalNext};
ghost use Rattle.vt_table.specs.Views.{filled_for, filled_after, IsReady, IsTableChange, IsTile};
ghost use Rattle.vt_grace.specs.Sizes.{sizes_of};
ghost use Rattle.vt_grace.specs.Places.{frame_words};
ghost use Rattle.vt_grace.specs.WriterViews.{first_writer, version_of, is_out, after_look};
ghost use Rattle.vt_grace.specs.Giving.{after_giving, after_return, new_pass};
ghost use Rattle.vt_grace.specs.Banks.{MayWriteNext, MayFill};
ghost use Rattle.vt_grace.specs.Tokens.{IsPassOf};
ghost use Rattle.vt_streamer.specs.Looks.{HasOnlyLooked, IsFirstBehind};
ghost use Rattle.vt_streamer.specs.Banks.{HasPublished};
ghost use Rattle.vt_streamer.specs.Fills.{words_in};
ghost use Rattle.vt_streamer.specs.Frees.{IsFreeFrom, IsUnmappedBy};
ghost use Rattle.vt_streamer.specs.Views.{StreamerView, streamer_table, IsStreamerOf};

use crate::banks::put_next;
use crate::fills::fill_frame;
use crate::frees::note_unmapped;
use crate::latest::{Latest, none_yet, one_more};
use crate::looks::{Waiting, reach_all};
use std::alloc::Global;
use std::marker::Model;
use vt_grace::{Pass, Words, WriterSeat};
use vt_outside::NoMemory;
use vt_table::{Change, Geometry, depth_in, free_owner, put_entry};

/// A page table of shared words, as its one writer has it (Mayer 2010). After it was made it takes no memory, however many versions it
/// gets: of its changes it has the last three, and the journal is in what contracts see alone. They see of which words it is, what the
/// writer knows, and of each frame for which page it was filled since it could be.
#[derive(Drop)]
pub struct TableWriter {
    geometry: Geometry,
    samplers: u32,
    seat: WriterSeat,
    latest: Latest,
    // For each page 1 more than its frame, or 0.
    entries: Vec<u32>,
    // For each frame 1 more than the page for which it was filled since it could be, or 0.
    owners: Vec<u32>,
    // For each sampler the version below which it can hold nothing.
    floors: Vec<u64>,
    // For each frame the version that unmapped it last, or 0.
    unmapped: Vec<u64>,
}

impl Model for TableWriter {
    ghost use Rattle.vt_streamer.specs.Views.{StreamerView};
    ghost use Rattle.vt_streamer.specs.Kept.{streamer_view_of, IsStreamerKept};

    ghost Value = { StreamerView };

    ghost view = { λ s. streamer_view_of s.geometry s.seat s.owners.items };

    ghost invariant = { λ s. IsStreamerKept (streamer_view_of s.geometry s.seat s.owners.items)
        s.samplers s.latest s.entries.items s.floors.items s.unmapped.items };
}

impl TableWriter {
    /// The words and the writer of version 0, which maps nothing, with so many frames, none of which is filled for a page. The frames
    /// are from 1 to 65,535, and have at most 8,388,608 texels together; the samplers are from 1 to 64.
    pub fn new(
        alloc: Global,
        geometry: &Geometry,
        frames: u32,
        samplers: u32,
    ) -> Result<(Words, TableWriter), NoMemory>
        requires some_frame { 1 ≤ frames }
        requires few_frames { frames ≤ most_frames }
        requires few_texels { frames * (geometry.now.tile * geometry.now.tile) ≤ most_frame_texels }
        requires some_sampler { 1 ≤ samplers }
        requires few_samplers { samplers ≤ most_samplers }
        ensures of { IfOk result (λ made. IsStreamerOf made.0 made.1) }
        ensures sizes { IfOk result (λ made. made.0.sizes ≡ sizes_of geometry.now frames samplers) }
        ensures shape { IfOk result (λ made. made.1.shape ≡ geometry.now) }
        ensures writer { IfOk result (λ made. made.1.writer ≡ first_writer (sizes_of geometry.now frames samplers)) }
        ensures unfilled { IfOk result (λ made. filled_for (streamer_table made.1) ≡ nothing_mapped) }
    {
        let (words, seat) = Words::new(alloc, geometry, frames, samplers)?;
        let entries = Vec::from_elem(alloc, 0, geometry.page_count() as usize)?;
        let owners = Vec::from_elem(alloc, 0, frames as usize)?;
        let floors = Vec::from_elem(alloc, 0, samplers as usize)?;
        let unmapped = Vec::from_elem(alloc, 0, frames as usize)?;
        Ok((
            words,
            TableWriter {
                geometry: *geometry,
                samplers,
                seat,
                latest: none_yet(),
                entries,
                owners,
                floors,
                unmapped,
            },
        ))
    }

    /// Looks whether a frame that no page is mapped to may be filled: no version that a sampler may still hold maps it. `Waiting` names
    /// the least sampler that announced a version below the one that unmapped the frame, by a look of this call. The words stay as
    /// they are.
    pub fn try_free(&mut self, words: &Words, frame: u32) -> Result<(), Waiting>
        requires of { IsStreamerOf words.now self.old }
        requires inside { frame < length self.old.owners }
        requires free { IsFree (newest self.old.writer.journal) frame }
        ensures of { IsStreamerOf words.now self.new }
        ensures looked { HasOnlyLooked self.old.writer self.new.writer }
        ensures rest { self.new ≡ record self.old { writer = self.new.writer } }
        ensures may { OnOk result (MayFill self.new.writer frame) }
        ensures waiting { IfErr result (λ w. (version : ℕ) × IsUnmappedBy self.old.writer.journal frame version
            × IsFirstBehind self.old.writer self.new.writer version w.sampler w.holds) }
        ensures never { IsFreeFrom self.old.writer.journal frame 0 → IsOk result }
        ensures idle { ((k : ℕ) → is_out self.old.writer k ≡ false) → IsOk result }
    {
        let least = self.unmapped[frame as usize];
        let floors = self.floors.as_mut_slice();
        if let Some(waiting) = reach_all(words, &mut self.seat, floors, self.samplers, least) {
            return Err(waiting);
        }
        Ok(())
    }

    /// Looks whether the next version may be made: no sampler may still hold one more than two before the newest. `Waiting` names the least
    /// that announced such a version, by a look of this call. The words stay as they are.
    pub fn try_bank(&mut self, words: &Words) -> Result<(), Waiting>
        requires of { IsStreamerOf words.now self.old }
        ensures of { IsStreamerOf words.now self.new }
        ensures looked { HasOnlyLooked self.old.writer self.new.writer }
        ensures rest { self.new ≡ record self.old { writer = self.new.writer } }
        ensures may { OnOk result (MayWriteNext self.new.writer) }
        ensures waiting { IfErr result (λ w.
            IsFirstBehind self.old.writer self.new.writer (version_of self.old.writer - 2) w.sampler w.holds) }
        ensures idle { ((k : ℕ) → is_out self.old.writer k ≡ false) → IsOk result }
    {
        let least = self.seat.version().saturating_sub(2);
        let floors = self.floors.as_mut_slice();
        if let Some(waiting) = reach_all(words, &mut self.seat, floors, self.samplers, least) {
            return Err(waiting);
        }
        Ok(())
    }

    /// Fills a frame that may be filled with the tile of a page: the bytes of its texels row by row, three samples a texel, of one byte
    /// each or of two, the most significant first. It takes no memory and refuses nothing.
    pub fn fill(&mut self, words: &Words, frame: u32, page: u32, tile: &[u8])
        requires of { IsStreamerOf words.now self.old }
        requires frame_inside { frame < length self.old.owners }
        requires page_inside { page < pages_of self.old.shape }
        requires may { MayFill self.old.writer frame }
        requires tile { IsTile self.old.shape tile.now }
        ensures of { IsStreamerOf words.now self.new }
        ensures content { frame_words words.now.sizes self.new.writer.texels frame ≡ words_in self.old.shape tile.now }
        ensures other_contents { (f : ℕ) → f < length self.old.owners → f ≢ frame
            → frame_words words.now.sizes self.new.writer.texels f ≡ frame_words words.now.sizes self.old.writer.texels f }
        ensures filled { filled_for (streamer_table self.new) frame ≡ Some page }
        ensures other_pages { (f : ℕ) → f ≢ frame → filled_for (streamer_table self.new) f ≡ filled_for (streamer_table self.old) f }
        ensures rest { self.new ≡ record self.old {
          writer = record self.old.writer { texels = self.new.writer.texels };
          owners = self.new.owners;
        } }
    {
        let side = self.geometry.tile();
        let texels = side * side;
        let depth = u32::from(depth_in(tile.len(), 6 * texels as usize));
        fill_frame(words, &mut self.seat, frame, tile, depth, texels);
        self.owners[frame as usize] = page + 1;
    }

    /// Publishes a change, which makes the next version, and answers that version. The change is legal next, and the frame that it maps
    /// a page to was last filled for that page since it could be. `Waiting` names the least sampler that announced a version more than
    /// two before the newest, by a look of this call; then nothing changed but floors. It takes no memory.
    pub fn try_publish(&mut self, words: &Words, change: Change) -> Result<u64, Waiting>
        requires of { IsStreamerOf words.now self.old }
        requires room { version_of self.old.writer < most_versions }
        requires within { IsTableChange (streamer_table self.old) change }
        requires legal { IsLegalNext self.old.shape (newest self.old.writer.journal) change }
        requires ready { IsReady (streamer_table self.old) change }
        ensures of { IsStreamerOf words.now self.new }
        ensures version { IfOk result (λ version. version ≡ version_of self.new.writer) }
        ensures published { OnOk result (HasPublished self.old.writer self.new.writer change) }
        ensures filled { OnOk result (filled_for (streamer_table self.new) ≡ filled_after (filled_for (streamer_table self.old)) change) }
        ensures shape { self.new.shape ≡ self.old.shape }
        ensures refused { OnErr result (HasOnlyLooked self.old.writer self.new.writer) }
        ensures unchanged { OnErr result (self.new ≡ record self.old { writer = self.new.writer }) }
        ensures waiting { IfErr result (λ w.
            IsFirstBehind self.old.writer self.new.writer (version_of self.old.writer - 2) w.sampler w.holds) }
        ensures idle { ((k : ℕ) → is_out self.old.writer k ≡ false) → IsOk result }
    {
        let least = self.seat.version().saturating_sub(2);
        let floors = self.floors.as_mut_slice();
        match reach_all(words, &mut self.seat, floors, self.samplers, least) {
            None => Ok(self.publish(words, change)),
            Some(waiting) => Err(waiting),
        }
    }

    /// Publishes a change, where no floor is more than two versions behind, as `try_bank` found. It takes no memory and refuses nothing.
    pub fn publish(&mut self, words: &Words, change: Change) -> u64
        requires of { IsStreamerOf words.now self.old }
        requires may { MayWriteNext self.old.writer }
        requires room { version_of self.old.writer < most_versions }
        requires within { IsTableChange (streamer_table self.old) change }
        requires legal { IsLegalNext self.old.shape (newest self.old.writer.journal) change }
        requires ready { IsReady (streamer_table self.old) change }
        ensures of { IsStreamerOf words.now self.new }
        ensures version { result ≡ version_of self.new.writer }
        ensures published { HasPublished self.old.writer self.new.writer change }
        ensures filled { filled_for (streamer_table self.new) ≡ filled_after (filled_for (streamer_table self.old)) change }
        ensures shape { self.new.shape ≡ self.old.shape }
    {
        let version = self.seat.version() + 1;
        put_next(words, &mut self.seat, &self.latest, change);
        self.latest = one_more(self.latest, change);
        put_entry(self.entries.as_mut_slice(), change);
        free_owner(self.owners.as_mut_slice(), change);
        note_unmapped(self.unmapped.as_mut_slice(), change, version);
        version
    }

    /// The newest version.
    #[inline]
    pub fn version(&self) -> u64
        ensures version { result ≡ version_of self.now.writer }
        ensures most { result ≤ most_versions }
    {
        let _samplers = self.samplers;
        self.seat.version()
    }

    /// The pages and their tiles.
    #[inline]
    pub fn geometry(&self) -> &Geometry
        ensures { result.now ≡ self.now.shape }
    {
        let _samplers = self.samplers;
        &self.geometry
    }

    /// How many frames there are.
    #[inline]
    pub fn frames(&self) -> usize
        ensures { result ≡ length self.now.owners }
    {
        let _samplers = self.samplers;
        self.owners.len()
    }

    /// One more than the page for which a frame was filled since it could be, or 0.
    #[inline]
    pub fn owner_of(&self, frame: u32) -> u32
        requires { frame < length self.now.owners }
        ensures { result ≡ slice_index self.now.owners frame }
    {
        self.owners[frame as usize]
    }

    /// The frame of a page in the newest version; `None` exactly where the page is not mapped.
    #[inline]
    pub fn frame_of(&self, page: u32) -> Option<u32>
        requires { page < pages_of self.now.shape }
        ensures { result ≡ newest self.now.writer.journal page }
    {
        match self.entries[page as usize] {
            0 => None,
            number => Some(number - 1),
        }
    }

    /// Gives a pass to a sampler that has none.
    pub fn give_pass(&mut self, words: &Words, sampler: u32) -> Pass
        requires of { IsStreamerOf words.now self.old }
        requires inside { sampler < words.now.sizes.samplers }
        requires absent { is_out self.old.writer sampler ≡ false }
        ensures of { IsStreamerOf words.now self.new }
        ensures pass_of { IsPassOf words.now result }
        ensures pass { result.view ≡ new_pass self.old.writer sampler }
        ensures given { self.new ≡ record self.old { writer = after_giving (after_look self.old.writer sampler 0) sampler } }
    {
        let version = self.seat.version();
        let pass = self.seat.give_pass(words, sampler);
        self.floors[sampler as usize] = version;
        pass
    }

    /// Takes a pass back. From then on all that it noted is known to be true of the journal.
    pub fn take_back(&mut self, words: &Words, pass: Pass)
        requires of { IsStreamerOf words.now self.old }
        requires pass_of { IsPassOf words.now pass }
        ensures of { IsStreamerOf words.now self.new }
        ensures taken { self.new ≡ record self.old { writer = after_return self.old.writer pass.view } }
    {
        self.seat.take_back(words, pass);
    }
}
