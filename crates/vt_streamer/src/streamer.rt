//! The page table of shared words with its journal, as the one who changes it has it.

ghost use Rattle.std.specs.Prelude.{◌≡◌, ◌≢◌, ℕ, ◌+◌, ◌-◌, ◌*◌, ◌<◌, ◌≤◌, false, length, IfOk, IfErr, OnOk, OnErr, IsOk};
ghost use Rattle.vt_definitions.specs.Limits.{most_samplers, most_frames, most_frame_texels, most_versions};
ghost use Rattle.vt_table.specs.Pages.{pages_of};
ghost use Rattle.vt_table.specs.Changes.{newest, nothing_mapped, IsFree, IsLegalNext};
ghost use Rattle.vt_table.specs.Views.{filled_for, filled_after, IsReady, IsTableChange, IsTile};
ghost use Rattle.vt_grace.specs.Sizes.{sizes_of};
ghost use Rattle.vt_grace.specs.Places.{frame_words};
ghost use Rattle.vt_grace.specs.WriterViews.{first_writer, version_of, is_out, after_look};
ghost use Rattle.vt_grace.specs.Giving.{after_giving, after_return, new_pass};
ghost use Rattle.vt_grace.specs.Banks.{MayFill};
ghost use Rattle.vt_grace.specs.Tokens.{IsPassOf};
ghost use Rattle.vt_streamer.specs.Looks.{HasOnlyLooked, IsFirstBehind};
ghost use Rattle.vt_streamer.specs.Banks.{HasPublished};
ghost use Rattle.vt_streamer.specs.Fills.{words_in};
ghost use Rattle.vt_streamer.specs.Frees.{IsFreeFrom, IsUnmappedBy};
ghost use Rattle.vt_streamer.specs.Views.{StreamerView, streamer_table, IsStreamerOf};

use crate::looks::Waiting;
use crate::table_writer::TableWriter;
use std::alloc::Global;
use std::marker::Model;
use vt_grace::{Pass, Words};
use vt_outside::NoMemory;
use vt_table::{Change, Geometry, Journal};

/// A page table of shared words with its journal, as its one writer has it. Contracts see of which words it is, what the writer knows, the
/// room for more changes, and of each frame for which page it was filled since it could be.
#[derive(Drop)]
pub struct Streamer {
    table: TableWriter,
    journal: Journal,
}

impl Model for Streamer {
    ghost use Rattle.std.specs.Prelude.{◌≡◌};
    ghost use Rattle.vt_streamer.specs.Views.{StreamerView, with_room};

    ghost Value = { StreamerView };

    ghost view = { λ s. with_room s.table s.journal.spare };

    ghost invariant = { λ s. s.table.writer.journal ≡ s.journal.changes };
}

impl Streamer {
    /// The words and the streamer of version 0, which maps nothing, with so many frames, none of which is filled for a page. The
    /// frames are from 1 to 65,535, and have at most 8,388,608 texels together; the samplers are from 1 to 64.
    pub fn new(
        alloc: Global,
        geometry: &Geometry,
        frames: u32,
        samplers: u32,
    ) -> Result<(Words, Streamer), NoMemory>
        requires some_frame { 1 ≤ frames }
        requires few_frames { frames ≤ most_frames }
        requires few_texels { frames * (geometry.now.tile * geometry.now.tile) ≤ most_frame_texels }
        requires some_sampler { 1 ≤ samplers }
        requires few_samplers { samplers ≤ most_samplers }
        ensures of { IfOk result (λ made. IsStreamerOf made.0 made.1) }
        ensures sizes { IfOk result (λ made. made.0.sizes ≡ sizes_of geometry.now frames samplers) }
        ensures shape { IfOk result (λ made. made.1.shape ≡ geometry.now) }
        ensures writer { IfOk result (λ made. made.1.writer ≡ first_writer (sizes_of geometry.now frames samplers)) }
        ensures unfilled { IfOk result (λ made. filled_for (streamer_table made.1) ≡ nothing_mapped) }
    {
        let (words, table) = TableWriter::new(alloc, geometry, frames, samplers)?;
        Ok((
            words,
            Streamer {
                table,
                journal: Journal::new(alloc),
            },
        ))
    }

    /// Makes room for at least `n` more changes; no version may pass 2^62. After a refusal nothing changed.
    pub fn reserve(&mut self, n: u64) -> Result<(), NoMemory>
        requires { length self.old.writer.journal + n ≤ most_versions }
        ensures room { OnOk result (n ≤ self.new.spare) }
        ensures bound { length self.new.writer.journal + self.new.spare ≤ most_versions }
        ensures refused { OnErr result (self.new.spare ≡ self.old.spare) }
        ensures rest { self.new ≡ record self.old { spare = self.new.spare } }
    {
        self.journal.reserve(n)
    }

    /// Looks whether a frame that no page is mapped to may be filled: no version that a sampler may still hold maps it. `Waiting` names
    /// the least sampler that announced a version below the one that unmapped the frame, by a look of this call. The words stay as
    /// they are.
    pub fn try_free(&mut self, words: &Words, frame: u32) -> Result<(), Waiting>
        requires of { IsStreamerOf words.now self.old }
        requires inside { frame < length self.old.owners }
        requires free { IsFree (newest self.old.writer.journal) frame }
        ensures of { IsStreamerOf words.now self.new }
        ensures looked { HasOnlyLooked self.old.writer self.new.writer }
        ensures rest { self.new ≡ record self.old { writer = self.new.writer } }
        ensures may { OnOk result (MayFill self.new.writer frame) }
        ensures waiting { IfErr result (λ w. (version : ℕ) × IsUnmappedBy self.old.writer.journal frame version
            × IsFirstBehind self.old.writer self.new.writer version w.sampler w.holds) }
        ensures never { IsFreeFrom self.old.writer.journal frame 0 → IsOk result }
        ensures idle { ((k : ℕ) → is_out self.old.writer k ≡ false) → IsOk result }
    {
        self.table.try_free(words, frame)
    }

    /// Fills a frame that may be filled with the tile of a page: the bytes of its texels row by row, three samples a texel, of one byte
    /// each or of two, the most significant first. It takes no memory and refuses nothing.
    pub fn fill(&mut self, words: &Words, frame: u32, page: u32, tile: &[u8])
        requires of { IsStreamerOf words.now self.old }
        requires frame_inside { frame < length self.old.owners }
        requires page_inside { page < pages_of self.old.shape }
        requires may { MayFill self.old.writer frame }
        requires tile { IsTile self.old.shape tile.now }
        ensures of { IsStreamerOf words.now self.new }
        ensures content { frame_words words.now.sizes self.new.writer.texels frame ≡ words_in self.old.shape tile.now }
        ensures other_contents { (f : ℕ) → f < length self.old.owners → f ≢ frame
            → frame_words words.now.sizes self.new.writer.texels f ≡ frame_words words.now.sizes self.old.writer.texels f }
        ensures filled { filled_for (streamer_table self.new) frame ≡ Some page }
        ensures other_pages { (f : ℕ) → f ≢ frame → filled_for (streamer_table self.new) f ≡ filled_for (streamer_table self.old) f }
        ensures rest { self.new ≡ record self.old {
          writer = record self.old.writer { texels = self.new.writer.texels };
          owners = self.new.owners;
        } }
    {
        self.table.fill(words, frame, page, tile);
    }

    /// Publishes a change, which makes the next version, and answers that version. There is room for the change, it is legal next, and
    /// the frame that it maps a page to was last filled for that page since it could be. `Waiting` names the least sampler that
    /// announced a version more than two before the newest, by a look of this call; then nothing changed but floors.
    pub fn try_publish(&mut self, words: &Words, change: Change) -> Result<u64, Waiting>
        requires of { IsStreamerOf words.now self.old }
        requires room { 1 ≤ self.old.spare }
        requires within { IsTableChange (streamer_table self.old) change }
        requires legal { IsLegalNext self.old.shape (newest self.old.writer.journal) change }
        requires ready { IsReady (streamer_table self.old) change }
        ensures of { IsStreamerOf words.now self.new }
        ensures version { IfOk result (λ version. version ≡ version_of self.new.writer) }
        ensures published { OnOk result (HasPublished self.old.writer self.new.writer change) }
        ensures filled { OnOk result (filled_for (streamer_table self.new) ≡ filled_after (filled_for (streamer_table self.old)) change) }
        ensures spare { OnOk result (self.old.spare ≤ self.new.spare + 1) }
        ensures bound { version_of self.new.writer + self.new.spare ≤ most_versions }
        ensures shape { self.new.shape ≡ self.old.shape }
        ensures refused { OnErr result (HasOnlyLooked self.old.writer self.new.writer) }
        ensures unchanged { OnErr result (self.new ≡ record self.old { writer = self.new.writer }) }
        ensures waiting { IfErr result (λ w.
            IsFirstBehind self.old.writer self.new.writer (version_of self.old.writer - 2) w.sampler w.holds) }
        ensures idle { ((k : ℕ) → is_out self.old.writer k ≡ false) → IsOk result }
    {
        let _version = self.journal.version();
        match self.table.try_publish(words, change) {
            Ok(version) => {
                self.journal.push(change);
                Ok(version)
            }
            Err(waiting) => Err(waiting),
        }
    }

    /// The journal of the page table, whose newest version is the table's.
    #[inline]
    pub fn journal(&self) -> &Journal
        ensures changes { result.now.changes ≡ self.now.writer.journal }
        ensures spare { result.now.spare ≡ self.now.spare }
    {
        let _version = self.table.version();
        &self.journal
    }

    /// The pages and their tiles.
    #[inline]
    pub fn geometry(&self) -> &Geometry
        ensures { result.now ≡ self.now.shape }
    {
        let _version = self.journal.version();
        self.table.geometry()
    }

    /// The frame of a page in the newest version; `None` exactly where the page is not mapped.
    #[inline]
    pub fn frame_of(&self, page: u32) -> Option<u32>
        requires { page < pages_of self.now.shape }
        ensures { result ≡ newest self.now.writer.journal page }
    {
        let _version = self.journal.version();
        self.table.frame_of(page)
    }

    /// Gives a pass to a sampler that has none.
    pub fn give_pass(&mut self, words: &Words, sampler: u32) -> Pass
        requires of { IsStreamerOf words.now self.old }
        requires inside { sampler < words.now.sizes.samplers }
        requires absent { is_out self.old.writer sampler ≡ false }
        ensures of { IsStreamerOf words.now self.new }
        ensures pass_of { IsPassOf words.now result }
        ensures pass { result.view ≡ new_pass self.old.writer sampler }
        ensures given { self.new ≡ record self.old { writer = after_giving (after_look self.old.writer sampler 0) sampler } }
    {
        self.table.give_pass(words, sampler)
    }

    /// Takes a pass back. From then on all that it noted is known to be true of the journal.
    pub fn take_back(&mut self, words: &Words, pass: Pass)
        requires of { IsStreamerOf words.now self.old }
        requires pass_of { IsPassOf words.now pass }
        ensures of { IsStreamerOf words.now self.new }
        ensures taken { self.new ≡ record self.old { writer = after_return self.old.writer pass.view } }
    {
        self.table.take_back(words, pass);
    }
}
