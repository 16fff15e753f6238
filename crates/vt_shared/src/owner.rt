//! The owner of a table of shared words: it changes the table, admits readers and takes them back.

ghost use Rattle.std.specs.Prelude.{◌≡◌, ◌≢◌, ◌*◌, ℕ, ◌<◌, ◌≤◌, List, false, true, None, Some, length, slice_index_or, IfOk, IfErr, IfSome, IfNone, OnOk, OnErr};
ghost use Rattle.std.specs.Bool.{MatchBool};
ghost use Rattle.vt_definitions.specs.Limits.{most_samplers, most_frames, most_frame_texels, most_versions};
ghost use Rattle.vt_definitions.specs.Depths.{IsDepth};
ghost use Rattle.vt_pages.specs.Pages.{pages_of, root_of};
ghost use Rattle.vt_journal.specs.Changes.{newest, IsFree};
ghost use Rattle.vt_journal.specs.Lookups.{is_mapped};
ghost use Rattle.vt_grace.specs.Sizes.{sizes_of};
ghost use Rattle.vt_grace.specs.Sound.{IsSound};
ghost use Rattle.vt_grace.specs.WriterViews.{first_writer, is_out, after_look};
ghost use Rattle.vt_grace.specs.Giving.{after_giving, after_return};
ghost use Rattle.vt_lookup.specs.Notes.{IsNotedIn};
ghost use Rattle.vt_texel_runs.specs.declared.points.Point.{Point};
ghost use Rattle.vt_shared.specs.Given.{HasTileLength, IsOfItsTile};
ghost use Rattle.vt_shared.specs.Owners.{HasWrittenFrame, HasMappedNext, HasUnmappedNext, HasKeptOwner, AwaitsBank, AwaitsEither};
ghost use Rattle.vt_texel_runs.specs.Points.{IsAnswered};
ghost use Rattle.vt_shared.specs.Readers.{left_by, IsAdmitted, IsReaderOf};

use crate::reader::Reader;
use crate::steps::{is_free, put_page, take_page};
use std::alloc::Global;
use std::marker::Model;
use std::sync::Arc;
use vt_grace::{
    Words, contents_are_those_of_the_change_in_force, contents_have_the_versions_frames,
};
use vt_outside::NoMemory;
use vt_pages::Geometry;
use vt_streamer::{TableWriter, Waiting};

/// The owner of a table of shared words. Contracts see the words, what their streamer knows, and how many bytes a sample has.
#[derive(Drop)]
pub struct Owner {
    words: Arc<Words, Global>,
    table: TableWriter,
    // For each sampler whether its pass is out.
    out: Vec<bool>,
    depth: u32,
}

impl Model for Owner {
    ghost use Rattle.std.specs.Arc.{arc_value};
    ghost use Rattle.vt_shared.specs.Owners.{OwnerView, IsOwning};

    ghost Value = { OwnerView };

    ghost view = { λ o. record { words = arc_value o.words; streamer = o.table; depth = o.depth } };

    ghost invariant = { λ o. IsOwning (arc_value o.words) o.table o.out.items o.depth };
}

impl Owner {
    /// The owner of a new table, which maps nothing, of so many frames, none of which is filled, and for so many readers at once.
    pub fn new(
        alloc: Global,
        geometry: &Geometry,
        depth: u32,
        frames: u32,
        samplers: u32,
    ) -> Result<Owner, NoMemory>
        requires depth { IsDepth depth }
        requires some_frame { 1 ≤ frames }
        requires few_frames { frames ≤ most_frames }
        requires few_texels { frames * (geometry.now.tile * geometry.now.tile) ≤ most_frame_texels }
        requires some_sampler { 1 ≤ samplers }
        requires few_samplers { samplers ≤ most_samplers }
        ensures shape { IfOk result (λ o. o.streamer.shape ≡ geometry.now) }
        ensures depth { IfOk result (λ o. o.depth ≡ depth) }
        ensures writer { IfOk result (λ o. o.streamer.writer ≡ first_writer (sizes_of geometry.now frames samplers)) }
    {
        let (words, table) = TableWriter::new(alloc, geometry, frames, samplers)?;
        let out = Vec::from_elem(alloc, false, samplers as usize)?;
        let words = Arc::new(alloc, words)?;
        Ok(Owner {
            words,
            table,
            out,
            depth,
        })
    }

    /// The pages of the table.
    pub fn geometry(&self) -> &Geometry
        ensures { result.now ≡ self.now.streamer.shape }
    {
        let _depth = self.depth;
        self.table.geometry()
    }

    /// How many bytes a sample has.
    pub fn depth(&self) -> u32
        ensures depth { result ≡ self.now.depth }
        ensures is { IsDepth self.now.depth }
    {
        self.depth
    }

    /// How many changes there were.
    pub fn version(&self) -> u64
        ensures version { result ≡ length self.now.streamer.writer.journal }
        ensures most { result ≤ most_versions }
    {
        let _depth = self.depth;
        self.table.version()
    }

    /// How many frames there are.
    pub fn frames(&self) -> usize
        ensures { result ≡ length self.now.streamer.owners }
    {
        let _depth = self.depth;
        self.table.frames()
    }

    /// The frame of a page in the newest version.
    pub fn frame_of(&self, page: u32) -> Option<u32>
        requires { page < pages_of self.now.streamer.shape }
        ensures { result ≡ newest self.now.streamer.writer.journal page }
    {
        let _depth = self.depth;
        self.table.frame_of(page)
    }

    /// Whether no page is mapped to a frame.
    pub fn is_free(&self, frame: u32) -> bool
        requires { frame < length self.now.streamer.owners }
        ensures { MatchBool result (IsFree (newest self.now.streamer.writer.journal) frame)
            (IsFree (newest self.now.streamer.writer.journal) frame → ⊥) }
    {
        let _depth = self.depth;
        is_free(&self.table, frame)
    }

    /// Fills a frame with the tile of a page and maps the page to it, as soon as no reader may hold a version that maps the frame. It takes
    /// no memory.
    pub fn map(&mut self, page: u32, frame: u32, tile: &[u8]) -> Result<(), Waiting>
        requires page { page < pages_of self.old.streamer.shape }
        requires unmapped { newest self.old.streamer.writer.journal page ≡ None }
        requires frame { frame < length self.old.streamer.owners }
        requires free { IsFree (newest self.old.streamer.writer.journal) frame }
        requires tile { HasTileLength self.old.streamer.shape self.old.depth (length tile.now) }
        requires room { length self.old.streamer.writer.journal < most_versions }
        ensures rest { self.new ≡ record self.old { streamer = self.new.streamer } }
        ensures kept { HasKeptOwner self.old.streamer self.new.streamer }
        ensures written { HasWrittenFrame self.old.streamer frame self.new.streamer }
        ensures mapped { OnOk result (HasMappedNext self.old.streamer page frame tile.now self.new.streamer) }
        ensures waiting { IfErr result (λ w. AwaitsEither self.old.streamer frame self.new.streamer w.sampler w.holds) }
        ensures refused { OnErr result (self.new.streamer.writer.journal ≡ self.old.streamer.writer.journal) }
        ensures contents { OnErr result (self.new.streamer.writer.contents ≡ self.old.streamer.writer.contents) }
    {
        put_page(&*self.words, &mut self.table, self.depth, page, frame, tile)
    }

    /// Takes a page out of its frame. It takes no memory.
    pub fn unmap(&mut self, page: u32, frame: u32) -> Result<(), Waiting>
        requires page { page < pages_of self.old.streamer.shape }
        requires mapped { newest self.old.streamer.writer.journal page ≡ Some frame }
        requires other { page ≢ root_of self.old.streamer.shape }
        requires room { length self.old.streamer.writer.journal < most_versions }
        ensures rest { self.new ≡ record self.old { streamer = self.new.streamer } }
        ensures kept { HasKeptOwner self.old.streamer self.new.streamer }
        ensures written { self.new.streamer.writer.texels ≡ self.old.streamer.writer.texels }
        ensures unmapped { OnOk result (HasUnmappedNext self.old.streamer page frame self.new.streamer) }
        ensures waiting { IfErr result (λ w. AwaitsBank self.old.streamer self.new.streamer w.sampler w.holds) }
        ensures refused { OnErr result (self.new.streamer.writer.journal ≡ self.old.streamer.writer.journal) }
        ensures contents { OnErr result (self.new.streamer.writer.contents ≡ self.old.streamer.writer.contents) }
    {
        take_page(&*self.words, &mut self.table, page, frame)
    }

    /// Whether the root is mapped in the newest version.
    pub fn is_rooted(&self) -> bool
        ensures { result ≡ is_mapped (newest self.now.streamer.writer.journal) (root_of self.now.streamer.shape) }
    {
        let _depth = self.depth;
        let root = self.table.geometry().page_count() - 1;
        self.table.frame_of(root).is_some()
    }

    /// A sampler whose pass is not out. Those whose announcements lie on cache lines of their own come first.
    pub fn vacant(&self) -> Option<u32>
        ensures inside { IfSome result (λ k. k < self.now.words.sizes.samplers) }
        ensures absent { IfSome result (λ k. is_out self.now.streamer.writer k ≡ false) }
        ensures all { IfNone result ((k : ℕ) → k < self.now.words.sizes.samplers → is_out self.now.streamer.writer k ≡ true) }
    {
        let _depth = self.depth;
        vacant_in(self.out.as_slice())
    }

    /// Admits a reader as a sampler whose pass is not out, where the root is mapped.
    pub fn admit(&mut self, sampler: u32) -> Result<Reader, NoMemory>
        requires inside { sampler < self.old.words.sizes.samplers }
        requires absent { is_out self.old.streamer.writer sampler ≡ false }
        requires rooted { is_mapped (newest self.old.streamer.writer.journal) (root_of self.old.streamer.shape) ≡ true }
        ensures reader { IfOk result (IsAdmitted self.old sampler) }
        ensures given { OnOk result (self.new ≡ record self.old {
          streamer = record self.old.streamer {
            writer = after_giving (after_look self.old.streamer.writer sampler 0) sampler;
          };
        }) }
        ensures refused { OnErr result (self.new ≡ self.old) }
    {
        let words = Arc::try_clone(&self.words)?;
        let pass = self.table.give_pass(&*self.words, sampler);
        self.out[sampler as usize] = true;
        let geometry = *self.table.geometry();
        Ok(Reader::new(words, geometry, self.depth, sampler, pass))
    }

    /// Takes a reader of this table back, also one that holds a version. From then on all that it noted is known to be true of the journal,
    /// so each texel that it read is that of the tile that was given for the page that it found, in the version that it held.
    pub fn take_back(&mut self, reader: Reader)
        requires { IsReaderOf self.old reader }
        ensures taken { self.new ≡ record self.old {
          streamer = record self.old.streamer {
            writer = after_return self.old.streamer.writer (left_by reader.stand);
          };
        } }
        ensures sound { IsSound self.new.streamer.writer }
        ensures tiles { (version : ℕ) (p : Point) (bytes : List ℕ)
            → IsAnswered self.new.streamer.shape self.new.depth version (IsNotedIn (left_by reader.stand)) p bytes
            → IsOfItsTile self.new.streamer.shape self.new.depth self.new.streamer.writer.journal
            self.new.streamer.writer.contents version p bytes }
    {
        contents_have_the_versions_frames();
        contents_are_those_of_the_change_in_force();
        let sampler = reader.sampler();
        let pass = reader.into_pass();
        self.table.take_back(&*self.words, pass);
        self.out[sampler as usize] = false;
    }
}

// The first place that has false.
fn first_false(flags: &[bool]) -> Option<u32>
    requires { length flags.now ≤ most_samplers }
    ensures some { IfSome result (λ k. (k < length flags.now) × (slice_index_or flags.now k true ≡ false)) }
    ensures none { IfNone result ((k : ℕ) → k < length flags.now → slice_index_or flags.now k false ≡ true) }
{
    for k in 0..flags.len() {
        if !flags[k] {
            return Some(k as u32);
        }
    }
    None
}

// The first place that has false, from one on and then eight by eight.
fn false_on_line(flags: &[bool], from: usize) -> Option<u32>
    requires few { length flags.now ≤ most_samplers }
    requires from { from < most_samplers }
    ensures some { IfSome result (λ k. (k < length flags.now) × (slice_index_or flags.now k true ≡ false)) }
{
    for line in 0..8usize {
        let k = 8 * line + from;
        if k < flags.len() && !flags[k] {
            return Some(k as u32);
        }
    }
    None
}

// A place that has false. The newest version is word 0 and the announcements are the words behind it, so with eight words a line those of
// samplers 7, 15, 23 .. 63 lie on lines of their own. They come first, then those that share a line with one of them, and last those that
// share the line of the version.
fn vacant_in(flags: &[bool]) -> Option<u32>
    requires { length flags.now ≤ most_samplers }
    ensures some { IfSome result (λ k. (k < length flags.now) × (slice_index_or flags.now k true ≡ false)) }
    ensures none { IfNone result ((k : ℕ) → k < length flags.now → slice_index_or flags.now k false ≡ true) }
{
    for from in 7..15usize {
        if let Some(k) = false_on_line(flags, from) {
            return Some(k);
        }
    }
    first_false(flags)
}
