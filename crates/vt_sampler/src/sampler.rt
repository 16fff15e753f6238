//! A sampler, which draws its share of the rows of a picture.

ghost use Rattle.std.specs.Prelude.{◌≡◌, ℕ, ◌<◌, ◌≤◌, true, length, slice_index, reverse, IfOk};
ghost use Rattle.vt_definitions.specs.Limits.{most_samplers};
ghost use Rattle.vt_definitions.specs.Depths.{IsDepth};
ghost use Rattle.vt_lookup.specs.Shots.{shot_row, AreDrawn, wants_in_rows, pixels_in_rows};
ghost use Rattle.vt_lookup.specs.Evidence.{AreShown};
ghost use Rattle.vt_lookup.specs.Tokens.{IsPassOf};
ghost use Rattle.vt_lookup.specs.Notes.{FitsShape, IsNotedIn, HasHeldMore};
ghost use Rattle.vt_sampler.specs.Held.{WasHeld};
ghost use Rattle.vt_sampler.specs.Notes.{IsTrueOf, TableMapsRoot};
ghost use Rattle.vt_sampler.specs.Samplers.{SamplerView, IsOwn, IsFor, IsSampler, own_rows, row_length, row_at, version_at};

use crate::held_rows::{HeldRows, draw_held_rows};
use crate::rows::{clear, draw_rows, set_all};
use std::alloc::Global;
use std::marker::Model;
use vt_definitions::{own_count, texel_length, turn_of};
use vt_lookup::{Filter, Nearest, Pass, Path, Shot, Words};
use vt_outside::{Gate, NoMemory};
use vt_pages::Geometry;
use vt_table::StillTable;

/// One of the samplers that share the rows of a picture: each draws the rows that it is dealt. Contracts see the rows' bytes, the version at which each was drawn, and how many texels they want of each
/// page.
#[derive(Drop)]
pub struct Sampler {
    sampler: u32,
    samplers: u32,
    width: u32,
    height: u32,
    depth: u32,
    rows: HeldRows,
}

impl Model for Sampler {
    ghost use Rattle.vt_sampler.specs.Samplers.{SamplerView, IsSampler};

    ghost Value = { SamplerView };

    ghost view = { λ s. record {
      sampler = s.sampler;
      samplers = s.samplers;
      width = s.width;
      height = s.height;
      depth = s.depth;
      versions = s.rows.versions.items;
      bytes = s.rows.bytes.items;
      counts = s.rows.counts.items;
    } };

    ghost invariant = { λ s. IsSampler (record {
      sampler = s.sampler;
      samplers = s.samplers;
      width = s.width;
      height = s.height;
      depth = s.depth;
      versions = s.rows.versions.items;
      bytes = s.rows.bytes.items;
      counts = s.rows.counts.items;
    }) };
}

impl Sampler {
    /// The sampler of this number among so many, from 1 to 64, for pictures of a path, of a texture that is cut into pages, whose
    /// samples have `depth` bytes, 1 or 2. It takes its buffers here, and none later.
    pub fn new(
        alloc: Global,
        sampler: u32,
        samplers: u32,
        path: &Path,
        geometry: &Geometry,
        depth: u32,
    ) -> Result<Sampler, NoMemory>
        requires one_of { sampler < samplers }
        requires few { samplers ≤ most_samplers }
        requires depth { IsDepth depth }
        ensures sampler { IfOk result (λ v. (v.sampler ≡ sampler) × (v.samplers ≡ samplers)) }
        ensures version { IfOk result (λ v. (y : ℕ) → version_at v y ≡ 0) }
        ensures for_it { IfOk result (λ v. IsFor v geometry.now path.now depth) }
    {
        let line = texel_length(depth) * path.width() as usize;
        let rows = own_count(sampler, samplers, path.height());
        let versions = Vec::from_elem(alloc, 0, rows as usize)?;
        let bytes = Vec::from_elem(alloc, 0, rows as usize * line)?;
        let counts = Vec::from_elem(alloc, 0, geometry.page_count() as usize)?;
        Ok(Sampler {
            sampler,
            samplers,
            width: path.width(),
            height: path.height(),
            depth,
            rows: HeldRows {
                pass: None,
                versions,
                bytes,
                counts,
            },
        })
    }

    /// Draws its rows of a picture over a page table, from the top, and counts how many of their pixels want each page. The
    /// table maps the root, and all are for one path, one texture and one depth. It takes no memory and refuses nothing.
    pub fn draw_still(&mut self, shot: &Shot, table: &StillTable)
        requires for_it { IsFor self.old shot.now.geometry.now shot.now.path.now shot.now.depth }
        requires picture { shot.now.picture < length shot.now.path.now.cameras }
        requires shape { table.now.shape ≡ shot.now.geometry.now }
        requires root { TableMapsRoot table.now }
        ensures drawn { (y : ℕ) → IsOwn self.new y
            → let row = shot_row shot.now.geometry.now shot.now.path.now shot.now.picture y in
            AreDrawn shot.now.geometry.now shot.now.depth (version_at self.new y) (IsTrueOf table.now) row
            shot.now.path.now.width (row_at self.new y) }
        ensures full { (y : ℕ) → IsOwn self.new y
            → length (row_at self.new y) ≡ row_length shot.now.depth shot.now.path.now.width }
        ensures version { (y : ℕ) → IsOwn self.new y → version_at self.new y ≡ length table.now.changes }
        ensures counted { (p : ℕ) → p < length self.new.counts
            → let rows = own_rows self.new.sampler self.new.samplers self.new.height in
            slice_index self.new.counts p ≡ pixels_in_rows shot.now.geometry.now shot.now.path.now shot.now.picture rows p }
        ensures sampler { (self.new.sampler ≡ self.old.sampler) × (self.new.samplers ≡ self.old.samplers) }
        ensures for_it { IsFor self.new shot.now.geometry.now shot.now.path.now shot.now.depth }
    {
        clear(self.rows.counts.as_mut_slice());
        set_all(self.rows.versions.as_mut_slice(), table.journal().version());
        draw_rows(table, shot, self.sampler, self.samplers, &mut self.rows);
    }

    /// Draws its rows of a picture by a filter over a table of words, from the top, each in the newest version, which it holds
    /// meanwhile, and counts how many texels they want of each page. It gives the pass back.
    ///
    /// The pass is this sampler's and was given at a version that maps the root, and all are for one path, one texture and one
    /// depth. The gate is told of a row after the pin and before its first look-up. It takes no memory, refuses nothing, and
    /// waits only where the gate does.
    pub fn draw_by<P: Filter, G: Gate>(
        &mut self,
        shot: &Shot,
        words: &Words,
        pass: Pass,
        gate: &G,
    ) -> Pass
        requires for_it { IsFor self.old shot.now.geometry.now shot.now.path.now shot.now.depth }
        requires picture { shot.now.picture < length shot.now.path.now.cameras }
        requires fits { FitsShape shot.now.geometry.now words.now.sizes }
        requires of { IsPassOf words.now pass }
        requires rooted { pass.view.rooted ≡ true }
        requires own { pass.view.sampler ≡ self.old.sampler }
        ensures of { IsPassOf words.now result }
        ensures holds { HasHeldMore pass.view result.view (reverse self.new.versions) }
        ensures drawn { (y : ℕ) → IsOwn self.new y
            → let row = shot_row shot.now.geometry.now shot.now.path.now shot.now.picture y in
            AreShown P.shown shot.now.geometry.now shot.now.depth (version_at self.new y) (IsNotedIn result.view) row
            shot.now.path.now.width (row_at self.new y) }
        ensures full { (y : ℕ) → IsOwn self.new y
            → length (row_at self.new y) ≡ row_length shot.now.depth shot.now.path.now.width }
        ensures held { (y : ℕ) → IsOwn self.new y → WasHeld pass.view result.view (version_at self.new y) }
        ensures rising { (y z : ℕ) → IsOwn self.new y → IsOwn self.new z → y ≤ z
            → version_at self.new y ≤ version_at self.new z }
        ensures counted { (p : ℕ) → p < length self.new.counts
            → let rows = own_rows self.new.sampler self.new.samplers self.new.height in
            slice_index self.new.counts p ≡ wants_in_rows P.wants shot.now.geometry.now shot.now.path.now shot.now.picture rows p }
        ensures sampler { (self.new.sampler ≡ self.old.sampler) × (self.new.samplers ≡ self.old.samplers) }
        ensures for_it { IsFor self.new shot.now.geometry.now shot.now.path.now shot.now.depth }
    {
        clear(self.rows.counts.as_mut_slice());
        draw_held_rows::<P, G>(
            pass,
            words,
            shot,
            self.sampler,
            self.samplers,
            gate,
            &mut self.rows,
        )
    }

    /// Draws as `draw_by` does, each pixel of one texel, and counts how many of the pixels of its rows want each page.
    pub fn draw<G: Gate>(&mut self, shot: &Shot, words: &Words, pass: Pass, gate: &G) -> Pass
        requires for_it { IsFor self.old shot.now.geometry.now shot.now.path.now shot.now.depth }
        requires picture { shot.now.picture < length shot.now.path.now.cameras }
        requires fits { FitsShape shot.now.geometry.now words.now.sizes }
        requires of { IsPassOf words.now pass }
        requires rooted { pass.view.rooted ≡ true }
        requires own { pass.view.sampler ≡ self.old.sampler }
        ensures of { IsPassOf words.now result }
        ensures holds { HasHeldMore pass.view result.view (reverse self.new.versions) }
        ensures drawn { (y : ℕ) → IsOwn self.new y
            → let row = shot_row shot.now.geometry.now shot.now.path.now shot.now.picture y in
            AreDrawn shot.now.geometry.now shot.now.depth (version_at self.new y) (IsNotedIn result.view) row
            shot.now.path.now.width (row_at self.new y) }
        ensures full { (y : ℕ) → IsOwn self.new y
            → length (row_at self.new y) ≡ row_length shot.now.depth shot.now.path.now.width }
        ensures held { (y : ℕ) → IsOwn self.new y → WasHeld pass.view result.view (version_at self.new y) }
        ensures rising { (y z : ℕ) → IsOwn self.new y → IsOwn self.new z → y ≤ z
            → version_at self.new y ≤ version_at self.new z }
        ensures counted { (p : ℕ) → p < length self.new.counts
            → let rows = own_rows self.new.sampler self.new.samplers self.new.height in
            slice_index self.new.counts p ≡ pixels_in_rows shot.now.geometry.now shot.now.path.now shot.now.picture rows p }
        ensures sampler { (self.new.sampler ≡ self.old.sampler) × (self.new.samplers ≡ self.old.samplers) }
        ensures for_it { IsFor self.new shot.now.geometry.now shot.now.path.now shot.now.depth }
    {
        self.draw_by::<Nearest, G>(shot, words, pass, gate)
    }

    /// The bytes of one of its rows: three samples a pixel, the most significant byte of a sample first.
    pub fn row(&self, y: u32) -> &[u8]
        requires { IsOwn self.now y }
        ensures bytes { result.now ≡ row_at self.now y }
        ensures length { length result.now ≡ row_length self.now.depth self.now.width }
    {
        let line = texel_length(self.depth) * self.width as usize;
        let at = turn_of(y, self.samplers) as usize * line;
        &self.rows.bytes[at..at + line]
    }

    /// The version of the page table at which one of its rows was drawn, or 0 before the first.
    pub fn version(&self, y: u32) -> u64
        requires { IsOwn self.now y }
        ensures { result ≡ version_at self.now y }
    {
        self.rows.versions[turn_of(y, self.samplers) as usize]
    }

    /// How many texels its rows want of each page: with one texel a pixel, how many of their pixels want it.
    pub fn counts(&self) -> &[u32]
        ensures { result.now ≡ self.now.counts }
    {
        self.rows.counts.as_slice()
    }
}
