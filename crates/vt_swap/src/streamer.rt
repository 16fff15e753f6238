//! The writer of a page cache.

ghost use Rattle.std.specs.Prelude.{◌≡◌, ◌+◌, ◌*◌, ◌<◌, ◌≤◌, ◌^◌, ◌∷◌, ◌++◌, [], Some, false, length, OnOk, OnErr};
ghost use Rattle.vt_definitions.specs.Depths.{IsDepth, texel_length};
ghost use Rattle.vt_definitions.specs.Limits.{most_versions};
ghost use Rattle.vt_journal.specs.declared.changes.Change.TheVariants.{Map, Unmap};
ghost use Rattle.vt_journal.specs.Changes.{newest, IsNext};
ghost use Rattle.vt_swap_steps.specs.LogTypes.records.LogRecord.TheVariants.{Changed, Filled};
ghost use Rattle.vt_swap_steps.specs.Slots.{AreSlotsOf, IsSlotOf};
ghost use Rattle.vt_swap_steps.specs.Logs.{IsLawfulLog};
ghost use Rattle.vt_swap.specs.Streamers.{IsJournalWhole, IsShown, HasUnmapped, HasMapped, HasBrought, IsSwapRefused, MayBring};

use crate::layout::lay_out;
use std::alloc::Global;
use std::marker::Model;
use std::mem;
use std::sync::Wait;
use vt_journal::{Change, Journal};
use vt_outside::{Gate, NoMemory, Point};
use vt_swap_steps::{Front, Head, Slot, TableWriter, fill_and_map, is_lawful, note_and_publish};

/// The writer of a page cache: it changes the page table, and fills frames with tiles. Contracts see what it has done, the
/// journal of the page table, the version that readers find who enter, and whether it was refused memory in mid-step, after which it refuses all that is asked.
pub struct SwapStreamer {
    pub(crate) alloc: Global,
    pub(crate) writer: Option<TableWriter>,
    pub(crate) head: Head,
    pub(crate) front: Front,
    pub(crate) journal: Journal,
    // Words in whose place the next tile is laid out.
    pub(crate) spare: Vec<u64>,
    pub(crate) broken: bool,
}

impl Model for SwapStreamer {
    ghost use Rattle.std.specs.Prelude.{◌≡◌, false, drop, option_map, unwrap_or, IfSome, IsSome};
    ghost use Rattle.vt_swap_steps.specs.Caches.{cache_of};
    ghost use Rattle.vt_swap_steps.specs.Heads.{IsHeadOf};
    ghost use Rattle.vt_swap_steps.specs.Tables.{IsPublished, journal_of};
    ghost use Rattle.vt_swap.specs.Streamers.{StreamerView};

    ghost Value = { StreamerView };

    ghost view = { λ s. record {
      cache = cache_of s.front;
      log = s.front.seen.log;
      journal = s.journal.changes;
      room = s.journal.spare;
      shown = unwrap_or (option_map (λ w. w.desk.shown.value.version) s.writer) 0;
      broken = s.broken;
    } };

    ghost invariant = { λ s. IsHeadOf s.head s.front × IsSome s.writer
        × (s.broken ≡ false → (journal_of s.front ≡ s.journal.changes)
        × IfSome s.writer (λ w. IsPublished w.desk.shown.value (drop w.behind w.log.items) s.front)) };
}

impl SwapStreamer {
    /// The journal of the page table.
    pub fn journal(&self) -> &Journal
        ensures { result.now.changes ≡ self.now.journal }
    {
        &self.journal
    }

    /// Whether it was refused memory in mid-step. What it has done is lawful, and its journal is that of its log unless it was
    /// refused.
    pub fn is_broken(&self) -> bool
        ensures broken { result ≡ self.now.broken }
        ensures lawful { IsLawfulLog self.now.log }
        ensures whole { IsJournalWhole self.now }
        ensures shown { self.now.broken ≡ false → IsShown self.now }
    {
        is_lawful(&self.front);
        self.broken
    }

    /// Unmaps a page, which is mapped to the frame: readers who enter from then on do not find it. It waits for readers of the table
    /// before.
    pub fn unmap<R: Wait>(&mut self, rt: &R, page: u32, frame: u32) -> Result<(), NoMemory>
        requires next { IsNext (newest self.old.journal) (Unmap page frame) }
        requires early { length self.old.journal + 1 ≤ most_versions }
        requires small { frame + 1 < 2 ^ 32 }
        ensures unmapped { OnOk result (HasUnmapped self.old self.new page frame) }
        ensures goes_on { OnOk result (self.new.broken ≡ false) }
        ensures shown { OnOk result (IsShown self.new) }
        ensures refused { OnErr result (IsSwapRefused self.old self.new) }
    {
        if self.broken {
            return Err(NoMemory);
        }
        let change = Change::Unmap { page, frame };
        self.journal.reserve(1)?;
        self.broken = true;
        note_and_publish(rt, &mut self.writer, &self.head, &mut self.front, change)?;
        self.journal.push(change);
        self.broken = false;
        Ok(())
    }

    /// Fills a frame, which is free, with the tile of a page, and then maps the page to it. It waits for those who still read the frame,
    /// and for readers of the table before.
    ///
    /// The tile has so many texels, row by row, three samples a texel of `depth` bytes, the most significant first.
    pub fn map<R: Wait>(
        &mut self,
        rt: &R,
        slots: &[Slot],
        page: u32,
        frame: u32,
        tile: &[u8],
        depth: u32,
        texels: u32,
    ) -> Result<(), NoMemory>
        requires slots { AreSlotsOf self.old.cache slots.now }
        requires inside { frame < length slots.now }
        requires small { frame + 1 < 2 ^ 32 }
        requires next { IsNext (newest self.old.journal) (Map page frame) }
        requires early { length self.old.journal + 1 ≤ most_versions }
        requires depth { IsDepth depth }
        requires full { length tile.now ≡ texel_length depth * texels }
        ensures mapped { OnOk result (HasMapped depth texels tile.now self.old self.new page frame) }
        ensures goes_on { OnOk result (self.new.broken ≡ false) }
        ensures shown { OnOk result (IsShown self.new) }
        ensures refused { OnErr result (IsSwapRefused self.old self.new) }
    {
        if self.broken {
            return Err(NoMemory);
        }
        self.journal.reserve(1)?;
        let spare = mem::replace(&mut self.spare, Vec::new(self.alloc));
        let words = lay_out(self.alloc, spare, tile, depth, texels)?;
        self.put(rt, &slots[frame as usize], page, frame, words)
    }

    // Fills a frame with words, and maps a page to it.
    fn put<R: Wait>(
        &mut self,
        rt: &R,
        slot: &Slot,
        page: u32,
        frame: u32,
        words: Vec<u64>,
    ) -> Result<(), NoMemory>
        requires goes_on { self.old.broken ≡ false }
        requires slot { IsSlotOf self.old.cache frame slot.now }
        requires small { frame + 1 < 2 ^ 32 }
        requires next { IsNext (newest self.old.journal) (Map page frame) }
        requires early { length self.old.journal + 1 ≤ most_versions }
        requires room { 1 ≤ self.old.room }
        ensures cache { self.new.cache ≡ self.old.cache }
        ensures log { OnOk result (self.new.log ≡ self.old.log ++ Filled frame page words.items ∷ Changed (Map page frame) ∷ []) }
        ensures journal { OnOk result (self.new.journal ≡ self.old.journal ++ Map page frame ∷ []) }
        ensures goes_on { OnOk result (self.new.broken ≡ false) }
        ensures shown { OnOk result (IsShown self.new) }
        ensures refused { OnErr result (IsSwapRefused self.old self.new) }
    {
        self.broken = true;
        self.spare = fill_and_map(
            rt,
            &mut self.writer,
            &self.head,
            &mut self.front,
            slot,
            page,
            frame,
            words,
        )?;
        self.journal.push(Change::Map { page, frame });
        self.broken = false;
        Ok(())
    }

    /// Brings a page into a frame: unmaps the page that is mapped to the frame, if there is one, and maps the other page once the frame
    /// has its tile. The frame is written only after the unmap was published. Where it is refused memory, the page table may have
    /// been changed in part. The gate is told of each version once it was published.
    #[tactic(auto, using(crate::proofs::Bringing::brought_free))]
    pub fn bring<R: Wait, G: Gate>(
        &mut self,
        rt: &R,
        slots: &[Slot],
        page: u32,
        frame: u32,
        victim: Option<u32>,
        tile: &[u8],
        depth: u32,
        texels: u32,
        gate: &G,
    ) -> Result<(), NoMemory>
        requires slots { AreSlotsOf self.old.cache slots.now }
        requires inside { frame < length slots.now }
        requires small { frame + 1 < 2 ^ 32 }
        requires may { MayBring (newest self.old.journal) page frame victim }
        requires early { length self.old.journal + 2 ≤ most_versions }
        requires depth { IsDepth depth }
        requires full { length tile.now ≡ texel_length depth * texels }
        ensures brought { OnOk result (HasBrought depth texels tile.now self.old self.new page frame victim) }
        ensures goes_on { OnOk result (self.new.broken ≡ false) }
        ensures shown { OnOk result (IsShown self.new) }
        ensures cache { self.new.cache ≡ self.old.cache }
    {
        match victim {
            Some(victim) => self.replace(rt, slots, page, frame, victim, tile, depth, texels, gate),
            None => self.map_and_notify(rt, slots, page, frame, tile, depth, texels, gate),
        }
    }

    // Tells a gate of the newest version.
    fn notify<G: Gate>(&self, gate: &G) {
        gate.at(Point::Published {
            version: self.journal.version(),
        });
    }

    // Maps a page as `map` does, and tells the gate.
    fn map_and_notify<R: Wait, G: Gate>(
        &mut self,
        rt: &R,
        slots: &[Slot],
        page: u32,
        frame: u32,
        tile: &[u8],
        depth: u32,
        texels: u32,
        gate: &G,
    ) -> Result<(), NoMemory>
        requires slots { AreSlotsOf self.old.cache slots.now }
        requires inside { frame < length slots.now }
        requires small { frame + 1 < 2 ^ 32 }
        requires next { IsNext (newest self.old.journal) (Map page frame) }
        requires early { length self.old.journal + 1 ≤ most_versions }
        requires depth { IsDepth depth }
        requires full { length tile.now ≡ texel_length depth * texels }
        ensures mapped { OnOk result (HasMapped depth texels tile.now self.old self.new page frame) }
        ensures goes_on { OnOk result (self.new.broken ≡ false) }
        ensures shown { OnOk result (IsShown self.new) }
        ensures refused { OnErr result (IsSwapRefused self.old self.new) }
    {
        self.map(rt, slots, page, frame, tile, depth, texels)?;
        self.notify(gate);
        Ok(())
    }

    // Unmaps a page from a frame, and then maps another to it, which has its tile by then.
    #[tactic(auto, using(crate::proofs::Bringing::brought_after))]
    fn replace<R: Wait, G: Gate>(
        &mut self,
        rt: &R,
        slots: &[Slot],
        page: u32,
        frame: u32,
        victim: u32,
        tile: &[u8],
        depth: u32,
        texels: u32,
        gate: &G,
    ) -> Result<(), NoMemory>
        requires slots { AreSlotsOf self.old.cache slots.now }
        requires inside { frame < length slots.now }
        requires small { frame + 1 < 2 ^ 32 }
        requires may { MayBring (newest self.old.journal) page frame (Some victim) }
        requires early { length self.old.journal + 2 ≤ most_versions }
        requires depth { IsDepth depth }
        requires full { length tile.now ≡ texel_length depth * texels }
        ensures brought { OnOk result (HasBrought depth texels tile.now self.old self.new page frame (Some victim)) }
        ensures goes_on { OnOk result (self.new.broken ≡ false) }
        ensures shown { OnOk result (IsShown self.new) }
        ensures cache { self.new.cache ≡ self.old.cache }
    {
        let _version = self.journal.version();
        self.unmap(rt, victim, frame)?;
        self.notify(gate);
        self.map_and_notify(rt, slots, page, frame, tile, depth, texels, gate)
    }

    /// Ends the writer. It waits for readers.
    pub fn end<R: Wait>(self, rt: &R) {
        let SwapStreamer {
            alloc: _,
            writer,
            head: _,
            front: _,
            journal: _,
            spare: _,
            broken: _,
        } = self;
        match writer {
            Some(writer) => {
                let _table = writer.take(rt);
            }
            None => {}
        }
    }
}
