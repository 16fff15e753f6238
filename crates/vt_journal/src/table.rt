//! The newest version of a page table, by pages and by frames.

ghost use Rattle.std.specs.Prelude.{◌≡◌, ◌<◌, ◌≤◌, ℕ, length, slice_index, Some, None, IfOk};
ghost use Rattle.std.specs.Bool.{MatchBool};
ghost use Rattle.vt_text.specs.Limits.{most_pages, most_frames};
ghost use Rattle.vt_journal.specs.Changes.{IsFree, IsNext, nothing_mapped, with_entry, changed};
ghost use Rattle.vt_journal.specs.Lookups.{change_page};
ghost use Rattle.vt_journal.specs.Kept.{IsWithinTable, entries_of, change_frame};

use crate::changes::Change;
use crate::limits::MOST_FRAMES;
use std::alloc::Global;
use std::marker::Model;
use vt_text::NoMemory;

/// A page table: for each page the number of its frame, and for each frame the number of its page, each one more than
/// what it gives, and 0 for none. Contracts see the numbers of the pages.
#[derive(Drop)]
pub struct PageTable {
    frames: Vec<u32>,
    pages: Vec<u32>,
}

impl Model for PageTable {
    ghost use Rattle.std.specs.Prelude.{List, ℕ};
    ghost use Rattle.vt_journal.specs.Kept.{ArePaired};

    ghost Value = { List ℕ };

    ghost view = { λ t. t.frames.items };

    ghost invariant = { λ t. ArePaired t.frames.items t.pages.items };
}

// So many zeros.
fn zeros(alloc: Global, n: usize) -> Result<Vec<u32>, NoMemory>
    ensures count { IfOk result (λ v. length v.items ≡ n) }
    ensures zero { IfOk result (λ v. (k : ℕ) → slice_index v.items k ≡ 0) }
{
    Ok(vec![in alloc; 0; n]?)
}

impl PageTable {
    /// The table of so many pages that maps nothing.
    pub fn new(alloc: Global, pages: u32) -> Result<PageTable, NoMemory>
        requires { pages ≤ most_pages }
        ensures { IfOk result (λ t. (length t ≡ pages) × (entries_of t ≡ nothing_mapped)) }
    {
        Ok(PageTable {
            frames: zeros(alloc, pages as usize)?,
            pages: zeros(alloc, MOST_FRAMES as usize)?,
        })
    }

    /// The frame of a page, if it is mapped.
    pub fn entry(&self, page: u32) -> Option<u32>
        requires { page < length self.now }
        ensures { result ≡ entries_of self.now page }
    {
        match self.frames[page as usize] {
            0 => None,
            number => Some(number - 1),
        }
    }

    /// Whether no page is mapped to a frame.
    pub fn is_free(&self, frame: u32) -> bool
        requires { frame < most_frames }
        ensures { MatchBool result (IsFree (entries_of self.now) frame) (IsFree (entries_of self.now) frame → ⊥) }
    {
        self.pages[frame as usize] == 0
    }

    /// Maps a page to a frame, both of which are free.
    pub fn map(&mut self, page: u32, frame: u32)
        requires within { IsWithinTable (length self.old) page frame }
        requires no_frame { entries_of self.old page ≡ None }
        requires free { IsFree (entries_of self.old) frame }
        ensures pages { length self.new ≡ length self.old }
        ensures entries { entries_of self.new ≡ with_entry (entries_of self.old) page (Some frame) }
    {
        self.frames[page as usize] = frame + 1;
        self.pages[frame as usize] = page + 1;
    }

    /// Maps a page no more, which is mapped to the frame.
    pub fn unmap(&mut self, page: u32, frame: u32)
        requires within { IsWithinTable (length self.old) page frame }
        requires mapped { entries_of self.old page ≡ Some frame }
        ensures pages { length self.new ≡ length self.old }
        ensures entries { entries_of self.new ≡ with_entry (entries_of self.old) page None }
    {
        self.frames[page as usize] = 0;
        self.pages[frame as usize] = 0;
    }

    /// Makes a change that may come next.
    pub fn change(&mut self, change: Change)
        requires within { IsWithinTable (length self.old) (change_page change) (change_frame change) }
        requires in_turn { IsNext (entries_of self.old) change }
        ensures pages { length self.new ≡ length self.old }
        ensures entries { entries_of self.new ≡ changed (entries_of self.old) change }
    {
        match change {
            Change::Map { page, frame } => self.map(page, frame),
            Change::Unmap { page, frame } => self.unmap(page, frame),
        }
    }
}
