//! A journal's text, read as a whole.

ghost use Rattle.std.specs.Prelude.{◌≡◌, ◌<◌, ◌⊎◌, ◌^◌, length, map, slice_get, Some, MatchResult, IfOk, IfErr};
ghost use Rattle.vt_journal.specs.declared.parse.JournalError.{JournalError};
ghost use Rattle.vt_journal.specs.JournalText.{Content, journal_text};
ghost use Rattle.vt_journal.specs.JournalFlaws.{IsLawfulJournal, IsJournalFlaw};
ghost use Rattle.vt_journal.specs.Passes.{pass_of};
ghost use Rattle.vt_journal.specs.Texts.{IsJournalText};

use crate::journal::Journal;
use crate::parse::JournalError;
use crate::passes::PassText;
use crate::read::read_text;
use std::alloc::Global;
use std::marker::Model;
use vt_pages::Geometry;

/// What the text of a journal tells. Contracts see how many pages are pinned and what each pass tells, and the changes
/// of the journal.
#[derive(Drop)]
pub struct JournalText {
    journal: Journal,
    pinned: u32,
    passes: Vec<PassText>,
}

impl Model for JournalText {
    ghost use Rattle.std.specs.Prelude.{map, length, ◌<◌, ◌^◌};
    ghost use Rattle.vt_journal.specs.Passes.{pass_of};
    ghost use Rattle.vt_journal.specs.Texts.{TextView};

    ghost Value = { TextView };

    ghost view = { λ t. record {
      content = record { pinned = t.pinned; passes = map pass_of t.passes.items };
      changes = t.journal.changes;
    } };

    ghost invariant = { λ t. length t.passes.items < 2 ^ 32 };
}

impl JournalText {
    /// Joins what was read.
    pub(crate) fn from_parts(journal: Journal, pinned: u32, passes: Vec<PassText>) -> JournalText
        requires { length passes.items < 2 ^ 32 }
        ensures { result ≡ record {
          content = record { pinned = pinned; passes = map pass_of passes.items };
          changes = journal.changes;
        } }
    {
        JournalText {
            journal,
            pinned,
            passes,
        }
    }

    /// The journal: the changes that map the pinned pages, and those of the passes.
    pub fn journal(&self) -> &Journal
        ensures { result.now.changes ≡ self.now.changes }
    {
        &self.journal
    }

    /// How many pages are pinned.
    pub fn pinned(&self) -> u32
        ensures { result ≡ self.now.content.pinned }
    {
        self.pinned
    }

    /// The number of passes.
    pub fn passes(&self) -> u32
        ensures { result ≡ length self.now.content.passes }
    {
        self.passes.len() as u32
    }

    /// The pass at a place, from 0 on.
    pub fn pass(&self, i: u32) -> &PassText
        requires { i < length self.now.content.passes }
        ensures { slice_get self.now.content.passes i ≡ Some (pass_of result.now) }
    {
        &self.passes[i as usize]
    }
}

/// Reads the text of a journal, for the pages of a geometry and pictures of a height.
///
/// The lines of the pinned pages come first, and then those of each pass: the line that begins it, its events, and one
/// line for each row. `BadLine` comes exactly for the first line that is not allowed there, or that is missing;
/// `NoMemory` where there is no memory for what the text tells, or where it tells more than 2^32 - 3 passes.
pub fn parse_journal(
    alloc: Global,
    geometry: &Geometry,
    height: u32,
    text: &[u8],
) -> Result<JournalText, JournalError>
    ensures ok { IfOk result (IsJournalText geometry.now height text.now) }
    ensures refused { IfErr result (λ e. (e ≡ JournalError.NoMemory) ⊎ IsJournalFlaw geometry.now height text.now e) }
    ensures formed { (content : Content) → IsLawfulJournal geometry.now height content → text.now ≡ journal_text geometry.now content
        → MatchResult result (λ j. j.content ≡ content) (λ e. e ≡ JournalError.NoMemory) }
    ensures faulty { (e : JournalError) → IsJournalFlaw geometry.now height text.now e
        → (result ≡ Err e) ⊎ (result ≡ Err JournalError.NoMemory) }
{
    read_text(alloc, geometry, height, text)
}
