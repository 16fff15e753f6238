//! The text of a journal, read line by line.

ghost use Rattle.std.specs.Prelude.{◌≡◌, ◌⊎◌, ◌<◌, ◌^◌, [], ◌∷◌, ◌++◌, length, MatchResult};
ghost use Rattle.vt_pages.specs.Pages.{IsWithinLimits, pages_of};
ghost use Rattle.vt_journal.specs.JournalReading.{IsCursor, IsJournalRefusal, IsSource, IsHeadWhole, AreAllPassesRead, head_reading};
ghost use Rattle.vt_journal.specs.JournalFlaws.{IsJournalFlaw, nothing_read};
ghost use Rattle.vt_journal.specs.Texts.{IsJournalText, SpellsPasses};

mod events;
mod head;
mod pass;
mod rows;
mod source;

use crate::kept::Kept;
use crate::parse::JournalError;
use crate::passes::PassText;
use crate::read::head::read_head;
use crate::read::pass::read_pass;
use crate::read::source::{Cursor, Source};
use crate::text::JournalText;
use std::alloc::Global;
use vt_pages::Geometry;

// How many passes a text may tell.
const MOST_PASSES: usize = 4_294_967_293;

// Adds a pass.
fn add_pass(passes: &mut Vec<PassText>, pass: PassText) -> Result<(), JournalError>
    ensures { MatchResult result (λ _. passes.new.items ≡ passes.old.items ++ pass ∷ []) (λ e. e ≡ JournalError.NoMemory) }
{
    passes.reserve(1)?;
    passes.push_reserved(pass);
    Ok(())
}

// Reads all passes, up to the end of the text.
fn read_passes(
    alloc: Global,
    source: &Source,
    kept: &mut Kept,
    pinned: u32,
    cursor: Cursor,
) -> Result<Vec<PassText>, JournalError>
    requires cursor { IsCursor source.now.text.now cursor.at cursor.number }
    requires head { IsHeadWhole source.now.geometry.now source.now.height kept.old.changes kept.old.pages pinned }
    ensures { MatchResult result
        (λ v. AreAllPassesRead source.now.geometry.now source.now.height source.now.text.now
        kept.old.changes kept.new.changes v.items cursor.at)
        (IsJournalRefusal source.now.geometry.now source.now.height source.now.text.now (head_reading kept.old.changes)
        cursor.at cursor.number) }
{
    let mut passes = Vec::new(alloc);
    let mut picture = 0;
    let mut place = cursor;
    'passes: while place.at < source.text.len() {
        if passes.len() >= MOST_PASSES {
            return Err(JournalError::NoMemory);
        }
        let read = read_pass(
            alloc,
            source,
            kept,
            pinned,
            passes.len() as u32,
            picture,
            place,
        )?;
        picture = read.pass.picture;
        place = read.next;
        add_pass(&mut passes, read.pass)?;
    }
    Ok(passes)
}

// What a text tells besides its changes.
#[derive(Drop)]
struct TextRead {
    pinned: u32,
    passes: Vec<PassText>,
}

// Reads the lines of the pinned pages and then all passes.
fn read_all(alloc: Global, source: &Source, kept: &mut Kept) -> Result<TextRead, JournalError>
    requires limits { IsSource source.now.geometry.now source.now.height }
    requires none { kept.old.changes ≡ [] }
    requires pages { kept.old.pages ≡ pages_of source.now.geometry.now }
    ensures { MatchResult result
        (λ t. (length t.passes.items < 2 ^ 32)
        × SpellsPasses source.now.geometry.now source.now.height source.now.text.now t.pinned t.passes.items kept.new.changes)
        (IsJournalRefusal source.now.geometry.now source.now.height source.now.text.now nothing_read 0 1) }
{
    let head = read_head(source, kept)?;
    let passes = read_passes(alloc, source, kept, head.pinned, head.next)?;
    Ok(TextRead {
        pinned: head.pinned,
        passes,
    })
}

/// Reads the text of a journal, for the pages of a geometry and pictures of a height.
pub fn read_text(
    alloc: Global,
    geometry: &Geometry,
    height: u32,
    text: &[u8],
) -> Result<JournalText, JournalError>
    ensures limits { IsWithinLimits geometry.now }
    ensures read { MatchResult result (IsJournalText geometry.now height text.now)
        (λ e. (e ≡ JournalError.NoMemory) ⊎ IsJournalFlaw geometry.now height text.now e) }
{
    let pages = geometry.page_count();
    let source = Source {
        geometry,
        height,
        text,
    };
    let mut kept = Kept::new(alloc, pages)?;
    let read = read_all(alloc, &source, &mut kept)?;
    Ok(JournalText::from_parts(kept.into_journal(), read.pinned, read.passes))
}
