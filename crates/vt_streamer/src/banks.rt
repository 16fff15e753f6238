//! The bank of the next version is made, change by change, from the version that it had to the next one.

ghost use Rattle.std.specs.Prelude.{◌≡◌, ◌+◌, ◌≤◌, ◌<◌};
ghost use Rattle.vt_definitions.specs.Limits.{most_versions};
ghost use Rattle.vt_table.specs.Changes.{at, newest};
ghost use Rattle.vt_table.specs.Lookups.{change_page};
ghost use Rattle.vt_grace.specs.Changes.{IsNextKeeping};
ghost use Rattle.vt_grace.specs.WriterViews.{version_of, after_entry};
ghost use Rattle.vt_grace.specs.Places.{bank_of};
ghost use Rattle.vt_grace.specs.Banks.{MayWriteNext, StandsForTable};
ghost use Rattle.vt_grace.specs.Sound.{IsSound};
ghost use Rattle.vt_grace.specs.Tokens.{IsWriterOf};
ghost use Rattle.vt_streamer.specs.Banks.{new_entry, IsChangeInside, AreChangesInside, AreRotated, HasWrittenBank, HasPublished};
ghost use Rattle.vt_streamer.specs.Latests.{AreLatest};

use crate::latest::{Latest, change_back};
use vt_grace::{Words, WriterSeat};
use vt_table::Change;

// Writes the entry that a change gives its page into the bank of the next version.
fn advance(words: &Words, writer: &mut WriterSeat, change: Change)
    requires of { IsWriterOf words.now writer.old }
    requires may { MayWriteNext writer.old.view }
    requires inside { IsChangeInside words.now.sizes change }
    ensures of { IsWriterOf words.now writer.new }
    ensures sound { IsSound writer.new.view }
    ensures view { writer.new.view ≡ after_entry writer.old.view (change_page change) (new_entry change) }
{
    match change {
        Change::Map { page, frame } => writer.set_entry(words, page, u64::from(frame) + 1),
        Change::Unmap { page, frame: _ } => writer.set_entry(words, page, 0),
    }
}

// Leads the bank of the next version on, from a version at most three before the newest one.
fn lead_on(words: &Words, writer: &mut WriterSeat, latest: &Latest, from: u64, version: u64)
    requires of { IsWriterOf words.now writer.old }
    requires sound { IsSound writer.old.view }
    requires may { MayWriteNext writer.old.view }
    requires latest { AreLatest writer.old.view.journal latest.now }
    requires inside { AreChangesInside words.now.sizes writer.old.view.journal }
    requires version { version ≡ version_of writer.old.view }
    requires from { from ≤ version }
    requires few { version ≤ from + 3 }
    requires stands { StandsForTable words.now.sizes writer.old.view.entries (at writer.old.view.journal from)
        (bank_of (version_of writer.old.view + 1)) }
    ensures of { IsWriterOf words.now writer.new }
    ensures sound { IsSound writer.new.view }
    ensures entered { HasWrittenBank writer.old.view writer.new.view }
    ensures stands { StandsForTable words.now.sizes writer.new.view.entries (newest writer.old.view.journal)
        (bank_of (version_of writer.old.view + 1)) }
{
    for made in from..version {
        advance(words, writer, change_back(latest, version - made));
    }
}

/// Writes the entries by which the next version differs from the one four before it, at most four, and publishes it.
pub(crate) fn put_next(words: &Words, writer: &mut WriterSeat, latest: &Latest, change: Change)
    requires of { IsWriterOf words.now writer.old }
    requires sound { IsSound writer.old.view }
    requires may { MayWriteNext writer.old.view }
    requires latest { AreLatest writer.old.view.journal latest.now }
    requires all { AreChangesInside words.now.sizes writer.old.view.journal }
    requires rotated { AreRotated writer.old.view }
    requires next { IsNextKeeping words.now.sizes.root (newest writer.old.view.journal) change }
    requires inside { IsChangeInside words.now.sizes change }
    requires room { version_of writer.old.view < most_versions }
    ensures of { IsWriterOf words.now writer.new }
    ensures sound { IsSound writer.new.view }
    ensures rotated { AreRotated writer.new.view }
    ensures published { HasPublished writer.old.view writer.new.view change }
    ensures floors { writer.new.view.floors ≡ writer.old.view.floors }
{
    let version = writer.version();
    let from = version.saturating_sub(3);
    lead_on(words, writer, latest, from, version);
    advance(words, writer, change);
    writer.publish(words, change);
}
