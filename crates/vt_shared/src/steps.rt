//! What the owner does to the words, each a step that may have to wait for a sampler, and is made again then. None takes memory.

ghost use Rattle.std.specs.Prelude.{◌≡◌, ◌≢◌, ℕ, ◌<◌, None, Some, length, IfErr, OnOk, OnErr};
ghost use Rattle.vt_definitions.specs.Limits.{most_versions};
ghost use Rattle.vt_pages.specs.Pages.{pages_of, root_of};
ghost use Rattle.vt_journal.specs.Changes.{newest, IsFree};
ghost use Rattle.std.specs.Bool.{MatchBool};
ghost use Rattle.vt_definitions.specs.Depths.{IsDepth};
ghost use Rattle.vt_table.specs.Views.{IsTable};
ghost use Rattle.vt_streamer.specs.Views.{IsStreamerOf, streamer_table};
ghost use Rattle.vt_shared.specs.Given.{HasTileLength, AreOfTiles};
ghost use Rattle.vt_shared.specs.Owners.{HasWrittenFrame, HasMappedNext, HasUnmappedNext, HasKeptOwner, AwaitsBank, AwaitsEither};

use vt_grace::Words;
use vt_journal::Change;
use vt_streamer::{TableWriter, Waiting};

/// Whether no page is mapped to a frame: a frame that is mapped was filled for its page.
pub(crate) fn is_free(streamer: &TableWriter, frame: u32) -> bool
    requires lawful { IsTable (streamer_table streamer.now) }
    requires inside { frame < length streamer.now.owners }
    ensures { MatchBool result (IsFree (newest streamer.now.writer.journal) frame)
        (IsFree (newest streamer.now.writer.journal) frame → ⊥) }
{
    let number = streamer.owner_of(frame);
    if number == 0 {
        return true;
    }
    if number > streamer.geometry().page_count() {
        return true;
    }
    let Some(own) = streamer.frame_of(number - 1) else {
        return true;
    };
    if own == frame {
        return false;
    }
    true
}

/// Fills a frame with the tile of a page and maps the page to it, as soon as no reader may hold a version that maps the frame. It looks
/// whether it has to wait before it fills, so a step that waits costs no fill.
pub(crate) fn put_page(
    words: &Words,
    streamer: &mut TableWriter,
    depth: u32,
    page: u32,
    frame: u32,
    tile: &[u8],
) -> Result<(), Waiting>
    requires of { IsStreamerOf words.now streamer.old }
    requires page { page < pages_of streamer.old.shape }
    requires unmapped { newest streamer.old.writer.journal page ≡ None }
    requires frame { frame < length streamer.old.owners }
    requires free { IsFree (newest streamer.old.writer.journal) frame }
    requires depth { IsDepth depth }
    requires tile { HasTileLength streamer.old.shape depth (length tile.now) }
    requires given { AreOfTiles streamer.old.shape depth streamer.old.writer.journal streamer.old.writer.contents }
    requires room { length streamer.old.writer.journal < most_versions }
    ensures of { IsStreamerOf words.now streamer.new }
    ensures kept { HasKeptOwner streamer.old streamer.new }
    ensures given { AreOfTiles streamer.new.shape depth streamer.new.writer.journal streamer.new.writer.contents }
    ensures written { HasWrittenFrame streamer.old frame streamer.new }
    ensures mapped { OnOk result (HasMappedNext streamer.old page frame tile.now streamer.new) }
    ensures waiting { IfErr result (λ w. AwaitsEither streamer.old frame streamer.new w.sampler w.holds) }
    ensures refused { OnErr result (streamer.new.writer.journal ≡ streamer.old.writer.journal) }
    ensures contents { OnErr result (streamer.new.writer.contents ≡ streamer.old.writer.contents) }
{
    streamer.try_bank(words)?;
    streamer.try_free(words, frame)?;
    streamer.fill(words, frame, page, tile);
    streamer.publish(words, Change::Map { page, frame });
    Ok(())
}

/// Takes a page out of its frame.
pub(crate) fn take_page(
    words: &Words,
    streamer: &mut TableWriter,
    page: u32,
    frame: u32,
) -> Result<(), Waiting>
    requires of { IsStreamerOf words.now streamer.old }
    requires page { page < pages_of streamer.old.shape }
    requires mapped { newest streamer.old.writer.journal page ≡ Some frame }
    requires other { page ≢ root_of streamer.old.shape }
    requires room { length streamer.old.writer.journal < most_versions }
    ensures of { IsStreamerOf words.now streamer.new }
    ensures kept { HasKeptOwner streamer.old streamer.new }
    ensures given { (d : ℕ) → AreOfTiles streamer.old.shape d streamer.old.writer.journal streamer.old.writer.contents
        → AreOfTiles streamer.new.shape d streamer.new.writer.journal streamer.new.writer.contents }
    ensures written { streamer.new.writer.texels ≡ streamer.old.writer.texels }
    ensures unmapped { OnOk result (HasUnmappedNext streamer.old page frame streamer.new) }
    ensures waiting { IfErr result (λ w. AwaitsBank streamer.old streamer.new w.sampler w.holds) }
    ensures refused { OnErr result (streamer.new.writer.journal ≡ streamer.old.writer.journal) }
    ensures contents { OnErr result (streamer.new.writer.contents ≡ streamer.old.writer.contents) }
{
    streamer.try_publish(words, Change::Unmap { page, frame })?;
    Ok(())
}
