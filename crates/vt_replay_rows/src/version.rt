//! The rows of a pass that name a version.

ghost use Rattle.std.specs.Prelude.{◌≡◌, ◌≢◌, ℕ, ◌*◌, ◌<◌, ◌==◌, false, List, Some, length, slice_get, slice_index_or, OnOk};
ghost use Rattle.vt_definitions.specs.Depths.{IsDepth, texel_length};
ghost use Rattle.vt_outside.specs.Counts.{Rose};
ghost use Rattle.vt_pages.specs.Pages.{pages_of};
ghost use Rattle.vt_journal.specs.declared.changes.RowLine.{RowLine};
ghost use Rattle.vt_journal.specs.Kept.{entries_of};
ghost use Rattle.vt_pictures.specs.Scenes.{scene_of};
ghost use Rattle.vt_replay_rows.specs.Following.{IsReadOn, IsReplayReady};
ghost use Rattle.vt_replay_rows.specs.ReplayLookups.{bytes_row};
ghost use Rattle.vt_replay_rows.specs.Trying.{ShowsRow};

use crate::beside::{Part, draw_beside};
use crate::draw::draw_left;
use crate::table::PageTable;
use crate::tiles::Tiles;
use std::thread::Threads;
use vt_journal::RowLine;
use vt_outside::{File, OutsideError};
use vt_pictures::{Filter, Shot};
use vt_tiles::Store;

// How many rows a picture has at most.
const MOST_ROWS: usize = 2048;

// Marks the rows of a pass that name a version.
fn mark_rows(left: &mut [bool], rows: &[RowLine], version: u64)
    requires { length left.old ≡ length rows.now }
    ensures { (y : ℕ) (row : RowLine) → slice_get rows.now y ≡ Some row
        → slice_index_or left.new y false ≡ (row.version == version) }
{
    for y in 0..rows.len() {
        left[y] = rows[y].version == version;
    }
}

/// Draws the rows of a pass that name a version, over the table of that version, and reads the tiles that they need and the set has
/// not: in parts beside one another where they are worth it. The counts are scratch room.
pub fn draw_version<Rt: Threads + Sync, P: Filter + Sync, F: File>(
    rt: &Rt,
    parts: &mut [Part],
    table: &PageTable,
    tiles: &mut Tiles,
    store: &mut Store<F>,
    shot: &Shot<'_>,
    rows: &[RowLine],
    version: u64,
    samples: &mut [u8],
    counts: &mut [u32],
) -> Result<(), OutsideError>
    requires depth { IsDepth shot.now.depth }
    requires picture { shot.now.picture < length shot.now.path.now.cameras }
    requires rows { length rows.now ≡ shot.now.path.now.height }
    requires bytes { length samples.old ≡ shot.now.path.now.height * (texel_length shot.now.depth * shot.now.path.now.width) }
    requires pages { length counts.old ≡ pages_of shot.now.geometry.now }
    requires ready { IsReplayReady F.File shot.now.geometry.now shot.now.depth table.now.entries.items
        tiles.old.size tiles.old.slots.items tiles.old.owners.items tiles.old.bytes.items store.old }
    ensures ready { OnOk result (IsReplayReady F.File shot.now.geometry.now shot.now.depth table.now.entries.items
        tiles.new.size tiles.new.slots.items tiles.new.owners.items tiles.new.bytes.items store.new) }
    ensures shown { OnOk result ((y : ℕ) (row : RowLine) → slice_get rows.now y ≡ Some row → row.version ≡ version
        → ShowsRow P.under (scene_of shot.now.geometry.now shot.now.depth shot.now.path.now)
        (entries_of table.now.entries.items) (F.bytes store.old.file) shot.now.picture y
        (bytes_row (texel_length shot.now.depth * shot.now.path.now.width) samples.new y)) }
    ensures kept { OnOk result ((y : ℕ) (row : RowLine) → slice_get rows.now y ≡ Some row → row.version ≢ version
        → let line = texel_length shot.now.depth * shot.now.path.now.width in
        bytes_row line samples.new y ≡ bytes_row line samples.old y) }
    ensures failed { result ≡ Err OutsideError.Failed → Rose (F.faults store.old.file) (F.faults store.new.file) }
    ensures read { IsReadOn F.File store.old store.new }
{
    let height = shot.path.height();
    let mut marks = [false; MOST_ROWS];
    let left = &mut marks[..height as usize];
    mark_rows(left, rows, version);
    draw_beside::<Rt, P, F>(rt, parts, table, tiles, store, shot, left, samples)?;
    draw_left::<P, F>(table, tiles, store, shot, left, samples, counts)?;
    Ok(())
}
