//! Rows of a picture, each drawn over the page table of its version and the loaded tiles, which are read as a row needs them.

ghost use Rattle.std.specs.Prelude.{◌≡◌, ◌≢◌, ℕ, ◌+◌, ◌*◌, ◌<◌, ◌≤◌, ◌^◌, false, Bool, List, Option, length, slice_index, OnOk};
ghost use Rattle.vt_definitions.specs.Depths.{IsDepth, texel_length};
ghost use Rattle.vt_outside.specs.Counts.{Rose};
ghost use Rattle.vt_pages.specs.Pages.{pages_of};
ghost use Rattle.vt_journal.specs.Kept.{entries_of};
ghost use Rattle.vt_pictures.specs.Scenes.{scene_of};
ghost use Rattle.vt_replay_rows.specs.Following.{IsReadOn, IsReplayReady};
ghost use Rattle.vt_replay_rows.specs.ReplayLookups.{IsReplayLookup, bytes_row, AreTiles};
ghost use Rattle.vt_replay_rows.specs.Trying.{replay_lookup_of, HoldsStoreTiles, ShowsRow, IsDone, AreTried};

use crate::noted::Noted;
use crate::replay_lookup::ReplayLookup;
use crate::table::PageTable;
use crate::tiles::Tiles;
use vt_definitions::texel_length;
use vt_outside::{File, OutsideError};
use vt_pictures::{Filter, Shot};
use vt_tiles::Store;

/// What came of a row that was drawn over the loaded tiles: whether one was missed, and which pages were used and which missing.
#[derive(Clone, Copy)]
pub(crate) struct Tried {
    pub missed: bool,
    pub used: Noted,
    pub missing: Noted,
}

/// Draws row `y` of a picture over a table and the loaded tiles, as a look-up over these sees them. It is drawn where no tile was missed.
pub(crate) fn try_line<P: Filter>(
    replay_lookup: &ReplayLookup<'_>,
    shot: &Shot,
    y: u32,
    out: &mut [u8],
    counts: &mut [u32],
) -> Tried
    requires depth { IsDepth shot.now.depth }
    requires same_shape { replay_lookup.now.shape ≡ shot.now.geometry.now }
    requires same_depth { replay_lookup.now.depth ≡ shot.now.depth }
    requires picture { shot.now.picture < length shot.now.path.now.cameras }
    requires within { y < shot.now.path.now.height }
    requires bytes { length out.old ≡ texel_length shot.now.depth * shot.now.path.now.width }
    requires pages { length counts.old ≡ pages_of shot.now.geometry.now }
    requires room { (p : ℕ) → p < length counts.old → slice_index counts.old p + 4 * shot.now.path.now.width < 2 ^ 32 }
    ensures shown { result.missed ≡ false → (known : Option (List ℕ))
        → HoldsStoreTiles shot.now.geometry.now shot.now.depth replay_lookup.now known
        → ShowsRow P.under (scene_of shot.now.geometry.now shot.now.depth shot.now.path.now)
        (entries_of replay_lookup.now.entries) known shot.now.picture y out.new }
    ensures counted { (p : ℕ) → p < length counts.new
        → slice_index counts.new p ≤ slice_index counts.old p + 4 * shot.now.path.now.width }
{
    // From here on it is known that the geometry keeps its limits.
    let _side = shot.geometry.tile();
    let mut own = replay_lookup.again();
    P::draw_row(&mut own, shot, y, out, counts);
    Tried {
        missed: own.missed(),
        used: own.used(),
        missing: own.missing(),
    }
}

// Draws row y of a picture over a table and the loaded tiles, by a look-up of its own.
fn try_once<P: Filter>(
    table: &PageTable,
    tiles: &Tiles,
    shot: &Shot,
    y: u32,
    out: &mut [u8],
    counts: &mut [u32],
) -> Tried
    requires replay_lookup { IsReplayLookup (replay_lookup_of shot.now.geometry.now shot.now.depth table.now tiles.now) }
    requires picture { shot.now.picture < length shot.now.path.now.cameras }
    requires within { y < shot.now.path.now.height }
    requires bytes { length out.old ≡ texel_length shot.now.depth * shot.now.path.now.width }
    requires pages { length counts.old ≡ pages_of shot.now.geometry.now }
    requires room { (p : ℕ) → p < length counts.old → slice_index counts.old p + 4 * shot.now.path.now.width < 2 ^ 32 }
    ensures shown { result.missed ≡ false → (known : Option (List ℕ))
        → HoldsStoreTiles shot.now.geometry.now shot.now.depth
        (replay_lookup_of shot.now.geometry.now shot.now.depth table.now tiles.now) known
        → ShowsRow P.under (scene_of shot.now.geometry.now shot.now.depth shot.now.path.now)
        (entries_of table.now.entries.items) known shot.now.picture y out.new }
    ensures counted { (p : ℕ) → p < length counts.new
        → slice_index counts.new p ≤ slice_index counts.old p + 4 * shot.now.path.now.width }
{
    let replay_lookup = ReplayLookup::new(shot.geometry, table, tiles, shot.depth);
    try_line::<P>(&replay_lookup, shot, y, out, counts)
}

/// Brings the tiles of pages into the set.
pub(crate) fn bring_all<F: File>(
    tiles: &mut Tiles,
    store: &mut Store<F>,
    pages: &[u32],
) -> Result<(), OutsideError>
    requires tiles { AreTiles store.old.shape store.old.depth tiles.old.size tiles.old.slots.items tiles.old.owners.items
        tiles.old.bytes.items (F.bytes store.old.file) }
    ensures tiles { OnOk result (AreTiles store.old.shape store.old.depth tiles.new.size tiles.new.slots.items
        tiles.new.owners.items tiles.new.bytes.items (F.bytes store.old.file)) }
    ensures failed { result ≡ Err OutsideError.Failed → Rose (F.faults store.old.file) (F.faults store.new.file) }
    ensures read { IsReadOn F.File store.old store.new }
{
    for page in pages {
        bring_inside(tiles, store, *page)?;
    }
    Ok(())
}

// Brings the tile of a page into the set, if the store has the page.
fn bring_inside<F: File>(
    tiles: &mut Tiles,
    store: &mut Store<F>,
    page: u32,
) -> Result<(), OutsideError>
    requires tiles { AreTiles store.old.shape store.old.depth tiles.old.size tiles.old.slots.items tiles.old.owners.items
        tiles.old.bytes.items (F.bytes store.old.file) }
    ensures tiles { OnOk result (AreTiles store.old.shape store.old.depth tiles.new.size tiles.new.slots.items
        tiles.new.owners.items tiles.new.bytes.items (F.bytes store.old.file)) }
    ensures failed { result ≡ Err OutsideError.Failed → Rose (F.faults store.old.file) (F.faults store.new.file) }
    ensures read { IsReadOn F.File store.old store.new }
{
    let _depth = store.depth();
    if page < store.geometry().page_count() {
        tiles.bring(store, page)?;
    }
    Ok(())
}

/// Sets the count of each page to 0.
pub(crate) fn clear(counts: &mut [u32])
    ensures { (p : ℕ) → p < length counts.new → slice_index counts.new p ≡ 0 }
{
    counts.fill(0);
}

// Draws row y of a picture over a table: anew each time that it missed tiles, after these were read. Each time one tile more that
// the row needs is loaded, so as many times as it has pixels are enough, but where the set has no room for all that it needs.
fn draw_line<P: Filter, F: File>(
    table: &PageTable,
    tiles: &mut Tiles,
    store: &mut Store<F>,
    shot: &Shot,
    y: u32,
    out: &mut [u8],
    counts: &mut [u32],
) -> Result<(), OutsideError>
    requires depth { IsDepth shot.now.depth }
    requires picture { shot.now.picture < length shot.now.path.now.cameras }
    requires within { y < shot.now.path.now.height }
    requires bytes { length out.old ≡ texel_length shot.now.depth * shot.now.path.now.width }
    requires pages { length counts.old ≡ pages_of shot.now.geometry.now }
    requires room { (p : ℕ) → p < length counts.old → slice_index counts.old p + 4 * shot.now.path.now.width < 2 ^ 32 }
    requires ready { IsReplayReady F.File shot.now.geometry.now shot.now.depth table.now.entries.items
        tiles.old.size tiles.old.slots.items tiles.old.owners.items tiles.old.bytes.items store.old }
    ensures ready { OnOk result (IsReplayReady F.File shot.now.geometry.now shot.now.depth table.now.entries.items
        tiles.new.size tiles.new.slots.items tiles.new.owners.items tiles.new.bytes.items store.new) }
    ensures shown { OnOk result (ShowsRow P.under (scene_of shot.now.geometry.now shot.now.depth shot.now.path.now)
        (entries_of table.now.entries.items) (F.bytes store.old.file) shot.now.picture y out.new) }
    ensures counted { (p : ℕ) → p < length counts.new
        → slice_index counts.new p ≤ slice_index counts.old p + 4 * shot.now.path.now.width }
    ensures failed { result ≡ Err OutsideError.Failed → Rose (F.faults store.old.file) (F.faults store.new.file) }
    ensures read { IsReadOn F.File store.old store.new }
{
    for _round in 0..shot.path.width() + 1 {
        let tried = try_once::<P>(table, tiles, shot, y, out, counts);
        tiles.touch(&tried.used);
        if !tried.missed {
            return Ok(());
        }
        clear(counts);
        bring_all(tiles, store, tried.missing.pages())?;
    }
    Err(OutsideError::NoMemory)
}

// Draws row y of a picture into its place among the picture's samples.
fn draw_into<P: Filter, F: File>(
    table: &PageTable,
    tiles: &mut Tiles,
    store: &mut Store<F>,
    shot: &Shot,
    y: u32,
    samples: &mut [u8],
    counts: &mut [u32],
) -> Result<(), OutsideError>
    requires depth { IsDepth shot.now.depth }
    requires picture { shot.now.picture < length shot.now.path.now.cameras }
    requires within { y < shot.now.path.now.height }
    requires bytes { length samples.old ≡ shot.now.path.now.height * (texel_length shot.now.depth * shot.now.path.now.width) }
    requires pages { length counts.old ≡ pages_of shot.now.geometry.now }
    requires room { (p : ℕ) → p < length counts.old → slice_index counts.old p + 4 * shot.now.path.now.width < 2 ^ 32 }
    requires ready { IsReplayReady F.File shot.now.geometry.now shot.now.depth table.now.entries.items
        tiles.old.size tiles.old.slots.items tiles.old.owners.items tiles.old.bytes.items store.old }
    ensures ready { OnOk result (IsReplayReady F.File shot.now.geometry.now shot.now.depth table.now.entries.items
        tiles.new.size tiles.new.slots.items tiles.new.owners.items tiles.new.bytes.items store.new) }
    ensures shown { OnOk result (ShowsRow P.under (scene_of shot.now.geometry.now shot.now.depth shot.now.path.now)
        (entries_of table.now.entries.items) (F.bytes store.old.file) shot.now.picture y
        (bytes_row (texel_length shot.now.depth * shot.now.path.now.width) samples.new y)) }
    ensures others { (z : ℕ) → z ≢ y → let line = texel_length shot.now.depth * shot.now.path.now.width in
        bytes_row line samples.new z ≡ bytes_row line samples.old z }
    ensures counted { (p : ℕ) → p < length counts.new
        → slice_index counts.new p ≤ slice_index counts.old p + 4 * shot.now.path.now.width }
    ensures failed { result ≡ Err OutsideError.Failed → Rose (F.faults store.old.file) (F.faults store.new.file) }
    ensures read { IsReadOn F.File store.old store.new }
{
    let line = texel_length(shot.depth) * shot.path.width() as usize;
    let at = y as usize * line;
    draw_line::<P, F>(
        table,
        tiles,
        store,
        shot,
        y,
        &mut samples[at..at + line],
        counts,
    )?;
    Ok(())
}

// Draws row y of a picture into its place, where it is left to be drawn.
fn draw_next<P: Filter, F: File>(
    table: &PageTable,
    tiles: &mut Tiles,
    store: &mut Store<F>,
    shot: &Shot,
    y: u32,
    left: &mut [bool],
    samples: &mut [u8],
    counts: &mut [u32],
) -> Result<(), OutsideError>
    requires depth { IsDepth shot.now.depth }
    requires picture { shot.now.picture < length shot.now.path.now.cameras }
    requires within { y < shot.now.path.now.height }
    requires rows { length left.old ≡ shot.now.path.now.height }
    requires bytes { length samples.old ≡ shot.now.path.now.height * (texel_length shot.now.depth * shot.now.path.now.width) }
    requires pages { length counts.old ≡ pages_of shot.now.geometry.now }
    requires room { (p : ℕ) → p < length counts.old → slice_index counts.old p + 4 * shot.now.path.now.width < 2 ^ 32 }
    requires ready { IsReplayReady F.File shot.now.geometry.now shot.now.depth table.now.entries.items
        tiles.old.size tiles.old.slots.items tiles.old.owners.items tiles.old.bytes.items store.old }
    ensures ready { OnOk result (IsReplayReady F.File shot.now.geometry.now shot.now.depth table.now.entries.items
        tiles.new.size tiles.new.slots.items tiles.new.owners.items tiles.new.bytes.items store.new) }
    ensures tried { OnOk result (AreTried (texel_length shot.now.depth * shot.now.path.now.width) 0
        (ShowsRow P.under (scene_of shot.now.geometry.now shot.now.depth shot.now.path.now)
        (entries_of table.now.entries.items) (F.bytes store.old.file) shot.now.picture)
        left.old left.new samples.old samples.new) }
    ensures done { OnOk result (IsDone left.new y) }
    ensures counted { (p : ℕ) → p < length counts.new
        → slice_index counts.new p ≤ slice_index counts.old p + 4 * shot.now.path.now.width }
    ensures failed { result ≡ Err OutsideError.Failed → Rose (F.faults store.old.file) (F.faults store.new.file) }
    ensures read { IsReadOn F.File store.old store.new }
{
    if !left[y as usize] {
        return Ok(());
    }
    draw_into::<P, F>(table, tiles, store, shot, y, samples, counts)?;
    left[y as usize] = false;
    Ok(())
}

/// Draws the rows of a picture that are left, one after the other, over the table of a version, and reads the tiles that they need and
/// the set has not. The counts are scratch room.
pub(crate) fn draw_left<P: Filter, F: File>(
    table: &PageTable,
    tiles: &mut Tiles,
    store: &mut Store<F>,
    shot: &Shot,
    left: &mut [bool],
    samples: &mut [u8],
    counts: &mut [u32],
) -> Result<(), OutsideError>
    requires depth { IsDepth shot.now.depth }
    requires picture { shot.now.picture < length shot.now.path.now.cameras }
    requires rows { length left.old ≡ shot.now.path.now.height }
    requires bytes { length samples.old ≡ shot.now.path.now.height * (texel_length shot.now.depth * shot.now.path.now.width) }
    requires pages { length counts.old ≡ pages_of shot.now.geometry.now }
    requires ready { IsReplayReady F.File shot.now.geometry.now shot.now.depth table.now.entries.items
        tiles.old.size tiles.old.slots.items tiles.old.owners.items tiles.old.bytes.items store.old }
    ensures ready { OnOk result (IsReplayReady F.File shot.now.geometry.now shot.now.depth table.now.entries.items
        tiles.new.size tiles.new.slots.items tiles.new.owners.items tiles.new.bytes.items store.new) }
    ensures tried { OnOk result (AreTried (texel_length shot.now.depth * shot.now.path.now.width) 0
        (ShowsRow P.under (scene_of shot.now.geometry.now shot.now.depth shot.now.path.now)
        (entries_of table.now.entries.items) (F.bytes store.old.file) shot.now.picture)
        left.old left.new samples.old samples.new) }
    ensures done { OnOk result ((y : ℕ) → IsDone left.new y) }
    ensures failed { result ≡ Err OutsideError.Failed → Rose (F.faults store.old.file) (F.faults store.new.file) }
    ensures read { IsReadOn F.File store.old store.new }
{
    clear(counts);
    let width = shot.path.width();
    // So no count comes near the end of its type.
    prove!(width <= 2048);
    for y in 0..shot.path.height() {
        draw_next::<P, F>(table, tiles, store, shot, y, left, samples, counts)?;
    }
    Ok(())
}
