//! Making a store of two-byte samples of one of one-byte samples.
ghost use Rattle.std.specs.Prelude.{◌≡◌, ℕ, ◌+◌, ◌*◌, ◌≤◌, ◌⊎◌, true, false, List, length, IfOk, IfErr, OnOk, OnErr, IsErrOf};
ghost use Rattle.vt_definitions.specs.Limits.{most_tile_side};
ghost use Rattle.vt_outside.specs.Counts.{Rose};
ghost use Rattle.vt_outside.specs.Files.{IsPiece, IsThere};
ghost use Rattle.vt_pages.specs.Pages.{columns_at, pages_of};
ghost use Rattle.vt_tiles.specs.Format.{stored, tile_length, tile_start, tiles_bytes};
ghost use Rattle.vt_tiles.specs.Places.{TilesAsked, PiecesAsked, FrontAsked, pieces_of};
ghost use Rattle.vt_tiles.specs.Refusals.{IsOutsideRefusal};
ghost use Rattle.vt_tiles.specs.StoreViews.{IsStore};
ghost use Rattle.vt_store.specs.Widening.{HoldsWidened, HoldsFront, GainsTiles, GainsFront, IsWideLine, HasWideLines, widened};

use crate::write::{begin_store, longest_row, size_inside, tile_columns};
use std::alloc::Global;
use vt_outside::{Folder, NoMemory};
use vt_pages::Geometry;
use vt_tiles::{Store, StoreError, double_bytes, put_span, tile_length};

// How many bytes the longest line of a tile of one-byte samples has.
const LONGEST_LINE: usize = 384;

// Writes a line of so many texels of two bytes a sample from texels of one byte: where these are fewer, the last one stands
// again up to the end.
fn widen_line(out: &mut [u8], texels: &[u8], count: usize)
    requires some { 3 ≤ length texels.now }
    requires few { count ≤ most_tile_side }
    requires room { length out.old ≡ 6 * count }
    ensures { (columns : ℕ) → length texels.now ≡ 3 * columns → IsWideLine texels.now columns count out.new }
{
    let mut room = [0; LONGEST_LINE];
    let line = &mut room[..3 * count];
    put_span(line, texels, 0, 3);
    double_bytes(out, line);
}

// Writes a tile of two bytes a sample from one of one byte, of which so many columns and rows lie inside the level: past them
// the last one is repeated.
fn widen_tile(out: &mut [u8], tile: &[u8], side: usize, columns: usize, rows: usize)
    requires room { length out.old ≡ 6 * (side * side) }
    requires tile { length tile.now ≡ 3 * (side * side) }
    requires side { side ≤ most_tile_side }
    requires columns { (1 ≤ columns) × (columns ≤ side) }
    requires rows { (1 ≤ rows) × (rows ≤ side) }
    ensures { HasWideLines tile.now side columns rows side out.new }
{
    for line in 0..side {
        let from = 3 * (line.min(rows - 1) * side);
        let at = 6 * (line * side);
        widen_line(
            &mut out[at..at + 6 * side],
            &tile[from..from + 3 * columns],
            side,
        );
    }
}

// Writes the tiles of so many pages from one on with two bytes a sample from those with one byte.
fn widen_tiles(wide: &mut [u8], narrow: &[u8], geometry: &Geometry, first: u32, count: u32)
    requires pages { first + count ≤ pages_of geometry.now }
    requires room { length wide.old ≡ count * tile_length geometry.now 2 }
    requires tiles { length narrow.now ≡ count * tile_length geometry.now 1 }
    ensures { (b : List ℕ) → IsStore b geometry.now 1 → IsPiece b (tile_start geometry.now 1 first) narrow.now
        → wide.new ≡ tiles_bytes geometry.now 2 (widened (stored b)) first count }
{
    let side = geometry.tile() as usize;
    let area = side * side;
    for tile in 0..count {
        let (columns, rows) = size_inside(geometry, first + tile);
        let at = tile as usize * area;
        widen_tile(
            &mut wide[6 * at..6 * at + 6 * area],
            &narrow[3 * at..3 * at + 3 * area],
            side,
            columns,
            rows,
        );
    }
}

// Reads the tiles of so many pages from one on, and adds them with two bytes a sample to the name's bytes.
fn widen_piece<D: Folder>(
    store: &mut Store<D::File>,
    folder: &mut D,
    name: &str,
    first: u32,
    count: u32,
    narrow: &mut [u8],
    wide: &mut [u8],
) -> Result<(), StoreError>
    requires depth { store.old.depth ≡ 1 }
    requires pages { first + count ≤ pages_of store.old.shape }
    requires spare { 1 ≤ D.File.spare store.old.file }
    requires narrow { length narrow.old ≡ count * tile_length store.old.shape 1 }
    requires wide { length wide.old ≡ count * tile_length store.old.shape 2 }
    ensures gained { OnOk result (GainsTiles (D.File.bytes store.old.file) store.old.shape first count name.now (D.files folder.old) (D.files folder.new)) }
    ensures part { OnErr result ((D.files folder.new ≡ D.files folder.old)
        ⊎ GainsFront (D.File.bytes store.old.file) store.old.shape first count name.now (D.files folder.old) (D.files folder.new)) }
    ensures refusals { IfErr result IsOutsideRefusal }
    ensures failed { IsErrOf result StoreError.Failed → IsThere (D.files folder.old) name.now
        → Rose (D.faults folder.old) (D.faults folder.new) ⊎ Rose (D.File.faults store.old.file) (D.File.faults store.new.file) }
    ensures read { OnOk result (TilesAsked store.old.shape 1 first count false (D.File.asked store.old.file) (D.File.asked store.new.file)) }
    ensures tried { OnErr result (TilesAsked store.old.shape 1 first count false (D.File.asked store.old.file) (D.File.asked store.new.file)
        ⊎ TilesAsked store.old.shape 1 first count true (D.File.asked store.old.file) (D.File.asked store.new.file)) }
    ensures spare { D.File.spare store.old.file ≤ D.File.spare store.new.file + 1 }
    ensures bytes { D.File.bytes store.new.file ≡ D.File.bytes store.old.file }
    ensures name { D.File.name store.new.file ≡ D.File.name store.old.file }
    ensures shape { store.new.shape ≡ store.old.shape }
    ensures depth { store.new.depth ≡ store.old.depth }
    ensures file_faults { D.File.faults store.old.file ≤ D.File.faults store.new.file }
    ensures asked { D.asked folder.new ≡ D.asked folder.old }
    ensures faults { D.faults folder.old ≤ D.faults folder.new }
{
    store.read_tiles(first, count, narrow)?;
    widen_tiles(wide, narrow, &store.geometry(), first, count);
    folder.append(name, wide)?;
    Ok(())
}

// Room for the tiles of the widest level that lie side by side: of one byte a sample, and of two.
fn piece_rooms(alloc: Global, geometry: &Geometry) -> Result<(Vec<u8>, Vec<u8>), NoMemory>
    ensures narrow { IfOk result (λ rooms. length rooms.0.items ≡ columns_at geometry.now 0 * tile_length geometry.now 1) }
    ensures wide { IfOk result (λ rooms. length rooms.1.items ≡ columns_at geometry.now 0 * tile_length geometry.now 2) }
{
    let narrow = vec![in alloc; 0; longest_row(geometry, 1)]?;
    let wide = vec![in alloc; 0; longest_row(geometry, 2)]?;
    Ok((narrow, wide))
}

/// Makes the name hold the store of the same pages whose samples have two bytes, each 257 times the old store's sample of one
/// byte: so 255, the greatest, becomes 65,535. Past a level's edge its last texels are repeated, whatever the old store has there.
///
/// It reads the old store's tiles in pieces of as many as the widest level has side by side, each once and in order, and
/// appends the new tiles alike. `Failed` comes only where the folder's count of faults rose or the file's, and `NoMemory` where
/// memory was refused; then the name holds a prefix of the new store, or is as before, and a prefix of the old store's
/// pieces was read. No other refusal comes.
pub fn widen_store<D: Folder>(
    alloc: Global,
    store: &mut Store<D::File>,
    folder: &mut D,
    name: &str,
) -> Result<(), StoreError>
    requires { store.old.depth ≡ 1 }
    ensures whole { OnOk result (HoldsWidened (D.File.bytes store.old.file) store.old.shape name.now (D.files folder.old) (D.files folder.new)) }
    ensures part { OnErr result ((D.files folder.new ≡ D.files folder.old)
        ⊎ HoldsFront (D.File.bytes store.old.file) store.old.shape name.now (D.files folder.old) (D.files folder.new)) }
    ensures refusals { IfErr result IsOutsideRefusal }
    ensures failed { IsErrOf result StoreError.Failed
        → Rose (D.faults folder.old) (D.faults folder.new) ⊎ Rose (D.File.faults store.old.file) (D.File.faults store.new.file) }
    ensures all_read { OnOk result (PiecesAsked store.old.shape 1 (pieces_of store.old.shape) (D.File.asked store.old.file) (D.File.asked store.new.file)) }
    ensures front_read { OnErr result (FrontAsked store.old.shape 1 (D.File.asked store.old.file) (D.File.asked store.new.file)) }
    ensures bytes { D.File.bytes store.new.file ≡ D.File.bytes store.old.file }
    ensures name { D.File.name store.new.file ≡ D.File.name store.old.file }
    ensures shape { store.new.shape ≡ store.old.shape }
    ensures depth { store.new.depth ≡ store.old.depth }
    ensures file_faults { D.File.faults store.old.file ≤ D.File.faults store.new.file }
    ensures asked { D.asked folder.new ≡ D.asked folder.old }
    ensures faults { D.faults folder.old ≤ D.faults folder.new }
{
    let geometry = store.geometry();
    let _ = geometry.levels();
    let step = tile_columns(&geometry, 0);
    let pages = geometry.page_count();
    let pieces = (pages + step - 1) / step;
    store.reserve(pieces as u64)?;
    let (mut narrow_room, mut wide_room) = piece_rooms(alloc, &geometry)?;
    let narrow = narrow_room.as_mut_slice();
    let wide = wide_room.as_mut_slice();
    begin_store(&geometry, 2, folder, name)?;
    for piece in 0..pieces {
        let first = piece * step;
        let count = step.min(pages - first);
        let read = count as usize * tile_length(&geometry, 1);
        let made = count as usize * tile_length(&geometry, 2);
        widen_piece(
            store,
            folder,
            name,
            first,
            count,
            &mut narrow[..read],
            &mut wide[..made],
        )?;
    }
    Ok(())
}
