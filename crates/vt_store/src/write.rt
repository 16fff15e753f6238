//! Writing the store of a mip chain.
ghost use Rattle.std.specs.Prelude.{◌≡◌, ℕ, ◌+◌, ◌-◌, ◌*◌, ◌<◌, ◌≤◌, ◌⊎◌, List, Option, length, take, option_map, IfErr, OnOk, OnErr, IsErrOf};
ghost use Rattle.vt_outside.specs.Counts.{Rose};
ghost use Rattle.vt_outside.specs.Files.{Files, with_bytes};
ghost use Rattle.vt_definitions.specs.Texels.{Source};
ghost use Rattle.vt_definitions.specs.Depths.{IsDepth};
ghost use Rattle.vt_definitions.specs.Limits.{most_tile_side, most_tiled_side};
ghost use Rattle.vt_mip.specs.Chains.{chain_texel};
ghost use Rattle.vt_pages.specs.Pages.{pages_of, levels_of, columns_at, name_at};
ghost use Rattle.vt_tiles.specs.Format.{header_bytes, tile_length, tiles_bytes};
ghost use Rattle.vt_store.specs.ChainStores.{HasShape, AddsPages, AddsPart, chain_store};
ghost use Rattle.vt_tiles.specs.TileLines.{GainsLine, HasTileRows, columns_inside, rows_inside, tile_rows_length};
ghost use Rattle.vt_tiles.specs.Refusals.{IsOutsideRefusal};

use std::alloc::Global;
use vt_definitions::texel_length;
use vt_mip::Chain;
use vt_outside::{Folder, OutsideError};
use vt_pages::Geometry;
use vt_threads::threads_for;
use vt_tiles::{StoreError, header_of, put_span, rows_above, tile_length};

// Writes one line of so many tiles that lie side by side, from a row of texels of `size` bytes and a column of tiles on.
fn put_line(
    tiles: &mut [u8],
    row: &[u8],
    size: usize,
    side: usize,
    column: usize,
    line: usize,
    count: usize,
)
    requires some { 1 ≤ size }
    requires small { size ≤ 6 }
    requires room { length tiles.old ≡ count * (side * side * size) }
    requires inside { 1 ≤ count → size * ((column + count - 1) * side) + size ≤ length row.now }
    requires few { (column + count) * side ≤ 2 * most_tiled_side }
    requires side { side ≤ most_tile_side }
    requires line { line < side }
    ensures { (columns : ℕ) → length row.now ≡ size * columns → GainsLine size row.now columns side column line count count tiles.old tiles.new }
{
    for tile in 0..count {
        let at = size * (tile * (side * side) + line * side);
        put_span(
            &mut tiles[at..at + size * side],
            row,
            size * ((column + tile) * side),
            size,
        );
    }
}

/// How many columns and rows of a page's tile lie inside its level.
pub(crate) fn size_inside(geometry: &Geometry, page: u32) -> (usize, usize)
    requires { page < pages_of geometry.now }
    ensures columns { result.0 ≡ columns_inside geometry.now page }
    ensures rows { result.1 ≡ rows_inside geometry.now page }
    ensures some { (1 ≤ result.0) × (1 ≤ result.1) }
    ensures few { (result.0 ≤ geometry.now.tile) × (result.1 ≤ geometry.now.tile) }
{
    let name = geometry.page_at(page);
    let (width, height) = geometry.level_size(name.level);
    let side = geometry.tile();
    let columns = side.min(width - name.col * side);
    let rows = side.min(height - name.row * side);
    (columns as usize, rows as usize)
}

/// Writes the tiles of so many pages of a row of tiles, side by side, from the rows of texels of their level on which the row of
/// tiles lies, of samples of `depth` bytes, 1 or 2. Past the level's edge its last column and its last row are repeated.
pub(crate) fn put_tiles(
    tiles: &mut [u8],
    rows: &[u8],
    depth: u32,
    geometry: &Geometry,
    first: u32,
    count: u32,
)
    requires depth { IsDepth depth }
    requires page { first < pages_of geometry.now }
    requires row { (name_at geometry.now first).col + count ≤ columns_at geometry.now (name_at geometry.now first).level }
    requires room { length tiles.old ≡ count * tile_length geometry.now depth }
    requires rows { length rows.now ≡ tile_rows_length geometry.now depth first }
    ensures { (src : Source) → HasTileRows geometry.now depth src first rows.now → tiles.new ≡ tiles_bytes geometry.now depth src first count }
{
    let size = texel_length(depth);
    let side = geometry.tile() as usize;
    let name = geometry.page_at(first);
    let (width, _) = geometry.level_size(name.level);
    let (_, inside) = size_inside(geometry, first);
    let row_size = size * width as usize;
    for line in 0..side {
        let from = row_size * line.min(inside - 1);
        put_line(
            tiles,
            &rows[from..from + row_size],
            size,
            side,
            name.col as usize,
            line,
            count as usize,
        );
    }
}

/// How many tiles lie side by side in a level.
pub fn tile_columns(geometry: &Geometry, level: u32) -> u32
    requires { level < levels_of geometry.now }
    ensures value { result ≡ columns_at geometry.now level }
    ensures few { result ≤ most_tiled_side }
{
    let side = geometry.tile();
    let (width, _) = geometry.level_size(level);
    (width + side - 1) / side
}

// The page after the last one of a page's row of tiles.
fn row_end(geometry: &Geometry, page: u32) -> u32
    requires { page < pages_of geometry.now }
    ensures longer { page < result }
    ensures inside { result ≤ pages_of geometry.now }
    ensures row { (name_at geometry.now page).col + (result - page) ≤ columns_at geometry.now (name_at geometry.now page).level }
    ensures short { result - page ≤ columns_at geometry.now 0 }
{
    let name = geometry.page_at(page);
    page + (tile_columns(geometry, name.level) - name.col)
}

/// How many bytes the longest row of tiles has, of samples of `depth` bytes, 1 or 2.
pub fn longest_row(geometry: &Geometry, depth: u32) -> usize
    requires { IsDepth depth }
    ensures { result ≡ columns_at geometry.now 0 * tile_length geometry.now depth }
{
    let _ = geometry.levels();
    tile_columns(geometry, 0) as usize * tile_length(geometry, depth)
}

/// How many threads are to make rows of tiles of so many bytes and to add them to a name, which one of them does: a byte takes one thread about two
/// thirds of a nanosecond to make, and a third to add.
pub(crate) fn threads_for_row(processors: usize, bytes: usize) -> usize
    ensures { 1 ≤ result }
{
    threads_for(processors, bytes as u64)
}

/// Makes the name hold the header of a store whose samples have `depth` bytes, 1 or 2, in two calls of the folder. After a
/// refusal it holds a prefix of the header, or is as before where it was not created.
pub fn begin_store<D: Folder>(
    geometry: &Geometry,
    depth: u32,
    folder: &mut D,
    name: &str,
) -> Result<(), OutsideError>
    requires { IsDepth depth }
    ensures whole { OnOk result (D.files folder.new ≡ option_map (with_bytes name.now (header_bytes geometry.now depth)) (D.files folder.old)) }
    ensures part { OnErr result ((D.files folder.new ≡ D.files folder.old)
        ⊎ ((k : ℕ) × (D.files folder.new ≡ option_map (with_bytes name.now (take k (header_bytes geometry.now depth))) (D.files folder.old)))) }
    ensures failed { IsErrOf result OutsideError.Failed → Rose (D.faults folder.old) (D.faults folder.new) }
    ensures asked { D.asked folder.new ≡ D.asked folder.old }
    ensures faults { D.faults folder.old ≤ D.faults folder.new }
{
    folder.create(name)?;
    folder.append(name, &header_of(geometry, depth))
}

// The rows of texels of a page's level on which its row of tiles lies.
fn tile_rows<'a>(chain: &'a Chain, geometry: &Geometry, page: u32) -> &'a [u8]
    requires shape { HasShape chain.now geometry.now }
    requires page { page < pages_of geometry.now }
    ensures full { length result.now ≡ tile_rows_length geometry.now chain.now.base.depth page }
    ensures rows { HasTileRows geometry.now chain.now.base.depth (chain_texel chain.now) page result.now }
{
    let name = geometry.page_at(page);
    let (width, _) = chain.size(name.level);
    let (_, inside) = size_inside(geometry, page);
    let row_size = texel_length(chain.depth()) * width as usize;
    let from = row_size * rows_above(geometry, name);
    &chain.samples(name.level)[from..from + row_size * inside]
}

// Adds the tiles of all pages to the name, one row of tiles an append. The buffer has the length of the longest row of tiles.
fn write_pages<D: Folder>(
    chain: &Chain,
    geometry: &Geometry,
    tiles: &mut [u8],
    folder: &mut D,
    name: &str,
) -> Result<(), OutsideError>
    requires shape { HasShape chain.now geometry.now }
    requires room { length tiles.old ≡ columns_at geometry.now 0 * tile_length geometry.now chain.now.base.depth }
    ensures whole { OnOk result (AddsPages geometry.now chain.now.base.depth (chain_texel chain.now) 0 (pages_of geometry.now) name.now
        (D.files folder.old) (D.files folder.new)) }
    ensures part { OnErr result (AddsPart geometry.now chain.now.base.depth (chain_texel chain.now) 0 name.now (D.files folder.old)
        (D.files folder.new)) }
    ensures failed { IsErrOf result OutsideError.Failed → (before : Option Files) (done : List ℕ)
        → D.files folder.old ≡ option_map (with_bytes name.now done) before → Rose (D.faults folder.old) (D.faults folder.new) }
    ensures asked { D.asked folder.new ≡ D.asked folder.old }
    ensures faults { D.faults folder.old ≤ D.faults folder.new }
{
    let depth = chain.depth();
    let mut page = 0;
    while page < geometry.page_count() {
        let end = row_end(geometry, page);
        let row = &mut tiles[..(end - page) as usize * tile_length(geometry, depth)];
        let rows = tile_rows(chain, geometry, page);
        put_tiles(row, rows, depth, geometry, page, end - page);
        folder.append(name, row)?;
        page = end;
    }
    Ok(())
}

// Makes the name hold the store of a mip chain; each append is one row of tiles.
fn write_rows<D: Folder>(
    alloc: Global,
    chain: &Chain,
    geometry: &Geometry,
    folder: &mut D,
    name: &str,
) -> Result<(), OutsideError>
    requires { HasShape chain.now geometry.now }
    ensures whole { OnOk result (D.files folder.new ≡ option_map (with_bytes name.now (chain_store chain.now geometry.now)) (D.files folder.old)) }
    ensures part { OnErr result ((D.files folder.new ≡ D.files folder.old)
        ⊎ ((k : ℕ) × (D.files folder.new ≡ option_map (with_bytes name.now (take k (chain_store chain.now geometry.now))) (D.files folder.old)))) }
    ensures failed { IsErrOf result OutsideError.Failed → Rose (D.faults folder.old) (D.faults folder.new) }
    ensures asked { D.asked folder.new ≡ D.asked folder.old }
    ensures faults { D.faults folder.old ≤ D.faults folder.new }
{
    let depth = chain.depth();
    begin_store(geometry, depth, folder, name)?;
    let mut room = vec![in alloc; 0; longest_row(geometry, depth)]?;
    write_pages(chain, geometry, room.as_mut_slice(), folder, name)
}

/// Makes the name hold the store of a mip chain, whose sides and tile side the geometry has. It creates the name, and
/// appends the header and then one row of tiles after the other. The store has the chain's depth.
///
/// `Failed` comes only where the folder's count of faults rose, and `NoMemory` where memory was refused; then the name holds
/// a prefix of the store, or is as before where it was not created. No other refusal comes.
pub fn write_store<D: Folder>(
    alloc: Global,
    chain: &Chain,
    geometry: &Geometry,
    folder: &mut D,
    name: &str,
) -> Result<(), StoreError>
    requires { HasShape chain.now geometry.now }
    ensures whole { OnOk result (D.files folder.new ≡ option_map (with_bytes name.now (chain_store chain.now geometry.now)) (D.files folder.old)) }
    ensures part { OnErr result ((D.files folder.new ≡ D.files folder.old)
        ⊎ ((k : ℕ) × (D.files folder.new ≡ option_map (with_bytes name.now (take k (chain_store chain.now geometry.now))) (D.files folder.old)))) }
    ensures refusals { IfErr result IsOutsideRefusal }
    ensures failed { IsErrOf result StoreError.Failed → Rose (D.faults folder.old) (D.faults folder.new) }
    ensures asked { D.asked folder.new ≡ D.asked folder.old }
    ensures faults { D.faults folder.old ≤ D.faults folder.new }
{
    write_rows(alloc, chain, geometry, folder, name)?;
    Ok(())
}
