//! A strip of a texture: as many whole rows as a tile has, of which a row of tiles and rows of level 1 are made.
ghost use Rattle.std.specs.Prelude.{◌≡◌, ◌⊎◌, ◌+◌, ◌*◌, ◌%◌, ◌<◌, ◌≤◌, length};
ghost use Rattle.std.specs.Thread.{IsSync};
ghost use Rattle.vt_definitions.specs.Depths.{IsDepth, texel_length};
ghost use Rattle.vt_definitions.specs.Texels.{Source};
ghost use Rattle.vt_outside.specs.Files.{IsPiece};
ghost use Rattle.vt_ppm.specs.Format.{depth_of};
ghost use Rattle.vt_ppm.specs.StripPlaces.{strip_rows};
ghost use Rattle.vt_ppm.specs.Image.{ImageView};
ghost use Rattle.vt_ppm.specs.Strips.{row_length};
ghost use Rattle.vt_mip.specs.TakenRows.{HalvesFront};
ghost use Rattle.vt_pages.specs.Shape.{shape_of};
ghost use Rattle.vt_pages.specs.Pages.{IsWithinLimits, columns_at, name_at, pages_of, rows_at};
ghost use Rattle.vt_tiles.specs.Format.{tile_length, tiles_bytes};
ghost use Rattle.vt_tiles.specs.TileLines.{HasTileRows, tile_rows_length};
ghost use Rattle.vt_store.specs.StripSteps.{IsNextStrip, IsStripThere, KeepsHalf, KeepsStrips, MakesStrip, ReadsRows, ReadsStrip, StripMade, StripRead, StripsState, rows_state, strips_state};

use crate::write::{put_tiles, tile_columns};
use std::thread::{Threads, join_mut};
use vt_definitions::texel_length;
use vt_mip::{Halving, StripChain};
use vt_outside::{Failed, File};
use vt_pages::Geometry;

// Halves the rows of a strip into level 1, and makes of them its row of tiles: the one beside the other, where two threads are at work. To halve
// takes less than half as long, so it is the new thread's (docs/DECISIONS.md).
fn halve_and_cut<Rt: Threads + Sync>(
    rt: &Rt,
    threads: usize,
    half: &mut Halving,
    rows: &[u8],
    count: u32,
    tiles: &mut [u8],
    depth: u32,
    geometry: &Geometry,
    first: u32,
    columns: u32,
)
    requires some { 1 ≤ count }
    requires inside { half.old.taken + count ≤ half.old.height }
    requires even { half.old.taken % 2 ≡ 0 }
    requires pairs { (count % 2 ≡ 0) ⊎ (half.old.taken + count ≡ half.old.height) }
    requires whole { length rows.now ≡ texel_length half.old.depth * (half.old.width * count) }
    requires depth { IsDepth depth }
    requires page { first < pages_of geometry.now }
    requires row { (name_at geometry.now first).col + columns ≤ columns_at geometry.now (name_at geometry.now first).level }
    requires room { length tiles.old ≡ columns * tile_length geometry.now depth }
    requires rows { length rows.now ≡ tile_rows_length geometry.now depth first }
    ensures taken { half.new.taken ≡ half.old.taken + count }
    ensures depth { half.new.depth ≡ half.old.depth }
    ensures width { half.new.width ≡ half.old.width }
    ensures height { half.new.height ≡ half.old.height }
    ensures halves { (p : ImageView) → HalvesFront p half.old
        → IsPiece p.samples (texel_length p.depth * (p.width * half.old.taken)) rows.now → HalvesFront p half.new }
    ensures tiles { (src : Source) → HasTileRows geometry.now depth src first rows.now → tiles.new ≡ tiles_bytes geometry.now depth src first columns }
{
    if threads < 2 {
        half.take(rt, 1, rows, count);
        put_tiles(tiles, rows, depth, geometry, first, columns);
        return;
    }
    join_mut(
        rt,
        &mut || -> ()
            requires { IsSync Rt.row × (1 ≤ count) × (half.now.taken + count ≤ half.now.height) × (half.now.taken % 2 ≡ 0)
                × ((count % 2 ≡ 0) ⊎ (half.now.taken + count ≡ half.now.height))
                × (length rows.now ≡ texel_length half.now.depth * (half.now.width * count)) }
            ensures { (half.exit.now.taken ≡ half.entry.now.taken + count) × (half.exit.now.depth ≡ half.entry.now.depth)
                × (half.exit.now.width ≡ half.entry.now.width) × (half.exit.now.height ≡ half.entry.now.height)
                × ((p : ImageView) → HalvesFront p half.entry.now
                → IsPiece p.samples (texel_length p.depth * (p.width * half.entry.now.taken)) rows.entry.now → HalvesFront p half.exit.now) }
        { half.take(rt, 1, rows, count) },
        &mut || -> ()
            requires { IsDepth depth × (first < pages_of geometry.now)
                × ((name_at geometry.now first).col + columns ≤ columns_at geometry.now (name_at geometry.now first).level)
                × (length tiles.now ≡ columns * tile_length geometry.now depth)
                × (length rows.now ≡ tile_rows_length geometry.now depth first) }
            ensures { (src : Source) → HasTileRows geometry.entry.now depth src first rows.entry.now
                → tiles.exit.now ≡ tiles_bytes geometry.entry.now depth src first columns }
        { put_tiles(tiles, rows, depth, geometry, first, columns) },
    );
}

// Reads rows of a texture, and makes room for their half: meanwhile, where three threads are at work, of which one adds a row of tiles, or else it
// is made when they are halved.
fn read_rows<Rt: Threads + Sync, F: File>(
    rt: &Rt,
    threads: usize,
    chain: &mut StripChain<F>,
    y: u32,
    count: u32,
    rows: &mut [u8],
    half: &mut Halving,
) -> Result<(), Failed>
    requires spare { 1 ≤ F.spare chain.old.file }
    requires inside { y + count ≤ chain.old.header.height }
    requires size { length rows.old ≡ count * row_length chain.old.header }
    requires room { half.old.taken + count ≤ half.old.height }
    ensures read { ReadsRows y count (rows_state F.File chain.old) (rows_state F.File chain.new) rows.new result }
    ensures half { KeepsHalf half.old half.new }
{
    if threads < 3 {
        return chain.rows(y, count, rows);
    }
    // A number for each closure, since a borrow that two closures share has no proof here.
    let more = count;
    let (_, read) = join_mut(
        rt,
        &mut || -> ()
            requires { half.now.taken + more ≤ half.now.height }
            ensures { KeepsHalf half.entry.now half.exit.now }
        { half.make_room(more) },
        &mut || -> Result<(), Failed>
            requires { (1 ≤ F.spare chain.now.file) × (y + count ≤ chain.now.header.height)
                × (length rows.now ≡ count * row_length chain.now.header) }
            ensures { ReadsRows y count (rows_state F.File chain.entry.now) (rows_state F.File chain.exit.now) rows.exit.now result }
        { chain.rows(y, count, rows) },
    );
    read
}

/// How many strips a texture is read in: one for each row of tiles of level 0.
pub(crate) fn strip_count(geometry: &Geometry) -> u32
    ensures count { result ≡ rows_at geometry.now 0 }
    ensures some { 1 ≤ result }
    ensures limits { IsWithinLimits geometry.now }
{
    let side = geometry.tile();
    (geometry.height() + side - 1) / side
}

/// How many bytes the rows of a strip have.
pub(crate) fn strip_size<F: File>(chain: &StripChain<F>, geometry: &Geometry, strip: u32) -> usize
    requires shape { shape_of chain.now.header.width chain.now.header.height chain.now.tile ≡ geometry.now }
    requires strip { strip < rows_at geometry.now 0 }
    ensures value { result ≡ strip_rows chain.now.header geometry.now.tile strip * row_length chain.now.header }
    ensures few { result ≤ geometry.now.tile * (texel_length (depth_of chain.now.header.maximum) * geometry.now.width) }
{
    let (width, height, side) = (geometry.width(), geometry.height(), geometry.tile());
    let row = texel_length(chain.depth()) * width as usize;
    let count = side.min(height - strip * side);
    count as usize * row
}

/// Reads a strip into a room of its length, and makes room for its half. It makes one read and takes no memory. `Failed` comes only where
/// the file's count of faults rose.
pub(crate) fn read_strip<Rt: Threads + Sync, F: File>(
    rt: &Rt,
    threads: usize,
    chain: &mut StripChain<F>,
    geometry: &Geometry,
    strip: u32,
    rows: &mut [u8],
    half: &mut Halving,
) -> Result<(), Failed>
    requires next { IsNextStrip geometry.now strip (strips_state F.File chain.old half.old) }
    requires rows { length rows.old ≡ strip_rows chain.old.header geometry.now.tile strip * row_length chain.old.header }
    ensures read { ReadsStrip geometry.now strip (strips_state F.File chain.old half.old) (strips_state F.File chain.new half.new) rows.new result }
    ensures kept { KeepsStrips (strips_state F.File chain.old half.old) (strips_state F.File chain.new half.new) }
    ensures spare { F.spare chain.old.file ≤ F.spare chain.new.file + 1 }
{
    let side = geometry.tile();
    let y = strip * side;
    let count = side.min(geometry.height() - y);
    read_rows(rt, threads, chain, y, count, rows, half)?;
    Ok(())
}

/// Halves the rows of a strip that was read into level 1, and makes its row of tiles, in a room of a row of tiles of level 0.
pub(crate) fn finish_strip<Rt: Threads + Sync, F: File>(
    rt: &Rt,
    threads: usize,
    chain: &StripChain<F>,
    geometry: &Geometry,
    strip: u32,
    rows: &[u8],
    tiles: &mut [u8],
    half: &mut Halving,
)
    requires there { IsStripThere geometry.now strip (strips_state F.File chain.now half.old) }
    requires rows { length rows.now ≡ strip_rows chain.now.header geometry.now.tile strip * row_length chain.now.header }
    requires tiles { length tiles.old ≡ columns_at geometry.now 0 * tile_length geometry.now (depth_of chain.now.header.maximum) }
    ensures made { (a : StripsState) → IsNextStrip geometry.now strip a → KeepsStrips a (strips_state F.File chain.now half.old)
        → StripRead geometry.now strip a (strips_state F.File chain.now half.old) rows.now
        → StripMade geometry.now strip a (strips_state F.File chain.now half.new) tiles.new }
{
    let side = geometry.tile();
    let y = strip * side;
    let count = side.min(geometry.height() - y);
    let columns = tile_columns(geometry, 0);
    let depth = chain.depth();
    halve_and_cut(
        rt,
        threads,
        half,
        rows,
        count,
        tiles,
        depth,
        geometry,
        strip * columns,
        columns,
    );
}

/// Reads a strip, halves its rows into level 1, and makes its row of tiles. The rooms are as long as the longest strip and as a row of
/// tiles of level 0. It makes one read and takes no memory. `Failed` comes only where the file's count of faults rose.
pub(crate) fn make_strip<Rt: Threads + Sync, F: File>(
    rt: &Rt,
    threads: usize,
    chain: &mut StripChain<F>,
    geometry: &Geometry,
    strip: u32,
    rows: &mut [u8],
    tiles: &mut [u8],
    half: &mut Halving,
) -> Result<(), Failed>
    requires next { IsNextStrip geometry.now strip (strips_state F.File chain.old half.old) }
    requires rows { length rows.old ≡ geometry.now.tile * (texel_length (depth_of chain.old.header.maximum) * geometry.now.width) }
    requires tiles { length tiles.old ≡ columns_at geometry.now 0 * tile_length geometry.now (depth_of chain.old.header.maximum) }
    ensures made { MakesStrip geometry.now strip (strips_state F.File chain.old half.old) (strips_state F.File chain.new half.new) tiles.new result }
    ensures kept { KeepsStrips (strips_state F.File chain.old half.old) (strips_state F.File chain.new half.new) }
    ensures spare { F.spare chain.old.file ≤ F.spare chain.new.file + 1 }
{
    let size = strip_size(chain, geometry, strip);
    let room = &mut rows[..size];
    read_strip(rt, threads, chain, geometry, strip, room, half)?;
    finish_strip(rt, threads, chain, geometry, strip, room, tiles, half);
    Ok(())
}
