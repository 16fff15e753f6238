//! Writing the store of a texture that is read by strips, so that it is never in memory as a whole.
ghost use Rattle.std.specs.Prelude.{◌≡◌, ℕ, ◌+◌, ◌*◌, ◌<◌, ◌≤◌, ◌⊎◌, List, Option, length, vec_len, IfOk, IfErr, IfSome, OnOk, OnErr, IsErrOf};
ghost use Rattle.vt_definitions.specs.Depths.{IsDepth, texel_length};
ghost use Rattle.vt_outside.specs.Counts.{Rose};
ghost use Rattle.vt_outside.specs.Effects.{folder_effect};
ghost use Rattle.vt_ppm.specs.Format.{depth_of};
ghost use Rattle.vt_pages.specs.Pages.{columns_at, rows_at};
ghost use Rattle.vt_tiles.specs.Format.{tile_length};
ghost use Rattle.vt_tiles.specs.Refusals.{IsOutsideRefusal};
ghost use Rattle.vt_tiles.specs.Made.{HoldsMade, HoldsMadeFront};
ghost use Rattle.vt_store.specs.StripStores.{IsStripRoom, strip_shape, strip_store};
ghost use Rattle.vt_ppm.specs.StripPlaces.{StripsAsked, StripsTried, strips_of};
ghost use Rattle.vt_store.specs.Rings.{AreNewRings};
ghost use Rattle.vt_store.specs.Steps.{AsksNoPlace};
ghost use Rattle.vt_store.specs.StripSteps.{AddsStrips, IsNextStrip, KeepsRows, KeepsStrips, WritesStore, rows_state, strips_state};

use crate::levels::write_levels;
use crate::ring::{Adding, Making, rings_for};
use crate::round::write_by_round;
use crate::steps::{add_row, tile_rooms, write_next};
use crate::strip::{make_strip, strip_count};
use crate::write::{begin_store, longest_row, threads_for_row};
use std::alloc::Global;
use std::thread::Threads;
use vt_definitions::texel_length;
use vt_mip::{Halving, StripChain};
use vt_outside::{File, Folder, NoMemory};
use vt_pages::Geometry;
use vt_threads::processors;
use vt_tiles::StoreError;

// Adds the tiles of level 0 to the name, which holds the store's header, and makes level 1: each strip is read once, in order. Where
// `back` has room for a second row of tiles, a strip's tiles are added while the next strip is read.
fn write_by_steps<Rt: Threads + Sync, F: File + Send, D: Folder>(
    rt: &Rt,
    threads: usize,
    chain: &mut StripChain<F>,
    geometry: &Geometry,
    rows: &mut [u8],
    front: &mut Vec<u8>,
    back: &mut Vec<u8>,
    half: &mut Halving,
    folder: &mut D,
    name: &str,
) -> Result<(), StoreError>
    requires first { IsNextStrip geometry.now 0 (strips_state F.File chain.old half.old) }
    requires spare { rows_at geometry.now 0 ≤ F.spare chain.old.file }
    requires rows { length rows.old ≡ geometry.now.tile * (texel_length (depth_of chain.old.header.maximum) * geometry.now.width) }
    requires front { vec_len front.old ≡ columns_at geometry.now 0 * tile_length geometry.now (depth_of chain.old.header.maximum) }
    requires back { (vec_len back.old ≡ 0) ⊎ (vec_len back.old ≡ vec_len front.old) }
    ensures level { AddsStrips geometry.now name.now (strips_state F.File chain.old half.old) (strips_state F.File chain.new half.new)
        (folder_effect D.Folder folder.old folder.new) result }
    ensures kept { KeepsStrips (strips_state F.File chain.old half.old) (strips_state F.File chain.new half.new) }
    ensures front { vec_len front.new ≡ vec_len front.old }
    ensures asks { AsksNoPlace (folder_effect D.Folder folder.old folder.new) }
{
    let last = strip_count(geometry) - 1;
    make_strip(
        rt,
        threads,
        chain,
        geometry,
        0,
        rows,
        front.as_mut_slice(),
        half,
    )?;
    for strip in 0..last {
        write_next(
            rt,
            threads,
            chain,
            geometry,
            strip + 1,
            rows,
            front,
            back,
            half,
            folder,
            name,
        )?;
    }
    add_row(folder, name, front.as_slice())?;
    Ok(())
}

// Adds the tiles of level 0 to the name, which holds the store's header, and makes level 1: each strip is read once, in order. Where there are rings,
// a round does it, or else steps.
fn write_first_level<Rt: Threads + Sync, F: File + Send, D: Folder>(
    rt: &Rt,
    threads: usize,
    chain: &mut StripChain<F>,
    geometry: &Geometry,
    rows: &mut [u8],
    front: &mut Vec<u8>,
    back: &mut Vec<u8>,
    rings: Option<(Making, Adding)>,
    half: &mut Halving,
    folder: &mut D,
    name: &str,
) -> Result<(), StoreError>
    requires threads { 1 ≤ threads }
    requires first { IsNextStrip geometry.now 0 (strips_state F.File chain.old half.old) }
    requires spare { rows_at geometry.now 0 ≤ F.spare chain.old.file }
    requires rows { length rows.old ≡ geometry.now.tile * (texel_length (depth_of chain.old.header.maximum) * geometry.now.width) }
    requires front { vec_len front.old ≡ columns_at geometry.now 0 * tile_length geometry.now (depth_of chain.old.header.maximum) }
    requires back { (vec_len back.old ≡ 0) ⊎ (vec_len back.old ≡ vec_len front.old) }
    requires rings { IfSome rings (λ ends. AreNewRings ends.0.rows ends.1.rows) }
    ensures level { AddsStrips geometry.now name.now (strips_state F.File chain.old half.old) (strips_state F.File chain.new half.new)
        (folder_effect D.Folder folder.old folder.new) result }
    ensures kept { KeepsStrips (strips_state F.File chain.old half.old) (strips_state F.File chain.new half.new) }
    ensures front { vec_len front.new ≡ vec_len front.old }
    ensures asks { AsksNoPlace (folder_effect D.Folder folder.old folder.new) }
{
    match rings {
        Some((mut making, mut adding)) => write_by_round(
            rt,
            threads,
            chain,
            geometry,
            rows,
            front,
            &mut making,
            &mut adding,
            half,
            folder,
            name,
        ),
        None => write_by_steps(
            rt, threads, chain, geometry, rows, front, back, half, folder, name,
        ),
    }
}

// The room in which a texture is tiled by strips: for a strip's rows, for a row of tiles, for a second one or none, with the rings of a round or
// none, and for level 1.
#[derive(Drop)]
struct StripRoom {
    rows: Vec<u8>,
    front: Vec<u8>,
    back: Vec<u8>,
    rings: Option<(Making, Adding)>,
    half: Halving,
}

// Makes this room for samples of `depth` bytes, 1 or 2: with a second row of tiles where two threads are at work, and with rings where more are.
fn make_room(
    alloc: Global,
    geometry: &Geometry,
    depth: u32,
    threads: usize,
) -> Result<StripRoom, NoMemory>
    requires { IsDepth depth }
    ensures { IfOk result (IsStripRoom geometry.now depth) }
{
    let (width, height) = (geometry.width(), geometry.height());
    let row = texel_length(depth) * width as usize;
    let rows = vec![in alloc; 0; geometry.tile() as usize * row]?;
    let length = longest_row(geometry, depth);
    let (front, back) = tile_rooms(alloc, length, threads == 2)?;
    let rings = rings_for(alloc, length, threads)?;
    let half = Halving::new(alloc, depth, width, height)?;
    Ok(StripRoom {
        rows,
        front,
        back,
        rings,
        half,
    })
}

// Makes the name hold the store, in room that was made for it and with room to note each read.
fn write_in_room<Rt: Threads + Sync, F: File + Send, D: Folder>(
    rt: &Rt,
    alloc: Global,
    processors: usize,
    chain: &mut StripChain<F>,
    geometry: &Geometry,
    room: StripRoom,
    folder: &mut D,
    name: &str,
) -> Result<(), StoreError>
    requires shape { strip_shape chain.old ≡ geometry.now }
    requires spare { rows_at geometry.now 0 ≤ F.spare chain.old.file }
    requires room { IsStripRoom geometry.now (depth_of chain.old.header.maximum) room }
    ensures written { WritesStore geometry.now name.now (strip_store chain.old) (rows_state F.File chain.old) (rows_state F.File chain.new)
        (folder_effect D.Folder folder.old folder.new) result }
    ensures kept { KeepsRows (rows_state F.File chain.old) (rows_state F.File chain.new) }
    ensures asks { AsksNoPlace (folder_effect D.Folder folder.old folder.new) }
{
    let StripRoom {
        mut rows,
        mut front,
        mut back,
        rings,
        mut half,
    } = room;
    begin_store(geometry, chain.depth(), folder, name)?;
    write_first_level(
        rt,
        threads_for_row(processors, front.len()),
        chain,
        geometry,
        rows.as_mut_slice(),
        &mut front,
        &mut back,
        rings,
        &mut half,
        folder,
        name,
    )?;
    write_levels(
        rt,
        alloc,
        processors,
        half.finish(),
        geometry,
        front.as_mut_slice(),
        folder,
        name,
    )?;
    Ok(())
}

/// Makes the name hold the store of the texture of a chain that is read by rows, whose sides and tile side the geometry has: the same
/// bytes that `write_store` writes of the whole texture. It creates the name, and appends the header and then one row of tiles after
/// the other.
///
/// It reads the texture in strips of as many rows as a tile has, each once and in order, and keeps level 1 in memory. Where two
/// processors are there and rows of tiles are long enough, one is added while strips below it are read: so up to three strips may be
/// read before the tiles of the one above them stand. `Failed` comes only where the folder's count of faults rose or the file's, and `NoMemory` where memory
/// was refused; then the name holds a front part of the store, or is as before where it was not created, and a prefix of the strips was
/// read. No other refusal comes.
pub fn write_strips<Rt: Threads + Sync, F: File + Send, D: Folder>(
    rt: &Rt,
    alloc: Global,
    chain: &mut StripChain<F>,
    geometry: &Geometry,
    folder: &mut D,
    name: &str,
) -> Result<(), StoreError>
    requires { strip_shape chain.old ≡ geometry.now }
    ensures whole { OnOk result (HoldsMade (F.bytes chain.old.file) (strip_store chain.old) name.now (D.files folder.old) (D.files folder.new)) }
    ensures part { OnErr result ((D.files folder.new ≡ D.files folder.old)
        ⊎ HoldsMadeFront (F.bytes chain.old.file) (strip_store chain.old) name.now (D.files folder.old) (D.files folder.new)) }
    ensures refusals { IfErr result IsOutsideRefusal }
    ensures failed { IsErrOf result StoreError.Failed
        → Rose (D.faults folder.old) (D.faults folder.new) ⊎ Rose (F.faults chain.old.file) (F.faults chain.new.file) }
    ensures all_read { OnOk result (StripsAsked chain.old.header geometry.now.tile (strips_of chain.old.header geometry.now.tile)
        (F.asked chain.old.file) (F.asked chain.new.file)) }
    ensures front_read { OnErr result (StripsTried chain.old.header geometry.now.tile (F.asked chain.old.file) (F.asked chain.new.file)) }
    ensures bytes { F.bytes chain.new.file ≡ F.bytes chain.old.file }
    ensures name { F.name chain.new.file ≡ F.name chain.old.file }
    ensures header { chain.new.header ≡ chain.old.header }
    ensures tile { chain.new.tile ≡ chain.old.tile }
    ensures file_faults { F.faults chain.old.file ≤ F.faults chain.new.file }
    ensures asked { D.asked folder.new ≡ D.asked folder.old }
    ensures faults { D.faults folder.old ≤ D.faults folder.new }
{
    chain.reserve(u64::from(strip_count(geometry)))?;
    let available = processors(rt);
    let depth = chain.depth();
    let threads = threads_for_row(available, longest_row(geometry, depth));
    let room = make_room(alloc, geometry, depth, threads)?;
    write_in_room(rt, alloc, available, chain, geometry, room, folder, name)
}
