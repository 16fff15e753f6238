//! The steps of writing a store by strips: a strip's row of tiles is added while the next strip is read.
ghost use Rattle.std.specs.Prelude.{◌≡◌, ◌⊎◌, ◌+◌, ◌*◌, ◌≤◌, length, vec_len, IfOk};
ghost use Rattle.std.specs.Thread.{IsSend, IsSync};
ghost use Rattle.vt_definitions.specs.Depths.{texel_length};
ghost use Rattle.vt_outside.specs.Effects.{folder_effect};
ghost use Rattle.vt_ppm.specs.Format.{depth_of};
ghost use Rattle.vt_ppm.specs.StripPlaces.{strip_rows};
ghost use Rattle.vt_ppm.specs.Strips.{row_length};
ghost use Rattle.vt_pages.specs.Pages.{columns_at};
ghost use Rattle.vt_tiles.specs.Format.{tile_length};
ghost use Rattle.vt_store.specs.Steps.{AddsBytes, AsksNoPlace};
ghost use Rattle.vt_store.specs.StripSteps.{IsNextStrip, KeepsStep, KeepsStrips, ReadsStrip, StripStep, strips_state};

use crate::strip::{finish_strip, make_strip, read_strip, strip_size};
use std::alloc::Global;
use std::mem;
use std::thread::{Threads, join_mut};
use vt_mip::{Halving, StripChain};
use vt_outside::{Failed, File, Folder, NoMemory, OutsideError};
use vt_pages::Geometry;
use vt_tiles::StoreError;

/// Room for two rows of tiles of so many bytes, or for one: then the second room is empty.
pub(crate) fn tile_rooms(
    alloc: Global,
    length: usize,
    two: bool,
) -> Result<(Vec<u8>, Vec<u8>), NoMemory>
    ensures front { IfOk result (λ rooms. vec_len rooms.0 ≡ length) }
    ensures back { IfOk result (λ rooms. (vec_len rooms.1 ≡ 0) ⊎ (vec_len rooms.1 ≡ length)) }
{
    let front = vec![in alloc; 0; length]?;
    let mut back = Vec::new(alloc);
    if two {
        back = vec![in alloc; 0; length]?;
    }
    Ok((front, back))
}

/// Adds a row of tiles to the name. After a refusal a prefix of it was added.
pub(crate) fn add_row<D: Folder>(
    folder: &mut D,
    name: &str,
    tiles: &[u8],
) -> Result<(), OutsideError>
    ensures added { AddsBytes name.now tiles.now (folder_effect D.Folder folder.old folder.new) result }
    ensures asks { AsksNoPlace (folder_effect D.Folder folder.old folder.new) }
{
    folder.append(name, tiles)
}

// Adds a row of tiles, and then makes that of a strip in the same room.
fn step_in_turn<Rt: Threads + Sync, F: File, D: Folder>(
    rt: &Rt,
    threads: usize,
    chain: &mut StripChain<F>,
    geometry: &Geometry,
    strip: u32,
    rows: &mut [u8],
    tiles: &mut [u8],
    half: &mut Halving,
    folder: &mut D,
    name: &str,
) -> Result<(), StoreError>
    requires next { IsNextStrip geometry.now strip (strips_state F.File chain.old half.old) }
    requires rows { length rows.old ≡ geometry.now.tile * (texel_length (depth_of chain.old.header.maximum) * geometry.now.width) }
    requires tiles { length tiles.old ≡ columns_at geometry.now 0 * tile_length geometry.now (depth_of chain.old.header.maximum) }
    ensures step { StripStep geometry.now strip name.now tiles.old tiles.new (strips_state F.File chain.old half.old) (strips_state F.File chain.new half.new)
        (folder_effect D.Folder folder.old folder.new) result }
    ensures kept { KeepsStep (strips_state F.File chain.old half.old) (strips_state F.File chain.new half.new)
        (folder_effect D.Folder folder.old folder.new) }
{
    add_row(folder, name, tiles)?;
    make_strip(rt, threads, chain, geometry, strip, rows, tiles, half)?;
    Ok(())
}

// Reads a strip in a thread of its own, and adds a row of tiles meanwhile. Where no thread can be made, the row is added first.
fn add_and_read<Rt: Threads + Sync, F: File + Send, D: Folder>(
    rt: &Rt,
    threads: usize,
    chain: &mut StripChain<F>,
    geometry: &Geometry,
    strip: u32,
    rows: &mut [u8],
    half: &mut Halving,
    folder: &mut D,
    name: &str,
    tiles: &[u8],
) -> (Result<(), Failed>, Result<(), OutsideError>)
    requires next { IsNextStrip geometry.now strip (strips_state F.File chain.old half.old) }
    requires rows { length rows.old ≡ strip_rows chain.old.header geometry.now.tile strip * row_length chain.old.header }
    ensures read { ReadsStrip geometry.now strip (strips_state F.File chain.old half.old) (strips_state F.File chain.new half.new) rows.new result.0 }
    ensures kept { KeepsStrips (strips_state F.File chain.old half.old) (strips_state F.File chain.new half.new) }
    ensures spare { F.spare chain.old.file ≤ F.spare chain.new.file + 1 }
    ensures added { AddsBytes name.now tiles.now (folder_effect D.Folder folder.old folder.new) result.1 }
    ensures asks { AsksNoPlace (folder_effect D.Folder folder.old folder.new) }
{
    join_mut(
        rt,
        &mut || -> Result<(), Failed>
            requires { IsSync Rt.row × IsSend F.row × IsNextStrip geometry.now strip (strips_state F.File chain.now half.now)
                × (length rows.now ≡ strip_rows chain.now.header geometry.now.tile strip * row_length chain.now.header) }
            ensures { ReadsStrip geometry.entry.now strip (strips_state F.File chain.entry.now half.entry.now)
                (strips_state F.File chain.exit.now half.exit.now) rows.exit.now result
                × KeepsStrips (strips_state F.File chain.entry.now half.entry.now) (strips_state F.File chain.exit.now half.exit.now)
                × (F.spare chain.entry.now.file ≤ F.spare chain.exit.now.file + 1) }
        { read_strip(rt, threads, chain, geometry, strip, rows, half) },
        &mut || -> Result<(), OutsideError>
            ensures { AddsBytes name.entry.now tiles.entry.now (folder_effect D.Folder folder.entry.now folder.exit.now) result
                × AsksNoPlace (folder_effect D.Folder folder.entry.now folder.exit.now) }
        { add_row(folder, name, tiles) },
    )
}

// Adds a row of tiles, and reads a strip meanwhile. Then the strip's own row of tiles is made.
fn step_at_once<Rt: Threads + Sync, F: File + Send, D: Folder>(
    rt: &Rt,
    threads: usize,
    chain: &mut StripChain<F>,
    geometry: &Geometry,
    strip: u32,
    rows: &mut [u8],
    next: &mut [u8],
    half: &mut Halving,
    folder: &mut D,
    name: &str,
    tiles: &[u8],
) -> Result<(), StoreError>
    requires next { IsNextStrip geometry.now strip (strips_state F.File chain.old half.old) }
    requires rows { length rows.old ≡ geometry.now.tile * (texel_length (depth_of chain.old.header.maximum) * geometry.now.width) }
    requires room { length next.old ≡ columns_at geometry.now 0 * tile_length geometry.now (depth_of chain.old.header.maximum) }
    ensures step { StripStep geometry.now strip name.now tiles.now next.new (strips_state F.File chain.old half.old) (strips_state F.File chain.new half.new)
        (folder_effect D.Folder folder.old folder.new) result }
    ensures kept { KeepsStep (strips_state F.File chain.old half.old) (strips_state F.File chain.new half.new)
        (folder_effect D.Folder folder.old folder.new) }
{
    let size = strip_size(chain, geometry, strip);
    let room = &mut rows[..size];
    let (read, added) = add_and_read(
        rt, threads, chain, geometry, strip, room, half, folder, name, tiles,
    );
    added?;
    read?;
    finish_strip(rt, threads, chain, geometry, strip, room, next, half);
    Ok(())
}

/// Adds the row of tiles in `front` to the name, and makes there that of a strip. The strip is read meanwhile, where `back` has room for a row, or
/// else after it. `Failed` comes only where the folder's count of faults rose or the file's; then a prefix of the row was added, and the strip may have
/// been read.
pub(crate) fn write_next<Rt: Threads + Sync, F: File + Send, D: Folder>(
    rt: &Rt,
    threads: usize,
    chain: &mut StripChain<F>,
    geometry: &Geometry,
    strip: u32,
    rows: &mut [u8],
    front: &mut Vec<u8>,
    back: &mut Vec<u8>,
    half: &mut Halving,
    folder: &mut D,
    name: &str,
) -> Result<(), StoreError>
    requires next { IsNextStrip geometry.now strip (strips_state F.File chain.old half.old) }
    requires rows { length rows.old ≡ geometry.now.tile * (texel_length (depth_of chain.old.header.maximum) * geometry.now.width) }
    requires front { vec_len front.old ≡ columns_at geometry.now 0 * tile_length geometry.now (depth_of chain.old.header.maximum) }
    requires back { (vec_len back.old ≡ 0) ⊎ (vec_len back.old ≡ vec_len front.old) }
    ensures step { StripStep geometry.now strip name.now front.old.items front.new.items (strips_state F.File chain.old half.old)
        (strips_state F.File chain.new half.new) (folder_effect D.Folder folder.old folder.new) result }
    ensures kept { KeepsStep (strips_state F.File chain.old half.old) (strips_state F.File chain.new half.new)
        (folder_effect D.Folder folder.old folder.new) }
    ensures front { vec_len front.new ≡ vec_len front.old }
    ensures back { vec_len back.new ≡ vec_len back.old }
{
    if back.is_empty() {
        return step_in_turn(
            rt,
            threads,
            chain,
            geometry,
            strip,
            rows,
            front.as_mut_slice(),
            half,
            folder,
            name,
        );
    }
    mem::swap(front, back);
    step_at_once(
        rt,
        threads,
        chain,
        geometry,
        strip,
        rows,
        front.as_mut_slice(),
        half,
        folder,
        name,
        back.as_slice(),
    )
}
