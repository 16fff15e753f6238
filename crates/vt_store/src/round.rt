//! A round in which one thread reads strips and makes their rows of tiles, and the calling thread adds them to the name.
ghost use Rattle.std.specs.Prelude.{◌≡◌, ◌+◌, ◌*◌, ◌<◌, ◌≤◌, [], ◌++◌, length, vec_len, OnOk};
ghost use Rattle.std.specs.Thread.{IsSend, IsSync};
ghost use mathlib.Core.List.{IsPrefix};
ghost use Rattle.rtrb.specs.Ring.{IsPair, SameConsumer, SameProducer, known_items, received, sent};
ghost use Rattle.vt_definitions.specs.Depths.{texel_length};
ghost use Rattle.vt_outside.specs.Effects.{folder_effect};
ghost use Rattle.vt_ppm.specs.Format.{depth_of};
ghost use Rattle.vt_pages.specs.Pages.{columns_at, rows_at};
ghost use Rattle.vt_tiles.specs.Format.{tile_length};
ghost use Rattle.vt_store.specs.Rings.{AreNewRings};
ghost use Rattle.vt_store.specs.Rounds.{AddsFirstStrips, AddsRows, MakesRows};
ghost use Rattle.vt_store.specs.Steps.{AsksNoPlace};
ghost use Rattle.vt_store.specs.StripSteps.{AddsStrips, IsNextStrip, KeepsStrips, strips_state};

use crate::ring::{Adding, Making, Stage, has_row};
use crate::steps::add_row;
use crate::strip::{make_strip, strip_count};
use crate::write::longest_row;
use std::thread::{Threads, join_mut};
use vt_mip::{Halving, StripChain};
use vt_outside::{Failed, File, Folder, OutsideError};
use vt_pages::Geometry;
use vt_tiles::StoreError;

// Adds the oldest row of tiles to the name, and gives its room back.
fn add_oldest<D: Folder>(
    adding: &mut Adding,
    folder: &mut D,
    name: &str,
) -> Result<(), OutsideError>
    requires { 0 < length (known_items adding.old.rows) }
    ensures ring { SameConsumer adding.old.rows adding.new.rows }
    ensures order { received adding.new.rows ++ known_items adding.new.rows ≡ received adding.old.rows ++ known_items adding.old.rows }
    ensures fewer { length (known_items adding.old.rows) ≡ length (known_items adding.new.rows) + 1 }
    ensures adds { AddsRows name.now (received adding.old.rows) (received adding.new.rows) (folder_effect D.Folder folder.old folder.new) result }
    ensures asks { AsksNoPlace (folder_effect D.Folder folder.old folder.new) }
{
    let row = adding.rows.pop_known();
    let added = add_row(folder, name, row.as_slice());
    adding.give_back(row);
    added
}

// Adds so many rows of tiles, or fewer where no more are made.
fn add_made<D: Folder>(
    adding: &mut Adding,
    count: u32,
    making: &Stage,
    folder: &mut D,
    name: &str,
) -> Result<(), OutsideError>
    ensures ring { SameConsumer adding.old.rows adding.new.rows }
    ensures adds { AddsRows name.now (received adding.old.rows) (received adding.new.rows) (folder_effect D.Folder folder.old folder.new) result }
    ensures asks { AsksNoPlace (folder_effect D.Folder folder.old folder.new) }
{
    for _ in 0..count {
        if !has_row(&mut adding.rows, making) {
            break;
        }
        add_oldest(adding, folder, name)?;
    }
    Ok(())
}

// The stage that adds rows of tiles.
fn add_rows<D: Folder>(
    adding: &mut Adding,
    count: u32,
    making: &Stage,
    own: &Stage,
    folder: &mut D,
    name: &str,
) -> Result<(), OutsideError>
    ensures ring { SameConsumer adding.old.rows adding.new.rows }
    ensures adds { AddsRows name.now (received adding.old.rows) (received adding.new.rows) (folder_effect D.Folder folder.old folder.new) result }
    ensures asks { AsksNoPlace (folder_effect D.Folder folder.old folder.new) }
{
    own.begin();
    let added = add_made(adding, count, making, folder, name);
    own.end();
    added
}

// Adds the rows of tiles that were made and are still in the ring.
fn add_left<D: Folder>(
    making: &mut Making,
    adding: &mut Adding,
    folder: &mut D,
    name: &str,
) -> Result<(), OutsideError>
    requires { IsPair making.old.rows adding.old.rows }
    ensures sent { sent making.new.rows ≡ sent making.old.rows }
    ensures front { IsPrefix (received adding.new.rows) (sent making.old.rows) }
    ensures all { OnOk result (received adding.new.rows ≡ sent making.old.rows) }
    ensures adds { AddsRows name.now (received adding.old.rows) (received adding.new.rows) (folder_effect D.Folder folder.old folder.new) result }
    ensures asks { AsksNoPlace (folder_effect D.Folder folder.old folder.new) }
{
    let left = adding.rows.slots_beside(&mut making.rows);
    for _ in 0..left {
        add_oldest(adding, folder, name)?;
    }
    Ok(())
}

// Reads strips and makes their rows of tiles, as long as a room comes. It answers how many.
fn make_some<Rt: Threads + Sync, F: File>(
    rt: &Rt,
    threads: usize,
    chain: &mut StripChain<F>,
    geometry: &Geometry,
    rows: &mut [u8],
    making: &mut Making,
    adding: &Stage,
    half: &mut Halving,
) -> Result<u32, Failed>
    requires first { IsNextStrip geometry.now 0 (strips_state F.File chain.old half.old) }
    requires spare { rows_at geometry.now 0 ≤ F.spare chain.old.file }
    requires rows { length rows.old ≡ geometry.now.tile * (texel_length (depth_of chain.old.header.maximum) * geometry.now.width) }
    requires sent { sent making.old.rows ≡ [] }
    ensures ring { SameProducer making.old.rows making.new.rows }
    ensures made { MakesRows geometry.now (strips_state F.File chain.old half.old) (strips_state F.File chain.new half.new)
        (sent making.new.rows) result }
{
    let length = longest_row(geometry, chain.depth());
    let count = strip_count(geometry);
    for strip in 0..count {
        let Some(mut row) = making.next_room(length, adding) else {
            return Ok(strip);
        };
        make_strip(
            rt,
            threads,
            chain,
            geometry,
            strip,
            rows,
            row.as_mut_slice(),
            half,
        )?;
        making.rows.push_reserved(row);
    }
    Ok(count)
}

// The stage that makes rows of tiles.
fn make_rows<Rt: Threads + Sync, F: File>(
    rt: &Rt,
    threads: usize,
    chain: &mut StripChain<F>,
    geometry: &Geometry,
    rows: &mut [u8],
    making: &mut Making,
    own: &Stage,
    adding: &Stage,
    half: &mut Halving,
) -> Result<u32, Failed>
    requires first { IsNextStrip geometry.now 0 (strips_state F.File chain.old half.old) }
    requires spare { rows_at geometry.now 0 ≤ F.spare chain.old.file }
    requires rows { length rows.old ≡ geometry.now.tile * (texel_length (depth_of chain.old.header.maximum) * geometry.now.width) }
    requires sent { sent making.old.rows ≡ [] }
    ensures ring { SameProducer making.old.rows making.new.rows }
    ensures made { MakesRows geometry.now (strips_state F.File chain.old half.old) (strips_state F.File chain.new half.new)
        (sent making.new.rows) result }
{
    own.begin();
    let made = make_some(rt, threads, chain, geometry, rows, making, adding, half);
    own.end();
    made
}

// Makes rows of tiles in a thread of its own, and adds them meanwhile. Where no thread can be made, none is added meanwhile.
fn run_both<Rt: Threads + Sync, F: File + Send, D: Folder>(
    rt: &Rt,
    threads: usize,
    chain: &mut StripChain<F>,
    geometry: &Geometry,
    rows: &mut [u8],
    making: &mut Making,
    adding: &mut Adding,
    half: &mut Halving,
    folder: &mut D,
    name: &str,
) -> (Result<u32, Failed>, Result<(), OutsideError>)
    requires first { IsNextStrip geometry.now 0 (strips_state F.File chain.old half.old) }
    requires spare { rows_at geometry.now 0 ≤ F.spare chain.old.file }
    requires rows { length rows.old ≡ geometry.now.tile * (texel_length (depth_of chain.old.header.maximum) * geometry.now.width) }
    requires pair { IsPair making.old.rows adding.old.rows }
    requires sent { sent making.old.rows ≡ [] }
    ensures pair { IsPair making.new.rows adding.new.rows }
    ensures made { MakesRows geometry.now (strips_state F.File chain.old half.old) (strips_state F.File chain.new half.new)
        (sent making.new.rows) result.0 }
    ensures adds { AddsRows name.now (received adding.old.rows) (received adding.new.rows) (folder_effect D.Folder folder.old folder.new) result.1 }
    ensures asks { AsksNoPlace (folder_effect D.Folder folder.old folder.new) }
{
    let (first, second) = (Stage::new(), Stage::new());
    let (maker, adder) = (&first, &second);
    let count = strip_count(geometry);
    join_mut(
        rt,
        &mut || -> Result<u32, Failed>
            requires { IsSync Rt.row × IsSend F.row × IsNextStrip geometry.now 0 (strips_state F.File chain.now half.now)
                × (rows_at geometry.now 0 ≤ F.spare chain.now.file)
                × (length rows.now ≡ geometry.now.tile * (texel_length (depth_of chain.now.header.maximum) * geometry.now.width))
                × (sent making.now.rows ≡ []) }
            ensures { SameProducer making.entry.now.rows making.exit.now.rows
                × MakesRows geometry.entry.now (strips_state F.File chain.entry.now half.entry.now)
                (strips_state F.File chain.exit.now half.exit.now) (sent making.exit.now.rows) result }
        {
            make_rows(
                rt, threads, chain, geometry, rows, making, maker, adder, half,
            )
        },
        &mut || -> Result<(), OutsideError>
            ensures { SameConsumer adding.entry.now.rows adding.exit.now.rows
                × AddsRows name.entry.now (received adding.entry.now.rows) (received adding.exit.now.rows)
                (folder_effect D.Folder folder.entry.now folder.exit.now) result
                × AsksNoPlace (folder_effect D.Folder folder.entry.now folder.exit.now) }
        { add_rows(adding, count, maker, adder, folder, name) },
    )
}

// Makes rows of tiles and adds all that were made, or a front of them.
fn make_and_add<Rt: Threads + Sync, F: File + Send, D: Folder>(
    rt: &Rt,
    threads: usize,
    chain: &mut StripChain<F>,
    geometry: &Geometry,
    rows: &mut [u8],
    making: &mut Making,
    adding: &mut Adding,
    half: &mut Halving,
    folder: &mut D,
    name: &str,
) -> (Result<u32, Failed>, Result<(), OutsideError>)
    requires first { IsNextStrip geometry.now 0 (strips_state F.File chain.old half.old) }
    requires spare { rows_at geometry.now 0 ≤ F.spare chain.old.file }
    requires rows { length rows.old ≡ geometry.now.tile * (texel_length (depth_of chain.old.header.maximum) * geometry.now.width) }
    requires rings { AreNewRings making.old.rows adding.old.rows }
    ensures made { MakesRows geometry.now (strips_state F.File chain.old half.old) (strips_state F.File chain.new half.new)
        (sent making.new.rows) result.0 }
    ensures front { IsPrefix (received adding.new.rows) (sent making.new.rows) }
    ensures all { OnOk result.1 (received adding.new.rows ≡ sent making.new.rows) }
    ensures adds { AddsRows name.now (received adding.old.rows) (received adding.new.rows) (folder_effect D.Folder folder.old folder.new) result.1 }
    ensures asks { AsksNoPlace (folder_effect D.Folder folder.old folder.new) }
{
    let (made, added) = run_both(
        rt, threads, chain, geometry, rows, making, adding, half, folder, name,
    );
    match added {
        Ok(()) => (made, add_left(making, adding, folder, name)),
        Err(refused) => {
            adding.rows.slots_beside(&mut making.rows);
            (made, Err(refused))
        }
    }
}

// Adds the tiles of the first strips to the name, as many as a round does, and answers how many.
fn write_round<Rt: Threads + Sync, F: File + Send, D: Folder>(
    rt: &Rt,
    threads: usize,
    chain: &mut StripChain<F>,
    geometry: &Geometry,
    rows: &mut [u8],
    making: &mut Making,
    adding: &mut Adding,
    half: &mut Halving,
    folder: &mut D,
    name: &str,
) -> Result<u32, StoreError>
    requires first { IsNextStrip geometry.now 0 (strips_state F.File chain.old half.old) }
    requires spare { rows_at geometry.now 0 ≤ F.spare chain.old.file }
    requires rows { length rows.old ≡ geometry.now.tile * (texel_length (depth_of chain.old.header.maximum) * geometry.now.width) }
    requires rings { AreNewRings making.old.rows adding.old.rows }
    ensures adds { AddsFirstStrips geometry.now name.now (strips_state F.File chain.old half.old) (strips_state F.File chain.new half.new)
        (folder_effect D.Folder folder.old folder.new) result }
    ensures kept { KeepsStrips (strips_state F.File chain.old half.old) (strips_state F.File chain.new half.new) }
    ensures asks { AsksNoPlace (folder_effect D.Folder folder.old folder.new) }
{
    let _ = geometry.tile();
    let (made, added) = make_and_add(
        rt, threads, chain, geometry, rows, making, adding, half, folder, name,
    );
    added?;
    let count = made?;
    Ok(count)
}

/// Adds the tiles of level 0 to the name, which holds the store's header, and makes level 1: strips are read in one thread, and their tiles added
/// in this one. What the round leaves, as its stages do not wait without bound, is done strip by strip.
pub(crate) fn write_by_round<Rt: Threads + Sync, F: File + Send, D: Folder>(
    rt: &Rt,
    threads: usize,
    chain: &mut StripChain<F>,
    geometry: &Geometry,
    rows: &mut [u8],
    front: &mut Vec<u8>,
    making: &mut Making,
    adding: &mut Adding,
    half: &mut Halving,
    folder: &mut D,
    name: &str,
) -> Result<(), StoreError>
    requires threads { 1 ≤ threads }
    requires first { IsNextStrip geometry.now 0 (strips_state F.File chain.old half.old) }
    requires spare { rows_at geometry.now 0 ≤ F.spare chain.old.file }
    requires rows { length rows.old ≡ geometry.now.tile * (texel_length (depth_of chain.old.header.maximum) * geometry.now.width) }
    requires front { vec_len front.old ≡ columns_at geometry.now 0 * tile_length geometry.now (depth_of chain.old.header.maximum) }
    requires rings { AreNewRings making.old.rows adding.old.rows }
    ensures level { AddsStrips geometry.now name.now (strips_state F.File chain.old half.old) (strips_state F.File chain.new half.new)
        (folder_effect D.Folder folder.old folder.new) result }
    ensures kept { KeepsStrips (strips_state F.File chain.old half.old) (strips_state F.File chain.new half.new) }
    ensures front { vec_len front.new ≡ vec_len front.old }
    ensures asks { AsksNoPlace (folder_effect D.Folder folder.old folder.new) }
{
    let count = strip_count(geometry);
    // One thread adds, and the others make.
    let done = write_round(
        rt,
        threads - 1,
        chain,
        geometry,
        rows,
        making,
        adding,
        half,
        folder,
        name,
    )?;
    for strip in done..count {
        make_strip(
            rt,
            threads,
            chain,
            geometry,
            strip,
            rows,
            front.as_mut_slice(),
            half,
        )?;
        add_row(folder, name, front.as_slice())?;
    }
    Ok(())
}
