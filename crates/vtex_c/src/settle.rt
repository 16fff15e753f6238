//! A batch of changes of a shared table, made in their order as far as they can be made at once.

ghost use Rattle.std.specs.Prelude.{◌≡◌, ◌≤◌};
ghost use Rattle.vt_tiles.specs.Format.{tile_length};
ghost use Rattle.vtex_c.specs.Settlings.{IsMade, IsTakenOut, AreMadeBy, IsSettled};

use crate::table::{TablePlace, VtexWaiting, frame_to_leave, leave, put};
use crate::{BAD_NUMBER, CLOSED, DONE};
use vt_shared::Owner;
use vt_tiles::tile_length;

/// A change to be made: `mapped` is 0 where a page is taken out of its frame, and else it is mapped to the frame with one of the tiles
/// given, which are numbered from 0.
#[repr(C)]
#[derive(Clone, Copy)]
pub struct VtexStep {
    pub page: u32,
    pub frame: u32,
    pub mapped: u32,
    pub tile: u32,
}

// How many bytes a tile of a table has.
fn tile_bytes(owner: &Owner) -> usize
    ensures is { result ≡ tile_length owner.now.streamer.shape owner.now.depth }
    ensures few { result ≤ 98304 }
{
    tile_length(owner.geometry(), owner.depth())
}

// Maps the page of a step.
fn put_step(owner: &mut Owner, step: &VtexStep, tiles: &[u8], waiting: &mut VtexWaiting) -> u32
    requires { step.now.mapped ≡ 0 → ⊥ }
    ensures { IsMade tiles.now step.now owner.old waiting.old result waiting.new owner.new }
{
    let bytes = tile_bytes(owner);
    let start = step.tile as usize * bytes;
    if tiles.len() < start + bytes {
        return BAD_NUMBER;
    }
    put(
        owner,
        step.page,
        step.frame,
        &tiles[start..start + bytes],
        waiting,
    )
}

// Takes a page out of a frame, where it is in that frame.
fn take_out(owner: &mut Owner, page: u32, frame: u32, waiting: &mut VtexWaiting) -> u32
    ensures { IsTakenOut page frame owner.old waiting.old result waiting.new owner.new }
{
    let Some(own) = frame_to_leave(owner, page) else {
        return BAD_NUMBER;
    };
    if own != frame {
        return BAD_NUMBER;
    }
    leave(owner, page, own, waiting)
}

// Makes a step.
#[tactic(auto, using(crate::proofs::Settling::made_out))]
fn make(owner: &mut Owner, step: &VtexStep, tiles: &[u8], waiting: &mut VtexWaiting) -> u32
    ensures { IsMade tiles.now step.now owner.old waiting.old result waiting.new owner.new }
{
    if step.mapped == 0 {
        return take_out(owner, step.page, step.frame, waiting);
    }
    put_step(owner, step, tiles, waiting)
}

// Makes steps until one cannot be made at once, and tells how many were made.
fn make_all(
    owner: &mut Owner,
    steps: &[VtexStep],
    tiles: &[u8],
    made: &mut u64,
    waiting: &mut VtexWaiting,
) -> u32
    ensures { AreMadeBy owner.old steps.now tiles.now waiting.old result made.new waiting.new owner.new }
{
    for k in 0..steps.len() {
        let status = make(owner, &steps[k], tiles, waiting);
        if status != DONE {
            *made = k as u64;
            return status;
        }
    }
    *made = steps.len() as u64;
    DONE
}

/// Makes a batch of changes in their order until one cannot be made at once, and tells how many were made.
pub fn settle(
    place: &mut TablePlace,
    steps: &[VtexStep],
    tiles: &[u8],
    made: &mut u64,
    waiting: &mut VtexWaiting,
) -> u32
    ensures { IsSettled place.old steps.now tiles.now made.old waiting.old result made.new waiting.new place.new }
{
    match &mut place.inner {
        None => CLOSED,
        Some(owner) => make_all(owner, steps, tiles, made, waiting),
    }
}
