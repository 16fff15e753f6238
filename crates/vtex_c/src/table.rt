//! A place for the owner of a shared table, which C keeps in memory of its own.

ghost use Rattle.std.specs.Prelude.{◌≡◌, Some, None, MatchOption};
ghost use Rattle.std.specs.Bool.{MatchBool};
ghost use Rattle.vt_definitions.specs.Depths.{IsDepth};
ghost use Rattle.vt_shared.specs.Given.{HasTileLength};
ghost use Rattle.vtex_c.specs.Tables.{AreNumbers, IsTableOpened, IsPut, IsPageLeft, IsMapped, IsUnmapped, IsReaderOpened, IsTakenBack, IsTableClosed, AreOfOneTable, MayMap, MayUnmap};
ghost use Rattle.vt_journal.specs.Changes.{newest};

use crate::reader::ReaderPlace;
use crate::shape::{VtexShape, geometry_of};
use crate::{BAD_NUMBER, BAD_ORDER, BAD_SHAPE, CLOSED, DONE, NO_MEMORY, NO_SEAT, WAITING};
use std::alloc::Global;
use vt_pages::Geometry;
use vt_shared::{Owner, Waiting};
use vt_tiles::tile_length;

/// Whom a call waits for: the number of a reader, and the version that it announced. It may hold this one or a later one.
#[repr(C)]
#[derive(Clone, Copy)]
pub struct VtexWaiting {
    pub reader: u32,
    pub version: u64,
}

/// A place for the owner of a table.
#[derive(Drop)]
pub struct TablePlace {
    pub alloc: Global,
    pub inner: Option<Owner>,
}

/// A place without an owner.
pub fn empty(alloc: Global) -> TablePlace
    ensures { result ≡ record { alloc = alloc; inner = None } }
{
    TablePlace { alloc, inner: None }
}

// Whether a table may have this depth, so many frames and so many readers.
fn are_numbers(geometry: &Geometry, depth: u32, frames: u32, readers: u32) -> bool
    ensures { MatchBool result (AreNumbers geometry.now depth frames readers) (AreNumbers geometry.now depth frames readers → ⊥) }
{
    let side = geometry.tile() as u64;
    (depth == 1 || depth == 2)
        && (1 <= frames && frames <= 65535)
        && frames as u64 * (side * side) <= 8388608
        && (1 <= readers && readers <= 64)
}

// Whether so many bytes are those of a tile.
fn is_tile_length(geometry: &Geometry, depth: u32, length: usize) -> bool
    requires { IsDepth depth }
    ensures { MatchBool result (HasTileLength geometry.now depth length) (HasTileLength geometry.now depth length → ⊥) }
{
    length == tile_length(geometry, depth)
}

// Whether a page can be mapped to a frame.
fn may_map(owner: &Owner, page: u32, frame: u32, bytes: usize) -> bool
    ensures { MatchBool result (MayMap owner.now page frame bytes) (MayMap owner.now page frame bytes → ⊥) }
{
    if page >= owner.geometry().page_count() || frame as usize >= owner.frames() {
        return false;
    }
    if !is_tile_length(owner.geometry(), owner.depth(), bytes) {
        return false;
    }
    if owner.version() >= 4611686018427387904 {
        return false;
    }
    if owner.frame_of(page).is_some() {
        return false;
    }
    owner.is_free(frame)
}

/// The frame of a page that can be taken out of it.
pub fn frame_to_leave(owner: &Owner, page: u32) -> Option<u32>
    ensures { MatchOption result (MayUnmap owner.now page → ⊥)
        (λ frame. (newest owner.now.streamer.writer.journal page ≡ Some frame) × MayUnmap owner.now page) }
{
    if page >= owner.geometry().page_count() - 1 {
        return None;
    }
    if owner.version() >= 4611686018427387904 {
        return None;
    }
    owner.frame_of(page)
}

/// Opens a table, in place of the one that there is.
pub fn open(place: &mut TablePlace, shape: &VtexShape, depth: u32, frames: u32, readers: u32) -> u32
    ensures { IsTableOpened place.old shape.now depth frames readers result place.new }
{
    let Some(geometry) = geometry_of(shape) else {
        return BAD_SHAPE;
    };
    if !are_numbers(&geometry, depth, frames, readers) {
        return BAD_NUMBER;
    }
    match Owner::new(place.alloc, &geometry, depth, frames, readers) {
        Ok(owner) => {
            place.inner = Some(owner);
            DONE
        }
        Err(_) => NO_MEMORY,
    }
}

// Whom a step waits for, as C is told.
fn waiting_for(who: Waiting) -> VtexWaiting
    ensures reader { result.reader ≡ who.sampler }
    ensures version { result.version ≡ who.holds }
{
    VtexWaiting {
        reader: who.sampler,
        version: who.holds,
    }
}

/// Fills a frame with a page's tile and maps the page to it, in an open table.
pub fn put(owner: &mut Owner, page: u32, frame: u32, tile: &[u8], waiting: &mut VtexWaiting) -> u32
    ensures { IsPut owner.old page frame tile.now waiting.old result waiting.new owner.new }
{
    if !may_map(owner, page, frame, tile.len()) {
        return BAD_NUMBER;
    }
    match owner.map(page, frame, tile) {
        Ok(()) => DONE,
        Err(who) => {
            *waiting = waiting_for(who);
            WAITING
        }
    }
}

/// Takes a page out of the frame that it has, in an open table.
pub fn leave(owner: &mut Owner, page: u32, frame: u32, waiting: &mut VtexWaiting) -> u32
    requires may { MayUnmap owner.old page }
    requires at { newest owner.old.streamer.writer.journal page ≡ Some frame }
    ensures { IsPageLeft owner.old page frame waiting.old result waiting.new owner.new }
{
    match owner.unmap(page, frame) {
        Ok(()) => DONE,
        Err(who) => {
            *waiting = waiting_for(who);
            WAITING
        }
    }
}

/// Fills a frame with a page's tile and maps the page to it.
pub fn map(
    place: &mut TablePlace,
    page: u32,
    frame: u32,
    tile: &[u8],
    waiting: &mut VtexWaiting,
) -> u32
    ensures { IsMapped place.old page frame tile.now waiting.old result waiting.new place.new }
{
    match &mut place.inner {
        None => CLOSED,
        Some(owner) => put(owner, page, frame, tile, waiting),
    }
}

/// Takes a page out of its frame.
pub fn unmap(place: &mut TablePlace, page: u32, waiting: &mut VtexWaiting) -> u32
    ensures { IsUnmapped place.old page waiting.old result waiting.new place.new }
{
    match &mut place.inner {
        None => CLOSED,
        Some(owner) => match frame_to_leave(owner, page) {
            None => BAD_NUMBER,
            Some(frame) => leave(owner, page, frame, waiting),
        },
    }
}

/// Opens a reader of a table.
pub fn admit(place: &mut TablePlace, reader: &mut ReaderPlace) -> u32
    ensures { IsReaderOpened place.old reader.old result place.new reader.new }
{
    if reader.inner.is_some() {
        return BAD_ORDER;
    }
    match &mut place.inner {
        None => CLOSED,
        Some(owner) => {
            if !owner.is_rooted() {
                return BAD_ORDER;
            }
            match owner.vacant() {
                None => NO_SEAT,
                Some(sampler) => match owner.admit(sampler) {
                    Ok(admitted) => {
                        reader.inner = Some(admitted);
                        DONE
                    }
                    Err(_) => NO_MEMORY,
                },
            }
        }
    }
}

/// Closes a reader of this table.
pub fn dismiss(place: &mut TablePlace, reader: &mut ReaderPlace) -> u32
    requires { AreOfOneTable place.old reader.old }
    ensures { IsTakenBack place.old reader.old result place.new reader.new }
{
    match &mut place.inner {
        None => CLOSED,
        Some(owner) => match reader.inner.take() {
            None => CLOSED,
            Some(own) => {
                owner.take_back(own);
                DONE
            }
        },
    }
}

/// Gives up the table.
pub fn close(place: &mut TablePlace) -> u32
    ensures { IsTableClosed place.old result place.new }
{
    place.inner = None;
    DONE
}
