//! A place for a reader of a shared table, which C keeps in memory of its own.

ghost use Rattle.std.specs.Prelude.{◌≡◌, None};
ghost use Rattle.std.specs.Bool.{MatchBool};
ghost use Rattle.vtex_c.specs.Readers.{IsNumbered, IsNewestHeld, IsFoundUnder, IsRead, IsRunRead, IsRunBlended, IsReleased, IsShut, AreFit, IsFit};

use crate::{BAD_NUMBER, CLOSED, DONE, NOT_HELD};
use std::alloc::Global;
use vt_residency::Place;
use vt_shared::{Point, Reader, Span, are_points, is_run};

/// A place for a reader.
#[derive(Drop)]
pub struct ReaderPlace {
    pub inner: Option<Reader>,
}

/// A place without a reader.
pub fn empty(alloc: Global) -> ReaderPlace
    ensures { result ≡ record { inner = None } }
{
    let _ = alloc;
    ReaderPlace { inner: None }
}

/// Tells the number by which a table names the reader where it waits for it.
pub fn number(place: &mut ReaderPlace, told: &mut u32) -> u32
    ensures { IsNumbered place.old told.old result told.new place.new }
{
    match &place.inner {
        None => CLOSED,
        Some(reader) => {
            *told = reader.sampler();
            DONE
        }
    }
}

/// Takes hold of the newest version, and tells it.
pub fn hold(place: &mut ReaderPlace, version: &mut u64) -> u32
    ensures { IsNewestHeld place.old version.old result version.new place.new }
{
    match &mut place.inner {
        None => CLOSED,
        Some(reader) => match reader.hold() {
            None => NOT_HELD,
            Some(number) => {
                *version = number;
                DONE
            }
        },
    }
}

/// Looks a page up in the version that is held.
pub fn look_up(place: &mut ReaderPlace, page: u32, found: &mut Place) -> u32
    ensures { IsFoundUnder place.old page found.old result found.new place.new }
{
    match &mut place.inner {
        None => CLOSED,
        Some(reader) => {
            if page >= reader.geometry().page_count() {
                return BAD_NUMBER;
            }
            match reader.look_up(page) {
                None => NOT_HELD,
                Some(at) => {
                    *found = Place {
                        page: at.page,
                        frame: at.slot,
                        level: at.level,
                    };
                    DONE
                }
            }
        }
    }
}

// Whether points are the texture's, and so many bytes are those of their texels.
fn are_fit(reader: &Reader, points: &[Point], bytes: usize) -> bool
    ensures { MatchBool result (AreFit points.now bytes reader.now) (AreFit points.now bytes reader.now → ⊥) }
{
    let depth = reader.depth() as usize;
    if points.len() >= 4294967296 || bytes != 3 * depth * points.len() {
        return false;
    }
    are_points(reader.geometry(), points)
}

/// Writes the bytes of the texels over points in the version that is held.
pub fn texels(place: &mut ReaderPlace, points: &[Point], out: &mut [u8]) -> u32
    ensures { IsRead place.old points.now out.old result out.new place.new }
{
    match &mut place.inner {
        None => CLOSED,
        Some(reader) => {
            if !are_fit(reader, points, out.len()) {
                return BAD_NUMBER;
            }
            if reader.texels(points, out) {
                DONE
            } else {
                NOT_HELD
            }
        }
    }
}

// Whether the points of a run are the texture's, so many bytes are those of its texels, and so many pages are one for each.
fn is_fit(reader: &Reader, span: &Span, bytes: usize, pages: usize) -> bool
    ensures { MatchBool result (IsFit span.now bytes pages reader.now) (IsFit span.now bytes pages reader.now → ⊥) }
{
    let depth = reader.depth() as usize;
    if pages != span.count as usize || bytes != 3 * depth * span.count as usize {
        return false;
    }
    is_run(reader.geometry(), span)
}

/// Writes the bytes of a run of texels in the version that is held, and the page that each of them wants.
pub fn run(place: &mut ReaderPlace, span: &Span, out: &mut [u8], pages: &mut [u32]) -> u32
    ensures { IsRunRead place.old span.now out.old pages.old result out.new pages.new place.new }
{
    match &mut place.inner {
        None => CLOSED,
        Some(reader) => {
            if !is_fit(reader, span, out.len(), pages.len()) {
                return BAD_NUMBER;
            }
            if reader.run(span, out, pages) {
                DONE
            } else {
                NOT_HELD
            }
        }
    }
}

/// Writes the bytes of a run of texels by bilinear filtering in the version that is held, and the page that each of them wants.
pub fn blended_run(place: &mut ReaderPlace, span: &Span, out: &mut [u8], pages: &mut [u32]) -> u32
    ensures { IsRunBlended place.old span.now out.old pages.old result out.new pages.new place.new }
{
    match &mut place.inner {
        None => CLOSED,
        Some(reader) => {
            if !is_fit(reader, span, out.len(), pages.len()) {
                return BAD_NUMBER;
            }
            if reader.blended_run(span, out, pages) {
                DONE
            } else {
                NOT_HELD
            }
        }
    }
}

/// Holds the version no longer.
pub fn release(place: &mut ReaderPlace) -> u32
    ensures { IsReleased place.old result place.new }
{
    match &mut place.inner {
        None => CLOSED,
        Some(reader) => { if reader.release() { DONE } else { NOT_HELD } }
    }
}

/// Gives up the reader.
pub fn close(place: &mut ReaderPlace) -> u32
    ensures { IsShut place.old result place.new }
{
    place.inner = None;
    DONE
}
