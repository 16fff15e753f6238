//! Runs along one axis: whether they stay inside, and how long they stay in one page. Steps are even, so the two ends decide, and one
//! division a page.

ghost use Rattle.std.specs.Prelude.{◌≡◌, ◌*◌, ◌+◌, ◌%◌, ◌^◌, ◌<◌, ◌≤◌, ℕ, IsTrue};
ghost use Rattle.std.specs.Bool.{MatchBool};
ghost use Rattle.vt_definitions.specs.Limits.{most_tiled_side};
ghost use Rattle.vt_definitions.specs.Tiles.{is_tile_side};
ghost use Rattle.vt_pages.specs.Pages.{IsWithinLimits};
ghost use Rattle.vt_pages.specs.Tables.{IsTileShift};
ghost use Rattle.vt_draw.specs.Lookups.{covering_page};
ghost use Rattle.vt_texel_runs.specs.Spans.{span_point, IsSpanInside};
ghost use Rattle.vt_texel_runs.specs.Stretches.{IsAxisInside, AreTogether, IsPageAlong};

use crate::spans::Span;
use vt_pages::Geometry;

/// Whether all places along an axis of a size are inside, from a start by a step to the last one. Places go round at 2^32, which is more
/// than four times as far as any size, so one that is inside is never reached by going round.
pub(crate) fn is_axis_inside(size: u32, start: u32, step: u32, last: u32) -> bool
    requires { size ≤ most_tiled_side }
    ensures { MatchBool result (IsAxisInside size start step (last + 1)) (IsAxisInside size start step (last + 1) → ⊥) }
{
    if start / 65536 >= size {
        return false;
    }
    if step < 2147483648 {
        if (start as u64 + step as u64 * last as u64) / 65536 >= size as u64 {
            return false;
        }
        return true;
    }
    if (4294967296 - step as u64) * last as u64 > start as u64 {
        return false;
    }
    true
}

// How many multiples of a step fit in a room, from none on, at most so many.
#[inline(always)]
fn fitting(room: u64, step: u32, most: u32) -> u32
    requires { 1 ≤ most }
    ensures some { 1 ≤ result }
    ensures most { result ≤ most }
    ensures fit { (m : ℕ) → m < result → step * m ≤ room }
{
    if step as u64 * (most - 1) as u64 <= room {
        return most;
    }
    (room / step as u64) as u32 + 1
}

// How far a place is behind the first one of its block of 2 to the power `bits`, and how far before the last one.
#[inline(always)]
fn ends_of(place: u64, bits: u32) -> (u64, u64)
    requires small { place < 2 ^ 32 }
    requires bits { bits < 64 }
    ensures behind { result.0 ≡ place % 2 ^ bits }
    ensures before { result.0 + result.1 + 1 ≡ 2 ^ bits }
{
    let behind = place - (place >> bits << bits);
    (behind, (1u64 << bits) - 1 - behind)
}

/// Where a run leaves the block of 2 to the power `up` texels that holds the place with index `i`, or its end.
#[inline(always)]
pub(crate) fn end_together(start: u32, step: u32, up: u32, i: u32, count: u32) -> u32
    requires up { up < 32 }
    requires below { i < count }
    ensures some { i < result }
    ensures most { result ≤ count }
    ensures together { (size : ℕ) → size ≤ most_tiled_side → IsAxisInside size start step count → AreTogether start step up i result }
{
    let place = (start as u64 + step as u64 * i as u64) % 4294967296;
    let (behind, before) = ends_of(place, up + 16);
    if step < 2147483648 {
        i + fitting(before, step, count - i)
    } else {
        i + fitting(behind, (4294967296 - step as u64) as u32, count - i)
    }
}

// The exponent of a tile side as a power of two.
#[inline(always)]
fn shift_of(tile: u32) -> u32
    requires { IsTrue (is_tile_side tile) }
    ensures { IsTileShift tile result }
{
    tile.trailing_zeros()
}

/// Where a run leaves the page of its point with index `i`, or its end.
pub(crate) fn end_of_page(geometry: &Geometry, span: &Span, i: u32) -> u32
    requires limits { IsWithinLimits geometry.now }
    requires inside { IsSpanInside geometry.now span.now }
    requires below { i < span.now.count }
    ensures some { i < result }
    ensures most { result ≤ span.now.count }
    ensures same { IsPageAlong geometry.now span.now i result (covering_page geometry.now (span_point span.now i).level (span_point span.now i).x (span_point span.now i).y) }
{
    let up = span.level + shift_of(geometry.tile());
    let across = end_together(span.x, span.step_x, up, i, span.count);
    let down = end_together(span.y, span.step_y, up, i, span.count);
    if across < down { across } else { down }
}
