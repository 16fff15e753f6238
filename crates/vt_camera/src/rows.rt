//! A row of a picture: its mip level, and the texel that each of its pixels shows.

ghost use Rattle.std.specs.Prelude.{◌≡◌, ◌+◌, ◌-◌, ◌*◌, ◌/◌, ◌%◌, ◌^◌, ◌<◌, ◌≤◌, ℤ, pos, negsuc, neg_ℤ, ◌+ℤ◌, ◌-ℤ◌, ◌*ℤ◌, ◌≤ℤ◌, ◌<ℤ◌};
ghost use Rattle.vt_text.specs.Limits.{most_picture_side, most_focal};
ghost use Rattle.vt_text.specs.Sides.{side};
ghost use Rattle.vt_camera.specs.Paths.{IsCamera, most_direction, most_height, most_place};
ghost use Rattle.vt_camera.specs.Rows.{longest_side, IsSurface, floor_div, distance, span, level_within, off_middle, row_of, row_level, row_place, row_spot};
ghost use Rattle.vt_camera.specs.RowParts.{whole_turns, middle_of, part_of, turn_at, on_ring, IsAxis};

use crate::paths::{Camera, Path};
use crate::surfaces::Surface;
use std::marker::Model;

/// A row of a picture, with all that is the same at each of its pixels. It knows its level and the texel of each pixel:
/// the ground is seen from the camera's height, the row y lies y+1 pixels below the horizon, and
/// the texture repeats in both directions.
#[derive(Drop)]
pub struct Row {
    width: u32,
    focal: u32,
    camera: Camera,
    y: u32,
    surface: Surface,
    level: u32,
    columns: Axis,
    rows: Axis,
}

// What is the same at each pixel of a row along one of the two axes of the ground. The texture repeats along it: its side
// is a ring, and 2^64 parts make one turn of the ring.
#[derive(Clone, Copy)]
struct Axis {
    // Where the row's middle lies, whole turns further on, in 1/2^23 texel.
    middle: i64,
    // How far the row goes in half a pixel, in 1/2^23 texel.
    across: i64,
    // How many parts of the turn 1/256 texel is, rounded up.
    part: u64,
    // How many texels of the row's level the turn has, in 1/65536 texel.
    turn: u64,
}

impl Axis {
    // The axis of a row of this level, on which the texture has this side.
    fn of(middle: i64, across: i64, side: u32, level: u32) -> Axis
        requires middle_low { pos 4503599627370496 ≤ℤ middle }
        requires middle_high { middle ≤ℤ pos 13510798882144255 }
        requires across_low { negsuc 274877906943 ≤ℤ across }
        requires across_high { across ≤ℤ pos 274877906944 }
        requires side_low { 1 ≤ side }
        requires side_high { side ≤ longest_side }
        requires level { level ≤ 16 }
        ensures { IsAxis side level middle across result }
    {
        Axis {
            middle,
            across,
            part: part_of(side),
            turn: turn_at(side, level),
        }
    }
}

impl Model for Row {
    ghost use Rattle.vt_camera.specs.Rows.{RowView};
    ghost use Rattle.vt_camera.specs.RowParts.{IsRow};

    ghost Value = { RowView };

    ghost view = { λ r. record { width = r.width; focal = r.focal; camera = r.camera; y = r.y; surface = r.surface } };

    ghost invariant = { λ r.
        IsRow (record { width = r.width; focal = r.focal; camera = r.camera; y = r.y; surface = r.surface })
        r.level r.columns r.rows };
}

impl Row {
    /// Row y of the picture that this camera takes: y is below the path's height, the camera is within its limits, the
    /// surface's sides are from 1 to 16384 and it has at least one level. It takes no memory.
    pub fn of(path: &Path, camera: &Camera, y: u32, surface: &Surface) -> Row
        requires within { y < path.now.height }
        requires limits { IsCamera camera.now }
        requires sides { IsSurface surface.now }
        ensures { result ≡ row_of path.now camera.now y surface.now }
    {
        let width = path.width();
        let focal = path.focal();
        let distance = distance_of(camera, focal, y);
        let span = span_of(camera, y);
        let level = greatest_level(span, surface.levels - 1);
        Row {
            width,
            focal,
            camera: *camera,
            y,
            surface: *surface,
            level,
            columns: columns_of(camera, distance, span, surface.width, level),
            rows: rows_of(camera, distance, span, surface.height, level),
        }
    }

    /// The mip level that the row takes its texels from, below the surface's number of levels.
    pub fn level(&self) -> u32
        ensures value { result ≡ row_level self.now }
        ensures within { result < self.now.surface.levels }
    {
        self.level
    }

    /// The column and the row of the texel of level 0 that pixel x of the row shows, x below the picture's width. It
    /// takes no memory.
    #[inline]
    pub fn texel(&self, x: u32) -> (u32, u32)
        requires { x < self.now.width }
        ensures column { result.0 ≡ (row_place self.now x).0 }
        ensures row { result.1 ≡ (row_place self.now x).1 }
        ensures column_within { result.0 < self.now.surface.width }
        ensures row_within { result.1 < self.now.surface.height }
    {
        let (u, v) = self.ground(x);
        (
            on_ring(u, self.columns.part, u64::from(self.surface.width)) as u32,
            on_ring(v, self.rows.part, u64::from(self.surface.height)) as u32,
        )
    }

    /// The column and the row of the texel of the row's own level that pixel x of the row shows, x below the picture's
    /// width. It takes no memory.
    #[inline(always)]
    pub fn texel_in_level(&self, x: u32) -> (u32, u32)
        requires { x < self.now.width }
        ensures column { result.0 ≡ (row_place self.now x).0 / 2 ^ row_level self.now }
        ensures row { result.1 ≡ (row_place self.now x).1 / 2 ^ row_level self.now }
        ensures column_within { result.0 < side self.now.surface.width (row_level self.now) }
        ensures row_within { result.1 < side self.now.surface.height (row_level self.now) }
    {
        let (u, v) = self.ground(x);
        (
            (on_ring(u, self.columns.part, self.columns.turn) >> 16) as u32,
            (on_ring(v, self.rows.part, self.rows.turn) >> 16) as u32,
        )
    }

    /// Where pixel x of the row lies on the texture, in 1/256 texel of level 0 from its first column and its first row, x below the
    /// picture's width. It takes no memory.
    #[inline(always)]
    pub fn place(&self, x: u32) -> (u32, u32)
        requires { x < self.now.width }
        ensures column { result.0 ≡ (row_spot self.now x).0 }
        ensures row { result.1 ≡ (row_spot self.now x).1 }
        ensures column_within { result.0 < 256 * self.now.surface.width }
        ensures row_within { result.1 < 256 * self.now.surface.height }
    {
        let (u, v) = self.ground(x);
        (
            on_ring(u, self.columns.part, 256 * u64::from(self.surface.width)) as u32,
            on_ring(v, self.rows.part, 256 * u64::from(self.surface.height)) as u32,
        )
    }

    // The column and the row of the ground that pixel x shows, whole turns further on, in 1/256 texel.
    #[inline(always)]
    fn ground(&self, x: u32) -> (u64, u64)
        requires { x < self.now.width }
        ensures column { result.0 / 256 % self.now.surface.width ≡ (row_place self.now x).0 }
        ensures row { result.1 / 256 % self.now.surface.height ≡ (row_place self.now x).1 }
        ensures column_spot { result.0 % (256 * self.now.surface.width) ≡ (row_spot self.now x).0 }
        ensures row_spot { result.1 % (256 * self.now.surface.height) ≡ (row_spot self.now x).1 }
        ensures column_high { result.0 < 549755813888 }
        ensures row_high { result.1 < 549755813888 }
    {
        let off = half_pixels(x, self.width);
        (
            place_before(self.columns.middle, self.columns.across, off),
            place_beyond(self.rows.middle, self.rows.across, off),
        )
    }
}

// How far off the ground of row y lies.
fn distance_of(camera: &Camera, focal: u32, y: u32) -> u64
    requires limits { IsCamera camera.now }
    requires focal { focal ≤ most_focal }
    ensures value { result ≡ distance focal camera.now y }
    ensures high { result ≤ most_height * most_focal }
{
    camera.h.unsigned_abs() * u64::from(focal) / (u64::from(y) + 1)
}

// How much ground a pixel of row y spans.
fn span_of(camera: &Camera, y: u32) -> u64
    requires { IsCamera camera.now }
    ensures value { result ≡ span camera.now y }
    ensures high { result ≤ most_height }
{
    camera.h.unsigned_abs() / (u64::from(y) + 1)
}

// The columns of a row of this distance, span and level, on a texture of this width.
fn columns_of(camera: &Camera, distance: u64, span: u64, side: u32, level: u32) -> Axis
    requires limits { IsCamera camera.now }
    requires distance { distance ≤ most_height * most_focal }
    requires span { span ≤ most_height }
    requires side_low { 1 ≤ side }
    requires side_high { side ≤ longest_side }
    requires level { level ≤ 16 }
    ensures { IsAxis side level (middle_of camera.now.u distance camera.now.c side *ℤ pos 32768 +ℤ pos 32767) (pos span *ℤ camera.now.s) result }
{
    // What is taken away from this middle is to be rounded down, so the difference is rounded up.
    let middle = finer(middle(camera.u, distance, camera.c, side)) + 32767;
    Axis::of(middle, scaled(span, camera.s), side, level)
}

// The rows of a row of this distance, span and level, on a texture of this height.
fn rows_of(camera: &Camera, distance: u64, span: u64, side: u32, level: u32) -> Axis
    requires limits { IsCamera camera.now }
    requires distance { distance ≤ most_height * most_focal }
    requires span { span ≤ most_height }
    requires side_low { 1 ≤ side }
    requires side_high { side ≤ longest_side }
    requires level { level ≤ 16 }
    ensures { IsAxis side level (middle_of camera.now.v distance camera.now.s side *ℤ pos 32768) (pos span *ℤ camera.now.c) result }
{
    let middle = finer(middle(camera.v, distance, camera.s, side));
    Axis::of(middle, scaled(span, camera.c), side, level)
}

// The greatest level up to the last whose texels are no wider than the span, or 0.
fn greatest_level(span: u64, last: u32) -> u32
    requires { span ≤ most_height }
    ensures value { result ≡ level_within span last }
    ensures within { result ≤ last }
    ensures few { result ≤ 16 }
{
    let texels = span / 256;
    if texels == 0 {
        0
    } else {
        texels.ilog2().min(last)
    }
}

// Where a row's middle lies on one axis, whole turns further on.
fn middle(place: i64, distance: u64, direction: i64, side: u32) -> i64
    requires place_low { neg_ℤ (pos most_place) ≤ℤ place }
    requires place_high { place ≤ℤ pos most_place }
    requires distance { distance ≤ most_height * most_focal }
    requires direction_low { neg_ℤ (pos most_direction) ≤ℤ direction }
    requires direction_high { direction ≤ℤ pos most_direction }
    requires side_low { 1 ≤ side }
    requires side_high { side ≤ longest_side }
    ensures value { result ≡ middle_of place distance direction side }
    ensures low { pos 137438953472 ≤ℤ result }
    ensures high { result ≤ℤ pos 412316860416 }
{
    place + far_off(distance, direction) + turns(side)
}

// How far off along one axis the ground of a row lies.
fn far_off(distance: u64, direction: i64) -> i64
    requires distance { distance ≤ most_height * most_focal }
    requires direction_low { neg_ℤ (pos most_direction) ≤ℤ direction }
    requires direction_high { direction ≤ℤ pos most_direction }
    ensures value { result ≡ floor_div (pos distance *ℤ direction) 16384 }
    ensures low { negsuc 68719476735 ≤ℤ result }
    ensures high { result ≤ℤ pos 68719476736 }
{
    (distance as i64 * direction) >> 14
}

// Whole turns round a ring of so many texels that outweigh each place of the ground.
fn turns(side: u32) -> i64
    requires side_low { 1 ≤ side }
    requires side_high { side ≤ longest_side }
    ensures value { result ≡ pos (whole_turns side) }
    ensures low { pos 274877906944 ≤ℤ result }
    ensures high { result ≤ℤ pos 274882101248 }
{
    ((1073741824 / u64::from(side) + 1) * (256 * u64::from(side))) as i64
}

// How far a row goes along one axis in two pixels.
fn scaled(span: u64, direction: i64) -> i64
    requires span { span ≤ most_height }
    requires direction_low { neg_ℤ (pos most_direction) ≤ℤ direction }
    requires direction_high { direction ≤ℤ pos most_direction }
    ensures value { result ≡ pos span *ℤ direction }
    ensures low { negsuc 274877906943 ≤ℤ result }
    ensures high { result ≤ℤ pos 274877906944 }
{
    span as i64 * direction
}

// How far the middle of a pixel lies to the right of the picture's middle, in half pixels.
fn half_pixels(x: u32, width: u32) -> i64
    requires within { x < width }
    requires width { width ≤ most_picture_side }
    ensures value { result ≡ off_middle width x }
    ensures low { negsuc 2046 ≤ℤ result }
    ensures high { result ≤ℤ pos 2047 }
{
    2 * i64::from(x) + 1 - i64::from(width)
}

// How far a pixel lies from the row's middle along one axis.
fn away(off: i64, across: i64) -> i64
    requires off_low { negsuc 2046 ≤ℤ off }
    requires off_high { off ≤ℤ pos 2047 }
    requires across_low { negsuc 274877906943 ≤ℤ across }
    requires across_high { across ≤ℤ pos 274877906944 }
    ensures value { result ≡ off *ℤ across }
    ensures low { negsuc 562675075514367 ≤ℤ result }
    ensures high { result ≤ℤ pos 562675075514368 }
{
    off * across
}

// The 1/256 texel of a pixel that lies before its row's middle by as much as it lies off it.
#[inline(always)]
fn place_before(middle: i64, across: i64, off: i64) -> u64
    requires middle_low { pos 4503599627370496 ≤ℤ middle }
    requires middle_high { middle ≤ℤ pos 13510798882144255 }
    requires across_low { negsuc 274877906943 ≤ℤ across }
    requires across_high { across ≤ℤ pos 274877906944 }
    requires off_low { negsuc 2046 ≤ℤ off }
    requires off_high { off ≤ℤ pos 2047 }
    ensures value { pos result ≡ floor_div (middle -ℤ off *ℤ across) 32768 }
    ensures positive { pos 0 ≤ℤ (middle -ℤ off *ℤ across) }
    ensures high { result < 549755813888 }
{
    whole_places(middle - away(off, across))
}

// And of one that lies beyond it.
#[inline(always)]
fn place_beyond(middle: i64, across: i64, off: i64) -> u64
    requires middle_low { pos 4503599627370496 ≤ℤ middle }
    requires middle_high { middle ≤ℤ pos 13510798882144255 }
    requires across_low { negsuc 274877906943 ≤ℤ across }
    requires across_high { across ≤ℤ pos 274877906944 }
    requires off_low { negsuc 2046 ≤ℤ off }
    requires off_high { off ≤ℤ pos 2047 }
    ensures value { pos result ≡ floor_div (middle +ℤ off *ℤ across) 32768 }
    ensures positive { pos 0 ≤ℤ (middle +ℤ off *ℤ across) }
    ensures high { result < 549755813888 }
{
    whole_places(middle + away(off, across))
}

// The 1/256 texel that a place in 1/2^23 texel falls on.
fn whole_places(place: i64) -> u64
    requires low { pos 0 ≤ℤ place }
    requires high { place <ℤ pos 18014398509481984 }
    ensures value { pos result ≡ floor_div place 32768 }
    ensures high { result < 549755813888 }
{
    place as u64 >> 15
}

// A place in 1/256 texel, in 1/2^23 texel.
fn finer(place: i64) -> i64
    requires low { pos 137438953472 ≤ℤ place }
    requires high { place ≤ℤ pos 412316860416 }
    ensures value { result ≡ place *ℤ pos 32768 }
    ensures low { pos 4503599627370496 ≤ℤ result }
    ensures high { result ≤ℤ pos 13510798882111488 }
{
    place * 32768
}

// How many of 2^64 parts of a turn 1/256 texel is, rounded up.
fn part_of(side: u32) -> u64
    requires side_low { 1 ≤ side }
    requires side_high { side ≤ longest_side }
    ensures { result ≡ part_of side }
{
    u64::MAX / (256 * u64::from(side)) + 1
}

// How many texels of a level a turn has, in 1/65536 texel.
fn turn_at(side: u32, level: u32) -> u64
    requires side { side ≤ longest_side }
    requires level { level ≤ 16 }
    ensures { result ≡ turn_at side level }
{
    u64::from(side) << (16 - level)
}

// Which of the equal pieces of a turn a place of 1/256 texel lies on.
#[inline(always)]
fn on_ring(place: u64, part: u64, pieces: u64) -> u64
    requires { pieces ≤ 1073741824 }
    ensures { result ≡ on_ring place part pieces }
{
    (u128::from(place.wrapping_mul(part)) * u128::from(pieces) >> 64) as u64
}
