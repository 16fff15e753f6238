//! The four texels about the place of a pixel, and what they weigh.

ghost use Rattle.std.specs.Prelude.{◌≡◌, ◌/◌, ◌<◌};
ghost use Rattle.vt_definitions.specs.Limits.{most_levels};
ghost use Rattle.vt_definitions.specs.Sides.{side};
ghost use Rattle.vt_camera.specs.Rows.{row_level};
ghost use Rattle.vt_blend.specs.Corners.{after, corners_at, corners_of, weights_of, AreInside, AreWhole};

use vt_camera::Row;

/// The columns and rows of the four texels about a place of a level, and where the place lies in the first of them.
#[derive(Clone, Copy)]
pub struct Corners {
    /// The column and the row that the place lies in.
    pub column: u32,
    pub line: u32,
    /// The ones after them.
    pub next_column: u32,
    pub next_line: u32,
    /// How far the place lies in that column and that row, in 1/256 texel.
    pub across: u32,
    pub down: u32,
}

/// What the texels weigh in a blend, in 1/65536: those in the first and in the second column of the first row, and those of the second.
#[derive(Clone, Copy)]
pub struct Weights {
    pub first: u32,
    pub second: u32,
    pub third: u32,
    pub fourth: u32,
}

// The column or row after one, which is the first where there is no further.
#[inline(always)]
fn after(many: u32, n: u32) -> u32
    requires { n < many }
    ensures value { result ≡ after many n }
    ensures inside { result < many }
{
    if n + 1 == many { 0 } else { n + 1 }
}

/// The corners of a place of a level with so many columns and rows, in 1/256 texel of the level.
#[inline(always)]
pub fn corners_at(columns: u32, rows: u32, a: u32, b: u32) -> Corners
    requires column { a / 256 < columns }
    requires line { b / 256 < rows }
    ensures value { result ≡ corners_at columns rows a b }
    ensures inside { AreInside columns rows result }
{
    Corners {
        column: a / 256,
        line: b / 256,
        next_column: after(columns, a / 256),
        next_line: after(rows, b / 256),
        across: a % 256,
        down: b % 256,
    }
}

/// The corners of pixel x of a row of this level, which has so many columns and rows.
#[inline(always)]
pub fn corners_of(row: &Row, level: u32, columns: u32, rows: u32, x: u32) -> Corners
    requires within { x < row.now.width }
    requires level { level ≡ row_level row.now }
    requires few { level < most_levels }
    requires columns { columns ≡ side row.now.surface.width level }
    requires rows { rows ≡ side row.now.surface.height level }
    ensures value { result ≡ corners_of row.now x }
    ensures inside { AreInside columns rows result }
{
    let (u, v) = row.place(x);
    corners_at(columns, rows, u >> level, v >> level)
}

/// What the texels at some corners weigh.
#[inline(always)]
pub fn weights_of(at: &Corners) -> Weights
    requires across { at.now.across < 256 }
    requires down { at.now.down < 256 }
    ensures value { result ≡ weights_of at.now }
    ensures whole { AreWhole result }
{
    let (left, up) = (256 - at.across, 256 - at.down);
    Weights {
        first: left * up,
        second: at.across * up,
        third: left * at.down,
        fourth: at.across * at.down,
    }
}
