//! The rows of a picture, drawn by several threads side by side.

ghost use Rattle.std.specs.Prelude.{◌≡◌, ℕ, ◌*◌, ◌<◌, ◌≤◌, List, ◌++◌, length};
ghost use Rattle.std.specs.List.{flat_map, range_with_len};
ghost use Rattle.std.specs.Thread.{IsSync};
ghost use Rattle.vt_plain.specs.Parts.{IsRoomFor, rows_until};

use std::thread::{Threads, join_mut};
use vt_threads::share;

/// The rows of a picture, each of which is drawn by itself.
pub trait Rows {
    /// Whether a row can be drawn into so many bytes.
    ghost fits: { Self → ℕ → ℕ → Type 0 };

    /// The bytes of a row.
    ghost bytes: { Self → ℕ → List ℕ };

    /// Writes the bytes of a row.
    fn draw_row(&self, y: u32, out: &mut [u8])
        requires { fits self.now y (length out.old) }
        ensures { out.new ≡ bytes self.now y };
}

/// Draws the rows of a picture from the top, each into so many bytes, in so many threads, each of which draws rows of its own.
pub fn draw_in_threads<Rt: Threads + Sync, R: Rows + Sync>(
    rt: &Rt,
    threads: usize,
    rows: &R,
    height: u32,
    size: usize,
    out: &mut [u8],
)
    requires rows { (y : ℕ) → y < height → R.fits rows.now y size }
    requires room { length out.old ≡ size * height }
    ensures { out.new ≡ flat_map (R.bytes rows.now) (range_with_len 0 height) }
{
    draw_in_parts::<Rt, R>(rt, threads, rows, size, 0, height, out);
}

// Draws the rows from one on to another, in so many threads.
#[cycle(parts)]
fn draw_in_parts<Rt: Threads + Sync, R: Rows + Sync>(
    rt: &Rt,
    threads: usize,
    rows: &R,
    size: usize,
    first: u32,
    end: u32,
    out: &mut [u8],
)
    requires { IsRoomFor (R.fits rows.now) size first end (length out.old) }
    ensures { rows_until (R.bytes rows.now) first ++ out.new ≡ rows_until (R.bytes rows.now) end }
{
    if threads < 2 {
        draw_rows::<R>(rows, size, first, end, out);
        return;
    }
    let few = threads / 2;
    let middle = first + share((end - first) as usize, threads, few) as u32;
    let (front, back) = out.split_at_mut(size * (middle - first) as usize);
    draw_both::<Rt, R>(
        rt,
        few,
        threads - few,
        rows,
        size,
        first,
        middle,
        end,
        front,
        back,
    );
}

// Draws the rows above the middle one, in `few` threads, and at once the others, in `many`. A function of its own, so that what the
// closures ask is what it is given.
#[cycle(parts)]
fn draw_both<Rt: Threads + Sync, R: Rows + Sync>(
    rt: &Rt,
    few: usize,
    many: usize,
    rows: &R,
    size: usize,
    first: u32,
    middle: u32,
    end: u32,
    front: &mut [u8],
    back: &mut [u8],
)
    requires some { (1 ≤ few) × (1 ≤ many) }
    requires front { IsRoomFor (R.fits rows.now) size first middle (length front.old) }
    requires back { IsRoomFor (R.fits rows.now) size middle end (length back.old) }
    ensures front { rows_until (R.bytes rows.now) first ++ front.new ≡ rows_until (R.bytes rows.now) middle }
    ensures back { rows_until (R.bytes rows.now) middle ++ back.new ≡ rows_until (R.bytes rows.now) end }
{
    let mut above = ||
        requires { IsSync Rt.row × IsSync R.row × IsRoomFor (R.fits rows.now) size first middle (length front.now) }
        ensures { rows_until (R.bytes rows.entry.now) first ++ front.exit.now ≡ rows_until (R.bytes rows.entry.now) middle }
    { draw_in_parts::<Rt, R>(rt, few, rows, size, first, middle, front) };
    let mut below = ||
        requires { IsSync Rt.row × IsSync R.row × IsRoomFor (R.fits rows.now) size middle end (length back.now) }
        ensures { rows_until (R.bytes rows.entry.now) middle ++ back.exit.now ≡ rows_until (R.bytes rows.entry.now) end }
    { draw_in_parts::<Rt, R>(rt, many, rows, size, middle, end, back) };
    join_mut(rt, &mut above, &mut below);
}

// Draws the rows from one on to another.
fn draw_rows<R: Rows>(rows: &R, size: usize, first: u32, end: u32, out: &mut [u8])
    requires { IsRoomFor (R.fits rows.now) size first end (length out.old) }
    ensures { rows_until (R.bytes rows.now) first ++ out.new ≡ rows_until (R.bytes rows.now) end }
{
    for y in first..end {
        let at = size * (y - first) as usize;
        rows.draw_row(y, &mut out[at..at + size]);
    }
}
