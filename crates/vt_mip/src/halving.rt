//! The halving of rasters, whose samples have one byte or two.

ghost use Rattle.std.specs.Prelude.{◌≡◌, ◌+◌, ◌*◌, ◌/◌, ◌<◌, ◌≤◌, length, IfOk, OnOk};
ghost use Rattle.std.specs.Thread.{IsSync};
ghost use Rattle.vt_ppm.specs.Depths.{IsDepth, AreBytes, texel_length};
ghost use Rattle.vt_ppm.specs.Limits.{most_tiled_side};
ghost use Rattle.vt_ppm.specs.Image.{IsLawfulImage};
ghost use Rattle.vt_mip.specs.Halves.{AreHalfSizes, IsHalvedRaster, IsHalf};

use std::alloc::Global;
use std::thread::{Threads, join_mut};
use vt_box_filter::halve_rows;
use vt_ppm::{HALVING_TIME, Image, NoMemory, samples_are_bytes, share, texel_length, threads_for};

// Halves a raster whose samples have so many bytes, row by row: an odd last row counts twice.
fn halve_raster(depth: u32, width: usize, height: usize, source: &[u8], out: &mut [u8])
    requires depth { IsDepth depth }
    requires some_columns { 1 ≤ width }
    requires few_columns { width ≤ most_tiled_side }
    requires some_rows { 1 ≤ height }
    requires few_rows { height ≤ most_tiled_side }
    requires source { length source.now ≡ texel_length depth * (width * height) }
    requires out { length out.old ≡ texel_length depth * ((width + 1) / 2 * ((height + 1) / 2)) }
    ensures { IsHalvedRaster depth source.now width height ((height + 1) / 2) out.new }
{
    let row = texel_length(depth) * width;
    let half_row = texel_length(depth) * ((width + 1) / 2);
    for y in 0..(height + 1) / 2 {
        let top = row * (2 * y);
        let bottom = row * (2 * y + 1).min(height - 1);
        let to = half_row * y;
        halve_rows(
            depth,
            width,
            &source[top..top + row],
            &source[bottom..bottom + row],
            &mut out[to..to + half_row],
        );
    }
}

// How many rows of a raster's half go to one half of the threads: none where one thread makes them all.
fn low_rows(height: usize, threads: usize) -> usize
    requires { 1 ≤ height }
    ensures { 2 * result < height }
{
    if threads < 2 {
        return 0;
    }
    share((height - 1) / 2, threads, threads / 2)
}

// Halves a raster as `halve_raster` does, in so many threads, each of which makes rows of its own.
#[cycle(parts)]
fn halve_in_parts<Rt: Threads + Sync>(
    rt: &Rt,
    threads: usize,
    depth: u32,
    width: usize,
    height: usize,
    source: &[u8],
    out: &mut [u8],
)
    requires { AreHalfSizes depth width height (length source.now) (length out.old) }
    ensures { IsHalvedRaster depth source.now width height ((height + 1) / 2) out.new }
{
    let low = low_rows(height, threads);
    if low == 0 {
        halve_raster(depth, width, height, source, out);
        return;
    }
    let top = 2 * low;
    let (upper, lower) = source.split_at(texel_length(depth) * (width * top));
    let (front, back) = out.split_at_mut(texel_length(depth) * ((width + 1) / 2 * low));
    let few = threads / 2;
    halve_both(
        rt,
        few,
        threads - few,
        depth,
        width,
        top,
        upper,
        front,
        height - top,
        lower,
        back,
    );
}

// Halves the two parts of a raster at once, the upper one in `few` threads and the lower one in `many`. A function of its own, so that what the
// closures ask is what it is given.
#[cycle(parts)]
fn halve_both<Rt: Threads + Sync>(
    rt: &Rt,
    few: usize,
    many: usize,
    depth: u32,
    width: usize,
    top: usize,
    upper: &[u8],
    front: &mut [u8],
    rest: usize,
    lower: &[u8],
    back: &mut [u8],
)
    requires front { AreHalfSizes depth width top (length upper.now) (length front.old) }
    requires back { AreHalfSizes depth width rest (length lower.now) (length back.old) }
    ensures front { IsHalvedRaster depth upper.now width top ((top + 1) / 2) front.new }
    ensures back { IsHalvedRaster depth lower.now width rest ((rest + 1) / 2) back.new }
{
    let mut above = ||
        requires { IsSync Rt.row × AreHalfSizes depth width top (length upper.now) (length front.now) }
        ensures { IsHalvedRaster depth upper.entry.now width top ((top + 1) / 2) front.exit.now }
    { halve_in_parts(rt, few, depth, width, top, upper, front) };
    let mut below = ||
        requires { IsSync Rt.row × AreHalfSizes depth width rest (length lower.now) (length back.now) }
        ensures { IsHalvedRaster depth lower.entry.now width rest ((rest + 1) / 2) back.exit.now }
    { halve_in_parts(rt, many, depth, width, rest, lower, back) };
    join_mut(rt, &mut above, &mut below);
}

/// Halves a raster whose samples have so many bytes, in so many threads: an odd last row counts twice.
pub(crate) fn halve_in_threads<Rt: Threads + Sync>(
    rt: &Rt,
    threads: usize,
    depth: u32,
    width: usize,
    height: usize,
    source: &[u8],
    out: &mut [u8],
)
    requires depth { IsDepth depth }
    requires some_columns { 1 ≤ width }
    requires few_columns { width ≤ most_tiled_side }
    requires some_rows { 1 ≤ height }
    requires few_rows { height ≤ most_tiled_side }
    requires source { length source.now ≡ texel_length depth * (width * height) }
    requires out { length out.old ≡ texel_length depth * ((width + 1) / 2 * ((height + 1) / 2)) }
    ensures { IsHalvedRaster depth source.now width height ((height + 1) / 2) out.new }
{
    halve_in_parts(rt, threads, depth, width, height, source, out);
}

/// Halves an image, each channel by itself, in as many threads as it is worth where there are so many processors.
pub(crate) fn halved_image<Rt: Threads + Sync>(
    rt: &Rt,
    processors: usize,
    alloc: Global,
    image: &Image,
) -> Result<Image, NoMemory>
    ensures half { IfOk result (λ half. IsHalf image.now half) }
    ensures lawful { IfOk result (λ half. IsLawfulImage half) }
    ensures bytes { OnOk result (AreBytes image.now.samples) }
{
    let depth = image.depth();
    let width = image.width() as usize;
    let height = image.height() as usize;
    let half_width = (width + 1) / 2;
    let half_height = (height + 1) / 2;
    let size = texel_length(depth) * (half_width * half_height);
    let mut samples = vec![in alloc; 0u8; size]?;
    samples_are_bytes(image);
    let threads = threads_for(
        processors,
        HALVING_TIME * (half_width as u64 * half_height as u64),
    );
    halve_in_parts(
        rt,
        threads,
        depth,
        width,
        height,
        image.samples(),
        &mut samples,
    );
    Ok(Image::new(depth, half_width as u32, half_height as u32, samples))
}
