//! The passes over a raster by several threads, each of which takes samples of its own.
ghost use Rattle.std.specs.Prelude.{◌≡◌, ◌*◌, ◌≤◌, length, MatchOption, IfNone, IfSome};
ghost use Rattle.std.specs.Thread.{IsSync};
ghost use Rattle.vt_definitions.specs.Depths.{AreBytes, texel_length};
ghost use Rattle.vt_definitions.specs.Limits.{header_limit, most_read_side};
ghost use Rattle.vt_ppm.specs.Flaws.{AreImageSides};
ghost use Rattle.vt_ppm.specs.Format.{IsMaximum, AreUpTo, depth_of};
ghost use Rattle.vt_ppm.specs.Samples.{AreScaledUpTo, IsFirstOver, IsOverAt};

use crate::Header;
use crate::header::{depth_of, sample_count};
use crate::raster::{first_over, scale};
use std::thread::{Threads, join, join_mut};
use vt_definitions::greatest_sample;
use vt_threads::{SAMPLE_TIME, processors, share, threads_for};

/// How many threads are to pass over the raster behind a header: one where nobody passes over it, as where the maximum is the greatest sample.
pub fn passing_threads<Rt: Threads>(rt: &Rt, header: &Header) -> usize
    requires { AreImageSides most_read_side header.now.width header.now.height }
    ensures { 1 ≤ result }
{
    if header.maximum >= greatest_sample(depth_of(header.maximum)) {
        return 1;
    }
    threads_for(processors(rt), SAMPLE_TIME * sample_count(header) as u64)
}

/// The byte of the file at which the first sample above the maximum begins, looked for by so many threads.
pub fn over_at_in_parts<Rt: Threads + Sync>(
    rt: &Rt,
    threads: usize,
    header: &Header,
    raster: &[u8],
) -> Option<u64>
    requires sides { AreImageSides most_read_side header.now.width header.now.height }
    requires early { header.now.raster ≤ header_limit }
    requires full { length raster.now ≡ texel_length (depth_of header.now.maximum) * (header.now.width * header.now.height) }
    ensures none { IfNone result (AreUpTo (depth_of header.now.maximum) header.now.maximum (3 * (header.now.width * header.now.height)) raster.now) }
    ensures some { IfSome result (IsOverAt header.now.raster header.now.maximum (3 * (header.now.width * header.now.height)) raster.now) }
{
    let number = first_over_in_parts(rt, threads, raster, sample_count(header), header.maximum)?;
    Some(header.raster + depth_of(header.maximum) as u64 * number as u64)
}

// The number of the first of so many samples that is above the maximum, looked for by so many threads.
fn first_over_in_parts<Rt: Threads + Sync>(
    rt: &Rt,
    threads: usize,
    raster: &[u8],
    count: usize,
    maximum: u32,
) -> Option<usize>
    requires full { length raster.now ≡ depth_of maximum * count }
    ensures { MatchOption result (AreUpTo (depth_of maximum) maximum count raster.now) (IsFirstOver (depth_of maximum) maximum count raster.now) }
{
    if threads < 2 {
        return first_over(raster, count, maximum);
    }
    let few = threads / 2;
    let many = threads - few;
    let low = share(count, threads, few);
    let high = count - low;
    let (front, back) = raster.split_at(depth_of(maximum) as usize * low);
    let (early, late) = join(
        rt,
        || -> Option<usize>
            requires { IsSync Rt.row × (length front.now ≡ depth_of maximum * low) }
            ensures { MatchOption result (AreUpTo (depth_of maximum) maximum low front.entry.now) (IsFirstOver (depth_of maximum) maximum low front.entry.now) }
        { first_over_in_parts(rt, few, front, low, maximum) },
        || -> Option<usize>
            requires { IsSync Rt.row × (length back.now ≡ depth_of maximum * high) }
            ensures { MatchOption result (AreUpTo (depth_of maximum) maximum high back.entry.now) (IsFirstOver (depth_of maximum) maximum high back.entry.now) }
        { first_over_in_parts(rt, many, back, high, maximum) },
    );
    match early {
        Some(number) => Some(number),
        None => match late {
            Some(number) => Some(low + number),
            None => None,
        },
    }
}

/// Scales so many samples as `scale` does, by so many threads.
pub fn scale_in_parts<Rt: Threads + Sync>(
    rt: &Rt,
    threads: usize,
    raster: &mut [u8],
    count: usize,
    maximum: u32,
)
    requires full { length raster.old ≡ depth_of maximum * count }
    requires maximum { IsMaximum maximum }
    ensures scaled { AreScaledUpTo (depth_of maximum) maximum count raster.old raster.new }
    ensures bytes { AreBytes raster.new }
{
    if threads < 2 {
        scale(raster, count, maximum);
        return;
    }
    let few = threads / 2;
    let many = threads - few;
    let low = share(count, threads, few);
    let high = count - low;
    let (front, back) = raster.split_at_mut(depth_of(maximum) as usize * low);
    join_mut(
        rt,
        &mut || -> ()
            requires { IsSync Rt.row × IsMaximum maximum × (length front.now ≡ depth_of maximum * low) }
            ensures { AreScaledUpTo (depth_of maximum) maximum low front.entry.now front.exit.now }
        { scale_in_parts(rt, few, front, low, maximum) },
        &mut || -> ()
            requires { IsSync Rt.row × IsMaximum maximum × (length back.now ≡ depth_of maximum * high) }
            ensures { AreScaledUpTo (depth_of maximum) maximum high back.entry.now back.exit.now }
        { scale_in_parts(rt, many, back, high, maximum) },
    );
}
