//! The passes over a raster. One whose maximum is the greatest sample of its depth is not passed over.
ghost use Rattle.std.specs.Prelude.{◌≡◌, ◌*◌, ◌<◌, ◌≤◌, length, MatchOption, IfNone, IfSome};
ghost use Rattle.vt_definitions.specs.Depths.{IsDepth, AreBytes, greatest_sample, sample_base, texel_length};
ghost use Rattle.vt_definitions.specs.Limits.{header_limit, most_read_side};
ghost use Rattle.vt_ppm.specs.Flaws.{AreImageSides};
ghost use Rattle.vt_ppm.specs.Format.{IsMaximum, AreUpTo, depth_of, scaled};
ghost use Rattle.vt_ppm.specs.Samples.{AreScaledUpTo, IsFirstOver, IsOverAt, IsRasterImage, IsScale};

use crate::header::{depth_of, sample_count};
use crate::parts::scale_in_parts;
use crate::{Header, Image};
use std::thread::Threads;
use vt_definitions::{greatest_sample, put_sample, sample_at};

/// The byte of the file at which the first sample above the maximum begins.
pub fn over_at(header: &Header, raster: &[u8]) -> Option<u64>
    requires sides { AreImageSides most_read_side header.now.width header.now.height }
    requires early { header.now.raster ≤ header_limit }
    requires full { length raster.now ≡ texel_length (depth_of header.now.maximum) * (header.now.width * header.now.height) }
    ensures none { IfNone result (AreUpTo (depth_of header.now.maximum) header.now.maximum (3 * (header.now.width * header.now.height)) raster.now) }
    ensures some { IfSome result (IsOverAt header.now.raster header.now.maximum (3 * (header.now.width * header.now.height)) raster.now) }
{
    let number = first_over(raster, sample_count(header), header.maximum)?;
    Some(header.raster + depth_of(header.maximum) as u64 * number as u64)
}

/// The image of a raster of which no sample is above the maximum, made by so many threads.
pub fn image_of<Rt: Threads + Sync>(
    rt: &Rt,
    threads: usize,
    header: &Header,
    mut raster: Vec<u8>,
) -> Image
    requires sides { AreImageSides most_read_side header.now.width header.now.height }
    requires maximum { IsMaximum header.now.maximum }
    requires full { length raster.items ≡ texel_length (depth_of header.now.maximum) * (header.now.width * header.now.height) }
    requires few { AreUpTo (depth_of header.now.maximum) header.now.maximum (3 * (header.now.width * header.now.height)) raster.items }
    ensures { IsRasterImage header.now.width header.now.height header.now.maximum raster.items result }
{
    scale_in_parts(
        rt,
        threads,
        raster.as_mut_slice(),
        sample_count(header),
        header.maximum,
    );
    Image::new(
        depth_of(header.maximum),
        header.width,
        header.height,
        raster,
    )
}

/// The number of the first of so many samples that is above the maximum.
pub fn first_over(raster: &[u8], count: usize, maximum: u32) -> Option<usize>
    requires full { length raster.now ≡ depth_of maximum * count }
    ensures { MatchOption result (AreUpTo (depth_of maximum) maximum count raster.now) (IsFirstOver (depth_of maximum) maximum count raster.now) }
{
    if depth_of(maximum) == 1 {
        first_above::<1>(raster, count, maximum)
    } else {
        first_above::<2>(raster, count, maximum)
    }
}

// The number of the first of so many samples of DEPTH bytes that is above the maximum.
fn first_above<const DEPTH: u32>(raster: &[u8], count: usize, maximum: u32) -> Option<usize>
    requires depth { IsDepth DEPTH }
    requires full { length raster.now ≡ DEPTH * count }
    ensures { MatchOption result (AreUpTo DEPTH maximum count raster.now) (IsFirstOver DEPTH maximum count raster.now) }
{
    if maximum >= greatest_sample(DEPTH) {
        return None;
    }
    for i in 0..count {
        if u32::from(sample_at::<DEPTH>(raster, i)) > maximum {
            return Some(i);
        }
    }
    None
}

/// Scales so many samples so that the greatest is that of their depth. One above the maximum, as a file that changed may
/// give, becomes any sample.
pub fn scale(raster: &mut [u8], count: usize, maximum: u32)
    requires full { length raster.old ≡ depth_of maximum * count }
    requires maximum { IsMaximum maximum }
    ensures scaled { AreScaledUpTo (depth_of maximum) maximum count raster.old raster.new }
    ensures bytes { AreBytes raster.new }
{
    if depth_of(maximum) == 1 {
        scale_samples::<1>(raster, count, maximum);
    } else {
        scale_samples::<2>(raster, count, maximum);
    }
}

// Scales so many samples of DEPTH bytes.
fn scale_samples<const DEPTH: u32>(raster: &mut [u8], count: usize, maximum: u32)
    requires depth { IsDepth DEPTH }
    requires full { length raster.old ≡ DEPTH * count }
    requires some { 1 ≤ maximum }
    requires lawful { maximum ≤ greatest_sample DEPTH }
    ensures { AreScaledUpTo DEPTH maximum count raster.old raster.new }
{
    if maximum == greatest_sample(DEPTH) {
        return;
    }
    let table = table_of::<DEPTH>(maximum);
    for i in 0..count {
        let sample = u32::from(sample_at::<DEPTH>(raster, i));
        let kept = kept_by::<DEPTH>(&table, sample, maximum);
        put_sample::<DEPTH>(raster, i, kept);
    }
}

// Each sample of one byte up to the maximum as it is kept; no table serves samples of two.
fn table_of<const DEPTH: u32>(maximum: u32) -> [u8; 256]
    requires depth { IsDepth DEPTH }
    requires some { 1 ≤ maximum }
    requires lawful { maximum ≤ greatest_sample DEPTH }
    ensures { DEPTH ≡ 1 → IsScale result maximum }
{
    let mut table = [0u8; 256];
    if DEPTH == 1 {
        for sample in 0..maximum + 1 {
            table[sample as usize] = kept::<1>(sample, maximum) as u8;
        }
    }
    table
}

// A sample as it is kept: looked up where it has one byte, since a division takes longer. One above the maximum becomes
// any sample.
#[inline]
fn kept_by<const DEPTH: u32>(table: &[u8; 256], sample: u32, maximum: u32) -> u16
    requires depth { IsDepth DEPTH }
    requires table { DEPTH ≡ 1 → IsScale table.now maximum }
    requires some { 1 ≤ maximum }
    requires lawful { maximum ≤ greatest_sample DEPTH }
    requires few { sample < sample_base DEPTH }
    ensures value { sample ≤ maximum → result ≡ scaled DEPTH maximum sample }
    ensures few { result < sample_base DEPTH }
{
    if DEPTH == 1 {
        u16::from(table[sample as usize])
    } else {
        kept::<DEPTH>(sample.min(maximum), maximum)
    }
}

// A sample as it is kept.
#[inline]
fn kept<const DEPTH: u32>(sample: u32, maximum: u32) -> u16
    requires depth { IsDepth DEPTH }
    requires some { 1 ≤ maximum }
    requires lawful { maximum ≤ greatest_sample DEPTH }
    requires few { sample ≤ maximum }
    ensures value { result ≡ scaled DEPTH maximum sample }
    ensures few { result < sample_base DEPTH }
{
    ((sample * greatest_sample(DEPTH) + maximum / 2) / maximum) as u16
}
