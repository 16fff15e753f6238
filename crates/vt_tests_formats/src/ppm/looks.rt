//! Looks at textures, each in a folder of its own.

use super::readers::{Reader, Strip, gives, header_in, image_in, refusal_in};
use crate::fixtures::folder_of;
use std::alloc::Global;
use std::thread::Threads;
use vt_outside::{Fail, MemoryFolder};
use vt_ppm::{Image, PpmError};

/// What is to be found in a texture.
#[derive(Clone, Copy)]
pub enum Look<'a> {
    /// This refusal of a reader, or none.
    Refusal(Reader, Option<PpmError>),
    /// An image of so many columns and rows and of this depth, whose first texels have these words.
    Image((u32, u32, u32), &'a [u64]),
    /// An image of these samples.
    Samples(&'a [u8]),
    /// A header of this width, behind which the raster begins there.
    Header(u32, u64),
    /// A texture of this depth that gives a strip and then another.
    Strips(u32, Strip<'a>, Strip<'a>),
}

// Whether the first texels of an image have these words.
fn has_words(image: &Image, words: &[u64]) -> bool {
    if words.len() > image.width() as usize || image.height() < 1 {
        return false;
    }
    for x in 0..words.len() {
        if image.word(x as u32, 0) != words[x] {
            return false;
        }
    }
    true
}

// Whether `t` holds an image of so many columns and rows and of this depth, whose first texels have these words.
fn is_image<Rt: Threads + Sync>(
    rt: &Rt,
    alloc: Global,
    folder: &mut MemoryFolder,
    size: (u32, u32, u32),
    words: &[u64],
) -> bool {
    match image_in(rt, alloc, folder) {
        Ok(image) => {
            (image.width(), image.height(), image.depth()) == size && has_words(&image, words)
        }
        Err(_) => false,
    }
}

// Whether `t` holds an image of these samples.
fn has_samples<Rt: Threads + Sync>(
    rt: &Rt,
    alloc: Global,
    folder: &mut MemoryFolder,
    samples: &[u8],
) -> bool {
    match image_in(rt, alloc, folder) {
        Ok(image) => {
            let are_same = image.samples() == samples;
            image.into_samples().len() == samples.len() && are_same
        }
        Err(_) => false,
    }
}

// Whether `t` has a header of this width, behind which the raster begins there.
fn is_header(alloc: Global, folder: &mut MemoryFolder, width: u32, raster: u64) -> bool {
    match header_in(alloc, folder) {
        Ok(header) => header.width == width && header.raster == raster,
        Err(_) => false,
    }
}

// Whether this is found in `t`.
fn is_found<Rt: Threads + Sync>(
    rt: &Rt,
    alloc: Global,
    folder: &mut MemoryFolder,
    look: Look,
) -> bool {
    match look {
        Look::Refusal(reader, refusal) => refusal_in(rt, alloc, folder, reader) == refusal,
        Look::Image(size, words) => is_image(rt, alloc, folder, size, words),
        Look::Samples(samples) => has_samples(rt, alloc, folder, samples),
        Look::Header(width, raster) => is_header(alloc, folder, width, raster),
        Look::Strips(depth, first, second) => gives(alloc, folder, depth, first, second),
    }
}

// Whether this is the place that `t` was asked for, a start and a length, in a read that did not fail.
fn is_asked(folder: &MemoryFolder, i: usize, place: (u64, u64)) -> bool {
    match folder.asked("t", i) {
        Some(asked) => asked.at == place.0 && asked.len == place.1 && !asked.failed,
        None => false,
    }
}

// Whether these are the places that `t` was asked for.
fn are_asked(folder: &MemoryFolder, places: &[(u64, u64)]) -> bool {
    for i in 0..places.len() {
        if !is_asked(folder, i, places[i]) {
            return false;
        }
    }
    folder.asked("t", places.len()).is_none()
}

// Whether this is found in `t`, and where places are known, no others are asked for.
fn is_found_in<Rt: Threads + Sync>(
    rt: &Rt,
    alloc: Global,
    folder: &mut MemoryFolder,
    look: Look,
    places: Option<&[(u64, u64)]>,
) -> bool {
    let is_found = is_found(rt, alloc, folder, look);
    match places {
        Some(places) => is_found && are_asked(folder, places),
        None => is_found,
    }
}

/// Whether this is found in these bytes where these calls fail, and where places are known, as their starts and lengths, no others are read.
pub fn finds<Rt: Threads + Sync>(
    rt: &Rt,
    alloc: Global,
    bytes: &[u8],
    calls: &[Fail],
    look: Look,
    places: Option<&[(u64, u64)]>,
) -> bool {
    match folder_of(alloc, "t", bytes, calls) {
        Ok(mut folder) => is_found_in(rt, alloc, &mut folder, look, places),
        Err(_) => false,
    }
}

/// Whether this is found in these bytes.
pub fn sees<Rt: Threads + Sync>(rt: &Rt, alloc: Global, bytes: &[u8], look: Look) -> bool {
    finds(rt, alloc, bytes, &[], look, None)
}

/// Whether this is found in these bytes, and these are the starts and the lengths of all that is read for it.
pub fn reads<Rt: Threads + Sync>(
    rt: &Rt,
    alloc: Global,
    bytes: &[u8],
    look: Look,
    places: &[(u64, u64)],
) -> bool {
    finds(rt, alloc, bytes, &[], look, Some(places))
}

/// Whether a reader refuses these bytes so, or does not.
pub fn refuses<Rt: Threads + Sync>(
    rt: &Rt,
    alloc: Global,
    bytes: &[u8],
    reader: Reader,
    refusal: Option<PpmError>,
) -> bool {
    sees(rt, alloc, bytes, Look::Refusal(reader, refusal))
}

/// The first of these bytes that a reader refuses otherwise.
pub fn misrefused<Rt: Threads + Sync>(
    rt: &Rt,
    alloc: Global,
    rows: &[(&[u8], Reader, Option<PpmError>)],
) -> Option<usize> {
    for i in 0..rows.len() {
        let (bytes, reader, refusal) = rows[i];
        if !refuses(rt, alloc, bytes, reader, refusal) {
            return Some(i);
        }
    }
    None
}

/// The first of these failing calls of which a reader tells otherwise.
pub fn mistold<Rt: Threads + Sync>(
    rt: &Rt,
    alloc: Global,
    bytes: &[u8],
    rows: &[(Fail, Reader, Option<PpmError>)],
) -> Option<usize> {
    for i in 0..rows.len() {
        let (call, reader, refusal) = rows[i];
        if !finds(
            rt,
            alloc,
            bytes,
            &[call],
            Look::Refusal(reader, refusal),
            None,
        ) {
            return Some(i);
        }
    }
    None
}

/// The first of these images that has other columns, rows or samples of another size, or first texels of other words.
pub fn misseen<Rt: Threads + Sync>(
    rt: &Rt,
    alloc: Global,
    rows: &[(&[u8], (u32, u32, u32), &[u64])],
) -> Option<usize> {
    for i in 0..rows.len() {
        let (bytes, size, words) = rows[i];
        if !sees(rt, alloc, bytes, Look::Image(size, words)) {
            return Some(i);
        }
    }
    None
}
