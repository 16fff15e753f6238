//! Level 1 of textures that are read by strips of 128 rows.

use crate::fixtures::{TEXTURE, WIDE_TEXTURE, folder_of, holds, place, reader_in};
use std::alloc::Global;
use std::thread::Threads;
use vt_mip::halve_texture;
use vt_outside::{Fail, Folder, MemoryFolder, Place};
use vt_ppm::Image;

// The file of a texture of one column and 257 rows, of three strips, behind a header of 13 bytes. A texel is its row's number in
// each channel, and the last one is 0.
fn tall(alloc: Global) -> Option<Vec<u8>> {
    let mut bytes = vec![in alloc; 0u8; 784].ok()?;
    bytes[..13].copy_from_slice(b"P6 1 257 255\n");
    for y in 0..256usize {
        bytes[13 + 3 * y] = y as u8;
        bytes[14 + 3 * y] = y as u8;
        bytes[15 + 3 * y] = y as u8;
    }
    Some(bytes)
}

// Whether the texels of level 1 are those of two rows each: 2y and 2y+1 give 2y+1, and the last row stands alone.
fn is_half_of_tall(half: &Image) -> bool {
    let samples = half.samples();
    if half.width() != 1 || half.height() != 129 || samples.len() != 387 {
        return false;
    }
    for y in 0..128usize {
        let want = (2 * y + 1) as u8;
        if samples[3 * y] != want || samples[3 * y + 1] != want || samples[3 * y + 2] != want {
            return false;
        }
    }
    samples[384..] == [0, 0, 0]
}

// Level 1 of the texture that `a` holds.
fn halved<Rt: Threads + Sync>(rt: &Rt, alloc: Global, folder: &mut MemoryFolder) -> Option<Image> {
    let mut reader = reader_in(alloc, folder)?;
    let half = halve_texture(rt, alloc, &mut reader);
    folder.close(reader.into_file());
    half.ok()
}

// Whether a texture is halved to these samples, and was asked for these places and no others.
fn is_halved<Rt: Threads + Sync>(
    rt: &Rt,
    alloc: Global,
    texture: &[u8],
    samples: &[u8],
    places: &[Place],
) -> bool {
    let Some(mut folder) = folder_of(alloc, &[], texture) else {
        return false;
    };
    match halved(rt, alloc, &mut folder) {
        Some(half) => half.samples() == samples && folder.was_asked("a", places),
        None => false,
    }
}

#[test]
fn a_texture_of_one_strip_is_halved(rt: HostRuntime) {
    const NARROW: [u8; 18] = [
        6, 6, 6, 8, 8, 8, 9, 9, 9, 21, 21, 21, 23, 23, 23, 24, 24, 24,
    ];
    const WIDE: [u8; 36] = [
        0, 6, 0, 6, 0, 6, 0, 8, 0, 8, 0, 8, 0, 9, 0, 9, 0, 9, 0, 21, 0, 21, 0, 21, 0, 23, 0, 23, 0,
        23, 0, 24, 0, 24, 0, 24,
    ];
    let narrow_places = [place(0, 56), place(11, 45)];
    let wide_places = [place(0, 103), place(13, 90)];
    let alloc = rt.alloc();
    holds(
        &rt,
        is_halved(&rt, alloc, &TEXTURE, &NARROW, &narrow_places),
    );
    holds(
        &rt,
        is_halved(&rt, alloc, &WIDE_TEXTURE, &WIDE, &wide_places),
    );
}

// Whether the tall texture is halved, and each of its strips was read once.
fn is_tall_halved<Rt: Threads + Sync>(rt: &Rt, alloc: Global) -> bool {
    let Some(texture) = tall(alloc) else {
        return false;
    };
    let Some(mut folder) = folder_of(alloc, &[], texture.as_slice()) else {
        return false;
    };
    let places = [
        place(0, 784),
        place(13, 384),
        place(397, 384),
        place(781, 3),
    ];
    match halved(rt, alloc, &mut folder) {
        Some(half) => is_half_of_tall(&half) && folder.was_asked("a", &places),
        None => false,
    }
}

#[test]
fn strips_are_halved_in_order_and_read_once(rt: HostRuntime) {
    holds(&rt, is_tall_halved(&rt, rt.alloc()));
}

// Whether nothing is asked behind the second strip, whose read fails.
fn ends_at_the_second(rt: &(impl Threads + Sync), alloc: Global) -> bool {
    const CALLS: [Fail; 1] = [Fail::Read {
        opening: 0,
        read: 2,
    }];
    const SECOND: Place = Place {
        at: 397,
        len: 384,
        failed: true,
    };
    let Some(texture) = tall(alloc) else {
        return false;
    };
    let Some(mut folder) = folder_of(alloc, &CALLS, texture.as_slice()) else {
        return false;
    };
    halved(rt, alloc, &mut folder).is_none()
        && folder.was_asked("a", &[place(0, 784), place(13, 384), SECOND])
}

#[test]
fn no_strip_is_read_behind_one_whose_read_failed(rt: HostRuntime) {
    holds(&rt, ends_at_the_second(&rt, rt.alloc()));
}
