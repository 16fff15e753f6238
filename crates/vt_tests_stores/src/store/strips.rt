//! Stores of textures that are read by strips.

use super::has_failed;
use super::making::FIVE_BY_THREE_STORE;
use crate::fixtures::{TEXTURE, WIDE_TEXTURE, folder_of, holds, place, reader_in};
use std::alloc::Global;
use std::thread::Threads;
use vt_mip::StripChain;
use vt_outside::{Fail, Folder, MemoryFolder, Place};
use vt_pages::Geometry;
use vt_store::write_strips;
use vt_tiles::StoreError;

// The store of the texture of five columns and three rows in samples of two bytes.
const WIDE_STORE: [u8; 232] = [
    86, 84, 83, 50, 0, 0, 0, 5, 0, 0, 0, 3, 0, 0, 0, 2, 0, 0, 0, 0, 0, 0, 0, 1, 0, 1, 0, 1, 0, 10,
    0, 10, 0, 10, 0, 11, 0, 11, 0, 11, 0, 2, 0, 2, 0, 2, 0, 3, 0, 3, 0, 3, 0, 12, 0, 12, 0, 12, 0,
    13, 0, 13, 0, 13, 0, 4, 0, 4, 0, 4, 0, 4, 0, 4, 0, 4, 0, 14, 0, 14, 0, 14, 0, 14, 0, 14, 0, 14,
    0, 20, 0, 20, 0, 20, 0, 21, 0, 21, 0, 21, 0, 20, 0, 20, 0, 20, 0, 21, 0, 21, 0, 21, 0, 22, 0,
    22, 0, 22, 0, 23, 0, 23, 0, 23, 0, 22, 0, 22, 0, 22, 0, 23, 0, 23, 0, 23, 0, 24, 0, 24, 0, 24,
    0, 24, 0, 24, 0, 24, 0, 24, 0, 24, 0, 24, 0, 24, 0, 24, 0, 24, 0, 6, 0, 6, 0, 6, 0, 8, 0, 8, 0,
    8, 0, 21, 0, 21, 0, 21, 0, 23, 0, 23, 0, 23, 0, 9, 0, 9, 0, 9, 0, 9, 0, 9, 0, 9, 0, 24, 0, 24,
    0, 24, 0, 24, 0, 24, 0, 24, 0, 15, 0, 15, 0, 15, 0, 17, 0, 17, 0, 17, 0, 15, 0, 15, 0, 15, 0,
    17, 0, 17, 0, 17,
];

// Makes the name `b` hold the store of the texture that `a` holds, in tiles of side 2.
fn tiled<Rt: Threads + Sync>(
    rt: &Rt,
    alloc: Global,
    folder: &mut MemoryFolder,
) -> Result<(), StoreError> {
    let Some(reader) = reader_in(alloc, folder) else {
        return Err(StoreError::BadMagic);
    };
    let (width, height) = (reader.header().width, reader.header().height);
    let Ok(mut chain) = StripChain::new(alloc, reader, 2) else {
        return Err(StoreError::NoMemory);
    };
    let answer = match Geometry::new(width, height, 2) {
        Ok(geometry) => write_strips(rt, alloc, &mut chain, &geometry, folder, "b"),
        Err(_) => Err(StoreError::BadGeometry),
    };
    folder.close(chain.into_file());
    answer
}

// Whether a texture is tiled to this store, and was asked for these places and no others.
fn is_tiled<Rt: Threads + Sync>(
    rt: &Rt,
    alloc: Global,
    texture: &[u8],
    store: &[u8],
    places: &[Place],
) -> bool {
    match folder_of(alloc, &[], texture) {
        Some(mut folder) => {
            tiled(rt, alloc, &mut folder).is_ok()
                && folder.holds("b", store)
                && folder.was_asked("a", places)
        }
        None => false,
    }
}

#[test]
fn a_texture_is_tiled_by_strips_as_whole(rt: HostRuntime) {
    let places = [place(0, 56), place(11, 30), place(41, 15)];
    holds(
        &rt,
        is_tiled(&rt, rt.alloc(), &TEXTURE, &FIVE_BY_THREE_STORE, &places),
    );
}

#[test]
fn two_byte_samples_are_tiled_by_strips_alike(rt: HostRuntime) {
    let places = [place(0, 103), place(13, 60), place(73, 30)];
    holds(
        &rt,
        is_tiled(&rt, rt.alloc(), &WIDE_TEXTURE, &WIDE_STORE, &places),
    );
}

#[test]
fn one_texel_is_tiled_by_strips(rt: HostRuntime) {
    const TEXEL: &[u8] = b"P6 1 1 255\n\x09\x08\x07";
    const STORE: &[u8] =
        b"VTS1\0\0\0\x01\0\0\0\x01\0\0\0\x02\x09\x08\x07\x09\x08\x07\x09\x08\x07\x09\x08\x07";
    let places = [place(0, 14), place(11, 3)];
    holds(&rt, is_tiled(&rt, rt.alloc(), TEXEL, STORE, &places));
}

// Bytes, and behind them so many of the value 7.
fn with_sevens(alloc: Global, front: &[u8], count: usize) -> Option<Vec<u8>> {
    let mut bytes = front.to_vec(alloc).ok()?;
    let sevens = vec![in alloc; 7u8; count].ok()?;
    bytes.extend_from_slice(&sevens).ok()?;
    Some(bytes)
}

// Whether two rows of 16,384 texels of sevens are tiled to a store of sevens.
fn sevens_are_tiled<Rt: Threads + Sync>(rt: &Rt, alloc: Global, places: &[Place]) -> bool {
    const HEADER: &[u8] = b"VTS1\0\0\x40\0\0\0\0\x02\0\0\0\x02";
    let Some(texture) = with_sevens(alloc, b"P6 16384 2 255\n", 98304) else {
        return false;
    };
    match with_sevens(alloc, HEADER, 196596) {
        Some(store) => is_tiled(rt, alloc, &texture, &store, places),
        None => false,
    }
}

#[test]
fn the_widest_texture_is_tiled_by_strips(rt: HostRuntime) {
    let places = [place(0, 65536), place(15, 98304)];
    holds(&rt, sevens_are_tiled(&rt, rt.alloc(), &places));
}

// Whether the third read of a tiling fails, that of the last row, and the three tiles of the rows before it are left.
fn fails_at_the_last_row<Rt: Threads + Sync>(rt: &Rt, alloc: Global) -> bool {
    const CALLS: [Fail; 1] = [Fail::Read {
        opening: 0,
        read: 2,
    }];
    match folder_of(alloc, &CALLS, &TEXTURE) {
        Some(mut folder) => {
            has_failed(tiled(rt, alloc, &mut folder))
                && folder.holds("b", &FIVE_BY_THREE_STORE[..52])
                && folder.asked("a", 3).is_none()
        }
        None => false,
    }
}

#[test]
fn a_strip_whose_read_fails_leaves_the_rows_before_it(rt: HostRuntime) {
    holds(&rt, fails_at_the_last_row(&rt, rt.alloc()));
}
