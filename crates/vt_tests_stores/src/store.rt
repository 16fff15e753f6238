//! Stores of whole textures, read and widened.

mod foreign;
mod making;
mod strips;

ghost use Rattle.vt_ppm.specs.Depths.{IsDepth};

use crate::fixtures::{FIVE_BY_THREE, FOUR, folder_of, holds, place};
use crate::store::making::{
    FIVE_BY_THREE_STORE, STORE_G4, Texture, WIDE_G4, opened, store_in, widened, written,
};
use std::alloc::Global;
use std::thread::Threads;
use vt_outside::{Fail, Folder, MemoryFile, MemoryFolder, Place};
use vt_pages::Geometry;
use vt_store::tile_columns;
use vt_tiles::{StoreError, Stores, store_length, tile_length};

// Whether an answer is that a call on the outside failed.
fn has_failed(answer: Result<(), StoreError>) -> bool {
    match answer {
        Err(refusal) => refusal == StoreError::Failed,
        Ok(()) => false,
    }
}

// Whether the store that `b` holds has these sides, this tile side and this depth.
fn is_opened(folder: &mut MemoryFolder, want: (u32, u32, u32, u32)) -> bool {
    match opened(folder, "b") {
        Ok(found) => found == want,
        Err(_) => false,
    }
}

// Whether a page of the store with tiles of side 2 that `b` holds has this tile.
fn is_tile(folder: &mut MemoryFolder, page: u32, want: [u8; 12]) -> bool {
    let Some(mut store) = store_in(folder, "b") else {
        return false;
    };
    let geometry = store.geometry();
    let mut tile = [0; 12];
    let is_read = geometry.tile() == 2
        && store.depth() == 1
        && page < geometry.page_count()
        && store.reserve(1).is_ok()
        && store.read_tile(page, &mut tile).is_ok();
    folder.close(store.into_file());
    is_read && tile == want
}

// Whether pages of the store that `b` holds have these tiles.
fn are_tiles(folder: &mut MemoryFolder, tiles: &[(u32, [u8; 12])]) -> bool {
    for (page, tile) in tiles {
        if !is_tile(folder, *page, *tile) {
            return false;
        }
    }
    true
}

// A store that is to be made: its bytes, what its opening answers, some of its tiles, and the places that are asked for those.
struct Made {
    bytes: &'static [u8],
    opened: (u32, u32, u32, u32),
    tiles: &'static [(u32, [u8; 12])],
    places: &'static [Place],
}

// Whether `b` holds this store.
fn is_made(folder: &mut MemoryFolder, want: &Made) -> bool {
    folder.holds("b", want.bytes)
        && is_opened(folder, want.opened)
        && are_tiles(folder, want.tiles)
        && folder.was_asked("b", want.places)
}

// Whether a texture makes this store.
fn is_written<Rt: Threads + Sync>(rt: &Rt, alloc: Global, texture: &Texture, want: &Made) -> bool {
    match folder_of(alloc, &[], b"old") {
        Some(mut folder) => {
            written(rt, alloc, &mut folder, texture).is_ok() && is_made(&mut folder, want)
        }
        None => false,
    }
}

// The place of the header.
const HEADER: Place = Place {
    at: 0,
    len: 16,
    failed: false,
};

const G4: Texture = Texture {
    depth: 1,
    size: (4, 4),
    samples: &FOUR,
};

#[test]
fn a_store_is_written_and_read_tile_by_tile(rt: HostRuntime) {
    const TILE: Place = Place {
        at: 28,
        len: 12,
        failed: false,
    };
    const MADE: Made = Made {
        bytes: &STORE_G4,
        opened: (4, 4, 2, 1),
        tiles: &[(1, [2, 2, 2, 3, 3, 3, 6, 6, 6, 7, 7, 7])],
        places: &[HEADER, HEADER, TILE],
    };
    holds(&rt, is_written(&rt, rt.alloc(), &G4, &MADE));
}

// Whether the store of 5 by 3 texels in tiles of side 2 has this length at a depth, and a tile that one, and whether three tiles
// lie side by side at the first level.
fn has_lengths(depth: u32, store: u64, tile: usize) -> bool
    requires { IsDepth depth }
{
    match Geometry::new(5, 3, 2) {
        Ok(geometry) => {
            store_length(&geometry, depth) == store
                && tile_length(&geometry, depth) == tile
                && 0 < geometry.levels()
                && tile_columns(&geometry, 0) == 3
        }
        Err(_) => false,
    }
}

#[test]
fn a_geometry_tells_the_lengths_of_its_store(rt: HostRuntime) {
    holds(&rt, has_lengths(1, 124, 12));
    holds(&rt, has_lengths(2, 232, 24));
}

#[test]
fn one_texel_fills_a_tile(rt: HostRuntime) {
    const TEXTURE: Texture = Texture {
        depth: 1,
        size: (1, 1),
        samples: &[10, 20, 30],
    };
    const MADE: Made = Made {
        bytes: &[
            0x56, 0x54, 0x53, 0x31, 0, 0, 0, 1, 0, 0, 0, 1, 0, 0, 0, 2, 10, 20, 30, 10, 20, 30, 10,
            20, 30, 10, 20, 30,
        ],
        opened: (1, 1, 2, 1),
        tiles: &[],
        places: &[HEADER],
    };
    holds(&rt, is_written(&rt, rt.alloc(), &TEXTURE, &MADE));
}

#[test]
fn a_store_of_two_byte_samples_has_twice_as_many_bytes_a_texel(rt: HostRuntime) {
    const TEXTURE: Texture = Texture {
        depth: 2,
        size: (1, 1),
        samples: &[0, 1, 0x80, 0, 0xff, 0xff],
    };
    const MADE: Made = Made {
        bytes: &[
            0x56, 0x54, 0x53, 0x32, 0, 0, 0, 1, 0, 0, 0, 1, 0, 0, 0, 2, 0, 1, 0x80, 0, 0xff, 0xff,
            0, 1, 0x80, 0, 0xff, 0xff, 0, 1, 0x80, 0, 0xff, 0xff, 0, 1, 0x80, 0, 0xff, 0xff,
        ],
        opened: (1, 1, 2, 2),
        tiles: &[],
        places: &[HEADER],
    };
    holds(&rt, is_written(&rt, rt.alloc(), &TEXTURE, &MADE));
}

#[test]
fn past_the_edge_the_last_texel_stands_again(rt: HostRuntime) {
    const TEXTURE: Texture = Texture {
        depth: 1,
        size: (5, 3),
        samples: &FIVE_BY_THREE,
    };
    const MADE: Made = Made {
        bytes: &FIVE_BY_THREE_STORE,
        opened: (5, 3, 2, 1),
        tiles: &[
            (2, [4, 4, 4, 4, 4, 4, 14, 14, 14, 14, 14, 14]),
            (5, [24, 24, 24, 24, 24, 24, 24, 24, 24, 24, 24, 24]),
            (8, [15, 15, 15, 17, 17, 17, 15, 15, 15, 17, 17, 17]),
        ],
        places: &[
            HEADER,
            HEADER,
            Place {
                at: 40,
                len: 12,
                failed: false,
            },
            HEADER,
            Place {
                at: 76,
                len: 12,
                failed: false,
            },
            HEADER,
            Place {
                at: 112,
                len: 12,
                failed: false,
            },
        ],
    };
    holds(&rt, is_written(&rt, rt.alloc(), &TEXTURE, &MADE));
}

// Whether the opening of the store that `a` holds fails.
fn fails_to_open(folder: &mut MemoryFolder) -> bool {
    match opened(folder, "a") {
        Err(refusal) => refusal == StoreError::Failed,
        Ok(_) => false,
    }
}

// Whether the writing of the store of G4 fails, and `b` then holds its first 52 bytes.
fn fails_behind_52_bytes<Rt: Threads + Sync>(
    rt: &Rt,
    alloc: Global,
    folder: &mut MemoryFolder,
) -> bool {
    has_failed(written(rt, alloc, folder, &G4)) && folder.holds("b", &STORE_G4[..52])
}

// Whether two openings of the store fail, and two writings.
fn fails_four_times<Rt: Threads + Sync>(rt: &Rt, alloc: Global, calls: &[Fail]) -> bool {
    match folder_of(alloc, calls, &STORE_G4) {
        Some(mut folder) => {
            fails_to_open(&mut folder)
                && fails_to_open(&mut folder)
                && fails_behind_52_bytes(rt, alloc, &mut folder)
                && fails_behind_52_bytes(rt, alloc, &mut folder)
        }
        None => false,
    }
}

#[test]
fn a_fault_leaves_a_front_part_of_the_store(rt: HostRuntime) {
    const CALLS: [Fail; 4] = [
        Fail::Length { opening: 0 },
        Fail::Read {
            opening: 1,
            read: 0,
        },
        Fail::Append(2),
        Fail::Create(1),
    ];
    holds(&rt, fails_four_times(&rt, rt.alloc(), &CALLS));
}

// Whether a store is widened to that one and is still held, and was asked for these places and no others.
fn is_widened(alloc: Global, bytes: &[u8], want: &Made, places: &[Place]) -> bool {
    match folder_of(alloc, &[], bytes) {
        Some(mut folder) => {
            widened(alloc, &mut folder).is_ok()
                && folder.was_asked("a", places)
                && is_made(&mut folder, want)
                && folder.holds("a", bytes)
        }
        None => false,
    }
}

const WIDE_MADE: Made = Made {
    bytes: &WIDE_G4,
    opened: (4, 4, 2, 2),
    tiles: &[],
    places: &[HEADER],
};

#[test]
fn a_widened_store_has_each_sample_times_257(rt: HostRuntime) {
    let places = [HEADER, place(16, 24), place(40, 24), place(64, 12)];
    holds(&rt, is_widened(rt.alloc(), &STORE_G4, &WIDE_MADE, &places));
    holds(&rt, WIDE_G4[22..28] == [1, 1, 1, 1, 1, 1]);
}

#[test]
fn a_store_is_widened_in_pieces_that_are_read_once(rt: HostRuntime) {
    let places = [HEADER, place(16, 24), place(40, 24), place(64, 12)];
    holds(&rt, is_widened(rt.alloc(), &STORE_G4, &WIDE_MADE, &places));
}

#[test]
fn a_widened_store_has_the_last_texel_past_the_edge_whatever_stood_there(rt: HostRuntime) {
    const NARROW: [u8; 28] = [
        0x56, 0x54, 0x53, 0x31, 0, 0, 0, 1, 0, 0, 0, 1, 0, 0, 0, 2, 10, 20, 30, 1, 2, 3, 4, 5, 6,
        7, 8, 9,
    ];
    const MADE: Made = Made {
        bytes: &[
            0x56, 0x54, 0x53, 0x32, 0, 0, 0, 1, 0, 0, 0, 1, 0, 0, 0, 2, 10, 10, 20, 20, 30, 30, 10,
            10, 20, 20, 30, 30, 10, 10, 20, 20, 30, 30, 10, 10, 20, 20, 30, 30,
        ],
        opened: (1, 1, 2, 2),
        tiles: &[],
        places: &[HEADER],
    };
    let places = [HEADER, place(16, 12)];
    holds(&rt, is_widened(rt.alloc(), &NARROW, &MADE, &places));
}

// Whether `b` holds so many bytes of the wide store, or is not there where there is no number.
fn is_left(folder: &MemoryFolder, left: Option<usize>) -> bool {
    match left {
        Some(length) => length <= 136 && folder.holds("b", &WIDE_G4[..length]),
        None => folder.bytes_of("b").is_none(),
    }
}

// Whether a widening of the store of G4 fails where a call does, and leaves so much.
fn leaves(alloc: Global, call: Fail, left: Option<usize>) -> bool {
    match folder_of(alloc, &[call], &STORE_G4) {
        Some(mut folder) => {
            has_failed(widened(alloc, &mut folder))
                && is_left(&folder, left)
                && folder.holds("a", &STORE_G4)
        }
        None => false,
    }
}

#[test]
fn each_fault_of_a_widening_leaves_a_front_part(rt: HostRuntime) {
    const ROWS: [(Fail, Option<usize>); 8] = [
        (Fail::Append(0), Some(8)),
        (
            Fail::Read {
                opening: 0,
                read: 1,
            },
            Some(16),
        ),
        (Fail::Append(1), Some(40)),
        (
            Fail::Read {
                opening: 0,
                read: 2,
            },
            Some(64),
        ),
        (Fail::Append(2), Some(88)),
        (
            Fail::Read {
                opening: 0,
                read: 3,
            },
            Some(112),
        ),
        (Fail::Append(3), Some(124)),
        (Fail::Create(0), None),
    ];
    for (call, left) in &ROWS {
        holds(&rt, leaves(rt.alloc(), *call, *left));
    }
}

// How many stores a new list of stores has.
fn new_list_length(alloc: Global) -> usize {
    let stores: Stores<MemoryFile> = Stores::new(alloc);
    let length = stores.len();
    stores.destroy_empty();
    length
}

#[test]
fn a_new_list_of_stores_is_empty(rt: HostRuntime) {
    holds(&rt, new_list_length(rt.alloc()) == 0);
}
