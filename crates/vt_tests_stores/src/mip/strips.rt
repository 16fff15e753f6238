//! Chains of textures that are read by rows.

use crate::fixtures::{TEXTURE, WIDE_TEXTURE, folder_of, holds, place, reader_in};
use std::alloc::Global;
use vt_mip::StripChain;
use vt_outside::{Fail, Folder, MemoryFile, MemoryFolder, Place};

// Whether row `y` of a level, of at most 30 bytes, is this one, or is none where there are no bytes.
fn has_row(chain: &mut StripChain<MemoryFile>, level: u32, y: u32, want: &[u8]) -> bool {
    if level >= chain.levels() {
        return want.is_empty();
    }
    let (width, height) = chain.size(level);
    let size = 3 * chain.depth() as usize * width as usize;
    if y >= height || size > 30 {
        return want.is_empty();
    }
    let (_, rows) = chain.size(0);
    let mut room = [0; 30];
    let row = &mut room[..size];
    if chain.reserve(rows as u64).is_err() {
        return false;
    }
    match chain.row(level, y, row) {
        Ok(()) => &*row == want,
        Err(_) => want.is_empty(),
    }
}

// Whether rows of levels are these.
fn has_rows(chain: &mut StripChain<MemoryFile>, rows: &[(u32, u32, &[u8])]) -> bool {
    for (level, y, row) in rows {
        if !has_row(chain, *level, *y, *row) {
            return false;
        }
    }
    true
}

// Whether the chain of the texture that `a` holds, for tiles of side 2, has these rows.
fn texture_has(alloc: Global, folder: &mut MemoryFolder, rows: &[(u32, u32, &[u8])]) -> bool {
    let Some(reader) = reader_in(alloc, folder) else {
        return false;
    };
    let Ok(mut chain) = StripChain::new(alloc, reader, 2) else {
        return false;
    };
    let is_so = has_rows(&mut chain, rows);
    folder.close(chain.into_file());
    is_so
}

// Whether a texture has these rows.
fn is_read(alloc: Global, texture: &[u8], rows: &[(u32, u32, &[u8])]) -> bool {
    match folder_of(alloc, &[], texture) {
        Some(mut folder) => texture_has(alloc, &mut folder, rows),
        None => false,
    }
}

#[test]
fn rows_of_each_level_are_made_of_rows_of_the_texture(rt: HostRuntime) {
    const NARROW: [(u32, u32, &[u8]); 6] = [
        (0, 0, &[0, 0, 0, 1, 1, 1, 2, 2, 2, 3, 3, 3, 4, 4, 4]),
        (
            0,
            2,
            &[20, 20, 20, 21, 21, 21, 22, 22, 22, 23, 23, 23, 24, 24, 24],
        ),
        (1, 0, &[6, 6, 6, 8, 8, 8, 9, 9, 9]),
        (1, 1, &[21, 21, 21, 23, 23, 23, 24, 24, 24]),
        (2, 0, &[15, 15, 15, 17, 17, 17]),
        (2, 1, &[]),
    ];
    const WIDE: [(u32, u32, &[u8]); 6] = [
        (
            0,
            0,
            &[
                0, 0, 0, 0, 0, 0, 0, 1, 0, 1, 0, 1, 0, 2, 0, 2, 0, 2, 0, 3, 0, 3, 0, 3, 0, 4, 0, 4,
                0, 4,
            ],
        ),
        (
            0,
            2,
            &[
                0, 20, 0, 20, 0, 20, 0, 21, 0, 21, 0, 21, 0, 22, 0, 22, 0, 22, 0, 23, 0, 23, 0, 23,
                0, 24, 0, 24, 0, 24,
            ],
        ),
        (
            1,
            0,
            &[0, 6, 0, 6, 0, 6, 0, 8, 0, 8, 0, 8, 0, 9, 0, 9, 0, 9],
        ),
        (
            1,
            1,
            &[
                0, 21, 0, 21, 0, 21, 0, 23, 0, 23, 0, 23, 0, 24, 0, 24, 0, 24,
            ],
        ),
        (2, 0, &[0, 15, 0, 15, 0, 15, 0, 17, 0, 17, 0, 17]),
        (2, 1, &[]),
    ];
    holds(&rt, is_read(rt.alloc(), &TEXTURE, &NARROW));
    holds(&rt, is_read(rt.alloc(), &WIDE_TEXTURE, &WIDE));
}

// Whether no row of the last level is read where the second row's read fails, and nothing is asked behind it.
fn ends_at_a_failure(alloc: Global) -> bool {
    const CALLS: [Fail; 1] = [Fail::Read {
        opening: 0,
        read: 2,
    }];
    const LAST: Place = Place {
        at: 26,
        len: 15,
        failed: true,
    };
    match folder_of(alloc, &CALLS, &TEXTURE) {
        Some(mut folder) => {
            texture_has(alloc, &mut folder, &[(2, 0, &[])])
                && folder.was_asked("a", &[place(0, 56), place(11, 15), LAST])
        }
        None => false,
    }
}

#[test]
fn no_row_is_read_behind_one_whose_read_failed(rt: HostRuntime) {
    holds(&rt, ends_at_a_failure(rt.alloc()));
}
