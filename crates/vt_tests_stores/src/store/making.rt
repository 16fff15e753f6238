//! What the tests of stores make: stores of textures that are written, opened and widened in folders in memory.

use crate::fixtures::image_of;
use std::alloc::Global;
use std::thread::Threads;
use vt_mip::Chain;
use vt_outside::{Folder, MemoryFile, MemoryFolder};
use vt_pages::Geometry;
use vt_store::{Store, widen_store, write_store};
use vt_tiles::StoreError;

/// The store of the texture of four columns and rows.
pub const STORE_G4: [u8; 76] = [
    0x56, 0x54, 0x53, 0x31, 0, 0, 0, 4, 0, 0, 0, 4, 0, 0, 0, 2, 0, 0, 0, 1, 1, 1, 4, 4, 4, 5, 5, 5,
    2, 2, 2, 3, 3, 3, 6, 6, 6, 7, 7, 7, 8, 8, 8, 9, 9, 9, 12, 12, 12, 13, 13, 13, 10, 10, 10, 11,
    11, 11, 14, 14, 14, 15, 15, 15, 3, 3, 3, 5, 5, 5, 11, 11, 11, 13, 13, 13,
];

/// The store of the texture of five columns and three rows: six tiles of level 0, two of level 1, whose rows are 6, 8, 9 and
/// 21, 23, 24, and one of level 2, whose row is 15, 17.
pub const FIVE_BY_THREE_STORE: [u8; 124] = [
    86, 84, 83, 49, 0, 0, 0, 5, 0, 0, 0, 3, 0, 0, 0, 2, 0, 0, 0, 1, 1, 1, 10, 10, 10, 11, 11, 11,
    2, 2, 2, 3, 3, 3, 12, 12, 12, 13, 13, 13, 4, 4, 4, 4, 4, 4, 14, 14, 14, 14, 14, 14, 20, 20, 20,
    21, 21, 21, 20, 20, 20, 21, 21, 21, 22, 22, 22, 23, 23, 23, 22, 22, 22, 23, 23, 23, 24, 24, 24,
    24, 24, 24, 24, 24, 24, 24, 24, 24, 6, 6, 6, 8, 8, 8, 21, 21, 21, 23, 23, 23, 9, 9, 9, 9, 9, 9,
    24, 24, 24, 24, 24, 24, 15, 15, 15, 17, 17, 17, 15, 15, 15, 17, 17, 17,
];

/// The store that G4 is widened to: the other magic, and behind the header each byte twice.
pub const WIDE_G4: [u8; 136] = [
    0x56, 0x54, 0x53, 0x32, 0, 0, 0, 4, 0, 0, 0, 4, 0, 0, 0, 2, 0, 0, 0, 0, 0, 0, 1, 1, 1, 1, 1, 1,
    4, 4, 4, 4, 4, 4, 5, 5, 5, 5, 5, 5, 2, 2, 2, 2, 2, 2, 3, 3, 3, 3, 3, 3, 6, 6, 6, 6, 6, 6, 7, 7,
    7, 7, 7, 7, 8, 8, 8, 8, 8, 8, 9, 9, 9, 9, 9, 9, 12, 12, 12, 12, 12, 12, 13, 13, 13, 13, 13, 13,
    10, 10, 10, 10, 10, 10, 11, 11, 11, 11, 11, 11, 14, 14, 14, 14, 14, 14, 15, 15, 15, 15, 15, 15,
    3, 3, 3, 3, 3, 3, 5, 5, 5, 5, 5, 5, 11, 11, 11, 11, 11, 11, 13, 13, 13, 13, 13, 13,
];

/// The sides, the tile side and the depth of a store, or why it is none.
pub type Answer = Result<(u32, u32, u32, u32), StoreError>;

/// What the opening of the store that a name holds answers.
pub fn opened(folder: &mut MemoryFolder, name: &str) -> Answer {
    match Store::open(folder.open(name)?) {
        Ok(store) => {
            let geometry = store.geometry();
            let depth = store.depth();
            folder.close(store.into_file());
            Ok((geometry.width(), geometry.height(), geometry.tile(), depth))
        }
        Err((file, refusal)) => {
            folder.close(file);
            Err(refusal)
        }
    }
}

/// The store that a name holds.
pub fn store_in(folder: &mut MemoryFolder, name: &str) -> Option<Store<MemoryFile>> {
    Store::open(folder.open(name).ok()?).ok()
}

/// A texture: its depth, its sides and its samples.
pub struct Texture {
    pub depth: u32,
    pub size: (u32, u32),
    pub samples: &'static [u8],
}

/// Makes the name `b` hold the store of a texture with tiles of side 2.
pub fn written<Rt: Threads + Sync>(
    rt: &Rt,
    alloc: Global,
    folder: &mut MemoryFolder,
    texture: &Texture,
) -> Result<(), StoreError> {
    let (width, height) = texture.size;
    let Some(image) = image_of(alloc, texture.depth, width, height, texture.samples) else {
        return Err(StoreError::BadMagic);
    };
    let Ok(geometry) = Geometry::new(image.width(), image.height(), 2) else {
        return Err(StoreError::BadGeometry);
    };
    let chain = Chain::build(rt, alloc, image, 2)?;
    write_store(alloc, &chain, &geometry, folder, "b")
}

/// Makes the name `b` hold the store of two-byte samples that is made of the store of one-byte samples that `a` holds.
pub fn widened(alloc: Global, folder: &mut MemoryFolder) -> Result<(), StoreError> {
    let Some(mut store) = store_in(folder, "a") else {
        return Err(StoreError::BadMagic);
    };
    let answer = if store.depth() == 1 {
        widen_store(alloc, &mut store, folder, "b")
    } else {
        Err(StoreError::BadGeometry)
    };
    folder.close(store.into_file());
    answer
}
