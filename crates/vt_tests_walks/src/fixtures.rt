//! What several of these tests share: a store, paths over it and what their pictures show, the places of the store, and
//! what is asked of folders.

ghost use Rattle.std.specs.Prelude.{◌≡◌, [], ◌∷◌, is_some};
ghost use Rattle.std.specs.Bool.{OnTrue};
ghost use Rattle.vt_outside.specs.Files.{bytes_at};
ghost use Rattle.vt_machine.specs.Crews.{IsCrew};
ghost use Rattle.vt_machine.specs.Machines.{file_state};
ghost use Rattle.vt_walk.specs.States.{AreOpen};

use std::process::Abort;
use vt_machine::Crew;
use vt_outside::{Folder, MemoryFolder, Place};
use vt_tiles::Store;

/// The store, with tiles of side 2, of the texture of 4x4 texels whose texel (x, y) is 4y+x in each channel: its header, and the
/// tiles of four pages and of the root.
pub const FOUR: [u8; 76] = [
    0x56, 0x54, 0x53, 0x31, 0, 0, 0, 4, 0, 0, 0, 4, 0, 0, 0, 2, 0, 0, 0, 1, 1, 1, 4, 4, 4, 5, 5, 5,
    2, 2, 2, 3, 3, 3, 6, 6, 6, 7, 7, 7, 8, 8, 8, 9, 9, 9, 12, 12, 12, 13, 13, 13, 10, 10, 10, 11,
    11, 11, 14, 14, 14, 15, 15, 15, 3, 3, 3, 5, 5, 5, 11, 11, 11, 13, 13, 13,
];

/// A read of its header.
pub const HEADER: Place = Place {
    at: 0,
    len: 16,
    failed: false,
};

/// Reads of the tiles of its pages.
pub const TILE_0: Place = Place {
    at: 16,
    len: 12,
    failed: false,
};

pub const TILE_2: Place = Place { at: 40, ..TILE_0 };

pub const TILE_3: Place = Place { at: 52, ..TILE_0 };

pub const ROOT_TILE: Place = Place { at: 64, ..TILE_0 };

/// A picture of two pixels from the height of one texel, which wants the pages 0 and 2.
pub const ONE_PICTURE: &[u8] = b"size 2 1\nfocal 1\nat 0 0 256 16384 0\n";

/// That picture twice, and two half a texture to the right of it, which want the pages 1 and 3.
pub const FOUR_PICTURES: &[u8] =
    b"size 2 1\nfocal 1\nat 0 0 256 16384 0\nat 0 0 256 16384 0\nat 512 0 256 16384 0\nat 512 0 256 16384 0\n";

/// What the first picture shows while only the root is mapped.
pub const LOW: &[u8] = b"P6\n2 1\n255\n\x0b\x0b\x0b\x03\x03\x03";

/// What it shows of the texture itself.
pub const FINE: &[u8] = b"P6\n2 1\n255\n\x0d\x0d\x0d\x01\x01\x01";

/// What the third picture shows while the pages 0 and 2 are mapped.
pub const FAR: &[u8] = b"P6\n2 1\n255\n\x0d\x0d\x0d\x05\x05\x05";

// The names of the first pictures of a walk.
const NAMES: [&str; 5] = [
    "f0000.ppm",
    "f0001.ppm",
    "f0002.ppm",
    "f0003.ppm",
    "f0004.ppm",
];

/// Opens the store of a name.
pub fn open_store<D: Folder>(rt: &impl Abort, folder: &mut D, name: &str) -> Store<D::File>
    ensures bytes { D.File.bytes result.file ≡ bytes_at (D.files folder.old) name.now }
    ensures known_too { is_some (D.File.bytes result.file) ≡ is_some (D.files folder.old) }
    ensures files { D.files folder.new ≡ D.files folder.old }
    ensures opened { AreOpen 1 name.now (D.asked folder.new) (file_state D.File.File result.file ∷ []) }
{
    let Ok(file) = folder.open(name) else {
        panic!(rt; "no file");
    };
    match Store::open(file) {
        Ok(store) => store,
        Err((file, _)) => {
            folder.close(file);
            panic!(rt; "no store");
        }
    }
}

/// Whether the numbers of a crew are within their limits.
pub fn is_crew(crew: &Crew) -> bool
    ensures { OnTrue result (IsCrew crew.now) }
{
    1 <= crew.samplers
        && crew.samplers <= 64
        && 1 <= crew.loaders
        && crew.loaders <= 16
        && 1 <= crew.batch
        && crew.batch <= 4096
}

// Whether the name holds these bytes, or is not there where there are none.
fn stands(folder: &MemoryFolder, name: &str, bytes: Option<&[u8]>) -> bool {
    match bytes {
        Some(bytes) => folder.holds(name, bytes),
        None => folder.bytes_of(name).is_none(),
    }
}

/// Whether the names of the first pictures hold these bytes, and those of the next are not there.
pub fn pictures_stand(folder: &MemoryFolder, pictures: &[&[u8]]) -> bool {
    for i in 0..NAMES.len() {
        if !stands(folder, NAMES[i], pictures.get(i).copied()) {
            return false;
        }
    }
    true
}
