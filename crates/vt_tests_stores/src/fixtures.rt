//! What several of these tests make: textures of grays, folders that hold them, and readers of them. Where memory is refused there
//! is none.
ghost use Rattle.std.specs.Bool.{OnTrue};
ghost use Rattle.std.specs.Prelude.{◌≡◌, true, IfSome};

use std::alloc::Global;
use std::process::Abort;
use vt_outside::{Fail, Fails, Folder, MemoryFile, MemoryFolder, Place};
use vt_ppm::{Image, StripReader};

/// The texture of four columns and rows whose texel (x, y) is 4y+x in each channel.
pub const FOUR: [u8; 48] = [
    0, 0, 0, 1, 1, 1, 2, 2, 2, 3, 3, 3, 4, 4, 4, 5, 5, 5, 6, 6, 6, 7, 7, 7, 8, 8, 8, 9, 9, 9, 10,
    10, 10, 11, 11, 11, 12, 12, 12, 13, 13, 13, 14, 14, 14, 15, 15, 15,
];

/// The texture of five columns and three rows whose texels are 10 times the row and the column in each channel.
pub const FIVE_BY_THREE: [u8; 45] = [
    0, 0, 0, 1, 1, 1, 2, 2, 2, 3, 3, 3, 4, 4, 4, 10, 10, 10, 11, 11, 11, 12, 12, 12, 13, 13, 13,
    14, 14, 14, 20, 20, 20, 21, 21, 21, 22, 22, 22, 23, 23, 23, 24, 24, 24,
];

/// The file of that texture, in samples of one byte behind a header of 11 bytes.
pub const TEXTURE: [u8; 56] = [
    80, 54, 32, 53, 32, 51, 32, 50, 53, 53, 10, 0, 0, 0, 1, 1, 1, 2, 2, 2, 3, 3, 3, 4, 4, 4, 10,
    10, 10, 11, 11, 11, 12, 12, 12, 13, 13, 13, 14, 14, 14, 20, 20, 20, 21, 21, 21, 22, 22, 22, 23,
    23, 23, 24, 24, 24,
];

/// The file of that texture in samples of two bytes, of which the high one is 0, behind a header of 13 bytes.
pub const WIDE_TEXTURE: [u8; 103] = [
    80, 54, 32, 53, 32, 51, 32, 54, 53, 53, 51, 53, 10, 0, 0, 0, 0, 0, 0, 0, 1, 0, 1, 0, 1, 0, 2,
    0, 2, 0, 2, 0, 3, 0, 3, 0, 3, 0, 4, 0, 4, 0, 4, 0, 10, 0, 10, 0, 10, 0, 11, 0, 11, 0, 11, 0,
    12, 0, 12, 0, 12, 0, 13, 0, 13, 0, 13, 0, 14, 0, 14, 0, 14, 0, 20, 0, 20, 0, 20, 0, 21, 0, 21,
    0, 21, 0, 22, 0, 22, 0, 22, 0, 23, 0, 23, 0, 23, 0, 24, 0, 24, 0, 24,
];

/// Looks that something holds.
pub fn holds(rt: &impl Abort, it: bool) {
    assert!(rt; it);
}

/// A place that was read.
pub fn place(at: u64, len: u64) -> Place {
    Place {
        at,
        len,
        failed: false,
    }
}

/// An image of these samples, of at most 70 columns and rows.
pub fn image_of(
    alloc: Global,
    depth: u32,
    width: u32,
    height: u32,
    samples: &[u8],
) -> Option<Image> {
    let is_lawful = (depth == 1 || depth == 2)
        && 1 <= width
        && width <= 70
        && 1 <= height
        && height <= 70
        && samples.len() == 3 * depth as usize * (width as usize * height as usize);
    if !is_lawful {
        return None;
    }
    Some(Image::new(depth, width, height, samples.to_vec(alloc).ok()?))
}

/// A folder whose name `a` holds these bytes, and in which these calls fail.
pub fn folder_of(alloc: Global, calls: &[Fail], bytes: &[u8]) -> Option<MemoryFolder> {
    let mut folder = MemoryFolder::new(alloc, Fails::from_slice(alloc, calls).ok()?);
    folder.add("a", bytes).ok()?;
    Some(folder)
}

// Looks the samples of a texture over.
fn is_looked_over(reader: &mut StripReader<MemoryFile>) -> bool
    ensures { OnTrue result (reader.new.checked ≡ true) }
{
    let rows = reader.header().height;
    reader.reserve(rows as u64).is_ok() && reader.check().is_ok()
}

/// A reader of the texture that `a` holds, whose samples were looked over.
pub fn reader_in(alloc: Global, folder: &mut MemoryFolder) -> Option<StripReader<MemoryFile>>
    ensures { IfSome result (λ reader. reader.checked ≡ true) }
{
    let mut reader = StripReader::open(alloc, folder.open("a").ok()?).ok()?;
    if is_looked_over(&mut reader) {
        return Some(reader);
    }
    folder.close(reader.into_file());
    None
}
