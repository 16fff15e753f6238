//! Writing a picture by way of a buffer that serves one picture after the other.

ghost use Rattle.std.specs.Prelude.{◌≡◌, ◌*◌, ◌<◌, [], ◌∷◌, length};
ghost use Rattle.vt_definitions.specs.Depths.{IsDepth, texel_length};
ghost use Rattle.vt_replay_rows.specs.Names.{four_digit_numbers};
ghost use Rattle.vt_ppm.specs.Picture.{picture_bytes};
ghost use Rattle.vt_outside.specs.Effects.{folder_effect};
ghost use Rattle.vt_outside.specs.Expectations.{Writes};
ghost use Rattle.vt_replay_rows.specs.Pictures.{expected_picture};

use std::alloc::Global;
use vt_outside::{Folder, OutsideError, write_file};
use vt_ppm::encode_into;
use vt_replay_rows::picture_name;

/// The samples of a picture: three a pixel, row by row from the top.
#[derive(Clone, Copy)]
pub(crate) struct Picture<'a> {
    /// How many bytes a sample has, 1 or 2, the most significant first.
    pub depth: u32,
    /// The number of pixels of a row.
    pub width: u32,
    /// The number of rows.
    pub height: u32,
    /// The samples.
    pub samples: &'a [u8],
}

/// Writes a picture under its name: the prefix, its number, which is below ten thousand, in four digits, and `.ppm`. After a refusal the
/// name holds what it held, or a prefix of the picture's bytes; `Failed` comes only where the folder's count of faults rose. The bytes
/// are made in a buffer, so that memory is taken for the first picture alone. The buffer may hold anything before and after.
pub(crate) fn write_picture<D: Folder>(
    buffer: &mut Vec<u8>,
    alloc: Global,
    folder: &mut D,
    prefix: &str,
    number: u32,
    picture: &Picture,
) -> Result<(), OutsideError>
    requires few { number < four_digit_numbers }
    requires depth { IsDepth picture.now.depth }
    requires full { length picture.now.samples.now ≡ texel_length picture.now.depth * (picture.now.width * picture.now.height) }
    ensures { Writes (expected_picture prefix.now
        (λ _. picture_bytes picture.now.depth picture.now.width picture.now.height picture.now.samples.now) number ∷ [])
        (folder_effect D.Folder folder.old folder.new) result }
{
    encode_into(
        buffer,
        alloc,
        picture.depth,
        picture.width,
        picture.height,
        picture.samples,
    )?;
    let name = picture_name(alloc, prefix, number)?;
    write_file(folder, name.as_str(), buffer)
}
