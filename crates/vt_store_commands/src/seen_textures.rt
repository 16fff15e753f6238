//! The texture of `plain`, as far as its pictures want it: where none wants level 0, the texture is read by strips, and its level 1 is kept alone.

ghost use Rattle.std.specs.Prelude.{◌≡◌, ℕ, ◌<◌, ◌≤◌, false, true, Some, List, length, IfOk, IfErr, IsErrOf, OnOk, OnErr};
ghost use Rattle.vt_definitions.specs.Tiles.{IsTileSide};
ghost use Rattle.vt_outside.specs.Counts.{Rose};
ghost use Rattle.vt_ppm.specs.Flaws.{AreImageSides};
ghost use Rattle.vt_ppm.specs.Format.{depth_of};
ghost use Rattle.vt_ppm.specs.StripPlaces.{StripsAsked, StripsTried, strips_of};
ghost use Rattle.vt_ppm.specs.Strips.{IsTextureIfKnown, texture_of};
ghost use Rattle.vt_definitions.specs.Limits.{most_read_side};
ghost use Rattle.vt_mip.specs.HalvedStrips.{strip_height};
ghost use Rattle.vt_camera.specs.Rows.{row_of, row_level};
ghost use Rattle.vt_camera.specs.declared.surfaces.Surface.{Surface};
ghost use Rattle.vt_camera.specs.Paths.{camera_at};
ghost use Rattle.vt_outside.specs.Effects.{folder_effect};
ghost use Rattle.vt_command_inputs.specs.Inputs.{TextureInput};
ghost use Rattle.vt_command_inputs.specs.Reads.{Refused};
ghost use Rattle.vt_store_commands.specs.SeenTextures.{IsSeenOf, Sees};

use std::alloc::Global;
use std::thread::Threads;
use vt_camera::Path;
use vt_command_inputs::{Refusal, open_image, read_texture};
use vt_command_words::Filtering;
use vt_mip::halve_texture;
use vt_outside::{File, Folder, OutsideError};
use vt_plain::wants_level_0;
use vt_ppm::{Image, StripReader};

/// What is there of a texture: all of it, or its level 1 alone.
#[derive(Drop)]
pub(crate) struct Seen {
    /// The first level that is there.
    pub(crate) image: Image,
    /// The number of columns of level 0.
    pub(crate) width: u32,
    /// The number of rows of level 0.
    pub(crate) height: u32,
    /// How many levels are left out: 0 or 1.
    pub(crate) skipped: u32,
}

// Reads all rows of a texture of few rows, by one read.
fn rows_in<F: File>(alloc: Global, reader: &mut StripReader<F>) -> Result<Image, OutsideError>
    requires checked { reader.old.checked ≡ true }
    requires sides { AreImageSides most_read_side reader.old.header.width reader.old.header.height }
    requires few { reader.old.header.height ≤ strip_height }
    ensures depth { IfOk result (λ i. i.depth ≡ depth_of reader.old.header.maximum) }
    ensures width { IfOk result (λ i. i.width ≡ reader.old.header.width) }
    ensures height { IfOk result (λ i. i.height ≡ reader.old.header.height) }
    ensures whole { IfOk result (λ i. (b : List ℕ) → F.bytes reader.old.file ≡ Some b → i ≡ texture_of reader.old.header b) }
    ensures read { OnOk result (StripsAsked reader.old.header strip_height (strips_of reader.old.header strip_height)
        (F.asked reader.old.file) (F.asked reader.new.file)) }
    ensures tried { OnErr result (StripsTried reader.old.header strip_height (F.asked reader.old.file) (F.asked reader.new.file)) }
    ensures failed { IsErrOf result OutsideError.Failed → Rose (F.faults reader.old.file) (F.faults reader.new.file) }
    ensures bytes { F.bytes reader.new.file ≡ F.bytes reader.old.file }
    ensures name { F.name reader.new.file ≡ F.name reader.old.file }
    ensures faults { F.faults reader.old.file ≤ F.faults reader.new.file }
    ensures header { reader.new.header ≡ reader.old.header }
{
    let header = *reader.header();
    let depth = reader.depth();
    reader.reserve(1)?;
    let mut samples = vec![in alloc; 0u8; header.height as usize * reader.row_length()]?;
    reader.rows(0, header.height, samples.as_mut_slice())?;
    Ok(Image::new(depth, header.width, header.height, samples))
}

// Whether both sides of a texture fit into a tile, so that it has one level.
fn is_one_level(width: u32, height: u32, tile: u32) -> bool
    ensures fits { result ≡ true → (width ≤ tile) × (height ≤ tile) }
    ensures larger { result ≡ false → width ≤ tile → height ≤ tile → ⊥ }
{
    width <= tile && height <= tile
}

// Reads the texture of a reader: its level 1, or all of it where it has one level.
fn seen_in<Rt: Threads + Sync, F: File>(
    rt: &Rt,
    alloc: Global,
    reader: &mut StripReader<F>,
    tile: u32,
) -> Result<Seen, OutsideError>
    requires checked { reader.old.checked ≡ true }
    requires sides { AreImageSides most_read_side reader.old.header.width reader.old.header.height }
    requires tile { IsTileSide tile }
    ensures seen { IfOk result (λ s. IsSeenOf (F.bytes reader.old.file) reader.old.header tile s) }
    ensures texture { IsTextureIfKnown (F.bytes reader.old.file) reader.old.header }
    ensures read { OnOk result (StripsAsked reader.old.header strip_height (strips_of reader.old.header strip_height)
        (F.asked reader.old.file) (F.asked reader.new.file)) }
    ensures tried { OnErr result (StripsTried reader.old.header strip_height (F.asked reader.old.file) (F.asked reader.new.file)) }
    ensures failed { IsErrOf result OutsideError.Failed → Rose (F.faults reader.old.file) (F.faults reader.new.file) }
    ensures bytes { F.bytes reader.new.file ≡ F.bytes reader.old.file }
    ensures name { F.name reader.new.file ≡ F.name reader.old.file }
    ensures faults { F.faults reader.old.file ≤ F.faults reader.new.file }
    ensures header { reader.new.header ≡ reader.old.header }
{
    let (width, height) = (reader.header().width, reader.header().height);
    if is_one_level(width, height, tile) {
        return Ok(Seen {
            image: rows_in(alloc, reader)?,
            width,
            height,
            skipped: 0,
        });
    }
    Ok(Seen {
        image: halve_texture(rt, alloc, reader)?,
        width,
        height,
        skipped: 1,
    })
}

// Reads the texture of a name by strips, where no picture of the path wants level 0 of a texture that has others.
fn read_coarse<'a, Rt: Threads + Sync, D: Folder>(
    rt: &Rt,
    alloc: Global,
    folder: &mut D,
    name: &'a str,
    tile: u32,
    path: &Path,
) -> Result<Seen, Refusal<'a>>
    requires tile { IsTileSide tile }
    requires wants { (surface : Surface) (picture y : ℕ) → 2 ≤ surface.levels → picture < length path.now.cameras → y < path.now.height
        → 1 ≤ row_level (row_of path.now (camera_at path.now picture) y surface) }
    ensures sees { IfOk result (λ s. Sees name.now Filtering.Nearest tile path.now s (folder_effect D.Folder folder.old folder.new)) }
    ensures refused { IfErr result (λ refusal. Refused (TextureInput name.now) refusal (folder_effect D.Folder folder.old folder.new)) }
{
    let mut reader = open_image(alloc, folder, name)?;
    let seen = seen_in(rt, alloc, &mut reader, tile);
    folder.close(reader.into_file());
    Ok(seen?)
}

// Reads the texture of a name whole.
fn read_whole<'a, Rt: Threads + Sync, D: Folder>(
    rt: &Rt,
    alloc: Global,
    folder: &mut D,
    name: &'a str,
    filter: Filtering,
    tile: u32,
    path: &Path,
) -> Result<Seen, Refusal<'a>>
    requires tile { IsTileSide tile }
    ensures sees { IfOk result (λ s. Sees name.now filter tile path.now s (folder_effect D.Folder folder.old folder.new)) }
    ensures refused { IfErr result (λ refusal. Refused (TextureInput name.now) refusal (folder_effect D.Folder folder.old folder.new)) }
{
    let image = read_texture(rt, alloc, folder, name)?;
    let (width, height) = (image.width(), image.height());
    Ok(Seen {
        image,
        width,
        height,
        skipped: 0,
    })
}

/// Reads the texture of a name, as far as the pictures of a path by a filter want it.
pub(crate) fn read_seen<'a, Rt: Threads + Sync, D: Folder>(
    rt: &Rt,
    alloc: Global,
    folder: &mut D,
    name: &'a str,
    filter: Filtering,
    tile: u32,
    path: &Path,
) -> Result<Seen, Refusal<'a>>
    requires tile { IsTileSide tile }
    ensures sees { IfOk result (λ s. Sees name.now filter tile path.now s (folder_effect D.Folder folder.old folder.new)) }
    ensures refused { IfErr result (λ refusal. Refused (TextureInput name.now) refusal (folder_effect D.Folder folder.old folder.new)) }
{
    match filter {
        Filtering::Bilinear => read_whole(rt, alloc, folder, name, filter, tile, path),
        Filtering::Nearest => {
            if wants_level_0(path) {
                read_whole(rt, alloc, folder, name, filter, tile, path)
            } else {
                read_coarse(rt, alloc, folder, name, tile, path)
            }
        }
    }
}
