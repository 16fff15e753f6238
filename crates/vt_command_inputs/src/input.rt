//! Reading what the commands work on. Each reader opens a name, reads its file and closes it.

ghost use Rattle.std.specs.Prelude.{◌≡◌, ℕ, ◌≤◌, ◌++◌, true, Ok, OnOk, IfOk, IfErr, IfSome, IsErrOf, option_map};
ghost use Rattle.vt_ppm.specs.Depths.{IsDepth};
ghost use Rattle.vt_outside.specs.Counts.{Rose};
ghost use Rattle.vt_pages.specs.Limits.{most_read_side, most_tiled_side};
ghost use Rattle.vt_ppm.specs.Flaws.{AreImageSides};
ghost use Rattle.vt_ppm.specs.Reads.{AreImagePlaces};
ghost use Rattle.vt_ppm.specs.Strips.{IsTextureHeader, IsTextureIfKnown};
ghost use Rattle.vt_tiles.specs.StoreViews.{IsStoreIfKnown};
ghost use Rattle.vt_outside.specs.Effects.{folder_effect};
ghost use Rattle.vt_command_inputs.specs.Inputs.{Input, PathInput, TextureInput, TiledTexture, StoreInput, JournalInput, PathContent, TextureContent, StoreContent, TextContent};
ghost use Rattle.vt_command_inputs.specs.Inputs.{name_of, AsksWhole, MayAskHeader, AsksStrips, IsTextureUpTo, header_places};
ghost use Rattle.vt_command_inputs.specs.Reads.{file_state, visit, Opened, Refused, Visits, IsCausedIn, FindsIn, Finds, Reads, OpensStore, OpensTexture};
ghost use Rattle.vt_command_inputs.specs.Reads.{LooksOver, MayLookOver, SeesTexture};

use crate::flaws::{flaw_of_path, flaw_of_store, flaw_of_texture};
use crate::refusal::{Refusal, refusal_of};
use std::alloc::Global;
use std::thread::Threads;
use vt_camera::{Path, parse_path};
use vt_outside::{File, Folder, OutsideError};
use vt_pages::Geometry;
use vt_ppm::{Image, MOST_READ_SIDE, MOST_TILED_SIDE, StripReader, read_image};
use vt_tiles::Store;

/// Opens a name. Whatever is to be read of it, a refusal is that of the input.
pub fn open_input<'a, D: Folder>(folder: &mut D, name: &'a str) -> Result<D::File, Refusal<'a>>
    ensures opened { IfOk result (λ file. Opened name.now (folder_effect D.Folder folder.old folder.new) (file_state D.File.File file)) }
    ensures refused { (input : Input) → name_of input ≡ name.now
        → IfErr result (λ refusal. Refused input refusal (folder_effect D.Folder folder.old folder.new)) }
{
    Ok(folder.open(name)?)
}

/// Reads the path of a name.
pub fn read_path<'a, D: Folder>(
    alloc: Global,
    folder: &mut D,
    name: &'a str,
) -> Result<Path, Refusal<'a>>
    ensures { Reads (PathInput name.now) PathContent (folder_effect D.Folder folder.old folder.new) result }
{
    let mut file = open_input(folder, name)?;
    let path = path_in(alloc, name, &mut file);
    folder.close(file);
    path
}

// The path in an open file.
fn path_in<'a, F: File>(alloc: Global, name: &'a str, file: &mut F) -> Result<Path, Refusal<'a>>
    ensures finds { Finds (PathInput name.now) PathContent (visit F.File file.old file.new) result }
    ensures visits { Visits AsksWhole (visit F.File file.old file.new) }
{
    match read_whole(alloc, file) {
        Ok(text) => path_of(alloc, name, &text),
        Err(error) => Err(Refusal::from(error)),
    }
}

// Reads all bytes of a file, by one read.
fn read_whole<F: File>(alloc: Global, file: &mut F) -> Result<Vec<u8>, OutsideError>
    ensures bytes { IfOk result (λ text. IfSome (F.bytes file.old) (λ b. text.items ≡ b)) }
    ensures failed { IsErrOf result OutsideError.Failed → Rose (F.faults file.old) (F.faults file.new) }
    ensures visits { Visits AsksWhole (visit F.File file.old file.new) }
{
    let length = file.length()?;
    file.reserve(1)?;
    let mut text = vec![in alloc; 0u8; length as usize]?;
    file.read_at(0, &mut text)?;
    Ok(text)
}

// The path that a text spells.
fn path_of<'a>(alloc: Global, name: &'a str, text: &[u8]) -> Result<Path, Refusal<'a>>
    ensures { FindsIn (PathInput name.now) PathContent text.now result }
{
    match parse_path(alloc, text) {
        Ok(path) => Ok(path),
        Err(error) => Err(refusal_of(name, flaw_of_path(error))),
    }
}

/// Reads the texture of a name.
pub fn read_texture<'a, Rt: Threads + Sync, D: Folder>(
    rt: &Rt,
    alloc: Global,
    folder: &mut D,
    name: &'a str,
) -> Result<Image, Refusal<'a>>
    ensures { Reads (TextureInput name.now) TextureContent (folder_effect D.Folder folder.old folder.new) result }
{
    let mut file = open_input(folder, name)?;
    let texture = texture_in(rt, alloc, name, &mut file);
    folder.close(file);
    texture
}

// The texture in an open file.
fn texture_in<'a, Rt: Threads + Sync, F: File>(
    rt: &Rt,
    alloc: Global,
    name: &'a str,
    file: &mut F,
) -> Result<Image, Refusal<'a>>
    ensures finds { Finds (TextureInput name.now) TextureContent (visit F.File file.old file.new) result }
    ensures visits { Visits AreImagePlaces (visit F.File file.old file.new) }
{
    match read_image(rt, alloc, file) {
        Ok(texture) => Ok(texture),
        Err(error) => Err(refusal_of(name, flaw_of_texture(error))),
    }
}

/// Opens the texture of a name that is to be cut into tiles, and looks its samples over. Its file is left open.
pub fn open_texture<'a, D: Folder>(
    alloc: Global,
    folder: &mut D,
    name: &'a str,
) -> Result<StripReader<D::File>, Refusal<'a>>
    ensures opens { IfOk result (λ reader. OpensTexture name.now reader.header (file_state D.File.File reader.file)
        (folder_effect D.Folder folder.old folder.new)) }
    ensures checked { IfOk result (λ reader. reader.checked ≡ true) }
    ensures refused { (tile : ℕ) → IfErr result (λ refusal. Refused (TiledTexture name.now tile) refusal (folder_effect D.Folder folder.old folder.new)) }
{
    open_up_to(alloc, folder, name, MOST_TILED_SIDE)
}

/// Opens the texture of a name that is not cut into tiles, to read it by strips, and looks its samples over. Its file is left open.
pub fn open_image<'a, D: Folder>(
    alloc: Global,
    folder: &mut D,
    name: &'a str,
) -> Result<StripReader<D::File>, Refusal<'a>>
    ensures opens { IfOk result (λ reader. OpensTexture name.now reader.header (file_state D.File.File reader.file)
        (folder_effect D.Folder folder.old folder.new)) }
    ensures checked { IfOk result (λ reader. reader.checked ≡ true) }
    ensures sides { IfOk result (λ reader. AreImageSides most_read_side reader.header.width reader.header.height) }
    ensures refused { IfErr result (λ refusal. Refused (TextureInput name.now) refusal (folder_effect D.Folder folder.old folder.new)) }
{
    open_up_to(alloc, folder, name, MOST_READ_SIDE)
}

// Opens the texture of a name whose sides are at most `most`, and looks its samples over. Its file is left open.
fn open_up_to<'a, D: Folder>(
    alloc: Global,
    folder: &mut D,
    name: &'a str,
    most: u32,
) -> Result<StripReader<D::File>, Refusal<'a>>
    requires { most ≤ most_tiled_side }
    ensures opens { IfOk result (λ reader. OpensTexture name.now reader.header (file_state D.File.File reader.file)
        (folder_effect D.Folder folder.old folder.new)) }
    ensures checked { IfOk result (λ reader. reader.checked ≡ true) }
    ensures sides { IfOk result (λ reader. AreImageSides most reader.header.width reader.header.height) }
    ensures refused { (input : Input) → IsTextureUpTo name.now most input
        → IfErr result (λ refusal. Refused input refusal (folder_effect D.Folder folder.old folder.new)) }
{
    let file = open_input(folder, name)?;
    match reader_in(alloc, name, file, most) {
        Ok(reader) => Ok(reader),
        Err((file, refusal)) => {
            folder.close(file);
            Err(refusal)
        }
    }
}

// The texture in an open file, whose samples were looked over, and whose sides are at most `most`. A refusal hands the file back.
fn reader_in<F: File>(
    alloc: Global,
    name: &str,
    file: F,
    most: u32,
) -> Result<StripReader<F>, (F, Refusal<'_>)>
    requires { most ≤ most_tiled_side }
    ensures is { IfOk result (λ reader. IsTextureIfKnown (F.bytes file) reader.header) }
    ensures limits { IfOk result (λ reader. IsTextureHeader reader.header) }
    ensures sides { IfOk result (λ reader. AreImageSides most reader.header.width reader.header.height) }
    ensures checked { IfOk result (λ reader. reader.checked ≡ true) }
    ensures seen { IfOk result (λ reader. SeesTexture (F.bytes file) reader.header (Ok tt) (F.asked file) (F.asked reader.file)) }
    ensures bytes { IfOk result (λ reader. F.bytes reader.file ≡ F.bytes file) }
    ensures name { IfOk result (λ reader. F.name reader.file ≡ F.name file) }
    ensures caused { (input : Input) → IsTextureUpTo name.now most input → IfErr result (λ e. IsCausedIn input (visit F.File file e.0) e.1) }
    ensures tried { (tile : ℕ) → IfErr result (λ e. Visits (AsksStrips tile) (visit F.File file e.0)) }
{
    match StripReader::open_within(alloc, file, most) {
        Ok(mut reader) => match look_over(name, &mut reader) {
            Ok(()) => Ok(reader),
            Err(refusal) => Err((reader.into_file(), refusal)),
        },
        Err((file, error)) => Err((file, refusal_of(name, flaw_of_texture(error)))),
    }
}

// Looks the samples of a texture over.
fn look_over<'a, F: File>(name: &'a str, reader: &mut StripReader<F>) -> Result<(), Refusal<'a>>
    ensures is { OnOk result (IsTextureIfKnown (F.bytes reader.old.file) reader.old.header) }
    ensures checked { OnOk result (reader.new.checked ≡ true) }
    ensures seen { OnOk result (LooksOver reader.old.header (Ok tt) (F.asked reader.old.file) (F.asked reader.new.file)) }
    ensures tried { MayLookOver reader.old.header (F.asked reader.old.file) (F.asked reader.new.file) }
    ensures caused { (input : Input) (most : ℕ) → AreImageSides most reader.old.header.width reader.old.header.height
        → IsTextureUpTo name.now most input → IfErr result (IsCausedIn input (visit F.File reader.old.file reader.new.file)) }
    ensures bytes { F.bytes reader.new.file ≡ F.bytes reader.old.file }
    ensures name { F.name reader.new.file ≡ F.name reader.old.file }
    ensures faults { F.faults reader.old.file ≤ F.faults reader.new.file }
    ensures header { reader.new.header ≡ reader.old.header }
{
    let rows = reader.header().height as u64;
    reader.reserve(rows)?;
    match reader.check() {
        Ok(()) => Ok(()),
        Err(error) => Err(refusal_of(name, flaw_of_texture(error))),
    }
}

/// What the header of a store tells: how its texture is cut into pages, and how many bytes a sample has.
#[derive(Clone, Copy)]
pub struct StoreHeader {
    pub geometry: Geometry,
    pub depth: u32,
}

/// Opens the store of a name for its header alone.
pub fn read_store_header<'a, D: Folder>(
    folder: &mut D,
    name: &'a str,
) -> Result<StoreHeader, Refusal<'a>>
    ensures header { Reads (StoreInput name.now) (λ header. StoreContent header.geometry header.depth)
        (folder_effect D.Folder folder.old folder.new) result }
    ensures depth { IfOk result (λ header. IsDepth header.depth) }
{
    let store = open_store(folder, name)?;
    let header = StoreHeader {
        geometry: store.geometry(),
        depth: store.depth(),
    };
    folder.close(store.into_file());
    Ok(header)
}

/// Opens the store of a name, and leaves its file open.
pub fn open_store<'a, D: Folder>(
    folder: &mut D,
    name: &'a str,
) -> Result<Store<D::File>, Refusal<'a>>
    ensures opens { IfOk result (λ store. OpensStore name.now store.shape store.depth (file_state D.File.File store.file)
        (folder_effect D.Folder folder.old folder.new)) }
    ensures depth { IfOk result (λ store. IsDepth store.depth) }
    ensures refused { IfErr result (λ refusal. Refused (StoreInput name.now) refusal (folder_effect D.Folder folder.old folder.new)) }
{
    let file = open_input(folder, name)?;
    match store_in(name, file) {
        Ok(store) => Ok(store),
        Err((file, refusal)) => {
            folder.close(file);
            Err(refusal)
        }
    }
}

// The store in an open file. A refusal hands the file back.
fn store_in<F: File>(name: &str, file: F) -> Result<Store<F>, (F, Refusal<'_>)>
    ensures is { IfOk result (λ store. IsStoreIfKnown (F.bytes file) store.shape store.depth) }
    ensures depth { IfOk result (λ store. IsDepth store.depth) }
    ensures caused { IfErr result (λ e. IsCausedIn (StoreInput name.now) (visit F.File file e.0) e.1) }
    ensures visits { IfOk result (λ store. Visits MayAskHeader (visit F.File file store.file)) }
    ensures read { IfOk result (λ store. F.asked store.file ≡ option_map (λ old. old ++ header_places) (F.asked file)) }
    ensures tried { IfErr result (λ e. Visits MayAskHeader (visit F.File file e.0)) }
{
    match Store::open(file) {
        Ok(store) => Ok(store),
        Err((file, error)) => Err((file, refusal_of(name, flaw_of_store(error)))),
    }
}

/// Reads the text of a journal, which may be any bytes.
pub fn read_journal<'a, D: Folder>(
    alloc: Global,
    folder: &mut D,
    name: &'a str,
) -> Result<Vec<u8>, Refusal<'a>>
    ensures { Reads (JournalInput name.now) (λ text. TextContent text.items) (folder_effect D.Folder folder.old folder.new) result }
{
    let mut file = open_input(folder, name)?;
    let text = read_whole(alloc, &mut file);
    folder.close(file);
    Ok(text?)
}
