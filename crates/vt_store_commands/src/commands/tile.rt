//! The command `tile`: the tile store of a texture's mip chain, of which the texture is read by strips.

ghost use Rattle.std.specs.Prelude.{◌≡◌, true, IfSome, map, option_map, None, IfOk, IfErr};
ghost use Rattle.clap.specs.Words.{rows_of, found_of};
ghost use Rattle.vt_command_words.specs.Arguments.{rule_for, are_simple};
ghost use Rattle.vt_store_commands.specs.commands.{TileCommand, shown_store, IsLawfulStore};
ghost use Rattle.vt_store_commands.specs.commands.Tile.{tile_rules, tile_values, shown_tile, tile_task, made_store, flaw_of_pages, IsTooMany};
ghost use Rattle.vt_definitions.specs.Tiles.{IsTileSide};
ghost use Rattle.vt_ppm.specs.Strips.{IsTextureHeader};
ghost use Rattle.vt_pages.specs.Shape.{shape_of};
ghost use Rattle.vt_pages.specs.Pages.{refusal_of};
ghost use Rattle.vt_store.specs.StripStores.{strip_shape};
ghost use Rattle.vt_outside.specs.Effects.{call_effect, folder_effect};
ghost use Rattle.vt_command_inputs.specs.Inputs.{TiledTexture, AreStrips};
ghost use Rattle.vt_command_inputs.specs.OpenWrites.{WritesMade};
ghost use Rattle.vt_command_inputs.specs.Reads.{file_state, OpensTexture, Refused};
ghost use Rattle.vt_command_inputs.specs.CommandSpecs.{EndsAs};

use crate::commands::StoreCommand;
use clap::ArgMatches;
use std::alloc::Global;
use std::thread::Threads;
use vt_command_inputs::{Flaw, Refusal, open_texture, outside_error, put_store_line};
use vt_command_words::arguments::{Argument, text};
use vt_command_words::numbers::side_of;
use vt_mip::StripChain;
use vt_outside::{Folder, OutsideError, Sink};
use vt_pages::{Geometry, PagesError};
use vt_ppm::{Header, StripReader};
use vt_store::write_strips;

/// The words of `tile`.
#[derive(Clone, Copy)]
pub struct TileWords<'a> {
    /// The texture's name.
    pub texture: &'a str,
    /// The store's name, which is another.
    pub store: &'a str,
    /// The tile side.
    pub tile: u32,
}

/// The arguments of `tile`.
#[tactic(auto, unfolding(crate::specs::commands::Tile::tile_rules))]
pub fn tile_rows<'a>() -> &'a [Argument<'a>]
    ensures rules { map rule_for result.now ≡ tile_rules }
    ensures simple { are_simple tile_rules ≡ true }
{
    &[
        Argument::Word("texture"),
        Argument::Word("store"),
        Argument::Option("tile", "64"),
    ]
}

/// What the values of its arguments ask for.
pub fn tile_values<'a>(matches: &ArgMatches<'a>) -> Option<StoreCommand<'a>>
    ensures read { option_map shown_store result ≡ option_map TileCommand (tile_values (rows_of (found_of matches.now))) }
    ensures lawful { IfSome result IsLawfulStore }
{
    let texture = text(matches, "texture")?;
    let store = text(matches, "store")?;
    let tile = side_of(matches, "tile")?;
    if store == texture {
        return None;
    }
    Some(StoreCommand::Tile(TileWords {
        texture,
        store,
        tile,
    }))
}

/// Opens the texture and looks its samples over, writes the store of its mip chain while it is read by strips, and puts the store's
/// line.
pub fn tile<'a, Rt: Threads + Sync, D: Folder, O: Sink>(
    rt: &Rt,
    alloc: Global,
    words: &TileWords<'a>,
    folder: &mut D,
    out: &mut O,
) -> Result<(), Refusal<'a>>
    requires { IsTileSide words.now.tile }
    ensures { EndsAs (tile_task (shown_tile words.now)) (call_effect D.Folder O.Sink folder.old folder.new out.old out.new) result }
{
    let (reader, geometry) = open_pages(alloc, words.texture, words.tile, folder)?;
    let depth = reader.depth();
    write_store(rt, alloc, reader, &geometry, words.store, folder)?;
    put_store_line(out, &geometry, depth)?;
    Ok(())
}

// Opens the texture of a name, which is to have few enough pages.
fn open_pages<'a, D: Folder>(
    alloc: Global,
    name: &'a str,
    tile: u32,
    folder: &mut D,
) -> Result<(StripReader<D::File>, Geometry), Refusal<'a>>
    requires { IsTileSide tile }
    ensures opens { IfOk result (λ o. OpensTexture name.now o.0.header (file_state D.File.File o.0.file) (folder_effect D.Folder folder.old folder.new)) }
    ensures checked { IfOk result (λ o. o.0.checked ≡ true) }
    ensures shape { IfOk result (λ o. o.1 ≡ shape_of o.0.header.width o.0.header.height tile) }
    ensures few { IfOk result (λ o. refusal_of (shape_of o.0.header.width o.0.header.height tile) ≡ None) }
    ensures refused { IfErr result (λ refusal. Refused (TiledTexture name.now tile) refusal (folder_effect D.Folder folder.old folder.new)) }
{
    let reader = open_texture(alloc, folder, name)?;
    match texture_geometry(reader.header(), name, tile) {
        Ok(geometry) => Ok((reader, geometry)),
        Err(refusal) => {
            folder.close(reader.into_file());
            Err(refusal)
        }
    }
}

// How the texture of a name is cut into pages.
fn texture_geometry<'a>(header: &Header, name: &'a str, tile: u32) -> Result<Geometry, Refusal<'a>>
    requires header { IsTextureHeader header.now }
    requires side { IsTileSide tile }
    ensures shape { IfOk result (λ geometry. geometry ≡ shape_of header.now.width header.now.height tile) }
    ensures few { IfOk result (λ _. refusal_of (shape_of header.now.width header.now.height tile) ≡ None) }
    ensures many { IfErr result (IsTooMany name.now (shape_of header.now.width header.now.height tile)) }
{
    match Geometry::new(header.width, header.height, tile) {
        Ok(geometry) => Ok(geometry),
        Err(error) => Err(Refusal::Flawed(name, flaw_of_pages(error))),
    }
}

// The flaw of a texture whose pages are refused. With lawful sides it is that they are too many.
fn flaw_of_pages(error: PagesError) -> Flaw
    ensures { result ≡ flaw_of_pages error }
{
    match error {
        PagesError::TooManyPages { pages } => Flaw::TooManyPages(pages),
        PagesError::BadTile => Flaw::BadSize,
        PagesError::BadSide => Flaw::BadSize,
    }
}

// Makes the name hold the store of the texture's mip chain, and closes the texture's file.
fn write_store<Rt: Threads + Sync, D: Folder>(
    rt: &Rt,
    alloc: Global,
    reader: StripReader<D::File>,
    geometry: &Geometry,
    name: &str,
    folder: &mut D,
) -> Result<(), OutsideError>
    requires checked { reader.checked ≡ true }
    requires shape { geometry.now ≡ shape_of reader.header.width reader.header.height geometry.now.tile }
    requires side { IsTileSide geometry.now.tile }
    ensures { WritesMade (file_state D.File.File reader.file) (made_store reader.header geometry.now.tile)
        (AreStrips reader.header geometry.now.tile) name.now (folder_effect D.Folder folder.old folder.new) result }
{
    match StripChain::new(alloc, reader, geometry.tile()) {
        Ok(chain) => write_chain(rt, alloc, chain, geometry, name, folder),
        Err((file, _)) => {
            folder.close(file);
            Err(OutsideError::NoMemory)
        }
    }
}

// Makes the name hold the store of a chain, and closes its file.
fn write_chain<Rt: Threads + Sync, D: Folder>(
    rt: &Rt,
    alloc: Global,
    mut chain: StripChain<D::File>,
    geometry: &Geometry,
    name: &str,
    folder: &mut D,
) -> Result<(), OutsideError>
    requires { strip_shape chain ≡ geometry.now }
    ensures { WritesMade (file_state D.File.File chain.file) (made_store chain.header geometry.now.tile)
        (AreStrips chain.header geometry.now.tile) name.now (folder_effect D.Folder folder.old folder.new) result }
{
    let written = write_strips(rt, alloc, &mut chain, geometry, folder, name);
    folder.close(chain.into_file());
    match written {
        Ok(()) => Ok(()),
        Err(error) => Err(outside_error(error)),
    }
}
