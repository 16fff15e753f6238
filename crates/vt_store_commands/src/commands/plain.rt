//! The command `plain`: the plain picture of each camera of a path over a texture.

ghost use Rattle.std.specs.Prelude.{◌≡◌, true, IfSome, map, option_map, length};
ghost use Rattle.clap.specs.Words.{rows_of, found_of};
ghost use Rattle.vt_command_words.specs.Arguments.{rule_for, are_simple};
ghost use Rattle.vt_store_commands.specs.commands.{PlainCommand, shown_store, IsLawfulStore};
ghost use Rattle.vt_store_commands.specs.commands.Plain.{plain_rules, plain_clash, plain_values, shown_plain, plain_task};
ghost use Rattle.vt_definitions.specs.Tiles.{IsTileSide};
ghost use Rattle.vt_outside.specs.Effects.{call_effect, folder_effect};
ghost use Rattle.vt_store_commands.specs.PlainFiles.{AreLevelsWanted, file_with};
ghost use Rattle.vt_store_commands.specs.SeenTextures.{IsEnough, seen_path};
ghost use Rattle.vt_outside.specs.Expectations.{Leaves, Writes};
ghost use Rattle.vt_command_inputs.specs.CommandSpecs.{EndsAs};
ghost use Rattle.vt_pictures.specs.Pictures.{expected_pictures};

use crate::commands::StoreCommand;
use crate::plain_files::PlainPictures;
use crate::plain_groups::write_pictures;
use crate::seen_textures::{Seen, read_seen};
use clap::ArgMatches;
use std::alloc::Global;
use std::thread::Threads;
use vt_camera::{Path, Surface};
use vt_command_inputs::{Refusal, put_end, read_path};
use vt_command_words::Filtering;
use vt_command_words::arguments::{Argument, text};
use vt_command_words::filters::filter_of;
use vt_command_words::numbers::side_of;
use vt_mip::Chain;
use vt_outside::{Folder, OutsideError, Sink};
use vt_pictures::is_picture_name;
use vt_plain::Levels;
use vt_ppm::begin_picture;

/// The words of `plain`.
#[derive(Clone, Copy)]
pub struct PlainWords<'a> {
    /// The texture's name.
    pub texture: &'a str,
    /// The path's name.
    pub path: &'a str,
    /// What the pictures' names begin with; neither the texture's name nor the path's is that of a picture.
    pub prefix: &'a str,
    /// The tile side.
    pub tile: u32,
    /// How the pixels are made of texels.
    pub filter: Filtering,
}

/// The arguments of `plain`.
#[tactic(auto, unfolding(crate::specs::commands::Plain::plain_rules))]
pub fn plain_rows<'a>() -> &'a [Argument<'a>]
    ensures rules { map rule_for result.now ≡ plain_rules }
    ensures simple { are_simple plain_rules ≡ true }
{
    &[
        Argument::Word("texture"),
        Argument::Word("path"),
        Argument::Word("prefix"),
        Argument::Option("tile", "64"),
        Argument::Option("filter", "nearest"),
    ]
}

/// What the values of its arguments ask for.
pub fn plain_values<'a>(matches: &ArgMatches<'a>) -> Option<StoreCommand<'a>>
    ensures read { option_map shown_store result ≡ option_map PlainCommand (plain_values (rows_of (found_of matches.now))) }
    ensures lawful { IfSome result IsLawfulStore }
{
    let texture = text(matches, "texture")?;
    let path = text(matches, "path")?;
    let prefix = text(matches, "prefix")?;
    let tile = side_of(matches, "tile")?;
    let filter = filter_of(matches)?;
    if plain_clash(texture, path, prefix) {
        return None;
    }
    Some(StoreCommand::Plain(PlainWords {
        texture,
        path,
        prefix,
        tile,
        filter,
    }))
}

fn plain_clash(texture: &str, path: &str, prefix: &str) -> bool
    ensures { result ≡ plain_clash texture.now path.now prefix.now }
{
    is_picture_name(prefix, texture) || is_picture_name(prefix, path)
}

/// Reads the path and then the texture, writes the plain picture of each camera under its name, and puts the end line.
pub fn plain<'a, Rt: Threads + Sync, D: Folder, O: Sink>(
    rt: &Rt,
    alloc: Global,
    words: &PlainWords<'a>,
    folder: &mut D,
    out: &mut O,
) -> Result<(), Refusal<'a>>
    requires { IsTileSide words.now.tile }
    ensures { EndsAs (plain_task (shown_plain words.now)) (call_effect D.Folder O.Sink folder.old folder.new out.old out.new) result }
{
    let path = read_path(alloc, folder, words.path)?;
    let seen = read_seen(
        rt,
        alloc,
        folder,
        words.texture,
        words.filter,
        words.tile,
        &path,
    )?;
    leave_pictures(rt, alloc, seen, &path, words, folder, out)?;
    Ok(())
}

// Writes all pictures of a path over what is there of a texture, and puts the end line.
fn leave_pictures<Rt: Threads + Sync, D: Folder, O: Sink>(
    rt: &Rt,
    alloc: Global,
    seen: Seen,
    path: &Path,
    words: &PlainWords<'_>,
    folder: &mut D,
    out: &mut O,
) -> Result<(), OutsideError>
    requires tile { IsTileSide words.now.tile }
    requires enough { IsEnough seen words.now.tile path.now }
    ensures { Leaves (seen_path words.now.prefix.now words.now.filter seen words.now.tile path.now)
        (call_effect D.Folder O.Sink folder.old folder.new out.old out.new) result }
{
    let Seen {
        image,
        width,
        height,
        skipped,
    } = seen;
    let chain = Chain::build(rt, alloc, image, words.tile)?;
    let levels = Levels {
        chain: &chain,
        skipped,
        surface: Surface {
            width,
            height,
            levels: chain.levels() + skipped,
        },
    };
    write_all(rt, alloc, &levels, path, words, folder)?;
    put_end(out, path.pictures())
}

// Writes all pictures of the path, in the order of their numbers.
fn write_all<Rt: Threads + Sync, D: Folder>(
    rt: &Rt,
    alloc: Global,
    levels: &Levels<'_>,
    path: &Path,
    words: &PlainWords<'_>,
    folder: &mut D,
) -> Result<(), OutsideError>
    requires { AreLevelsWanted levels.now path.now }
    ensures { Writes (expected_pictures words.now.prefix.now
        (file_with words.now.filter levels.now path.now) (length path.now.cameras))
        (folder_effect D.Folder folder.old folder.new) result }
{
    let mut header = Vec::new(alloc);
    begin_picture(
        &mut header,
        alloc,
        levels.chain.depth(),
        path.width(),
        path.height(),
    )?;
    let pictures = PlainPictures {
        levels: *levels,
        path,
        filter: words.filter,
        header: header.as_slice(),
    };
    write_pictures(rt, alloc, &pictures, words.prefix, folder)
}
