//! The commands that neither walk nor replay: a file each, with its words and what it does. A command is a line here in each list.

ghost use Rattle.std.specs.Prelude.{◌≡◌, true, IfSome, map, option_map};
ghost use Rattle.clap.specs.Words.{rows_of, found_of};
ghost use Rattle.vt_command_words.specs.Arguments.{rule_for, are_simple, texts};
ghost use Rattle.vt_command_words.specs.Reading.{IsReadAnswer};
ghost use Rattle.vt_outside.specs.Effects.{call_effect};
ghost use Rattle.vt_command_inputs.specs.CommandSpecs.{EndsBy};
ghost use Rattle.vt_store_commands.specs.commands.{usage_line, kind_of, rules_of, values_for, store_text, shown_store, IsLawfulStore, store_spec};

pub mod generate;
pub mod info;
pub mod plain;
pub mod tile;
pub mod upgrade;

use crate::commands::generate::{GenWords, gen_rows, gen_values, generate};
use crate::commands::info::{InfoWords, info, info_rows, info_values};
use crate::commands::plain::{PlainWords, plain, plain_rows, plain_values};
use crate::commands::tile::{TileWords, tile, tile_rows, tile_values};
use crate::commands::upgrade::{UpgradeWords, upgrade, upgrade_rows, upgrade_values};
use clap::ArgMatches;
use std::alloc::Global;
use std::thread::Threads;
use vt_command_inputs::Refusal;
use vt_command_words::WordsError;
use vt_command_words::arguments::{Argument, find};
use vt_outside::{Folder, Sink};

/// The line that names all commands, for words that are none of theirs.
pub fn usage_line() -> &'static [u8]
    ensures { result.now ≡ usage_line }
{
    b"vtex: usage: vtex COMMAND ARGUMENTS (plain, tile, info, walk, replay, gen, trial, upgrade)\n"
}

/// A command that neither walks nor replays, and its words.
#[derive(Clone, Copy)]
pub enum StoreCommand<'a> {
    /// Draws plain pictures of a texture.
    Plain(PlainWords<'a>),
    /// Writes the tile store of a texture.
    Tile(TileWords<'a>),
    /// Tells what a tile store holds.
    Info(InfoWords<'a>),
    /// Writes a texture that is made from a number.
    Gen(GenWords<'a>),
    /// Writes the tile store of two-byte samples that one of one-byte samples makes.
    Upgrade(UpgradeWords<'a>),
}

// Which of these commands.
#[derive(Clone, Copy)]
pub enum StoreKind {
    Plain,
    Tile,
    Info,
    Gen,
    Upgrade,
}

/// Reads the words of the command of this name that neither walks nor replays, of which the name is the first.
///
/// `Usage` comes only where they are no such command's. Where they are, the answer may still be `NoMemory`.
pub fn read_store_command<'a>(
    alloc: Global,
    name: &'a str,
    words: &'a [String],
) -> Result<StoreCommand<'a>, WordsError>
    ensures { IsReadAnswer shown_store IsLawfulStore (store_text name.entry.now (texts words.entry.now)) result }
{
    let Some(kind) = kind_of(name) else {
        return Err(WordsError::Usage);
    };
    let matches = find(alloc, name, rows_of(kind), words)?;
    values_of(kind, &matches).ok_or(WordsError::Usage)
}

// The kind of the command of this name, if there is one.
fn kind_of(name: &str) -> Option<StoreKind>
    ensures { result ≡ kind_of name.now }
{
    if name == "plain" {
        return Some(StoreKind::Plain);
    }
    if name == "tile" {
        return Some(StoreKind::Tile);
    }
    if name == "info" {
        return Some(StoreKind::Info);
    }
    if name == "gen" {
        return Some(StoreKind::Gen);
    }
    if name == "upgrade" {
        return Some(StoreKind::Upgrade);
    }
    None
}

// The arguments of a command.
fn rows_of<'a>(kind: StoreKind) -> &'a [Argument<'a>]
    ensures rules { map rule_for result.now ≡ rules_of kind }
    ensures simple { are_simple (rules_of kind) ≡ true }
{
    match kind {
        StoreKind::Plain => plain_rows(),
        StoreKind::Tile => tile_rows(),
        StoreKind::Info => info_rows(),
        StoreKind::Gen => gen_rows(),
        StoreKind::Upgrade => upgrade_rows(),
    }
}

// What the values of its arguments ask for.
fn values_of<'a>(kind: StoreKind, matches: &ArgMatches<'a>) -> Option<StoreCommand<'a>>
    ensures read { option_map shown_store result ≡ values_for kind (rows_of (found_of matches.now)) }
    ensures lawful { IfSome result IsLawfulStore }
{
    match kind {
        StoreKind::Plain => plain_values(matches),
        StoreKind::Tile => tile_values(matches),
        StoreKind::Info => info_values(matches),
        StoreKind::Gen => gen_values(matches),
        StoreKind::Upgrade => upgrade_values(matches),
    }
}

/// Does a command.
pub fn perform_store_command<'a, Rt: Threads + Sync, D: Folder, O: Sink>(
    rt: &Rt,
    alloc: Global,
    command: &StoreCommand<'a>,
    folder: &mut D,
    out: &mut O,
) -> Result<(), Refusal<'a>>
    requires { IsLawfulStore command.now }
    ensures { EndsBy (store_spec (shown_store command.now)) (call_effect D.Folder O.Sink folder.old folder.new out.old out.new) result }
{
    match command {
        StoreCommand::Plain(words) => plain(rt, alloc, words, folder, out),
        StoreCommand::Tile(words) => tile(rt, alloc, words, folder, out),
        StoreCommand::Info(words) => info(words, folder, out),
        StoreCommand::Gen(words) => generate(alloc, words, folder),
        StoreCommand::Upgrade(words) => upgrade(rt, alloc, words, folder, out),
    }
}
