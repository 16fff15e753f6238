//! The command `info`: what the header of a tile store tells.

ghost use Rattle.std.specs.Prelude.{◌≡◌, true, IfSome, map, option_map};
ghost use Rattle.clap.specs.Words.{rows_of, found_of};
ghost use Rattle.vt_command_words.specs.Arguments.{rule_for, are_simple};
ghost use Rattle.vt_store_commands.specs.commands.{InfoCommand, shown_store, IsLawfulStore};
ghost use Rattle.vt_store_commands.specs.commands.Info.{info_rules, info_values, shown_info, info_task};
ghost use Rattle.vt_outside.specs.Effects.{call_effect};
ghost use Rattle.vt_command_inputs.specs.CommandSpecs.{EndsAs};

use crate::commands::StoreCommand;
use clap::ArgMatches;
use vt_command_inputs::{Refusal, put_store_line, read_store_header};
use vt_command_words::arguments::{Argument, text};
use vt_outside::{Folder, Sink};

/// The word of `info`.
#[derive(Clone, Copy)]
pub struct InfoWords<'a> {
    /// The store's name.
    pub store: &'a str,
}

/// The arguments of `info`.
#[tactic(auto, unfolding(crate::specs::commands::Info::info_rules))]
pub fn info_rows<'a>() -> &'a [Argument<'a>]
    ensures rules { map rule_for result.now ≡ info_rules }
    ensures simple { are_simple info_rules ≡ true }
{
    &[Argument::Word("store")]
}

/// What the values of its arguments ask for.
pub fn info_values<'a>(matches: &ArgMatches<'a>) -> Option<StoreCommand<'a>>
    ensures read { option_map shown_store result ≡ option_map InfoCommand (info_values (rows_of (found_of matches.now))) }
    ensures lawful { IfSome result IsLawfulStore }
{
    let store = text(matches, "store")?;
    Some(StoreCommand::Info(InfoWords { store }))
}

/// Opens the store and puts its line.
pub fn info<'a, D: Folder, O: Sink>(
    words: &InfoWords<'a>,
    folder: &mut D,
    out: &mut O,
) -> Result<(), Refusal<'a>>
    ensures { EndsAs (info_task (shown_info words.now)) (call_effect D.Folder O.Sink folder.old folder.new out.old out.new) result }
{
    let header = read_store_header(folder, words.store)?;
    put_store_line(out, &header.geometry, header.depth)?;
    Ok(())
}
