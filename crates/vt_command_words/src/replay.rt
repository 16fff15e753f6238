//! The words of `replay`.

ghost use Rattle.std.specs.Prelude.{◌≡◌, true, IfSome, map, option_map};
ghost use Rattle.clap.specs.Words.{rows_of, found_of};
ghost use Rattle.vt_command_words.specs.Arguments.{rule_for, are_simple};
ghost use Rattle.vt_command_words.specs.Commands.{ReplayCommand, shown_walking, IsLawfulWalking};
ghost use Rattle.vt_command_words.specs.Replay.{replay_rules, replay_values};

use crate::arguments::{Argument, text};
use crate::clashes::names_clash;
use crate::command::WalkingCommand;
use crate::filters::{Filtering, filter_of};
use clap::ArgMatches;

/// The words of `replay`. Neither the store's name nor the path's nor the journal's is that of a picture, and the journal's is
/// neither the store's nor the path's.
#[derive(Clone, Copy)]
pub struct ReplayWords<'a> {
    /// The store's name.
    pub store: &'a str,
    /// The path's name.
    pub path: &'a str,
    /// The journal's name.
    pub journal: &'a str,
    /// What the pictures' names begin with.
    pub prefix: &'a str,
    /// How the pixels are made of texels; the journal does not tell by which filter its walk has drawn.
    pub filter: Filtering,
}

/// The arguments of `replay`.
#[tactic(auto, unfolding(crate::specs::Replay::replay_rules))]
pub fn replay_rows<'a>() -> &'a [Argument<'a>]
    ensures rules { map rule_for result.now ≡ replay_rules }
    ensures simple { are_simple replay_rules ≡ true }
{
    &[
        Argument::Word("store"),
        Argument::Word("path"),
        Argument::Word("journal"),
        Argument::Word("prefix"),
        Argument::Option("filter", "nearest"),
    ]
}

/// What the values of its arguments ask for.
pub fn replay_values<'a>(matches: &ArgMatches<'a>) -> Option<WalkingCommand<'a>>
    ensures read { option_map shown_walking result ≡ option_map ReplayCommand (replay_values (rows_of (found_of matches.now))) }
    ensures lawful { IfSome result IsLawfulWalking }
{
    let store = text(matches, "store")?;
    let path = text(matches, "path")?;
    let journal = text(matches, "journal")?;
    let prefix = text(matches, "prefix")?;
    let filter = filter_of(matches)?;
    if names_clash(store, path, journal, prefix) {
        return None;
    }
    Some(WalkingCommand::Replay(ReplayWords {
        store,
        path,
        journal,
        prefix,
        filter,
    }))
}
