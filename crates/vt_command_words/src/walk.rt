//! The words of `walk`.

ghost use Rattle.std.specs.Prelude.{◌≡◌, true, IfSome, map, option_map};
ghost use Rattle.clap.specs.Words.{rows_of, found_of};
ghost use Rattle.vt_command_words.specs.Arguments.{rule_for, are_simple};
ghost use Rattle.vt_command_words.specs.Commands.{WalkCommand, shown_walking, IsLawfulWalking};
ghost use Rattle.vt_command_words.specs.Walk.{walk_rules, walk_values};

use crate::arguments::{Argument, is_set, text};
use crate::clashes::names_clash;
use crate::command::WalkingCommand;
use crate::machines::{MachineChoice, machine_of};
use crate::numbers::number_of;
use clap::ArgMatches;

// The largest number of frames.
const MOST_FRAMES: u32 = 65535;

// The largest number of samplers.
const MOST_SAMPLERS: u32 = 64;

// The largest number of loaders.
const MOST_LOADERS: u32 = 16;

// The largest number of entries of a batch.
const MOST_ENTRIES: u32 = 4096;

// How many levels may be asked to be pinned at most.
const MOST_PINNED_LEVELS: u32 = 16;

/// The words of `walk`. Neither the store's name nor the path's nor the journal's is that of a picture, and the journal's is
/// neither the store's nor the path's.
#[derive(Clone, Copy)]
pub struct WalkWords<'a> {
    /// The store's name.
    pub store: &'a str,
    /// The path's name.
    pub path: &'a str,
    /// What the pictures' names begin with.
    pub prefix: &'a str,
    /// The number of frames, from 1 to 65,535.
    pub frames: u32,
    /// The number of samplers, from 1 to 64.
    pub samplers: u32,
    /// The number of loaders, from 1 to 16.
    pub loaders: u32,
    /// How many tiles a pass loads at most, from 1 to 4,096.
    pub batch: u32,
    /// How many levels, from the coarsest on, are always mapped, from 1 to 16; more than there are are all.
    pub pinned: u32,
    /// The journal's name.
    pub journal: &'a str,
    /// By which machine it draws.
    pub machine: MachineChoice,
    /// Whether a picture is drawn until nothing is missing.
    pub settled: bool,
}

/// The arguments of `walk`.
#[tactic(auto, unfolding(crate::specs::Walk::walk_rules))]
pub fn walk_rows<'a>() -> &'a [Argument<'a>]
    ensures rules { map rule_for result.now ≡ walk_rules }
    ensures simple { are_simple walk_rules ≡ true }
{
    &[
        Argument::Word("store"),
        Argument::Word("path"),
        Argument::Word("prefix"),
        Argument::Option("frames", "64"),
        Argument::Option("samplers", "4"),
        Argument::Option("loaders", "3"),
        Argument::Option("batch", "64"),
        Argument::Option("pinned", "1"),
        Argument::Option("journal", "journal.txt"),
        Argument::Option("table", "words"),
        Argument::Option("rows", "dealt"),
        Argument::Option("filter", "nearest"),
        Argument::Flag("settled"),
    ]
}

/// What the values of its arguments ask for.
pub fn walk_values<'a>(matches: &ArgMatches<'a>) -> Option<WalkingCommand<'a>>
    ensures read { option_map shown_walking result ≡ option_map WalkCommand (walk_values (rows_of (found_of matches.now))) }
    ensures lawful { IfSome result IsLawfulWalking }
{
    let store = text(matches, "store")?;
    let path = text(matches, "path")?;
    let prefix = text(matches, "prefix")?;
    let frames = number_of(matches, "frames", 1, MOST_FRAMES)?;
    let samplers = number_of(matches, "samplers", 1, MOST_SAMPLERS)?;
    let loaders = number_of(matches, "loaders", 1, MOST_LOADERS)?;
    let batch = number_of(matches, "batch", 1, MOST_ENTRIES)?;
    let pinned = number_of(matches, "pinned", 1, MOST_PINNED_LEVELS)?;
    let journal = text(matches, "journal")?;
    let machine = machine_of(matches)?;
    if names_clash(store, path, journal, prefix) {
        return None;
    }
    Some(WalkingCommand::Walk(WalkWords {
        store,
        path,
        prefix,
        frames,
        samplers,
        loaders,
        batch,
        pinned,
        journal,
        machine,
        settled: is_set(matches, "settled"),
    }))
}
