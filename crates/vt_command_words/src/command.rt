//! The commands that walk or replay, by their words.

ghost use Rattle.std.specs.Prelude.{◌≡◌, true, IfSome, map, option_map};
ghost use Rattle.clap.specs.Words.{rows_of, found_of};
ghost use Rattle.vt_command_words.specs.Arguments.{rule_for, are_simple, texts};
ghost use Rattle.vt_command_words.specs.Reading.{IsReadAnswer};
ghost use Rattle.vt_command_words.specs.Commands.{walking_kind_of, rules_of, values_for, walking_text, shown_walking, IsLawfulWalking};

use crate::arguments::{Argument, WordsError, find};
use crate::replay::{ReplayWords, replay_rows, replay_values};
use crate::trial::{TrialWords, trial_rows, trial_values};
use crate::walk::{WalkWords, walk_rows, walk_values};
use clap::ArgMatches;
use std::alloc::Global;

/// A command that walks or replays, and its words.
#[derive(Clone, Copy)]
pub enum WalkingCommand<'a> {
    /// Draws the pictures of a journal again.
    Replay(ReplayWords<'a>),
    /// Draws the pictures of a path while pages are streamed.
    Walk(WalkWords<'a>),
    /// Walks over a texture that is made from a number, in memory.
    Trial(TrialWords),
}

/// Which of these commands.
#[derive(Clone, Copy)]
pub enum WalkingKind {
    /// `replay`.
    Replay,
    /// `walk`.
    Walk,
    /// `trial`.
    Trial,
}

/// Reads the words of the command of this name that walks or replays, of which the name is the first.
///
/// `Usage` comes only where they are no such command's. Where they are, the answer may still be `NoMemory`.
pub fn read_walking_command<'a>(
    alloc: Global,
    name: &'a str,
    words: &'a [String],
) -> Result<WalkingCommand<'a>, WordsError>
    ensures { IsReadAnswer shown_walking IsLawfulWalking (walking_text name.entry.now (texts words.entry.now)) result }
{
    let Some(kind) = walking_kind_of(name) else {
        return Err(WordsError::Usage);
    };
    let matches = find(alloc, name, rows_of(kind), words)?;
    values_of(kind, &matches).ok_or(WordsError::Usage)
}

/// The kind of the command of this name, if it walks or replays.
pub fn walking_kind_of(name: &str) -> Option<WalkingKind>
    ensures { result ≡ walking_kind_of name.now }
{
    if name == "replay" {
        return Some(WalkingKind::Replay);
    }
    if name == "walk" {
        return Some(WalkingKind::Walk);
    }
    if name == "trial" {
        return Some(WalkingKind::Trial);
    }
    None
}

// The arguments of a command.
fn rows_of<'a>(kind: WalkingKind) -> &'a [Argument<'a>]
    ensures rules { map rule_for result.now ≡ rules_of kind }
    ensures simple { are_simple (rules_of kind) ≡ true }
{
    match kind {
        WalkingKind::Replay => replay_rows(),
        WalkingKind::Walk => walk_rows(),
        WalkingKind::Trial => trial_rows(),
    }
}

// What the values of its arguments ask for.
fn values_of<'a>(kind: WalkingKind, matches: &ArgMatches<'a>) -> Option<WalkingCommand<'a>>
    ensures read { option_map shown_walking result ≡ values_for kind (rows_of (found_of matches.now)) }
    ensures lawful { IfSome result IsLawfulWalking }
{
    match kind {
        WalkingKind::Replay => replay_values(matches),
        WalkingKind::Walk => walk_values(matches),
        WalkingKind::Trial => trial_values(matches),
    }
}
