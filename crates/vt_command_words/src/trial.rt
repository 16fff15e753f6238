//! The word of `trial`.

ghost use Rattle.std.specs.Prelude.{◌≡◌, true, IfSome, map, option_map};
ghost use Rattle.clap.specs.Words.{rows_of, found_of};
ghost use Rattle.vt_command_words.specs.Arguments.{rule_for, are_simple};
ghost use Rattle.vt_command_words.specs.Commands.{TrialCommand, shown_walking, IsLawfulWalking};
ghost use Rattle.vt_command_words.specs.Trial.{trial_rules, trial_values};

use crate::arguments::Argument;
use crate::command::WalkingCommand;
use crate::numbers::{MOST_NUMBER, number_of};
use clap::ArgMatches;

/// The word of `trial`.
#[derive(Clone, Copy)]
pub struct TrialWords {
    /// Which texture and path are made, at most 65,535.
    pub number: u32,
}

/// The arguments of `trial`.
#[tactic(auto, unfolding(crate::specs::Trial::trial_rules))]
pub fn trial_rows<'a>() -> &'a [Argument<'a>]
    ensures rules { map rule_for result.now ≡ trial_rules }
    ensures simple { are_simple trial_rules ≡ true }
{
    &[Argument::Word("number")]
}

/// What the values of its arguments ask for.
pub fn trial_values<'a>(matches: &ArgMatches<'a>) -> Option<WalkingCommand<'a>>
    ensures read { option_map shown_walking result ≡ option_map TrialCommand (trial_values (rows_of (found_of matches.now))) }
    ensures lawful { IfSome result IsLawfulWalking }
{
    let number = number_of(matches, "number", 0, MOST_NUMBER)?;
    Some(WalkingCommand::Trial(TrialWords { number }))
}
