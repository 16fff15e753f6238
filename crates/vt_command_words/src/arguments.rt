//! A command's arguments as rows of a table, and its words as `clap` finds them.

ghost use Rattle.std.specs.Prelude.{◌≡◌, [], true, false, IfOk, IsErrOf, IsNone, Some, map, option_map};
ghost use Rattle.clap.specs.Words.{app_of, rule_of, rows_of, kind_of, found_of, is_simple_and_free, first_of};
ghost use Rattle.vt_command_words.specs.Arguments.{app, found, rule_for, is_set, texts};

use clap::error::ErrorKind;
use clap::{Arg, ArgAction, ArgMatches, Command, Error};
use std::alloc::{AllocError, Global};

/// Why words were not read.
#[derive(Clone, Copy, Debug, PartialEq, Eq)]
pub enum WordsError {
    /// They are no command's.
    Usage,
    /// Memory was refused.
    NoMemory,
}

/// A row of a command's table.
#[derive(Clone, Copy)]
pub enum Argument<'a> {
    /// A required word, by its name.
    Word(&'a str),
    /// An option, by its long name, and its default.
    Option(&'a str, &'a str),
    /// A flag, by its long name.
    Flag(&'a str),
}

/// What `clap` finds in the words, of which the first is the command's name.
pub fn find<'a>(
    alloc: Global,
    name: &'a str,
    rows: &'a [Argument<'a>],
    words: &'a [String],
) -> Result<ArgMatches<'a>, WordsError>
    requires { is_simple_and_free (app name.now (map rule_for rows.now)) ≡ true }
    ensures found { IfOk result (λ matches.
        found (app name.entry.now (map rule_for rows.entry.now)) (texts words.entry.now) ≡ Some (rows_of (found_of matches))) }
    ensures usage { IsErrOf result WordsError.Usage
        → IsNone (found (app name.entry.now (map rule_for rows.entry.now)) (texts words.entry.now)) }
{
    let Ok(command) = command_of(alloc, name, rows) else {
        return Err(WordsError::NoMemory);
    };
    match command.try_get_matches_from(words) {
        Ok(matches) => Ok(matches),
        Err(error) => Err(words_error(&error)),
    }
}

// Why the words were refused: what is not want of memory is their own fault.
fn words_error(error: &Error) -> WordsError
    ensures { result ≡ WordsError.Usage → kind_of error.now ≡ ErrorKind.OutOfMemory → ⊥ }
{
    match error.kind() {
        ErrorKind::OutOfMemory => WordsError::NoMemory,
        _ => WordsError::Usage,
    }
}

// The simple command of these rows.
fn command_of<'a>(
    alloc: Global,
    name: &'a str,
    rows: &'a [Argument<'a>],
) -> Result<Command<'a>, AllocError>
    ensures { IfOk result (λ command. app_of command ≡ app name.entry.now (map rule_for rows.entry.now)) }
{
    let mut command = bare_command(alloc, name);
    for row in rows {
        command = command.arg(argument_of(alloc, *row))?;
    }
    Ok(command)
}

// A command of no arguments, which knows neither help nor version.
fn bare_command<'a>(alloc: Global, name: &'a str) -> Command<'a>
    ensures { app_of result ≡ app name.entry.now [] }
{
    Command::new(alloc, name)
        .disable_help_flag(true)
        .disable_version_flag(true)
}

fn argument_of<'a>(alloc: Global, row: Argument<'a>) -> Arg<'a>
    ensures rule { rule_of result ≡ rule_for row.entry }
    ensures local { result.global ≡ false }
{
    match row {
        Argument::Word(id) => Arg::new(alloc, id).required(true),
        Argument::Option(id, default) => Arg::new(alloc, id).long(id).default_value(default),
        Argument::Flag(id) => Arg::new(alloc, id).long(id).action(ArgAction::SetTrue),
    }
}

/// The text of an argument.
pub fn text<'a>(matches: &ArgMatches<'a>, id: &str) -> Option<&'a str>
    ensures { first_of id.now (rows_of (found_of matches.now)) ≡ option_map (λ s. s.now) result }
{
    matches.get_str(id)
}

/// Whether a flag is given.
pub fn is_set(matches: &ArgMatches<'_>, id: &str) -> bool
    ensures { result ≡ is_set id.now (rows_of (found_of matches.now)) }
{
    match text(matches, id) {
        Some(value) => value == "true",
        None => false,
    }
}
