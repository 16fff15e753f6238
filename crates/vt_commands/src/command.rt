//! Which command the words ask for.

ghost use Rattle.std.specs.Prelude.{◌≡◌, Some, IfOk, IsErr, IsErrOf, IsNone};
ghost use Rattle.vt_command_words.specs.Arguments.{texts};
ghost use Rattle.vt_command_words.specs.Reading.{IsReadAnswer};
ghost use Rattle.vt_commands.specs.Choices.{choice_in};
ghost use Rattle.vt_commands.specs.Words.{is_walking_name, named_text, command_text, command_of, shown_words, HasLawfulNumbers};

use std::alloc::Global;
use vt_command_words::{
    MachineChoice, ReplayWords, TrialWords, WalkWords, WalkingCommand, WordsError,
    read_walking_command, walking_kind_of,
};
use vt_walk_commands::{StoreCommand, read_store_command};

/// A command and its words.
#[derive(Clone, Copy)]
pub enum Command<'a> {
    /// One that neither walks nor replays.
    Store(StoreCommand<'a>),
    /// Draws the pictures of a journal again.
    Replay(ReplayWords<'a>),
    /// Draws the pictures of a path while pages are streamed.
    Walk(WalkWords<'a>),
    /// Walks over a texture that is made from a number, in memory.
    Trial(TrialWords),
}

/// Reads the words after the program's name: the first names the command, whose `clap` command is handed all of them.
///
/// `Usage` comes only where they are no command's. Where they are, the answer may still be `NoMemory`.
pub fn read_command<'a>(alloc: Global, words: &'a [String]) -> Result<Command<'a>, WordsError>
    ensures read { IfOk result (λ command. command_text (texts words.entry.now) ≡ Some (shown_words command)) }
    ensures usage { IsErrOf result WordsError.Usage → IsNone (command_text (texts words.entry.now)) }
    ensures lawful { IfOk result HasLawfulNumbers }
    ensures refused { IsNone (command_text (texts words.entry.now)) → IsErr result }
{
    match words {
        [name, ..] => read_named(alloc, name.as_str(), words),
        [] => Err(WordsError::Usage),
    }
}

// Reads the words of a command of this name.
fn read_named<'a>(
    alloc: Global,
    name: &'a str,
    words: &'a [String],
) -> Result<Command<'a>, WordsError>
    ensures { IsReadAnswer shown_words HasLawfulNumbers (named_text name.entry.now (texts words.entry.now)) result }
{
    if is_walking_name(name) {
        let walking = read_walking_command(alloc, name, words)?;
        return Ok(command_of(walking));
    }
    let command = read_store_command(alloc, name, words)?;
    Ok(Command::Store(command))
}

// Whether a command of this name walks or replays.
fn is_walking_name(name: &str) -> bool
    ensures { result ≡ is_walking_name name.now }
{
    walking_kind_of(name).is_some()
}

// A command that walks or replays among all commands.
fn command_of<'a>(walking: WalkingCommand<'a>) -> Command<'a>
    ensures { result ≡ command_of walking.entry }
{
    match walking {
        WalkingCommand::Replay(words) => Command::Replay(words),
        WalkingCommand::Walk(words) => Command::Walk(words),
        WalkingCommand::Trial(words) => Command::Trial(words),
    }
}

/// The machine that the words of a command choose: the standard one where it lets the words choose none.
pub fn choice_of(command: &Command<'_>) -> MachineChoice
    ensures { result ≡ choice_in (shown_words command.now) }
{
    match command {
        Command::Walk(words) => words.machine,
        Command::Store(_) | Command::Replay(_) | Command::Trial(_) => MachineChoice::Standard,
    }
}
