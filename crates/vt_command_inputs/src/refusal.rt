//! How a command ends: its status, and its line on the error output.

ghost use Rattle.std.specs.Prelude.{◌≡◌};
ghost use Rattle.vt_outside.specs.declared.answers.OutsideError.TheVariants as outside_error;
ghost use Rattle.vt_outside.specs.Effects.{sink_effect};
ghost use Rattle.vt_command_inputs.specs.Lines.{frames_line, unfit_line};
ghost use Rattle.vt_command_inputs.specs.Refusals.{IsRefusalOf, cause_of, refusal_status, refusal_of_words, status_of, refusal_line, Printed, EndPrinted};

use crate::flaws::Flaw;
use vt_command_words::WordsError;
use vt_outside::{NoMemory, OutsideError, Sink};
use vt_text::{Place, print_bad_input, print_place};

/// Why a command was refused.
#[derive(Clone, Copy)]
pub enum Refusal<'a> {
    /// Memory was refused.
    NoMemory,
    /// The words are not those of a command.
    Usage,
    /// A call on the folder or the output failed, or a name is missing.
    Fault,
    /// The input of this name has this flaw.
    Flawed(&'a str, Flaw),
    /// There are fewer frames than pinned pages.
    TooFewFrames {
        frames: u32,
        needed: u32,
    },
    /// The picture wants more pages than there is room for.
    DoesNotFit {
        picture: u32,
        wanted: u32,
        room: u32,
    },
}

impl From<OutsideError> for Refusal<'_> {
    ghost from_gives = { λ e r. r ≡ cause_of e };

    fn from(error: OutsideError) -> Self {
        match error {
            OutsideError::Failed => Refusal::Fault,
            OutsideError::NoMemory => Refusal::NoMemory,
        }
    }
}

impl From<NoMemory> for Refusal<'_> {
    ghost from_gives = { λ _ r. r ≡ cause_of outside_error.NoMemory };

    fn from(_: NoMemory) -> Self {
        Refusal::NoMemory
    }
}

impl From<WordsError> for Refusal<'_> {
    ghost from_gives = { λ e r. r ≡ refusal_of_words e };

    fn from(error: WordsError) -> Self {
        match error {
            WordsError::Usage => Refusal::Usage,
            WordsError::NoMemory => Refusal::NoMemory,
        }
    }
}

/// The refusal of the input of a name, by its flaw or by the outside.
pub fn refusal_of(name: &str, why: Result<Flaw, OutsideError>) -> Refusal<'_>
    ensures { IsRefusalOf name.now why result }
{
    match why {
        Ok(flaw) => Refusal::Flawed(name, flaw),
        Err(error) => Refusal::from(error),
    }
}

impl Refusal<'_> {
    /// The status with which the program ends.
    pub fn status(&self) -> u8
        ensures { result ≡ refusal_status self.now }
    {
        match self {
            Refusal::NoMemory => 1,
            Refusal::Usage => 2,
            Refusal::Fault => 3,
            Refusal::Flawed(_, _) => 4,
            Refusal::TooFewFrames { .. } => 5,
            Refusal::DoesNotFit { .. } => 5,
        }
    }

    /// Puts the line of the refusal, of words that are none of a command's the line of usage; the first put that is
    /// refused ends it. It takes no memory of its own.
    pub fn print<E: Sink>(&self, usage: &[u8], err: &mut E)
        ensures { Printed (refusal_line usage.now self.now) (sink_effect E.Sink err.old err.new) }
    {
        match self {
            Refusal::NoMemory => print_words(err, b"vtex: out of memory\n"),
            Refusal::Usage => print_words(err, usage),
            Refusal::Fault => print_words(err, b"vtex: fault on files or output\n"),
            Refusal::Flawed(name, flaw) => print_bad_input(err, name, &flaw.place()),
            Refusal::TooFewFrames { frames, needed } => print_frames(err, *frames, *needed),
            Refusal::DoesNotFit {
                picture,
                wanted,
                room,
            } => print_unfit(err, *picture, *wanted, *room),
        }
    }
}

// Puts the line of too few frames.
fn print_frames<E: Sink>(err: &mut E, frames: u32, needed: u32)
    ensures { Printed (frames_line frames needed) (sink_effect E.Sink err.old err.new) }
{
    let place = Place::two_numbers(
        b"",
        frames as u64,
        b" frames, pinned pages need ",
        needed as u64,
    );
    print_place(err, &place);
}

// Puts the line of a picture that does not fit.
fn print_unfit<E: Sink>(err: &mut E, picture: u32, wanted: u32, room: u32)
    ensures { Printed (unfit_line picture wanted room) (sink_effect E.Sink err.old err.new) }
{
    let place = Place::three_numbers(
        b"picture ",
        picture as u64,
        b" wants ",
        wanted as u64,
        b" pages, room for ",
        room as u64,
    );
    print_place(err, &place);
}

// Puts a line that has no name and no number.
fn print_words<E: Sink>(err: &mut E, line: &[u8])
    ensures { Printed line.now (sink_effect E.Sink err.old err.new) }
{
    let _ = err.put(line);
}

/// The status with which the program ends.
pub fn status_of(end: &Result<(), Refusal<'_>>) -> u8
    ensures { result ≡ status_of end.now }
{
    match end {
        Ok(()) => 0,
        Err(refusal) => refusal.status(),
    }
}

/// Prints why a command was refused, by the line of usage; of one that is done it prints nothing.
pub fn print_end<E: Sink>(end: &Result<(), Refusal<'_>>, usage: &[u8], err: &mut E)
    ensures { EndPrinted usage.now end.now (sink_effect E.Sink err.old err.new) }
{
    match end {
        Ok(()) => {}
        Err(refusal) => refusal.print(usage, err),
    }
}
