//! The lines of the error output that name a place.

ghost use Rattle.std.specs.Prelude.{◌≡◌, ◌++◌, codes};
ghost use Rattle.vt_text.specs.Numbers.{number_spelling};
ghost use Rattle.vt_text.specs.Places.{number_text, place_text, place_line, bad_input_line};
ghost use Rattle.vt_text.specs.Printing.{Prints};

use crate::line::Line;
use crate::pieces::print_pieces;
use vt_outside::Sink;

/// What is wrong, or what is wanted: words and numbers in turn, three of each at most.
#[derive(Clone, Copy)]
pub struct Place<'a> {
    words: &'a [u8],
    number: Option<u64>,
    between: &'a [u8],
    second_number: Option<u64>,
    after: &'a [u8],
    last_number: Option<u64>,
}

impl<'a> Place<'a> {
    /// Words alone.
    pub fn words(words: &'a [u8]) -> Place<'a>
        ensures { place_text result ≡ words.now }
    {
        Place {
            words,
            number: None,
            between: &[],
            second_number: None,
            after: &[],
            last_number: None,
        }
    }

    /// Words and a number.
    pub fn number(words: &'a [u8], number: u64) -> Place<'a>
        ensures { place_text result ≡ words.now ++ number_spelling number }
    {
        Place {
            words,
            number: Some(number),
            between: &[],
            second_number: None,
            after: &[],
            last_number: None,
        }
    }

    /// Two numbers, each after its words.
    pub fn two_numbers(words: &'a [u8], number: u64, between: &'a [u8], last: u64) -> Place<'a>
        ensures { place_text result ≡ words.now ++ (number_spelling number ++ (between.now ++ number_spelling last)) }
    {
        Place {
            words,
            number: Some(number),
            between,
            second_number: Some(last),
            after: &[],
            last_number: None,
        }
    }

    /// Three numbers, each after its words.
    pub fn three_numbers(
        words: &'a [u8],
        number: u64,
        between: &'a [u8],
        second: u64,
        after: &'a [u8],
        last: u64,
    ) -> Place<'a>
        ensures { place_text result ≡ words.now ++ (number_spelling number
            ++ (between.now ++ (number_spelling second ++ (after.now ++ number_spelling last)))) }
    {
        Place {
            words,
            number: Some(number),
            between,
            second_number: Some(second),
            after,
            last_number: Some(last),
        }
    }
}

/// Puts the line `vtex: bad input: <name>: <place>`. The first put that is refused ends it.
pub fn print_bad_input<S: Sink>(sink: &mut S, name: &str, place: &Place<'_>)
    ensures { Prints (bad_input_line name.now (place_text place.now)) (S.held sink.old) (S.held sink.new)
        (S.faults sink.old) (S.faults sink.new) (S.refusals sink.old) (S.refusals sink.new) }
{
    print_line(sink, b"vtex: bad input: ", name.as_bytes(), b": ", place);
}

/// Puts the line `vtex: <place>`. The first put that is refused ends it.
pub fn print_place<S: Sink>(sink: &mut S, place: &Place<'_>)
    ensures { Prints (place_line (place_text place.now)) (S.held sink.old) (S.held sink.new)
        (S.faults sink.old) (S.faults sink.new) (S.refusals sink.old) (S.refusals sink.new) }
{
    print_line(sink, b"vtex: ", b"", b"", place);
}

// Puts the line of a place behind three pieces.
fn print_line<'a, S: Sink>(
    sink: &mut S,
    front: &'a [u8],
    name: &'a [u8],
    colon: &'a [u8],
    place: &Place<'a>,
)
    ensures { Prints (front.now ++ (name.now ++ (colon.now ++ (place_text place.now ++ codes "\n")))) (S.held sink.old) (S.held sink.new)
        (S.faults sink.old) (S.faults sink.new) (S.refusals sink.old) (S.refusals sink.new) }
{
    let number = number_line(place.number);
    let second = number_line(place.second_number);
    let last = number_line(place.last_number);
    print_pieces(
        sink,
        &[
            front,
            name,
            colon,
            place.words,
            number.bytes(),
            place.between,
            second.bytes(),
            place.after,
            last.bytes(),
            b"\n".as_slice(),
        ],
    );
}

// A number as it is printed, where there is one.
fn number_line(number: Option<u64>) -> Line
    ensures { result ≡ number_text number }
{
    let mut line = Line::new();
    if let Some(number) = number {
        line.number(number);
    }
    line
}
