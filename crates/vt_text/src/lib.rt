//! The texts of this repository, taken apart and put together: lines, fields and decimal numbers; and the one device that prints: a
//! line on the stack for the output, and the lines of the error output. No call takes memory.
#![tactic(auto)]

mod line;
pub mod lines;
pub mod numbers;
mod pieces;
mod place;

pub use line::{LINE_ROOM, Line};
pub use lines::{field, next_line};
pub use numbers::{decimal, put_number};
pub use pieces::{print_pieces, put_pieces};
pub use place::{Place, print_bad_input, print_place};
pub use vt_definitions::{MOST_TILE_SIDE, is_tile_side, word_in};
pub use vt_outside::{Items, NoMemory};

/// Why a field was not read as a number.
#[derive(Clone, Copy, Debug, PartialEq, Eq)]
pub enum TextError {
    /// The field does not spell a number: it is neither `0` nor an optional `-` and digits that begin with 1 to 9.
    NotDecimal,
    /// The field spells a number outside the bounds.
    OutOfRange,
}
