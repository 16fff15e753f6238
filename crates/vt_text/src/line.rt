//! A line on the stack.

ghost use Rattle.std.specs.Prelude.{◌≡◌, ◌+◌, ◌≤◌, ◌++◌, [], length};
ghost use Rattle.vt_text.specs.Numbers.{number_spelling};

use crate::numbers::put_number;
use std::marker::Model;

/// How many bytes a line has room for.
pub const LINE_ROOM: usize = 256;

/// A line that is made up on the stack, to be put at once. Contracts see it as its bytes.
#[derive(Drop)]
pub struct Line {
    bytes: [u8; LINE_ROOM],
    end: usize,
}

impl Model for Line {
    ghost use Rattle.std.specs.Prelude.{List, ℕ, take, ◌≤◌};

    ghost Value = { List ℕ };

    ghost view = { λ a. take a.end a.bytes };

    ghost invariant = { λ a. a.end ≤ 256 };
}

impl Line {
    /// A line of no bytes.
    pub fn new() -> Line
        ensures { result ≡ [] }
    {
        Line {
            bytes: [0; LINE_ROOM],
            end: 0,
        }
    }

    /// Adds words at the end, for which there has to be room.
    pub fn words(&mut self, words: &[u8])
        requires { length self.old + length words.now ≤ LINE_ROOM }
        ensures gained { self.new ≡ self.old ++ words.now }
        ensures length { length self.new ≡ length self.old + length words.now }
    {
        let end = self.end + words.len();
        self.bytes[self.end..end].copy_from_slice(words);
        self.end = end;
    }

    /// Adds the decimal of a number at the end, for which there has to be room for 20 bytes.
    pub fn number(&mut self, number: u64)
        requires { length self.old + 20 ≤ LINE_ROOM }
        ensures gained { self.new ≡ self.old ++ number_spelling number }
        ensures length { length self.new ≤ length self.old + 20 }
    {
        self.end = put_number(&mut self.bytes, self.end, number);
    }

    /// The bytes so far.
    pub fn bytes(&self) -> &[u8]
        ensures { result.now ≡ self.now }
    {
        &self.bytes[..self.end]
    }
}
