//! The rows of a picture that one sampler draws: one loop for words, for a still table and for all page tables.

ghost use Rattle.std.specs.Prelude.{◌≡◌, ℕ, ◌+◌, ◌<◌, false, true};

/// The rows of a picture that one sampler draws, one a turn.
pub trait Turns {
    /// What a row changes: by what the sampler reads, and what it has drawn.
    type State;

    /// How many turns there are at most.
    ghost most: { Self → ℕ };

    /// The rows of so many turns were drawn: from the first state to the second.
    ghost drew: { Self → ℕ → Self.State → Self.State → Type 0 };

    /// All rows were drawn, and none is left.
    ghost drew_all: { Self → Self.State → Self.State → Type 0 };

    /// Draws the row of a turn, the next after those that were drawn, and tells whether there was one.
    fn draw_next(&self, turn: u32, state: &mut Self::State) -> bool
        requires drew { (first : Self.State) × drew self.now turn first state.old }
        requires left { turn < most self.now }
        ensures drew { result ≡ true → (first : Self.State) → drew self.now turn first state.old → drew self.now (turn + 1) first state.new }
        ensures none { result ≡ false → (first : Self.State) → drew self.now turn first state.old → drew_all self.now first state.new };

    /// After the last turn no row is left.
    ghost all_drawn: { (t : Self) (first last : Self.State) → drew t (most t) first last → drew_all t first last };
}

/// Draws row after row, until there is none.
pub fn draw_all<T: Turns>(turns: &T, most: u32, state: &mut T::State)
    requires most { most ≡ T.most turns.now }
    requires none { T.drew turns.now 0 state.old state.old }
    ensures { T.drew_all turns.now state.old state.new }
{
    for turn in 0..most {
        if !turns.draw_next(turn, state) {
            return;
        }
    }
}
