//! How the rows of a picture are dealt to its samplers.

ghost use Rattle.std.specs.Prelude.{◌≡◌, ◌≤◌, ◌<◌, ◌↔◌, ℕ};
ghost use Rattle.vt_definitions.specs.Limits.{most_picture_side, most_samplers};
ghost use Rattle.vt_definitions.specs.Dealing.{sampler_of, turn_of, dealt_row, own_count};

/// The sampler that draws a row: the rows from the top are dealt to the samplers in turn.
pub fn sampler_of(row: u32, samplers: u32) -> u32
    requires { 1 ≤ samplers }
    ensures { result ≡ sampler_of row samplers }
{
    row % samplers
}

/// The turn in which a row is dealt: how many rows of its sampler are above it.
pub fn turn_of(row: u32, samplers: u32) -> u32
    requires { 1 ≤ samplers }
    ensures value { result ≡ turn_of row samplers }
    ensures most { result ≤ row }
{
    row / samplers
}

/// The row that a sampler is dealt in a turn.
pub fn dealt_row(sampler: u32, turn: u32, samplers: u32) -> u32
    requires one_of { sampler < samplers }
    requires few { samplers ≤ most_samplers }
    requires turn { turn ≤ most_picture_side }
    ensures { result ≡ dealt_row sampler turn samplers }
{
    turn * samplers + sampler
}

/// How many of so many rows a sampler is dealt.
pub fn own_count(sampler: u32, samplers: u32, height: u32) -> u32
    requires one_of { sampler < samplers }
    requires few { samplers ≤ most_samplers }
    requires high { height ≤ most_picture_side }
    ensures value { result ≡ own_count sampler samplers height }
    ensures most { result ≤ height }
{
    (height + samplers - 1 - sampler) / samplers
}

/// Each row is dealt once: it is the row of its sampler in its turn, each sampler has one row in each turn, and its turns are as many as it
/// has rows.
pub fn rows_are_dealt_once()
    ensures row { (y samplers : ℕ) → dealt_row (sampler_of y samplers) (turn_of y samplers) samplers ≡ y }
    ensures sampler { (k turn samplers : ℕ) → k < samplers → sampler_of (dealt_row k turn samplers) samplers ≡ k }
    ensures turn { (k turn samplers : ℕ) → k < samplers → turn_of (dealt_row k turn samplers) samplers ≡ turn }
    ensures inside { (k turn samplers height : ℕ) → k < samplers
        → (dealt_row k turn samplers < height) ↔ (turn < own_count k samplers height) }
{}
