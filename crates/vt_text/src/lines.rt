//! Lines and fields: where a line ends, and the parts of a line that single blanks separate.
ghost use Rattle.std.specs.Prelude.{◌≡◌, ◌≤◌, length, slice_get};
ghost use Rattle.std.specs.Option.{option_copied};
ghost use Rattle.std.specs.List.{join_with_byte};
ghost use Rattle.vt_definitions.specs.Limits.{line_feed, blank};
ghost use Rattle.vt_text.specs.Lines.{IsNextPlace, IsCutAt, fields_of};

// The byte that ends a line.
const LINE_FEED: u8 = 10;

// The byte between two fields of a line.
const BLANK: u8 = 32;

// The place of the first `byte` at or after `at`, or `None` where there is none.
fn next_place(text: &[u8], at: usize, byte: u8) -> Option<usize>
    requires { at ≤ length text.now }
    ensures place { IsNextPlace byte text.now at result }
    ensures cut { IsCutAt byte text.now at result }
{
    for place in at..text.len() {
        if text[place] == byte {
            return Some(place);
        }
    }
    None
}

/// The place of the first line feed of `text` at or after `at`, which is at most the length; `None` exactly where
/// there is none. The line that begins at `at` is the bytes from `at` to that place.
pub fn next_line(text: &[u8], at: usize) -> Option<usize>
    requires { at ≤ length text.now }
    ensures place { IsNextPlace line_feed text.now at result }
    ensures line { IsCutAt line_feed text.now at result }
{
    next_place(text, at, LINE_FEED)
}

/// The field number `i`, counted from 0, of the parts of `line` that single blanks separate; `None` exactly where
/// there are not so many. A part may be empty, and an empty line is one empty field.
pub fn field(line: &[u8], i: usize) -> Option<&[u8]>
    ensures { option_copied result ≡ slice_get (fields_of line.now) i }
{
    let mut start = 0;
    for _skipped in 0..i {
        start = next_place(line, start, BLANK)? + 1;
    }
    let end = next_place(line, start, BLANK).unwrap_or(line.len());
    Some(&line[start..end])
}

/// The fields of a line, joined by single blanks, are the line: no byte of it is in no field.
pub fn fields_join(line: &[u8])
    ensures { join_with_byte blank (fields_of line.now) ≡ line.now }
{
    let _line = line;
}
