//! Writing what the commands make.

ghost use Rattle.std.specs.Prelude.{◌≡◌, ◌↔◌, ◌+◌, ◌≤◌, ◌++◌, length};
ghost use Rattle.vt_ppm.specs.Depths.{IsDepth};
ghost use Rattle.vt_command_words.specs.TextNumbers.{number_spelling};
ghost use Rattle.vt_outside.specs.Effects.{sink_effect};
ghost use Rattle.vt_outside.specs.Expectations.{PutsText};
ghost use Rattle.vt_command_inputs.specs.Lines.{end_line, store_line};

use vt_outside::{OutsideError, Sink};
use vt_pages::Geometry;
use vt_text::{LINE_ROOM, Line, put_pieces};
use vt_tiles::{StoreError, store_length};

/// What the outside refused, of a refusal of a call that writes a store: a failed call where that was one, else want of memory.
pub fn outside_error(error: StoreError) -> OutsideError
    ensures { (result ≡ OutsideError.Failed) ↔ (error ≡ StoreError.Failed) }
{
    match error {
        StoreError::Failed => OutsideError::Failed,
        _ => OutsideError::NoMemory,
    }
}

/// Puts the line that ends a command which wrote pictures, in pieces: how many it wrote.
pub fn put_end<O: Sink>(out: &mut O, pictures: u32) -> Result<(), OutsideError>
    ensures { PutsText (end_line pictures) (sink_effect O.Sink out.old out.new) result }
{
    let mut number = Line::new();
    number.number(pictures as u64);
    put_pieces(
        out,
        &[
            b"end pictures ".as_slice(),
            number.bytes(),
            b"\n".as_slice(),
        ],
    )
}

/// Puts the line of a store of samples of `depth` bytes, 1 or 2.
pub fn put_store_line<O: Sink>(
    out: &mut O,
    geometry: &Geometry,
    depth: u32,
) -> Result<(), OutsideError>
    requires { IsDepth depth }
    ensures { PutsText (store_line geometry.now depth) (sink_effect O.Sink out.old out.new) result }
{
    let line = line_of_store(geometry, depth);
    out.put(line.bytes())
}

// The line of a store of samples of `depth` bytes.
#[tactic(auto, unfolding(crate::specs::Lines::store_line))]
fn line_of_store(geometry: &Geometry, depth: u32) -> Line
    requires { IsDepth depth }
    ensures { result ≡ store_line geometry.now depth }
{
    let mut line = Line::new();
    add(&mut line, b"store ", geometry.width() as u64);
    add(&mut line, b" ", geometry.height() as u64);
    add(&mut line, b" tile ", geometry.tile() as u64);
    add(&mut line, b" levels ", geometry.levels() as u64);
    add(&mut line, b" pages ", geometry.page_count() as u64);
    add(&mut line, b" bytes ", store_length(geometry, depth));
    line.words(b"\n");
    line
}

/// Adds words and a number to a line that has room for them.
pub fn add(line: &mut Line, words: &[u8], number: u64)
    requires { length line.old + (length words.now + 20) ≤ LINE_ROOM }
    ensures gained { line.new ≡ line.old ++ words.now ++ number_spelling number }
    ensures length { length line.new ≤ length line.old + (length words.now + 20) }
{
    line.words(words);
    line.number(number);
}
