//! What is written of a finished picture, and the last line.

ghost use Rattle.std.specs.Prelude.{◌≡◌, ◌⊎◌, ℕ, ◌+◌, ◌<◌, ◌≤◌, ◌++◌, take, length, IfOk, OnOk, OnErr, IsErrOf, option_map, string_bytes};
ghost use Rattle.std.specs.List.{concat};
ghost use Rattle.vt_ppm.specs.Depths.{IsDepth};
ghost use Rattle.vt_outside.specs.Counts.{Rose};
ghost use Rattle.vt_outside.specs.Files.{with_bytes, gained};
ghost use Rattle.vt_text.specs.Numbers.{number_spelling};
ghost use Rattle.vt_ppm.specs.Picture.{picture_bytes};
ghost use Rattle.vt_pictures.specs.Names.{four_digit_numbers, picture_name};
ghost use Rattle.vt_walk.specs.Logs.{end_line};
ghost use Rattle.vt_walk.specs.Tallies.{numbers_line};

use crate::files::write_file;
use crate::output_folder::OutputFolder;
use std::alloc::Global;
use vt_camera::Path;
use vt_outside::{NoMemory, OutsideError, Sink};
use vt_pictures::picture_name;
use vt_ppm::begin_picture;
use vt_text::{LINE_ROOM, Line};
use vt_walk_decisions::{PassMachine, Tally};

/// Writes the picture of a machine's last pass under its name, by one creation and one append. After a refusal the
/// name is as before, or holds a prefix of its bytes. These are made in the buffer.
pub fn write_picture<D: OutputFolder, M: PassMachine>(
    buffer: &mut Vec<u8>,
    alloc: Global,
    folder: &mut D,
    machine: &M,
    depth: u32,
    path: &Path,
    prefix: &str,
    picture: u32,
) -> Result<(), OutsideError>
    requires idle { M.is_idle machine.now }
    requires depth { IsDepth depth }
    requires few { picture < four_digit_numbers }
    ensures whole { OnOk result (D.files folder.new ≡ option_map (with_bytes (picture_name prefix.now picture)
        (picture_bytes depth path.now.width path.now.height (concat (M.state machine.now).rows)))
        (D.files folder.old)) }
    ensures part { OnErr result ((D.files folder.new ≡ D.files folder.old)
        ⊎ ((k : ℕ) × (D.files folder.new ≡ option_map (with_bytes (picture_name prefix.now picture)
        (take k (picture_bytes depth path.now.width path.now.height (concat (M.state machine.now).rows))))
        (D.files folder.old)))) }
    ensures failed { IsErrOf result OutsideError.Failed → Rose (D.faults folder.old) (D.faults folder.new) }
    ensures asked { D.asked folder.new ≡ D.asked folder.old }
    ensures faults { D.faults folder.old ≤ D.faults folder.new }
{
    let name = make_picture(buffer, alloc, machine, depth, path, prefix, picture)?;
    write_file(folder, name.as_str(), buffer)
}

/// Makes a buffer hold the bytes of the picture of a machine's last pass, and answers its name.
pub fn make_picture<M: PassMachine>(
    buffer: &mut Vec<u8>,
    alloc: Global,
    machine: &M,
    depth: u32,
    path: &Path,
    prefix: &str,
    picture: u32,
) -> Result<String, NoMemory>
    requires idle { M.is_idle machine.now }
    requires depth { IsDepth depth }
    requires few { picture < four_digit_numbers }
    ensures bytes { OnOk result (buffer.new.items ≡ picture_bytes depth path.now.width path.now.height
        (concat (M.state machine.now).rows)) }
    ensures name { IfOk result (λ name. string_bytes name ≡ picture_name prefix.now picture) }
{
    begin_picture(buffer, alloc, depth, path.width(), path.height())?;
    machine.picture_into(buffer)?;
    let name = picture_name(alloc, prefix, picture)?;
    Ok(name)
}

/// Puts the line of a picture with this tally, of whose pages so many are wanted, in one call. After a refusal a
/// prefix of it was put.
pub fn put_picture_line<O: Sink>(
    out: &mut O,
    picture: u32,
    wanted: u64,
    tally: &Tally,
) -> Result<(), OutsideError>
    ensures whole { OnOk result (O.held out.new ≡ option_map (gained (numbers_line picture wanted tally.now))
        (O.held out.old)) }
    ensures part { OnErr result ((k : ℕ) × (O.held out.new ≡ option_map (gained (take k
        (numbers_line picture wanted tally.now))) (O.held out.old))) }
    ensures failed { IsErrOf result OutsideError.Failed → Rose (O.faults out.old) (O.faults out.new) }
    ensures faults { O.faults out.old ≤ O.faults out.new }
{
    let line = line_of_picture(picture, wanted, tally);
    out.put(line.bytes())
}

// The line of a picture.
#[tactic(auto, unfolding(crate::specs::Logs::line_of_numbers))]
fn line_of_picture(picture: u32, wanted: u64, tally: &Tally) -> Line
    ensures { result ≡ numbers_line picture wanted tally.now }
{
    let mut line = Line::new();
    add(&mut line, b"picture ", picture as u64);
    add(&mut line, b" passes ", tally.passes as u64);
    add(&mut line, b" wanted ", wanted);
    add(&mut line, b" loaded ", tally.loaded);
    add(&mut line, b" lost ", tally.lost);
    add(&mut line, b" evicted ", tally.evicted);
    line.words(b"\n");
    line
}

// Adds words and a number to a line that has room for them.
fn add(line: &mut Line, words: &[u8], number: u64)
    requires { length line.old + (length words.now + 20) ≤ LINE_ROOM }
    ensures gained { line.new ≡ line.old ++ words.now ++ number_spelling number }
    ensures length { length line.new ≤ length line.old + (length words.now + 20) }
{
    line.words(words);
    line.number(number);
}

/// Puts the last line, of so many pictures and reads, in one call. After a refusal a prefix of it was put.
pub fn put_end_line<O: Sink>(out: &mut O, pictures: u32, reads: u64) -> Result<(), OutsideError>
    ensures whole { OnOk result (O.held out.new ≡ option_map (gained (end_line pictures reads)) (O.held out.old)) }
    ensures part { OnErr result ((k : ℕ) × (O.held out.new ≡ option_map (gained (take k (end_line pictures reads)))
        (O.held out.old))) }
    ensures failed { IsErrOf result OutsideError.Failed → Rose (O.faults out.old) (O.faults out.new) }
    ensures faults { O.faults out.old ≤ O.faults out.new }
{
    let line = line_of_end(pictures, reads);
    out.put(line.bytes())
}

// The last line.
#[tactic(auto, unfolding(crate::specs::Logs::end_line))]
fn line_of_end(pictures: u32, reads: u64) -> Line
    ensures { result ≡ end_line pictures reads }
{
    let mut line = Line::new();
    add(&mut line, b"end pictures ", pictures as u64);
    add(&mut line, b" reads ", reads);
    line.words(b"\n");
    line
}
