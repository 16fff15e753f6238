//! The command `gen`: a texture that is made from a number.

ghost use Rattle.std.specs.Prelude.{◌≡◌, true, IfSome, map, option_map, ◌+◌, ◌*◌, ◌%◌, ◌<◌, ◌≤◌, ◌++◌, ◌∷◌, [], length, take, IfOk, codes, decimal};
ghost use Rattle.clap.specs.Words.{rows_of, found_of};
ghost use Rattle.vt_command_words.specs.Arguments.{rule_for, are_simple};
ghost use Rattle.vt_store_commands.specs.commands.{GenCommand, shown_store, IsLawfulStore};
ghost use Rattle.vt_store_commands.specs.commands.Gen.{gen_rules, gen_values, IsLawfulGen, shown_gen, made_texel, made_row, expected_file, gen_task, quiet};
ghost use Rattle.vt_command_words.specs.Numbers.{most_number};
ghost use Rattle.vt_definitions.specs.Limits.{most_read_side};
ghost use Rattle.vt_outside.specs.Effects.{SinkState, folder_effect};
ghost use Rattle.vt_outside.specs.Expectations.{Writes};
ghost use Rattle.vt_command_inputs.specs.CommandSpecs.{EndsAs};

use crate::commands::StoreCommand;
use clap::ArgMatches;
use std::alloc::{AllocError, Global};
use vt_command_inputs::Refusal;
use vt_command_words::arguments::{Argument, text};
use vt_command_words::numbers::{MOST_NUMBER, number_of};
use vt_outside::{Folder, OutsideError};

// The largest side of such a texture.
const MOST_SIDE: u32 = 8192;

/// The words of `gen`.
#[derive(Clone, Copy)]
pub struct GenWords<'a> {
    /// Which texture it is, at most 65,535.
    pub number: u32,
    /// The texture's width in texels, from 1 to 8,192.
    pub width: u32,
    /// The texture's height in texels, from 1 to 8,192.
    pub height: u32,
    /// The texture's name.
    pub name: &'a str,
}

/// The arguments of `gen`.
#[tactic(auto, unfolding(crate::specs::commands::Gen::gen_rules))]
pub fn gen_rows<'a>() -> &'a [Argument<'a>]
    ensures rules { map rule_for result.now ≡ gen_rules }
    ensures simple { are_simple gen_rules ≡ true }
{
    &[
        Argument::Word("number"),
        Argument::Word("width"),
        Argument::Word("height"),
        Argument::Word("name"),
    ]
}

/// What the values of its arguments ask for.
pub fn gen_values<'a>(matches: &ArgMatches<'a>) -> Option<StoreCommand<'a>>
    ensures read { option_map shown_store result ≡ option_map GenCommand (gen_values (rows_of (found_of matches.now))) }
    ensures lawful { IfSome result IsLawfulStore }
{
    let number = number_of(matches, "number", 0, MOST_NUMBER)?;
    let width = number_of(matches, "width", 1, MOST_SIDE)?;
    let height = number_of(matches, "height", 1, MOST_SIDE)?;
    let name = text(matches, "name")?;
    Some(StoreCommand::Gen(GenWords {
        number,
        width,
        height,
        name,
    }))
}

// The greatest sample of a texture that is made.
const GREATEST: u32 = 255;

/// Writes the texture of a number under its name. It has no output.
pub fn generate<'a, D: Folder>(
    alloc: Global,
    words: &GenWords<'a>,
    folder: &mut D,
) -> Result<(), Refusal<'a>>
    requires { IsLawfulGen words.now }
    ensures { (out : SinkState) → EndsAs (gen_task (shown_gen words.now)) (quiet (folder_effect D.Folder folder.old folder.new) out) result }
{
    write_texture(alloc, words, folder)?;
    Ok(())
}

// Makes the name hold the texture: creates it, and appends the header and then one row after the other, each made in the same room.
fn write_texture<D: Folder>(
    alloc: Global,
    words: &GenWords<'_>,
    folder: &mut D,
) -> Result<(), OutsideError>
    requires { IsLawfulGen words.now }
    ensures { Writes (expected_file (shown_gen words.now) ∷ []) (folder_effect D.Folder folder.old folder.new) result }
{
    let header = header_of(alloc, words.width, words.height)?;
    let mut room = vec![in alloc; 0; 3 * words.width as usize]?;
    let row = room.as_mut_slice();
    folder.create(words.name)?;
    folder.append(words.name, &header)?;
    for y in 0..words.height {
        make_row(words.number, y, words.width, row);
        folder.append(words.name, row)?;
    }
    Ok(())
}

// The bytes of a picture before its samples.
fn header_of(alloc: Global, width: u32, height: u32) -> Result<Vec<u8>, AllocError>
    ensures { IfOk result (λ header. header.items ≡ codes "P6\n" ++ decimal width ++ codes " " ++ decimal height ++ codes "\n" ++ decimal 255 ++ codes "\n") }
{
    Ok(format!(in alloc; "P6\n{width} {height}\n{GREATEST}\n")?.into_bytes())
}

/// Writes the samples of a row of so many texels.
pub fn make_row(number: u32, y: u32, columns: u32, row: &mut [u8])
    requires room { length row.old ≡ 3 * columns }
    requires number { number ≤ most_number }
    requires inside { y < most_read_side }
    requires few { columns ≤ most_read_side }
    ensures { row.new ≡ made_row number y columns }
{
    for x in 0..columns {
        put_texel(number, x, y, row);
    }
}

// Writes the samples of a texel behind those that are before its place.
#[inline(always)]
fn put_texel(number: u32, x: u32, y: u32, row: &mut [u8])
    requires room { 3 * x + 3 ≤ length row.old }
    requires number { number ≤ most_number }
    requires inside { y < most_read_side }
    requires few { x < most_read_side }
    ensures { take (3 * x + 3) row.new ≡ take (3 * x) row.old ++ made_texel number x y }
{
    let at = 3 * x as usize;
    let red = low_byte(x + number);
    let green = low_byte(y + 3 * number);
    let blue = low_byte(x * y + 7 * number);
    row[at] = red;
    row[at + 1] = green;
    row[at + 2] = blue;
}

// What a number leaves of 256.
#[inline(always)]
fn low_byte(number: u32) -> u8
    ensures { result ≡ number % 256 }
{
    (number % 256) as u8
}
