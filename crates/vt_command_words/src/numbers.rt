//! The numbers among the words.

ghost use Rattle.std.specs.Prelude.{◌≡◌, IfSome};
ghost use Rattle.clap.specs.Words.{rows_of, found_of};
ghost use Rattle.vt_text.specs.Tiles.{is_tile_side, IsTileSide};
ghost use Rattle.vt_command_words.specs.Numbers.{number_between, number_of, side_of, IsBetween};

use crate::arguments::text;
use clap::ArgMatches;
use vt_text::{MOST_TILE_SIDE, decimal, is_tile_side};

/// The greatest number of a texture that is made from one.
pub const MOST_NUMBER: u32 = 65535;

/// The number of an argument, if it is within the bounds, which are included.
pub fn number_of(matches: &ArgMatches<'_>, id: &str, least: u32, most: u32) -> Option<u32>
    ensures read { result ≡ number_of id.now least most (rows_of (found_of matches.now)) }
    ensures within { IfSome result (λ number. IsBetween least most number) }
{
    number_between(text(matches, id)?, least, most)
}

/// The number of an argument, if it is a tile side.
pub fn side_of(matches: &ArgMatches<'_>, id: &str) -> Option<u32>
    ensures read { result ≡ side_of id.now (rows_of (found_of matches.now)) }
    ensures lawful { IfSome result (λ side. IsTileSide side) }
{
    let side = number_of(matches, id, 2, MOST_TILE_SIDE)?;
    if is_tile_side(side) { Some(side) } else { None }
}

// The number that a field spells, if it is within the bounds.
fn number_between(field: &str, least: u32, most: u32) -> Option<u32>
    ensures read { result ≡ number_between least most field.now }
    ensures within { IfSome result (λ number. IsBetween least most number) }
{
    match decimal(field.as_bytes(), i64::from(least), i64::from(most)) {
        Ok(number) => Some(number as u32),
        Err(_) => None,
    }
}
