//! The filters among the words.

ghost use Rattle.std.specs.Prelude.{◌≡◌};
ghost use Rattle.clap.specs.Words.{rows_of, found_of};
ghost use Rattle.vt_command_words.specs.Filters.{filter_named, filter_of};

use crate::arguments::text;
use clap::ArgMatches;

/// How pixels are made of texels.
#[derive(Clone, Copy)]
pub enum Filtering {
    /// Each is one texel, the nearest.
    Nearest,
    /// Each is a blend of the four texels around its place.
    Bilinear,
}

/// The value of the option `--filter`, if it is one of the filters.
pub fn filter_of(matches: &ArgMatches<'_>) -> Option<Filtering>
    ensures { result ≡ filter_of (rows_of (found_of matches.now)) }
{
    filter_named(text(matches, "filter")?)
}

// The filter of this name, if there is one.
fn filter_named(name: &str) -> Option<Filtering>
    ensures { result ≡ filter_named name.now }
{
    if name == "nearest" {
        return Some(Filtering::Nearest);
    }
    if name == "bilinear" {
        return Some(Filtering::Bilinear);
    }
    None
}
