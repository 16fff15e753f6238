ghost use Rattle.std.specs.Prelude.{◌≡◌, ◌+◌, ◌-◌, ◌≤◌, Some, length, slice_get, string_bytes, MatchResult};
ghost use Rattle.vt_outside.specs.ClosedFiles.{places_in};
ghost use Rattle.vt_outside.specs.Files.{with_places};

use crate::Place;
use std::mem;

/// The files that a folder in memory has closed, the last one first.
#[derive(Drop)]
pub enum ClosedFiles {
    Nothing,
    File {
        name: String,
        places: Vec<Place>,
        rest: Box<ClosedFiles>,
    },
}

/// Puts a file before the others, in the cell that it brings.
pub fn keep_places(
    closed: &mut ClosedFiles,
    name: String,
    places: Vec<Place>,
    mut cell: Box<ClosedFiles>,
)
    ensures { places_in closed.new ≡ with_places (string_bytes name) (Some places.items) (places_in closed.old) }
{
    *cell = mem::replace(closed, ClosedFiles::Nothing);
    *closed = ClosedFiles::File {
        name,
        places,
        rest: cell,
    };
}

/// The place of that number among those asked of the name, or where there is none, how many there are.
pub fn place_in(closed: &ClosedFiles, name: &str, i: usize) -> Result<Place, usize>
    ensures { MatchResult result
        (λ place. slice_get (places_in closed.now name.now) i ≡ Some place)
        (λ n. (n ≡ length (places_in closed.now name.now)) × (n ≤ i)) }
{
    match closed {
        ClosedFiles::Nothing => Err(0),
        ClosedFiles::File {
            name: of,
            places,
            rest,
        } => {
            let before = match place_in(rest, name, i) {
                Ok(place) => return Ok(place),
                Err(before) => before,
            };
            if name == of.as_str() {
                place_at(places, i, before)
            } else {
                Err(before)
            }
        }
    }
}

// The place of that number, where so many are before the list.
fn place_at(places: &[Place], i: usize, before: usize) -> Result<Place, usize>
    requires { before ≤ i }
    ensures { MatchResult result
        (λ place. slice_get places.now (i - before) ≡ Some place)
        (λ n. (n ≡ before + length places.now) × (n ≤ i)) }
{
    if i - before < places.len() {
        Ok(places[i - before])
    } else {
        Err(before + places.len())
    }
}
