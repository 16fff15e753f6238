//! The fields of a journal's lines, read.

ghost use Rattle.std.specs.Prelude.{◌≡◌, ◌≢◌, ◌+◌, ◌-◌, ◌/◌, ◌^◌, ◌<◌, ◌≤◌, ℕ, slice_get, Some, None, MatchOption};
ghost use Rattle.std.specs.Bool.{MatchBool};
ghost use Rattle.vt_text.specs.Lines.{fields_of};
ghost use Rattle.vt_pages.specs.Pages.{IsPage, levels_of};
ghost use Rattle.vt_journal.specs.JournalReading.{IsNumberAt, StandsAt};

use vt_pages::{Geometry, PageName};
use vt_text::{decimal, field};

/// Whether a line's field `i` is the word.
pub fn has_word(line: &[u8], i: usize, word: &[u8]) -> bool
    ensures { MatchBool result (slice_get (fields_of line.now) i ≡ Some word.now)
        (slice_get (fields_of line.now) i ≢ Some word.now) }
{
    match field(line, i) {
        Some(found) => found == word,
        None => false,
    }
}

/// Whether a line has at most so many fields.
pub fn ends_before(line: &[u8], fields: usize) -> bool
    ensures { MatchBool result (slice_get (fields_of line.now) fields ≡ None) (slice_get (fields_of line.now) fields ≢ None) }
{
    field(line, fields).is_none()
}

/// The number below 2^63 that is a line's field `i`, if it is one.
pub fn number_at(line: &[u8], i: usize) -> Option<u64>
    ensures { IsNumberAt line.now i (2 ^ 63 - 1) result }
{
    let text = field(line, i)?;
    match decimal(text, 0, i64::MAX) {
        Ok(number) => Some(number as u64),
        Err(_) => None,
    }
}

/// The number from 0 to `most` that is a line's field `i`, if it is one.
pub fn small_at(line: &[u8], i: usize, most: u32) -> Option<u32>
    ensures { IsNumberAt line.now i most result }
{
    let number = number_at(line, i)?;
    if number > u64::from(most) {
        return None;
    }
    Some(number as u32)
}

// Whether the tile at a place is one of those that cover a side.
fn is_on_side(place: u32, tile: u32, side: u32) -> bool
    requires { 1 ≤ tile }
    ensures { MatchBool result (place < (side + tile - 1) / tile) (place < (side + tile - 1) / tile → ⊥) }
{
    u64::from(place) * u64::from(tile) < u64::from(side)
}

// Whether a name is of a page of the chain, where its level is one of the chain's.
fn is_page(geometry: &Geometry, name: &PageName) -> bool
    requires { name.now.level < levels_of geometry.now }
    ensures { MatchBool result (IsPage geometry.now name.now) (IsPage geometry.now name.now → ⊥) }
{
    let (width, height) = geometry.level_size(name.level);
    if !is_on_side(name.col, geometry.tile(), width) {
        return false;
    }
    is_on_side(name.row, geometry.tile(), height)
}

/// The page whose level, column and row are in a line from field `i` on, if there is one.
pub fn page_at(geometry: &Geometry, line: &[u8], i: usize) -> Option<u32>
    requires { i ≤ 2 }
    ensures { MatchOption result ((page : ℕ) → ¬ StandsAt geometry.now line.now i page) (StandsAt geometry.now line.now i) }
{
    let level = small_at(line, i, geometry.levels() - 1)?;
    let col = small_at(line, i + 1, u32::MAX)?;
    let row = small_at(line, i + 2, u32::MAX)?;
    let name = PageName { level, col, row };
    if !is_page(geometry, &name) {
        return None;
    }
    Some(geometry.index_of(&name))
}
