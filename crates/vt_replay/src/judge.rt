//! The judgement of a journal's text, before anything is drawn.

ghost use Rattle.std.specs.Prelude.{◌≡◌, ◌≢◌, ◌<◌, ◌≤◌, ◌⊎◌, ℕ, length, slice_get, Some, codes, min, IfOk, MatchOption};
ghost use Rattle.std.specs.Bool.{MatchBool};
ghost use Rattle.vt_text.specs.Numbers.{number_spelling};
ghost use Rattle.vt_text.specs.Lines.{fields_of};
ghost use Rattle.vt_journal.specs.JournalText.{content_changes};
ghost use Rattle.vt_replay.specs.Flaws.{BeginsOutside, NamesOutside, IsFirstRefused};
ghost use Rattle.vt_replay.specs.Outcomes.{IsReplayable};

use crate::error::ReplayError;
use std::alloc::Global;
use vt_camera::Path;
use vt_journal::{JournalError, JournalText, parse_journal};
use vt_pages::Geometry;
use vt_text::{decimal, field, next_line};

// Whether a line's first field is the word that begins a pass.
fn begins_pass(line: &[u8]) -> bool
    ensures { MatchBool result (slice_get (fields_of line.now) 0 ≡ Some (codes "pass"))
        (slice_get (fields_of line.now) 0 ≢ Some (codes "pass")) }
{
    match field(line, 0) {
        Some(found) => found == b"pass".as_slice(),
        None => false,
    }
}

// Whether a line's fourth field is the number of one of so many pictures.
fn names_inside(line: &[u8], pictures: u32) -> bool
    ensures { MatchBool result
        ((picture : ℕ) × (picture < pictures) × (slice_get (fields_of line.now) 3 ≡ Some (number_spelling picture)))
        ((picture : ℕ) → picture < pictures → slice_get (fields_of line.now) 3 ≢ Some (number_spelling picture)) }
{
    let Some(text) = field(line, 3) else {
        return false;
    };
    match decimal(text, 0, i64::from(pictures) - 1) {
        Ok(_) => true,
        Err(_) => false,
    }
}

// Whether a line begins a pass of a picture that is none of so many.
fn begins_outside(line: &[u8], pictures: u32) -> bool
    ensures { MatchBool result (BeginsOutside pictures line.now) (BeginsOutside pictures line.now → ⊥) }
{
    begins_pass(line) && !names_inside(line, pictures)
}

// The number of the first line that names a picture that is none of so many, if there is one.
fn first_outside(text: &[u8], pictures: u32) -> Option<u64>
    ensures { MatchOption result ((number : ℕ) → NamesOutside pictures text.now number → ⊥)
        (λ number. NamesOutside pictures text.now number
        × ((other : ℕ) → NamesOutside pictures text.now other → number ≤ other)) }
{
    let mut at = 0;
    let mut number = 1;
    'lines: while let Some(end) = next_line(text, at) {
        if begins_outside(&text[at..end], pictures) {
            return Some(number);
        }
        at = end + 1;
        number += 1;
    }
    if begins_outside(&text[at..], pictures) {
        return Some(number);
    }
    None
}

/// Reads a journal's text, all of whose pictures are to be in the path.
pub(crate) fn judged(
    alloc: Global,
    geometry: &Geometry,
    path: &Path,
    text: &[u8],
) -> Result<JournalText, ReplayError>
    ensures read { IfOk result (λ j. IsReplayable geometry.now path.now text.now j.content) }
    ensures changes { IfOk result (λ j. j.changes ≡ content_changes geometry.now j.content) }
    ensures not_failed { result ≡ Err ReplayError.Failed → ⊥ }
    ensures line { (line : ℕ) → result ≡ Err (ReplayError.BadJournal line)
        → IsFirstRefused geometry.now path.now.height (length path.now.cameras) text.now line }
    ensures refused { (line : ℕ) → IsFirstRefused geometry.now path.now.height (length path.now.cameras) text.now line
        → (result ≡ Err (ReplayError.BadJournal line)) ⊎ (result ≡ Err ReplayError.NoMemory) }
{
    // A geometry's tiles have a side, which makes the first flaw of a text one.
    let _side = geometry.tile();
    let outside = first_outside(text, path.pictures());
    match parse_journal(alloc, geometry, path.height(), text) {
        Ok(journal) => accepted(journal, outside),
        Err(JournalError::NoMemory) => Err(ReplayError::NoMemory),
        Err(JournalError::BadLine { line }) => Err(ReplayError::BadJournal {
            line: earlier(line, outside),
        }),
    }
}

// The earlier of two lines, of which the other may be missing.
fn earlier(line: u32, other: Option<u64>) -> u32
    ensures { MatchOption other (result ≡ line) (λ n. result ≡ min n line) }
{
    match other {
        Some(number) => number.min(u64::from(line)) as u32,
        None => line,
    }
}

// A journal that was read, or the line that names a picture outside the path. There is no memory for a line past 2^32.
fn accepted(journal: JournalText, outside: Option<u64>) -> Result<JournalText, ReplayError>
    ensures { MatchOption outside (result ≡ Ok journal)
        (λ n. (result ≡ Err (ReplayError.BadJournal n)) ⊎ (result ≡ Err ReplayError.NoMemory)) }
{
    match outside {
        None => Ok(journal),
        Some(number) => match u32::try_from(number) {
            Ok(line) => Err(ReplayError::BadJournal { line }),
            Err(_) => Err(ReplayError::NoMemory),
        },
    }
}
