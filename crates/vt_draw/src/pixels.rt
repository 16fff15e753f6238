//! The steps of drawing a pixel: its wanted page, the page that serves it, and its word.

ghost use Rattle.std.specs.Prelude.{◌≡◌, ◌<◌};
ghost use Rattle.vt_pages.specs.Pages.{levels_of, pages_of, IsWithinLimits};
ghost use Rattle.vt_draw.specs.Lookups.{Note, WordNote, IsFinestFound, covering_page, covering_place};

use crate::lookups::{Found, Lookup};
use vt_pages::Geometry;

/// The page of the texel of a level that covers a place of level 0.
#[inline(always)]
pub fn page_at_place(geometry: &Geometry, level: u32, column: u32, line: u32) -> u32
    requires level { level < levels_of geometry.now }
    requires column { column < geometry.now.width }
    requires line { line < geometry.now.height }
    ensures page { result ≡ covering_page geometry.now level column line }
    ensures inside { result < pages_of geometry.now }
{
    let _levels = geometry.levels();
    geometry.page_of_place(level, column, line)
}

/// What a look-up finds for a page, given what it found for the page of the pixel before.
#[inline(always)]
pub fn found_for<K: Lookup>(lookup: &mut K, before: u32, found: Found, page: u32) -> Found
    requires before { IsFinestFound (K.shape lookup.old) (K.version lookup.old) (K.says lookup.old) before found }
    requires inside { page < pages_of (K.shape lookup.old) }
    ensures finest { IsFinestFound (K.shape lookup.new) (K.version lookup.new) (K.says lookup.new) page result }
    ensures said { (note : Note) → K.says lookup.old note → K.says lookup.new note }
    ensures version { K.version lookup.new ≡ K.version lookup.old }
    ensures shape { K.shape lookup.new ≡ K.shape lookup.old }
    ensures kept { K.kept lookup.new ≡ K.kept lookup.old }
{
    if page == before {
        found
    } else {
        lookup.find(page)
    }
}

/// The word at a place of level 0, in the page that was found for the page of that place at a level.
#[inline(always)]
pub fn word_at_place<K: Lookup>(
    lookup: &mut K,
    found: &Found,
    level: u32,
    column: u32,
    line: u32,
) -> u64
    requires limits { IsWithinLimits (K.shape lookup.old) }
    requires level { level < levels_of (K.shape lookup.old) }
    requires column { column < (K.shape lookup.old).width }
    requires line { line < (K.shape lookup.old).height }
    requires finest { IsFinestFound (K.shape lookup.old) (K.version lookup.old) (K.says lookup.old)
        (covering_page (K.shape lookup.old) level column line) found.now }
    ensures read { K.says lookup.new (WordNote (K.version lookup.new) found.now.slot
        (covering_place (K.shape lookup.new) found.now.level column line) result) }
    ensures said { (note : Note) → K.says lookup.old note → K.says lookup.new note }
    ensures version { K.version lookup.new ≡ K.version lookup.old }
    ensures shape { K.shape lookup.new ≡ K.shape lookup.old }
    ensures kept { K.kept lookup.new ≡ K.kept lookup.old }
{
    lookup.texel(found, column >> found.level, line >> found.level)
}
