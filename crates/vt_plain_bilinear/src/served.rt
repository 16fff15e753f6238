//! The words of the four texels of a pixel, as a look-up of pages serves them.

ghost use Rattle.std.specs.Prelude.{◌≡◌, ◌<◌};
ghost use Rattle.std.specs.Bool.{MatchBool};
ghost use Rattle.vt_pages.specs.Pages.{pages_of, levels_of, texel_page, IsWithinLimits};
ghost use Rattle.vt_pages.specs.Laws.{IsInside};
ghost use Rattle.vt_definitions.specs.Sides.{side};
ghost use Rattle.vt_draw.specs.Lookups.{WordNote, IsFinestFound};
ghost use Rattle.vt_blend.specs.Corners.{AreInside};
ghost use Rattle.vt_plain_bilinear.specs.Served.{LookupGoesOn, coarser_place, AreCornersServed, pages_about, AreOne, IsMemo};

use vt_blend::{Corners, Pages, Texels};
use vt_draw::{Found, Lookup};
use vt_pages::Geometry;

/// A page that a look-up was asked for, and what it found.
#[derive(Clone, Copy)]
pub struct Seen {
    pub page: u32,
    pub found: Found,
}

/// The pages that a look-up was asked for last, the newest first: a pixel has four pages at most, so one that wants those of the pixel
/// before it asks for none.
#[derive(Clone, Copy)]
pub struct Memo {
    pub first: Seen,
    pub second: Seen,
    pub third: Seen,
    pub fourth: Seen,
}

// The pages of the texels at some corners of a level.
#[inline(always)]
pub(crate) fn pages_about(geometry: &Geometry, level: u32, at: &Corners) -> Pages
    requires level { level < levels_of geometry.now }
    requires inside { AreInside (side geometry.now.width level) (side geometry.now.height level) at.now }
    ensures pages { result ≡ pages_about geometry.now level at.now }
    ensures first { result.first < pages_of geometry.now }
    ensures second { result.second < pages_of geometry.now }
    ensures third { result.third < pages_of geometry.now }
    ensures fourth { result.fourth < pages_of geometry.now }
{
    Pages {
        first: geometry.page_of_texel(level, at.column, at.line),
        second: geometry.page_of_texel(level, at.next_column, at.line),
        third: geometry.page_of_texel(level, at.column, at.next_line),
        fourth: geometry.page_of_texel(level, at.next_column, at.next_line),
    }
}

// What a look-up finds for a page that is not the one it was asked for last. It is asked only where the page is none of the last four.
#[inline(never)]
fn recall_older<K: Lookup>(lookup: &mut K, geometry: &Geometry, memo: &mut Memo, page: u32) -> Found
    requires shape { K.shape lookup.old ≡ geometry.now }
    requires known { IsMemo geometry.now (K.version lookup.old) (K.says lookup.old) memo.old }
    requires inside { page < pages_of geometry.now }
    ensures finest { IsFinestFound geometry.now (K.version lookup.old) (K.says lookup.new) page result }
    ensures known { IsMemo geometry.now (K.version lookup.old) (K.says lookup.new) memo.new }
    ensures on { LookupGoesOn (K.shape lookup.old) (K.version lookup.old) (K.says lookup.old) (K.kept lookup.old)
        (K.shape lookup.new) (K.version lookup.new) (K.says lookup.new) (K.kept lookup.new) }
{
    if memo.second.page == page {
        return memo.second.found;
    }
    if memo.third.page == page {
        return memo.third.found;
    }
    if memo.fourth.page == page {
        return memo.fourth.found;
    }
    let found = lookup.find(page);
    *memo = Memo {
        first: Seen { page, found },
        second: memo.first,
        third: memo.second,
        fourth: memo.third,
    };
    found
}

// What a look-up finds for a page: most pixels want the page that it was asked for last.
#[inline(always)]
fn recall<K: Lookup>(lookup: &mut K, geometry: &Geometry, memo: &mut Memo, page: u32) -> Found
    requires shape { K.shape lookup.old ≡ geometry.now }
    requires known { IsMemo geometry.now (K.version lookup.old) (K.says lookup.old) memo.old }
    requires inside { page < pages_of geometry.now }
    ensures finest { IsFinestFound geometry.now (K.version lookup.old) (K.says lookup.new) page result }
    ensures known { IsMemo geometry.now (K.version lookup.old) (K.says lookup.new) memo.new }
    ensures on { LookupGoesOn (K.shape lookup.old) (K.version lookup.old) (K.says lookup.old) (K.kept lookup.old)
        (K.shape lookup.new) (K.version lookup.new) (K.says lookup.new) (K.kept lookup.new) }
{
    if memo.first.page == page {
        memo.first.found
    } else {
        recall_older(lookup, geometry, memo, page)
    }
}

// Whether four pages are one.
#[inline(always)]
pub(crate) fn are_one(pages: &Pages) -> bool
    ensures { MatchBool result (AreOne pages.now) (AreOne pages.now → ⊥) }
{
    let page = pages.first;
    pages.second == page && pages.third == page && pages.fourth == page
}

// The word of the texel in a column and a line of a level, in the page that was found for the texel's.
#[inline(always)]
fn word_of_texel<K: Lookup>(
    lookup: &mut K,
    geometry: &Geometry,
    found: &Found,
    level: u32,
    column: u32,
    line: u32,
) -> u64
    requires limits { IsWithinLimits geometry.now }
    requires shape { K.shape lookup.old ≡ geometry.now }
    requires inside { IsInside geometry.now level column line }
    requires finest { IsFinestFound geometry.now (K.version lookup.old) (K.says lookup.old)
        (texel_page geometry.now level column line) found.now }
    ensures read { K.says lookup.new (WordNote (K.version lookup.old) found.now.slot
        (coarser_place geometry.now level found.now.level column line) result) }
    ensures on { LookupGoesOn (K.shape lookup.old) (K.version lookup.old) (K.says lookup.old) (K.kept lookup.old)
        (K.shape lookup.new) (K.version lookup.new) (K.says lookup.new) (K.kept lookup.new) }
{
    let up = found.level - level;
    lookup.texel(found, column >> up, line >> up)
}

// The words at some corners of a level, each in the page that was found for its own.
#[inline(always)]
pub(crate) fn words_by<K: Lookup>(
    lookup: &mut K,
    geometry: &Geometry,
    level: u32,
    at: &Corners,
    first: &Found,
    second: &Found,
    third: &Found,
    fourth: &Found,
) -> Texels
    requires limits { IsWithinLimits geometry.now }
    requires shape { K.shape lookup.old ≡ geometry.now }
    requires level { level < levels_of geometry.now }
    requires inside { AreInside (side geometry.now.width level) (side geometry.now.height level) at.now }
    requires first { IsFinestFound geometry.now (K.version lookup.old) (K.says lookup.old)
        (pages_about geometry.now level at.now).first first.now }
    requires second { IsFinestFound geometry.now (K.version lookup.old) (K.says lookup.old)
        (pages_about geometry.now level at.now).second second.now }
    requires third { IsFinestFound geometry.now (K.version lookup.old) (K.says lookup.old)
        (pages_about geometry.now level at.now).third third.now }
    requires fourth { IsFinestFound geometry.now (K.version lookup.old) (K.says lookup.old)
        (pages_about geometry.now level at.now).fourth fourth.now }
    ensures served { AreCornersServed geometry.now (K.version lookup.old) (K.says lookup.new) level at.now result }
    ensures on { LookupGoesOn (K.shape lookup.old) (K.version lookup.old) (K.says lookup.old) (K.kept lookup.old)
        (K.shape lookup.new) (K.version lookup.new) (K.says lookup.new) (K.kept lookup.new) }
{
    Texels {
        first: word_of_texel(lookup, geometry, first, level, at.column, at.line),
        second: word_of_texel(lookup, geometry, second, level, at.next_column, at.line),
        third: word_of_texel(lookup, geometry, third, level, at.column, at.next_line),
        fourth: word_of_texel(
            lookup,
            geometry,
            fourth,
            level,
            at.next_column,
            at.next_line,
        ),
    }
}

// The words at some corners of a level that are in several pages. Few pixels have such, and so it keeps out of their loop.
#[inline(never)]
pub(crate) fn words_apart<K: Lookup>(
    lookup: &mut K,
    geometry: &Geometry,
    memo: &mut Memo,
    level: u32,
    at: &Corners,
    pages: &Pages,
) -> Texels
    requires limits { IsWithinLimits geometry.now }
    requires shape { K.shape lookup.old ≡ geometry.now }
    requires known { IsMemo geometry.now (K.version lookup.old) (K.says lookup.old) memo.old }
    requires level { level < levels_of geometry.now }
    requires inside { AreInside (side geometry.now.width level) (side geometry.now.height level) at.now }
    requires pages { pages.now ≡ pages_about geometry.now level at.now }
    requires first { pages.now.first < pages_of geometry.now }
    requires second { pages.now.second < pages_of geometry.now }
    requires third { pages.now.third < pages_of geometry.now }
    requires fourth { pages.now.fourth < pages_of geometry.now }
    ensures served { AreCornersServed geometry.now (K.version lookup.old) (K.says lookup.new) level at.now result }
    ensures known { IsMemo geometry.now (K.version lookup.old) (K.says lookup.new) memo.new }
    ensures on { LookupGoesOn (K.shape lookup.old) (K.version lookup.old) (K.says lookup.old) (K.kept lookup.old)
        (K.shape lookup.new) (K.version lookup.new) (K.says lookup.new) (K.kept lookup.new) }
{
    let first = recall(lookup, geometry, memo, pages.first);
    let second = recall(lookup, geometry, memo, pages.second);
    let third = recall(lookup, geometry, memo, pages.third);
    let fourth = recall(lookup, geometry, memo, pages.fourth);
    words_by(
        lookup, geometry, level, at, &first, &second, &third, &fourth,
    )
}

// The words at some corners of a level, whose pages are given, each of the finest mapped page of the line of its own page.
#[inline(always)]
pub(crate) fn words_on<K: Lookup>(
    lookup: &mut K,
    geometry: &Geometry,
    memo: &mut Memo,
    level: u32,
    at: &Corners,
    pages: &Pages,
) -> Texels
    requires limits { IsWithinLimits geometry.now }
    requires shape { K.shape lookup.old ≡ geometry.now }
    requires known { IsMemo geometry.now (K.version lookup.old) (K.says lookup.old) memo.old }
    requires level { level < levels_of geometry.now }
    requires inside { AreInside (side geometry.now.width level) (side geometry.now.height level) at.now }
    requires pages { pages.now ≡ pages_about geometry.now level at.now }
    requires first { pages.now.first < pages_of geometry.now }
    requires second { pages.now.second < pages_of geometry.now }
    requires third { pages.now.third < pages_of geometry.now }
    requires fourth { pages.now.fourth < pages_of geometry.now }
    ensures served { AreCornersServed geometry.now (K.version lookup.old) (K.says lookup.new) level at.now result }
    ensures known { IsMemo geometry.now (K.version lookup.old) (K.says lookup.new) memo.new }
    ensures on { LookupGoesOn (K.shape lookup.old) (K.version lookup.old) (K.says lookup.old) (K.kept lookup.old)
        (K.shape lookup.new) (K.version lookup.new) (K.says lookup.new) (K.kept lookup.new) }
{
    if are_one(pages) {
        let found = recall(lookup, geometry, memo, pages.first);
        words_by(lookup, geometry, level, at, &found, &found, &found, &found)
    } else {
        words_apart(lookup, geometry, memo, level, at, pages)
    }
}

/// The words at some corners of a level, each of the finest mapped page of the line of its own page, and the page of the first.
#[inline(always)]
pub fn words_about<K: Lookup>(
    lookup: &mut K,
    geometry: &Geometry,
    memo: &mut Memo,
    level: u32,
    at: &Corners,
) -> (Texels, u32)
    requires limits { IsWithinLimits geometry.now }
    requires shape { K.shape lookup.old ≡ geometry.now }
    requires known { IsMemo geometry.now (K.version lookup.old) (K.says lookup.old) memo.old }
    requires level { level < levels_of geometry.now }
    requires inside { AreInside (side geometry.now.width level) (side geometry.now.height level) at.now }
    ensures served { AreCornersServed geometry.now (K.version lookup.old) (K.says lookup.new) level at.now result.0 }
    ensures page { result.1 ≡ texel_page geometry.now level at.now.column at.now.line }
    ensures known { IsMemo geometry.now (K.version lookup.old) (K.says lookup.new) memo.new }
    ensures on { LookupGoesOn (K.shape lookup.old) (K.version lookup.old) (K.says lookup.old) (K.kept lookup.old)
        (K.shape lookup.new) (K.version lookup.new) (K.says lookup.new) (K.kept lookup.new) }
{
    let pages = pages_about(geometry, level, at);
    let texels = words_on(lookup, geometry, memo, level, at, &pages);
    (texels, pages.first)
}

/// What a look-up finds for a page, as all that it was asked for.
#[inline(always)]
pub fn memo_of<K: Lookup>(lookup: &mut K, geometry: &Geometry, page: u32) -> Memo
    requires shape { K.shape lookup.old ≡ geometry.now }
    requires inside { page < pages_of geometry.now }
    ensures known { IsMemo geometry.now (K.version lookup.old) (K.says lookup.new) result }
    ensures on { LookupGoesOn (K.shape lookup.old) (K.version lookup.old) (K.says lookup.old) (K.kept lookup.old)
        (K.shape lookup.new) (K.version lookup.new) (K.says lookup.new) (K.kept lookup.new) }
{
    let found = lookup.find(page);
    let seen = Seen { page, found };
    Memo {
        first: seen,
        second: seen,
        third: seen,
        fourth: seen,
    }
}
