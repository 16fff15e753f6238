//! Runs of texels at even steps, read over a look-up of pages.

ghost use Rattle.std.specs.Prelude.{◌≡◌, ◌*◌, ◌<◌, ◌≤◌, length};
ghost use Rattle.std.specs.Bool.{MatchBool};
ghost use Rattle.vt_definitions.specs.Depths.{IsDepth, texel_length};
ghost use Rattle.vt_pages.specs.Pages.{IsWithinLimits};
ghost use Rattle.vt_draw.specs.Lookups.{Note};
ghost use Rattle.vt_texel_runs.specs.Spans.{stepped, span_point, IsSpanInside, AreSpanned, AreWantedBySpan};
ghost use Rattle.vt_texel_runs.specs.Stretches.{IsStretch};

use crate::points::Point;
use crate::stretches::{end_of_page, is_axis_inside};
use vt_definitions::put_word;
use vt_draw::{Found, Lookup, page_at_place, word_at_place};
use vt_pages::Geometry;

/// A run of texels: the level at which they are wanted, the place of level 0 of the first one, the step from one to the next, and how many
/// they are. Places and steps are in parts of 65536 of a texel and go round at 2^32, so a step back is its negative number.
#[repr(C)]
#[derive(Clone, Copy)]
pub struct Span {
    pub level: u32,
    pub x: u32,
    pub y: u32,
    pub step_x: u32,
    pub step_y: u32,
    pub count: u32,
}

// The texel of level 0 so many steps from a start.
#[inline(always)]
fn stepped(start: u32, step: u32, i: u32) -> u32
    ensures { result ≡ stepped start step i }
{
    ((start as u64 + step as u64 * i as u64) % 4294967296 / 65536) as u32
}

// The point of a texel of a run.
#[inline(always)]
fn point_of(span: &Span, i: u32) -> Point
    ensures { result ≡ span_point span.now i }
{
    Point {
        level: span.level,
        x: stepped(span.x, span.step_x, i),
        y: stepped(span.y, span.step_y, i),
    }
}

// Points of a run that want one page: the page, the index behind the last of them, and what was found for the page.
#[derive(Clone, Copy)]
struct Stretch {
    page: u32,
    until: u32,
    found: Found,
}

/// Whether all points of a run are the texture's. The two ends decide.
pub fn is_run(geometry: &Geometry, span: &Span) -> bool
    ensures { MatchBool result (IsSpanInside geometry.now span.now) (IsSpanInside geometry.now span.now → ⊥) }
{
    if span.count == 0 {
        return true;
    }
    if span.level >= geometry.levels() {
        return false;
    }
    let last = span.count - 1;
    if !is_axis_inside(geometry.width(), span.x, span.step_x, last) {
        return false;
    }
    if !is_axis_inside(geometry.height(), span.y, span.step_y, last) {
        return false;
    }
    true
}

// The points of a run from an index on that want the page of that one. It keeps out of the loop over texels.
#[inline(never)]
fn stretch_from<K: Lookup>(lookup: &mut K, geometry: &Geometry, span: Span, i: u32) -> Stretch
    requires limits { IsWithinLimits geometry.now }
    requires inside { IsSpanInside geometry.now span }
    requires below { i < span.count }
    requires shape { K.shape lookup.old ≡ geometry.now }
    ensures stretch { IsStretch geometry.now (K.version lookup.new) (K.says lookup.new) span i result }
    ensures some { i < result.until }
    ensures said { (note : Note) → K.says lookup.old note → K.says lookup.new note }
    ensures version { K.version lookup.new ≡ K.version lookup.old }
    ensures shape { K.shape lookup.new ≡ K.shape lookup.old }
    ensures kept { K.kept lookup.new ≡ K.kept lookup.old }
{
    let point = point_of(&span, i);
    let page = page_at_place(geometry, point.level, point.x, point.y);
    let found = lookup.find(page);
    Stretch {
        page,
        until: end_of_page(geometry, &span, i),
        found,
    }
}

// The stretch of a point, given that of the point before: a new one only where that one ends.
#[inline(always)]
fn stretch_for<K: Lookup>(
    lookup: &mut K,
    geometry: &Geometry,
    span: Span,
    i: u32,
    before: Stretch,
) -> Stretch
    requires limits { IsWithinLimits geometry.now }
    requires inside { IsSpanInside geometry.now span }
    requires below { i < span.count }
    requires shape { K.shape lookup.old ≡ geometry.now }
    requires known { i ≤ before.until }
    requires before { IsStretch geometry.now (K.version lookup.old) (K.says lookup.old) span i before }
    ensures stretch { IsStretch geometry.now (K.version lookup.new) (K.says lookup.new) span i result }
    ensures some { i < result.until }
    ensures said { (note : Note) → K.says lookup.old note → K.says lookup.new note }
    ensures version { K.version lookup.new ≡ K.version lookup.old }
    ensures shape { K.shape lookup.new ≡ K.shape lookup.old }
    ensures kept { K.kept lookup.new ≡ K.kept lookup.old }
{
    if i == before.until {
        stretch_from(lookup, geometry, span, i)
    } else {
        before
    }
}

// Writes the bytes of a run of texels of DEPTH bytes a sample, and the page that each wants. It takes the span by value, for then no write
// can be one to the span's numbers.
#[inline(never)]
fn read_each<K: Lookup, const DEPTH: u32>(
    lookup: &mut K,
    geometry: &Geometry,
    span: Span,
    out: &mut [u8],
    pages: &mut [u32],
)
    requires depth { IsDepth DEPTH }
    requires limits { IsWithinLimits geometry.now }
    requires inside { IsSpanInside geometry.now span }
    requires bytes { length out.old ≡ texel_length DEPTH * span.count }
    requires pages { length pages.old ≡ span.count }
    requires shape { K.shape lookup.old ≡ geometry.now }
    ensures answered { AreSpanned geometry.now DEPTH (K.version lookup.new) (K.says lookup.new) span span.count out.new }
    ensures wanted { AreWantedBySpan geometry.now span span.count pages.new }
    ensures said { (note : Note) → K.says lookup.old note → K.says lookup.new note }
    ensures version { K.version lookup.new ≡ K.version lookup.old }
    ensures shape { K.shape lookup.new ≡ K.shape lookup.old }
    ensures kept { K.kept lookup.new ≡ K.kept lookup.old }
{
    if span.count == 0 {
        return;
    }
    let mut stretch = stretch_from(lookup, geometry, span, 0);
    for i in 0..span.count {
        stretch = stretch_for(lookup, geometry, span, i, stretch);
        let point = point_of(&span, i);
        let word = word_at_place(lookup, &stretch.found, point.level, point.x, point.y);
        put_word::<DEPTH>(out, i as usize, word);
        pages[i as usize] = stretch.page;
    }
}

/// Writes the bytes of a run of texels, each from the finest mapped page of its page's line, and the page that each wants. The look-up is
/// asked once for those that follow each other and want the same page. It takes no memory and refuses nothing.
pub fn read_run<K: Lookup>(
    lookup: &mut K,
    geometry: &Geometry,
    depth: u32,
    span: &Span,
    out: &mut [u8],
    pages: &mut [u32],
)
    requires depth { IsDepth depth }
    requires limits { IsWithinLimits geometry.now }
    requires inside { IsSpanInside geometry.now span.now }
    requires bytes { length out.old ≡ texel_length depth * span.now.count }
    requires pages { length pages.old ≡ span.now.count }
    requires shape { K.shape lookup.old ≡ geometry.now }
    ensures answered { AreSpanned geometry.now depth (K.version lookup.new) (K.says lookup.new) span.now span.now.count out.new }
    ensures wanted { AreWantedBySpan geometry.now span.now span.now.count pages.new }
    ensures said { (note : Note) → K.says lookup.old note → K.says lookup.new note }
    ensures version { K.version lookup.new ≡ K.version lookup.old }
    ensures shape { K.shape lookup.new ≡ K.shape lookup.old }
    ensures kept { K.kept lookup.new ≡ K.kept lookup.old }
{
    if depth == 1 {
        read_each::<K, 1>(lookup, geometry, *span, out, pages);
    } else {
        read_each::<K, 2>(lookup, geometry, *span, out, pages);
    }
}
