//! Runs of texels by bilinear filtering, read over a look-up of pages.

ghost use Rattle.std.specs.Prelude.{◌≡◌, ◌*◌, ◌/◌, ◌^◌, ◌<◌, length};
ghost use Rattle.vt_definitions.specs.Depths.{IsDepth, texel_length};
ghost use Rattle.vt_definitions.specs.Limits.{most_levels};
ghost use Rattle.vt_pages.specs.Pages.{IsWithinLimits};
ghost use Rattle.vt_draw.specs.Lookups.{Note};
ghost use Rattle.vt_blend.specs.Corners.{corners_at, AreInside};
ghost use Rattle.vt_plain_bilinear.specs.Served.{LookupGoesOn};
ghost use Rattle.vt_texel_runs.specs.Blends.{spot_at, AreBlendsAlong};
ghost use Rattle.vt_texel_runs.specs.Spans.{IsSpanInside, AreWantedBySpan};

use crate::spans::Span;
use vt_blend::{Corners, blend_words, corners_at, weights_of};
use vt_definitions::put_word;
use vt_draw::Lookup;
use vt_pages::Geometry;
use vt_plain_bilinear::{memo_of, words_about};

// The place of level 0 so many steps from a start, in 1/256 texel.
#[inline(always)]
fn spot_at(start: u32, step: u32, i: u32) -> u32
    ensures { result ≡ spot_at start step i }
{
    ((start as u64 + step as u64 * i as u64) % 4294967296 / 256) as u32
}

// The corners of a texel of a run whose level has so many columns and rows.
#[inline(always)]
fn corners_along(span: &Span, columns: u32, rows: u32, i: u32) -> Corners
    requires level { span.now.level < most_levels }
    requires column { spot_at span.now.x span.now.step_x i / 2 ^ span.now.level / 256 < columns }
    requires line { spot_at span.now.y span.now.step_y i / 2 ^ span.now.level / 256 < rows }
    ensures value { result ≡ corners_at columns rows (spot_at span.now.x span.now.step_x i / 2 ^ span.now.level)
        (spot_at span.now.y span.now.step_y i / 2 ^ span.now.level) }
    ensures inside { AreInside columns rows result }
{
    corners_at(
        columns,
        rows,
        spot_at(span.x, span.step_x, i) >> span.level,
        spot_at(span.y, span.step_y, i) >> span.level,
    )
}

// Writes the bytes of a run of blends of DEPTH bytes a sample, and the page that each wants. It takes the span by value, for then no write
// can be one to the span's numbers.
#[inline(never)]
fn blend_each<K: Lookup, const DEPTH: u32>(
    lookup: &mut K,
    geometry: &Geometry,
    span: Span,
    out: &mut [u8],
    pages: &mut [u32],
)
    requires depth { IsDepth DEPTH }
    requires limits { IsWithinLimits geometry.now }
    requires inside { IsSpanInside geometry.now span }
    requires bytes { length out.old ≡ texel_length DEPTH * span.count }
    requires pages { length pages.old ≡ span.count }
    requires shape { K.shape lookup.old ≡ geometry.now }
    ensures answered { AreBlendsAlong geometry.now DEPTH (K.version lookup.new) (K.says lookup.new) span span.count out.new }
    ensures wanted { AreWantedBySpan geometry.now span span.count pages.new }
    ensures on { LookupGoesOn (K.shape lookup.old) (K.version lookup.old) (K.says lookup.old) (K.kept lookup.old)
        (K.shape lookup.new) (K.version lookup.new) (K.says lookup.new) (K.kept lookup.new) }
{
    if span.count == 0 {
        return;
    }
    let level = span.level;
    let (wide, high) = geometry.level_size(level);
    let first = corners_along(&span, wide, high, 0);
    let page = geometry.page_of_texel(level, first.column, first.line);
    let mut memo = memo_of(lookup, geometry, page);
    for i in 0..span.count {
        let at = corners_along(&span, wide, high, i);
        let (texels, wanted) = words_about(lookup, geometry, &mut memo, level, &at);
        put_word::<DEPTH>(
            out,
            i as usize,
            blend_words::<DEPTH>(&weights_of(&at), &texels),
        );
        pages[i as usize] = wanted;
    }
}

/// Writes the bytes of a run of texels, each the blend of the four about its place, which the finest mapped pages serve, and the page that
/// each wants: that of the first of its four. The look-up is asked once for neighbouring texels of one page. It takes no memory and refuses
/// nothing.
pub fn blend_run<K: Lookup>(
    lookup: &mut K,
    geometry: &Geometry,
    depth: u32,
    span: &Span,
    out: &mut [u8],
    pages: &mut [u32],
)
    requires depth { IsDepth depth }
    requires limits { IsWithinLimits geometry.now }
    requires inside { IsSpanInside geometry.now span.now }
    requires bytes { length out.old ≡ texel_length depth * span.now.count }
    requires pages { length pages.old ≡ span.now.count }
    requires shape { K.shape lookup.old ≡ geometry.now }
    ensures answered { AreBlendsAlong geometry.now depth (K.version lookup.new) (K.says lookup.new) span.now span.now.count out.new }
    ensures wanted { AreWantedBySpan geometry.now span.now span.now.count pages.new }
    ensures said { (note : Note) → K.says lookup.old note → K.says lookup.new note }
    ensures version { K.version lookup.new ≡ K.version lookup.old }
    ensures shape { K.shape lookup.new ≡ K.shape lookup.old }
    ensures kept { K.kept lookup.new ≡ K.kept lookup.old }
{
    if depth == 1 {
        blend_each::<K, 1>(lookup, geometry, *span, out, pages);
    } else {
        blend_each::<K, 2>(lookup, geometry, *span, out, pages);
    }
}
