//! Texels by places of level 0 and wanted levels, read over a look-up of pages.

ghost use Rattle.std.specs.Prelude.{◌≡◌, ◌*◌, ◌<◌, length};
ghost use Rattle.std.specs.List.{All};
ghost use Rattle.std.specs.Bool.{MatchBool};
ghost use Rattle.vt_definitions.specs.Depths.{IsDepth, texel_length};
ghost use Rattle.vt_pages.specs.Pages.{IsWithinLimits};
ghost use Rattle.vt_draw.specs.Lookups.{Note};
ghost use Rattle.vt_texel_runs.specs.Points.{IsPoint, AreAnswered};

use vt_definitions::put_word;
use vt_draw::{Lookup, found_for, page_at_place, word_at_place};
use vt_pages::Geometry;

/// A place of level 0, and the level at which it is wanted.
#[repr(C)]
#[derive(Clone, Copy)]
pub struct Point {
    pub level: u32,
    pub x: u32,
    pub y: u32,
}

/// Whether a point is one of the texture's.
pub(crate) fn is_point(width: u32, height: u32, levels: u32, point: &Point) -> bool
    ensures { MatchBool result ((point.now.level < levels) × (point.now.x < width) × (point.now.y < height))
        ((point.now.level < levels) × (point.now.x < width) × (point.now.y < height) → ⊥) }
{
    point.level < levels && (point.x < width && point.y < height)
}

/// Whether all points are the texture's.
pub fn are_points(geometry: &Geometry, points: &[Point]) -> bool
    ensures { MatchBool result (All (IsPoint geometry.now) points.now) (All (IsPoint geometry.now) points.now → ⊥) }
{
    let width = geometry.width();
    let height = geometry.height();
    let levels = geometry.levels();
    for point in points {
        if !is_point(width, height, levels, point) {
            return false;
        }
    }
    true
}

// Writes the bytes of texels of DEPTH bytes a sample.
#[inline(never)]
fn read_points<K: Lookup, const DEPTH: u32>(
    lookup: &mut K,
    geometry: &Geometry,
    points: &[Point],
    out: &mut [u8],
)
    requires depth { IsDepth DEPTH }
    requires limits { IsWithinLimits geometry.now }
    requires points { All (IsPoint geometry.now) points.now }
    requires bytes { length out.old ≡ texel_length DEPTH * length points.now }
    requires shape { K.shape lookup.old ≡ geometry.now }
    ensures answered { AreAnswered geometry.now DEPTH (K.version lookup.new) (K.says lookup.new) points.now (length points.now) out.new }
    ensures said { (note : Note) → K.says lookup.old note → K.says lookup.new note }
    ensures version { K.version lookup.new ≡ K.version lookup.old }
    ensures shape { K.shape lookup.new ≡ K.shape lookup.old }
    ensures kept { K.kept lookup.new ≡ K.kept lookup.old }
{
    if points.len() == 0 {
        return;
    }
    let first = points[0];
    let mut wanted = page_at_place(geometry, first.level, first.x, first.y);
    let mut found = lookup.find(wanted);
    for i in 0..points.len() {
        let point = points[i];
        let page = page_at_place(geometry, point.level, point.x, point.y);
        found = found_for(lookup, wanted, found, page);
        wanted = page;
        let word = word_at_place(lookup, &found, point.level, point.x, point.y);
        put_word::<DEPTH>(out, i, word);
    }
}

/// Writes the bytes of the texels over points, three samples a texel, the most significant byte of a sample first, each from the finest
/// mapped page of its page's line. The look-up is asked once for a run of points that want the same page. It takes no memory and refuses
/// nothing.
pub fn read_all<K: Lookup>(
    lookup: &mut K,
    geometry: &Geometry,
    depth: u32,
    points: &[Point],
    out: &mut [u8],
)
    requires depth { IsDepth depth }
    requires limits { IsWithinLimits geometry.now }
    requires points { All (IsPoint geometry.now) points.now }
    requires bytes { length out.old ≡ texel_length depth * length points.now }
    requires shape { K.shape lookup.old ≡ geometry.now }
    ensures answered { AreAnswered geometry.now depth (K.version lookup.new) (K.says lookup.new) points.now (length points.now) out.new }
    ensures said { (note : Note) → K.says lookup.old note → K.says lookup.new note }
    ensures version { K.version lookup.new ≡ K.version lookup.old }
    ensures shape { K.shape lookup.new ≡ K.shape lookup.old }
    ensures kept { K.kept lookup.new ≡ K.kept lookup.old }
{
    if depth == 1 {
        read_points::<K, 1>(lookup, geometry, points, out);
    } else {
        read_points::<K, 2>(lookup, geometry, points, out);
    }
}
