//! Bilinear filtering as a filter: how machines and replays draw by it.

use crate::rows::draw_row_blend;
use vt_draw::{Lookup, Shot};
use vt_pictures::Filter;

/// Each pixel is the blend of the four texels about its place, of its row's level, each served by the finest mapped page.
pub struct Bilinear {}

impl Filter for Bilinear {
    ghost use Rattle.std.specs.Prelude.{Contains};
    ghost use Rattle.vt_plain_bilinear.specs.Served.{IsBlended, texels_wanting};
    ghost use Rattle.vt_plain_bilinear.specs.Shown.{blend_under, plain_blend};
    ghost use Rattle.vt_plain_bilinear.specs.BlendUnder.{blend_is_under};
    ghost use Rattle.vt_plain_bilinear.specs.BlendPlain.{mapped_blend_is_plain, wants_four};

    ghost wants = { texels_wanting };

    ghost shown = { λ s depth version notes row x bytes. IsBlended s depth version (Contains notes) row x bytes };

    ghost under = { λ source scene m i x y. blend_under source scene m i x y };

    ghost plain = { λ source scene i x y. plain_blend source scene i x y };

    fn draw_row<K: Lookup>(
        lookup: &mut K,
        shot: &Shot,
        y: u32,
        out: &mut [u8],
        counts: &mut [u32],
    ) {
        draw_row_blend(lookup, shot, y, out, counts);
    }

    ghost is_under = { λ source scene m version i x y notes bytes limits are is.
        blend_is_under source scene m version i x y (Contains notes) bytes limits are is };

    ghost is_plain = { λ source scene m i x y limits below_width below_height root mapped.
        mapped_blend_is_plain source scene m i x y limits below_width below_height mapped };

    ghost wants_few = { λ s row n p. wants_four s row n p };
}
