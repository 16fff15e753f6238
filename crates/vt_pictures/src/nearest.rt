//! Pixels that are one texel each, the nearest.

use crate::filters::Filter;
use vt_draw::{Lookup, Shot, draw_row};

/// Each pixel is one texel: that of its row's level which covers its place, served by the finest mapped page (van Waveren 2012).
pub struct Nearest {}

impl Filter for Nearest {
    ghost use Rattle.std.specs.Prelude.{Contains};
    ghost use Rattle.vt_draw.specs.Shots.{pixels_wanting, IsDrawn};
    ghost use Rattle.vt_pictures.specs.Replays.{pixel_under, plain_pixel};
    ghost use Rattle.vt_pictures.specs.NearestPixels.{shown_is_under};
    ghost use Rattle.vt_pictures.specs.NearestPlain.{mapped_is_plain, wants_one};

    ghost wants = { pixels_wanting };

    ghost shown = { λ s depth version notes row x bytes. IsDrawn s depth version (Contains notes) row x bytes };

    ghost under = { λ source scene m i x y. pixel_under source scene m i x y };

    ghost plain = { λ source scene i x y. plain_pixel source scene i x y };

    fn draw_row<K: Lookup>(
        lookup: &mut K,
        shot: &Shot,
        y: u32,
        out: &mut [u8],
        counts: &mut [u32],
    ) {
        draw_row(lookup, shot, y, out, counts);
    }

    ghost is_under = { λ source scene m version i x y notes bytes limits are is.
        shown_is_under source scene m version i x y (Contains notes) bytes limits are is };

    ghost is_plain = { λ source scene m i x y limits below_width below_height root mapped.
        mapped_is_plain source scene m i x y limits below_width below_height mapped };

    ghost wants_few = { λ s row n p. wants_one s row n p };
}
