// A run by bilinear filtering, of one pixel over the texture of 4x4 texels.
use super::files::G4;
use super::rows::Held::All;
use super::rows::{Row, hold};
use std::test::*;

// Half a texel to the right of texel (3, 3) and three quarters down, where the texels 12, 3 and 0 of the other edges come next.
const WRAPPING: &[u8] = b"size 1 1\nfocal 1\nat 640 -64 256 16384 0\n";

// The blend of the texels 15, 12, 3 and 0, with the weights 8192, 8192, 24576 and 24576.
const BLEND: &[u8] = b"P6\n1 1\n255\n\x05\x05\x05";

const PLAIN: Row<'static> = Row {
    words: "plain g4.ppm a.path f --tile 2 --filter bilinear",
    files: &[("g4.ppm", All(G4)), ("a.path", All(WRAPPING))],
    fail: None,
    err_fail: None,
    status: 0,
    left: &[],
    missing: &["journal.txt"],
    pictures: &[BLEND],
    out: b"end pictures 1\n",
    err: b"",
};

static PLAIN_ROWS: [Row<'static>; 1] = [PLAIN];

#[test]
fn a_plain_pixel_is_the_blend_of_four_texels(rt: HostRuntime) {
    hold(&rt, rt.alloc(), &PLAIN_ROWS);
}
