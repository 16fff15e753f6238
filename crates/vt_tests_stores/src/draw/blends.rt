//! The worked pictures of one pixel by blends, over two look-ups and over the whole chain.

ghost use Rattle.std.specs.Prelude.{◌≡◌, length, IfSome};

use crate::draw::tables::Table;
use crate::fixtures::{FOUR, holds, image_of};
use std::alloc::Global;
use std::thread::Threads;
use vt_camera::{Path, parse_path};
use vt_draw::Shot;
use vt_mip::Chain;
use vt_pages::Geometry;
use vt_plain::draw_plain_blend;
use vt_plain_bilinear::draw_row_blend;

// From the height of one texel: a place between the texels 1, 2, 5 and 6, which weigh 24576, 24576, 8192 and 8192, and one in the
// last column and row, after which the texture begins anew.
const BETWEEN: &[u8] = b"size 1 1\nfocal 1\nat 128 64 256 16384 0\n";

const WRAPPED: &[u8] = b"size 1 1\nfocal 1\nat 640 -64 256 16384 0\n";

// The path, if it has one picture of one pixel.
fn path_of(alloc: Global, text: &[u8]) -> Option<Path>
    ensures { IfSome result (λ path. (length path.cameras ≡ 1) × (path.width ≡ 1) × (path.height ≡ 1)) }
{
    let path = parse_path(alloc, text).ok()?;
    if path.pictures() == 1 && path.width() == 1 && path.height() == 1 {
        return Some(path);
    }
    None
}

// Whether the picture that is drawn over a table which maps the pages from a level on has this sample, and the counts, which
// were 7 each, are these.
fn is_blended(alloc: Global, text: &[u8], least: u32, sample: u8, counted: &[u32; 5]) -> bool {
    let Ok(geometry) = Geometry::new(4, 4, 2) else {
        return false;
    };
    let Some(path) = path_of(alloc, text) else {
        return false;
    };
    if geometry.page_count() != 5 || least >= geometry.levels() {
        return false;
    }
    let shot = Shot {
        geometry: &geometry,
        path: &path,
        picture: 0,
        depth: 1,
    };
    let mut table = Table::new(geometry, least, false);
    let mut counts = [7; 5];
    let mut picture = [0; 3];
    draw_row_blend(&mut table, &shot, 0, &mut picture, &mut counts);
    picture == [sample; 3] && counts == *counted
}

#[test]
fn a_pixel_is_the_blend_of_the_texels_about_its_place(rt: HostRuntime) {
    holds(&rt, is_blended(rt.alloc(), BETWEEN, 0, 3, &[9, 9, 7, 7, 7]));
    holds(&rt, is_blended(rt.alloc(), WRAPPED, 0, 5, &[8, 8, 8, 8, 7]));
}

#[test]
fn each_texel_of_a_blend_is_served_by_an_ancestor(rt: HostRuntime) {
    holds(&rt, is_blended(rt.alloc(), WRAPPED, 1, 6, &[8, 8, 8, 8, 7]));
}

// The first sample of the plain picture by blends of the texture of four columns and rows.
fn plain_sample<Rt: Threads + Sync>(rt: &Rt, alloc: Global, text: &[u8]) -> Option<u8> {
    let path = path_of(alloc, text)?;
    let image = image_of(alloc, 1, 4, 4, &FOUR)?;
    let chain = Chain::build(rt, alloc, image, 2).ok()?;
    let picture = draw_plain_blend(rt, alloc, &chain, &path, 0).ok()?;
    picture.get(0).copied()
}

#[test]
fn the_plain_picture_blends_the_chain(rt: HostRuntime) {
    holds(&rt, plain_sample(&rt, rt.alloc(), BETWEEN) == Some(3));
    holds(&rt, plain_sample(&rt, rt.alloc(), WRAPPED) == Some(5));
}
