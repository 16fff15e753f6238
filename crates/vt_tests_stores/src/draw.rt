//! The worked picture over two look-ups and over the whole chain.

mod blends;
mod tables;

ghost use Rattle.std.specs.Prelude.{◌≡◌, length, IfSome};
ghost use Rattle.vt_ppm.specs.Depths.{IsDepth};

use crate::draw::tables::Table;
use crate::fixtures::{FOUR, holds, image_of};
use std::alloc::Global;
use std::thread::Threads;
use vt_camera::{Path, parse_path};
use vt_draw::{Shot, draw_row};
use vt_mip::Chain;
use vt_pages::Geometry;
use vt_plain::draw_plain;

// One picture of two pixels, from the height of one texel.
const PATH: &[u8] = b"size 2 1\nfocal 1\nat 0 0 256 16384 0\n";

// The texture of four columns and rows in samples of two bytes, each 32,768 more.
const WIDE_FOUR: [u8; 96] = [
    0x80, 0, 0x80, 0, 0x80, 0, 0x80, 1, 0x80, 1, 0x80, 1, 0x80, 2, 0x80, 2, 0x80, 2, 0x80, 3, 0x80,
    3, 0x80, 3, 0x80, 4, 0x80, 4, 0x80, 4, 0x80, 5, 0x80, 5, 0x80, 5, 0x80, 6, 0x80, 6, 0x80, 6,
    0x80, 7, 0x80, 7, 0x80, 7, 0x80, 8, 0x80, 8, 0x80, 8, 0x80, 9, 0x80, 9, 0x80, 9, 0x80, 10,
    0x80, 10, 0x80, 10, 0x80, 11, 0x80, 11, 0x80, 11, 0x80, 12, 0x80, 12, 0x80, 12, 0x80, 13, 0x80,
    13, 0x80, 13, 0x80, 14, 0x80, 14, 0x80, 14, 0x80, 15, 0x80, 15, 0x80, 15,
];

// What is drawn of each depth where all pages are mapped.
const NARROW_PICTURE: [u8; 6] = [0x0d, 0x0d, 0x0d, 0x01, 0x01, 0x01];

const WIDE_PICTURE: [u8; 12] = [
    0x80, 0x0d, 0x80, 0x0d, 0x80, 0x0d, 0x80, 0x01, 0x80, 0x01, 0x80, 0x01,
];

// The path, if it has the one picture.
fn path_of(alloc: Global) -> Option<Path>
    ensures { IfSome result (λ path. (length path.cameras ≡ 1) × (path.width ≡ 2) × (path.height ≡ 1)) }
{
    let path = parse_path(alloc, PATH).ok()?;
    if path.pictures() == 1 && path.width() == 2 && path.height() == 1 {
        return Some(path);
    }
    None
}

// Whether the picture that is drawn over a table which maps the pages from a level on has these samples, and the counts, which
// were 7 each, are those of its two pages.
fn is_drawn(alloc: Global, least: u32, depth: u32, samples: &[u8]) -> bool
    requires { IsDepth depth }
{
    let Ok(geometry) = Geometry::new(4, 4, 2) else {
        return false;
    };
    let Some(path) = path_of(alloc) else {
        return false;
    };
    if geometry.page_count() != 5 || least >= geometry.levels() {
        return false;
    }
    let shot = Shot {
        geometry: &geometry,
        path: &path,
        picture: 0,
        depth,
    };
    let mut table = Table::new(geometry, least, depth == 2);
    let mut counts = [7; 5];
    let mut room = [0; 12];
    let picture = &mut room[..6 * depth as usize];
    draw_row(&mut table, &shot, 0, picture, &mut counts);
    &*picture == samples && counts == [8, 7, 8, 7, 7]
}

#[test]
fn an_unmapped_page_is_served_by_its_ancestor(rt: HostRuntime) {
    const COARSE: [u8; 6] = [0x0b, 0x0b, 0x0b, 0x03, 0x03, 0x03];
    holds(&rt, is_drawn(rt.alloc(), 0, 1, &NARROW_PICTURE));
    holds(&rt, is_drawn(rt.alloc(), 1, 1, &COARSE));
}

#[test]
fn wide_samples_have_their_high_byte_first(rt: HostRuntime) {
    holds(&rt, is_drawn(rt.alloc(), 0, 2, &WIDE_PICTURE));
}

// The plain picture of a texture of four columns and rows.
fn plain_of<Rt: Threads + Sync>(
    rt: &Rt,
    alloc: Global,
    depth: u32,
    texture: &[u8],
) -> Option<Vec<u8>> {
    let path = path_of(alloc)?;
    let image = image_of(alloc, depth, 4, 4, texture)?;
    let chain = Chain::build(rt, alloc, image, 2).ok()?;
    draw_plain(rt, alloc, &chain, &path, 0).ok()
}

// Whether the plain picture of such a texture has these samples.
fn is_drawn_plain<Rt: Threads + Sync>(
    rt: &Rt,
    alloc: Global,
    depth: u32,
    texture: &[u8],
    samples: &[u8],
) -> bool {
    match plain_of(rt, alloc, depth, texture) {
        Some(picture) => picture.as_slice() == samples,
        None => false,
    }
}

#[test]
fn the_plain_picture_shows_the_chain_at_either_depth(rt: HostRuntime) {
    holds(
        &rt,
        is_drawn_plain(&rt, rt.alloc(), 1, &FOUR, &NARROW_PICTURE),
    );
    holds(
        &rt,
        is_drawn_plain(&rt, rt.alloc(), 2, &WIDE_FOUR, &WIDE_PICTURE),
    );
}
