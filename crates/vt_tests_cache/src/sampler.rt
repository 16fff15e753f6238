//! The worked picture over a still table, by one sampler and by several.

mod tables;

ghost use Rattle.std.specs.Prelude.{◌≡◌, ◌<◌, ◌≤◌, length};
ghost use Rattle.vt_pages.specs.Limits.{most_samplers};
ghost use Rattle.vt_tiles.specs.Depths.{IsDepth};
ghost use Rattle.vt_sampler.specs.Notes.{TableMapsRoot};

use crate::checks::holds;
use crate::sampler::tables::table_from;
use std::alloc::Global;
use vt_camera::parse_path;
use vt_draw::Shot;
use vt_pages::Geometry;
use vt_sampler::{Sampler, sampler_of};
use vt_table::StillTable;

// Adds counts of five pages, and answers whether they are so many.
fn add_counts(totals: &mut [u32; 5], counts: &[u32]) -> bool {
    if counts.len() != 5 {
        return false;
    }
    for page in 0..5 {
        totals[page] = totals[page].saturating_add(counts[page]);
    }
    true
}

// Draws a sampler's rows of a picture into their places, and adds its counts; answers whether each row was drawn at the newest
// version and has its place.
fn draw_share(
    alloc: Global,
    shot: &Shot,
    table: &StillTable,
    sampler: u32,
    samplers: u32,
    picture: &mut [u8],
    counts: &mut [u32; 5],
) -> bool
    requires one_of { sampler < samplers }
    requires few { samplers ≤ most_samplers }
    requires depth { IsDepth shot.now.depth }
    requires picture { shot.now.picture < length shot.now.path.now.cameras }
    requires shape { table.now.shape ≡ shot.now.geometry.now }
    requires root { TableMapsRoot table.now }
{
    let Ok(mut own) = Sampler::new(
        alloc,
        sampler,
        samplers,
        shot.path,
        shot.geometry,
        shot.depth,
    ) else {
        return false;
    };
    own.draw_still(shot, table);
    let newest = table.journal().version();
    for y in 0..shot.path.height() {
        if sampler_of(y, samplers) == sampler {
            let row = own.row(y);
            let at = y as usize * row.len();
            if own.version(y) != newest || at + row.len() > picture.len() {
                return false;
            }
            picture[at..at + row.len()].copy_from_slice(row);
        }
    }
    add_counts(counts, own.counts())
}

// Draws the one picture of a path with so many samplers, over a table that maps the pages from one on, and answers its counts.
fn draw(
    alloc: Global,
    path: &[u8],
    from: u32,
    samplers: u32,
    depth: u32,
    picture: &mut [u8],
) -> Option<[u32; 5]>
    requires from { from < 5 }
    requires few { samplers ≤ most_samplers }
    requires depth { IsDepth depth }
{
    let geometry = Geometry::new(4, 4, 2).ok()?;
    let path = parse_path(alloc, path).ok()?;
    if geometry.page_count() != 5 || path.pictures() != 1 {
        return None;
    }
    let table = table_from(alloc, &geometry, from, depth).ok()?;
    let shot = Shot {
        geometry: &geometry,
        path: &path,
        picture: 0,
        depth,
    };
    let mut counts = [0; 5];
    for sampler in 0..samplers {
        if !draw_share(
            alloc,
            &shot,
            &table,
            sampler,
            samplers,
            picture,
            &mut counts,
        ) {
            return None;
        }
    }
    Some(counts)
}

// One picture of two pixels, from the height of one texel.
const PATH: &[u8] = b"size 2 1\nfocal 1\nat 0 0 256 16384 0\n";

// One picture of eight rows, askew.
const TALL: &[u8] = b"size 3 8\nfocal 2\nat 300 200 700 11585 11585\n";

// Whether one sampler draws this picture of at most 12 bytes over a table that maps the pages from one on, and its counts are those
// of its two pages.
fn is_drawn(alloc: Global, from: u32, depth: u32, want: &[u8]) -> bool
    requires from { from < 5 }
    requires depth { IsDepth depth }
{
    let mut room = [0; 12];
    let picture = &mut room[..want.len().min(12)];
    match draw(alloc, PATH, from, 1, depth, picture) {
        Some(counts) => &*picture == want && counts == [1, 0, 1, 0, 0],
        None => false,
    }
}

#[test]
fn an_unmapped_page_is_served_by_its_ancestor(rt: HostRuntime) {
    const FINE: [u8; 6] = [0x0d, 0x0d, 0x0d, 0x01, 0x01, 0x01];
    const COARSE: [u8; 6] = [0x0b, 0x0b, 0x0b, 0x03, 0x03, 0x03];
    holds(&rt, is_drawn(rt.alloc(), 0, 1, &FINE));
    holds(&rt, is_drawn(rt.alloc(), 4, 1, &COARSE));
}

#[test]
fn wide_samples_are_drawn_as_they_are(rt: HostRuntime) {
    const FINE: [u8; 12] = [
        0x0d, 0x0d, 0x0d, 0x0d, 0x0d, 0x0d, 0x01, 0x01, 0x01, 0x01, 0x01, 0x01,
    ];
    const COARSE: [u8; 12] = [
        0x0b, 0x0b, 0x0b, 0x0b, 0x0b, 0x0b, 0x03, 0x03, 0x03, 0x03, 0x03, 0x03,
    ];
    holds(&rt, is_drawn(rt.alloc(), 0, 2, &FINE));
    holds(&rt, is_drawn(rt.alloc(), 4, 2, &COARSE));
}

// Whether so many samplers draw this picture of 24 pixels over a table that maps the pages from one on, and count so.
fn is_shared(alloc: Global, from: u32, samplers: u32, one: &[u8; 72], counts: &[u32; 5]) -> bool
    requires from { from < 5 }
    requires few { samplers ≤ most_samplers }
{
    let mut picture = [0xee; 72];
    match draw(alloc, TALL, from, samplers, 1, &mut picture) {
        Some(shared) => picture == *one && shared == *counts,
        None => false,
    }
}

// The sum of five counts.
fn sum_of(counts: &[u32; 5]) -> u32 {
    let mut sum = 0u32;
    for count in counts {
        sum = sum.saturating_add(*count);
    }
    sum
}

// Whether several samplers draw the same as one over a table that maps the pages from one on.
fn is_drawn_by_several(alloc: Global, from: u32) -> bool
    requires { from < 5 }
{
    let mut one = [0xee; 72];
    match draw(alloc, TALL, from, 1, 1, &mut one) {
        Some(counts) => {
            sum_of(&counts) == 24
                && is_shared(alloc, from, 2, &one, &counts)
                && is_shared(alloc, from, 7, &one, &counts)
                && is_shared(alloc, from, 64, &one, &counts)
        }
        None => false,
    }
}

#[test]
fn samplers_draw_each_row_once(rt: HostRuntime) {
    holds(&rt, is_drawn_by_several(rt.alloc(), 0));
    holds(&rt, is_drawn_by_several(rt.alloc(), 4));
}
