// Walks by several samplers, by each machine that words ask for.

use super::files::G4_STORE;
use super::meetings::{meets, meets_in};
use super::rows::Held::{All, Journal};
use super::rows::{Row, hold};
use super::runs::Scene;
use super::walk_rows::SETTLED;
use crate::any_sampler::{
    BLENDED, BY_SEVEN, BY_TWO, FOUR_ROWS, FOUR_ROWS_LOG, FOUR_ROWS_SHOWN, FOUR_ROWS_TOLD,
    LARGE_LOG, has_one_and_three, of_one_colour,
};
use crate::gates::Meeting;
use std::alloc::Global;
use std::sync::Wait;
use std::test::*;
use std::thread::Threads;

// Dealt rows are drawn by the first sampler, shared ones by any.
static BY_CREWS: [Row<'static>; 7] = [
    Row {
        words: "walk s.vts a.path f --frames 3 --samplers 2 --loaders 1 --batch 1 --journal j.txt --settled",
        ..SETTLED
    },
    Row {
        words: "walk s.vts a.path f --frames 3 --samplers 1 --loaders 1 --batch 1 --journal j.txt --settled --table swap",
        ..SETTLED
    },
    Row {
        words: "walk s.vts a.path f --frames 3 --samplers 2 --loaders 1 --batch 1 --journal j.txt --settled --table swap",
        ..SETTLED
    },
    Row {
        words: "walk s.vts a.path f --frames 3 --samplers 7 --loaders 3 --batch 1 --journal j.txt --settled --table swap",
        ..SETTLED
    },
    Row {
        words: "walk s.vts a.path f --frames 3 --samplers 1 --loaders 1 --batch 1 --journal j.txt --settled --rows shared",
        ..SETTLED
    },
    Row {
        words: "walk s.vts a.path f --frames 3 --samplers 2 --loaders 1 --batch 1 --journal j.txt --settled --rows shared",
        left: &[("j.txt", Journal(BY_TWO))],
        ..SETTLED
    },
    Row {
        words: "walk s.vts a.path f --frames 3 --samplers 7 --loaders 3 --batch 1 --journal j.txt --settled --rows shared",
        left: &[("j.txt", Journal(BY_SEVEN))],
        ..SETTLED
    },
];

#[test]
fn a_settled_picture_is_the_same_by_any_crew_of_any_machine(rt: HostRuntime) {
    hold(&rt, rt.alloc(), &BY_CREWS);
}

static BY_EITHER: Row<'static> = Row {
    words: "walk s.vts a.path f --frames 1 --samplers 2 --loaders 1 --batch 64 --journal j.txt --rows shared",
    files: &[("s.vts", All(G4_STORE)), ("a.path", All(FOUR_ROWS))],
    left: &[("j.txt", Journal(FOUR_ROWS_TOLD))],
    pictures: &[FOUR_ROWS_SHOWN],
    out: FOUR_ROWS_LOG,
    ..SETTLED
};

// Whether a sampler draws three rows of a picture while another waits in the first that was reached.
fn outruns(rt: &(impl Threads + Wait + Sync), alloc: Global) -> bool {
    let mut scene = Scene::new(alloc);
    meets_in(
        rt,
        alloc,
        &BY_EITHER,
        Meeting::FirstRow { rows: 4 },
        &mut scene,
    ) && match scene.folder.bytes_of("j.txt") {
        Some(journal) => has_one_and_three(journal),
        None => false,
    }
}

#[test]
fn a_sampler_draws_three_rows_while_another_waits(rt: HostRuntime) {
    assert!(&rt; outruns(&rt, rt.alloc()));
}

// All pixels are of the texel (1, 1), and a picture of so many is drawn by two threads.
const ONE_TEXEL: Row<'static> = Row {
    words: "walk s.vts a.path f --frames 3 --samplers 2 --loaders 1 --batch 64 --journal j.txt --settled",
    files: &[
        ("s.vts", All(G4_STORE)),
        (
            "a.path",
            All(b"size 128 128\nfocal 1\nat 384 384 1 16384 0\n"),
        ),
    ],
    left: &[],
    out: LARGE_LOG,
    ..SETTLED
};

static OF_ONE_COLOUR: [Row<'static>; 3] = [
    ONE_TEXEL,
    Row {
        words: "walk s.vts a.path f --frames 3 --samplers 2 --loaders 1 --batch 64 --journal j.txt --settled --table swap",
        ..ONE_TEXEL
    },
    Row {
        words: "walk s.vts a.path f --frames 3 --samplers 2 --loaders 1 --batch 64 --journal j.txt --settled --filter bilinear",
        files: &[("s.vts", All(G4_STORE)), ("a.path", All(BLENDED))],
        ..ONE_TEXEL
    },
];

// Whether a walk shows so many pixels of these samples, and a sampler begins a row while another is at one.
fn draws_at_once(
    rt: &(impl Threads + Wait + Sync),
    alloc: Global,
    row: &Row<'_>,
    sample: u8,
) -> bool {
    let Some(picture) = of_one_colour(alloc, sample) else {
        return false;
    };
    let shown = [picture.as_slice()];
    let row = Row {
        pictures: &shown,
        ..*row
    };
    meets(rt, alloc, &row, Meeting::FirstRow { rows: 2 })
}

#[test]
fn a_sampler_draws_a_row_while_another_does(rt: HostRuntime) {
    let alloc = rt.alloc();
    assert!(&rt; draws_at_once(&rt, alloc, &OF_ONE_COLOUR[0], 5));
    assert!(&rt; draws_at_once(&rt, alloc, &OF_ONE_COLOUR[1], 5));
    assert!(&rt; draws_at_once(&rt, alloc, &OF_ONE_COLOUR[2], 1));
}
