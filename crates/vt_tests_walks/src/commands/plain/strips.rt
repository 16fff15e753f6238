// Runs of `plain` whose pictures want no texel of level 0, so that the texture is read by strips.
use super::super::files::G4;
use super::super::rows::Held::All;
use super::super::rows::{Row, hold};
use super::{DRAWS, STOPS};
use std::test::*;
use vt_outside::Fail;

// One picture of two pixels, from the height of two texels.
const HIGHER: &[u8] = b"size 2 1\nfocal 1\nat 0 0 512 16384 0\n";

const COARSE: &[u8] = b"P6\n2 1\n255\n\x0d\x0d\x0d\x05\x05\x05";

// The texture of 4x4 texels with 254 as its maximum, so that its samples are looked over before.
const G254: &[u8] =
    b"P6\n4 4\n254\n\x00\x00\x00\x01\x01\x01\x02\x02\x02\x03\x03\x03\x04\x04\x04\x05\x05\x05\x06\x06\
        \x06\x07\x07\x07\x08\x08\x08\x09\x09\x09\x0a\x0a\x0a\x0b\x0b\x0b\x0c\x0c\x0c\x0d\x0d\x0d\x0e\x0e\
        \x0e\x0f\x0f\x0f";

// The run that draws the picture.
const DRAWS_HIGHER: Row<'static> = Row {
    files: &[("g4.ppm", All(G4)), ("a.path", All(HIGHER))],
    pictures: &[COARSE],
    ..DRAWS
};

// A run that a failed call stops before the picture.
const STOPS_HIGHER: Row<'static> = Row {
    files: &[("g4.ppm", All(G4)), ("a.path", All(HIGHER))],
    ..STOPS
};

// The same over the texture whose samples are looked over.
const STOPS_BEHIND: Row<'static> = Row {
    files: &[("g4.ppm", All(G254)), ("a.path", All(HIGHER))],
    ..STOPS
};

static STOPPED: [Row<'static>; 7] = [
    Row {
        fail: Some(Fail::Open(1)),
        ..STOPS_HIGHER
    },
    Row {
        fail: Some(Fail::Length { opening: 1 }),
        ..STOPS_HIGHER
    },
    // The header's read, and the strip's.
    Row {
        fail: Some(Fail::Read {
            opening: 1,
            read: 0,
        }),
        ..STOPS_HIGHER
    },
    Row {
        fail: Some(Fail::Read {
            opening: 1,
            read: 1,
        }),
        ..STOPS_HIGHER
    },
    // The read of the samples that are looked over, and behind it the strip's.
    Row {
        fail: Some(Fail::Read {
            opening: 1,
            read: 1,
        }),
        ..STOPS_BEHIND
    },
    Row {
        fail: Some(Fail::Read {
            opening: 1,
            read: 2,
        }),
        ..STOPS_BEHIND
    },
    Row {
        fail: Some(Fail::Create(0)),
        ..STOPS_HIGHER
    },
];

#[test]
fn a_call_that_fails_stops_it(rt: HostRuntime) {
    hold(&rt, rt.alloc(), &STOPPED);
}

static READ_ONCE: [Row<'static>; 2] = [
    Row {
        fail: Some(Fail::Read {
            opening: 1,
            read: 2,
        }),
        ..DRAWS_HIGHER
    },
    Row {
        fail: Some(Fail::Open(2)),
        ..DRAWS_HIGHER
    },
];

#[test]
fn each_strip_is_read_once(rt: HostRuntime) {
    hold(&rt, rt.alloc(), &READ_ONCE);
}
