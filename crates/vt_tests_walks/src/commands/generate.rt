// Runs of `gen`.
use super::files::{FAULT, G4, PATH};
use super::rows::Held::{All, Front};
use super::rows::{Row, hold};
use std::test::*;
use vt_outside::Fail;

// The texture of number 1 with sides of two texels.
const MADE: &[u8] = b"P6\n2 2\n255\n\x01\x03\x07\x02\x03\x07\x01\x04\x07\x02\x04\x08";

// A run of `gen` that writes its texture alone and puts nothing. A second creation would fail.
const MAKES: Row<'static> = Row {
    words: "gen 1 2 2 g.ppm",
    files: &[("g4.ppm", All(G4)), ("a.path", All(PATH))],
    fail: Some(Fail::Create(1)),
    err_fail: None,
    status: 0,
    left: &[("g.ppm", All(MADE))],
    missing: &[],
    pictures: &[],
    out: b"",
    err: b"",
};

static MADE_FROM_NUMBERS: [Row<'static>; 1] = [MAKES];

#[test]
fn a_texture_is_made_from_a_number(rt: HostRuntime) {
    hold(&rt, rt.alloc(), &MADE_FROM_NUMBERS);
}

// A run of `gen` with a call that fails.
const STOPS: Row<'static> = Row {
    status: 3,
    err: FAULT,
    ..MAKES
};

static STOPPED: [Row<'static>; 4] = [
    Row {
        fail: Some(Fail::Create(0)),
        left: &[],
        missing: &["g.ppm"],
        ..STOPS
    },
    // A failed append leaves the first half of its piece: of the header's 11 bytes, and of the six of either row.
    Row {
        fail: Some(Fail::Append(0)),
        left: &[("g.ppm", Front(MADE, 5))],
        ..STOPS
    },
    Row {
        fail: Some(Fail::Append(1)),
        left: &[("g.ppm", Front(MADE, 14))],
        ..STOPS
    },
    Row {
        fail: Some(Fail::Append(2)),
        left: &[("g.ppm", Front(MADE, 20))],
        ..STOPS
    },
];

#[test]
fn a_call_that_fails_stops_gen(rt: HostRuntime) {
    hold(&rt, rt.alloc(), &STOPPED);
}
