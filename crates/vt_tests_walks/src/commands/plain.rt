// Runs of `plain`.
mod strips;

use super::files::{FAULT, G4, PATH, PICTURE};
use super::rows::Held::All;
use super::rows::{Row, hold};
use std::test::*;
use vt_outside::Fail;

const END: &[u8] = b"end pictures 1\n";

// The run that draws the first picture.
const DRAWS: Row<'static> = Row {
    words: "plain g4.ppm a.path f --tile 2",
    files: &[("g4.ppm", All(G4)), ("a.path", All(PATH))],
    fail: None,
    err_fail: None,
    status: 0,
    left: &[],
    missing: &[],
    pictures: &[PICTURE],
    out: END,
    err: b"",
};

// A run over bad input, which leaves all as it was.
const REFUSES: Row<'static> = Row {
    status: 4,
    pictures: &[],
    out: b"",
    ..DRAWS
};

// A run that a call or a missing name stops before the picture.
const STOPS: Row<'static> = Row {
    status: 3,
    err: FAULT,
    ..REFUSES
};

static STOPPED: [Row<'static>; 12] = [
    Row {
        fail: Some(Fail::Open(0)),
        ..STOPS
    },
    Row {
        fail: Some(Fail::Open(1)),
        ..STOPS
    },
    Row {
        fail: Some(Fail::Length { opening: 0 }),
        ..STOPS
    },
    Row {
        fail: Some(Fail::Length { opening: 1 }),
        ..STOPS
    },
    Row {
        fail: Some(Fail::Read {
            opening: 0,
            read: 0,
        }),
        ..STOPS
    },
    Row {
        fail: Some(Fail::Read {
            opening: 1,
            read: 0,
        }),
        ..STOPS
    },
    Row {
        fail: Some(Fail::Read {
            opening: 1,
            read: 1,
        }),
        ..STOPS
    },
    Row {
        fail: Some(Fail::Create(0)),
        ..STOPS
    },
    // A failed append leaves the first half of the 17 bytes, a failed put that of its piece.
    Row {
        fail: Some(Fail::Append(0)),
        pictures: &[b"P6\n2 1\n2"],
        ..STOPS
    },
    Row {
        fail: Some(Fail::Put(0)),
        pictures: &[PICTURE],
        out: b"end pi",
        ..STOPS
    },
    Row {
        fail: Some(Fail::Put(1)),
        pictures: &[PICTURE],
        out: b"end pictures ",
        ..STOPS
    },
    Row {
        fail: Some(Fail::Put(2)),
        pictures: &[PICTURE],
        out: b"end pictures 1",
        ..STOPS
    },
];

#[test]
fn a_call_that_fails_stops_plain(rt: HostRuntime) {
    hold(&rt, rt.alloc(), &STOPPED);
}

// The line ends at the put that fails, and the status stays.
static LINE_CUT: [Row<'static>; 1] = [Row {
    words: "plain none a.path f --tile 2",
    err_fail: Some(Fail::Put(0)),
    err: b"vtex: fault on ",
    ..STOPS
}];

#[test]
fn a_line_ends_where_a_put_fails(rt: HostRuntime) {
    hold(&rt, rt.alloc(), &LINE_CUT);
}

// A second creation would fail.
static CREATED_ONCE: [Row<'static>; 1] = [Row {
    fail: Some(Fail::Create(1)),
    ..DRAWS
}];

#[test]
fn each_picture_is_created_once(rt: HostRuntime) {
    hold(&rt, rt.alloc(), &CREATED_ONCE);
}
