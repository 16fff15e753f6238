// Runs of `tile` and `info` that a call stops.
use super::super::files::{FAULT, PATH};
use super::super::rows::Held::{All, Front};
use super::super::rows::{Row, hold};
use super::{INFORMS, TILES};
use std::test::*;
use vt_outside::Fail;

// The texture of 4x4 texels with 15 as its maximum, so that its samples are looked over: a read of all its rows. Kept, they are 17 times
// as large.
const G15: &[u8] =
    b"P6\n4 4\n15\n\x00\x00\x00\x01\x01\x01\x02\x02\x02\x03\x03\x03\x04\x04\x04\x05\x05\x05\x06\x06\x06\x07\
        \x07\x07\x08\x08\x08\x09\x09\x09\x0a\x0a\x0a\x0b\x0b\x0b\x0c\x0c\x0c\x0d\x0d\x0d\x0e\x0e\x0e\x0f\x0f\
        \x0f";

const G15_STORE: &[u8] =
    b"VTS1\x00\x00\x00\x04\x00\x00\x00\x04\x00\x00\x00\x02\x00\x00\x00\x11\x11\x11\x44\x44\x44\x55\x55\x55\
        \x22\x22\x22\x33\x33\x33\x66\x66\x66\x77\x77\x77\x88\x88\x88\x99\x99\x99\xcc\xcc\xcc\xdd\xdd\xdd\xaa\
        \xaa\xaa\xbb\xbb\xbb\xee\xee\xee\xff\xff\xff\x2b\x2b\x2b\x4d\x4d\x4d\xb3\xb3\xb3\xd5\xd5\xd5";

// The run that tiles it.
const TILES_G15: Row<'static> = Row {
    files: &[("t.ppm", All(G15)), ("a.path", All(PATH))],
    left: &[("s.vts", All(G15_STORE))],
    ..TILES
};

// A run that tiles it as far as to a call that fails.
const STOPS_G15: Row<'static> = Row {
    status: 3,
    out: b"",
    err: FAULT,
    ..TILES_G15
};

// The texture is opened, its header is read, and its samples are looked over before the store is created. A failed append leaves the
// first half of its piece: the header, the two rows of tiles of level 0, each of which is read before it is appended, and that of
// level 1. A failed put leaves the first half of the line's 43 bytes.
static TILES_STOPPED: [Row<'static>; 14] = [
    TILES_G15,
    Row {
        files: &[("s.vts", All(G15_STORE)), ("a.path", All(PATH))],
        ..INFORMS
    },
    Row {
        fail: Some(Fail::Open(0)),
        left: &[],
        missing: &["s.vts"],
        ..STOPS_G15
    },
    Row {
        fail: Some(Fail::Length { opening: 0 }),
        left: &[],
        missing: &["s.vts"],
        ..STOPS_G15
    },
    Row {
        fail: Some(Fail::Read {
            opening: 0,
            read: 0,
        }),
        left: &[],
        missing: &["s.vts"],
        ..STOPS_G15
    },
    Row {
        fail: Some(Fail::Read {
            opening: 0,
            read: 1,
        }),
        left: &[],
        missing: &["s.vts"],
        ..STOPS_G15
    },
    Row {
        fail: Some(Fail::Create(0)),
        left: &[],
        missing: &["s.vts"],
        ..STOPS_G15
    },
    Row {
        fail: Some(Fail::Append(0)),
        left: &[("s.vts", Front(G15_STORE, 8))],
        ..STOPS_G15
    },
    Row {
        fail: Some(Fail::Read {
            opening: 0,
            read: 2,
        }),
        left: &[("s.vts", Front(G15_STORE, 16))],
        ..STOPS_G15
    },
    Row {
        fail: Some(Fail::Append(1)),
        left: &[("s.vts", Front(G15_STORE, 28))],
        ..STOPS_G15
    },
    Row {
        fail: Some(Fail::Read {
            opening: 0,
            read: 3,
        }),
        left: &[("s.vts", Front(G15_STORE, 40))],
        ..STOPS_G15
    },
    Row {
        fail: Some(Fail::Append(2)),
        left: &[("s.vts", Front(G15_STORE, 52))],
        ..STOPS_G15
    },
    Row {
        fail: Some(Fail::Append(3)),
        left: &[("s.vts", Front(G15_STORE, 70))],
        ..STOPS_G15
    },
    Row {
        fail: Some(Fail::Put(0)),
        out: b"store 4 4 tile 2 leve",
        ..STOPS_G15
    },
];

#[test]
fn a_call_that_fails_stops_tile(rt: HostRuntime) {
    hold(&rt, rt.alloc(), &TILES_STOPPED);
}

// A run of `info` that a call stops.
const INFO_STOPS: Row<'static> = Row {
    status: 3,
    out: b"",
    err: FAULT,
    ..INFORMS
};

static INFO_STOPPED: [Row<'static>; 3] = [
    Row {
        fail: Some(Fail::Open(0)),
        ..INFO_STOPS
    },
    Row {
        fail: Some(Fail::Length { opening: 0 }),
        ..INFO_STOPS
    },
    Row {
        fail: Some(Fail::Read {
            opening: 0,
            read: 0,
        }),
        ..INFO_STOPS
    },
];

#[test]
fn a_call_that_fails_stops_info(rt: HostRuntime) {
    hold(&rt, rt.alloc(), &INFO_STOPPED);
}

// A second creation would fail.
static CREATED_ONCE: [Row<'static>; 1] = [Row {
    fail: Some(Fail::Create(1)),
    ..TILES
}];

#[test]
fn a_store_is_created_once(rt: HostRuntime) {
    hold(&rt, rt.alloc(), &CREATED_ONCE);
}
