// Runs of `upgrade`.
use super::super::files::{FAULT, G4_STORE, PATH, WIDE_STORE};
use super::super::rows::Held::{All, Front};
use super::super::rows::{Row, hold};
use std::test::*;
use vt_outside::Fail;

const WIDE_LINE: &[u8] = b"store 4 4 tile 2 levels 2 pages 5 bytes 136\n";

// The run that upgrades the store of 4x4 texels.
const UPGRADES: Row<'static> = Row {
    words: "upgrade s.vts w.vts",
    files: &[("s.vts", All(G4_STORE)), ("a.path", All(PATH))],
    fail: None,
    err_fail: None,
    status: 0,
    left: &[("w.vts", All(WIDE_STORE))],
    missing: &[],
    pictures: &[],
    out: WIDE_LINE,
    err: b"",
};

// A run over bad input, which leaves all as it was.
const REFUSES: Row<'static> = Row {
    status: 4,
    left: &[],
    missing: &["w.vts"],
    out: b"",
    ..UPGRADES
};

// A run that a call or a missing name stops before the new store.
const STOPS: Row<'static> = Row {
    status: 3,
    err: FAULT,
    ..REFUSES
};

// A run that a call stops when the new store has been created.
const STOPS_AMID: Row<'static> = Row {
    status: 3,
    out: b"",
    err: FAULT,
    ..UPGRADES
};

static STOPPED: [Row<'static>; 12] = [
    Row {
        fail: Some(Fail::Open(0)),
        ..STOPS
    },
    Row {
        fail: Some(Fail::Length { opening: 0 }),
        ..STOPS
    },
    Row {
        fail: Some(Fail::Read {
            opening: 0,
            read: 0,
        }),
        ..STOPS
    },
    Row {
        fail: Some(Fail::Create(0)),
        ..STOPS
    },
    // A failed read leaves what was written before: the header, and the pieces before it, of two tiles of 24 bytes and of one.
    Row {
        fail: Some(Fail::Read {
            opening: 0,
            read: 1,
        }),
        left: &[("w.vts", Front(WIDE_STORE, 16))],
        ..STOPS_AMID
    },
    Row {
        fail: Some(Fail::Read {
            opening: 0,
            read: 2,
        }),
        left: &[("w.vts", Front(WIDE_STORE, 64))],
        ..STOPS_AMID
    },
    Row {
        fail: Some(Fail::Read {
            opening: 0,
            read: 3,
        }),
        left: &[("w.vts", Front(WIDE_STORE, 112))],
        ..STOPS_AMID
    },
    // A failed append leaves the first half of its piece.
    Row {
        fail: Some(Fail::Append(0)),
        left: &[("w.vts", Front(WIDE_STORE, 8))],
        ..STOPS_AMID
    },
    Row {
        fail: Some(Fail::Append(1)),
        left: &[("w.vts", Front(WIDE_STORE, 40))],
        ..STOPS_AMID
    },
    Row {
        fail: Some(Fail::Append(2)),
        left: &[("w.vts", Front(WIDE_STORE, 88))],
        ..STOPS_AMID
    },
    Row {
        fail: Some(Fail::Append(3)),
        left: &[("w.vts", Front(WIDE_STORE, 124))],
        ..STOPS_AMID
    },
    // A failed put leaves the first half of the line's 44 bytes.
    Row {
        fail: Some(Fail::Put(0)),
        out: b"store 4 4 tile 2 level",
        ..STOPS_AMID
    },
];

#[test]
fn a_call_that_fails_stops_upgrade(rt: HostRuntime) {
    hold(&rt, rt.alloc(), &STOPPED);
}

// One call more than these would fail.
static ONCE_EACH: [Row<'static>; 5] = [
    Row {
        fail: Some(Fail::Open(1)),
        ..UPGRADES
    },
    Row {
        fail: Some(Fail::Read {
            opening: 0,
            read: 4,
        }),
        ..UPGRADES
    },
    Row {
        fail: Some(Fail::Create(1)),
        ..UPGRADES
    },
    Row {
        fail: Some(Fail::Append(4)),
        ..UPGRADES
    },
    Row {
        fail: Some(Fail::Put(1)),
        ..UPGRADES
    },
];

#[test]
fn each_piece_is_read_and_written_once(rt: HostRuntime) {
    hold(&rt, rt.alloc(), &ONCE_EACH);
}
