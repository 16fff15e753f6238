// Runs of `replay`.
use super::files::{FAULT, G4_STORE, PATH, PICTURE};
use super::replay_rows::{REPLAY_REFUSES, REPLAYS};
use super::rows::Held::All;
use super::rows::{Held, Row, hold};
use std::test::*;
use vt_outside::Fail;

// The journal of the settled walk of one picture, where the row of its third pass shows the page that is mapped in it.
const SETTLED: &[u8] =
    b"map 1 1 0 0 0\npass 1 picture 0 start 1\nrow 0 0 1\npass 2 picture 0 start 1\n\
        map 2 0 0 0 1\nrow 0 0 1\npass 3 picture 0 start 2\nmap 3 0 0 1 2\nrow 0 0 3\n\
        pass 4 picture 0 start 3\nrow 0 0 3\n";

// The store of 4x4 texels, its path and the settled walk's journal.
const OVER_SETTLED: &[(&str, Held<'static>)] = &[
    ("s.vts", All(G4_STORE)),
    ("a.path", All(PATH)),
    ("j.txt", All(SETTLED)),
];

// A second creation would fail.
static CREATED_ONCE: [Row<'static>; 1] = [Row {
    files: OVER_SETTLED,
    fail: Some(Fail::Create(1)),
    ..REPLAYS
}];

#[test]
fn a_replay_creates_each_picture_once(rt: HostRuntime) {
    hold(&rt, rt.alloc(), &CREATED_ONCE);
}

// A replay that a call or a missing name stops before its picture.
const STOPS: Row<'static> = Row {
    files: OVER_SETTLED,
    status: 3,
    err: FAULT,
    ..REPLAY_REFUSES
};

// A failed call of a replay, with the pictures and the output that it leaves.
static STOPPED: [Row<'static>; 14] = [
    Row {
        fail: Some(Fail::Open(0)),
        ..STOPS
    },
    Row {
        fail: Some(Fail::Open(1)),
        ..STOPS
    },
    Row {
        fail: Some(Fail::Open(2)),
        ..STOPS
    },
    Row {
        fail: Some(Fail::Length { opening: 0 }),
        ..STOPS
    },
    Row {
        fail: Some(Fail::Length { opening: 1 }),
        ..STOPS
    },
    Row {
        fail: Some(Fail::Length { opening: 2 }),
        ..STOPS
    },
    Row {
        fail: Some(Fail::Read {
            opening: 0,
            read: 0,
        }),
        ..STOPS
    },
    Row {
        fail: Some(Fail::Read {
            opening: 1,
            read: 0,
        }),
        ..STOPS
    },
    Row {
        fail: Some(Fail::Read {
            opening: 1,
            read: 1,
        }),
        ..STOPS
    },
    Row {
        fail: Some(Fail::Read {
            opening: 2,
            read: 0,
        }),
        ..STOPS
    },
    Row {
        fail: Some(Fail::Create(0)),
        ..STOPS
    },
    Row {
        fail: Some(Fail::Append(0)),
        pictures: &[b"P6\n2 1\n2"],
        ..STOPS
    },
    Row {
        fail: Some(Fail::Put(0)),
        pictures: &[PICTURE],
        out: b"end pi",
        ..STOPS
    },
    Row {
        fail: Some(Fail::Put(2)),
        pictures: &[PICTURE],
        out: b"end pictures 1",
        ..STOPS
    },
];

#[test]
fn what_stands_after_a_failed_call_of_a_replay(rt: HostRuntime) {
    hold(&rt, rt.alloc(), &STOPPED);
}
