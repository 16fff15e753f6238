// Runs of `trial`.
use super::files::{FAULT, G4, PATH};
use super::rows::Held::All;
use super::rows::{Row, hold};
use std::test::*;
use vt_outside::Fail;

// A run of `trial 7` over an empty folder puts its line and leaves the folder as it was. Its passes and its reads are those that the
// lists of pages give, by `python3 tests/reference.py trial 7`.
const TRIES_SEVEN: Row<'static> = Row {
    words: "trial 7",
    files: &[],
    fail: None,
    err_fail: None,
    status: 0,
    left: &[],
    missing: &["store", "journal", "picture0000.ppm"],
    pictures: &[],
    out: b"trial 7 pictures 60 passes 73 reads 77 differ 0\n",
    err: b"",
};

static SEVEN_TWICE: [Row<'static>; 2] = [TRIES_SEVEN, TRIES_SEVEN];

#[test]
fn a_trial_tells_the_same_line_at_each_run(rt: HostRuntime) {
    hold(&rt, rt.alloc(), &SEVEN_TWICE);
}

// A put that fails leaves the first half of its bytes.
static REFUSED_LINE: [Row<'static>; 1] = [Row {
    files: &[("g4.ppm", All(G4)), ("a.path", All(PATH))],
    fail: Some(Fail::Put(0)),
    status: 3,
    out: b"trial 7 pictures 60 pass",
    err: FAULT,
    ..TRIES_SEVEN
}];

#[test]
fn a_trial_whose_line_is_refused_is_a_fault(rt: HostRuntime) {
    hold(&rt, rt.alloc(), &REFUSED_LINE);
}
