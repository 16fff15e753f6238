// Rows of replays.
use super::files::{G4_STORE, PATH, PICTURE};
use super::rows::Held::All;
use super::rows::{Held, Row};

/// The store of 4x4 texels and the path of one picture.
pub(super) const OVER_G4: &[(&str, Held<'static>)] = &[
    ("s.vts", All(G4_STORE)),
    ("a.path", All(PATH)),
];

/// The words of a replay.
pub(super) const REPLAY: &str = "replay s.vts a.path j.txt f";

/// A replay of a journal to the picture of that path. Its store, its path and its journal are a row's own.
pub(super) const REPLAYS: Row<'static> = Row {
    words: REPLAY,
    files: &[],
    fail: None,
    err_fail: None,
    status: 0,
    left: &[],
    missing: &["journal.txt"],
    pictures: &[PICTURE],
    out: b"end pictures 1\n",
    err: b"",
};

/// A replay over flawed input, which leaves all as it was.
pub(super) const REPLAY_REFUSES: Row<'static> = Row {
    status: 4,
    pictures: &[],
    out: b"",
    ..REPLAYS
};
