// What runs of the commands on stores share.
mod stops;
mod upgrade;

use super::files::{G4, G4_STORE, PATH};
use super::rows::Held::All;
use super::rows::Row;

const G4_LINE: &[u8] = b"store 4 4 tile 2 levels 2 pages 5 bytes 76\n";

// The run that tiles the texture of 4x4 texels.
const TILES: Row<'static> = Row {
    words: "tile t.ppm s.vts --tile 2",
    files: &[("t.ppm", All(G4)), ("a.path", All(PATH))],
    fail: None,
    err_fail: None,
    status: 0,
    left: &[("s.vts", All(G4_STORE))],
    missing: &[],
    pictures: &[],
    out: G4_LINE,
    err: b"",
};

// The run that tells its store by the line of the run that made it, and changes nothing.
const INFORMS: Row<'static> = Row {
    words: "info s.vts",
    files: &[("s.vts", All(G4_STORE)), ("a.path", All(PATH))],
    left: &[],
    ..TILES
};
