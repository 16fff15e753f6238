// Rows of walks, with what each leaves.
use super::files::{G4_STORE, PICTURE};
use super::flights::Flight;
use super::replay_rows::{OVER_G4, REPLAY};
use super::rows::Held::{All, Journal};
use super::rows::Row;
use crate::told::Told;
use vt_outside::Fail;

// Two pictures from the place of the first path, which want the pages 0 and 2, and two half a texture to the right of it, which
// want the pages 1 and 3.
const FOUR_PICTURES: &[u8] = b"size 2 1\nfocal 1\nat 0 0 256 16384 0\nat 0 0 256 16384 0\n\
        at 512 0 256 16384 0\nat 512 0 256 16384 0\n";

// The first picture where the root alone is mapped, and where page 0 is mapped too.
pub(super) const LOW: &[u8] = b"P6\n2 1\n255\n\x0b\x0b\x0b\x03\x03\x03";

pub(super) const WITH_PAGE_0: &[u8] = b"P6\n2 1\n255\n\x0b\x0b\x0b\x01\x01\x01";

// The third picture where neither page 1 nor page 3 is mapped, and where one of them is.
pub(super) const FAR: &[u8] = b"P6\n2 1\n255\n\x0d\x0d\x0d\x05\x05\x05";

const FAR_WITH_PAGE_1: &[u8] = b"P6\n2 1\n255\n\x0d\x0d\x0d\x03\x03\x03";

const FAR_WITH_PAGE_3: &[u8] = b"P6\n2 1\n255\n\x0f\x0f\x0f\x05\x05\x05";

// The third picture, settled.
const OTHER: &[u8] = b"P6\n2 1\n255\n\x0f\x0f\x0f\x03\x03\x03";

/// The journals of the settled walk of one picture.
pub(super) const SETTLED_TOLD: Told<'static> = Told {
    text: b"map 1 1 0 0 0\npass 1 picture 0 start 1\nrow 0 0 1\npass 2 picture 0 start 1\n\
        map 2 0 0 0 1\nrow 0 0 ?\npass 3 picture 0 start 2\nmap 3 0 0 1 2\nrow 0 0 ?\n\
        pass 4 picture 0 start 3\nrow 0 0 3\n",
    versions: &[(1, 2), (2, 3)],
};

// Its log: the picture's line ends at byte 54, and the last one at byte 77.
pub(super) const SETTLED_LOG: &[u8] =
    b"picture 0 passes 4 wanted 2 loaded 2 lost 0 evicted 0\nend pictures 1 reads 3\n";

/// The journal of the next walk.
pub(super) const REUSED_TEXT: &[u8] =
    b"map 1 1 0 0 0\npass 1 picture 0 start 1\nrow 0 0 ?\npass 2 picture 1 start 1\nmap 2 0 0 0 1\n\
        map 3 0 0 1 2\nrow 0 0 ?\npass 3 picture 2 start 3\nrow 0 0 ?\npass 4 picture 3 start 3\n\
        unmap 4 0 0 1 2\nmap 5 0 1 0 2\nunmap 6 0 0 0 1\nmap 7 0 1 1 1\nrow 0 0 ?\n";

pub(super) const REUSED_ROW: Row<'static> = Row {
    words: "walk s.vts a.path f --frames 3 --samplers 1 --loaders 1 --batch 64 --journal j.txt",
    files: &[("s.vts", All(G4_STORE)), ("a.path", All(FOUR_PICTURES))],
    fail: None,
    err_fail: None,
    status: 0,
    left: &[],
    missing: &["journal.txt"],
    pictures: &[],
    out: b"picture 0 passes 1 wanted 2 loaded 0 lost 0 evicted 0\n\
        picture 1 passes 1 wanted 2 loaded 2 lost 0 evicted 0\n\
        picture 2 passes 1 wanted 2 loaded 0 lost 0 evicted 0\n\
        picture 3 passes 1 wanted 2 loaded 2 lost 0 evicted 2\nend pictures 4 reads 5\n",
    err: b"",
};

// Both pages of the first place are replaced by those of the other. Page 2 is the less recent one.
pub(super) const REUSED: Flight<'static> = Flight {
    row: REUSED_ROW,
    told: Told {
        text: REUSED_TEXT,
        versions: &[(1, 1), (1, 3), (3, 3), (3, 7)],
    },
    shown: &[
        &[LOW],
        &[LOW, WITH_PAGE_0, PICTURE],
        &[FAR],
        &[FAR, FAR, FAR_WITH_PAGE_1, FAR_WITH_PAGE_1, OTHER],
    ],
    replay: REPLAY,
};

// The same where page 1 is lost, in whose place page 2 stays.
pub(super) const LOST: Flight<'static> = Flight {
    row: Row {
        words: "walk s.vts a.path f --frames 3 --samplers 1 --loaders 1 --batch 64 --journal j.txt",
        files: &[("s.vts", All(G4_STORE)), ("a.path", All(FOUR_PICTURES))],
        fail: Some(Fail::Read {
            opening: 2,
            read: 2,
        }),
        err_fail: None,
        status: 0,
        left: &[],
        missing: &["journal.txt"],
        pictures: &[],
        out: b"picture 0 passes 1 wanted 2 loaded 0 lost 0 evicted 0\n\
            picture 1 passes 1 wanted 2 loaded 2 lost 0 evicted 0\n\
            picture 2 passes 1 wanted 2 loaded 0 lost 0 evicted 0\n\
            picture 3 passes 1 wanted 2 loaded 1 lost 1 evicted 1\nend pictures 4 reads 5\n",
        err: b"",
    },
    told: Told {
        text: b"map 1 1 0 0 0\npass 1 picture 0 start 1\nrow 0 0 ?\npass 2 picture 1 start 1\nmap 2 0 0 0 1\n\
            map 3 0 0 1 2\nrow 0 0 ?\npass 3 picture 2 start 3\nrow 0 0 ?\npass 4 picture 3 start 3\n\
            lost 0 1 0\nunmap 4 0 0 0 1\nmap 5 0 1 1 1\nrow 0 0 ?\n",
        versions: &[(1, 1), (1, 3), (3, 3), (3, 5)],
    },
    shown: &[
        &[LOW],
        &[LOW, WITH_PAGE_0, PICTURE],
        &[FAR],
        &[FAR, FAR, FAR_WITH_PAGE_3],
    ],
    replay: REPLAY,
};

// The words of the settled walk of one picture.
pub(super) const SETTLED_WORDS: &str =
    "walk s.vts a.path f --frames 3 --samplers 1 --loaders 1 --batch 1 --journal j.txt --settled";

pub(super) const SETTLED: Row<'static> = Row {
    words: SETTLED_WORDS,
    files: OVER_G4,
    fail: None,
    err_fail: None,
    status: 0,
    left: &[("j.txt", Journal(SETTLED_TOLD))],
    missing: &["journal.txt"],
    pictures: &[PICTURE],
    out: SETTLED_LOG,
    err: b"",
};

pub(super) const BATCH_OF_TWO: Row<'static> = Row {
    words: "walk s.vts a.path f --frames 3 --samplers 1 --loaders 1 --batch 2 --journal j.txt --settled",
    files: OVER_G4,
    fail: None,
    err_fail: None,
    status: 0,
    left: &[(
        "j.txt",
        Journal(Told {
            text: b"map 1 1 0 0 0\npass 1 picture 0 start 1\nrow 0 0 1\npass 2 picture 0 start 1\nmap 2 0 0 0 1\n\
            map 3 0 0 1 2\nrow 0 0 ?\npass 3 picture 0 start 3\nrow 0 0 3\n",
            versions: &[(1, 3)],
        }),
    )],
    missing: &["journal.txt"],
    pictures: &[PICTURE],
    out: b"picture 0 passes 3 wanted 2 loaded 2 lost 0 evicted 0\nend pictures 1 reads 3\n",
    err: b"",
};
