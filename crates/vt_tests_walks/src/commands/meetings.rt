// Walks whose workers meet at gates.
use super::files::{G4_STORE, PICTURE};
use super::flights::{Flight, fly_all};
use super::rows::Held::{All, Either};
use super::rows::{Row, leaves_in};
use super::runs::Scene;
use super::walk_rows::{BATCH_OF_TWO, FAR, LOW, REUSED, REUSED_ROW, REUSED_TEXT, WITH_PAGE_0};
use crate::gates::{Meeting, Meetings};
use crate::told::Told;
use std::alloc::Global;
use std::process::Abort;
use std::sync::Wait;
use std::test::*;
use std::thread::Threads;

/// A walk over a scene, whose workers have this meeting, leaves what its row says.
pub(super) fn meets_in(
    rt: &(impl Threads + Wait + Sync),
    alloc: Global,
    row: &Row<'_>,
    meeting: Meeting,
    scene: &mut Scene,
) -> bool {
    scene.gate = Meetings::new(meeting);
    leaves_in(rt, alloc, row, scene) && scene.gate.came()
}

/// A walk over an empty folder, whose workers have this meeting, leaves what its row says.
pub(super) fn meets(
    rt: &(impl Threads + Wait + Sync),
    alloc: Global,
    row: &Row<'_>,
    meeting: Meeting,
) -> bool {
    let mut scene = Scene::new(alloc);
    meets_in(rt, alloc, row, meeting, &mut scene)
}

// Each walk, whose workers have this meeting, leaves what its row says.
fn meet_all(
    rt: &(impl Abort + Threads + Wait + Sync),
    alloc: Global,
    rows: &[Row<'_>],
    meeting: Meeting,
) {
    for i in 0..rows.len() {
        assert!(rt; meets(rt, alloc, &rows[i], meeting), "row {i}");
    }
}

// The journals of a walk for which two loaders read two tiles: which of them comes first is open.
const PAGE_0_FIRST: Told<'static> = Told {
    text: b"map 1 1 0 0 0\npass 1 picture 0 start 1\nrow 0 0 1\npass 2 picture 0 start 1\nmap 2 0 0 0 1\n\
        map 3 0 0 1 2\nrow 0 0 ?\npass 3 picture 0 start 3\nrow 0 0 3\n",
    versions: &[(1, 3)],
};

const PAGE_2_FIRST: Told<'static> = Told {
    text: b"map 1 1 0 0 0\npass 1 picture 0 start 1\nrow 0 0 1\npass 2 picture 0 start 1\nmap 2 0 0 1 2\n\
        map 3 0 0 0 1\nrow 0 0 ?\npass 3 picture 0 start 3\nrow 0 0 3\n",
    versions: &[(1, 3)],
};

const BY_TWO_LOADERS: Row<'static> = Row {
    words: "walk s.vts a.path f --frames 3 --samplers 1 --loaders 2 --batch 2 --journal j.txt --settled",
    left: &[("j.txt", Either(PAGE_0_FIRST, PAGE_2_FIRST))],
    ..BATCH_OF_TWO
};

static OVERTAKEN: [Row<'static>; 3] = [
    BY_TWO_LOADERS,
    Row {
        words: "walk s.vts a.path f --frames 3 --samplers 1 --loaders 2 --batch 2 --journal j.txt --settled --rows shared",
        ..BY_TWO_LOADERS
    },
    Row {
        words: "walk s.vts a.path f --frames 3 --samplers 1 --loaders 2 --batch 2 --journal j.txt --settled --table swap",
        ..BY_TWO_LOADERS
    },
];

// The same for the pages 0 and 1, of which a pixel half a texel to the right of texel (1, 0) and a quarter of one down is the blend.
const BLENDED_BY_0_FIRST: Told<'static> = Told {
    text: b"map 1 1 0 0 0\npass 1 picture 0 start 1\nrow 0 0 1\npass 2 picture 0 start 1\nmap 2 0 0 0 1\n\
        map 3 0 1 0 2\nrow 0 0 ?\npass 3 picture 0 start 3\nrow 0 0 3\n",
    versions: &[(1, 3)],
};

const BLENDED_BY_1_FIRST: Told<'static> = Told {
    text: b"map 1 1 0 0 0\npass 1 picture 0 start 1\nrow 0 0 1\npass 2 picture 0 start 1\nmap 2 0 1 0 2\n\
        map 3 0 0 0 1\nrow 0 0 ?\npass 3 picture 0 start 3\nrow 0 0 3\n",
    versions: &[(1, 3)],
};

static BLENDED_OVERTAKEN: [Row<'static>; 1] = [Row {
    words: "walk s.vts a.path f --frames 3 --samplers 1 --loaders 2 --batch 2 --journal j.txt --settled --filter bilinear",
    files: &[
        ("s.vts", All(G4_STORE)),
        ("a.path", All(b"size 1 1\nfocal 1\nat 128 64 256 16384 0\n")),
    ],
    left: &[("j.txt", Either(BLENDED_BY_0_FIRST, BLENDED_BY_1_FIRST))],
    pictures: &[b"P6\n1 1\n255\n\x03\x03\x03"],
    ..BATCH_OF_TWO
}];

#[test]
fn a_read_may_overtake_another(rt: HostRuntime) {
    meet_all(&rt, rt.alloc(), &OVERTAKEN, Meeting::Reads);
    meet_all(&rt, rt.alloc(), &BLENDED_OVERTAKEN, Meeting::Reads);
}

// The row of the fourth picture holds version 3 when version 4 is published, and is drawn by it.
const HELD: Flight<'static> = Flight {
    told: Told {
        text: REUSED_TEXT,
        versions: &[(1, 1), (1, 3), (3, 3), (3, 3)],
    },
    shown: &[&[LOW], &[LOW, WITH_PAGE_0, PICTURE], &[FAR], &[FAR]],
    ..REUSED
};

static DRAWN_WHILE_STREAMING: [Flight<'static>; 3] = [
    HELD,
    Flight {
        row: Row {
            words: "walk s.vts a.path f --frames 3 --samplers 1 --loaders 1 --batch 64 --journal j.txt --rows shared",
            ..REUSED_ROW
        },
        ..HELD
    },
    // Over the swapped table it may be begun again in a later version, when a frame that it reads was filled meanwhile.
    Flight {
        row: Row {
            words: "walk s.vts a.path f --frames 3 --samplers 1 --loaders 1 --batch 64 --journal j.txt --table swap",
            ..REUSED_ROW
        },
        ..REUSED
    },
];

// The blend of a pixel with a quarter of the way to go right and down, among the texels 0, 1, 4 and 5 of page 0 at first, and among the texels
// 10, 11, 14 and 15 of page 3 then. The weights are 36864, 12288, 12288 and 4096.
const BLENDED_PATH: &[u8] = b"size 1 1\nfocal 1\nat -192 64 256 16384 0\nat -192 64 256 16384 0\n\
    at 320 576 256 16384 0\nat 320 576 256 16384 0\n";

// What it is by the texel 3 of the root alone, by those of page 0, and by the texel 13 of the root.
const BLENDED_LOW: &[u8] = b"P6\n1 1\n255\n\x03\x03\x03";

const BLENDED: &[u8] = b"P6\n1 1\n255\n\x01\x01\x01";

const BLENDED_FAR: &[u8] = b"P6\n1 1\n255\n\x0d\x0d\x0d";

// The row of the fourth picture holds version 2 when page 0 is unmapped for page 3.
static BLENDED_WHILE_STREAMING: [Flight<'static>; 1] = [Flight {
    row: Row {
        words: "walk s.vts a.path f --frames 2 --samplers 1 --loaders 1 --batch 64 --journal j.txt --filter bilinear",
        files: &[("s.vts", All(G4_STORE)), ("a.path", All(BLENDED_PATH))],
        out: b"picture 0 passes 1 wanted 1 loaded 0 lost 0 evicted 0\n\
            picture 1 passes 1 wanted 1 loaded 1 lost 0 evicted 0\n\
            picture 2 passes 1 wanted 1 loaded 0 lost 0 evicted 0\n\
            picture 3 passes 1 wanted 1 loaded 1 lost 0 evicted 1\nend pictures 4 reads 3\n",
        ..REUSED_ROW
    },
    told: Told {
        text: b"map 1 1 0 0 0\npass 1 picture 0 start 1\nrow 0 0 ?\npass 2 picture 1 start 1\nmap 2 0 0 0 1\n\
            row 0 0 ?\npass 3 picture 2 start 2\nrow 0 0 ?\npass 4 picture 3 start 2\n\
            unmap 3 0 0 0 1\nmap 4 0 1 1 1\nrow 0 0 ?\n",
        versions: &[(1, 1), (1, 2), (2, 2), (2, 2)],
    },
    shown: &[
        &[BLENDED_LOW],
        &[BLENDED_LOW, BLENDED],
        &[BLENDED_FAR],
        &[BLENDED_FAR],
    ],
    replay: "replay s.vts a.path j.txt f --filter bilinear",
}];

#[test]
fn a_row_is_drawn_by_the_version_that_it_holds_while_pages_are_streamed(rt: HostRuntime) {
    let alloc = rt.alloc();
    fly_all(
        &rt,
        alloc,
        &DRAWN_WHILE_STREAMING,
        Meeting::RowAndStream {
            read: 2,
            row: 3,
            version: 4,
        },
    );
    fly_all(
        &rt,
        alloc,
        &BLENDED_WHILE_STREAMING,
        Meeting::RowAndStream {
            read: 1,
            row: 3,
            version: 3,
        },
    );
}

// Two pictures of two rows, each of which wants page 0. The first row of the second picture holds version 1 until version 2 is published, which
// maps page 0, and the second row is drawn by that.
const ROW_BY_ROW: Row<'static> = Row {
    words: "walk s.vts a.path f --frames 2 --samplers 1 --loaders 1 --batch 1 --journal j.txt",
    files: &[
        ("s.vts", All(G4_STORE)),
        (
            "a.path",
            All(b"size 1 2\nfocal 1\nat -128 64 256 16384 0\nat -128 64 256 16384 0\n"),
        ),
    ],
    left: &[(
        "j.txt",
        All(
            b"map 1 1 0 0 0\npass 1 picture 0 start 1\nrow 0 0 1\nrow 1 0 1\npass 2 picture 1 start 1\n\
                map 2 0 0 0 1\nrow 0 0 1\nrow 1 0 2\n",
        ),
    )],
    pictures: &[
        b"P6\n1 2\n255\n\x03\x03\x03\x03\x03\x03",
        b"P6\n1 2\n255\n\x03\x03\x03\x00\x00\x00",
    ],
    out: b"picture 0 passes 1 wanted 1 loaded 0 lost 0 evicted 0\n\
        picture 1 passes 1 wanted 1 loaded 1 lost 0 evicted 0\nend pictures 2 reads 2\n",
    ..REUSED_ROW
};

static ROWS_BY_ROWS: [Row<'static>; 4] = [
    ROW_BY_ROW,
    Row {
        words: "walk s.vts a.path f --frames 2 --samplers 1 --loaders 1 --batch 1 --journal j.txt --rows shared",
        ..ROW_BY_ROW
    },
    Row {
        words: "walk s.vts a.path f --frames 2 --samplers 1 --loaders 1 --batch 1 --journal j.txt --table swap",
        ..ROW_BY_ROW
    },
    // The second row is the blend of the texels 0 and 4 with the weights 49152 and 16384.
    Row {
        words: "walk s.vts a.path f --frames 2 --samplers 1 --loaders 1 --batch 1 --journal j.txt --filter bilinear",
        pictures: &[
            b"P6\n1 2\n255\n\x03\x03\x03\x03\x03\x03",
            b"P6\n1 2\n255\n\x03\x03\x03\x01\x01\x01",
        ],
        ..ROW_BY_ROW
    },
];

#[test]
fn each_row_is_drawn_by_a_hold_of_its_own(rt: HostRuntime) {
    meet_all(
        &rt,
        rt.alloc(),
        &ROWS_BY_ROWS,
        Meeting::RowAndStream {
            read: 0,
            row: 2,
            version: 2,
        },
    );
}
