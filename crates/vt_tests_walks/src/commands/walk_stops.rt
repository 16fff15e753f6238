// What is left after each call of a walk that fails, by each machine, by one worker of each kind and by four samplers and three loaders.
use super::files::{FAULT, G4_STORE, PATH, PICTURE};
use super::replay_rows::OVER_G4;
use super::rows::{Row, hold};
use super::runs::{Scene, play};
use super::walk_rows::{SETTLED, SETTLED_LOG, SETTLED_WORDS};
use crate::told::Told;
use std::alloc::Global;
use std::process::Abort;
use std::sync::Wait;
use std::test::*;
use std::thread::Threads;
use vt_outside::Fail;

// A settled walk of one picture of two pixels, in four passes: the second loads page 0, and the third page 2.
#[derive(Clone, Copy)]
struct Walk<'a> {
    words: &'a str,
    path: &'a [u8],
    picture: &'a [u8],
    // The samplers and the versions that its rows may name.
    rows: &'a [(u8, u8)],
}

// Its journal. The head ends at byte 14, and the passes at the bytes 49, 98, 147 and 182.
const JOURNAL: &[u8] =
    b"map 1 1 0 0 0\npass 1 picture 0 start 1\nrow 0 ? 1\npass 2 picture 0 start 1\n\
        map 2 0 0 0 1\nrow 0 ? ?\npass 3 picture 0 start 2\nmap 3 0 0 1 2\nrow 0 ? ?\n\
        pass 4 picture 0 start 3\nrow 0 ? 3\n";

// That of the walk which lost page 0, and of the one which lost page 2.
const WITHOUT_FIRST: &[u8] =
    b"map 1 1 0 0 0\npass 1 picture 0 start 1\nrow 0 ? 1\npass 2 picture 0 start 1\n\
        lost 0 0 0\nrow 0 ? 1\n";

const WITHOUT_SECOND: &[u8] =
    b"map 1 1 0 0 0\npass 1 picture 0 start 1\nrow 0 ? 1\npass 2 picture 0 start 1\n\
        map 2 0 0 0 1\nrow 0 ? ?\npass 3 picture 0 start 2\nlost 0 0 1\nrow 0 ? 2\n";

// What is left of the journal.
#[derive(Clone, Copy)]
enum Written {
    // Not even its name.
    Nothing,
    // Its first so many bytes.
    Front(usize),
    WithoutFirst,
    WithoutSecond,
}

// A call that fails, and what is left then.
#[derive(Clone, Copy)]
struct Stop {
    fail: Fail,
    journal: Written,
    // How many bytes of the picture, where its name is there.
    picture: Option<usize>,
    // How many bytes of the log.
    log: usize,
}

const EARLY: Stop = Stop {
    fail: Fail::Open(0),
    journal: Written::Nothing,
    picture: None,
    log: 0,
};

// Calls that fail in any walk. One that fails to add bytes leaves the first half of them.
static STOPS: [Stop; 19] = [
    EARLY,
    Stop {
        fail: Fail::Open(1),
        ..EARLY
    },
    Stop {
        fail: Fail::Open(2),
        ..EARLY
    },
    Stop {
        fail: Fail::Length { opening: 0 },
        ..EARLY
    },
    Stop {
        fail: Fail::Length { opening: 1 },
        ..EARLY
    },
    Stop {
        fail: Fail::Read {
            opening: 0,
            read: 0,
        },
        ..EARLY
    },
    Stop {
        fail: Fail::Read {
            opening: 1,
            read: 0,
        },
        ..EARLY
    },
    Stop {
        fail: Fail::Read {
            opening: 1,
            read: 1,
        },
        ..EARLY
    },
    Stop {
        fail: Fail::Create(0),
        ..EARLY
    },
    Stop {
        fail: Fail::Append(0),
        journal: Written::Front(7),
        ..EARLY
    },
    Stop {
        fail: Fail::Append(1),
        journal: Written::Front(14 + 17),
        ..EARLY
    },
    Stop {
        fail: Fail::Append(2),
        journal: Written::Front(49 + 24),
        ..EARLY
    },
    Stop {
        fail: Fail::Append(3),
        journal: Written::Front(98 + 24),
        ..EARLY
    },
    Stop {
        fail: Fail::Append(4),
        journal: Written::Front(147 + 17),
        ..EARLY
    },
    Stop {
        fail: Fail::Read {
            opening: 2,
            read: 0,
        },
        journal: Written::WithoutFirst,
        ..EARLY
    },
    Stop {
        fail: Fail::Create(1),
        journal: Written::Front(182),
        ..EARLY
    },
    Stop {
        fail: Fail::Append(5),
        journal: Written::Front(182),
        picture: Some(8),
        ..EARLY
    },
    Stop {
        fail: Fail::Put(0),
        journal: Written::Front(182),
        picture: Some(17),
        log: 27,
    },
    Stop {
        fail: Fail::Put(1),
        journal: Written::Front(182),
        picture: Some(17),
        log: 54 + 11,
    },
];

// One that fails where a single loader reads all tiles.
static SECOND_TILE: [Stop; 1] = [Stop {
    fail: Fail::Read {
        opening: 2,
        read: 1,
    },
    journal: Written::WithoutSecond,
    ..EARLY
}];

// Those of the second loader and the third.
static OTHER_LOADERS: [Stop; 2] = [
    Stop {
        fail: Fail::Open(3),
        ..EARLY
    },
    Stop {
        fail: Fail::Open(4),
        ..EARLY
    },
];

const BY_ONE: Walk<'_> = Walk {
    words: SETTLED_WORDS,
    path: PATH,
    picture: PICTURE,
    rows: &[(0, 0), (0, 0), (1, 2), (0, 0), (2, 3), (0, 0)],
};

// Half a texel right of the first column: the blends are of the texels 12, 13, 0 and 1, and 0, 1, 4 and 5, with like weights.
const BLENDED: Walk<'_> = Walk {
    words: "walk s.vts a.path f --frames 3 --samplers 1 --loaders 1 --batch 1 --journal j.txt --settled --filter bilinear",
    path: b"size 2 1\nfocal 1\nat -128 0 256 16384 0\n",
    picture: b"P6\n2 1\n255\n\x07\x07\x07\x03\x03\x03",
    ..BY_ONE
};

// The machines, each by one worker of each kind.
static ALONE: [Walk<'static>; 4] = [
    BY_ONE,
    Walk {
        words: "walk s.vts a.path f --frames 3 --samplers 1 --loaders 1 --batch 1 --journal j.txt --settled --rows shared",
        ..BY_ONE
    },
    Walk {
        words: "walk s.vts a.path f --frames 3 --samplers 1 --loaders 1 --batch 1 --journal j.txt --settled --table swap",
        ..BY_ONE
    },
    BLENDED,
];

// And by four samplers and three loaders. Shared rows may be drawn by any sampler.
static TOGETHER: [Walk<'static>; 4] = [
    Walk {
        words: "walk s.vts a.path f --frames 3 --samplers 4 --loaders 3 --batch 1 --journal j.txt --settled",
        ..BY_ONE
    },
    Walk {
        words: "walk s.vts a.path f --frames 3 --samplers 4 --loaders 3 --batch 1 --journal j.txt --settled --rows shared",
        rows: &[(0, 3), (0, 3), (1, 2), (0, 3), (2, 3), (0, 3)],
        ..BY_ONE
    },
    Walk {
        words: "walk s.vts a.path f --frames 3 --samplers 4 --loaders 3 --batch 1 --journal j.txt --settled --table swap",
        ..BY_ONE
    },
    Walk {
        words: "walk s.vts a.path f --frames 3 --samplers 4 --loaders 3 --batch 1 --journal j.txt --settled --filter bilinear",
        ..BLENDED
    },
];

// The call that fails; of a read of a loader's file that read of each loader's, since any of them may take the request.
fn fails_of(fail: Fail) -> [Fail; 3] {
    if let Fail::Read { opening, read } = fail {
        if opening == 2 {
            return [
                fail,
                Fail::Read { opening: 3, read },
                Fail::Read { opening: 4, read },
            ];
        }
    }
    [fail, fail, fail]
}

// Whether these are the first so many bytes.
fn is_front(bytes: &[u8], whole: &[u8], count: usize) -> bool {
    count <= whole.len() && bytes == &whole[..count]
}

// Whether so much stands of a picture.
fn is_drawn(held: Option<&[u8]>, whole: &[u8], count: Option<usize>) -> bool {
    match (held, count) {
        (Some(bytes), Some(count)) => is_front(bytes, whole, count),
        (None, None) => true,
        _ => false,
    }
}

// Whether bytes are a journal of this text, with such rows in it.
fn is_journal(bytes: &[u8], text: &[u8], rows: &[(u8, u8)]) -> bool {
    let told = Told {
        text,
        versions: rows,
    };
    told.is(bytes)
}

// Whether bytes are the first so many of the journal.
fn is_begun(bytes: &[u8], rows: &[(u8, u8)], count: usize) -> bool {
    let told = Told {
        text: JOURNAL,
        versions: rows,
    };
    told.begins(bytes, count)
}

// Whether so much stands of a journal.
fn is_written(held: Option<&[u8]>, rows: &[(u8, u8)], written: Written) -> bool {
    match (written, held) {
        (Written::Nothing, None) => true,
        (Written::Front(count), Some(bytes)) => is_begun(bytes, rows, count),
        (Written::WithoutFirst, Some(bytes)) => is_journal(bytes, WITHOUT_FIRST, rows),
        (Written::WithoutSecond, Some(bytes)) => is_journal(bytes, WITHOUT_SECOND, rows),
        _ => false,
    }
}

// Whether all stands that is to stand after a walk, and nothing else.
fn stands(scene: &Scene, walk: &Walk<'_>, stop: &Stop) -> bool {
    let folder = &scene.folder;
    is_written(folder.bytes_of("j.txt"), walk.rows, stop.journal)
        && is_drawn(folder.bytes_of("f0000.ppm"), walk.picture, stop.picture)
        && folder.bytes_of("f0001.ppm").is_none()
        && folder.bytes_of("journal.txt").is_none()
        && folder.holds("s.vts", G4_STORE)
        && folder.holds("a.path", walk.path)
        && is_front(scene.out.bytes(), SETTLED_LOG, stop.log)
        && scene.err.bytes() == FAULT
}

// Whether a walk over an empty scene, to which its files are added, ends as it is to end.
fn stops_in(
    rt: &(impl Threads + Wait + Sync),
    alloc: Global,
    walk: &Walk<'_>,
    stop: &Stop,
    scene: &mut Scene,
) -> bool {
    scene.folder.add("s.vts", G4_STORE).is_ok()
        && scene.folder.add("a.path", walk.path).is_ok()
        && play(rt, alloc, walk.words, scene) == 3
        && stands(scene, walk, stop)
}

// Whether a walk ends so where the call fails.
fn stops(rt: &(impl Threads + Wait + Sync), alloc: Global, walk: &Walk<'_>, stop: &Stop) -> bool {
    match Scene::failing_each(alloc, &fails_of(stop.fail)) {
        Ok(mut scene) => stops_in(rt, alloc, walk, stop, &mut scene),
        Err(_) => false,
    }
}

// Each walk ends so at each stop.
fn stop_all(
    rt: &(impl Abort + Threads + Wait + Sync),
    alloc: Global,
    walks: &[Walk<'_>],
    table: &[Stop],
) {
    for i in 0..walks.len() {
        for j in 0..table.len() {
            assert!(rt;
                stops(rt, alloc, &walks[i], &table[j]),
                "walk {i}, stop {j}"
            );
        }
    }
}

#[test]
fn each_call_of_a_walk_that_fails_leaves_what_was_written_before_it(rt: HostRuntime) {
    let alloc = rt.alloc();
    stop_all(&rt, alloc, &ALONE, &STOPS);
    stop_all(&rt, alloc, &ALONE, &SECOND_TILE);
    stop_all(&rt, alloc, &TOGETHER, &STOPS);
    stop_all(&rt, alloc, &TOGETHER, &OTHER_LOADERS);
}

// A third creation would fail.
static CREATED_ONCE: [Row<'static>; 1] = [Row {
    fail: Some(Fail::Create(2)),
    ..SETTLED
}];

#[test]
fn a_walk_creates_its_journal_and_its_picture_once_each(rt: HostRuntime) {
    hold(&rt, rt.alloc(), &CREATED_ONCE);
}

// The error line ends at the put that fails, and the status stays.
static LINE_CUT: [Row<'static>; 1] = [Row {
    words: SETTLED_WORDS,
    files: OVER_G4,
    fail: Some(Fail::Open(0)),
    err_fail: Some(Fail::Put(0)),
    status: 3,
    left: &[],
    missing: &["j.txt", "journal.txt"],
    pictures: &[],
    out: b"",
    err: b"vtex: fault on ",
}];

#[test]
fn the_error_line_of_a_walk_ends_where_a_put_fails(rt: HostRuntime) {
    hold(&rt, rt.alloc(), &LINE_CUT);
}
