//! Replays of walks, over a store in memory.

use crate::cases::{Case, Deed, check};
use crate::fixtures::{
    FAR, FINE, FOUR, FOUR_PICTURES, HEADER, LOW, ROOT_TILE, TILE_0, TILE_2, TILE_3, open_store,
    pictures_stand,
};
use std::alloc::Global;
use std::process::Abort;
use std::thread::Threads;
use vt_camera::Path;
use vt_outside::{MemoryFolder, Place};
use vt_replay::replay;

/// A replay of a journal, and what is to be there after it.
#[derive(Clone, Copy)]
pub struct Replay<'a> {
    pub journal: &'a [u8],
    /// All that are written.
    pub pictures: &'a [&'a [u8]],
    /// The places of the store that are asked, where they are looked at.
    pub asked: Option<&'a [Place]>,
}

// Whether the store of a folder was asked for these places, if there are any to look at.
fn was_asked(folder: &MemoryFolder, asked: Option<&[Place]>) -> bool {
    match asked {
        Some(places) => folder.was_asked("s", places),
        None => true,
    }
}

/// Replays a journal over the store of a folder: whether all came of it that was to come.
pub fn replay_comes<Rt: Abort + Threads + Sync>(
    rt: &Rt,
    alloc: Global,
    folder: &mut MemoryFolder,
    path: &Path,
    case: &Replay<'_>,
) -> bool {
    let store = open_store(rt, folder, "s");
    match replay(rt, alloc, folder, store, path, case.journal, "f") {
        Ok(count) => {
            count as usize == case.pictures.len()
                && pictures_stand(folder, case.pictures)
                && was_asked(folder, case.asked)
        }
        Err(_) => false,
    }
}

// The second picture of the walk that lost a tile, at the version 2: only page 0 is mapped beside the root.
const WITH_PAGE_0: &[u8] = b"P6\n2 1\n255\n\x0b\x0b\x0b\x01\x01\x01";

// The fourth picture of the walk that lost a tile, at the version 5: page 3 is mapped.
const FAR_WITH_PAGE_3: &[u8] = b"P6\n2 1\n255\n\x0f\x0f\x0f\x05\x05\x05";

// Replays of the walk that lost a tile, by the versions of the second and of the fourth row.
const AT_1_AND_3: Replay<'_> = Replay {
    journal: b"map 1 1 0 0 0\npass 1 picture 0 start 1\nrow 0 0 1\npass 2 picture 1 start 1\nmap 2 0 0 0 1\n\
        map 3 0 0 1 2\nrow 0 0 1\npass 3 picture 2 start 3\nrow 0 0 3\npass 4 picture 3 start 3\n\
        lost 0 1 0\nunmap 4 0 0 0 1\nmap 5 0 1 1 1\nrow 0 0 3\n",
    pictures: &[LOW, LOW, FAR, FAR],
    asked: None,
};

const AT_3_AND_5: Replay<'_> = Replay {
    journal: b"map 1 1 0 0 0\npass 1 picture 0 start 1\nrow 0 0 1\npass 2 picture 1 start 1\nmap 2 0 0 0 1\n\
        map 3 0 0 1 2\nrow 0 0 3\npass 3 picture 2 start 3\nrow 0 0 3\npass 4 picture 3 start 3\n\
        lost 0 1 0\nunmap 4 0 0 0 1\nmap 5 0 1 1 1\nrow 0 0 5\n",
    pictures: &[LOW, FINE, FAR, FAR_WITH_PAGE_3],
    ..AT_1_AND_3
};

// A replay along the path of that walk.
const LOST_TILE: Case<'_> = Case {
    store: &FOUR,
    path: FOUR_PICTURES,
    fails: &[],
    deed: Deed::Replay(AT_1_AND_3),
};

static FIRST_NEEDS: [Case<'static>; 2] = [
    Case {
        deed: Deed::Replay(Replay {
            asked: Some(&[HEADER, ROOT_TILE]),
            ..AT_1_AND_3
        }),
        ..LOST_TILE
    },
    Case {
        deed: Deed::Replay(Replay {
            asked: Some(&[HEADER, ROOT_TILE, TILE_2, TILE_0, TILE_3]),
            ..AT_3_AND_5
        }),
        ..LOST_TILE
    },
];

#[test]
fn a_tile_is_read_when_a_row_first_needs_it(rt: HostRuntime) {
    check(&rt, rt.alloc(), &FIRST_NEEDS);
}

// Three pictures from one place, over two frames: the root stays in one, and a page comes back to the other after
// another page was there.
const TAKING_TURNS: Replay<'_> = Replay {
    journal: b"map 1 1 0 0 0\npass 1 picture 0 start 1\nmap 2 0 0 0 1\nrow 0 0 2\n\
        pass 2 picture 1 start 2\nunmap 3 0 0 0 1\nmap 4 0 0 1 1\nrow 0 0 4\n\
        pass 3 picture 2 start 4\nunmap 5 0 0 1 1\nmap 6 0 0 0 1\nrow 0 0 6\n",
    pictures: &[
        WITH_PAGE_0,
        b"P6\n2 1\n255\n\x0d\x0d\x0d\x03\x03\x03",
        WITH_PAGE_0,
    ],
    asked: Some(&[HEADER, ROOT_TILE, TILE_0, TILE_2, TILE_0]),
};

static THREE_FROM_ONE_PLACE: [Case<'static>; 1] = [Case {
    store: &FOUR,
    path: b"size 2 1\nfocal 1\nat 0 0 256 16384 0\nat 0 0 256 16384 0\nat 0 0 256 16384 0\n",
    fails: &[],
    deed: Deed::Replay(TAKING_TURNS),
}];

#[test]
fn a_tile_that_was_put_out_is_read_again(rt: HostRuntime) {
    check(&rt, rt.alloc(), &THREE_FROM_ONE_PLACE);
}
