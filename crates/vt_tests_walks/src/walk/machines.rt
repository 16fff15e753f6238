//! Walks by two machines that no words ask for. The four that words ask for are tried with whole commands. With these, each table is tried with each
//! schedule and each filter, and each schedule with each filter.

use crate::any_sampler::{
    BLENDED, BY_ONE, BY_SEVEN, BY_TWO, FOUR_ROWS, FOUR_ROWS_LOG, FOUR_ROWS_SHOWN, FOUR_ROWS_TOLD,
    LARGE_LOG, has_one_and_three, of_one_colour,
};
use crate::fixtures::{FINE, FOUR, ONE_PICTURE};
use crate::gates::{Meeting, Meetings};
use crate::told::Told;
use crate::walk::worked::{are_lawful, open_after_path};
use std::alloc::Global;
use std::process::Abort;
use std::sync::Wait;
use std::thread::Threads;
use vt_camera::{Path, parse_path};
use vt_machine::{Crew, SentMachine};
use vt_outside::{Fails, MemoryFile, MemoryFolder, MemorySink};
use vt_pass_machines::{Bilinear, Machine, Nearest, Shared, SwapTable};
use vt_walk::{Names, Settings, walk_with};

// A walk over the store of four pages and a root, and what is to come of it.
#[derive(Clone, Copy)]
struct Case<'a> {
    path: &'a [u8],
    settings: Settings,
    settled: bool,
    log: &'a [u8],
    picture: &'a [u8],
}

// Such a walk, and its journal.
#[derive(Clone, Copy)]
struct ToldCase<'a> {
    case: Case<'a>,
    told: Told<'a>,
}

// The machine over the swapped table and shared rows, by a filter.
type By<P> = Machine<MemoryFile, SwapTable, Shared, P>;

// Whether a walk by a machine over the store of a folder succeeds.
fn is_walked<Rt: Abort + Threads + Wait + Sync, M: SentMachine<File = MemoryFile>>(
    rt: &Rt,
    alloc: Global,
    folder: &mut MemoryFolder,
    path: &Path,
    case: &Case<'_>,
    out: &mut MemorySink,
    gate: &Meetings,
) -> bool {
    let names = Names {
        store: "s",
        prefix: "f",
        journal: "j",
    };
    let store = open_after_path(rt, folder, names.store);
    let lawful = are_lawful(&store.geometry(), &case.settings);
    assert!(rt; lawful);
    walk_with::<Rt, M, MemoryFolder, MemorySink, Meetings>(
        rt,
        alloc,
        folder,
        store,
        path,
        &names,
        &case.settings,
        case.settled,
        out,
        gate,
    )
    .is_ok()
}

// Whether a walk in a folder left such a journal.
fn has_journal(folder: &MemoryFolder, told: &Told<'_>) -> bool {
    match folder.bytes_of("j") {
        Some(journal) => told.is(journal),
        None => false,
    }
}

// Whether the walk of a case by a machine, in a folder of no names, leaves the log and the picture that are to come, and its workers have this meeting.
fn comes<Rt: Abort + Threads + Wait + Sync, M: SentMachine<File = MemoryFile>>(
    rt: &Rt,
    alloc: Global,
    folder: &mut MemoryFolder,
    case: &Case<'_>,
    meeting: Meeting,
) -> bool {
    let laid = folder.add("s", &FOUR).is_ok() && folder.add("p", case.path).is_ok();
    let gate = Meetings::new(meeting);
    let mut out = MemorySink::new(alloc, Fails::new(alloc));
    match parse_path(alloc, case.path) {
        Ok(path) => {
            laid && is_walked::<Rt, M>(rt, alloc, folder, &path, case, &mut out, &gate)
                && gate.came()
                && out.bytes() == case.log
                && folder.holds("f0000.ppm", case.picture)
        }
        Err(_) => false,
    }
}

const SETTINGS: Settings = Settings {
    frames: 3,
    pinned: 1,
    crew: Crew {
        samplers: 1,
        loaders: 1,
        batch: 1,
    },
};

const OF_ONE: Case<'_> = Case {
    path: ONE_PICTURE,
    settings: SETTINGS,
    settled: true,
    log: b"picture 0 passes 4 wanted 2 loaded 2 lost 0 evicted 0\nend pictures 1 reads 3\n",
    picture: FINE,
};

static CREWS: [ToldCase<'_>; 3] = [
    ToldCase {
        case: OF_ONE,
        told: BY_ONE,
    },
    ToldCase {
        case: Case {
            settings: Settings {
                crew: Crew {
                    samplers: 2,
                    loaders: 1,
                    batch: 1,
                },
                ..SETTINGS
            },
            ..OF_ONE
        },
        told: BY_TWO,
    },
    ToldCase {
        case: Case {
            settings: Settings {
                crew: Crew {
                    samplers: 7,
                    loaders: 3,
                    batch: 1,
                },
                ..SETTINGS
            },
            ..OF_ONE
        },
        told: BY_SEVEN,
    },
];

// Whether all comes of each crew's walk by a machine.
fn comes_by_any_crew<Rt: Abort + Threads + Wait + Sync, M: SentMachine<File = MemoryFile>>(
    rt: &Rt,
    alloc: Global,
) -> bool {
    for i in 0..CREWS.len() {
        let mut folder = MemoryFolder::new(alloc, Fails::new(alloc));
        let came = comes::<Rt, M>(rt, alloc, &mut folder, &CREWS[i].case, Meeting::Nobody);
        if !came || !has_journal(&folder, &CREWS[i].told) {
            return false;
        }
    }
    true
}

static BY_EITHER: Case<'_> = Case {
    path: FOUR_ROWS,
    settings: Settings {
        frames: 1,
        crew: Crew {
            samplers: 2,
            loaders: 1,
            batch: 64,
        },
        ..SETTINGS
    },
    settled: false,
    log: FOUR_ROWS_LOG,
    picture: FOUR_ROWS_SHOWN,
};

// Whether one of the samplers drew one of the four rows, and the other three.
fn is_outrun(folder: &MemoryFolder) -> bool {
    match folder.bytes_of("j") {
        Some(journal) => has_one_and_three(journal),
        None => false,
    }
}

// Whether a sampler of a machine draws three rows of a picture while another waits in the first that was reached.
fn outruns<Rt: Abort + Threads + Wait + Sync, M: SentMachine<File = MemoryFile>>(
    rt: &Rt,
    alloc: Global,
) -> bool {
    let mut folder = MemoryFolder::new(alloc, Fails::new(alloc));
    comes::<Rt, M>(
        rt,
        alloc,
        &mut folder,
        &BY_EITHER,
        Meeting::FirstRow { rows: 4 },
    ) && has_journal(&folder, &FOUR_ROWS_TOLD)
        && is_outrun(&folder)
}

// Whether shared rows are drawn rightly by a machine, whoever draws them. Each test names one machine, once: a second call would take its proof 15
// seconds.
fn shares_rows<Rt: Abort + Threads + Wait + Sync, M: SentMachine<File = MemoryFile>>(
    rt: &Rt,
    alloc: Global,
) -> bool {
    comes_by_any_crew::<Rt, M>(rt, alloc) && outruns::<Rt, M>(rt, alloc)
}

#[test]
fn a_sampler_of_the_swapped_table_draws_three_rows_while_another_waits(rt: HostRuntime) {
    assert!(&rt; shares_rows::<HostRuntime, By<Nearest>>(&rt, rt.alloc()));
}

static ONE_BLEND: Case<'_> = Case {
    path: BLENDED,
    settings: Settings {
        crew: Crew {
            samplers: 2,
            loaders: 1,
            batch: 64,
        },
        ..SETTINGS
    },
    settled: true,
    log: LARGE_LOG,
    picture: b"",
};

// Whether the walk of that case by a machine shows the blend, and its second sampler begins a row while the first is at one.
fn blends<Rt: Abort + Threads + Wait + Sync, M: SentMachine<File = MemoryFile>>(
    rt: &Rt,
    alloc: Global,
) -> bool {
    let mut folder = MemoryFolder::new(alloc, Fails::new(alloc));
    let Some(picture) = of_one_colour(alloc, 1) else {
        return false;
    };
    let shown = Case {
        picture: picture.as_slice(),
        ..ONE_BLEND
    };
    comes::<Rt, M>(
        rt,
        alloc,
        &mut folder,
        &shown,
        Meeting::FirstRow { rows: 2 },
    )
}

#[test]
fn a_sampler_of_the_swapped_table_blends_a_shared_row_while_another_does(rt: HostRuntime) {
    assert!(&rt; blends::<HostRuntime, By<Bilinear>>(&rt, rt.alloc()));
}
