//! A pass by the hands of a crew, and by none.

use crate::checks::holds;
use crate::crew::{comes_to, wait_for_hands};
use std::alloc::Global;
use std::mem;
use std::sync::atomic::AtomicU64;
use std::sync::atomic::Ordering::SeqCst;
use std::sync::{Arc, Wait};
use std::thread::Threads;
use vt_camera::parse_path;
use vt_crew::{Desks, Errand, run_with_crew};
use vt_machine::{HandTask, LentWorker, Meanwhile, Planned, Shot, Task, work_with_crew};
use vt_outside::{Gate, Items, OpenGate};
use vt_pages::Geometry;

// What workers share: how many have begun, and how many are waited for.
#[derive(Drop)]
struct Meeting {
    begun: AtomicU64,
    others: u64,
}

// What a worker did: how often it worked, as which one it began, counted from 0, for which picture, and whether it waited for the others in vain.
#[derive(Drop)]
struct Worker {
    times: u32,
    place: u64,
    picture: u32,
    is_late: bool,
}

// A worker that has not worked.
fn idle_worker() -> Worker {
    Worker {
        times: 0,
        place: 0,
        picture: 0,
        is_late: false,
    }
}

impl Worker {
    // Notes what it was told, and waits for the others.
    fn meet(&mut self, meeting: &Meeting, shot: &Shot<'_>) {
        self.times = self.times.wrapping_add(1);
        self.place = meeting.begun.fetch_add(1, SeqCst);
        self.picture = shot.picture;
        if !comes_to(&meeting.begun, meeting.others) {
            self.is_late = true;
        }
    }

    // Whether it worked once, for this picture, and met the others.
    fn has_met(&self, picture: u32) -> bool {
        self.times == 1 && self.picture == picture && !self.is_late
    }
}

impl HandTask<Meeting> for Worker {
    ghost ready = { λ meeting job worker. Unit {0} };

    ghost did = { λ meeting job before after. Unit {0} };

    fn work<Rt: Threads + Wait, G: Gate>(
        &mut self,
        _rt: &Rt,
        meeting: &Meeting,
        shot: &Shot<'_>,
        _gate: &G,
    ) {
        self.meet(meeting, shot);
    }
}

// A streamer, and how many entries it was told.
#[derive(Drop)]
struct Streamer {
    worker: Worker,
    entries: usize,
}

impl Task<Meeting> for Streamer {
    ghost ready = { λ meeting job worker. Unit {0} };

    ghost did = { λ meeting job before after. Unit {0} };

    fn work<Rt: Threads + Wait, G: Gate>(
        &mut self,
        _rt: &Rt,
        meeting: &Meeting,
        shot: &Shot<'_>,
        batch: &[Planned],
        _gate: &G,
    ) {
        self.entries = batch.len();
        self.worker.meet(meeting, shot);
    }
}

// What is done meanwhile: it notes how often and as which one it began, and waits for nobody.
#[derive(Drop)]
struct Note {
    times: u32,
    place: u64,
    meeting: Arc<Meeting>,
}

impl Meanwhile for Note {
    ghost ready = { λ note. Unit {0} };

    ghost did = { λ before after. Unit {0} };

    fn act(&mut self) {
        self.times = self.times.wrapping_add(1);
        self.place = self.meeting.begun.fetch_add(1, SeqCst);
    }
}

// A pass of two loaders, two samplers and a streamer.
#[derive(Drop)]
struct Pass<'w, G> {
    alloc: Global,
    loaders: Items<Worker>,
    samplers: Items<Worker>,
    streamer: Streamer,
    note: Note,
    meeting: Arc<Meeting>,
    shot: Shot<'w>,
    gate: &'w G,
}

impl<'w, G: Gate> Errand<LentWorker<'w, Meeting, Worker, Worker, G>> for Pass<'w, G> {
    ghost ready = { λ pass. Unit {0} };

    ghost did = { λ before after. Unit {0} };

    fn run<Rt: Threads + Wait>(
        &mut self,
        rt: &Rt,
        desks: &mut Desks<LentWorker<'w, Meeting, Worker, Worker, G>>,
    ) {
        wait_for_hands(desks);
        let samplers = mem::replace(&mut self.samplers, Items::new(self.alloc));
        self.samplers = work_with_crew(
            rt,
            desks,
            &mut self.loaders,
            samplers,
            &mut self.streamer,
            &mut self.note,
            &self.meeting,
            &self.shot,
            &BATCH,
            self.gate,
        );
    }
}

// The entries of a pass.
const BATCH: [Planned; 2] = [
    Planned {
        page: 1,
        frame: 2,
        victim: None,
    },
    Planned {
        page: 3,
        frame: 0,
        victim: Some(2),
    },
];

// Three pictures of two pixels, for which one hand is enough.
const SMALL: &[u8] =
    b"size 2 1\nfocal 1\nat 0 0 256 16384 0\nat 0 0 256 16384 0\nat 0 0 256 16384 0\n";

// Three pictures of so many pixels that two samplers have a hand each.
const LARGE: &[u8] =
    b"size 128 128\nfocal 1\nat 0 0 256 16384 0\nat 0 0 256 16384 0\nat 0 0 256 16384 0\n";

// Two workers.
fn two_workers(alloc: Global) -> Option<Items<Worker>> {
    let mut workers = Items::new(alloc);
    workers.reserve(2).ok()?;
    workers.push(idle_worker());
    workers.push(idle_worker());
    Some(workers)
}

// A pass that has not been run, in which so many are waited for.
fn pass_of<'w, G>(alloc: Global, others: u64, shot: Shot<'w>, gate: &'w G) -> Option<Pass<'w, G>> {
    let meeting = Arc::new(
        alloc,
        Meeting {
            begun: AtomicU64::new(0),
            others,
        },
    )
    .ok()?;
    Some(Pass {
        alloc,
        loaders: two_workers(alloc)?,
        samplers: two_workers(alloc)?,
        streamer: Streamer {
            worker: idle_worker(),
            entries: 0,
        },
        note: Note {
            times: 0,
            place: 0,
            meeting: Arc::try_clone(&meeting).ok()?,
        },
        meeting,
        shot,
        gate,
    })
}

// Whether these are two workers that each worked once, for this picture, and met the others.
fn are_two_met(workers: &[Worker], picture: u32) -> bool {
    for worker in workers {
        if !worker.has_met(picture) {
            return false;
        }
    }
    workers.len() == 2
}

// As which one a worker of two began, counted from 0.
fn place_of(workers: &Items<Worker>, at: usize) -> u64 {
    match workers.slice().get(at) {
        Some(worker) => worker.place,
        None => u64::MAX,
    }
}

// The places of a pass that was run, where each has worked once, for this picture: of its loaders, of what was done meanwhile, of its streamer, and
// of its samplers.
fn places_of<'w, G>(pass: &Pass<'w, G>, picture: u32) -> Option<[u64; 6]> {
    if are_two_met(pass.loaders.slice(), picture)
        && are_two_met(pass.samplers.slice(), picture)
        && pass.streamer.worker.has_met(picture)
        && pass.streamer.entries == 2
        && pass.note.times == 1
    {
        Some([
            place_of(&pass.loaders, 0),
            place_of(&pass.loaders, 1),
            pass.note.place,
            pass.streamer.worker.place,
            place_of(&pass.samplers, 0),
            place_of(&pass.samplers, 1),
        ])
    } else {
        None
    }
}

// The places of a pass of a path's last picture, which is run by so many hands.
fn places_by<Rt: Threads + Wait + Sync>(
    rt: &Rt,
    alloc: Global,
    path: &[u8],
    hands: usize,
    others: u64,
) -> Option<[u64; 6]> {
    let geometry = Geometry::new(4, 4, 2).ok()?;
    let path = parse_path(alloc, path).ok()?;
    let shot = Shot {
        geometry: &geometry,
        path: &path,
        picture: 2,
        depth: 1,
    };
    let gate = OpenGate;
    let mut pass = pass_of(alloc, others, shot, &gate)?;
    run_with_crew(rt, alloc, hands, &mut pass);
    places_of(&pass, 2)
}

#[test]
fn four_hands_and_their_caller_are_at_work_at_once(rt: HostRuntime) {
    match places_by(&rt, rt.alloc(), LARGE, 4, 6) {
        Some(places) => holds(&rt, places[2] < places[3]),
        None => holds(&rt, false),
    }
}

#[test]
fn the_samplers_of_a_small_picture_draw_in_turn_by_one_hand(rt: HostRuntime) {
    match places_by(&rt, rt.alloc(), SMALL, 3, 5) {
        Some(places) => holds(
            &rt,
            places[2] < places[3] && places[4] < places[5] && places[5] == 5,
        ),
        None => holds(&rt, false),
    }
}

#[test]
fn a_caller_with_no_hand_notes_loads_streams_and_draws(rt: HostRuntime) {
    holds(
        &rt,
        places_by(&rt, rt.alloc(), LARGE, 0, 1) == Some([1, 2, 0, 3, 4, 5]),
    );
}
