// Walks whose journals are replayed.
use super::rows::{Held, PICTURES, Row, adds, stands_beside};
use super::runs::{Scene, play};
use crate::gates::{Meeting, Meetings};
use crate::told::Told;
use std::alloc::Global;
use std::process::Abort;
use std::sync::Wait;
use std::test::*;
use std::thread::Threads;

/// A walk with one pass a picture, whose pictures have one row each.
#[derive(Clone, Copy)]
pub(super) struct Flight<'a> {
    /// What it leaves but for its journal, which is `j.txt`, and its pictures.
    pub row: Row<'a>,
    /// The journal, with a `?` for each row.
    pub told: Told<'a>,
    /// What each picture holds, by the version of its row from the least on.
    pub shown: &'a [&'a [&'a [u8]]],
    /// The words that replay its journal.
    pub replay: &'a str,
}

// What a replay of so many pictures prints, from 0 to 4.
fn end_of(pictures: usize) -> &'static [u8] {
    match pictures {
        0 => b"end pictures 0\n",
        1 => b"end pictures 1\n",
        2 => b"end pictures 2\n",
        3 => b"end pictures 3\n",
        _ => b"end pictures 4\n",
    }
}

// Whether two scenes have the same pictures.
fn have_same_pictures(one: &Scene, other: &Scene) -> bool {
    for i in 0..PICTURES.len() {
        if one.folder.bytes_of(PICTURES[i]) != other.folder.bytes_of(PICTURES[i]) {
            return false;
        }
    }
    true
}

// Adds the files of a walk, and the journal that it left.
fn is_laid(scene: &mut Scene, files: &[(&str, Held<'_>)], walked: &Scene) -> bool {
    match walked.folder.bytes_of("j.txt") {
        Some(journal) => {
            adds(&mut scene.folder, files) && scene.folder.add("j.txt", journal).is_ok()
        }
        None => false,
    }
}

// What a walk of so many pictures left is replayed to its pictures by these words.
fn is_replayed(
    rt: &(impl Threads + Wait + Sync),
    alloc: Global,
    words: &str,
    row: &Row<'_>,
    pictures: usize,
    walked: &Scene,
) -> bool {
    let mut scene = Scene::new(alloc);
    is_laid(&mut scene, row.files, walked)
        && play(rt, alloc, words, &mut scene) == 0
        && scene.printed(end_of(pictures), b"")
        && have_same_pictures(walked, &scene)
}

// What a picture holds, by the version of its row in a journal.
fn picture_of<'a>(flight: &Flight<'a>, journal: &[u8], picture: usize) -> Option<&'a [u8]> {
    let by_version = flight.shown.get(picture)?;
    let above = flight.told.above_least(journal, picture)?;
    by_version.get(above).copied()
}

// The pictures are those of a flight by its journal, and no others.
fn has_pictures(scene: &Scene, flight: &Flight<'_>, journal: &[u8]) -> bool {
    for i in 0..PICTURES.len() {
        if scene.folder.bytes_of(PICTURES[i]) != picture_of(flight, journal, i) {
            return false;
        }
    }
    true
}

// Its journal and its pictures are there.
fn has_flown(scene: &Scene, flight: &Flight<'_>) -> bool {
    match scene.folder.bytes_of("j.txt") {
        Some(journal) => flight.told.is(journal) && has_pictures(scene, flight, journal),
        None => false,
    }
}

// Its walk over a scene leaves what it says, and its journal is replayed to its pictures.
fn flies_in(
    rt: &(impl Threads + Wait + Sync),
    alloc: Global,
    flight: &Flight<'_>,
    scene: &mut Scene,
) -> bool {
    adds(&mut scene.folder, flight.row.files)
        && play(rt, alloc, flight.row.words, scene) == flight.row.status
        && stands_beside(scene, &flight.row)
        && has_flown(scene, flight)
        && is_replayed(
            rt,
            alloc,
            flight.replay,
            &flight.row,
            flight.shown.len(),
            scene,
        )
}

// Its walk, whose workers have this meeting, leaves what it says.
fn flies(
    rt: &(impl Threads + Wait + Sync),
    alloc: Global,
    flight: &Flight<'_>,
    meeting: Meeting,
) -> bool {
    match Scene::failing(alloc, flight.row.fail, flight.row.err_fail) {
        Ok(mut scene) => {
            scene.gate = Meetings::new(meeting);
            flies_in(rt, alloc, flight, &mut scene) && scene.gate.came()
        }
        Err(_) => false,
    }
}

/// Each flight, whose workers have this meeting, leaves what it says.
pub(super) fn fly_all(
    rt: &(impl Abort + Threads + Wait + Sync),
    alloc: Global,
    flights: &[Flight<'_>],
    meeting: Meeting,
) {
    for i in 0..flights.len() {
        assert!(rt; flies(rt, alloc, &flights[i], meeting), "flight {i}");
    }
}
