// A settled walk over a texture whose pages are far more than the frames.
ghost use Rattle.std.specs.Prelude.{◌<◌};
ghost use Rattle.vt_replay.specs.Names.{four_digit_numbers};

use super::files::FAULT;
use super::rows::Held::All;
use super::rows::adds;
use super::runs::{Scene, play};
use std::alloc::Global;
use std::sync::Wait;
use std::test::*;
use std::thread::Threads;
use vt_outside::{Fail, MemoryFolder};
use vt_pictures::picture_name;

// The path of `trial 7`: 60 pictures along a texture of 2048 texels a side.
static LONG_PATH: &[u8] =
    b"size 320 200\nfocal 100\nat 1792 0 204800 16384 0\nto 59 263936 0 204800 16384 0\n";

// The runs. The first pictures are those of the walk, the next the plain ones, the last those of its journal.
const RUNS: [&str; 5] = [
    "gen 7 2048 2048 t.ppm",
    "tile t.ppm s.vts --tile 64",
    "walk s.vts a.path f --frames 64 --samplers 4 --loaders 3 --batch 16 --journal j.txt --settled",
    "plain t.ppm a.path p --tile 64",
    "replay s.vts a.path j.txt r",
];

// What they print. The log of the walk is that of the lists of pages, by `trial` of `tests/walks.py`.
static PRINTED: &[u8] = b"store 2048 2048 tile 64 levels 6 pages 1365 bytes 16773136
picture 0 passes 6 wanted 41 loaded 44 lost 0 evicted 0
picture 1 passes 1 wanted 41 loaded 0 lost 0 evicted 0
picture 2 passes 1 wanted 39 loaded 0 lost 0 evicted 0
picture 3 passes 1 wanted 39 loaded 0 lost 0 evicted 0
picture 4 passes 1 wanted 39 loaded 0 lost 0 evicted 0
picture 5 passes 1 wanted 39 loaded 0 lost 0 evicted 0
picture 6 passes 1 wanted 39 loaded 0 lost 0 evicted 0
picture 7 passes 1 wanted 33 loaded 0 lost 0 evicted 0
picture 8 passes 1 wanted 33 loaded 0 lost 0 evicted 0
picture 9 passes 1 wanted 33 loaded 0 lost 0 evicted 0
picture 10 passes 1 wanted 33 loaded 0 lost 0 evicted 0
picture 11 passes 1 wanted 33 loaded 0 lost 0 evicted 0
picture 12 passes 1 wanted 33 loaded 0 lost 0 evicted 0
picture 13 passes 3 wanted 37 loaded 8 lost 0 evicted 0
picture 14 passes 1 wanted 37 loaded 0 lost 0 evicted 0
picture 15 passes 1 wanted 37 loaded 0 lost 0 evicted 0
picture 16 passes 1 wanted 37 loaded 0 lost 0 evicted 0
picture 17 passes 1 wanted 35 loaded 0 lost 0 evicted 0
picture 18 passes 1 wanted 35 loaded 0 lost 0 evicted 0
picture 19 passes 1 wanted 35 loaded 0 lost 0 evicted 0
picture 20 passes 1 wanted 35 loaded 0 lost 0 evicted 0
picture 21 passes 1 wanted 29 loaded 0 lost 0 evicted 0
picture 22 passes 1 wanted 29 loaded 0 lost 0 evicted 0
picture 23 passes 1 wanted 29 loaded 0 lost 0 evicted 0
picture 24 passes 1 wanted 29 loaded 0 lost 0 evicted 0
picture 25 passes 1 wanted 29 loaded 0 lost 0 evicted 0
picture 26 passes 1 wanted 29 loaded 0 lost 0 evicted 0
picture 27 passes 1 wanted 29 loaded 0 lost 0 evicted 0
picture 28 passes 3 wanted 41 loaded 8 lost 0 evicted 0
picture 29 passes 1 wanted 41 loaded 0 lost 0 evicted 0
picture 30 passes 1 wanted 41 loaded 0 lost 0 evicted 0
picture 31 passes 1 wanted 39 loaded 0 lost 0 evicted 0
picture 32 passes 1 wanted 39 loaded 0 lost 0 evicted 0
picture 33 passes 1 wanted 39 loaded 0 lost 0 evicted 0
picture 34 passes 1 wanted 39 loaded 0 lost 0 evicted 0
picture 35 passes 1 wanted 39 loaded 0 lost 0 evicted 0
picture 36 passes 1 wanted 33 loaded 0 lost 0 evicted 0
picture 37 passes 1 wanted 33 loaded 0 lost 0 evicted 0
picture 38 passes 1 wanted 33 loaded 0 lost 0 evicted 0
picture 39 passes 1 wanted 33 loaded 0 lost 0 evicted 0
picture 40 passes 1 wanted 33 loaded 0 lost 0 evicted 0
picture 41 passes 1 wanted 33 loaded 0 lost 0 evicted 0
picture 42 passes 1 wanted 33 loaded 0 lost 0 evicted 0
picture 43 passes 3 wanted 37 loaded 8 lost 0 evicted 5
picture 44 passes 1 wanted 37 loaded 0 lost 0 evicted 0
picture 45 passes 1 wanted 37 loaded 0 lost 0 evicted 0
picture 46 passes 1 wanted 35 loaded 0 lost 0 evicted 0
picture 47 passes 1 wanted 35 loaded 0 lost 0 evicted 0
picture 48 passes 1 wanted 35 loaded 0 lost 0 evicted 0
picture 49 passes 1 wanted 35 loaded 0 lost 0 evicted 0
picture 50 passes 1 wanted 35 loaded 0 lost 0 evicted 0
picture 51 passes 1 wanted 29 loaded 0 lost 0 evicted 0
picture 52 passes 1 wanted 29 loaded 0 lost 0 evicted 0
picture 53 passes 1 wanted 29 loaded 0 lost 0 evicted 0
picture 54 passes 1 wanted 29 loaded 0 lost 0 evicted 0
picture 55 passes 1 wanted 29 loaded 0 lost 0 evicted 0
picture 56 passes 1 wanted 29 loaded 0 lost 0 evicted 0
picture 57 passes 1 wanted 33 loaded 0 lost 0 evicted 0
picture 58 passes 3 wanted 41 loaded 8 lost 0 evicted 8
picture 59 passes 1 wanted 41 loaded 0 lost 0 evicted 0
end pictures 60 reads 77
end pictures 60
end pictures 60
";

// Each run ends well.
fn plays_all(rt: &(impl Threads + Wait + Sync), alloc: Global, scene: &mut Scene) -> bool {
    for i in 0..RUNS.len() {
        if play(rt, alloc, RUNS[i], scene) != 0 {
            return false;
        }
    }
    true
}

// A picture of a prefix, if it is there.
fn picture_of<'a>(
    alloc: Global,
    folder: &'a MemoryFolder,
    prefix: &str,
    picture: u32,
) -> Option<&'a [u8]>
    requires { picture < four_digit_numbers }
{
    match picture_name(alloc, prefix, picture) {
        Ok(name) => folder.bytes_of(name.as_str()),
        Err(_) => None,
    }
}

// A picture of the walk, the plain one and that of the journal are the same.
fn is_plain(alloc: Global, folder: &MemoryFolder, picture: u32) -> bool
    requires { picture < four_digit_numbers }
{
    let plain = picture_of(alloc, folder, "p", picture);
    plain.is_some()
        && picture_of(alloc, folder, "f", picture) == plain
        && picture_of(alloc, folder, "r", picture) == plain
}

// Each of them is.
fn are_plain(alloc: Global, folder: &MemoryFolder) -> bool {
    for picture in 0..60 {
        if !is_plain(alloc, folder, picture) {
            return false;
        }
    }
    true
}

// The runs over an empty scene print this, and the pictures are the plain ones.
fn walks_far(rt: &(impl Threads + Wait + Sync), alloc: Global, scene: &mut Scene) -> bool {
    adds(&mut scene.folder, &[("a.path", All(LONG_PATH))])
        && plays_all(rt, alloc, scene)
        && scene.printed(PRINTED, b"")
        && are_plain(alloc, &scene.folder)
}

// The walk again, whose picture 30 cannot be created: the call of `create` of number 31, after those of its journal and of 30 pictures.
const REFUSED: Fail = Fail::Create(31);

// The place of its log in what the runs print: the lines of the pictures 0 to 29.
const LOG: (usize, usize) = (59, 1730);

// What its words are in the runs.
const WALK: usize = 2;

// It has put the lines of the pictures that stand.
fn has_told(scene: &Scene) -> bool {
    let (start, end) = LOG;
    start <= end && end <= PRINTED.len() && scene.printed(&PRINTED[start..end], FAULT)
}

// A picture is the plain one of another scene where it is due, and else is not there.
fn is_as_due(
    alloc: Global,
    scene: &Scene,
    prefix: &str,
    plain: &Scene,
    picture: u32,
    due: bool,
) -> bool
    requires { picture < four_digit_numbers }
{
    let held = picture_of(alloc, &scene.folder, prefix, picture);
    if due {
        held.is_some() && held == picture_of(alloc, &plain.folder, "p", picture)
    } else {
        held.is_none()
    }
}

// The pictures 0 to 29 stand, and its journal is replayed to these and to picture 30.
fn stands_up_to(alloc: Global, scene: &Scene, plain: &Scene) -> bool {
    for picture in 0..60 {
        if !is_as_due(alloc, scene, "f", plain, picture, picture < 30) {
            return false;
        }
        if !is_as_due(alloc, scene, "r", plain, picture, picture < 31) {
            return false;
        }
    }
    true
}

// The walk in a scene of its own, with the store of another.
fn stops_in(
    rt: &(impl Threads + Wait + Sync),
    alloc: Global,
    plain: &Scene,
    scene: &mut Scene,
) -> bool {
    let store = plain.folder.bytes_of("s.vts").unwrap_or(b"");
    scene.folder.add("s.vts", store).is_ok()
        && scene.folder.add("a.path", LONG_PATH).is_ok()
        && play(rt, alloc, RUNS[WALK], scene) == 3
        && has_told(scene)
        && play(rt, alloc, RUNS[WALK + 2], scene) == 0
        && stands_up_to(alloc, scene, plain)
}

// It ends where the picture is not created.
fn stops(rt: &(impl Threads + Wait + Sync), alloc: Global, plain: &Scene) -> bool {
    match Scene::failing(alloc, Some(REFUSED), None) {
        Ok(mut scene) => stops_in(rt, alloc, plain, &mut scene),
        Err(_) => false,
    }
}

#[test]
fn a_settled_walk_over_many_pages_draws_the_plain_pictures_up_to_a_creation_that_fails(
    rt: HostRuntime,
) {
    let alloc = rt.alloc();
    let mut scene = Scene::new(alloc);
    assert!(rt; walks_far(&rt, alloc, &mut scene));
    assert!(rt; stops(&rt, alloc, &scene));
}
