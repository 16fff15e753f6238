//! The files of plain pictures, made one behind the other in one room.

ghost use Rattle.std.specs.Prelude.{◌≡◌, ◌+◌, ◌*◌, ◌<◌, ◌≤◌, ◌^◌, length};
ghost use Rattle.std.specs.Thread.{IsSync};
ghost use Rattle.vt_definitions.specs.Depths.{texel_length};
ghost use Rattle.vt_store_commands.specs.PlainFiles.{AreLevelsWanted, ArePlainHeaders, HaveRoomFor, HoldsFiles, IsRoomForFiles, picture_file_of, file_size, files_between, samples_with};

use std::thread::{Threads, join_mut};
use vt_camera::Path;
use vt_command_words::Filtering;
use vt_definitions::texel_length;
use vt_plain::{Levels, draw_levels_into, draw_plain_blend_into};
use vt_threads::share;

/// What the files of plain pictures are made of, and the header that each of them begins with.
#[derive(Clone, Copy)]
pub(crate) struct PlainPictures<'a> {
    pub(crate) levels: Levels<'a>,
    pub(crate) path: &'a Path,
    pub(crate) filter: Filtering,
    pub(crate) header: &'a [u8],
}

/// How many bytes each file has.
pub(crate) fn file_size(pictures: &PlainPictures<'_>) -> usize
    requires { ArePlainHeaders pictures.now }
    ensures value { result ≡ file_size pictures.now }
    ensures small { result < 2 ^ 31 }
{
    let path = pictures.path;
    pictures.header.len()
        + texel_length(pictures.levels.chain.depth())
            * (path.width() as usize * path.height() as usize)
}

// Draws a picture by a filter, in so many threads.
fn draw_samples<Rt: Threads + Sync>(
    rt: &Rt,
    threads: usize,
    filter: Filtering,
    levels: &Levels<'_>,
    path: &Path,
    picture: u32,
    out: &mut [u8],
)
    requires wanted { AreLevelsWanted levels.now path.now }
    requires picture { picture < length path.now.cameras }
    requires room { length out.old ≡ texel_length levels.now.chain.now.base.depth * (path.now.width * path.now.height) }
    ensures { out.new ≡ samples_with filter levels.now path.now picture }
{
    match filter {
        Filtering::Nearest => draw_levels_into(rt, threads, levels, path, picture, out),
        Filtering::Bilinear => draw_plain_blend_into(rt, threads, levels.chain, path, picture, out),
    }
}

// Makes the file of a picture: the header, and behind it the samples, in so many threads.
fn draw_file<Rt: Threads + Sync>(
    rt: &Rt,
    threads: usize,
    pictures: &PlainPictures<'_>,
    picture: u32,
    out: &mut [u8],
)
    requires has { ArePlainHeaders pictures.now }
    requires picture { picture < length pictures.now.path.now.cameras }
    requires room { length out.old ≡ file_size pictures.now }
    ensures { out.new ≡ picture_file_of pictures.now picture }
{
    let (header, samples) = out.split_at_mut(pictures.header.len());
    header.copy_from_slice(pictures.header);
    draw_samples(
        rt,
        threads,
        pictures.filter,
        &pictures.levels,
        pictures.path,
        picture,
        samples,
    );
}

// Makes the files of the pictures from one on to another, one after the other, each in so many threads.
fn draw_in_turn<Rt: Threads + Sync>(
    rt: &Rt,
    threads: usize,
    pictures: &PlainPictures<'_>,
    first: u32,
    end: u32,
    out: &mut [u8],
)
    requires { IsRoomForFiles pictures.now first end (length out.old) }
    ensures { out.new ≡ files_between (picture_file_of pictures.now) first end }
{
    let size = file_size(pictures);
    for picture in first..end {
        let at = size * (picture - first) as usize;
        draw_file(rt, threads, pictures, picture, &mut out[at..at + size]);
    }
}

// How many of so many files some of the threads make: some, and about as many as each of the others.
fn files_for(count: u32, threads: usize, few: usize) -> u32
    requires count { 1 ≤ count }
    requires threads { 1 ≤ threads }
    requires few { few ≤ threads }
    ensures { result ≤ count }
{
    let part = share(count as usize, threads, few) as u32;
    if part == 0 { 1 } else { part }
}

// Makes the files of the pictures from one on to another, in so many threads, each of which makes files of its own, or rows of its own
// where there are fewer files.
#[cycle(files)]
fn draw_files<Rt: Threads + Sync>(
    rt: &Rt,
    threads: usize,
    pictures: &PlainPictures<'_>,
    first: u32,
    end: u32,
    out: &mut [u8],
)
    requires { IsRoomForFiles pictures.now first end (length out.old) }
    ensures { out.new ≡ files_between (picture_file_of pictures.now) first end }
{
    if threads < 2 || end - first < 2 {
        draw_in_turn(rt, threads, pictures, first, end, out);
        return;
    }
    let few = threads / 2;
    let middle = first + files_for(end - first, threads, few);
    let size = file_size(pictures);
    let (front, back) = out.split_at_mut(size * (middle - first) as usize);
    draw_both(
        rt,
        few,
        threads - few,
        pictures,
        first,
        middle,
        end,
        front,
        back,
    );
}

// Makes the files before that of the middle picture, in `few` threads, and at once the others, in `many`. A function of its own, so that what
// the closures ask is what it is given.
#[cycle(files)]
fn draw_both<Rt: Threads + Sync>(
    rt: &Rt,
    few: usize,
    many: usize,
    pictures: &PlainPictures<'_>,
    first: u32,
    middle: u32,
    end: u32,
    front: &mut [u8],
    back: &mut [u8],
)
    requires some { (1 ≤ few) × (1 ≤ many) }
    requires front { IsRoomForFiles pictures.now first middle (length front.old) }
    requires back { IsRoomForFiles pictures.now middle end (length back.old) }
    ensures front { front.new ≡ files_between (picture_file_of pictures.now) first middle }
    ensures back { back.new ≡ files_between (picture_file_of pictures.now) middle end }
{
    let mut above = ||
        requires { IsSync Rt.row × IsRoomForFiles pictures.now first middle (length front.now) }
        ensures { front.exit.now ≡ files_between (picture_file_of pictures.entry.now) first middle }
    { draw_files(rt, few, pictures, first, middle, front) };
    let mut below = ||
        requires { IsSync Rt.row × IsRoomForFiles pictures.now middle end (length back.now) }
        ensures { back.exit.now ≡ files_between (picture_file_of pictures.entry.now) middle end }
    { draw_files(rt, many, pictures, middle, end, back) };
    join_mut(rt, &mut above, &mut below);
}

/// Makes the files of the pictures from one on to another in the front of a room, in so many threads. It takes no memory and refuses
/// nothing.
pub(crate) fn draw_front<Rt: Threads + Sync>(
    rt: &Rt,
    threads: usize,
    pictures: &PlainPictures<'_>,
    first: u32,
    end: u32,
    room: &mut [u8],
)
    requires { HaveRoomFor pictures.now first end (length room.old) }
    ensures { HoldsFiles pictures.now first end room.new }
{
    let size = file_size(pictures);
    let (front, _) = room.split_at_mut(size * (end - first) as usize);
    draw_files(rt, threads, pictures, first, end, front);
}
