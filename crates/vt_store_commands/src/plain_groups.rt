//! Plain pictures are drawn several at a time, and written while the next ones are drawn.

ghost use Rattle.std.specs.Prelude.{◌≡◌, false, ◌⊎◌, ◌*◌, ◌-◌, ◌<◌, ◌≤◌, [], ◌∷◌, length, vec_len};
ghost use Rattle.std.specs.Thread.{IsSync};
ghost use Rattle.vt_outside.specs.Effects.{folder_effect};
ghost use Rattle.vt_outside.specs.Expectations.{Writes};
ghost use Rattle.vt_pictures.specs.Pictures.{expected_pictures};
ghost use Rattle.vt_pictures.specs.Names.{four_digit_numbers, picture_name};
ghost use Rattle.vt_store_commands.specs.PlainFiles.{ArePlainHeaders, HaveRoomFor, HoldsFiles, WritesOn, picture_file_of, file_size};

use crate::plain_files::{PlainPictures, draw_front, file_size};
use std::alloc::Global;
use std::mem;
use std::thread::{Threads, join_mut};
use vt_command_words::Filtering;
use vt_outside::{Folder, OutsideError, write_file};
use vt_pictures::picture_name;
use vt_threads::{BLENDING_TIME, DRAWING_TIME, processors, threads_for};

// How many pixels a thread draws at least before the pictures are written: half a millisecond of work.
const THREAD_PIXELS: u64 = 100_000;

// How many pixels the pictures have at most that are drawn together. They and those that are written meanwhile are in memory.
const GROUP_PIXELS: u64 = 1_048_576;

// How many nanoseconds it takes to draw a pixel by a filter, about.
fn pixel_time(filter: Filtering) -> u64
    ensures { result ≤ 1024 }
{
    match filter {
        Filtering::Nearest => DRAWING_TIME,
        Filtering::Bilinear => BLENDING_TIME,
    }
}

// How many pictures are drawn together, where one of the threads writes meanwhile: one where there is one thread or a picture is large.
fn group_size(threads: usize, pixels: u32, pictures: u32) -> u32
    requires { 1 ≤ pixels }
    ensures some { 1 ≤ result }
    ensures few { result ≤ 1024 }
{
    let pixels = u64::from(pixels);
    let most = GROUP_PIXELS / pixels;
    if threads < 2 || most < 2 || pictures < 2 {
        return 1;
    }
    let each = THREAD_PIXELS / pixels + 1;
    let wanted = (threads - 1).min(64) as u64 * each;
    let group = wanted.min(most).min(u64::from(pictures)).min(1024) as u32;
    if group == 0 { 1 } else { group }
}

// Writes the file of a picture under its name.
fn write_named<D: Folder>(
    alloc: Global,
    prefix: &str,
    picture: u32,
    bytes: &[u8],
    folder: &mut D,
) -> Result<(), OutsideError>
    requires { picture < four_digit_numbers }
    ensures { Writes ((record { name = picture_name prefix.now picture; bytes = bytes.now }) ∷ [])
        (folder_effect D.Folder folder.old folder.new) result }
{
    let name = picture_name(alloc, prefix, picture)?;
    write_file(folder, name.as_str(), bytes)
}

// Writes the files with which a room begins, of the pictures from one on to another, in their order.
fn write_files<D: Folder>(
    alloc: Global,
    pictures: &PlainPictures<'_>,
    prefix: &str,
    first: u32,
    end: u32,
    room: &[u8],
    folder: &mut D,
) -> Result<(), OutsideError>
    requires { HoldsFiles pictures.now first end room.now }
    ensures { WritesOn prefix.now (picture_file_of pictures.now) first end (length pictures.now.path.now.cameras)
        (folder_effect D.Folder folder.old folder.new) result }
{
    let _ = pictures.path.pictures();
    let size = file_size(pictures);
    for picture in first..end {
        let at = size * (picture - first) as usize;
        write_named(alloc, prefix, picture, &room[at..at + size], folder)?;
    }
    Ok(())
}

// Writes the files with which a room begins, and then makes the next ones there.
fn write_then_draw<Rt: Threads + Sync, D: Folder>(
    rt: &Rt,
    threads: usize,
    alloc: Global,
    pictures: &PlainPictures<'_>,
    prefix: &str,
    first: u32,
    middle: u32,
    end: u32,
    room: &mut [u8],
    folder: &mut D,
) -> Result<(), OutsideError>
    requires holds { HoldsFiles pictures.now first middle room.old }
    requires next { HaveRoomFor pictures.now middle end (length room.old) }
    ensures drawn { HoldsFiles pictures.now middle end room.new }
    ensures written { WritesOn prefix.now (picture_file_of pictures.now) first middle (length pictures.now.path.now.cameras)
        (folder_effect D.Folder folder.old folder.new) result }
{
    let written = write_files(alloc, pictures, prefix, first, middle, room, folder);
    draw_front(rt, threads, pictures, middle, end, room);
    written
}

// Writes the files with which one room begins, while the next ones are made in another. The folder stays in this thread; where no other can be
// made, the files are written first.
fn write_and_draw<Rt: Threads + Sync, D: Folder>(
    rt: &Rt,
    threads: usize,
    alloc: Global,
    pictures: &PlainPictures<'_>,
    prefix: &str,
    first: u32,
    middle: u32,
    end: u32,
    drawn: &[u8],
    room: &mut [u8],
    folder: &mut D,
) -> Result<(), OutsideError>
    requires holds { HoldsFiles pictures.now first middle drawn.now }
    requires next { HaveRoomFor pictures.now middle end (length room.old) }
    ensures drawn { HoldsFiles pictures.now middle end room.new }
    ensures written { WritesOn prefix.now (picture_file_of pictures.now) first middle (length pictures.now.path.now.cameras)
        (folder_effect D.Folder folder.old folder.new) result }
{
    let (_, written) = join_mut(
        rt,
        &mut || -> ()
            requires { IsSync Rt.row × HaveRoomFor pictures.now middle end (length room.now) }
            ensures { HoldsFiles pictures.entry.now middle end room.exit.now }
        { draw_front(rt, threads, pictures, middle, end, room) },
        &mut || -> Result<(), OutsideError>
            requires { HoldsFiles pictures.now first middle drawn.now }
            ensures { WritesOn prefix.entry.now (picture_file_of pictures.entry.now) first middle
                (length pictures.entry.now.path.now.cameras) (folder_effect D.Folder folder.entry.now folder.exit.now) result }
        { write_files(alloc, pictures, prefix, first, middle, drawn, folder) },
    );
    written
}

// Whether there is no room for a second group, or no further picture.
fn is_in_turn(room: usize, middle: u32, end: u32) -> bool
    ensures { result ≡ false → 1 ≤ room }
{
    room == 0 || middle == end
}

// Writes the files with which `front` begins, and makes there the next ones: meanwhile, where `back` has room, or else after it.
fn write_next<Rt: Threads + Sync, D: Folder>(
    rt: &Rt,
    threads: usize,
    alloc: Global,
    pictures: &PlainPictures<'_>,
    prefix: &str,
    first: u32,
    middle: u32,
    end: u32,
    front: &mut Vec<u8>,
    back: &mut Vec<u8>,
    folder: &mut D,
) -> Result<(), OutsideError>
    requires threads { 1 ≤ threads }
    requires holds { HoldsFiles pictures.now first middle front.old.items }
    requires next { HaveRoomFor pictures.now middle end (vec_len front.old) }
    requires back { (vec_len back.old ≡ 0) ⊎ (vec_len back.old ≡ vec_len front.old) }
    ensures drawn { HoldsFiles pictures.now middle end front.new.items }
    ensures written { WritesOn prefix.now (picture_file_of pictures.now) first middle (length pictures.now.path.now.cameras)
        (folder_effect D.Folder folder.old folder.new) result }
    ensures front { vec_len front.new ≡ vec_len front.old }
    ensures back { vec_len back.new ≡ vec_len back.old }
{
    if is_in_turn(back.len(), middle, end) {
        return write_then_draw(
            rt,
            threads,
            alloc,
            pictures,
            prefix,
            first,
            middle,
            end,
            front.as_mut_slice(),
            folder,
        );
    }
    mem::swap(front, back);
    write_and_draw(
        rt,
        threads - 1,
        alloc,
        pictures,
        prefix,
        first,
        middle,
        end,
        back.as_slice(),
        front.as_mut_slice(),
        folder,
    )
}

// Where a group ends that begins with this picture.
fn group_end(first: u32, group: u32, pictures: u32) -> u32
    requires some { 1 ≤ group }
    requires inside { first ≤ pictures }
    ensures order { first ≤ result }
    ensures inside { result ≤ pictures }
    ensures few { result - first ≤ group }
    ensures some { first < pictures → first < result }
{
    if pictures - first < group {
        pictures
    } else {
        first + group
    }
}

// Writes all pictures in the order of their numbers, so many at a time: a group that was made in `front`, and meanwhile the next one is made in
// `back`, where that has room. A round behind the last group does nothing.
fn write_groups<Rt: Threads + Sync, D: Folder>(
    rt: &Rt,
    threads: usize,
    alloc: Global,
    pictures: &PlainPictures<'_>,
    prefix: &str,
    group: u32,
    front: &mut Vec<u8>,
    back: &mut Vec<u8>,
    folder: &mut D,
) -> Result<(), OutsideError>
    requires has { ArePlainHeaders pictures.now }
    requires some { 1 ≤ group }
    requires threads { 1 ≤ threads }
    requires front { file_size pictures.now * group ≤ vec_len front.old }
    requires back { (vec_len back.old ≡ 0) ⊎ (vec_len back.old ≡ vec_len front.old) }
    ensures { Writes (expected_pictures prefix.now (picture_file_of pictures.now) (length pictures.now.path.now.cameras))
        (folder_effect D.Folder folder.old folder.new) result }
{
    let all = pictures.path.pictures();
    let mut first = 0;
    let mut middle = group_end(0, group, all);
    draw_front(rt, threads, pictures, 0, middle, front.as_mut_slice());
    for round in 0..all {
        let end = group_end(middle, group, all);
        write_next(
            rt, threads, alloc, pictures, prefix, first, middle, end, front, back, folder,
        )?;
        first = middle;
        middle = end;
    }
    Ok(())
}

/// Writes the plain pictures of a path in the order of their numbers, each under its name. Where they are small and several processors are
/// there, some are drawn at once, and written while the next ones are drawn: then two groups of some pictures are in memory, each of at most
/// 1,048,576 pixels, and otherwise one picture. `Failed` comes only where the folder's count of faults rose. After a refusal a first part of
/// the pictures is there.
pub(crate) fn write_pictures<Rt: Threads + Sync, D: Folder>(
    rt: &Rt,
    alloc: Global,
    pictures: &PlainPictures<'_>,
    prefix: &str,
    folder: &mut D,
) -> Result<(), OutsideError>
    requires { ArePlainHeaders pictures.now }
    ensures { Writes (expected_pictures prefix.now (picture_file_of pictures.now) (length pictures.now.path.now.cameras))
        (folder_effect D.Folder folder.old folder.new) result }
{
    let path = pictures.path;
    let pixels = path.width() * path.height();
    let time = pixel_time(pictures.filter) * u64::from(pixels);
    let threads = threads_for(processors(rt), time * u64::from(path.pictures()));
    let group = group_size(threads, pixels, path.pictures());
    let size = file_size(pictures) * group as usize;
    let mut front = vec![in alloc; 0u8; size]?;
    let mut back = Vec::new(alloc);
    if 1 < group && group < path.pictures() {
        back = vec![in alloc; 0u8; size]?;
    }
    write_groups(
        rt, threads, alloc, pictures, prefix, group, &mut front, &mut back, folder,
    )
}
