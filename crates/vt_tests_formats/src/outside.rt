//! Files, folders and sinks, in memory and of the system.

use crate::fixtures::{folder_of, no_row_is_wrong, sink_failing_at};
use std::alloc::Global;
use std::{env, fs, io, process};
use vt_outside::*;

// A folder in which `a` holds these bytes, and of which these calls fail.
fn holding(alloc: Global, calls: &[Fail], bytes: &[u8]) -> Result<MemoryFolder, NoMemory> {
    folder_of(alloc, "a", bytes, calls)
}

fn opens(folder: &mut impl Folder, name: &str) -> bool {
    match folder.open(name) {
        Ok(file) => {
            folder.close(file);
            true
        }
        Err(_) => false,
    }
}

fn creates(folder: &mut impl Folder, name: &str) -> bool {
    folder.create(name).is_ok()
}

fn appends(folder: &mut impl Folder, name: &str, bytes: &[u8]) -> bool {
    folder.append(name, bytes).is_ok()
}

fn has_length(file: &mut impl File, len: u64) -> bool {
    file.length() == Ok(len)
}

fn gives(file: &mut impl File, at: u64, want: [u8; 2]) -> bool {
    let mut buf = [0; 2];
    file.reserve(1).is_ok() && file.read_at(at, &mut buf).is_ok() && buf == want
}

fn puts(sink: &mut impl Sink, bytes: &[u8]) -> bool {
    sink.put(bytes).is_ok()
}

// A list of three bytes.
fn list_of_three(alloc: Global) -> Result<Bytes, NoMemory> {
    let mut list = Bytes::from_slice(alloc, b"ab")?;
    list.reserve(2)?;
    list.push(7);
    Ok(list)
}

// Whether the list has this length, with 7 in its last place, and holds what is put there.
fn is_set(list: &mut Bytes) -> bool {
    if list.len() != 3 || *list.at(2) != 7 {
        return false;
    }
    list.set(2, 8);
    let is_set = list.slice() == b"ab\x08".as_slice();
    list.slice_mut()[2] = 9;
    is_set
}

// Whether the list gives back what it holds from its end on.
fn is_emptied(list: &mut Bytes) -> bool {
    list.pop() == Some(9)
        && list.pop() == Some(b'b')
        && list.pop() == Some(b'a')
        && list.pop() == None
}

// Whether the list can be made, and gives back what it was given.
fn gives_back(alloc: Global) -> bool {
    match list_of_three(alloc) {
        Ok(mut list) => is_set(&mut list) && is_emptied(&mut list),
        Err(_) => false,
    }
}

#[test]
fn a_list_gives_back_what_it_was_given(rt: HostRuntime) {
    assert!(rt; gives_back(rt.alloc()));
}

// A value that may not be dropped.
struct Kept;

#[test]
fn an_empty_list_of_what_may_not_be_dropped_ends(rt: HostRuntime) {
    let mut list: Items<Kept> = Items::new(rt.alloc());
    let has_room = list.reserve(2).is_ok();
    list.destroy_empty();
    assert!(rt; has_room);
}

// What is asked of a folder in memory. The last three are of two openings of `a`, which holds `abcd`.
#[derive(Clone, Copy)]
enum Asked {
    Creates,
    Appends,
    Opens,
    Holds,
    HasNot,
    IsReadAndClosed,
    WasReadInTurn,
    FailsInTurn,
}

// `a`, opened twice.
fn opened_twice(folder: &mut MemoryFolder) -> Result<(MemoryFile, MemoryFile), OutsideError> {
    let first = folder.open("a")?;
    let second = folder.open("a")?;
    Ok((first, second))
}

// Whether two openings of `a` give `abcd`; the second is closed first.
fn are_read_and_closed(folder: &mut MemoryFolder) -> bool {
    let Ok((mut first, mut second)) = opened_twice(folder) else {
        return false;
    };
    let are_read = gives(&mut first, 1, *b"bc")
        && !gives(&mut first, 3, *b"d ")
        && gives(&mut second, 2, *b"cd");
    folder.close(second);
    folder.close(first);
    are_read
}

// Whether `a` was asked for these places, and nothing else was.
fn was_asked_in_turn(folder: &MemoryFolder) -> bool {
    const PLACES: [Place; 3] = [
        Place {
            at: 2,
            len: 2,
            failed: false,
        },
        Place {
            at: 1,
            len: 2,
            failed: false,
        },
        Place {
            at: 3,
            len: 2,
            failed: true,
        },
    ];
    folder.was_asked("a", &PLACES)
        && !folder.was_asked("a", &PLACES[..2])
        && folder.was_asked("b", &[])
        && folder.asked("a", 1) == Some(PLACES[1])
        && folder.asked("a", 3).is_none()
}

// Whether the length of the second opening and the second read of the first fail, and nothing else.
fn fail_at_their_list(folder: &mut MemoryFolder) -> bool {
    let Ok((mut first, mut second)) = opened_twice(folder) else {
        return false;
    };
    has_length(&mut first, 4)
        && !has_length(&mut second, 4)
        && gives(&mut first, 0, *b"ab")
        && !gives(&mut first, 0, *b"ab")
        && gives(&mut second, 0, *b"ab")
}

// Something asked of a folder for a name and bytes, and whether it is so.
type Step = (Asked, &'static str, &'static [u8], bool);

// Whether what is asked of a folder for a name and bytes is so.
fn is_so(folder: &mut MemoryFolder, asked: Asked, name: &str, bytes: &[u8]) -> bool {
    match asked {
        Asked::Creates => folder.create(name).is_ok(),
        Asked::Appends => folder.append(name, bytes).is_ok(),
        Asked::Opens => opens(folder, name),
        Asked::Holds => folder.holds(name, bytes),
        Asked::HasNot => folder.bytes_of(name).is_none(),
        Asked::IsReadAndClosed => are_read_and_closed(folder),
        Asked::WasReadInTurn => was_asked_in_turn(folder),
        Asked::FailsInTurn => fail_at_their_list(folder),
    }
}

// The first of these steps that is otherwise.
fn other_step(folder: &mut MemoryFolder, steps: &[Step]) -> Option<usize> {
    for i in 0..steps.len() {
        let (asked, name, bytes, want) = steps[i];
        if is_so(folder, asked, name, bytes) != want {
            return Some(i);
        }
    }
    None
}

// The first of these steps that is otherwise in a folder in which `a` holds these bytes, and of which these calls fail.
fn misstep(alloc: Global, calls: &[Fail], bytes: &[u8], steps: &[Step]) -> Option<usize> {
    match holding(alloc, calls, bytes) {
        Ok(mut folder) => other_step(&mut folder, steps),
        Err(_) => Some(0),
    }
}

#[test]
fn a_name_is_made_and_added_to(rt: HostRuntime) {
    const STEPS: [Step; 5] = [
        (Asked::Creates, "a", b"", true),
        (Asked::Holds, "a", b"", true),
        (Asked::Appends, "a", b"one ", true),
        (Asked::Appends, "a", b"two", true),
        (Asked::Holds, "a", b"one two", true),
    ];
    no_row_is_wrong(&rt, misstep(rt.alloc(), &[], b"old", &STEPS));
}

// It is refused until it is made, and the other one stays as it is.
#[test]
fn a_missing_name_is_refused(rt: HostRuntime) {
    const STEPS: [Step; 5] = [
        (Asked::Appends, "b", b"x", false),
        (Asked::Opens, "b", b"", false),
        (Asked::HasNot, "b", b"", true),
        (Asked::Creates, "b", b"", true),
        (Asked::Holds, "a", b"old", true),
    ];
    no_row_is_wrong(&rt, misstep(rt.alloc(), &[], b"old", &STEPS));
}

// Closed files leave their places in the order in which they are closed.
#[test]
fn closed_files_leave_their_places(rt: HostRuntime) {
    const STEPS: [Step; 2] = [
        (Asked::IsReadAndClosed, "a", b"", true),
        (Asked::WasReadInTurn, "a", b"", true),
    ];
    no_row_is_wrong(&rt, misstep(rt.alloc(), &[], b"abcd", &STEPS));
}

// The second opening, the first creation and the second addition fail; of the bytes of the refused addition three of seven stay.
#[test]
fn a_folder_fails_at_its_list(rt: HostRuntime) {
    const CALLS: [Fail; 3] = [Fail::Open(1), Fail::Create(0), Fail::Append(1)];
    const STEPS: [Step; 7] = [
        (Asked::Opens, "a", b"", true),
        (Asked::Opens, "a", b"", false),
        (Asked::Opens, "a", b"", true),
        (Asked::Creates, "a", b"", false),
        (Asked::Appends, "a", b"c", true),
        (Asked::Appends, "a", b"defghij", false),
        (Asked::Holds, "a", b"abcdef", true),
    ];
    no_row_is_wrong(&rt, misstep(rt.alloc(), &CALLS, b"ab", &STEPS));
}

#[test]
fn a_file_fails_at_its_list(rt: HostRuntime) {
    const CALLS: [Fail; 2] = [
        Fail::Length { opening: 1 },
        Fail::Read {
            opening: 0,
            read: 1,
        },
    ];
    const STEPS: [Step; 1] = [(Asked::FailsInTurn, "a", b"", true)];
    no_row_is_wrong(&rt, misstep(rt.alloc(), &CALLS, b"abcd", &STEPS));
}

// Whether a sink of which the second put fails keeps the others, and one of the three bytes of that one.
fn keeps_what_is_put(alloc: Global) -> bool {
    match sink_failing_at(alloc, 1) {
        Ok(mut sink) => {
            puts(&mut sink, b"ab")
                && !puts(&mut sink, b"cde")
                && puts(&mut sink, b"f")
                && sink.bytes() == b"abcf".as_slice()
        }
        Err(_) => false,
    }
}

#[test]
fn a_sink_keeps_what_is_put(rt: HostRuntime) {
    assert!(rt; keeps_what_is_put(rt.alloc()));
    OpenGate.at(Point::Published { version: 0 });
}

fn real_path(rt: &HostRuntime) -> io::Result<String> {
    let folder = env::temp_dir(rt)?;
    let folder = folder.as_path().display();
    let id = process::id(rt.process());
    Ok(format!(in rt.alloc(); "{folder}/vt_outside_{id}")?)
}

// Whether the two additions are read from a file, and no more.
fn is_read_back(folder: &mut impl Folder, path: &str) -> bool {
    let Ok(mut file) = folder.open(path) else {
        return false;
    };
    let read = has_length(&mut file, 7)
        && gives(&mut file, 4, *b"tw")
        && !gives(&mut file, 6, *b"o ");
    folder.close(file);
    read
}

// Whether a new file keeps what is added to it.
fn keeps(folder: &mut impl Folder, path: &str) -> bool {
    creates(folder, path)
        && appends(folder, path, b"one ")
        && appends(folder, path, b"two")
        && is_read_back(folder, path)
}

// Whether a file of the system keeps what is added to it, and is not opened once it is removed.
fn is_kept_and_removed(rt: &HostRuntime, path: &str) -> bool {
    let mut folder = RealFolder::new(rt);
    keeps(&mut folder, path)
        && folder.faults() == 1
        && fs::remove_file(rt, path).is_ok()
        && !opens(&mut folder, path)
        && folder.faults() == 2
}

#[test]
fn real_files_keep_what_is_added(rt: HostRuntime) {
    let path = real_path(&rt).expect(&rt, "a path");
    assert!(rt; is_kept_and_removed(&rt, path.as_str()));
}

// Whether a stream takes two bytes.
fn takes_what_is_put(alloc: Global) -> bool {
    let mut sink = RealSink::new(Vec::new(alloc));
    puts(&mut sink, b"ab") && sink.faults() == 0
}

#[test]
fn a_stream_takes_what_is_put(rt: HostRuntime) {
    assert!(rt; takes_what_is_put(rt.alloc()));
}
