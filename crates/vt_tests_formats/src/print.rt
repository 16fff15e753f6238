//! Printed texts by hand.

use crate::fixtures::sink_failing_at;
use std::alloc::Global;
use vt_outside::{Fails, MemorySink};
use vt_text::{Line, Place, print_bad_input, print_pieces, print_place, put_pieces};

// Adds words and a number to a line, where there is room for them.
fn gains(line: &mut Line, words: &[u8], number: u64) -> bool {
    if line.bytes().len() >= 100 || words.len() >= 50 {
        return false;
    }
    line.words(words);
    line.number(number);
    true
}

// Adds the last words to a line, and tells whether it then holds this.
fn ends(line: &mut Line, words: &[u8], want: &[u8]) -> bool {
    if line.bytes().len() >= 100 || words.len() >= 50 {
        return false;
    }
    line.words(words);
    line.bytes() == want
}

#[test]
fn a_line_holds_words_and_numbers(rt: HostRuntime) {
    let mut line = Line::new();
    assert!(rt;
        line.bytes().is_empty()
            && gains(&mut line, b"store ", 512)
            && gains(&mut line, b" levels ", 0)
            && ends(&mut line, b"\n", b"store 512 levels 0\n")
    );
    let mut full = Line::new();
    assert!(rt;
        gains(&mut full, b"", u64::MAX) && full.bytes() == b"18446744073709551615".as_slice()
    );
}

// Whether the pieces are put.
fn puts(sink: &mut MemorySink, pieces: &[&[u8]]) -> bool {
    put_pieces(sink, pieces).is_ok()
}

fn prints_bad_input(sink: &mut MemorySink, name: &str, place: &Place<'_>) {
    print_bad_input(sink, name, place);
}

fn prints_place(sink: &mut MemorySink, place: &Place<'_>) {
    print_place(sink, place);
}

fn prints(sink: &mut MemorySink, line: &[u8]) {
    print_pieces(sink, &[line]);
}

// Whether three bad inputs are told by their names and places.
fn are_known_to(alloc: Global) -> bool {
    let mut sink = MemorySink::new(alloc, Fails::new(alloc));
    prints_bad_input(&mut sink, "a.ppm", &Place::words(b"bad size"));
    prints_bad_input(&mut sink, "", &Place::number(b"bad line ", 7));
    let lengths = Place::two_numbers(b"length ", 16, b", wanted ", 700);
    prints_bad_input(&mut sink, "s: 1", &lengths);
    let expected =
        b"vtex: bad input: a.ppm: bad size\nvtex: bad input: : bad line 7\nvtex: bad input: s: 1: length 16, wanted 700\n";
    sink.bytes() == expected.as_slice()
}

#[test]
fn a_bad_input_is_told_by_its_name_and_place(rt: HostRuntime) {
    assert!(rt; are_known_to(rt.alloc()));
}

// Whether two places and a line are told without a name.
fn are_told_without_a_name(alloc: Global) -> bool {
    let mut sink = MemorySink::new(alloc, Fails::new(alloc));
    let frames = Place::two_numbers(b"", 3, b" frames, pinned pages need ", 5);
    prints_place(&mut sink, &frames);
    let wants = Place::three_numbers(b"picture ", 0, b" wants ", 41, b" pages, room for ", 40);
    prints_place(&mut sink, &wants);
    prints(&mut sink, b"vtex: out of memory\n");
    let expected =
        b"vtex: 3 frames, pinned pages need 5\nvtex: picture 0 wants 41 pages, room for 40\nvtex: out of memory\n";
    sink.bytes() == expected.as_slice()
}

#[test]
fn a_place_is_told_without_a_name(rt: HostRuntime) {
    assert!(rt; are_told_without_a_name(rt.alloc()));
}

// Whether a line of which the second put fails ends there.
fn ends_at_a_refused_put(alloc: Global) -> bool {
    let Ok(mut sink) = sink_failing_at(alloc, 1) else {
        return false;
    };
    prints_bad_input(&mut sink, "abcd", &Place::words(b"bad size"));
    sink.bytes() == b"vtex: bad input: ab".as_slice()
}

#[test]
fn the_first_refused_put_ends_a_line(rt: HostRuntime) {
    assert!(rt; ends_at_a_refused_put(rt.alloc()));
}

// Whether pieces of which one is empty are two puts, so that the third put is that of the next piece.
fn skips_an_empty_piece(alloc: Global) -> bool {
    match sink_failing_at(alloc, 2) {
        Ok(mut sink) => {
            puts(&mut sink, &[b"a", b"", b"b"])
                && !puts(&mut sink, &[b"cd"])
                && sink.bytes() == b"abc".as_slice()
        }
        Err(_) => false,
    }
}

#[test]
fn a_piece_of_no_bytes_is_no_put(rt: HostRuntime) {
    assert!(rt; skips_an_empty_piece(rt.alloc()));
}
