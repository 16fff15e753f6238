//! The edges of lines, fields and numbers, by hand.

use crate::fixtures::no_row_is_wrong;
use vt_text::TextError;
use vt_text::lines::{field, fields_join, next_line};
use vt_text::numbers::{decimal, put_number, spelling_is_unique, written_is_read};

// The answer is that a field is no number.
const NOT_DECIMAL: Result<i64, TextError> = Err(TextError::NotDecimal);

// The answer is that a number is out of its bounds.
const PAST: Result<i64, TextError> = Err(TextError::OutOfRange);

// The first of these texts of which the line that begins at a place ends elsewhere.
fn other_end(rows: &[(&[u8], usize, Option<usize>)]) -> Option<usize> {
    for i in 0..rows.len() {
        let (text, at, want) = rows[i];
        if at > text.len() || next_line(text, at) != want {
            return Some(i);
        }
    }
    None
}

#[test]
fn lines_end_at_line_feeds(rt: HostRuntime) {
    const TEXT: &[u8] = b"ab\n\nc";
    const ROWS: [(&[u8], usize, Option<usize>); 6] = [
        (TEXT, 0, Some(2)),
        (TEXT, 2, Some(2)),
        (TEXT, 3, Some(3)),
        (TEXT, 4, None),
        (TEXT, 5, None),
        (b"", 0, None),
    ];
    no_row_is_wrong(&rt, other_end(&ROWS));
}

// Whether a line has these fields, and no more.
fn has_fields(line: &[u8], fields: &[&[u8]]) -> bool {
    for i in 0..fields.len() {
        if field(line, i) != Some(fields[i]) {
            return false;
        }
    }
    field(line, fields.len()).is_none() && field(line, usize::MAX).is_none()
}

#[test]
fn fields_stand_between_single_blanks(rt: HostRuntime) {
    const LINE: &[u8] = b" at  5 ";
    assert!(rt; has_fields(b"", &[b""]));
    assert!(rt; has_fields(LINE, &[b"", b"at", b"", b"5", b""]));
    fields_join(LINE);
}

// The first row of which the field is read otherwise between its bounds.
fn misread(rows: &[(&[u8], i64, i64, Result<i64, TextError>)]) -> Option<usize> {
    for i in 0..rows.len() {
        let (field, least, most, want) = rows[i];
        if decimal(field, least, most) != want {
            return Some(i);
        }
    }
    None
}

#[test]
fn numbers_have_one_spelling(rt: HostRuntime) {
    const ROWS: [(&[u8], i64, i64, Result<i64, TextError>); 15] = [
        (b"0", i64::MIN, i64::MAX, Ok(0)),
        (b"-1", i64::MIN, i64::MAX, Ok(-1)),
        (b"10", i64::MIN, i64::MAX, Ok(10)),
        (b"", i64::MIN, i64::MAX, NOT_DECIMAL),
        (b"-", i64::MIN, i64::MAX, NOT_DECIMAL),
        (b"-0", i64::MIN, i64::MAX, NOT_DECIMAL),
        (b"00", i64::MIN, i64::MAX, NOT_DECIMAL),
        (b"07", i64::MIN, i64::MAX, NOT_DECIMAL),
        (b"-07", i64::MIN, i64::MAX, NOT_DECIMAL),
        (b"+1", i64::MIN, i64::MAX, NOT_DECIMAL),
        (b"--1", i64::MIN, i64::MAX, NOT_DECIMAL),
        (b" 1", i64::MIN, i64::MAX, NOT_DECIMAL),
        (b"1a", i64::MIN, i64::MAX, NOT_DECIMAL),
        (b"1/", i64::MIN, i64::MAX, NOT_DECIMAL),
        (b"1:", i64::MIN, i64::MAX, NOT_DECIMAL),
    ];
    no_row_is_wrong(&rt, misread(&ROWS));
    spelling_is_unique();
}

#[test]
fn long_numbers_never_wrap(rt: HostRuntime) {
    const ROWS: [(&[u8], i64, i64, Result<i64, TextError>); 10] = [
        (b"9223372036854775807", i64::MIN, i64::MAX, Ok(i64::MAX)),
        (b"9223372036854775808", i64::MIN, i64::MAX, PAST),
        (b"-9223372036854775808", i64::MIN, i64::MAX, Ok(i64::MIN)),
        (b"-9223372036854775809", i64::MIN, i64::MAX, PAST),
        (
            b"1000000000000000000",
            i64::MIN,
            i64::MAX,
            Ok(1_000_000_000_000_000_000),
        ),
        (b"10000000000000000000", i64::MIN, i64::MAX, PAST),
        (b"18446744073709551616", i64::MIN, i64::MAX, PAST),
        (b"18446744073709551617", i64::MIN, i64::MAX, PAST),
        (b"-100000000000000000000000000", i64::MIN, i64::MAX, PAST),
        (
            b"100000000000000000000000000x",
            i64::MIN,
            i64::MAX,
            NOT_DECIMAL,
        ),
    ];
    no_row_is_wrong(&rt, misread(&ROWS));
}

#[test]
fn bounds_are_included(rt: HostRuntime) {
    const ROWS: [(&[u8], i64, i64, Result<i64, TextError>); 7] = [
        (b"1", 1, 2048, Ok(1)),
        (b"0", 1, 2048, PAST),
        (b"2048", 1, 2048, Ok(2048)),
        (b"2049", 1, 2048, PAST),
        (b"-16384", -16384, 16384, Ok(-16384)),
        (b"-16385", -16384, 16384, PAST),
        (b"5", 6, 4, PAST),
    ];
    no_row_is_wrong(&rt, misread(&ROWS));
}

// Writes a number into a line, and tells whether the place behind it and the line are these.
fn is_put(line: &mut [u8], at: usize, number: u64, end: usize, want: &[u8]) -> bool {
    20 <= line.len()
        && at <= line.len() - 20
        && put_number(line, at, number) == end
        && &*line == want
}

// Writes a number into a line, and tells whether this is read of it up to a bound.
fn is_read_back(line: &mut [u8], number: u64, most: i64, want: Result<i64, TextError>) -> bool {
    21 <= line.len() && written_is_read(line, 1, number, most) == want
}

#[test]
fn numbers_are_written_in_place(rt: HostRuntime) {
    let mut line = *b"........................";
    assert!(rt;
        is_put(&mut line, 2, 320, 5, b"..320...................")
            && is_put(&mut line, 0, 0, 1, b"0.320...................")
            && is_put(&mut line, 4, u64::MAX, 24, b"0.3218446744073709551615")
            && is_read_back(&mut line, 7, 9, Ok(7))
            && is_read_back(&mut line, 17, 9, PAST)
    );
}
