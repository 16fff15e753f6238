//! Bytes that are taken for a store, each with what opening answers: worked out by hand. Each is asked for its header once, and for
//! nothing else.

use super::making::{Answer, STORE_G4, opened};
use crate::fixtures::{folder_of, holds, place};
use std::alloc::Global;
use vt_tiles::StoreError;

const BAD_MAGIC: Answer = Err(StoreError::BadMagic);

const BAD_GEOMETRY: Answer = Err(StoreError::BadGeometry);

const WRONG_LENGTH: Answer = Err(StoreError::WrongLength {
    want: 136,
    have: 76,
});

// The answer is that there are so many bytes, and not as many as there are to be.
fn wrong(want: u64, have: u64) -> Answer {
    Err(StoreError::WrongLength { want, have })
}

// Bytes are answered so, by one read of their header.
fn is_answered(alloc: Global, bytes: &[u8], want: Answer) -> bool {
    let Some(mut folder) = folder_of(alloc, &[], bytes) else {
        return false;
    };
    let header = place(0, bytes.len().min(16) as u64);
    opened(&mut folder, "a") == want && folder.was_asked("a", &[header])
}

// What so many bytes of the store of G4, fewer than all, are answered.
fn answer_to(have: u64) -> Answer {
    match have {
        0..4 => BAD_MAGIC,
        4..16 => wrong(16, have),
        _ => wrong(76, have),
    }
}

// Whether each prefix of the store of G4 is answered so.
fn cuts_are_answered(alloc: Global) -> bool {
    for have in 0..76 {
        if !is_answered(alloc, &STORE_G4[..have], answer_to(have as u64)) {
            return false;
        }
    }
    true
}

#[test]
fn a_store_that_is_cut_is_refused_by_what_is_left(rt: HostRuntime) {
    holds(&rt, cuts_are_answered(rt.alloc()));
}

// The store of G4 with the digit of another magic and with other numbers in its header.
fn with_header(digit: u8, width: u32, height: u32, tile: u32) -> [u8; 76] {
    let mut bytes = STORE_G4;
    bytes[3] = digit;
    bytes[4..8].copy_from_slice(&width.to_be_bytes());
    bytes[8..12].copy_from_slice(&height.to_be_bytes());
    bytes[12..16].copy_from_slice(&tile.to_be_bytes());
    bytes
}

// Whether the store of G4 is answered so with each of these digits of a magic, widths, heights and tile sides.
fn headers_are_answered(alloc: Global, rows: &[(u8, u32, u32, u32, Answer)]) -> bool {
    for (digit, width, height, tile, want) in rows {
        let bytes = with_header(*digit, *width, *height, *tile);
        if !is_answered(alloc, &bytes, *want) {
            return false;
        }
    }
    true
}

#[test]
fn each_foreign_header_of_a_store_is_accepted_or_refused(rt: HostRuntime) {
    const ROWS: [(u8, u32, u32, u32, Answer); 10] = [
        (b'1', 4, 4, 2, Ok((4, 4, 2, 1))),
        (b'1', 0, 4, 2, BAD_GEOMETRY),
        (b'1', 4294967295, 4, 2, BAD_GEOMETRY),
        (b'1', 16385, 4, 2, BAD_GEOMETRY),
        (b'1', 4, 4, 256, BAD_GEOMETRY),
        (b'1', 4, 4, 3, BAD_GEOMETRY),
        (b'1', 8192, 8192, 2, BAD_GEOMETRY),
        (b'2', 4, 4, 2, WRONG_LENGTH),
        (b'2', 4, 16385, 2, BAD_GEOMETRY),
        (b'3', 4, 4, 2, BAD_MAGIC),
    ];
    holds(&rt, headers_are_answered(rt.alloc(), &ROWS));
}

#[test]
fn a_store_with_a_byte_more_is_refused(rt: HostRuntime) {
    let mut longer = [0; 77];
    longer[..76].copy_from_slice(&STORE_G4);
    holds(&rt, is_answered(rt.alloc(), &longer, wrong(76, 77)));
}
