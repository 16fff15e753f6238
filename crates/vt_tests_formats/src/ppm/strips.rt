//! Textures that are read by rows.

use super::looks::{Look, finds, misrefused, mistold, reads, refuses, sees};
use super::readers::Reader;
use crate::fixtures::{around, no_row_is_wrong};
use std::alloc::Global;
use std::thread::Threads;
use vt_outside::Fail;
use vt_ppm::PpmError;

// The first of these textures of two rows that has another depth or other rows; the second row is read first.
fn misscaled<Rt: Threads + Sync>(
    rt: &Rt,
    alloc: Global,
    rows: &[(&[u8], u32, &[u8], &[u8])],
) -> Option<usize> {
    for i in 0..rows.len() {
        let (bytes, depth, first, second) = rows[i];
        let look = Look::Strips(depth, (1, 1, Some(second)), (0, 1, Some(first)));
        if !sees(rt, alloc, bytes, look) {
            return Some(i);
        }
    }
    None
}

#[test]
fn rows_of_either_depth_are_scaled(rt: HostRuntime) {
    const TEXTURES: [(&[u8], u32, &[u8], &[u8]); 4] = [
        (
            b"P6 1 2 100\n\x00\x32\x64\x64\x32\x00",
            1,
            b"\x00\x80\xff",
            b"\xff\x80\x00",
        ),
        (b"P6 1 2 255\nabcdef and more", 1, b"abc", b"def"),
        (
            b"P6 1 2 256\n\x01\x00\x00\x80\x00\x01\x00\x00\x01\x00\x00\x80",
            2,
            b"\xff\xff\x80\x00\x01\x00",
            b"\x00\x00\xff\xff\x80\x00",
        ),
        (b"P6 1 2 65535\nabcdefghijkl", 2, b"abcdef", b"ghijkl"),
    ];
    no_row_is_wrong(&rt, misscaled(&rt, rt.alloc(), &TEXTURES));
}

// Two rows and then all three are read at once.
#[test]
fn several_rows_are_one_read(rt: HostRuntime) {
    const LOOK: Look = Look::Strips(1, (1, 2, Some(b"defghi")), (0, 3, Some(b"abcdefghi")));
    const PLACES: [(u64, u64); 3] = [(0, 29), (14, 6), (11, 9)];
    assert!(rt;
        reads(
            &rt,
            rt.alloc(),
            b"P6 1 3 255\nabcdefghi and more",
            LOOK,
            &PLACES
        )
    );
}

#[test]
fn a_texture_may_be_larger_than_an_image(rt: HostRuntime) {
    const BAD_SIZE: Option<PpmError> = Some(PpmError::BadSize);
    const NO_ROW: Option<PpmError> = Some(PpmError::Truncated {
        want: 24576,
        have: 0,
    });
    const HEADERS: [(&[u8], Reader, Option<PpmError>); 10] = [
        (b"P6 8192 1 255\n", Reader::Image, NO_ROW),
        (b"P6 8192 1 255\n", Reader::Rows, NO_ROW),
        (b"P6 8193 1 255\n", Reader::Image, BAD_SIZE),
        (
            b"P6 8193 1 255\n",
            Reader::Rows,
            Some(PpmError::Truncated {
                want: 24579,
                have: 0,
            }),
        ),
        (b"P6 1 8193 256\n", Reader::Image, BAD_SIZE),
        (
            b"P6 1 8193 256\n",
            Reader::Rows,
            Some(PpmError::Truncated {
                want: 49158,
                have: 0,
            }),
        ),
        (b"P6 16384 16384 256\n", Reader::Image, BAD_SIZE),
        (
            b"P6 16384 16384 256\n",
            Reader::Rows,
            Some(PpmError::Truncated {
                want: 1610612736,
                have: 0,
            }),
        ),
        (b"P6 16385 1 255\n", Reader::Image, BAD_SIZE),
        (b"P6 16385 1 255\n", Reader::Rows, BAD_SIZE),
    ];
    no_row_is_wrong(&rt, misrefused(&rt, rt.alloc(), &HEADERS));
}

#[test]
fn a_header_may_have_larger_sides_than_an_image(rt: HostRuntime) {
    const BAD_SIZE: Option<PpmError> = Some(PpmError::BadSize);
    const HEADER: Look = Look::Header(16384, 15);
    assert!(rt;
        sees(&rt, rt.alloc(), b"P6 16384 1 255\n", HEADER)
            && refuses(
                &rt,
                rt.alloc(),
                b"P6 16385 1 255\n",
                Reader::Header,
                BAD_SIZE
            )
    );
}

#[test]
fn the_first_sample_above_the_maximum_is_named(rt: HostRuntime) {
    const TEXTURES: [(&[u8], Reader, Option<PpmError>); 5] = [
        (
            b"P6 1 2 100\n\x65\x00\x00\x00\x00\x65",
            Reader::Checked,
            Some(PpmError::SampleOver { at: 11 }),
        ),
        (
            b"P6 1 2 100\n\x00\x00\x00\x00\x00\x65",
            Reader::Checked,
            Some(PpmError::SampleOver { at: 16 }),
        ),
        (
            b"P6 1 2 256\n\x00\x00\x00\x00\x00\x00\x00\x00\x00\x00\x01\x01",
            Reader::Checked,
            Some(PpmError::SampleOver { at: 21 }),
        ),
        (
            b"P6 1 2 100\n\x00\x00\x00\x00\x00\x64\x65",
            Reader::Checked,
            None,
        ),
        (
            b"P6 1 2 100\n\x65\x00",
            Reader::Checked,
            Some(PpmError::Truncated { want: 6, have: 2 }),
        ),
    ];
    no_row_is_wrong(&rt, misrefused(&rt, rt.alloc(), &TEXTURES));
}

#[test]
fn a_raster_is_looked_over_in_pieces(rt: HostRuntime) {
    // A texture of 16384 columns and 23 rows, of which the last sample is above the maximum.
    let bytes = around(rt.alloc(), b"P6 16384 23 1\n", 1, 1130495, b"\x02").expect(&rt, "memory");
    let look = Look::Refusal(Reader::Checked, Some(PpmError::SampleOver { at: 1130509 }));
    let places = [(0, 65536), (14, 1081344), (1081358, 49152)];
    assert!(rt; reads(&rt, rt.alloc(), &bytes, look, &places));
}

// The first of these textures that is refused, or asked for other starts and lengths.
fn misasked<Rt: Threads + Sync>(
    rt: &Rt,
    alloc: Global,
    rows: &[(&[u8], &[(u64, u64)])],
) -> Option<usize> {
    for i in 0..rows.len() {
        let (bytes, places) = rows[i];
        if !reads(
            rt,
            alloc,
            bytes,
            Look::Refusal(Reader::Checked, None),
            places,
        ) {
            return Some(i);
        }
    }
    None
}

#[test]
fn a_raster_is_read_only_where_a_sample_may_be_over(rt: HostRuntime) {
    const TEXTURES: [(&[u8], &[(u64, u64)]); 4] = [
        (b"P6 1 2 255\nabcdef", &[(0, 17)]),
        (b"P6 1 2 254\nabcdef", &[(0, 17), (11, 6)]),
        (b"P6 1 2 65535\nabcdefghijkl", &[(0, 25)]),
        (b"P6 1 2 65534\nabcdefghijkl", &[(0, 25), (13, 12)]),
    ];
    no_row_is_wrong(&rt, misasked(&rt, rt.alloc(), &TEXTURES));
}

// A texture of two rows.
const TWO_ROWS: &[u8] = b"P6 1 2 100\n\x00\x32\x64\x64\x32\x00";

#[test]
fn each_failing_read_is_told_and_a_row_is_read_after_it(rt: HostRuntime) {
    const FAILED: Option<PpmError> = Some(PpmError::Failed);
    const FIRST: Fail = Fail::Read {
        opening: 0,
        read: 0,
    };
    const SECOND: Fail = Fail::Read {
        opening: 0,
        read: 1,
    };
    const THIRD: Fail = Fail::Read {
        opening: 0,
        read: 2,
    };
    const ROWS: [(Fail, Reader, Option<PpmError>); 3] = [
        (Fail::Length { opening: 0 }, Reader::Rows, FAILED),
        (FIRST, Reader::Rows, FAILED),
        (SECOND, Reader::Checked, FAILED),
    ];
    const LOOK: Look = Look::Strips(1, (0, 1, None), (1, 1, Some(b"\xff\x80\x00")));
    no_row_is_wrong(&rt, mistold(&rt, rt.alloc(), TWO_ROWS, &ROWS));
    assert!(rt; finds(&rt, rt.alloc(), TWO_ROWS, &[THIRD], LOOK, None));
}
