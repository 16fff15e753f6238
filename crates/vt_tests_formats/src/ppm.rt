//! Images and pictures in files in memory.

mod looks;
mod readers;
mod strips;

use crate::fixtures::no_row_is_wrong;
use looks::{Look, misseen, mistold, reads, sees};
use readers::Reader;
use std::alloc::Global;
use vt_outside::Fail;
use vt_ppm::{PpmError, encode, encode_wide, image_flaw};

#[test]
fn a_header_is_looked_for_in_one_place(rt: HostRuntime) {
    let header = Look::Header(3, 11);
    assert!(rt; reads(&rt, rt.alloc(), b"P6 3 2 255\n", header, &[(0, 11)]));
}

#[test]
fn an_image_is_read_from_two_places(rt: HostRuntime) {
    const BYTES: &[u8] = b"P6 2 1 255\nabcdef and more";
    const IMAGE: Look = Look::Image((2, 1, 1), &[0x616263, 0x646566]);
    assert!(rt;
        reads(&rt, rt.alloc(), BYTES, IMAGE, &[(0, 26), (11, 6)])
            && sees(&rt, rt.alloc(), BYTES, Look::Samples(b"abcdef"))
    );
}

#[test]
fn each_failing_call_is_told(rt: HostRuntime) {
    const FAILED: Option<PpmError> = Some(PpmError::Failed);
    const LENGTH: Fail = Fail::Length { opening: 0 };
    const FIRST: Fail = Fail::Read {
        opening: 0,
        read: 0,
    };
    const SECOND: Fail = Fail::Read {
        opening: 0,
        read: 1,
    };
    const THIRD: Fail = Fail::Read {
        opening: 0,
        read: 2,
    };
    const ROWS: [(Fail, Reader, Option<PpmError>); 8] = [
        (LENGTH, Reader::Image, FAILED),
        (LENGTH, Reader::Header, FAILED),
        (FIRST, Reader::Image, FAILED),
        (FIRST, Reader::Header, FAILED),
        (SECOND, Reader::Image, FAILED),
        (SECOND, Reader::Header, None),
        (THIRD, Reader::Image, None),
        (THIRD, Reader::Header, None),
    ];
    no_row_is_wrong(&rt, mistold(&rt, rt.alloc(), b"P6 1 1 255\nabc", &ROWS));
}

// Whether a picture of so many columns and rows, of one-byte samples, is these bytes.
fn is_encoded(alloc: Global, width: u32, height: u32, samples: &[u8], want: &[u8]) -> bool {
    if width > 9 || height > 9 || samples.len() != 3 * (width * height) as usize {
        return false;
    }
    match encode(alloc, width, height, samples) {
        Ok(bytes) => bytes.as_slice() == want,
        Err(_) => false,
    }
}

#[test]
fn a_picture_is_written(rt: HostRuntime) {
    let samples = [0x0d, 0x0d, 0x0d, 1, 1, 1];
    let want = b"P6\n2 1\n255\n\x0d\x0d\x0d\x01\x01\x01";
    assert!(rt; is_encoded(rt.alloc(), 2, 1, &samples, want));
}

// Whether a picture of so many columns and rows, of two-byte samples, is these bytes.
fn is_encoded_wide(alloc: Global, width: u32, height: u32, samples: &[u8], want: &[u8]) -> bool {
    if width > 9 || height > 9 || samples.len() != 6 * (width * height) as usize {
        return false;
    }
    match encode_wide(alloc, width, height, samples) {
        Ok(bytes) => bytes.as_slice() == want,
        Err(_) => false,
    }
}

#[test]
fn a_wide_picture_is_written(rt: HostRuntime) {
    let samples = b"\x00\x01\x80\x00\xff\xff";
    let want = b"P6\n1 1\n65535\n\x00\x01\x80\x00\xff\xff";
    assert!(rt; is_encoded_wide(rt.alloc(), 1, 1, samples, want));
}

#[test]
fn a_texel_of_either_depth_has_its_word(rt: HostRuntime) {
    const ROWS: [(&[u8], (u32, u32, u32), &[u64]); 2] = [
        (b"P6 1 1 255\n\x01\x80\xff", (1, 1, 1), &[98559]),
        (
            b"P6 1 1 65535\n\x00\x01\x80\x00\xff\xff",
            (1, 1, 2),
            &[6442516479],
        ),
    ];
    no_row_is_wrong(&rt, misseen(&rt, rt.alloc(), &ROWS));
}

#[test]
fn an_image_has_no_flaw_or_its_first(rt: HostRuntime) {
    let short = PpmError::Truncated { want: 3, have: 2 };
    assert!(rt; image_flaw(b"P6 1 1 255\nabc").is_none());
    assert!(rt; image_flaw(b"P6 1 1 255\nab") == Some(short));
}
