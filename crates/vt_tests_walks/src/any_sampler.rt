//! Pictures whose rows any sampler may draw, and their journals.

use crate::told::Told;
use std::alloc::Global;

// The journal of the settled walk of one picture of one row, with a `?` for each sampler and each version that is open.
const OF_ONE_ROW: &[u8] =
    b"map 1 1 0 0 0\npass 1 picture 0 start 1\nrow 0 ? 1\npass 2 picture 0 start 1\nmap 2 0 0 0 1\nrow 0 ? ?\n\
        pass 3 picture 0 start 2\nmap 3 0 0 1 2\nrow 0 ? ?\npass 4 picture 0 start 3\nrow 0 ? 3\n";

/// That journal by one sampler.
pub const BY_ONE: Told<'static> = Told {
    text: OF_ONE_ROW,
    versions: &[(0, 0), (0, 0), (1, 2), (0, 0), (2, 3), (0, 0)],
};

/// That journal by two samplers.
pub const BY_TWO: Told<'static> = Told {
    versions: &[(0, 1), (0, 1), (1, 2), (0, 1), (2, 3), (0, 1)],
    ..BY_ONE
};

/// That journal by seven samplers.
pub const BY_SEVEN: Told<'static> = Told {
    versions: &[(0, 6), (0, 6), (1, 2), (0, 6), (2, 3), (0, 6)],
    ..BY_ONE
};

/// The path of a picture of four rows.
pub const FOUR_ROWS: &[u8] = b"size 2 4\nfocal 1\nat 0 0 1024 16384 0\n";

/// What it shows while only the root is mapped.
pub const FOUR_ROWS_SHOWN: &[u8] =
    b"P6\n2 4\n255\n\x0b\x0b\x0b\x0b\x0b\x0b\x0d\x0d\x0d\x05\x05\x05\x0b\x0b\x0b\x03\x03\x03\x0b\x0b\x0b\x03\x03\x03";

/// The log of its live walk.
pub const FOUR_ROWS_LOG: &[u8] =
    b"picture 0 passes 1 wanted 3 loaded 0 lost 0 evicted 0\nend pictures 1 reads 1\n";

/// The journal of that walk, each row by either of two samplers.
pub const FOUR_ROWS_TOLD: Told<'static> = Told {
    text: b"map 1 1 0 0 0\npass 1 picture 0 start 1\nrow 0 ? 1\nrow 1 ? 1\nrow 2 ? 1\nrow 3 ? 1\n",
    versions: &[(0, 1), (0, 1), (0, 1), (0, 1)],
};

/// Whether one of the samplers drew one of the four rows of such a journal, and the other three.
pub fn has_one_and_three(journal: &[u8]) -> bool {
    let mut of_second: u32 = 0;
    for turn in 0..4 {
        if FOUR_ROWS_TOLD.above_least(journal, turn) == Some(1) {
            of_second = of_second.wrapping_add(1);
        }
    }
    of_second == 1 || of_second == 3
}

/// The path of a picture of which all pixels are the blend of the texels 0, 1, 4 and 5 with the weights 36864, 12288, 12288 and 4096. A picture
/// of so many is drawn by two threads.
pub const BLENDED: &[u8] = b"size 128 128\nfocal 1\nat 64 64 1 0 0\n";

/// The log of a settled walk of a picture of that size which wants one page.
pub const LARGE_LOG: &[u8] =
    b"picture 0 passes 3 wanted 1 loaded 1 lost 0 evicted 0\nend pictures 1 reads 2\n";

const LARGE_HEADER: &[u8] = b"P6\n128 128\n255\n";

/// A picture of that size all of whose samples are the same.
pub fn of_one_colour(alloc: Global, sample: u8) -> Option<Vec<u8>> {
    let Ok(mut picture) = Vec::from_elem(alloc, sample, LARGE_HEADER.len() + 128 * 128 * 3) else {
        return None;
    };
    picture[..LARGE_HEADER.len()].copy_from_slice(LARGE_HEADER);
    Some(picture)
}
