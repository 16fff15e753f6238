//! Paths and their pictures.

use super::{Seen, other_camera};
use crate::fixtures::no_row_is_wrong;
use vt_camera::{Camera, path_flaw_is_unique, path_has_no_flaw, path_is_unique};

#[test]
fn one_key_gives_one_picture(rt: HostRuntime) {
    const ROWS: [Seen; 1] = [(
        b"size 2 1\nfocal 1\nat 0 0 256 16384 0\n",
        (2, 1, 1, 1),
        0,
        Camera {
            u: 0,
            v: 0,
            h: 256,
            c: 16384,
            s: 0,
        },
    )];
    no_row_is_wrong(&rt, other_camera(rt.alloc(), &ROWS));
    path_is_unique();
    path_flaw_is_unique();
    path_has_no_flaw();
}

#[test]
fn pictures_on_the_way_are_rounded_down(rt: HostRuntime) {
    const TEXT: &[u8] = b"size 2 1\nfocal 1\nat 0 0 256 16384 0\nto 3 -10 0 256 16384 0\n";
    const NUMBERS: (u32, u32, u32, u32) = (2, 1, 1, 4);
    const KEY: Camera = Camera {
        u: 0,
        v: 0,
        h: 256,
        c: 16384,
        s: 0,
    };
    const ROWS: [Seen; 4] = [
        (TEXT, NUMBERS, 0, KEY),
        (TEXT, NUMBERS, 1, Camera { u: -4, ..KEY }),
        (TEXT, NUMBERS, 2, Camera { u: -7, ..KEY }),
        (TEXT, NUMBERS, 3, Camera { u: -10, ..KEY }),
    ];
    no_row_is_wrong(&rt, other_camera(rt.alloc(), &ROWS));
}

#[test]
fn each_way_begins_at_the_key_before_it(rt: HostRuntime) {
    const TEXT: &[u8] =
        b"size 2 1\nfocal 1\nat 0 8 1 0 0\nat 1 8 1 0 0\nto 2 4 0 1 0 0\nto 1 9 9 1 0 0\n";
    const NUMBERS: (u32, u32, u32, u32) = (2, 1, 1, 5);
    const KEY: Camera = Camera {
        u: 0,
        v: 8,
        h: 1,
        c: 0,
        s: 0,
    };
    const ROWS: [Seen; 5] = [
        (TEXT, NUMBERS, 0, KEY),
        (TEXT, NUMBERS, 1, Camera { u: 1, ..KEY }),
        (TEXT, NUMBERS, 2, Camera { u: 2, v: 4, ..KEY }),
        (TEXT, NUMBERS, 3, Camera { u: 4, v: 0, ..KEY }),
        (TEXT, NUMBERS, 4, Camera { u: 9, v: 9, ..KEY }),
    ];
    no_row_is_wrong(&rt, other_camera(rt.alloc(), &ROWS));
}

// A path of the greatest numbers goes from the greatest place to the least.
#[test]
fn numbers_at_their_limits_are_accepted(rt: HostRuntime) {
    const MOST: &[u8] =
        b"size 2048 2048\nfocal 4096\nat 2147483648 2147483648 16777216 16384 16384\nto 9998 -2147483648 0 1 0 0\n";
    const LEAST: &[u8] = b"size 1 1\nfocal 1\nat -2147483648 -2147483648 1 -16384 -16384\n";
    const FIRST: Camera = Camera {
        u: 2147483648,
        v: 2147483648,
        h: 16777216,
        c: 16384,
        s: 16384,
    };
    const LAST: Camera = Camera {
        u: -2147483648,
        v: 0,
        h: 1,
        c: 0,
        s: 0,
    };
    const NEAREST: Camera = Camera {
        u: -2147483648,
        v: -2147483648,
        h: 1,
        c: -16384,
        s: -16384,
    };
    const ROWS: [Seen; 3] = [
        (MOST, (2048, 2048, 4096, 9999), 0, FIRST),
        (MOST, (2048, 2048, 4096, 9999), 9998, LAST),
        (LEAST, (1, 1, 1, 1), 0, NEAREST),
    ];
    no_row_is_wrong(&rt, other_camera(rt.alloc(), &ROWS));
}
