//! The names of pictures.

use crate::fixtures::holds;
use std::alloc::Global;
use vt_pictures::{is_picture_name, picture_name};

// Whether a picture of this prefix has this name.
fn is_named(alloc: Global, prefix: &str, picture: u32, want: &str) -> bool {
    if picture >= 10000 {
        return false;
    }
    match picture_name(alloc, prefix, picture) {
        Ok(name) => name.as_str() == want,
        Err(_) => false,
    }
}

#[test]
fn a_picture_has_four_digits(rt: HostRuntime) {
    holds(&rt, is_named(rt.alloc(), "a/", 73, "a/0073.ppm"));
    holds(&rt, is_picture_name("a/", "a/0730.ppm"));
    holds(&rt, !is_picture_name("a/", "a/0730.pp"));
    holds(&rt, !is_picture_name("a/", "a/073:.ppm"));
}
