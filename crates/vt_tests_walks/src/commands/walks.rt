// A live walk that loses a tile.
use super::flights::{Flight, fly_all};
use super::walk_rows::LOST;
use crate::gates::Meeting;
use std::test::*;

static FLIGHTS: [Flight<'static>; 1] = [LOST];

#[test]
fn each_live_picture_is_that_of_its_version_and_is_replayed(rt: HostRuntime) {
    fly_all(&rt, rt.alloc(), &FLIGHTS, Meeting::Nobody);
}
