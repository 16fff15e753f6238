//! Live walks.

use crate::cases::{Case, Deed, check};
use crate::fixtures::{FAR, FOUR, FOUR_PICTURES, LOW};
use crate::told::Told;
use crate::walk::worked::Walk;
use vt_machine::Crew;
use vt_outside::Fail;
use vt_walk::{Mode, Settings};

// A read of a loader's file that fails: the third file is that of the first loader.
macro_rules! failing {
    ($($opening:literal: $read:literal),*) => {
        &[$(Fail::Read { opening: $opening, read: $read }),*]
    };
}

// Each tile that is to be loaded is lost, whichever of three loaders reads it, so no row has a choice of versions.
const LOST: Walk<'_> = Walk {
    settings: Settings {
        frames: 3,
        pinned: 1,
        crew: Crew {
            samplers: 7,
            loaders: 3,
            batch: 1,
        },
    },
    mode: Mode::Live,
    error: None,
    journal: Some(Told {
        text: b"map 1 1 0 0 0
pass 1 picture 0 start 1
row 0 0 1
pass 2 picture 1 start 1
lost 0 0 0
row 0 0 1
pass 3 picture 2 start 1
lost 0 0 0
row 0 0 1
pass 4 picture 3 start 1
lost 0 1 0
row 0 0 1
",
        versions: &[],
    }),
    log: b"picture 0 passes 1 wanted 2 loaded 0 lost 0 evicted 0
picture 1 passes 1 wanted 2 loaded 0 lost 1 evicted 0
picture 2 passes 1 wanted 2 loaded 0 lost 1 evicted 0
picture 3 passes 1 wanted 2 loaded 0 lost 1 evicted 0
end pictures 4 reads 4
",
    pictures: &[LOW, LOW, FAR, FAR],
};

static LOST_TILES: [Case<'static>; 1] = [Case {
    store: &FOUR,
    path: FOUR_PICTURES,
    fails: failing!(2: 0, 2: 1, 2: 2, 3: 0, 3: 1, 3: 2, 4: 0, 4: 1, 4: 2),
    deed: Deed::Walk(LOST),
}];

#[test]
fn a_live_walk_goes_on_after_lost_tiles(rt: HostRuntime) {
    check(&rt, rt.alloc(), &LOST_TILES);
}
