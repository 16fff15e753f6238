//! Settled walks.

use crate::cases::{Case, Deed, check};
use crate::fixtures::{FINE, FOUR, ONE_PICTURE};
use crate::told::Told;
use crate::walk::worked::Walk;
use vt_machine::Crew;
use vt_walk::{Mode, Settings};

const SETTINGS: Settings = Settings {
    frames: 3,
    pinned: 1,
    crew: Crew {
        samplers: 1,
        loaders: 1,
        batch: 1,
    },
};

// A picture is settled by one sampler and one loader, in three frames.
const BY_ONE: Walk<'_> = Walk {
    settings: SETTINGS,
    mode: Mode::Settled,
    error: None,
    journal: Some(Told {
        text: b"map 1 1 0 0 0
pass 1 picture 0 start 1
row 0 0 1
pass 2 picture 0 start 1
map 2 0 0 0 1
row 0 0 ?
pass 3 picture 0 start 2
map 3 0 0 1 2
row 0 0 ?
pass 4 picture 0 start 3
row 0 0 3
",
        versions: &[(1, 2), (2, 3)],
    }),
    log: b"picture 0 passes 4 wanted 2 loaded 2 lost 0 evicted 0\nend pictures 1 reads 3\n",
    pictures: &[FINE],
};

const BY_MANY: Walk<'_> = Walk {
    settings: Settings {
        crew: Crew {
            samplers: 7,
            loaders: 3,
            batch: 1,
        },
        ..SETTINGS
    },
    ..BY_ONE
};

// A walk over the store of four pages for one picture.
const ONE: Case<'_> = Case {
    store: &FOUR,
    path: ONE_PICTURE,
    fails: &[],
    deed: Deed::Walk(BY_ONE),
};

static CREWS: [Case<'static>; 2] = [
    ONE,
    Case {
        deed: Deed::Walk(BY_MANY),
        ..ONE
    },
];

#[test]
fn a_settled_picture_is_the_same_by_any_crew(rt: HostRuntime) {
    check(&rt, rt.alloc(), &CREWS);
}
