//! Plans for wanted lists made by hand.

ghost use Rattle.std.specs.Bool.{OnTrue};
ghost use Rattle.std.specs.Prelude.{◌≡◌, ◌<◌, ◌≤◌, IfOk};
ghost use Rattle.std.specs.List.{All};
ghost use Rattle.vt_evict.specs.Batches.{IsLawfulBatch};
ghost use Rattle.vt_pages.specs.Pages.{pages_of};

use crate::checks::holds;
use std::alloc::Global;
use vt_evict::*;
use vt_feedback::{Wanted, Wants};
use vt_outside::NoMemory;
use vt_pages::Geometry;

// A table of so many frames, one of which the root has.
fn rooted(alloc: Global, geometry: &Geometry, frames: u32) -> Result<Recency, NoMemory>
    requires some { 1 ≤ frames }
    requires most { frames ≤ 5 }
    ensures { IfOk result (λ recency. recency.shape ≡ geometry.now) }
{
    let _pages = geometry.page_count();
    Recency::new(alloc, geometry, frames, 1)
}

// A wanted list of pages that one pixel wants each.
fn wanted(alloc: Global, geometry: &Geometry, pages: &[u32]) -> Result<Wants, NoMemory>
    ensures { IfOk result (λ wants. All (λ w. w.page < pages_of geometry.now) wants.elements) }
{
    let count = geometry.page_count();
    let mut wants = Wants::new(alloc);
    for page in pages {
        wants.reserve(1)?;
        wants.push(Wanted {
            page: (*page).min(count - 1),
            pixels: 1,
        });
    }
    Ok(wants)
}

// A pass: the pages of its wanted list, how many unpinned pages these need, the entries of its plan, and which of them
// are lost.
struct Pass {
    pages: &'static [u32],
    needed: u32,
    plan: &'static [Planned],
    lost: &'static [bool],
}

// Settles a plan of which entries are lost, and answers whether there are so many, and memory.
fn is_settled(alloc: Global, recency: &mut Recency, batch: &Batch, lost: &[bool]) -> bool
    requires { IsLawfulBatch recency.old batch.now.elements }
    ensures { OnTrue result (recency.new.shape ≡ recency.old.shape) }
{
    let Ok(losses) = Losses::from_slice(alloc, lost) else {
        return false;
    };
    losses.len() == batch.len() && recency.settle(batch, &losses).is_ok()
}

// Stamps the pages of a wanted list, plans at most `q` entries, and settles them; answers whether these are those of the pass.
fn is_followed(alloc: Global, recency: &mut Recency, wants: &Wants, q: u32, pass: &Pass) -> bool
    requires { All (λ w. w.page < pages_of recency.old.shape) wants.now.elements }
    ensures { OnTrue result (recency.new.shape ≡ recency.old.shape) }
{
    let Ok(needed) = recency.needed(alloc, wants) else {
        return false;
    };
    recency.touch(wants);
    match recency.plan(alloc, wants, q) {
        Ok(batch) => {
            needed == pass.needed
                && batch.slice() == pass.plan
                && is_settled(alloc, recency, &batch, pass.lost)
        }
        Err(_) => false,
    }
}

// Makes a pass of at most `q` entries, and answers whether it is as it is to be.
fn follow(alloc: Global, geometry: &Geometry, recency: &mut Recency, q: u32, pass: &Pass) -> bool
    requires { recency.old.shape ≡ geometry.now }
    ensures { OnTrue result (recency.new.shape ≡ geometry.now) }
{
    match wanted(alloc, geometry, pass.pages) {
        Ok(wants) => is_followed(alloc, recency, &wants, q, pass),
        Err(_) => false,
    }
}

// Makes passes of at most `q` entries, one after the other, as long as each is as it is to be, and answers whether all are.
fn follow_all(
    alloc: Global,
    geometry: &Geometry,
    recency: &mut Recency,
    q: u32,
    passes: &[Pass],
) -> bool
    requires { recency.old.shape ≡ geometry.now }
{
    for pass in passes {
        if !follow(alloc, geometry, recency, q, pass) {
            return false;
        }
    }
    true
}

// Whether these are the passes of at most `q` entries over a square texture in tiles of 2, by one frame to five.
fn are_passes(alloc: Global, side: u32, frames: u32, q: u32, passes: &[Pass]) -> bool {
    let Ok(geometry) = Geometry::new(side, side, 2) else {
        return false;
    };
    if frames < 1 || frames > 5 {
        return false;
    }
    match rooted(alloc, &geometry, frames) {
        Ok(mut recency) => follow_all(alloc, &geometry, &mut recency, q, passes),
        Err(_) => false,
    }
}

static COARSE_FIRST: [Pass; 3] = [
    Pass {
        pages: &[0, 12],
        needed: 4,
        plan: &[
            Planned {
                page: 16,
                frame: 1,
                victim: None,
            },
            Planned {
                page: 18,
                frame: 2,
                victim: None,
            },
        ],
        lost: &[false, false],
    },
    Pass {
        pages: &[0, 12],
        needed: 4,
        plan: &[
            Planned {
                page: 0,
                frame: 3,
                victim: None,
            },
            Planned {
                page: 12,
                frame: 4,
                victim: None,
            },
        ],
        lost: &[false, false],
    },
    Pass {
        pages: &[0, 12],
        needed: 4,
        plan: &[],
        lost: &[],
    },
];

#[test]
fn a_plan_asks_for_coarse_pages_before_fine_ones(rt: HostRuntime) {
    holds(&rt, are_passes(rt.alloc(), 8, 5, 64, &COARSE_FIRST));
}

static LINE_BY_LINE: [Pass; 5] = [
    Pass {
        pages: &[0, 12],
        needed: 4,
        plan: &[Planned {
            page: 16,
            frame: 1,
            victim: None,
        }],
        lost: &[false],
    },
    Pass {
        pages: &[0, 12],
        needed: 4,
        plan: &[Planned {
            page: 0,
            frame: 2,
            victim: None,
        }],
        lost: &[false],
    },
    Pass {
        pages: &[0, 12],
        needed: 4,
        plan: &[Planned {
            page: 18,
            frame: 3,
            victim: None,
        }],
        lost: &[false],
    },
    Pass {
        pages: &[0, 12],
        needed: 4,
        plan: &[Planned {
            page: 12,
            frame: 4,
            victim: None,
        }],
        lost: &[false],
    },
    Pass {
        pages: &[0, 12],
        needed: 4,
        plan: &[],
        lost: &[],
    },
];

#[test]
fn a_batch_of_one_goes_down_one_line_after_the_other(rt: HostRuntime) {
    holds(&rt, are_passes(rt.alloc(), 8, 5, 1, &LINE_BY_LINE));
}

static ABOVE: [Pass; 3] = [
    Pass {
        pages: &[0],
        needed: 2,
        plan: &[Planned {
            page: 16,
            frame: 1,
            victim: None,
        }],
        lost: &[false],
    },
    Pass {
        pages: &[0],
        needed: 2,
        plan: &[],
        lost: &[],
    },
    Pass {
        pages: &[12],
        needed: 2,
        plan: &[Planned {
            page: 18,
            frame: 1,
            victim: Some(16),
        }],
        lost: &[false],
    },
];

#[test]
fn a_page_above_a_wanted_one_keeps_its_frame(rt: HostRuntime) {
    holds(&rt, are_passes(rt.alloc(), 8, 2, 64, &ABOVE));
}

static LOST: [Pass; 4] = [
    Pass {
        pages: &[0, 2],
        needed: 2,
        plan: &[
            Planned {
                page: 0,
                frame: 1,
                victim: None,
            },
            Planned {
                page: 2,
                frame: 2,
                victim: None,
            },
        ],
        lost: &[false, false],
    },
    Pass {
        pages: &[0, 2],
        needed: 2,
        plan: &[],
        lost: &[],
    },
    Pass {
        pages: &[1, 3],
        needed: 2,
        plan: &[
            Planned {
                page: 1,
                frame: 2,
                victim: Some(2),
            },
            Planned {
                page: 3,
                frame: 1,
                victim: Some(0),
            },
        ],
        lost: &[true, false],
    },
    Pass {
        pages: &[1, 3],
        needed: 2,
        plan: &[Planned {
            page: 1,
            frame: 2,
            victim: Some(2),
        }],
        lost: &[false],
    },
];

#[test]
fn a_lost_tile_leaves_its_victim(rt: HostRuntime) {
    holds(&rt, are_passes(rt.alloc(), 4, 3, 64, &LOST));
}

static PAGE_BY_PAGE: [Pass; 3] = [
    Pass {
        pages: &[0, 2],
        needed: 2,
        plan: &[Planned {
            page: 0,
            frame: 1,
            victim: None,
        }],
        lost: &[false],
    },
    Pass {
        pages: &[0, 2],
        needed: 2,
        plan: &[Planned {
            page: 2,
            frame: 2,
            victim: None,
        }],
        lost: &[false],
    },
    Pass {
        pages: &[0, 2],
        needed: 2,
        plan: &[],
        lost: &[],
    },
];

#[test]
fn one_picture_settles_page_by_page(rt: HostRuntime) {
    holds(&rt, are_passes(rt.alloc(), 4, 3, 1, &PAGE_BY_PAGE));
}
