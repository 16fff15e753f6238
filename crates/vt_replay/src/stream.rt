//! How many tiles a replay keeps loaded.

ghost use Rattle.std.specs.Prelude.{◌*◌, ◌≤◌};
ghost use Rattle.vt_definitions.specs.Limits.{most_frame_texels};

use vt_journal::{Change, Journal};
use vt_pages::Geometry;

// How many texels the loaded tiles have together at most: those of the frames of a walk.
const MOST_TEXELS: u32 = 8_388_608;

const _LIMIT: () = prove!(MOST_TEXELS == 8_388_608);

// The frame that a change maps a page to, or unmaps it from.
fn frame_in(change: Change) -> u32 {
    match change {
        Change::Map { page: _, frame } => frame,
        Change::Unmap { page: _, frame } => frame,
    }
}

// How many frames a journal names, at least one: one more than the greatest, as far as that is below a bound.
fn frames_named(journal: &Journal, most: u32) -> u32
    requires { 1 ≤ most }
    ensures { (1 ≤ result) × (result ≤ most) }
{
    let mut frames = 1;
    for version in 0..journal.version() {
        let frame = frame_in(journal.change(version + 1));
        if frame >= frames {
            frames = frame.saturating_add(1).min(most);
        }
    }
    frames
}

/// The slots for a journal's tiles: as many as the frames that it names, since no more pages are mapped at a time, but not more
/// than there are pages, and not more than have the texels of a walk's frames.
pub(crate) fn slots_for(geometry: &Geometry, journal: &Journal) -> u32
    ensures some { 1 ≤ result }
    ensures few { result * (geometry.now.tile * geometry.now.tile) ≤ most_frame_texels }
{
    let side = geometry.tile();
    let most = MOST_TEXELS / (side * side);
    frames_named(journal, most.min(geometry.page_count()))
}
