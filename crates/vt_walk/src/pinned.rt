//! Placing the pinned pages.

ghost use Rattle.std.specs.Prelude.{◌≡◌, ◌+◌, ◌<◌, ◌≤◌, [], length, Bool, false, OnOk, OnErr, IsErrOf};
ghost use Rattle.vt_outside.specs.Counts.{Rose};
ghost use Rattle.vt_pages.specs.Pages.{pages_of};
ghost use Rattle.vt_tiles.specs.Format.{tile_length as length_of_tile};
ghost use Rattle.vt_tiles.specs.Places.{TileAsked};
ghost use Rattle.vt_journal.specs.declared.changes.Change.TheVariants.{Map};
ghost use Rattle.vt_journal.specs.Changes.{newest, IsNext};
ghost use Rattle.vt_walk_decisions.specs.Crews.{last_start};
ghost use Rattle.vt_walk_decisions.specs.Passes.{with_placed};
ghost use Rattle.vt_walk.specs.Reads.{AreAskedFor, AreAskedAtMostFor, OnKnown, lost_reads};
ghost use Rattle.vt_walk.specs.Placing.{IsStoreOf, KeepsStore, with_pinned};

use std::alloc::Global;
use std::sync::Wait;
use std::thread::Threads;
use vt_outside::{File, OutsideError};
use vt_pages::Geometry;
use vt_tiles::{Store, tile_length};
use vt_walk_decisions::{PassMachine, pinned_page};

/// Reads the tile of each pinned page, the last so many pages, from the store in the order of their indexes, and
/// places it: the first in frame 0, and each further one in the next frame (Mayer 2010).
pub fn place_pinned<Rt: Threads + Wait, M: PassMachine, F: File>(
    rt: &Rt,
    alloc: Global,
    machine: &mut M,
    store: &mut Store<F>,
    geometry: &Geometry,
    pinned: u32,
) -> Result<(), OutsideError>
    requires idle { M.is_idle machine.old }
    requires begins { (M.state machine.old).journal ≡ [] }
    requires machine_store { IsStoreOf (M.state machine.old).setup (F.bytes store.old.file) store.old.shape
        store.old.depth }
    requires shape { store.old.shape ≡ geometry.now }
    requires enough_pages { pinned ≤ pages_of geometry.now }
    requires enough_frames { pinned ≤ (M.state machine.old).setup.frames }
    ensures placed { OnOk result (M.state machine.new ≡ with_pinned geometry.now pinned (M.state machine.old)) }
    ensures idle { OnOk result (M.is_idle machine.new) }
    ensures files { (M.state machine.new).files ≡ (M.state machine.old).files }
    ensures asked { OnOk result (OnKnown (AreAskedFor geometry.now store.old.depth pinned [] []) (F.asked store.old.file)
        (F.asked store.new.file)) }
    ensures part { OnErr result (OnKnown (AreAskedAtMostFor geometry.now store.old.depth pinned [])
        (F.asked store.old.file)
        (F.asked store.new.file)) }
    // A failed read of a pinned tile is no lost tile.
    ensures lost { OnKnown (λ old new. lost_reads geometry.now store.old.depth pinned new ≡ lost_reads geometry.now
        store.old.depth pinned old)
        (F.asked store.old.file) (F.asked store.new.file) }
    ensures failed { IsErrOf result OutsideError.Failed → Rose (F.faults store.old.file) (F.faults store.new.file) }
    ensures kept { KeepsStore F.File store.old store.new }
{
    let depth = store.depth();
    store.reserve(pinned as u64)?;
    let mut buffer = Vec::from_elem(alloc, 0, tile_length(geometry, depth))?;
    let tile = buffer.as_mut_slice();
    let pages = geometry.page_count();
    for frame in 0..pinned {
        let page = pinned_page(pages, pinned, frame);
        place_page(rt, machine, store, page, frame, tile)?;
    }
    Ok(())
}

// Reads the tile of a page, and places it in a frame.
fn place_page<Rt: Threads + Wait, M: PassMachine, F: File>(
    rt: &Rt,
    machine: &mut M,
    store: &mut Store<F>,
    page: u32,
    frame: u32,
    tile: &mut [u8],
) -> Result<(), OutsideError>
    requires idle { M.is_idle machine.old }
    requires machine_store { IsStoreOf (M.state machine.old).setup (F.bytes store.old.file) store.old.shape
        store.old.depth }
    requires page { page < pages_of store.old.shape }
    requires frame { frame < (M.state machine.old).setup.frames }
    requires next { IsNext (newest (M.state machine.old).journal) (Map page frame) }
    requires early { length (M.state machine.old).journal ≤ last_start }
    requires size { length tile.old ≡ length_of_tile store.old.shape store.old.depth }
    requires spare { 1 ≤ F.spare store.old.file }
    ensures placed { OnOk result (M.state machine.new ≡ with_placed page frame (M.state machine.old)) }
    ensures refused { OnErr result (M.state machine.new ≡ M.state machine.old) }
    ensures idle { M.is_idle machine.new }
    ensures asked { OnOk result (TileAsked store.old.shape store.old.depth page false (F.asked store.old.file)
        (F.asked store.new.file)) }
    ensures part { OnErr result ((failed : Bool) × TileAsked store.old.shape store.old.depth page failed
        (F.asked store.old.file) (F.asked store.new.file)) }
    ensures failed { IsErrOf result OutsideError.Failed → Rose (F.faults store.old.file) (F.faults store.new.file) }
    ensures spare { F.spare store.old.file ≤ F.spare store.new.file + 1 }
    ensures kept { KeepsStore F.File store.old store.new }
{
    store.read_tile(page, tile)?;
    machine.place(rt, page, frame, tile)?;
    Ok(())
}
