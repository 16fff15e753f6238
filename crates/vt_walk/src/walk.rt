//! Walks.

ghost use Rattle.std.specs.Prelude.{◌≡◌, ◌<◌, ◌≤◌, [], ◌∷◌, sum, is_some, IfOk, OnOk};
ghost use Rattle.vt_outside.specs.Files.{bytes_at};
ghost use Rattle.vt_pages.specs.Pages.{pinned_of};
ghost use Rattle.vt_tiles.specs.StoreViews.{IsStoreIfKnown};
ghost use Rattle.vt_walk_decisions.specs.Scenes.{scene_of};
ghost use Rattle.vt_walk_decisions.specs.Machines.{file_state};
ghost use Rattle.vt_walk.specs.Walks.{given_to, walk_setup, mode_of, AreSettings};
ghost use Rattle.vt_walk.specs.Counts.{HasCounts};
ghost use Rattle.vt_walk.specs.States.{walk_state, places_of, AreOpen};
ghost use Rattle.vt_walk.specs.DrawnBy.{IsDrawnBySome};
ghost use Rattle.vt_walk.specs.WalkSteps.{BeginsWalk};
ghost use Rattle.vt_walk.specs.WalkEffects.{walk_effect, file_of, Walks};
ghost use Rattle.vt_walk.specs.WalkInputs.{given_of, setup_of_input, IsWalkInput};
ghost use Rattle.vt_walk.specs.Beginnings.{IsBegun, AreKnown, IsSameFile, KeepsFiles};
ghost use Rattle.vt_walk.specs.Moments.{traces, KeepsTraces};
ghost use Rattle.vt_walk_decisions.specs.Requests.{counts_of};
ghost use Rattle.vt_walk.specs.Closing.{AreFresh, AreOtherNamesAsBefore, HasClosed};

use crate::errand::walk_by_crew;
use crate::files::begin_journal;
use crate::loaders::{close_stores, open_loaders};
use crate::pinned::place_pinned;
use crate::walk_steps::Walked;
use std::alloc::Global;
use std::sync::Wait;
use std::thread::Threads;
use vt_camera::Path;
use vt_evict::Recency;
use vt_outside::{Folder, Gate, Sink};
use vt_tiles::{Store, Stores};
use vt_walk_decisions::{
    Mode, Names, PassMachine, SentMachine, Settings, WalkError, WalkInput, has_too_few_frames,
};

/// Walks over all pictures of a path by a machine, as `walk_with` does, and answers how many passes it had and how
/// many tiles it asked for: those of a whole run. Conditions, refusals and causes are those of `walk_with`.
pub fn walk_counted<
    Rt: Threads + Wait + Sync,
    M: SentMachine<File = D::File>,
    D: Folder,
    O: Sink,
    G: Gate + Sync,
>(
    rt: &Rt,
    alloc: Global,
    folder: &mut D,
    store: Store<D::File>,
    path: &Path,
    names: &Names<'_>,
    settings: &Settings,
    settled: bool,
    out: &mut O,
    gate: &G,
) -> Result<Walked, WalkError>
    requires settings { AreSettings store.shape settings.now }
    requires bytes { D.File.bytes store.file ≡ bytes_at (D.files folder.old) names.now.store.now }
    requires known_too { is_some (D.File.bytes store.file) ≡ is_some (D.files folder.old) }
    requires opened { AreOpen 1 names.now.store.now (D.asked folder.old) (file_of D.File.File store) }
    ensures walked { Walks (IsDrawnBySome M.PassMachine) (given_to M.drawing D.File.File store path.now names.now settings.now settled)
        (walk_effect D.Folder O.Sink names.now.store.now (file_of D.File.File store) [] folder.old folder.new out.old
        out.new) result }
    ensures counted { IfOk result (HasCounts (walk_setup M.drawing (scene_of store.shape store.depth path.now)
        settings.now
        (mode_of settled))) }
    ensures few { let needed = pinned_of store.shape settings.now.pinned in settings.now.frames < needed
        → result ≡ Err (WalkError.TooFewFrames settings.now.frames needed) }
    ensures others { AreOtherNamesAsBefore names.now.store.now (D.asked folder.old) (D.asked folder.new) }
    ensures faults { D.faults folder.old ≤ D.faults folder.new }
    ensures out_faults { O.faults out.old ≤ O.faults out.new }
{
    let geometry = store.geometry();
    // These two tell that an input is within its limits.
    let _ = geometry.page_count();
    let _ = path.pictures();
    let input = WalkInput {
        geometry: &geometry,
        depth: store.depth(),
        path,
        names: *names,
        settings: *settings,
        pinned: geometry.pinned_count(settings.pinned),
        mode: mode_of(settled),
    };
    let mut store = store;
    let walked = walk_store::<Rt, M, D, O, G>(rt, alloc, folder, &mut store, &input, out, gate);
    folder.close(store.into_file());
    walked
}

// Settled where it is so, and else live.
fn mode_of(settled: bool) -> Mode
    ensures { result ≡ mode_of settled }
{
    if settled { Mode::Settled } else { Mode::Live }
}

// Walks over all pictures, with the store's file that is open. Fewer frames than pinned pages are refused first.
fn walk_store<
    'w,
    Rt: Threads + Wait + Sync,
    M: SentMachine<File = D::File>,
    D: Folder,
    O: Sink,
    G: Gate + Sync,
>(
    rt: &Rt,
    alloc: Global,
    folder: &mut D,
    store: &mut Store<D::File>,
    input: &WalkInput<'w>,
    out: &mut O,
    gate: &'w G,
) -> Result<Walked, WalkError>
    requires input { IsWalkInput input.now }
    requires shape { store.old.shape ≡ input.now.geometry.now }
    requires depth { store.old.depth ≡ input.now.depth }
    requires store { IsStoreIfKnown (D.File.bytes store.old.file) store.old.shape store.old.depth }
    requires bytes { D.File.bytes store.old.file ≡ bytes_at (D.files folder.old) input.now.names.store.now }
    requires known_too { is_some (D.File.bytes store.old.file) ≡ is_some (D.files folder.old) }
    requires opened { AreOpen 1 input.now.names.store.now (D.asked folder.old) (file_of D.File.File store.old) }
    ensures walked { Walks (IsDrawnBySome M.PassMachine) (given_of M.drawing input.now (D.File.bytes store.old.file))
        (walk_effect D.Folder O.Sink input.now.names.store.now (file_of D.File.File store.old)
        (file_of D.File.File store.new) folder.old folder.new out.old out.new) result }
    ensures counted { IfOk result (HasCounts (setup_of_input M.drawing input.now)) }
    ensures few { input.now.settings.frames < input.now.pinned
        → result ≡ Err (WalkError.TooFewFrames input.now.settings.frames input.now.pinned) }
    ensures closed { HasClosed input.now.names.store.now
        (traces D.Folder O.Sink folder.old out.old (file_of D.File.File store.old))
        (traces D.Folder O.Sink folder.new out.new (file_of D.File.File store.new)) }
{
    if has_too_few_frames(input) {
        return Err(WalkError::TooFewFrames {
            frames: input.settings.frames,
            needed: input.pinned,
        });
    }
    let loaders = input.settings.crew.loaders;
    match open_loaders(
        alloc,
        folder,
        input.names.store,
        input.geometry,
        input.depth,
        loaders,
    ) {
        Ok(stores) => walk_stores::<Rt, M, D, O, G>(
            rt, alloc, folder, store, stores, input, out, gate,
        ),
        Err(refusal) => Err(refusal.into()),
    }
}

// Walks over all pictures by a machine that is made with the stores of its loaders.
fn walk_stores<
    'w,
    Rt: Threads + Wait + Sync,
    M: SentMachine<File = D::File>,
    D: Folder,
    O: Sink,
    G: Gate + Sync,
>(
    rt: &Rt,
    alloc: Global,
    folder: &mut D,
    store: &mut Store<D::File>,
    stores: Stores<D::File>,
    input: &WalkInput<'w>,
    out: &mut O,
    gate: &'w G,
) -> Result<Walked, WalkError>
    requires input { IsWalkInput input.now }
    requires enough_frames { input.now.pinned ≤ input.now.settings.frames }
    requires shape { store.old.shape ≡ input.now.geometry.now }
    requires depth { store.old.depth ≡ input.now.depth }
    requires store { IsStoreIfKnown (D.File.bytes store.old.file) store.old.shape store.old.depth }
    requires stores { AreFresh D.File.File input.now.geometry.now input.now.depth input.now.settings.crew.loaders
        input.now.names.store.now
        (D.asked folder.old) (D.File.bytes store.old.file) stores.elements }
    requires opened { AreOpen 1 input.now.names.store.now (D.asked folder.old) (file_of D.File.File store.old) }
    ensures walked { Walks (IsDrawnBySome M.PassMachine) (given_of M.drawing input.now (D.File.bytes store.old.file))
        (walk_effect D.Folder O.Sink input.now.names.store.now (file_of D.File.File store.old)
        (file_of D.File.File store.new) folder.old folder.new out.old out.new) result }
    ensures counted { IfOk result (HasCounts (setup_of_input M.drawing input.now)) }
    ensures closed { HasClosed input.now.names.store.now
        (traces D.Folder O.Sink folder.old out.old (file_of D.File.File store.old))
        (traces D.Folder O.Sink folder.new out.new (file_of D.File.File store.new)) }
{
    let frames = input.settings.frames;
    let crew = input.settings.crew;
    match M::make(
        rt,
        alloc,
        input.geometry,
        input.path,
        frames,
        &crew,
        input.depth,
        stores,
    ) {
        Ok(machine) => walk_machine(rt, alloc, folder, store, machine, input, out, gate),
        Err((stores, refusal)) => {
            close_stores(folder, stores);
            Err(refusal.into())
        }
    }
}

// Walks over all pictures by a machine, and closes the files of its loaders.
fn walk_machine<
    'w,
    Rt: Threads + Wait + Sync,
    M: SentMachine<File = D::File>,
    D: Folder,
    O: Sink,
    G: Gate + Sync,
>(
    rt: &Rt,
    alloc: Global,
    folder: &mut D,
    store: &mut Store<D::File>,
    mut machine: M,
    input: &WalkInput<'w>,
    out: &mut O,
    gate: &'w G,
) -> Result<Walked, WalkError>
    requires input { IsWalkInput input.now }
    requires enough_frames { input.now.pinned ≤ input.now.settings.frames }
    requires shape { store.old.shape ≡ input.now.geometry.now }
    requires depth { store.old.depth ≡ input.now.depth }
    requires store { IsStoreIfKnown (D.File.bytes store.old.file) store.old.shape store.old.depth }
    requires idle { M.is_idle machine }
    requires begins { IsBegun (given_of M.drawing input.now (D.File.bytes store.old.file))
        (M.state machine) }
    requires no_faults { sum (counts_of (M.state machine).files) ≡ 0 }
    requires no_places { places_of (M.state machine).files ≡ [] }
    requires loaders { AreOpen input.now.settings.crew.loaders input.now.names.store.now (D.asked folder.old)
        (M.state machine).files }
    requires opened { AreOpen 1 input.now.names.store.now (D.asked folder.old) (file_of D.File.File store.old) }
    ensures walked { Walks (IsDrawnBySome M.PassMachine) (given_of M.drawing input.now (D.File.bytes store.old.file))
        (walk_effect D.Folder O.Sink input.now.names.store.now (file_of D.File.File store.old)
        (file_of D.File.File store.new) folder.old folder.new out.old out.new) result }
    ensures counted { IfOk result (HasCounts (setup_of_input M.drawing input.now)) }
    ensures closed { HasClosed input.now.names.store.now
        (traces D.Folder O.Sink folder.old out.old (file_of D.File.File store.old))
        (traces D.Folder O.Sink folder.new out.new (file_of D.File.File store.new)) }
{
    let walked = walk_all(rt, alloc, folder, store, &mut machine, input, out, gate);
    close_stores(folder, machine.end(rt));
    walked
}

// Places the pinned pages, begins the journal, and walks over all pictures by the hands of a crew.
fn walk_all<
    'w,
    Rt: Threads + Wait + Sync,
    M: SentMachine<File = D::File>,
    D: Folder,
    O: Sink,
    G: Gate + Sync,
>(
    rt: &Rt,
    alloc: Global,
    folder: &mut D,
    store: &mut Store<D::File>,
    machine: &mut M,
    input: &WalkInput<'w>,
    out: &mut O,
    gate: &'w G,
) -> Result<Walked, WalkError>
    requires input { IsWalkInput input.now }
    requires enough_frames { input.now.pinned ≤ input.now.settings.frames }
    requires shape { store.old.shape ≡ input.now.geometry.now }
    requires depth { store.old.depth ≡ input.now.depth }
    requires store { IsStoreIfKnown (D.File.bytes store.old.file) store.old.shape store.old.depth }
    requires idle { M.is_idle machine.old }
    requires begins { IsBegun (given_of M.drawing input.now (D.File.bytes store.old.file))
        (M.state machine.old) }
    requires all_known { AreKnown (D.asked folder.old) (file_state D.File.File store.old.file ∷ (M.state machine.old).files) }
    ensures walked { Walks (IsDrawnBySome M.PassMachine) (given_of M.drawing input.now (D.File.bytes store.old.file))
        (walk_effect D.Folder O.Sink input.now.names.store.now
        (file_state D.File.File store.old.file ∷ (M.state machine.old).files)
        (file_state D.File.File store.new.file ∷ (M.state machine.new).files) folder.old folder.new out.old out.new)
        result }
    ensures counted { IfOk result (HasCounts (setup_of_input M.drawing input.now)) }
    ensures store { IsSameFile (file_state D.File.File store.old.file) (file_state D.File.File store.new.file) }
    ensures kept { KeepsTraces (traces D.Folder O.Sink folder.old out.old (M.state machine.old).files)
        (traces D.Folder O.Sink folder.new out.new (M.state machine.new).files) }
{
    let mut recency = begin(rt, alloc, folder, store, machine, input)?;
    walk_by_crew(rt, alloc, folder, machine, &mut recency, input, out, gate)
}

// Places the pinned pages, and begins the journal.
fn begin<Rt: Threads + Wait, M: PassMachine, D: Folder>(
    rt: &Rt,
    alloc: Global,
    folder: &mut D,
    store: &mut Store<D::File>,
    machine: &mut M,
    input: &WalkInput<'_>,
) -> Result<Recency, WalkError>
    requires input { IsWalkInput input.now }
    requires enough_frames { input.now.pinned ≤ input.now.settings.frames }
    requires shape { store.old.shape ≡ input.now.geometry.now }
    requires depth { store.old.depth ≡ input.now.depth }
    requires store { IsStoreIfKnown (D.File.bytes store.old.file) store.old.shape store.old.depth }
    requires idle { M.is_idle machine.old }
    requires begins { IsBegun (given_of M.drawing input.now (D.File.bytes store.old.file))
        (M.state machine.old) }
    requires all_known { AreKnown (D.asked folder.old) (file_state D.File.File store.old.file ∷ (M.state machine.old).files) }
    ensures begun { BeginsWalk (IsDrawnBySome M.PassMachine) (given_of M.drawing input.now (D.File.bytes store.old.file))
        (walk_state D.Folder input.now.names.store.now folder.old
        (file_state D.File.File store.old.file ∷ (M.state machine.old).files))
        (walk_state D.Folder input.now.names.store.now folder.new
        (file_state D.File.File store.new.file ∷ (M.state machine.new).files)) (M.state machine.new) result }
    ensures idle { OnOk result (M.is_idle machine.new) }
    ensures kept { KeepsFiles D.Folder folder.old folder.new (file_state D.File.File store.old.file)
        (file_state D.File.File store.new.file) (M.state machine.old).files (M.state machine.new).files }
{
    place_pinned(rt, alloc, machine, store, input.geometry, input.pinned)?;
    let recency = Recency::new(alloc, input.geometry, input.settings.frames, input.pinned)?;
    begin_journal(
        alloc,
        folder,
        input.names.journal,
        input.geometry,
        machine.journal(),
        input.pinned,
    )?;
    Ok(recency)
}
