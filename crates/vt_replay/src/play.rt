//! The passes of a journal in their order: the last of each picture is drawn and written.

ghost use Rattle.std.specs.Prelude.{◌≡◌, ◌≢◌, true, false, ◌⊎◌, ℕ, ◌+◌, ◌*◌, ◌<◌, ◌≤◌, [], ◌∷◌, List, Option, Some, None, length, slice_get, IfOk, OnOk, IsSome};
ghost use Rattle.vt_definitions.specs.Depths.{IsDepth, texel_length};
ghost use Rattle.vt_outside.specs.Counts.{Rose};
ghost use Rattle.vt_pages.specs.Pages.{pages_of, root_of};
ghost use Rattle.vt_ppm.specs.Picture.{picture_bytes};
ghost use Rattle.vt_journal.specs.Changes.{at};
ghost use Rattle.vt_journal.specs.JournalText.{Pass, content_changes};
ghost use Rattle.vt_journal.specs.JournalFlaws.{IsLawfulJournal};
ghost use Rattle.vt_tiles.specs.Format.{stored};
ghost use Rattle.vt_outside.specs.Effects.{folder_effect};
ghost use Rattle.vt_outside.specs.Expectations.{AsksNone};
ghost use Rattle.vt_replay_rows.specs.Pictures.{expected_picture, expected_pictures};
ghost use Rattle.vt_replay_rows.specs.Scenes.{scene_of};
ghost use Rattle.vt_replay_rows.specs.Following.{IsReadOn, Follows, MayBePlayed};
ghost use Rattle.vt_replay.specs.Playing.{IsStaged, ShowsVersion, KeepsOthers, AreRowsWithin, ArePlayed, HasWritten};
ghost use Rattle.vt_replay_rows.specs.ReplayLookups.{AreTiles};
ghost use Rattle.vt_replay.specs.Replayed.{replayed_rows, pictures_of, replay_file, expected_replay};

use crate::stream::slots_for;
use crate::writing::{Picture, write_picture};
use std::alloc::Global;
use std::thread::Threads;
use vt_camera::Path;
use vt_definitions::texel_length;
use vt_journal::{Journal, JournalText, PassText};
use vt_outside::{File, Folder, NoMemory, OutsideError};
use vt_pages::Geometry;
use vt_replay_rows::{Filter, PageTable, Part, Shot, Tiles, draw_version, parts_for};
use vt_tiles::Store;

/// The table that follows the journal, the loaded tiles, and the room to draw in: the samples of a picture, a count for each page,
/// and what threads draw with beside one another.
#[derive(Drop)]
pub(crate) struct Stage {
    pub table: PageTable,
    pub tiles: Tiles,
    pub samples: Vec<u8>,
    pub counts: Vec<u32>,
    pub parts: Vec<Part>,
}

// The room to draw in, with a table and a set of tiles.
fn stage_of(
    alloc: Global,
    table: PageTable,
    tiles: Tiles,
    parts: Vec<Part>,
    geometry: &Geometry,
    depth: u32,
    path: &Path,
) -> Result<Stage, NoMemory>
    requires { IsDepth depth }
    ensures entries { IfOk result (λ stage. stage.table.entries.items ≡ table.entries.items) }
    ensures version { IfOk result (λ stage. stage.table.version ≡ table.version) }
    ensures size { IfOk result (λ stage. stage.tiles.size ≡ tiles.size) }
    ensures slots { IfOk result (λ stage. stage.tiles.slots.items ≡ tiles.slots.items) }
    ensures owners { IfOk result (λ stage. stage.tiles.owners.items ≡ tiles.owners.items) }
    ensures bytes { IfOk result (λ stage. stage.tiles.bytes.items ≡ tiles.bytes.items) }
    ensures samples { IfOk result (λ stage. length stage.samples.items
        ≡ path.now.height * (texel_length depth * path.now.width)) }
    ensures counts { IfOk result (λ stage. length stage.counts.items ≡ pages_of geometry.now) }
{
    let line = texel_length(depth) * path.width() as usize;
    let samples = vec![in alloc; 0; path.height() as usize * line]?;
    let counts = vec![in alloc; 0; geometry.page_count() as usize]?;
    Ok(Stage {
        table,
        tiles,
        samples,
        counts,
        parts,
    })
}

// What is there before the first pass: a table and a set of tiles that are empty, and the room to draw in.
fn first_stage<Rt: Threads>(
    rt: &Rt,
    alloc: Global,
    geometry: &Geometry,
    depth: u32,
    path: &Path,
    journal: &Journal,
) -> Result<Stage, NoMemory>
    requires { IsDepth depth }
    ensures first { IfOk result (λ stage. stage.table.version ≡ 0) }
    ensures follows { IfOk result (λ stage. Follows geometry.now journal.now.changes stage.table.entries.items stage.table.version) }
    ensures tiles { IfOk result (λ stage. (known : Option (List ℕ)) → AreTiles geometry.now depth stage.tiles.size
        stage.tiles.slots.items stage.tiles.owners.items stage.tiles.bytes.items known) }
    ensures samples { IfOk result (λ stage. length stage.samples.items
        ≡ path.now.height * (texel_length depth * path.now.width)) }
    ensures counts { IfOk result (λ stage. length stage.counts.items ≡ pages_of geometry.now) }
{
    // From here on it is known that the geometry keeps its limits.
    let _side = geometry.tile();
    let slots = slots_for(geometry, journal);
    let table = PageTable::new(alloc, geometry, journal)?;
    let tiles = Tiles::new(alloc, geometry, depth, slots)?;
    let parts = parts_for(rt, alloc, geometry, path)?;
    let stage = stage_of(alloc, table, tiles, parts, geometry, depth, path)?;
    Ok(stage)
}

// Brings a table to a version, and draws the rows of a pass that name it.
fn show_version<Rt: Threads + Sync, P: Filter + Sync, F: File>(
    rt: &Rt,
    stage: &mut Stage,
    store: &mut Store<F>,
    journal: &Journal,
    shot: &Shot<'_>,
    pass: &PassText,
    version: u64,
) -> Result<(), OutsideError>
    requires depth { IsDepth shot.now.depth }
    requires picture { shot.now.picture < length shot.now.path.now.cameras }
    requires played { MayBePlayed shot.now.geometry.now journal.now.changes }
    requires staged { IsStaged F.File (scene_of shot.now.geometry.now shot.now.depth shot.now.path.now) journal.now.changes
        stage.old store.old }
    requires rows { length pass.now.rows.elements ≡ shot.now.path.now.height }
    requires forward { stage.old.table.version ≤ version }
    requires inside { version ≤ length journal.now.changes }
    requires root { IsSome (at journal.now.changes version (root_of shot.now.geometry.now)) }
    ensures staged { OnOk result (IsStaged F.File (scene_of shot.now.geometry.now shot.now.depth shot.now.path.now) journal.now.changes
        stage.new store.new) }
    ensures there { OnOk result (stage.new.table.version ≡ version) }
    ensures shown { OnOk result ((b : List ℕ) → F.bytes store.old.file ≡ Some b
        → let scene = scene_of shot.now.geometry.now shot.now.depth shot.now.path.now in
        ShowsVersion (λ m x y. P.under (stored b) scene m shot.now.picture x y) scene journal.now.changes pass.now.rows.elements version
        stage.new.samples.items) }
    ensures kept { OnOk result (KeepsOthers (scene_of shot.now.geometry.now shot.now.depth shot.now.path.now) pass.now.rows.elements version
        stage.old.samples.items stage.new.samples.items) }
    ensures failed { result ≡ Err OutsideError.Failed → Rose (F.faults store.old.file) (F.faults store.new.file) }
    ensures read { IsReadOn F.File store.old store.new }
{
    stage.table.advance(shot.geometry, journal, version);
    let samples = stage.samples.as_mut_slice();
    let counts = stage.counts.as_mut_slice();
    let parts = stage.parts.as_mut_slice();
    draw_version::<Rt, P, F>(
        rt,
        parts,
        &stage.table,
        &mut stage.tiles,
        store,
        shot,
        pass.rows.slice(),
        version,
        samples,
        counts,
    )?;
    Ok(())
}

// Draws a pass of a picture: the table goes from version to version up to the last, and at each the rows that name it are drawn.
fn show_pass<Rt: Threads + Sync, P: Filter + Sync, F: File>(
    rt: &Rt,
    stage: &mut Stage,
    store: &mut Store<F>,
    journal: &Journal,
    shot: &Shot<'_>,
    pass: &PassText,
    last: u64,
) -> Result<(), OutsideError>
    requires depth { IsDepth shot.now.depth }
    requires picture { shot.now.picture < length shot.now.path.now.cameras }
    requires played { MayBePlayed shot.now.geometry.now journal.now.changes }
    requires staged { IsStaged F.File (scene_of shot.now.geometry.now shot.now.depth shot.now.path.now) journal.now.changes
        stage.old store.old }
    requires rows { AreRowsWithin shot.now.path.now.height pass.now.start last pass.now.rows.elements }
    requires forward { stage.old.table.version ≤ pass.now.start }
    requires inside { last ≤ length journal.now.changes }
    requires root { (v : ℕ) → pass.now.start ≤ v → v ≤ length journal.now.changes
        → IsSome (at journal.now.changes v (root_of shot.now.geometry.now)) }
    ensures staged { OnOk result (IsStaged F.File (scene_of shot.now.geometry.now shot.now.depth shot.now.path.now) journal.now.changes
        stage.new store.new) }
    ensures there { OnOk result (stage.new.table.version ≡ last) }
    ensures shown { OnOk result ((b : List ℕ) → F.bytes store.old.file ≡ Some b
        → stage.new.samples.items ≡ replayed_rows P.under (stored b) (scene_of shot.now.geometry.now shot.now.depth shot.now.path.now)
        journal.now.changes pass.now.rows.elements shot.now.picture shot.now.path.now.height) }
    ensures failed { result ≡ Err OutsideError.Failed → Rose (F.faults store.old.file) (F.faults store.new.file) }
    ensures read { IsReadOn F.File store.old store.new }
{
    let _newest = journal.version();
    for version in pass.start..last + 1 {
        show_version::<Rt, P, F>(rt, stage, store, journal, shot, pass, version)?;
    }
    Ok(())
}

// Draws a pass of a picture and writes the picture, with its bytes made in a buffer.
fn play_pass<Rt: Threads + Sync, P: Filter + Sync, D: Folder>(
    rt: &Rt,
    alloc: Global,
    buffer: &mut Vec<u8>,
    folder: &mut D,
    prefix: &str,
    stage: &mut Stage,
    store: &mut Store<D::File>,
    journal: &Journal,
    shot: &Shot<'_>,
    pass: &PassText,
    last: u64,
) -> Result<(), OutsideError>
    requires depth { IsDepth shot.now.depth }
    requires picture { shot.now.picture < length shot.now.path.now.cameras }
    requires played { MayBePlayed shot.now.geometry.now journal.now.changes }
    requires staged { IsStaged D.File.File (scene_of shot.now.geometry.now shot.now.depth shot.now.path.now) journal.now.changes
        stage.old store.old }
    requires rows { AreRowsWithin shot.now.path.now.height pass.now.start last pass.now.rows.elements }
    requires forward { stage.old.table.version ≤ pass.now.start }
    requires inside { last ≤ length journal.now.changes }
    requires root { (v : ℕ) → pass.now.start ≤ v → v ≤ length journal.now.changes
        → IsSome (at journal.now.changes v (root_of shot.now.geometry.now)) }
    ensures staged { OnOk result (IsStaged D.File.File (scene_of shot.now.geometry.now shot.now.depth shot.now.path.now) journal.now.changes
        stage.new store.new) }
    ensures there { OnOk result (stage.new.table.version ≡ last) }
    ensures asks { AsksNone (folder_effect D.Folder folder.old folder.new) }
    ensures wrote { (b : List ℕ) → D.File.bytes store.old.file ≡ Some b
        → HasWritten (expected_picture prefix.now (λ picture. picture_bytes shot.now.depth shot.now.path.now.width
        shot.now.path.now.height (replayed_rows P.under (stored b) (scene_of shot.now.geometry.now shot.now.depth shot.now.path.now)
        journal.now.changes pass.now.rows.elements picture shot.now.path.now.height)) shot.now.picture ∷ [])
        (D.files folder.old) (D.files folder.new) result }
    ensures failed { result ≡ Err OutsideError.Failed → Rose (D.faults folder.old) (D.faults folder.new)
        ⊎ Rose (D.File.faults store.old.file) (D.File.faults store.new.file) }
    ensures read { IsReadOn D.File.File store.old store.new }
{
    show_pass::<Rt, P, D::File>(rt, stage, store, journal, shot, pass, last)?;
    let pictures = shot.path.pictures();
    prove!(shot.picture < pictures);
    let picture = Picture {
        depth: shot.depth,
        width: shot.path.width(),
        height: shot.path.height(),
        samples: stage.samples.as_slice(),
    };
    write_picture(buffer, alloc, folder, prefix, shot.picture, &picture)
}

// Whether a pass is the last of its picture.
fn is_last(text: &JournalText, i: u32) -> bool
    requires { i < length text.now.content.passes }
    ensures last { result ≡ true → (p q : Pass) → slice_get text.now.content.passes i ≡ Some p
        → slice_get text.now.content.passes (i + 1) ≡ Some q → q.picture ≢ p.picture }
    ensures before { result ≡ false → (p : Pass) → slice_get text.now.content.passes i ≡ Some p
        → (q : Pass) × (slice_get text.now.content.passes (i + 1) ≡ Some q) × (q.picture ≡ p.picture) }
{
    if i < text.passes() - 1 {
        text.pass(i + 1).picture != text.pass(i).picture
    } else {
        true
    }
}

// The last version of a pass: that at the beginning of the next one, or the newest.
fn last_of(text: &JournalText, i: u32) -> u64
    requires { i < length text.now.content.passes }
    ensures next { (q : Pass) → slice_get text.now.content.passes (i + 1) ≡ Some q → result ≡ q.start }
    ensures newest { slice_get text.now.content.passes (i + 1) ≡ None → result ≡ length text.now.changes }
{
    if i < text.passes() - 1 {
        text.pass(i + 1).start
    } else {
        text.journal().version()
    }
}

// Draws and writes the last pass of each picture, in the order of the pictures, by way of one buffer. Answers their number.
fn play_passes<Rt: Threads + Sync, P: Filter + Sync, D: Folder>(
    rt: &Rt,
    alloc: Global,
    buffer: &mut Vec<u8>,
    folder: &mut D,
    prefix: &str,
    stage: &mut Stage,
    store: &mut Store<D::File>,
    path: &Path,
    text: &JournalText,
) -> Result<u32, OutsideError>
    requires depth { IsDepth store.old.depth }
    requires played { MayBePlayed store.old.shape text.now.changes }
    requires staged { IsStaged D.File.File (scene_of store.old.shape store.old.depth path.now) text.now.changes stage.old store.old }
    requires passes { ArePlayed path.now.height text.now.content.pinned (length text.now.changes) text.now.content.passes }
    requires root { (v : ℕ) → text.now.content.pinned ≤ v → v ≤ length text.now.changes
        → IsSome (at text.now.changes v (root_of store.old.shape)) }
    requires in_path { (i : ℕ) (pass : Pass) → slice_get text.now.content.passes i ≡ Some pass
        → pass.picture < length path.now.cameras }
    requires first { stage.old.table.version ≡ 0 }
    ensures count { IfOk result (λ n. n ≡ pictures_of text.now.content.passes) }
    ensures asks { AsksNone (folder_effect D.Folder folder.old folder.new) }
    ensures wrote { (b : List ℕ) → D.File.bytes store.old.file ≡ Some b
        → HasWritten (expected_pictures prefix.now (replay_file P.under (stored b) (scene_of store.old.shape store.old.depth path.now)
        text.now.changes text.now.content.passes) (pictures_of text.now.content.passes))
        (D.files folder.old) (D.files folder.new) result }
    ensures failed { result ≡ Err OutsideError.Failed → Rose (D.faults folder.old) (D.faults folder.new)
        ⊎ Rose (D.File.faults store.old.file) (D.File.faults store.new.file) }
    ensures read { IsReadOn D.File.File store.old store.new }
{
    let geometry = store.geometry();
    let depth = store.depth();
    let pictures = path.pictures();
    let mut done = 0;
    for i in 0..text.passes() {
        if !is_last(text, i) {
            continue;
        }
        let pass = text.pass(i);
        prove!(pass.picture < pictures);
        let shot = Shot {
            geometry: &geometry,
            path,
            picture: pass.picture,
            depth,
        };
        let last = last_of(text, i);
        let journal = text.journal();
        play_pass::<Rt, P, D>(
            rt, alloc, buffer, folder, prefix, stage, store, journal, &shot, pass, last,
        )?;
        done += 1;
    }
    Ok(done)
}

/// Draws and writes the last pass of each picture of a journal whose pictures are all in the path. Answers their number.
pub(crate) fn play<Rt: Threads + Sync, P: Filter + Sync, D: Folder>(
    rt: &Rt,
    alloc: Global,
    folder: &mut D,
    store: &mut Store<D::File>,
    path: &Path,
    text: &JournalText,
    prefix: &str,
) -> Result<u32, OutsideError>
    requires lawful { IsLawfulJournal store.old.shape path.now.height text.now.content }
    requires changes { text.now.changes ≡ content_changes store.old.shape text.now.content }
    requires in_path { (i : ℕ) (pass : Pass) → slice_get text.now.content.passes i ≡ Some pass
        → pass.picture < length path.now.cameras }
    ensures count { IfOk result (λ n. n ≡ pictures_of text.now.content.passes) }
    ensures asks { AsksNone (folder_effect D.Folder folder.old folder.new) }
    ensures wrote { (b : List ℕ) → D.File.bytes store.old.file ≡ Some b
        → HasWritten (expected_replay P.under store.old.shape store.old.depth b path.now prefix.now text.now.content)
        (D.files folder.old) (D.files folder.new) result }
    ensures failed { result ≡ Err OutsideError.Failed → Rose (D.faults folder.old) (D.faults folder.new)
        ⊎ Rose (D.File.faults store.old.file) (D.File.faults store.new.file) }
    ensures read { IsReadOn D.File.File store.old store.new }
{
    let geometry = store.geometry();
    let depth = store.depth();
    // From here on it is known that the geometry keeps its limits.
    let _side = geometry.tile();
    let journal = text.journal();
    let mut stage = first_stage(rt, alloc, &geometry, depth, path, journal)?;
    let mut buffer = Vec::new(alloc);
    play_passes::<Rt, P, D>(
        rt,
        alloc,
        &mut buffer,
        folder,
        prefix,
        &mut stage,
        store,
        path,
        text,
    )
}
