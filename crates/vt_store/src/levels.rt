//! Writing the levels behind the first, each of which is halved while its rows of tiles are written.
ghost use Rattle.std.specs.Prelude.{◌≡◌, ◌⊎◌, ℕ, ◌+◌, ◌*◌, ◌%◌, ◌<◌, ◌≤◌, List, Option, length, take, min, option_map, IfOk, OnOk, OnErr, IsErrOf};
ghost use Rattle.vt_definitions.specs.Depths.{AreBytes};
ghost use Rattle.vt_definitions.specs.Sides.{side};
ghost use Rattle.vt_definitions.specs.Texels.{Source};
ghost use Rattle.vt_outside.specs.Counts.{Rose};
ghost use Rattle.vt_outside.specs.Files.{Files, IsThere, with_appended, with_bytes};
ghost use Rattle.vt_ppm.specs.Image.{ImageView, IsLawfulImage};
ghost use Rattle.vt_mip.specs.Halves.{IsHalf};
ghost use Rattle.vt_mip.specs.InPlace.{ShrinksFront};
ghost use Rattle.vt_pages.specs.Pages.{pages_of, pages_below, levels_of, columns_at, rows_at, index_at};
ghost use Rattle.vt_store.specs.ChainStores.{AddsPages, AddsPart, HasLevelTexels, IsHalvedLevelOf, level_source};
ghost use Rattle.vt_tiles.specs.Format.{tile_length, tiles_bytes};

use crate::write::{put_tiles, size_inside, threads_for_row, tile_columns};
use std::alloc::Global;
use std::thread::{Threads, join_mut};
use vt_mip::Shrinking;
use vt_outside::{Folder, OutsideError};
use vt_pages::{Geometry, PageName};
use vt_ppm::{Image, samples_are_bytes};
use vt_tiles::tile_length;

// Adds a row of tiles to the name, and halves so many rows of texels of their level: meanwhile, where that is worth a thread.
fn add_and_take<Rt: Threads, D: Folder>(
    rt: &Rt,
    processors: usize,
    texels: &mut Shrinking,
    count: u32,
    tiles: &[u8],
    folder: &mut D,
    name: &str,
) -> Result<(), OutsideError>
    requires inside { texels.old.taken + count ≤ texels.old.height }
    requires even { texels.old.taken % 2 ≡ 0 }
    requires pairs { (count % 2 ≡ 0) ⊎ (texels.old.taken + count ≡ texels.old.height) }
    ensures files { OnOk result (D.files folder.new ≡ option_map (with_appended name.now tiles.now) (D.files folder.old)) }
    ensures part { OnErr result ((k : ℕ) × (D.files folder.new ≡ option_map (with_appended name.now (take k tiles.now)) (D.files folder.old))) }
    ensures failed { IsErrOf result OutsideError.Failed → IsThere (D.files folder.old) name.now → Rose (D.faults folder.old) (D.faults folder.new) }
    ensures asked { D.asked folder.new ≡ D.asked folder.old }
    ensures faults { D.faults folder.old ≤ D.faults folder.new }
    ensures taken { texels.new.taken ≡ texels.old.taken + count }
    ensures depth { texels.new.depth ≡ texels.old.depth }
    ensures width { texels.new.width ≡ texels.old.width }
    ensures height { texels.new.height ≡ texels.old.height }
    ensures halves { (p : ImageView) → ShrinksFront p texels.old → ShrinksFront p texels.new }
{
    if threads_for_row(processors, tiles.len()) < 2 {
        texels.take(count);
        return folder.append(name, tiles);
    }
    let (_, added) = join_mut(
        rt,
        &mut || -> ()
            requires { (texels.now.taken + count ≤ texels.now.height) × (texels.now.taken % 2 ≡ 0)
                × ((count % 2 ≡ 0) ⊎ (texels.now.taken + count ≡ texels.now.height)) }
            ensures { (texels.exit.now.taken ≡ texels.entry.now.taken + count) × (texels.exit.now.depth ≡ texels.entry.now.depth)
                × (texels.exit.now.width ≡ texels.entry.now.width) × (texels.exit.now.height ≡ texels.entry.now.height)
                × ((p : ImageView) → ShrinksFront p texels.entry.now → ShrinksFront p texels.exit.now) }
        { texels.take(count) },
        &mut || -> Result<(), OutsideError>
            ensures { OnOk result (D.files folder.exit.now ≡ option_map (with_appended name.entry.now tiles.entry.now) (D.files folder.entry.now))
                × OnErr result ((k : ℕ) × (D.files folder.exit.now
                ≡ option_map (with_appended name.entry.now (take k tiles.entry.now)) (D.files folder.entry.now)))
                × (IsErrOf result OutsideError.Failed → IsThere (D.files folder.entry.now) name.entry.now
                → Rose (D.faults folder.entry.now) (D.faults folder.exit.now))
                × (D.asked folder.exit.now ≡ D.asked folder.entry.now) × (D.faults folder.entry.now ≤ D.faults folder.exit.now) }
        { folder.append(name, tiles) },
    );
    added
}

// Adds a row of tiles of a level to the name, and halves the rows of texels on which it lies.
fn write_row<Rt: Threads, D: Folder>(
    rt: &Rt,
    processors: usize,
    texels: &mut Shrinking,
    geometry: &Geometry,
    level: u32,
    strip: u32,
    tiles: &mut [u8],
    folder: &mut D,
    name: &str,
) -> Result<(), OutsideError>
    requires level { level < levels_of geometry.now }
    requires strip { strip < rows_at geometry.now level }
    requires width { texels.old.width ≡ side geometry.now.width level }
    requires height { texels.old.height ≡ side geometry.now.height level }
    requires room { length tiles.old ≡ columns_at geometry.now level * tile_length geometry.now texels.old.depth }
    requires taken { texels.old.taken ≡ strip * geometry.now.tile }
    ensures whole { OnOk result ((p : ImageView) (src : Source) → IsHalvedLevelOf src level p texels.old → D.files folder.new
        ≡ option_map (with_appended name.now (tiles_bytes geometry.now p.depth src (index_at geometry.now level 0 strip)
        (columns_at geometry.now level))) (D.files folder.old)) }
    ensures part { OnErr result ((p : ImageView) (src : Source) → IsHalvedLevelOf src level p texels.old → (k : ℕ) × (D.files folder.new
        ≡ option_map (with_appended name.now (take k (tiles_bytes geometry.now p.depth src (index_at geometry.now level 0 strip)
        (columns_at geometry.now level)))) (D.files folder.old))) }
    ensures halves { (p : ImageView) → ShrinksFront p texels.old → ShrinksFront p texels.new }
    ensures taken { texels.new.taken ≡ min ((strip + 1) * geometry.now.tile) texels.old.height }
    ensures depth { texels.new.depth ≡ texels.old.depth }
    ensures width { texels.new.width ≡ texels.old.width }
    ensures height { texels.new.height ≡ texels.old.height }
    ensures failed { IsErrOf result OutsideError.Failed → IsThere (D.files folder.old) name.now → Rose (D.faults folder.old) (D.faults folder.new) }
    ensures asked { D.asked folder.new ≡ D.asked folder.old }
    ensures faults { D.faults folder.old ≤ D.faults folder.new }
{
    let _ = geometry.tile();
    let page = geometry.index_of(&PageName {
        level,
        col: 0,
        row: strip,
    });
    let (_, inside) = size_inside(geometry, page);
    let columns = tile_columns(geometry, level);
    let depth = texels.depth();
    put_tiles(
        tiles,
        texels.rows(inside as u32),
        depth,
        geometry,
        page,
        columns,
    );
    add_and_take(rt, processors, texels, inside as u32, tiles, folder, name)
}

// Adds the tiles of a level to the name, one row of tiles an append, and answers the next level's image, which takes its memory. The buffer has the length of
// the longest row of tiles.
fn write_level<Rt: Threads, D: Folder>(
    rt: &Rt,
    alloc: Global,
    processors: usize,
    image: Image,
    geometry: &Geometry,
    level: u32,
    tiles: &mut [u8],
    folder: &mut D,
    name: &str,
) -> Result<Image, OutsideError>
    requires level { level < levels_of geometry.now }
    requires width { image.width ≡ side geometry.now.width level }
    requires height { image.height ≡ side geometry.now.height level }
    requires room { length tiles.old ≡ columns_at geometry.now 0 * tile_length geometry.now image.depth }
    ensures whole { OnOk result ((src : Source) → HasLevelTexels src level image → AddsPages geometry.now image.depth src
        (pages_below geometry.now level) (pages_below geometry.now (level + 1)) name.now (D.files folder.old) (D.files folder.new)) }
    ensures part { OnErr result ((D.files folder.new ≡ D.files folder.old) ⊎ ((src : Source) → HasLevelTexels src level image
        → AddsPart geometry.now image.depth src (pages_below geometry.now level) name.now (D.files folder.old) (D.files folder.new))) }
    ensures half { IfOk result (λ next. IsHalf image next) }
    ensures lawful { IfOk result (λ next. IsLawfulImage next) }
    ensures bytes { AreBytes image.samples }
    ensures failed { IsErrOf result OutsideError.Failed → (before : Option Files) (done : List ℕ)
        → D.files folder.old ≡ option_map (with_bytes name.now done) before → Rose (D.faults folder.old) (D.faults folder.new) }
    ensures asked { D.asked folder.new ≡ D.asked folder.old }
    ensures faults { D.faults folder.old ≤ D.faults folder.new }
{
    samples_are_bytes(&image);
    let depth = image.depth();
    let (height, side) = (image.height(), geometry.tile());
    let mut texels = Shrinking::new(alloc, image)?;
    let columns = tile_columns(geometry, level);
    let row = &mut tiles[..columns as usize * tile_length(geometry, depth)];
    for strip in 0..(height + side - 1) / side {
        write_row(
            rt,
            processors,
            &mut texels,
            geometry,
            level,
            strip,
            row,
            folder,
            name,
        )?;
    }
    Ok(texels.finish())
}

/// Adds the tiles of all levels but the first to the name, where the image is level 1. The buffer has the length of the longest row
/// of tiles.
pub(crate) fn write_levels<Rt: Threads, D: Folder>(
    rt: &Rt,
    alloc: Global,
    processors: usize,
    image: Image,
    geometry: &Geometry,
    tiles: &mut [u8],
    folder: &mut D,
    name: &str,
) -> Result<(), OutsideError>
    requires width { image.width ≡ side geometry.now.width 1 }
    requires height { image.height ≡ side geometry.now.height 1 }
    requires room { length tiles.old ≡ columns_at geometry.now 0 * tile_length geometry.now image.depth }
    ensures whole { OnOk result (AddsPages geometry.now image.depth (level_source (record { base = image; tile = geometry.now.tile }) 1)
        (pages_below geometry.now 1) (pages_of geometry.now) name.now (D.files folder.old) (D.files folder.new)) }
    ensures part { OnErr result ((D.files folder.new ≡ D.files folder.old)
        ⊎ AddsPart geometry.now image.depth (level_source (record { base = image; tile = geometry.now.tile }) 1)
        (pages_below geometry.now 1) name.now (D.files folder.old) (D.files folder.new)) }
    ensures failed { IsErrOf result OutsideError.Failed → (before : Option Files) (done : List ℕ)
        → D.files folder.old ≡ option_map (with_bytes name.now done) before → Rose (D.faults folder.old) (D.faults folder.new) }
    ensures asked { D.asked folder.new ≡ D.asked folder.old }
    ensures faults { D.faults folder.old ≤ D.faults folder.new }
{
    let _ = geometry.levels();
    let _ = image.width();
    let mut next = image;
    for level in 1..geometry.levels() {
        next = write_level(
            rt, alloc, processors, next, geometry, level, tiles, folder, name,
        )?;
    }
    Ok(())
}
