//! Pages of a texture of 4x4 texels, whose texel (x, y) is 4y+x in each channel, are brought into two frames in turn, and a row of two
//! pixels is drawn each time.

ghost use Rattle.std.specs.Prelude.{◌≡◌, ◌<◌, [], ◌∷◌, length, IsTrue};
ghost use Rattle.vt_tiles.specs.Pages.{pages_of};
ghost use Rattle.vt_pictures.specs.JournalTypes.changes.Change.TheVariants.{Map, Unmap};
ghost use Rattle.vt_swap.specs.Slots.{AreSlotsOf};

use std::alloc::Global;
use std::sync::Wait;
use vt_camera::{Path, parse_path};
use vt_outside::OpenGate;
use vt_pictures::{Nearest, Shot};
use vt_swap::{Slot, SwapStreamer, TableReader, new_cache};
use vt_tiles::Geometry;

// A picture of two pixels that want the pages 2 and 0.
const PICTURE: &[u8] = b"size 2 1\nfocal 1\nat 0 0 256 16384 0\n";

// The tiles of the pages 0 and 2, and that of the root, which is page 4.
const TILE_0: [u8; 12] = [0, 0, 0, 1, 1, 1, 4, 4, 4, 5, 5, 5];

const TILE_2: [u8; 12] = [8, 8, 8, 9, 9, 9, 12, 12, 12, 13, 13, 13];

const ROOT: [u8; 12] = [3, 3, 3, 5, 5, 5, 11, 11, 11, 13, 13, 13];

// A row that was drawn, and at which version.
type Drawn = (u64, [u8; 6]);

// Draws the row.
fn draw<R: Wait>(
    rt: &R,
    reader: TableReader,
    slots: &[Slot],
    geometry: &Geometry,
    path: &Path,
) -> (TableReader, Drawn)
    requires slots { AreSlotsOf reader.cache slots.now }
    requires pages { pages_of geometry.now ≡ 5 }
    requires pictures { length path.now.cameras ≡ 1 }
    requires width { path.now.width ≡ 2 }
    ensures { result.0.cache ≡ reader.cache }
{
    let _height = path.height();
    let shot = Shot {
        geometry,
        path,
        picture: 0,
        depth: 1,
    };
    let mut bytes = [0; 6];
    let mut counts = [0; 5];
    let mut spare = [0; 5];
    let (reader, version) = reader.draw_row::<Nearest, OpenGate, R>(
        rt,
        slots,
        &shot,
        0,
        0,
        &OpenGate,
        &mut bytes,
        &mut counts,
        &mut spare,
    );
    (reader, (version, bytes))
}

// Maps the root to frame 0.
fn bring_root<R: Wait>(rt: &R, streamer: &mut SwapStreamer, slots: &[Slot]) -> bool
    requires slots { AreSlotsOf streamer.old.cache slots.now }
    requires count { length slots.now ≡ 2 }
    requires new { streamer.old.journal ≡ [] }
    ensures cache { streamer.new.cache ≡ streamer.old.cache }
    ensures mapped { IsTrue result → streamer.new.journal ≡ Map 4 0 ∷ [] }
{
    match streamer.map(rt, slots, 4, 0, &ROOT, 1, 4) {
        Ok(()) => true,
        Err(_) => false,
    }
}

// Brings page 2 into frame 1, which is free.
fn bring_first<R: Wait>(rt: &R, streamer: &mut SwapStreamer, slots: &[Slot]) -> bool
    requires slots { AreSlotsOf streamer.old.cache slots.now }
    requires count { length slots.now ≡ 2 }
    requires rooted { streamer.old.journal ≡ Map 4 0 ∷ [] }
    ensures cache { streamer.new.cache ≡ streamer.old.cache }
    ensures mapped { IsTrue result → streamer.new.journal ≡ Map 4 0 ∷ Map 2 1 ∷ [] }
{
    match streamer.bring(rt, slots, 2, 1, None, &TILE_2, 1, 4, &OpenGate) {
        Ok(()) => true,
        Err(_) => false,
    }
}

// Brings page 0 into frame 1, from which page 2 is unmapped before.
fn bring_second<R: Wait>(rt: &R, streamer: &mut SwapStreamer, slots: &[Slot]) -> bool
    requires slots { AreSlotsOf streamer.old.cache slots.now }
    requires count { length slots.now ≡ 2 }
    requires first { streamer.old.journal ≡ Map 4 0 ∷ Map 2 1 ∷ [] }
    ensures cache { streamer.new.cache ≡ streamer.old.cache }
{
    match streamer.bring(rt, slots, 0, 1, Some(2), &TILE_0, 1, 4, &OpenGate) {
        Ok(()) => true,
        Err(_) => false,
    }
}

// Whether the row is drawn as it is to be after each step.
fn is_drawn_after_each<R: Wait>(
    rt: &R,
    streamer: &mut SwapStreamer,
    slots: &[Slot],
    reader: TableReader,
    geometry: &Geometry,
    path: &Path,
) -> bool
    requires slots { AreSlotsOf streamer.old.cache slots.now }
    requires cache { reader.cache ≡ streamer.old.cache }
    requires count { length slots.now ≡ 2 }
    requires new { streamer.old.journal ≡ [] }
    requires pages { pages_of geometry.now ≡ 5 }
    requires pictures { length path.now.cameras ≡ 1 }
    requires width { path.now.width ≡ 2 }
{
    if !bring_root(rt, streamer, slots) {
        return false;
    }
    let (reader, root) = draw(rt, reader, slots, geometry, path);
    if !bring_first(rt, streamer, slots) {
        return false;
    }
    let (reader, first) = draw(rt, reader, slots, geometry, path);
    if !bring_second(rt, streamer, slots) {
        return false;
    }
    let (reader, second) = draw(rt, reader, slots, geometry, path);
    let (reader, version, entry) = reader.entry(rt, 2);
    reader.is_known_to(streamer)
        && root == (1, [11, 11, 11, 3, 3, 3])
        && first == (2, [13, 13, 13, 3, 3, 3])
        && second == (4, [11, 11, 11, 1, 1, 1])
        && version == 4
        && entry == Some(0)
}

// Whether it is so with a new cache of five pages and two frames.
fn is_true<R: Wait>(rt: &R, alloc: Global) -> bool {
    let Ok(geometry) = Geometry::new(4, 4, 2) else {
        return false;
    };
    let Ok(path) = parse_path(alloc, PICTURE) else {
        return false;
    };
    if geometry.page_count() != 5 || path.pictures() != 1 || path.width() != 2 {
        return false;
    }
    let Ok((mut streamer, slots, mut readers)) = new_cache(rt, alloc, 5, 2, 1) else {
        return false;
    };
    let is_so = match readers.pop() {
        Some(reader) => is_drawn_after_each(
            rt,
            &mut streamer,
            slots.slice(),
            reader,
            &geometry,
            &path,
        ),
        None => false,
    };
    streamer.end(rt);
    is_so
}

#[test]
fn rows_are_drawn_at_the_version_that_was_published_last(rt: HostRuntime) {
    assert!(&rt; is_true(&rt, rt.alloc()));
}
