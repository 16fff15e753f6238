//! The rows of a version in parts, drawn beside one another over the loaded tiles.

ghost use Rattle.std.specs.Prelude.{◌≡◌, ℕ, true, ◌+◌, ◌*◌, ◌<◌, ◌≤◌, ◌^◌, Bool, List, Option, length, slice_index, OnOk};
ghost use Rattle.std.specs.Thread.{IsSync};
ghost use Rattle.vt_definitions.specs.Depths.{IsDepth, texel_length};
ghost use Rattle.vt_outside.specs.Counts.{Rose};
ghost use Rattle.vt_pages.specs.Pages.{pages_of};
ghost use Rattle.vt_journal.specs.Kept.{entries_of};
ghost use Rattle.vt_pictures.specs.Scenes.{scene_of};
ghost use Rattle.vt_replay_rows.specs.Following.{IsReadOn, IsReplayReady};
ghost use Rattle.vt_replay_rows.specs.ReplayLookups.{IsReplayLookup, AreTiles};
ghost use Rattle.vt_replay_rows.specs.Trying.{replay_lookup_of, ShowsRow, AreTried, MayTry, HasTriedRows};

use crate::draw::{Tried, bring_all, clear, try_line};
use crate::noted::Gathered;
use crate::replay_lookup::ReplayLookup;
use crate::table::PageTable;
use crate::tiles::Tiles;
use std::alloc::Global;
use std::thread::{Threads, join_mut};
use vt_definitions::texel_length;
use vt_outside::{File, NoMemory, OutsideError};
use vt_pages::Geometry;
use vt_pictures::{Filter, Path, Shot};
use vt_threads::{REPLAYING_TIME, processors, share, threads_for};
use vt_tiles::Store;

// How many rows a part leaves out behind one that missed a tile, for they mostly miss it too.
const ROWS_LEFT_OUT: u32 = 7;

// How often the rows that are left are drawn in parts. Each time the tiles that were missed are read.
const ROUNDS: u32 = 4;

// What the rows of a part were drawn with, and missed.
#[derive(Clone, Copy)]
struct Seen {
    used: Gathered,
    missing: Gathered,
    // How many rows are left out yet.
    out: u32,
}

impl Seen {
    // Nothing was drawn.
    fn new() -> Seen {
        Seen {
            used: Gathered::new(),
            missing: Gathered::new(),
            out: 0,
        }
    }

    // Whether the next row is drawn now: if it is left to be drawn, and not left out.
    fn is_expected(&mut self, left: bool) -> bool
        ensures { result ≡ true → left ≡ true }
    {
        if self.out > 0 {
            self.out -= 1;
            return false;
        }
        left
    }

    // Notes what came of a row.
    fn note(&mut self, tried: &Tried) {
        self.used.add(&tried.used);
        self.missing.add(&tried.missing);
        if tried.missed {
            self.out = ROWS_LEFT_OUT;
        }
    }
}

/// What one of several threads draws rows with: a count for each page, as scratch room, and what it found. Nothing rests on either.
#[derive(Drop)]
pub struct Part {
    counts: Vec<u32>,
    seen: Seen,
}

/// A part for each thread that pictures of a path are worth, or none where they are not worth two.
pub fn parts_for<Rt: Threads>(
    rt: &Rt,
    alloc: Global,
    geometry: &Geometry,
    path: &Path,
) -> Result<Vec<Part>, NoMemory> {
    let pixels = u64::from(path.width()) * u64::from(path.height());
    let threads = threads_for(processors(rt), pixels * REPLAYING_TIME);
    let mut parts = Vec::new(alloc);
    if threads < 2 {
        return Ok(parts);
    }
    for _ in 0..threads {
        parts.push(Part {
            counts: Vec::from_elem(alloc, 0, geometry.page_count() as usize)?,
            seen: Seen::new(),
        })?;
    }
    Ok(parts)
}

// Draws row k of those from a first one on, if it is left to be drawn and not left out.
fn try_next<P: Filter>(
    replay_lookup: &ReplayLookup<'_>,
    shot: &Shot,
    first: u32,
    k: usize,
    seen: &mut Seen,
    left: &mut [bool],
    samples: &mut [u8],
    counts: &mut [u32],
)
    requires may { MayTry shot.now replay_lookup.now first (length left.old) (length samples.old) }
    requires within { k < length left.old }
    requires pages { length counts.old ≡ pages_of shot.now.geometry.now }
    requires room { (p : ℕ) → p < length counts.old → slice_index counts.old p + 4 * shot.now.path.now.width < 2 ^ 32 }
    ensures tried { HasTriedRows P.under shot.now replay_lookup.now first left.old left.new samples.old samples.new }
    ensures counted { (p : ℕ) → p < length counts.new
        → slice_index counts.new p ≤ slice_index counts.old p + 4 * shot.now.path.now.width }
{
    if !seen.is_expected(left[k]) {
        return;
    }
    // From here on it is known how many rows a picture has at most.
    let _height = shot.path.height();
    let line = texel_length(shot.depth) * shot.path.width() as usize;
    let at = k * line;
    let y = first + k as u32;
    let tried = try_line::<P>(replay_lookup, shot, y, &mut samples[at..at + line], counts);
    seen.note(&tried);
    left[k] = tried.missed;
}

// Draws the rows of a part that are left, as far as the loaded tiles go. The counts are scratch room.
fn try_rows<P: Filter>(
    replay_lookup: &ReplayLookup<'_>,
    shot: &Shot,
    first: u32,
    seen: &mut Seen,
    left: &mut [bool],
    samples: &mut [u8],
    counts: &mut [u32],
)
    requires may { MayTry shot.now replay_lookup.now first (length left.old) (length samples.old) }
    requires pages { length counts.old ≡ pages_of shot.now.geometry.now }
    ensures { HasTriedRows P.under shot.now replay_lookup.now first left.old left.new samples.old samples.new }
{
    clear(counts);
    let width = shot.path.width();
    let height = shot.path.height();
    // So no count comes near the end of its type.
    prove!(width <= 2048 && height <= 2048);
    for k in 0..left.len() {
        try_next::<P>(replay_lookup, shot, first, k, seen, left, samples, counts);
    }
}

// Draws the rows of a part with what one thread has. Each thread has a count for each page: where it had not, the rows were left.
fn try_part<P: Filter>(
    replay_lookup: &ReplayLookup<'_>,
    shot: &Shot,
    first: u32,
    part: &mut Part,
    left: &mut [bool],
    samples: &mut [u8],
)
    requires { MayTry shot.now replay_lookup.now first (length left.old) (length samples.old) }
    ensures { HasTriedRows P.under shot.now replay_lookup.now first left.old left.new samples.old samples.new }
{
    part.seen = Seen::new();
    let counts = part.counts.as_mut_slice();
    if counts.len() != shot.geometry.page_count() as usize {
        return;
    }
    try_rows::<P>(
        replay_lookup,
        shot,
        first,
        &mut part.seen,
        left,
        samples,
        counts,
    );
}

// How many rows are left.
fn count_left(left: &[bool]) -> usize
    ensures { result ≤ length left.now }
{
    let mut count = 0;
    for k in 0..left.len() {
        if left[k] {
            count += 1;
        }
    }
    count
}

// The place before which so many of the rows stand that are left.
fn place_behind(left: &[bool], count: usize) -> usize
    ensures { result ≤ length left.now }
{
    let mut before = 0;
    for k in 0..left.len() {
        if before == count {
            return k;
        }
        if left[k] {
            before += 1;
        }
    }
    left.len()
}

// Draws the rows that are left as far as the loaded tiles go, in so many parts, by halves, each with about as many of these rows. Where
// no thread can be made, one part is drawn after the other.
fn try_beside<Rt: Threads + Sync, P: Filter + Sync>(
    rt: &Rt,
    lookup: &ReplayLookup<'_>,
    shot: &Shot<'_>,
    first: u32,
    threads: usize,
    parts: &mut [Part],
    left: &mut [bool],
    samples: &mut [u8],
)
    requires may { MayTry shot.now lookup.now first (length left.old) (length samples.old) }
    requires threads { (1 ≤ threads) × (threads ≤ length parts.old) }
    ensures tried { HasTriedRows P.under shot.now lookup.now first left.old left.new samples.old samples.new }
{
    if threads < 2 {
        try_part::<P>(lookup, shot, first, &mut parts[0], left, samples);
        return;
    }
    // From here on it is known how many rows a picture has at most.
    let _height = shot.path.height();
    let line = texel_length(shot.depth) * shot.path.width() as usize;
    let few = threads / 2;
    let many = threads - few;
    let cut = place_behind(left, share(count_left(left), threads, few));
    let next = first + cut as u32;
    let (low_parts, high_parts) = parts.split_at_mut(few);
    let (low_left, high_left) = left.split_at_mut(cut);
    let (low, high) = samples.split_at_mut(cut * line);
    join_mut(
        rt,
        &mut || -> ()
            requires { IsSync Rt.row × IsSync P.row × (1 ≤ few) × (few ≤ length low_parts.now)
                × MayTry shot.now lookup.now first (length low_left.now) (length low.now) }
            ensures { HasTriedRows P.under shot.entry.now lookup.entry.now first low_left.entry.now low_left.exit.now
                low.entry.now low.exit.now }
        { try_beside::<Rt, P>(rt, lookup, shot, first, few, low_parts, low_left, low) },
        &mut || -> ()
            requires { IsSync Rt.row × IsSync P.row × (1 ≤ many) × (many ≤ length high_parts.now)
                × MayTry shot.now lookup.now next (length high_left.now) (length high.now) }
            ensures { HasTriedRows P.under shot.entry.now lookup.entry.now next high_left.entry.now
                high_left.exit.now high.entry.now high.exit.now }
        { try_beside::<Rt, P>(rt, lookup, shot, next, many, high_parts, high_left, high) },
    );
}

// Draws the rows of a picture that are left over a table and the loaded tiles, in so many parts.
fn try_in_parts<Rt: Threads + Sync, P: Filter + Sync>(
    rt: &Rt,
    table: &PageTable,
    tiles: &Tiles,
    shot: &Shot<'_>,
    threads: usize,
    parts: &mut [Part],
    left: &mut [bool],
    samples: &mut [u8],
)
    requires replay_lookup { IsReplayLookup (replay_lookup_of shot.now.geometry.now shot.now.depth table.now tiles.now) }
    requires picture { shot.now.picture < length shot.now.path.now.cameras }
    requires rows { length left.old ≡ shot.now.path.now.height }
    requires bytes { length samples.old ≡ shot.now.path.now.height * (texel_length shot.now.depth * shot.now.path.now.width) }
    requires threads { (1 ≤ threads) × (threads ≤ length parts.old) }
    ensures { HasTriedRows P.under shot.now (replay_lookup_of shot.now.geometry.now shot.now.depth table.now tiles.now) 0
        left.old left.new samples.old samples.new }
{
    let replay_lookup = ReplayLookup::new(shot.geometry, table, tiles, shot.depth);
    try_beside::<Rt, P>(rt, &replay_lookup, shot, 0, threads, parts, left, samples);
}

// Makes the tiles that parts were drawn with the most recently used ones.
fn touch_used(tiles: &mut Tiles, parts: &[Part])
    ensures size { tiles.new.size ≡ tiles.old.size }
    ensures slots { tiles.new.slots.items ≡ tiles.old.slots.items }
    ensures owners { tiles.new.owners.items ≡ tiles.old.owners.items }
    ensures bytes { tiles.new.bytes.items ≡ tiles.old.bytes.items }
{
    for part in parts {
        tiles.touch_all(part.seen.used.pages());
    }
}

// Brings the tiles that parts missed into the set.
fn bring_missing<F: File>(
    tiles: &mut Tiles,
    store: &mut Store<F>,
    parts: &[Part],
) -> Result<(), OutsideError>
    requires tiles { AreTiles store.old.shape store.old.depth tiles.old.size tiles.old.slots.items tiles.old.owners.items
        tiles.old.bytes.items (F.bytes store.old.file) }
    ensures tiles { OnOk result (AreTiles store.old.shape store.old.depth tiles.new.size tiles.new.slots.items
        tiles.new.owners.items tiles.new.bytes.items (F.bytes store.old.file)) }
    ensures failed { result ≡ Err OutsideError.Failed → Rose (F.faults store.old.file) (F.faults store.new.file) }
    ensures read { IsReadOn F.File store.old store.new }
{
    for part in parts {
        bring_all(tiles, store, part.seen.missing.pages())?;
    }
    Ok(())
}

// How many threads the rows that are left are worth, of pictures so wide.
fn threads_for_rows(parts: &[Part], left: &[bool], width: u32) -> usize
    ensures { result ≤ length parts.now }
{
    let pixels = (count_left(left) as u64).saturating_mul(u64::from(width));
    let threads = threads_for(parts.len(), pixels.saturating_mul(REPLAYING_TIME));
    threads.min(parts.len())
}

/// Draws rows of a picture that are left, over the table of a version, in parts beside one another, as long as they are worth more than one
/// thread: the tiles that they missed are read, and then the rows are drawn again that missed them. Some rows may still be left.
pub(crate) fn draw_beside<Rt: Threads + Sync, P: Filter + Sync, F: File>(
    rt: &Rt,
    parts: &mut [Part],
    table: &PageTable,
    tiles: &mut Tiles,
    store: &mut Store<F>,
    shot: &Shot<'_>,
    left: &mut [bool],
    samples: &mut [u8],
) -> Result<(), OutsideError>
    requires depth { IsDepth shot.now.depth }
    requires picture { shot.now.picture < length shot.now.path.now.cameras }
    requires rows { length left.old ≡ shot.now.path.now.height }
    requires bytes { length samples.old ≡ shot.now.path.now.height * (texel_length shot.now.depth * shot.now.path.now.width) }
    requires ready { IsReplayReady F.File shot.now.geometry.now shot.now.depth table.now.entries.items
        tiles.old.size tiles.old.slots.items tiles.old.owners.items tiles.old.bytes.items store.old }
    ensures ready { OnOk result (IsReplayReady F.File shot.now.geometry.now shot.now.depth table.now.entries.items
        tiles.new.size tiles.new.slots.items tiles.new.owners.items tiles.new.bytes.items store.new) }
    ensures tried { OnOk result (AreTried (texel_length shot.now.depth * shot.now.path.now.width) 0
        (ShowsRow P.under (scene_of shot.now.geometry.now shot.now.depth shot.now.path.now)
        (entries_of table.now.entries.items) (F.bytes store.old.file) shot.now.picture)
        left.old left.new samples.old samples.new) }
    ensures failed { result ≡ Err OutsideError.Failed → Rose (F.faults store.old.file) (F.faults store.new.file) }
    ensures read { IsReadOn F.File store.old store.new }
{
    for _round in 0..ROUNDS {
        let threads = threads_for_rows(parts, left, shot.path.width());
        if threads < 2 {
            break;
        }
        try_in_parts::<Rt, P>(rt, table, tiles, shot, threads, parts, left, samples);
        let drawn = &parts[..threads];
        touch_used(tiles, drawn);
        bring_missing(tiles, store, drawn)?;
    }
    Ok(())
}
