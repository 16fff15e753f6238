//! The rows of a sampler.

ghost use Rattle.std.specs.Prelude.{◌≡◌, ℕ, ◌+◌, ◌*◌, ◌<◌, ◌≤◌, ◌^◌, length, slice_index};
ghost use Rattle.vt_definitions.specs.Limits.{most_samplers};
ghost use Rattle.vt_definitions.specs.Dealing.{sampler_of, own_count};
ghost use Rattle.vt_definitions.specs.Depths.{IsDepth, texel_length};
ghost use Rattle.vt_pages.specs.Pages.{pages_of};
ghost use Rattle.vt_lookup.specs.Shots.{shot_row, AreDrawn, AreCounted, pixels_in_rows};
ghost use Rattle.vt_sampler.specs.Notes.{IsTrueOf, TableMapsRoot};
ghost use Rattle.vt_sampler.specs.Samplers.{own_rows, row_in, row_length};
ghost use Rattle.vt_sampler.specs.StillTurns.{HasDrawnStill};

use crate::held_rows::HeldRows;
use crate::lookup::StillLookup;
use crate::turns::{Turns, draw_all};
use vt_definitions::{dealt_row, own_count, texel_length};
use vt_lookup::{Shot, draw_row};
use vt_table::StillTable;

// The rows of a picture that a sampler is dealt, over a table that changes only between draws.
#[derive(Drop)]
struct StillTurns<'a> {
    table: &'a StillTable,
    shot: &'a Shot<'a>,
    sampler: u32,
    samplers: u32,
    // How many bytes a row has.
    line: usize,
}

// Draws row y of a picture over a table.
fn draw_one_row(table: &StillTable, shot: &Shot, y: u32, out: &mut [u8], counts: &mut [u32])
    requires depth { IsDepth shot.now.depth }
    requires picture { shot.now.picture < length shot.now.path.now.cameras }
    requires within { y < shot.now.path.now.height }
    requires bytes { length out.old ≡ texel_length shot.now.depth * shot.now.path.now.width }
    requires pages { length counts.old ≡ pages_of shot.now.geometry.now }
    requires room { (p : ℕ) → p < length counts.old → slice_index counts.old p + shot.now.path.now.width < 2 ^ 32 }
    requires shape { table.now.shape ≡ shot.now.geometry.now }
    requires root { TableMapsRoot table.now }
    ensures drawn { let row = shot_row shot.now.geometry.now shot.now.path.now shot.now.picture y in
        AreDrawn shot.now.geometry.now shot.now.depth (length table.now.changes) (IsTrueOf table.now) row
        shot.now.path.now.width out.new }
    ensures counted { let row = shot_row shot.now.geometry.now shot.now.path.now shot.now.picture y in
        AreCounted shot.now.geometry.now row shot.now.path.now.width counts.old counts.new }
{
    let mut lookup = StillLookup::new(table, shot.geometry);
    draw_row(&mut lookup, shot, y, out, counts);
}

/// Sets the count of each page to 0.
pub(crate) fn clear(counts: &mut [u32])
    ensures { (p : ℕ) → p < length counts.new → slice_index counts.new p ≡ 0 }
{
    counts.fill(0);
}

/// Sets the version of each row.
pub(crate) fn set_all(versions: &mut [u64], version: u64)
    ensures { (i : ℕ) → i < length versions.new → slice_index versions.new i ≡ version }
{
    versions.fill(version);
}

// Draws the row of a turn, and counts its pixels.
fn draw_turn(turns: &StillTurns, turn: u32, bytes: &mut [u8], counts: &mut [u32])
    requires drew { HasDrawnStill turns.now.table.now turns.now.shot.now.geometry.now turns.now.shot.now.path.now turns.now.shot.now.picture
        turns.now.shot.now.depth turns.now.sampler turns.now.samplers turns.now.line turn bytes.old counts.old }
    requires left { turn < own_count turns.now.sampler turns.now.samplers turns.now.shot.now.path.now.height }
    ensures { HasDrawnStill turns.now.table.now turns.now.shot.now.geometry.now turns.now.shot.now.path.now turns.now.shot.now.picture
        turns.now.shot.now.depth turns.now.sampler turns.now.samplers turns.now.line (turn + 1) bytes.new counts.new }
{
    let y = dealt_row(turns.sampler, turn, turns.samplers);
    let at = turn as usize * turns.line;
    let row = &mut bytes[at..at + turns.line];
    draw_one_row(turns.table, turns.shot, y, row, counts);
}

impl<'a> Turns for StillTurns<'a> {
    ghost use Rattle.std.specs.Prelude.{◌≡◌};
    ghost use Rattle.vt_definitions.specs.Dealing.{own_count};
    ghost use Rattle.vt_sampler.specs.StillTurns.{HasDrawnStill};

    type State = HeldRows;

    ghost most = { λ t. own_count t.sampler t.samplers t.shot.now.path.now.height };

    ghost drew = { λ t n a b. HasDrawnStill t.table.now t.shot.now.geometry.now t.shot.now.path.now t.shot.now.picture t.shot.now.depth
        t.sampler t.samplers t.line n b.bytes.items b.counts.items × (b.versions.items ≡ a.versions.items) };

    ghost drew_all = { λ t a b. HasDrawnStill t.table.now t.shot.now.geometry.now t.shot.now.path.now t.shot.now.picture t.shot.now.depth
        t.sampler t.samplers t.line (own_count t.sampler t.samplers t.shot.now.path.now.height) b.bytes.items b.counts.items
        × (b.versions.items ≡ a.versions.items) };

    fn draw_next(&self, turn: u32, state: &mut HeldRows) -> bool {
        draw_turn(
            self,
            turn,
            state.bytes.as_mut_slice(),
            state.counts.as_mut_slice(),
        );
        true
    }

    ghost all_drawn = { λ t a b drew. drew };
}

/// Draws the rows of a sampler of a picture over a table, one after the other, and counts their pixels.
pub(crate) fn draw_rows(
    table: &StillTable,
    shot: &Shot,
    sampler: u32,
    samplers: u32,
    rows: &mut HeldRows,
)
    requires one_of { sampler < samplers }
    requires few { samplers ≤ most_samplers }
    requires depth { IsDepth shot.now.depth }
    requires picture { shot.now.picture < length shot.now.path.now.cameras }
    requires bytes { length rows.old.bytes.items ≡ own_count sampler samplers shot.now.path.now.height
        * row_length shot.now.depth shot.now.path.now.width }
    requires pages { length rows.old.counts.items ≡ pages_of shot.now.geometry.now }
    requires none { (p : ℕ) → p < length rows.old.counts.items → slice_index rows.old.counts.items p ≡ 0 }
    requires shape { table.now.shape ≡ shot.now.geometry.now }
    requires root { TableMapsRoot table.now }
    ensures drawn { (y : ℕ) → y < shot.now.path.now.height → sampler_of y samplers ≡ sampler
        → let row = shot_row shot.now.geometry.now shot.now.path.now shot.now.picture y in
        let line = row_length shot.now.depth shot.now.path.now.width in
        AreDrawn shot.now.geometry.now shot.now.depth (length table.now.changes) (IsTrueOf table.now) row
        shot.now.path.now.width (row_in samplers line rows.new.bytes.items y) }
    ensures counted { (p : ℕ) → p < length rows.new.counts.items
        → let own = own_rows sampler samplers shot.now.path.now.height in
        slice_index rows.new.counts.items p ≡ pixels_in_rows shot.now.geometry.now shot.now.path.now shot.now.picture own p }
    ensures versions { rows.new.versions.items ≡ rows.old.versions.items }
    ensures bytes { length rows.new.bytes.items ≡ length rows.old.bytes.items }
    ensures pages { length rows.new.counts.items ≡ length rows.old.counts.items }
{
    let most = own_count(sampler, samplers, shot.path.height());
    let turns = StillTurns {
        table,
        shot,
        sampler,
        samplers,
        line: texel_length(shot.depth) * shot.path.width() as usize,
    };
    draw_all(&turns, most, rows);
}
