//! The rows of a sampler, each drawn under a hold of its own.

ghost use Rattle.std.specs.Prelude.{◌≡◌, ℕ, ◌+◌, ◌*◌, ◌<◌, ◌≤◌, true, length, slice_index, reverse};
ghost use Rattle.vt_definitions.specs.Limits.{most_samplers};
ghost use Rattle.vt_definitions.specs.Dealing.{sampler_of, turn_of, own_count};
ghost use Rattle.vt_definitions.specs.Depths.{IsDepth};
ghost use Rattle.vt_pages.specs.Pages.{pages_of};
ghost use Rattle.vt_lookup.specs.Shots.{shot_row, wants_in_rows};
ghost use Rattle.vt_lookup.specs.Evidence.{AreShown};
ghost use Rattle.vt_lookup.specs.Tokens.{IsPassOf};
ghost use Rattle.vt_lookup.specs.GraceTypes.views.PassView.{PassView};
ghost use Rattle.vt_lookup.specs.Notes.{FitsShape, IsNotedIn, HasHeldMore};
ghost use Rattle.vt_sampler.specs.Held.{WasHeld};
ghost use Rattle.vt_sampler.specs.HeldTurns.{MayDrawTurn, HasDrawnHeld};
ghost use Rattle.vt_sampler.specs.Samplers.{own_rows, row_in, row_length};

use crate::turns::{Turns, draw_all};
use std::marker::PhantomData;
use std::mem;
use vt_definitions::{dealt_row, own_count, texel_length};
use vt_lookup::{Filter, Pass, Shot, Words, draw_held};
use vt_outside::Gate;

/// The rows of a sampler, with its pass while they are drawn under holds.
#[derive(Drop)]
pub(crate) struct HeldRows {
    /// Its pass, while it draws.
    pub pass: Option<Pass>,
    /// The version at which each row was drawn.
    pub versions: Vec<u64>,
    /// The rows one after the other, from the top.
    pub bytes: Vec<u8>,
    /// How many texels they want of each page.
    pub counts: Vec<u32>,
}

// The rows of a picture that a sampler is dealt, over a table of words.
#[derive(Drop)]
struct HeldTurns<'a, P: Filter, G: Gate> {
    words: &'a Words,
    shot: &'a Shot<'a>,
    sampler: u32,
    samplers: u32,
    // How many bytes a row has.
    line: usize,
    gate: &'a G,
    filter: PhantomData<P>,
}

// Draws the row of a turn in the newest version, which it holds for that row alone.
fn draw_turn<P: Filter, G: Gate>(
    turns: &HeldTurns<'_, P, G>,
    turn: u32,
    pass: Pass,
    versions: &mut [u64],
    bytes: &mut [u8],
    counts: &mut [u32],
) -> Pass
    requires may { MayDrawTurn P.Filter turns.now.words.now turns.now.shot.now.geometry.now turns.now.shot.now.path.now turns.now.shot.now.picture
        turns.now.shot.now.depth turns.now.sampler turns.now.samplers turns.now.line turn pass versions.old bytes.old counts.old }
    requires left { turn < own_count turns.now.sampler turns.now.samplers turns.now.shot.now.path.now.height }
    ensures may { MayDrawTurn P.Filter turns.now.words.now turns.now.shot.now.geometry.now turns.now.shot.now.path.now turns.now.shot.now.picture
        turns.now.shot.now.depth turns.now.sampler turns.now.samplers turns.now.line (turn + 1) result versions.new bytes.new counts.new }
    ensures held { (first : PassView) → HasDrawnHeld P.Filter turns.now.shot.now.geometry.now turns.now.shot.now.path.now turns.now.shot.now.picture
        turns.now.shot.now.depth turns.now.sampler turns.now.samplers turn first pass.view versions.old bytes.old
        → HasDrawnHeld P.Filter turns.now.shot.now.geometry.now turns.now.shot.now.path.now turns.now.shot.now.picture
        turns.now.shot.now.depth turns.now.sampler turns.now.samplers (turn + 1) first result.view versions.new bytes.new }
{
    let y = dealt_row(turns.sampler, turn, turns.samplers);
    let at = turn as usize * turns.line;
    let row = &mut bytes[at..at + turns.line];
    let (next, version) = draw_held::<P, G>(
        pass,
        turns.words,
        turns.shot,
        turns.sampler,
        y,
        turns.gate,
        row,
        counts,
    );
    versions[turn as usize] = version;
    next
}

impl<'a, P: Filter, G: Gate> Turns for HeldTurns<'a, P, G> {
    ghost use Rattle.vt_definitions.specs.Dealing.{own_count};
    ghost use Rattle.vt_sampler.specs.HeldTurns.{HasDrawnTurns};

    type State = HeldRows;

    ghost most = { λ t. own_count t.sampler t.samplers t.shot.now.path.now.height };

    ghost drew = { λ t n a b. HasDrawnTurns P.Filter t.words.now t.shot.now.geometry.now t.shot.now.path.now t.shot.now.picture t.shot.now.depth
        t.sampler t.samplers t.line n a b };

    ghost drew_all = { λ t a b. HasDrawnTurns P.Filter t.words.now t.shot.now.geometry.now t.shot.now.path.now t.shot.now.picture t.shot.now.depth
        t.sampler t.samplers t.line (own_count t.sampler t.samplers t.shot.now.path.now.height) a b };

    fn draw_next(&self, turn: u32, state: &mut HeldRows) -> bool {
        let pass = mem::replace(&mut state.pass, None);
        match pass {
            Some(pass) => {
                let next = draw_turn::<P, G>(
                    self,
                    turn,
                    pass,
                    state.versions.as_mut_slice(),
                    state.bytes.as_mut_slice(),
                    state.counts.as_mut_slice(),
                );
                state.pass = Some(next);
                true
            }
            None => unreachable!(),
        }
    }

    ghost all_drawn = { λ t a b drew. drew };
}

/// Draws the rows of a sampler of a picture by a filter over a table of words, one after the other, each in the newest version,
/// which it holds for that row alone, and tells at which version each was drawn.
pub(crate) fn draw_held_rows<P: Filter, G: Gate>(
    pass: Pass,
    words: &Words,
    shot: &Shot,
    sampler: u32,
    samplers: u32,
    gate: &G,
    rows: &mut HeldRows,
) -> Pass
    requires of { IsPassOf words.now pass }
    requires fits { FitsShape shot.now.geometry.now words.now.sizes }
    requires rooted { pass.view.rooted ≡ true }
    requires own { pass.view.sampler ≡ sampler }
    requires one_of { sampler < samplers }
    requires few { samplers ≤ most_samplers }
    requires depth { IsDepth shot.now.depth }
    requires picture { shot.now.picture < length shot.now.path.now.cameras }
    requires bytes { length rows.old.bytes.items ≡ own_count sampler samplers shot.now.path.now.height
        * row_length shot.now.depth shot.now.path.now.width }
    requires rows { length rows.old.versions.items ≡ own_count sampler samplers shot.now.path.now.height }
    requires pages { length rows.old.counts.items ≡ pages_of shot.now.geometry.now }
    requires none { (p : ℕ) → p < length rows.old.counts.items → slice_index rows.old.counts.items p ≡ 0 }
    ensures of { IsPassOf words.now result }
    ensures holds { HasHeldMore pass.view result.view (reverse rows.new.versions.items) }
    ensures drawn { (y : ℕ) → y < shot.now.path.now.height → sampler_of y samplers ≡ sampler
        → let row = shot_row shot.now.geometry.now shot.now.path.now shot.now.picture y in
        let line = row_length shot.now.depth shot.now.path.now.width in
        AreShown P.shown shot.now.geometry.now shot.now.depth (slice_index rows.new.versions.items (turn_of y samplers)) (IsNotedIn result.view)
        row shot.now.path.now.width (row_in samplers line rows.new.bytes.items y) }
    ensures held { (y : ℕ) → y < shot.now.path.now.height → sampler_of y samplers ≡ sampler
        → WasHeld pass.view result.view (slice_index rows.new.versions.items (turn_of y samplers)) }
    ensures rising { (y z : ℕ) → z < shot.now.path.now.height → sampler_of y samplers ≡ sampler → sampler_of z samplers ≡ sampler → y ≤ z
        → slice_index rows.new.versions.items (turn_of y samplers) ≤ slice_index rows.new.versions.items (turn_of z samplers) }
    ensures counted { (p : ℕ) → p < length rows.new.counts.items
        → let own = own_rows sampler samplers shot.now.path.now.height in
        slice_index rows.new.counts.items p ≡ wants_in_rows P.wants shot.now.geometry.now shot.now.path.now shot.now.picture own p }
    ensures bytes { length rows.new.bytes.items ≡ length rows.old.bytes.items }
    ensures rows { length rows.new.versions.items ≡ length rows.old.versions.items }
    ensures pages { length rows.new.counts.items ≡ length rows.old.counts.items }
{
    let most = own_count(sampler, samplers, shot.path.height());
    let turns = HeldTurns::<'_, P, G> {
        words,
        shot,
        sampler,
        samplers,
        line: texel_length(shot.depth) * shot.path.width() as usize,
        gate,
        filter: PhantomData,
    };
    rows.pass = Some(pass);
    draw_all::<HeldTurns<'_, P, G>>(&turns, most, rows);
    let pass = mem::replace(&mut rows.pass, None);
    match pass {
        Some(pass) => pass,
        None => unreachable!(),
    }
}
