//! A sampler: a reader of the page table and a way to rows, with the rows that it has drawn.

ghost use Rattle.std.specs.Prelude.{◌≡◌, ℕ, ◌<◌, length, slice_index};
ghost use Rattle.vt_schedules.specs.Samplers.{row_length};
ghost use Rattle.vt_pass_rows.specs.PassSamplers.{MayDraw, HasDrawn};

use crate::rows::{PassTurns, size_of};
use std::marker::PhantomData;
use std::sync::Wait;
use vt_outside::{Gate, Items};
use vt_page_table::{Filter, PageTable, Shot};
use vt_schedules::{RowJob, Schedule, draw_all};

/// A sampler of a pass.
#[derive(Drop)]
pub struct PassSampler<T: PageTable, S: Schedule> {
    /// Its number, from 0.
    pub number: u32,
    /// Its reader of the page table.
    pub reader: T::Reader,
    /// Its way to rows.
    pub own: S::Own,
    /// The rows that it has drawn, in the order in which it took them.
    pub kept: Items<RowJob>,
    /// How many texels they want of each page.
    pub counts: Vec<u32>,
}

// Sets the count of each page to 0.
fn clear(counts: &mut [u32])
    ensures { (p : ℕ) → p < length counts.new → slice_index counts.new p ≡ 0 }
{
    counts.fill(0);
}

impl<T: PageTable, S: Schedule> PassSampler<T, S> {
    /// Lets its reader enter, and draws its rows of a picture by a filter, from the first that it takes on. It takes no memory and refuses
    /// nothing. It may wait. The gate is told of a row, each time it is drawn, before its first look-up.
    pub fn draw<P: Filter, G: Gate, R: Wait>(
        &mut self,
        rt: &R,
        table: &T::Shared,
        rows: &S::Shared,
        shot: &Shot,
        gate: &G,
    )
        requires { MayDraw T.PageTable S.Schedule table.now rows.now shot.now.geometry.now shot.now.depth shot.now.path.now
            shot.now.picture self.old }
        ensures { HasDrawn T.PageTable S.Schedule P.Filter table.now rows.now shot.now.geometry.now shot.now.depth shot.now.path.now
            shot.now.picture shot.now.path.now.height (row_length shot.now.depth shot.now.path.now.width) self.old self.new }
    {
        let (height, line) = size_of(shot);
        clear(self.counts.as_mut_slice());
        T::enter::<R>(rt, table, self.number, &mut self.reader);
        let turns = PassTurns::<'_, T, S, P, G, R> {
            rt,
            table,
            rows,
            shot,
            height,
            line,
            gate,
            filter: PhantomData,
        };
        draw_all::<PassTurns<'_, T, S, P, G, R>>(&turns, height, self);
    }
}
