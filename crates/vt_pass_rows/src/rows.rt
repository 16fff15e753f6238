//! The rows of a sampler of a pass: by any page table, schedule and filter.

ghost use Rattle.std.specs.Prelude.{◌≡◌, ℕ, ◌+◌, ◌*◌, ◌<◌, ◌^◌, length, slice_index};
ghost use Rattle.vt_definitions.specs.Depths.{IsDepth};
ghost use Rattle.vt_page_table.specs.Pages.{pages_of};
ghost use Rattle.vt_page_table.specs.Paths.{ArePictureSides};
ghost use Rattle.vt_page_table.specs.Shots.{shot_row};
ghost use Rattle.vt_page_table.specs.Evidence.{AreShown, AreRaised};
ghost use Rattle.vt_schedules.specs.Samplers.{row_length};

use crate::sampler::PassSampler;
use std::marker::PhantomData;
use std::sync::Wait;
use vt_definitions::texel_length;
use vt_outside::Gate;
use vt_page_table::{Filter, PageTable, Shot};
use vt_schedules::{RowJob, Schedule, Turns};

/// The rows of a picture that a sampler of a pass takes by a schedule, and draws by a filter over a page table.
#[derive(Drop)]
pub(crate) struct PassTurns<'a, T: PageTable, S: Schedule, P: Filter, G: Gate, R: Wait> {
    pub rt: &'a R,
    pub table: &'a T::Shared,
    pub rows: &'a S::Shared,
    pub shot: &'a Shot<'a>,
    pub height: u32,
    /// How many bytes a row has.
    pub line: usize,
    pub gate: &'a G,
    pub filter: PhantomData<P>,
}

/// How many rows the picture of a shot has, and how many bytes a row.
pub(crate) fn size_of(shot: &Shot) -> (u32, usize)
    requires { IsDepth shot.now.depth }
    ensures height { result.0 ≡ shot.now.path.now.height }
    ensures line { result.1 ≡ row_length shot.now.depth shot.now.path.now.width }
    ensures sides { ArePictureSides shot.now.path.now.width shot.now.path.now.height }
{
    let height = shot.path.height();
    let line = texel_length(shot.depth) * shot.path.width() as usize;
    (height, line)
}

// Draws a row by a filter for a sampler.
fn draw_job<T: PageTable, P: Filter, G: Gate, R: Wait>(
    rt: &R,
    table: &T::Shared,
    number: u32,
    reader: &mut T::Reader,
    mut job: RowJob,
    shot: &Shot,
    gate: &G,
    counts: &mut [u32],
) -> RowJob
    requires may { T.may_draw table.now shot.now.geometry.now number reader.old }
    requires depth { IsDepth shot.now.depth }
    requires picture { shot.now.picture < length shot.now.path.now.cameras }
    requires inside { job.row < shot.now.path.now.height }
    requires full { length job.samples.elements ≡ row_length shot.now.depth shot.now.path.now.width }
    requires pages { length counts.old ≡ pages_of shot.now.geometry.now }
    requires room { (p : ℕ) → p < length counts.old → slice_index counts.old p + 4 * shot.now.path.now.width < 2 ^ 32 }
    ensures may { T.may_draw table.now shot.now.geometry.now number reader.new }
    ensures drew { T.drew_row reader.old reader.new result.version }
    ensures row { result.row ≡ job.row }
    ensures full { length result.samples.elements ≡ length job.samples.elements }
    ensures by { result.sampler ≡ number }
    ensures drawn { let row = shot_row shot.now.geometry.now shot.now.path.now shot.now.picture result.row in
        AreShown P.shown shot.now.geometry.now shot.now.depth result.version (T.says reader.new) row
        shot.now.path.now.width result.samples.elements }
    ensures counted { let row = shot_row shot.now.geometry.now shot.now.path.now shot.now.picture job.row in
        AreRaised P.wants shot.now.geometry.now row shot.now.path.now.width counts.old counts.new }
{
    let row = job.row;
    let version = T::draw_row::<P, G, R>(
        rt,
        table,
        number,
        reader,
        shot,
        row,
        gate,
        job.samples.slice_mut(),
        counts,
    );
    job.sampler = number;
    job.version = version;
    job
}

impl<'a, T: PageTable, S: Schedule, P: Filter, G: Gate, R: Wait> Turns
    for PassTurns<'a, T, S, P, G, R> {
    ghost use Rattle.vt_schedules.specs.SharedRows.{rows_of};
    ghost use Rattle.vt_pass_rows.specs.PassTurns.{TookRows, TookAll};

    type State = PassSampler<T, S>;

    ghost most = { λ t. t.height };

    ghost drew = { λ t n a b. TookRows T.PageTable S.Schedule P.Filter t.table.now t.rows.now t.shot.now.geometry.now t.shot.now.depth
        t.shot.now.path.now t.shot.now.picture t.height t.line n a b };

    ghost drew_all = { λ t a b. TookAll T.PageTable S.Schedule P.Filter t.table.now t.rows.now t.shot.now.geometry.now t.shot.now.depth
        t.shot.now.path.now t.shot.now.picture t.height t.line a b };

    fn draw_next(&self, _turn: u32, state: &mut PassSampler<T, S>) -> bool {
        let Some(job) = S::next::<R>(self.rt, self.rows, &mut state.own, self.height, self.line)
        else {
            return false;
        };
        let drawn = draw_job::<T, P, G, R>(
            self.rt,
            self.table,
            state.number,
            &mut state.reader,
            job,
            self.shot,
            self.gate,
            state.counts.as_mut_slice(),
        );
        state.kept.push(drawn);
        true
    }

    ghost all_drawn = { λ t a b drew. record {
      turns = t.height;
      drew = drew;
      ended = S.all_taken t.height t.line a.own b.own (rows_of b.kept.elements) drew.took drew.enough;
    } };
}
