//! What samplers, loaders and streamer of a pass do.

ghost use Rattle.vt_load.specs.QueuedLoaders.{MayLoad, HasLoaded};
ghost use Rattle.vt_pass_rows.specs.Samplers.{row_length};
ghost use Rattle.vt_pass_rows.specs.PassSamplers.{MayDraw, HasDrawn};
ghost use Rattle.vt_pass_pool.specs.PassTasks.{MayStream, HasStreamed};

use crate::shared::{InCommon, PassShared, PassStreamer};
use crate::stream::stream_into;
use std::sync::Wait;
use std::thread::Threads;
use vt_load::QueuedLoader;
use vt_outside::{File, Gate};
use vt_pass_rows::{HandTask, PassSampler, Planned, Schedule, Shot, Task};

impl<C: InCommon> HandTask<PassShared<C>> for PassSampler<C::Table, C::Rows> {
    // Where samplers share rows, so that a sampler whose row is slow holds up no other.
    const IN_TWO: bool = !<C::Rows as Schedule>::DEALT;

    ghost ready = { λ shared job a. MayDraw C.Table.PageTable C.Rows.Schedule (C.InCommon.table shared.parts) (C.InCommon.rows shared.parts)
        job.scene.shape job.scene.depth job.scene.path job.picture a };

    ghost did = { λ shared job a b. HasDrawn C.Table.PageTable C.Rows.Schedule C.Look.Filter (C.InCommon.table shared.parts)
        (C.InCommon.rows shared.parts) job.scene.shape job.scene.depth job.scene.path job.picture job.scene.path.height
        (row_length job.scene.depth job.scene.path.width) a b };

    fn work<Rt: Threads + Wait, G: Gate>(
        &mut self,
        rt: &Rt,
        shared: &PassShared<C>,
        shot: &Shot<'_>,
        gate: &G,
    ) {
        self.draw::<C::Look, G, Rt>(rt, shared.parts.table(), shared.parts.rows(), shot, gate);
    }
}

impl<C: InCommon> Task<PassShared<C>> for PassStreamer<C::Table> {
    ghost ready = { λ shared job a. MayStream C.Table.PageTable (C.InCommon.table shared.parts) (C.InCommon.queues shared.parts) job.batch a };

    ghost did = { λ shared job a b. HasStreamed C.Table.PageTable (C.InCommon.table shared.parts) (C.InCommon.queues shared.parts) job.batch a b };

    fn work<Rt: Threads + Wait, G: Gate>(
        &mut self,
        rt: &Rt,
        shared: &PassShared<C>,
        _shot: &Shot<'_>,
        batch: &[Planned],
        gate: &G,
    ) {
        self.refused = stream_into::<C::Table, Rt, G>(
            rt,
            shared.parts.table(),
            &mut self.writer,
            &self.geometry,
            self.depth,
            &shared.parts.queues().results,
            &mut self.answers,
            batch,
            &mut self.report,
            gate,
        );
    }
}

impl<C: InCommon, F: File> HandTask<PassShared<C>> for QueuedLoader<F> {
    ghost ready = { λ shared job loader. MayLoad F.File (C.InCommon.queues shared.parts) loader };

    ghost did = { λ shared job before after. HasLoaded F.File (C.InCommon.queues shared.parts) before after };

    fn work<Rt: Threads + Wait, G: Gate>(
        &mut self,
        rt: &Rt,
        shared: &PassShared<C>,
        _shot: &Shot<'_>,
        gate: &G,
    ) {
        self.run(rt, shared.parts.queues(), gate);
    }
}
