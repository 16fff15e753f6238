//! The machine.

ghost use Rattle.std.specs.Prelude.{◌≡◌, OnErr};
ghost use Rattle.std.specs.Arc.{arc_value};
ghost use Rattle.vt_loading.specs.Jobs.{job_of};
ghost use Rattle.vt_pass_machine.specs.Machines.{state_of, drawing_by_turns, drawn_by, held_by, IsIdleBy, IsReadyBy, IsDetached, Begun, MayFinishOut, Finishes};

use crate::passes::{MachineShared, end_pass, end_streamer, new_parts, place_page, prepare_shared};
use std::alloc::Global;
use std::mem;
use std::sync::Wait;
use std::thread::Threads;
use vt_load::{QueuedLoader, Stores};
use vt_loading::{
    Batch, Crew, LoaderPool, PassMachine, PassReport, SentMachine, blank_report, new_queues,
};
use vt_outside::{File, Gate, Items, NoMemory};
use vt_pass_pool::{
    FeedbackCounts as Counts, Filter, Geometry, Journal, OwnParts, PageTable, PassPool,
    PassSampler, PassShared, PassStreamer, Path, Schedule, Shot,
};

/// A machine that draws the rows of a picture by a filter from a page table, as a schedule says which sampler draws which row, and that streams
/// the batch at the same time.
pub struct Machine<F: File, T: PageTable, S: Schedule, P: Filter> {
    // Hands own it too while a pass is run.
    shared: MachineShared<T, S, P>,
    // It is out while a pass is run.
    streamer: Option<PassStreamer<T>>,
    streams: LoaderPool<F>,
    pool: PassPool<T, S>,
}

impl<F: File + Send, T: PageTable, S: Schedule, P: Filter> PassMachine for Machine<F, T, S, P> {
    ghost use Rattle.std.specs.Arc.{arc_value};
    ghost use Rattle.vt_load.specs.Format.{stored};
    ghost use Rattle.vt_pass_machine.specs.Laws.{come_back, has_ended};

    type File = F;

    type Shared = PassShared<OwnParts<T::Shared, S::Shared, T, S, P>>;

    type Loader = QueuedLoader<F>;

    type Sampler = PassSampler<T, S>;

    type Streamer = PassStreamer<T>;

    const DEALT: bool = S::DEALT;

    ghost DEALT = { S.DEALT };

    fn is_dealt() -> bool {
        Self::DEALT
    }

    ghost drawing = { drawing_by_turns P.Filter S.DEALT };

    ghost state = { λ m. state_of F.File T.PageTable m };

    ghost is_idle = { λ m. IsIdleBy F.File T.PageTable (arc_value m.shared).parts.table m.streamer m.streams m.pool };

    ghost is_ready = { λ m batch. IsReadyBy F.File T.PageTable S.Schedule (arc_value m.shared).parts.table
        (arc_value m.shared).parts.rows (arc_value m.shared).parts.queues m.streamer m.streams m.pool batch };

    ghost drawn = { λ m. drawn_by T.PageTable P.Filter S.DEALT m.pool m.streamer };

    ghost refuses = { T.refuses };

    ghost held = { λ m p job lines. held_by T.PageTable P.Filter m.streamer m.pool.samplers.elements p.streamer p.pool job lines };

    ghost lent = { λ m. arc_value m.shared };

    ghost detached = { λ m job n loaders samplers streamer. IsDetached F.File m n loaders samplers streamer };

    ghost may_reattach = { λ n job loaders samplers streamer. (b : Begun _ _ _ _ _ _ _ _ _)
        × MayFinishOut F.File T.PageTable S.Schedule P.Filter n job loaders samplers streamer b };

    ghost reattached = { λ n job loaders samplers streamer p result. OnErr result T.refuses
        × Finishes F.File T.PageTable S.Schedule P.Filter job result n loaders samplers streamer p };

    fn make_from<Rt: Threads + Wait>(
        rt: &Rt,
        alloc: Global,
        geometry: &Geometry,
        path: &Path,
        frames: u32,
        crew: &Crew,
        depth: u32,
        stores: &mut Stores<Self::File>,
    ) -> Result<Self, NoMemory> {
        let (queues, asks, answers) = new_queues(alloc, 1)?;
        let report = blank_report(alloc, 0)?;
        let (shared, writer, pool) = new_parts::<T, S, P, Rt>(
            rt,
            alloc,
            geometry,
            path,
            frames,
            crew.samplers,
            depth,
            queues,
        )?;
        let held = mem::replace(stores, Items::new(alloc));
        let streams = LoaderPool::new(alloc, geometry, crew, depth, asks, held);
        let streamer = PassStreamer {
            writer,
            geometry: *geometry,
            depth,
            answers,
            report,
            refused: false,
        };
        Ok(Machine {
            shared,
            streamer: Some(streamer),
            streams,
            pool,
        })
    }

    fn place<Rt: Threads + Wait>(
        &mut self,
        rt: &Rt,
        page: u32,
        frame: u32,
        tile: &[u8],
    ) -> Result<(), NoMemory> {
        match &mut self.streamer {
            Some(own) => place_page::<T, Rt>(rt, &self.shared.parts.table, own, page, frame, tile),
            None => unreachable!(),
        }
    }

    fn prepare<Rt: Threads + Wait>(&mut self, rt: &Rt, batch: &Batch) -> Result<(), NoMemory> {
        match &mut self.streamer {
            Some(own) => prepare_shared::<Rt, F, T, S, P>(
                rt,
                &mut self.shared,
                own,
                &mut self.streams,
                &mut self.pool,
                batch,
            ),
            None => unreachable!(),
        }
    }

    fn detach_workers(
        &mut self,
        _shot: &Shot<'_>,
        _batch: &Batch,
    ) -> (
        Items<QueuedLoader<F>>,
        Items<PassSampler<T, S>>,
        PassStreamer<T>,
    ) {
        let own = mem::replace(&mut self.streamer, None);
        match own {
            Some(mut own) => {
                let loaders = self
                    .streams
                    .detach(&self.shared.parts.queues, &mut own.answers);
                let samplers = self.pool.detach();
                (loaders, samplers, own)
            }
            None => unreachable!(),
        }
    }

    fn shared(&self) -> &MachineShared<T, S, P> {
        &self.shared
    }

    fn reattach_workers<Rt: Threads + Wait, G: Gate>(
        &mut self,
        rt: &Rt,
        loaders: Items<QueuedLoader<F>>,
        samplers: Items<PassSampler<T, S>>,
        mut streamer: PassStreamer<T>,
        shot: &Shot<'_>,
        batch: &Batch,
        _gate: &G,
    ) -> Result<PassReport, NoMemory>
        requires { (b : Begun _ _ _ _ _ _ _ _ _) × MayFinishOut F.File T.PageTable S.Schedule P.Filter self.old
            (job_of shot.now batch.now.elements) loaders.elements samplers.elements streamer b }
        ensures { OnErr result T.refuses
            × Finishes F.File T.PageTable S.Schedule P.Filter (job_of shot.now batch.now.elements) result
            self.old loaders.elements samplers.elements streamer self.new }
    {
        let parts = &self.shared.parts;
        let report = end_pass::<Rt, F, T, S, P>(
            rt,
            &parts.table,
            &parts.rows,
            &parts.queues,
            &mut self.streams,
            &mut self.pool,
            loaders,
            samplers,
            &mut streamer,
            shot,
            batch,
        );
        let gone = mem::replace(&mut self.streamer, Some(streamer));
        match gone {
            None => {}
            Some(_) => unreachable!(),
        }
        report
    }

    fn journal(&self) -> &Journal {
        match &self.streamer {
            Some(own) => T::journal_of(&own.writer),
            None => unreachable!(),
        }
    }

    fn counts(&self) -> &Counts {
        self.pool.counts()
    }

    fn picture(&self, alloc: Global) -> Result<Vec<u8>, NoMemory> {
        let mut picture = Vec::new(alloc);
        self.pool.picture_into(&mut picture)?;
        Ok(picture)
    }

    fn picture_into(&self, out: &mut Vec<u8>) -> Result<(), NoMemory> {
        self.pool.picture_into(out)
    }

    fn end<Rt: Threads + Wait>(self, rt: &Rt) -> Stores<Self::File> {
        let Machine {
            shared: _,
            streamer,
            streams,
            pool: _,
        } = self;
        match streamer {
            Some(own) => end_streamer::<T, Rt>(rt, own),
            None => {}
        }
        streams.end()
    }

    ghost shows_whole = { λ scene b m i x y limits store inside below_width below_height maps.
        P.is_plain (stored b) scene m i x y limits below_width below_height maps.root maps.needed_mapped };

    ghost may_come_back = { λ job m n a c e f b d ready root job_is detached lo sa did_lo did_sa did_st.
        come_back F.File T.PageTable.own S.Schedule.own P.Filter.own job m n a c e f b d ready job_is detached lo sa did_lo did_sa did_st };

    ghost has_run = { λ job m n p a c e f b d r ready root job_is detached lo sa did_lo did_sa did_st reattached.
        has_ended F.File T.PageTable.own S.Schedule.own P.Filter.own job m n a c e f b d ready job_is detached lo sa did_lo did_sa did_st p r
        reattached.1 };

    ghost has_answered = { λ job n p c f d r reattached. reattached.0 };
}

impl<
    F: File + Send,
    T: PageTable + Send + Sync,
    S: Schedule + Send + Sync,
    P: Filter + Send + Sync,
> SentMachine for Machine<F, T, S, P>
where
    T::Shared: Send + Sync,
    T::Reader: Send,
    S::Shared: Send + Sync,
    S::Own: Send,
{}
