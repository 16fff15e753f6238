//! A pass over words and a streamer that its caller holds.

ghost use Rattle.std.specs.Prelude.{◌≡◌, ◌≤◌, OnOk, length, IfOk, IfErr};
ghost use Rattle.std.specs.List.{concat};
ghost use Rattle.vt_pass_machine.specs.Depths.{IsDepth};
ghost use Rattle.vt_pass_machine.specs.Changes.{newest};
ghost use Rattle.vt_loading.specs.Crews.{IsCrew, last_start};
ghost use Rattle.vt_loading.specs.Jobs.{job_of};
ghost use Rattle.vt_loading.specs.Machines.{AreStoresFor};
ghost use Rattle.vt_loading.specs.Outcomes.{IsBatchFor};
ghost use Rattle.vt_loading.specs.Passes.{MapsRoot, IsJobFor};
ghost use Rattle.vt_loading.specs.RoundStocks.{AreEmptied};
ghost use Rattle.vt_pass.specs.PassKits.{IsWholeKit, IsIdleKit, IsPreparedFor, IsSameKit, KitRan, kit_rows, kit_setup, kit_state};

use crate::parts::kit_parts;
use crate::pass::begin_and_draw;
use std::alloc::Global;
use std::mem;
use std::sync::Wait;
use std::thread::Threads;
use vt_grace::Words;
use vt_load::{Queues, Stores};
use vt_loading::{Batch, Crew, LoaderPool, PassReport};
use vt_outside::{File, Gate, NoMemory};
use vt_pass_machine::{
    Dealt, FeedbackCounts as Counts, Filter, Geometry, Nothing, PassPool, PassStreamer, Path, Shot,
};
use vt_streamer::Streamer;
use vt_word_table::{Nearest, WordTable};

/// What a pass over shared words uses, where the caller holds the words and their streamer: the samplers, the
/// loaders' stores, the queues, and room for what the pass tells. Contracts see all of these.
pub struct PassKit<F: File> {
    queues: Queues,
    // The caller's writer is in it while a pass is run, and else a spare one of one frame.
    own: PassStreamer<WordTable>,
    rows: Nothing,
    streams: LoaderPool<F>,
    pool: PassPool<WordTable, Dealt>,
}

impl<F: File> PassKit<F> {
    /// The pool of a crew with one store for each loader, for pictures of the path's sides. A refusal hands the stores
    /// back.
    ///
    /// The stores are cut as the geometry says, their samples have `depth` bytes, and all of them tell the same bytes
    /// or none does.
    pub fn new(
        alloc: Global,
        geometry: &Geometry,
        path: &Path,
        crew: &Crew,
        depth: u32,
        stores: Stores<F>,
    ) -> Result<PassKit<F>, (Stores<F>, NoMemory)>
        requires crew { IsCrew crew.now }
        requires depth { IsDepth depth }
        requires stores { AreStoresFor F.File geometry.now depth crew.now.loaders stores.elements }
        ensures pool { IfOk result (IsWholeKit F.File) }
        ensures shape { IfOk result (λ k. k.streams.shape ≡ geometry.now) }
        ensures depth { IfOk result (λ k. k.streams.depth ≡ depth) }
        ensures width { IfOk result (λ k. k.pool.width ≡ path.now.width) }
        ensures height { IfOk result (λ k. k.pool.height ≡ path.now.height) }
        ensures crew { IfOk result (λ k. k.streams.crew ≡ crew.now) }
        ensures stores { IfOk result (λ k. k.streams.stores ≡ stores.elements) }
        ensures refused { IfErr result (λ e. e.0.elements ≡ stores.elements) }
    {
        match kit_parts(alloc, geometry, path, crew, depth) {
            Ok((queues, own, asks, rows, pool)) => Ok(PassKit {
                queues,
                own,
                rows,
                streams: LoaderPool::new(alloc, geometry, crew, depth, asks, stores),
                pool,
            }),
            Err(refusal) => Err((stores, refusal)),
        }
    }

    /// How many texels the last pass's picture needs of each page.
    pub fn counts(&self) -> &Counts
        ensures { result.now ≡ self.now.pool.counts }
    {
        self.pool.counts()
    }

    /// The loaders' stores, in place of the pool.
    pub fn end(self) -> Stores<F>
        ensures { result.elements ≡ self.streams.stores }
    {
        let PassKit {
            queues: _,
            own,
            rows: _,
            streams,
            pool: _,
        } = self;
        let PassStreamer {
            writer: _,
            geometry: _,
            depth: _,
            answers: _,
            report: _,
            refused: _,
        } = own;
        streams.end()
    }

    /// Makes all room for one pass that streams a batch into words. No sampler has a pass of them, the journal has at most
    /// 2^61 changes, and the batch is lawful for the newest version and no longer than the crew's batches. After a refusal
    /// the pool can only be ended.
    pub fn prepare(
        &mut self,
        _words: &Words,
        streamer: &mut Streamer,
        batch: &Batch,
    ) -> Result<(), NoMemory>
        requires idle { IsIdleKit F.File _words.now streamer.old self.old }
        requires lawful { IsBatchFor streamer.old.shape (length streamer.old.owners)
            (newest streamer.old.writer.journal) batch.now.elements }
        requires few { length batch.now.elements ≤ self.old.streams.crew.batch }
        requires early { length streamer.old.writer.journal ≤ last_start }
        ensures prepared { OnOk result (IsPreparedFor F.File _words.now streamer.new self.new batch.now.elements) }
        ensures streamer { streamer.new ≡ record streamer.old { spare = streamer.new.spare } }
        ensures same { IsSameKit F.File self.old self.new }
    {
        let entries = batch.len() as u64;
        streamer.reserve(2 * entries)?;
        self.streams.prepare(
            &mut self.queues,
            &mut self.own.answers,
            &mut self.own.report,
            batch,
        )?;
        self.pool.prepare_alone(&self.rows)
    }

    /// The samples of the last pass's picture: its rows from the top. It asks for their memory once.
    pub fn picture(&self, alloc: Global) -> Result<Vec<u8>, NoMemory>
        requires { IsWholeKit F.File self.now }
        ensures { IfOk result (λ picture. picture.items ≡ concat (kit_rows self.now)) }
    {
        let mut picture = Vec::new(alloc);
        self.pool.picture_into(&mut picture)?;
        Ok(picture)
    }
}

/// Draws the picture of a shot by a filter over the words, and streams the batch into them at the same time: all requests are put
/// before the workers begin; samplers draw, each row under a version that it holds meanwhile, while loaders read and the
/// streamer applies the results as they come. It takes no memory and refuses nothing. It may wait.
///
/// The pool is prepared for this batch with these words and their streamer, and since then no pass was run and the words
/// were not changed.
pub fn run_pass_by<Rt: Threads + Wait + Sync, F: File + Send, P: Filter + Sync, G: Gate + Sync>(
    rt: &Rt,
    pool: &mut PassKit<F>,
    words: &Words,
    streamer: &mut Streamer,
    shot: &Shot<'_>,
    batch: &Batch,
    gate: &G,
) -> PassReport
    requires prepared { IsPreparedFor F.File words.now streamer.old pool.old batch.now.elements }
    requires root { MapsRoot (kit_state F.File words.now streamer.old.writer.journal pool.old) }
    requires job { IsJobFor (kit_setup F.File words.now pool.old) (job_of shot.now batch.now.elements) }
    ensures ran { KitRan F.File P.Filter words.now (job_of shot.now batch.now.elements) result streamer.old pool.old
        streamer.new pool.new }
    ensures idle { IsIdleKit F.File words.now streamer.new pool.new }
    ensures emptied { AreEmptied pool.new.queues pool.new.streams.round.asks pool.new.own.answers }
{
    mem::swap(streamer, &mut pool.own.writer);
    let report = begin_and_draw::<Rt, F, P, G>(
        rt,
        words,
        &pool.rows,
        &pool.queues,
        &mut pool.own,
        &mut pool.streams,
        &mut pool.pool,
        shot,
        batch,
        gate,
    );
    mem::swap(streamer, &mut pool.own.writer);
    report
}

/// Runs a pass as `run_pass_by` does, in which each pixel is one texel.
pub fn run_pass<Rt: Threads + Wait + Sync, F: File + Send, G: Gate + Sync>(
    rt: &Rt,
    pool: &mut PassKit<F>,
    words: &Words,
    streamer: &mut Streamer,
    shot: &Shot<'_>,
    batch: &Batch,
    gate: &G,
) -> PassReport
    requires prepared { IsPreparedFor F.File words.now streamer.old pool.old batch.now.elements }
    requires root { MapsRoot (kit_state F.File words.now streamer.old.writer.journal pool.old) }
    requires job { IsJobFor (kit_setup F.File words.now pool.old) (job_of shot.now batch.now.elements) }
    ensures ran { KitRan F.File ⟦<Nearest as Filter>⟧ words.now (job_of shot.now batch.now.elements) result streamer.old pool.old
        streamer.new pool.new }
    ensures idle { IsIdleKit F.File words.now streamer.new pool.new }
    ensures emptied { AreEmptied pool.new.queues pool.new.streams.round.asks pool.new.own.answers }
{
    run_pass_by::<Rt, F, Nearest, G>(rt, pool, words, streamer, shot, batch, gate)
}
