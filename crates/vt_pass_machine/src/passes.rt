//! What a machine does between and around its passes.

ghost use Rattle.std.specs.Prelude.{◌≡◌, ℕ, ◌+◌, ◌<◌, ◌≤◌, ◌*◌, ◌++◌, ◌∷◌, [], false, List, length, IfOk, IsSome, OnOk, OnErr};
ghost use Rattle.std.specs.Arc.{arc_value};
ghost use Rattle.vt_load.specs.Limits.{most_samplers, most_versions};
ghost use Rattle.vt_pass_pool.specs.Depths.{IsDepth};
ghost use Rattle.vt_pass_pool.specs.Pages.{pages_of, root_of, IsWithinLimits};
ghost use Rattle.vt_pass_pool.specs.JournalTypes.changes.Change.TheVariants.{Map};
ghost use Rattle.vt_pass_pool.specs.Changes.{newest, IsNext};
ghost use Rattle.vt_loading.specs.Crews.{AreFrames, last_start};
ghost use Rattle.vt_loading.specs.Jobs.{job_of};
ghost use Rattle.vt_loading.specs.Outcomes.{IsBatchFor};
ghost use Rattle.vt_load.specs.Format.{tile_length};
ghost use Rattle.vt_loading.specs.RoundStocks.{AreEmptied};
ghost use Rattle.vt_loading.specs.LoaderPools.{IsSameStream, HasEndedStream};
ghost use Rattle.vt_pass_pool.specs.Pools.{IsIdlePool};
ghost use Rattle.vt_pass_pool.specs.Stills.{IsStill};
ghost use Rattle.vt_pass_pool.specs.Readers.{AreHome};
ghost use Rattle.vt_pass_pool.specs.Ended.{HasEnded};
ghost use Rattle.vt_pass_machine.specs.Machines.{IsSound, HasPlaced, IsIdle, IsPrepared, IsReady, Begun, MayFinish};

use std::alloc::Global;
use std::marker::PhantomData;
use std::sync::{Arc, Wait};
use std::thread::Threads;
use vt_load::{QueuedLoader, Queues};
use vt_loading::{Batch, LoaderPool, PassReport};
use vt_outside::{File, Items, NoMemory};
use vt_pass_pool::{
    Filter, Geometry, OwnParts, PageTable, PassPool, PassSampler, PassShared, PassStreamer, Path,
    Schedule, Shot,
};

/// What the workers of a machine share. Hands own it too, since they outlive a pass.
pub(crate) type MachineShared<T, S, P> = Arc<
    PassShared<OwnParts<<T as PageTable>::Shared, <S as Schedule>::Shared, T, S, P>>,
>;

// What workers share of a page table, of rows and of queues, and what samplers with these readers work with.
fn shared_and_pool<T: PageTable, S: Schedule, P: Filter>(
    alloc: Global,
    geometry: &Geometry,
    path: &Path,
    samplers: u32,
    depth: u32,
    table: T::Shared,
    readers: Items<T::Reader>,
    queues: Queues,
) -> Result<(MachineShared<T, S, P>, PassPool<T, S>), NoMemory>
    requires some { 1 ≤ samplers }
    requires few { samplers ≤ most_samplers }
    requires depth { IsDepth depth }
    requires enough { length readers.elements ≡ samplers }
    ensures table { IfOk result (λ made. (arc_value made.0).parts.table ≡ table) }
    ensures idle { IfOk result (λ made. (w : T.Writer) → AreHome (T.is_home w) samplers readers.elements
        → IsIdlePool T.PageTable w made.1) }
    ensures geometry { IfOk result (λ made. made.1.geometry ≡ geometry.now) }
    ensures depth { IfOk result (λ made. made.1.depth ≡ depth) }
    ensures width { IfOk result (λ made. made.1.width ≡ path.now.width) }
    ensures height { IfOk result (λ made. made.1.height ≡ path.now.height) }
    ensures count { IfOk result (λ made. made.1.count ≡ samplers) }
{
    let (rows, home) = S::make(alloc)?;
    let pool = PassPool::<T, S>::new(alloc, geometry, path, samplers, depth, readers, home)?;
    let shared = Arc::new(
        alloc,
        PassShared {
            parts: OwnParts {
                table,
                rows,
                queues,
                kind: PhantomData,
                schedule: PhantomData,
                filter: PhantomData,
            },
        },
    )?;
    Ok((shared, pool))
}

/// What the workers of a machine share, with a page table that maps nothing and these queues, the writer of the page table, and what samplers with its
/// readers work with. It may wait.
pub(crate) fn new_parts<T: PageTable, S: Schedule, P: Filter, R: Wait>(
    rt: &R,
    alloc: Global,
    geometry: &Geometry,
    path: &Path,
    frames: u32,
    samplers: u32,
    depth: u32,
    queues: Queues,
) -> Result<(MachineShared<T, S, P>, T::Writer, PassPool<T, S>), NoMemory>
    requires frames { AreFrames geometry.now frames }
    requires some { 1 ≤ samplers }
    requires few { samplers ≤ most_samplers }
    requires depth { IsDepth depth }
    ensures of { IfOk result (λ made. T.is_of (arc_value made.0).parts.table made.1) }
    ensures shape { IfOk result (λ made. T.shape made.1 ≡ geometry.now) }
    ensures frames { IfOk result (λ made. T.frame_count made.1 ≡ frames) }
    ensures empty { IfOk result (λ made. T.journal made.1 ≡ []) }
    ensures unfilled { IfOk result (λ made. (page : ℕ) (words : List ℕ) → T.is_filled made.1 page words → ⊥) }
    ensures idle { IfOk result (λ made. IsIdlePool T.PageTable made.1 made.2) }
    ensures geometry { IfOk result (λ made. made.2.geometry ≡ geometry.now) }
    ensures depth { IfOk result (λ made. made.2.depth ≡ depth) }
    ensures width { IfOk result (λ made. made.2.width ≡ path.now.width) }
    ensures height { IfOk result (λ made. made.2.height ≡ path.now.height) }
    ensures count { IfOk result (λ made. made.2.count ≡ samplers) }
    ensures limits { IsWithinLimits geometry.now }
{
    let _pages = geometry.page_count();
    let (table, writer, readers) = T::make::<R>(rt, alloc, geometry, frames, samplers)?;
    match shared_and_pool::<T, S, P>(
        alloc, geometry, path, samplers, depth, table, readers, queues,
    ) {
        Ok((shared, pool)) => Ok((shared, writer, pool)),
        Err(refusal) => {
            T::end::<R>(rt, writer);
            Err(refusal)
        }
    }
}

/// Ends a streamer. It may wait.
pub(crate) fn end_streamer<T: PageTable, R: Wait>(rt: &R, own: PassStreamer<T>) {
    let PassStreamer {
        writer,
        geometry: _,
        depth: _,
        answers: _,
        report: _,
        refused: _,
    } = own;
    T::end::<R>(rt, writer);
}

// Makes room for so many more changes.
fn make_room<T: PageTable>(
    table: &T::Shared,
    writer: &mut T::Writer,
    n: u64,
) -> Result<(), NoMemory>
    requires of { T.is_of table.now writer.old }
    requires early { length (T.journal writer.old) + n ≤ most_versions }
    ensures still { IsStill T.PageTable table.now writer.old writer.new }
    ensures home { (k : ℕ) (r : T.Reader) → T.is_home writer.old k r → T.is_home writer.new k r }
    ensures room { OnOk result (T.has_room writer.new n) }
{
    T::reserve(table, writer, n)
}

/// Fills a free frame with the tile of a page, and maps the page to it. It may wait. After a refusal the journal is as it was.
pub(crate) fn place_page<T: PageTable, R: Wait>(
    rt: &R,
    table: &T::Shared,
    own: &mut PassStreamer<T>,
    page: u32,
    frame: u32,
    tile: &[u8],
) -> Result<(), NoMemory>
    requires of { T.is_of table.now own.old.writer }
    requires page { page < pages_of (T.shape own.old.writer) }
    requires frame { frame < T.frame_count own.old.writer }
    requires next { IsNext (newest (T.journal own.old.writer)) (Map page frame) }
    requires early { length (T.journal own.old.writer) ≤ last_start }
    requires depth { IsDepth own.old.depth }
    requires full { length tile.now ≡ tile_length (T.shape own.old.writer) own.old.depth }
    ensures placed { HasPlaced T.PageTable table.now page tile.now own.old own.new }
    ensures mapped { OnOk result (T.journal own.new.writer ≡ T.journal own.old.writer ++ Map page frame ∷ []) }
    ensures refused { OnErr result (T.journal own.new.writer ≡ T.journal own.old.writer) }
{
    make_room::<T>(table, &mut own.writer, 1)?;
    T::place::<R>(rt, table, &mut own.writer, page, frame, tile, own.depth)
}

/// Makes the samplers of a prepared pass ready, and puts the requests of its batch. It takes no memory.
pub fn begin_pass<Rt: Threads + Wait, F: File, T: PageTable, S: Schedule>(
    rt: &Rt,
    table: &T::Shared,
    queues: &Queues,
    own: &mut PassStreamer<T>,
    streams: &mut LoaderPool<F>,
    pool: &mut PassPool<T, S>,
    batch: &Batch,
)
    requires prepared { (rows : S.Shared) × IsPrepared F.File T.PageTable S.Schedule table.now rows queues.now own.old streams.old pool.old
        batch.now.elements }
    requires root { IsSome (newest (T.journal own.old.writer) (root_of (T.shape own.old.writer))) }
    ensures ready { (rows : S.Shared) → IsPrepared F.File T.PageTable S.Schedule table.now rows queues.now own.old streams.old pool.old
        batch.now.elements → IsReady F.File T.PageTable S.Schedule table.now rows queues.now own.new streams.new pool.new batch.now.elements }
    ensures still { IsStill T.PageTable table.now own.old.writer own.new.writer }
    ensures own { own.new ≡ record own.old { writer = own.new.writer } }
    ensures streams { streams.new ≡ record streams.old { round = streams.new.round } }
    ensures pool { pool.new ≡ record pool.old { samplers = pool.new.samplers } }
{
    pool.open(table, &mut own.writer);
    streams.ask(rt, queues, batch);
}

// Makes all room for a pass that streams a batch, makes the samplers ready, and puts its requests into new queues.
fn prepare_pass<Rt: Threads + Wait, F: File, T: PageTable, S: Schedule>(
    rt: &Rt,
    table: &T::Shared,
    rows: &mut S::Shared,
    queues: &mut Queues,
    own: &mut PassStreamer<T>,
    streams: &mut LoaderPool<F>,
    pool: &mut PassPool<T, S>,
    batch: &Batch,
) -> Result<(), NoMemory>
    requires idle { IsIdle F.File T.PageTable table.now own.old streams.old pool.old }
    requires root { IsSome (newest (T.journal own.old.writer) (root_of (T.shape own.old.writer))) }
    requires lawful { IsBatchFor (T.shape own.old.writer) (T.frame_count own.old.writer) (newest (T.journal own.old.writer))
        batch.now.elements }
    requires few { length batch.now.elements ≤ streams.old.crew.batch }
    requires early { length (T.journal own.old.writer) ≤ last_start }
    ensures ready { OnOk result (IsReady F.File T.PageTable S.Schedule table.now rows.new queues.new own.new streams.new pool.new
        batch.now.elements) }
    ensures still { IsStill T.PageTable table.now own.old.writer own.new.writer }
    ensures streams { IsSameStream F.File streams.old streams.new }
    ensures sides { (pool.new.width ≡ pool.old.width) × (pool.new.height ≡ pool.old.height) }
{
    let entries = batch.len() as u64;
    make_room::<T>(table, &mut own.writer, 2 * entries)?;
    streams.prepare(queues, &mut own.answers, &mut own.report, batch)?;
    pool.prepare::<Rt>(rt, rows)?;
    begin_pass::<Rt, F, T, S>(rt, table, queues, own, streams, pool, batch);
    Ok(())
}

/// Prepares a pass with what workers share, which no hand owns between passes.
pub(crate) fn prepare_shared<Rt: Threads + Wait, F: File, T: PageTable, S: Schedule, P: Filter>(
    rt: &Rt,
    shared: &mut MachineShared<T, S, P>,
    own: &mut PassStreamer<T>,
    streams: &mut LoaderPool<F>,
    pool: &mut PassPool<T, S>,
    batch: &Batch,
) -> Result<(), NoMemory>
    requires idle { IsIdle F.File T.PageTable (arc_value shared.old).parts.table own.old streams.old pool.old }
    requires root { IsSome (newest (T.journal own.old.writer) (root_of (T.shape own.old.writer))) }
    requires lawful { IsBatchFor (T.shape own.old.writer) (T.frame_count own.old.writer) (newest (T.journal own.old.writer))
        batch.now.elements }
    requires few { length batch.now.elements ≤ streams.old.crew.batch }
    requires early { length (T.journal own.old.writer) ≤ last_start }
    ensures ready { OnOk result (IsReady F.File T.PageTable S.Schedule (arc_value shared.new).parts.table (arc_value shared.new).parts.rows
        (arc_value shared.new).parts.queues own.new streams.new pool.new batch.now.elements) }
    ensures still { IsStill T.PageTable (arc_value shared.old).parts.table own.old.writer own.new.writer }
    ensures streams { IsSameStream F.File streams.old streams.new }
    ensures sides { (pool.new.width ≡ pool.old.width) × (pool.new.height ≡ pool.old.height) }
{
    match Arc::get_mut(shared) {
        Some(shared) => {
            let parts = &mut shared.parts;
            prepare_pass::<Rt, F, T, S>(
                rt,
                &parts.table,
                &mut parts.rows,
                &mut parts.queues,
                own,
                streams,
                pool,
                batch,
            )
        }
        None => Err(NoMemory),
    }
}

/// Ends the round of the loaders, brings the samplers home, and tells what the pass did, if memory was not refused. It may wait.
pub fn end_pass<Rt: Threads + Wait, F: File, T: PageTable, S: Schedule, P: Filter>(
    rt: &Rt,
    table: &T::Shared,
    rows: &S::Shared,
    queues: &Queues,
    streams: &mut LoaderPool<F>,
    pool: &mut PassPool<T, S>,
    loaders: Items<QueuedLoader<F>>,
    samplers: Items<PassSampler<T, S>>,
    own: &mut PassStreamer<T>,
    shot: &Shot<'_>,
    batch: &Batch,
) -> Result<PassReport, NoMemory>
    requires { (b : Begun F T S T.Shared T.Reader T.Writer S.Shared S.Own S.Home)
        × MayFinish F.File T.PageTable S.Schedule P.Filter table.now rows.now queues.now streams.old pool.old
        (job_of shot.now batch.now.elements) loaders.elements samplers.elements own.old b }
    ensures ended { (b : Begun F T S T.Shared T.Reader T.Writer S.Shared S.Own S.Home)
        → MayFinish F.File T.PageTable S.Schedule P.Filter table.now rows.now queues.now streams.old pool.old
        (job_of shot.now batch.now.elements) loaders.elements samplers.elements own.old b
        → HasEndedStream F.File streams.old streams.new batch.now.elements own.old.report b.stream }
    ensures still { IsStill T.PageTable table.now own.old.writer own.new.writer }
    ensures own { own.new ≡ record own.old { writer = own.new.writer; answers = own.new.answers; report = own.new.report } }
    ensures pool { pool.new ≡ record pool.old {
      home = pool.new.home;
      samplers = pool.new.samplers;
      drawn = pool.new.drawn;
      lines = pool.new.lines;
      counts = pool.new.counts;
    } }
    ensures went_on { OnOk result (own.old.refused ≡ false) }
    ensures drawn { IfOk result (λ report. (b : Begun F T S T.Shared T.Reader T.Writer S.Shared S.Own S.Home)
        → MayFinish F.File T.PageTable S.Schedule P.Filter table.now rows.now queues.now streams.old pool.old
        (job_of shot.now batch.now.elements) loaders.elements samplers.elements own.old b
        → HasEnded T.PageTable P.Filter S.DEALT pool.old pool.new (job_of shot.now batch.now.elements).scene shot.now.picture
        (length (T.journal b.streamer.writer)) own.old.writer own.new.writer b.samplers report.rows.elements) }
    ensures sound { OnOk result (IsSound T.PageTable own.new.writer) }
    ensures events { IfOk result (λ report. report.events.elements ≡ own.old.report.events.elements) }
    ensures losses { IfOk result (λ report. report.losses.elements ≡ own.old.report.losses.elements) }
    ensures refused { OnErr result T.refuses }
    ensures emptied { AreEmptied queues.now streams.new.round.asks own.new.answers }
{
    let (events, losses) = streams.end_round(queues, loaders, &mut own.answers, &mut own.report);
    if own.refused {
        return Err(NoMemory);
    }
    let lines = pool.finish::<P, Rt>(rt, table, rows, &mut own.writer, samplers, shot)?;
    if !T::is_sound(table, &own.writer) {
        return Err(NoMemory);
    }
    Ok(PassReport {
        rows: lines,
        events,
        losses,
    })
}
