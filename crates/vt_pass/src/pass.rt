//! One pass over words that its caller holds.

ghost use Rattle.std.specs.Prelude.{◌≡◌, IsSome, length};
ghost use Rattle.vt_pass_machine.specs.Pages.{root_of};
ghost use Rattle.vt_pass_machine.specs.Changes.{newest};
ghost use Rattle.vt_pass_machine.specs.Placing.{bytes_of};
ghost use Rattle.vt_loading.specs.Jobs.{job_of};
ghost use Rattle.vt_loading.specs.Passes.{IsJobFor, Ran};
ghost use Rattle.vt_loading.specs.RoundStocks.{AreEmptied};
ghost use Rattle.vt_loading.specs.LoaderPools.{stream_before};
ghost use Rattle.vt_pass_machine.specs.Machines.{IsIdle, IsPrepared, IsReady, Begun, MayFinish, setup_by, state_by, drawing_by_turns, drawn_by};
ghost use Rattle.vt_pass.specs.NewRows.{AreNewRows};
ghost use Rattle.vt_pass.specs.Runs.{HasRunLent};

use std::marker::PhantomData;
use std::sync::Wait;
use std::thread::Threads;
use vt_grace::Words;
use vt_load::{QueuedLoader, Queues};
use vt_loading::{Batch, LoaderPool, PassReport, work_together};
use vt_outside::{File, Gate, Items};
use vt_pass_machine::{
    Dealt, Filter, Nothing, PageTable, PassPool, PassSampler, PassStreamer, Schedule, Shot,
    begin_pass, end_pass,
};
use vt_pass_pool::{LentParts, PassShared};
use vt_word_table::WordTable;

// Moves the workers of a pass back, and tells what it did.
fn end_lent<Rt: Threads + Wait, F: File, P: Filter>(
    rt: &Rt,
    words: &Words,
    rows: &Nothing,
    queues: &Queues,
    streams: &mut LoaderPool<F>,
    pool: &mut PassPool<WordTable, Dealt>,
    loaders: Items<QueuedLoader<F>>,
    samplers: Items<PassSampler<WordTable, Dealt>>,
    own: &mut PassStreamer<WordTable>,
    shot: &Shot<'_>,
    batch: &Batch,
) -> PassReport
    requires { (b : Begun _ _ _ _ _ _ _ _ _) × MayFinish F.File ⟦<WordTable as PageTable>⟧ ⟦<Dealt as Schedule>⟧ P.Filter words.now rows.now
        queues.now streams.old pool.old (job_of shot.now batch.now.elements) loaders.elements samplers.elements own.old b }
    ensures run { (b : Begun _ _ _ _ _ _ _ _ _) → MayFinish F.File ⟦<WordTable as PageTable>⟧ ⟦<Dealt as Schedule>⟧ P.Filter words.now
        rows.now queues.now streams.old pool.old (job_of shot.now batch.now.elements) loaders.elements samplers.elements own.old b
        → HasRunLent F.File P.Filter words.now (job_of shot.now batch.now.elements) result
        (state_by F.File (length b.streamer.writer.owners) b.streamer.writer.writer.journal (stream_before streams.old b.stream) pool.old)
        b.streamer.writer b.samplers own.new streams.new pool.new }
    ensures emptied { AreEmptied queues.now streams.new.round.asks own.new.answers }
{
    match end_pass::<Rt, F, WordTable, Dealt, P>(
        rt, words, rows, queues, streams, pool, loaders, samplers, own, shot, batch,
    ) {
        Ok(report) => report,
        Err(_) => unreachable!(),
    }
}

// Draws the picture of a shot by a filter and streams the batch, for which samplers and loaders are ready, at the same time. It may wait.
fn draw_and_stream<Rt: Threads + Wait + Sync, F: File + Send, P: Filter + Sync, G: Gate + Sync>(
    rt: &Rt,
    words: &Words,
    rows: &Nothing,
    queues: &Queues,
    own: &mut PassStreamer<WordTable>,
    streams: &mut LoaderPool<F>,
    pool: &mut PassPool<WordTable, Dealt>,
    shot: &Shot<'_>,
    batch: &Batch,
    gate: &G,
) -> PassReport
    requires ready { IsReady F.File ⟦<WordTable as PageTable>⟧ ⟦<Dealt as Schedule>⟧ words.now rows.now queues.now own.old streams.old pool.old
        batch.now.elements }
    requires job { IsJobFor (setup_by F.File (length own.old.writer.owners) streams.old pool.old) (job_of shot.now batch.now.elements) }
    ensures run { HasRunLent F.File P.Filter words.now (job_of shot.now batch.now.elements) result
        (state_by F.File (length own.old.writer.owners) own.old.writer.writer.journal streams.old pool.old) own.old.writer
        pool.old.samplers.elements own.new streams.new pool.new }
    ensures emptied { AreEmptied queues.now streams.new.round.asks own.new.answers }
{
    let mut loaders = streams.detach(queues, &mut own.answers);
    let mut samplers = pool.detach();
    let shared = PassShared {
        parts: LentParts::<'_, WordTable, Dealt, P> {
            table: words,
            rows,
            queues,
            filter: PhantomData,
        },
    };
    work_together(
        rt,
        loaders.slice_mut(),
        samplers.slice_mut(),
        own,
        &shared,
        shot,
        batch.slice(),
        gate,
    );
    end_lent::<Rt, F, P>(
        rt, words, rows, queues, streams, pool, loaders, samplers, own, shot, batch,
    )
}

/// Gives the samplers their passes, puts the requests of a batch, and then draws the picture of a shot by a filter and streams the batch at
/// the same time. It takes no memory. It may wait.
pub(crate) fn begin_and_draw<
    Rt: Threads + Wait + Sync,
    F: File + Send,
    P: Filter + Sync,
    G: Gate + Sync,
>(
    rt: &Rt,
    words: &Words,
    rows: &Nothing,
    queues: &Queues,
    own: &mut PassStreamer<WordTable>,
    streams: &mut LoaderPool<F>,
    pool: &mut PassPool<WordTable, Dealt>,
    shot: &Shot<'_>,
    batch: &Batch,
    gate: &G,
) -> PassReport
    requires prepared { IsPrepared F.File ⟦<WordTable as PageTable>⟧ ⟦<Dealt as Schedule>⟧ words.now rows.now queues.now own.old streams.old
        pool.old batch.now.elements }
    requires root { IsSome (newest own.old.writer.writer.journal (root_of own.old.writer.shape)) }
    requires job { IsJobFor (setup_by F.File (length own.old.writer.owners) streams.old pool.old) (job_of shot.now batch.now.elements) }
    ensures ran { Ran (drawing_by_turns P.Filter ⟦<Dealt as Schedule>⟧.DEALT)
        (drawn_by ⟦<WordTable as PageTable>⟧ P.Filter ⟦<Dealt as Schedule>⟧.DEALT pool.new (Some own.new)) (job_of shot.now batch.now.elements) result
        (state_by F.File (length own.old.writer.owners) own.old.writer.writer.journal streams.old pool.old)
        (state_by F.File (length own.new.writer.owners) own.new.writer.writer.journal streams.new pool.new) }
    ensures idle { IsIdle F.File ⟦<WordTable as PageTable>⟧ words.now own.new streams.new pool.new }
    ensures came { AreNewRows P.Filter pool.new.geometry pool.new.depth own.old.writer.writer own.new.writer.writer shot.now.path.now
        shot.now.picture result.rows.elements (bytes_of pool.new.drawn.elements) }
    ensures emptied { AreEmptied queues.now streams.new.round.asks own.new.answers }
{
    begin_pass::<Rt, F, WordTable, Dealt>(rt, words, queues, own, streams, pool, batch);
    draw_and_stream::<Rt, F, P, G>(
        rt, words, rows, queues, own, streams, pool, shot, batch, gate,
    )
}
