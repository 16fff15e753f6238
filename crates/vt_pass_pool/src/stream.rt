//! A batch is streamed, result by result, until there was one for each entry.

ghost use Rattle.std.specs.Prelude.{◌≡◌, ℕ, ◌*◌, ◌<◌, ◌^◌, ◌++◌, false, true, length, All};
ghost use Rattle.vt_definitions.specs.Depths.{IsDepth};
ghost use Rattle.vt_journal.specs.Changes.{newest};
ghost use Rattle.vt_page_table.specs.Format.{tile_length};
ghost use Rattle.vt_page_table.specs.Outcomes.{IsBatchFor};
ghost use Rattle.vt_queue.specs.Queues.{queue_view_of, queue_splits_of, IsPassOfQueue};
ghost use Rattle.vt_streaming.specs.BatchRounds.{result_events, AreLossesOf};
ghost use Rattle.vt_streaming.specs.TakenResults.{Streams};
ghost use Rattle.vt_streaming.specs.BlankReports.{IsBlank};
ghost use Rattle.vt_pass_pool.specs.Streamed.{HasStreamedAll};

use crate::tiles::TableTiles;
use std::sync::Wait;
use std::thread::Threads;
use vt_journal::Geometry;
use vt_outside::Gate;
use vt_page_table::{PageTable, Planned, tile_length};
use vt_queue::{Loaded, QueuePass, ResultQueue};
use vt_streaming::{StreamReport, stream_results};

/// Takes results until there was one for each entry of a batch, and applies each to the entry of its ticket as it comes: where the
/// tile was read, the victim is unmapped, the frame filled and the page mapped; where it is lost, that is noted. Other results are
/// dropped: those whose ticket is no entry's or was taken before in this call, and those whose buffer has not the length of a tile
/// of this depth. It tells whether memory was refused; from then on results are taken and noted, and not applied. It may wait, with a
/// pause before each new look. The gate is told of each version.
pub fn stream_into<T: PageTable, Rt: Threads + Wait, G: Gate>(
    rt: &Rt,
    shared: &T::Shared,
    writer: &mut T::Writer,
    geometry: &Geometry,
    depth: u32,
    results: &ResultQueue,
    answers: &mut QueuePass<Loaded>,
    batch: &[Planned],
    into: &mut StreamReport,
    gate: &G,
) -> bool
    requires of { T.is_of shared.now writer.old }
    requires shape { T.shape writer.old ≡ geometry.now }
    requires depth { IsDepth depth }
    requires answers { IsPassOfQueue results.now answers.old }
    requires lawful { IsBatchFor (T.shape writer.old) (T.frame_count writer.old) (newest (T.journal writer.old)) batch.now }
    requires few { length batch.now < 2 ^ 32 }
    requires room { T.has_room writer.old (2 * length batch.now) }
    requires report { IsBlank (length batch.now) into.old }
    ensures of { T.is_of shared.now writer.new }
    ensures shape { T.shape writer.new ≡ T.shape writer.old }
    ensures frames { T.frame_count writer.new ≡ T.frame_count writer.old }
    ensures home { (k : ℕ) (r : T.Reader) → T.is_home writer.old k r → T.is_home writer.new k r }
    ensures answers { IsPassOfQueue results.now answers.new × (queue_splits_of answers.new ≡ queue_splits_of answers.old) }
    ensures took { Streams (length batch.now) (queue_view_of answers.old) (queue_view_of answers.new) into.new.taken.elements
        into.new.results.elements }
    ensures all { length into.new.results.elements ≡ length batch.now }
    ensures losses { AreLossesOf batch.now into.new.results.elements into.new.losses.elements }
    ensures tiles { All (λ x. length x.request.buffer.elements ≡ tile_length (T.shape writer.old) depth) into.new.results.elements }
    ensures streamed { result ≡ false → HasStreamedAll T.PageTable depth batch.now into.new.results.elements writer.old writer.new }
    ensures events { result ≡ false → into.new.events.elements
        ≡ into.old.events.elements ++ result_events batch.now into.new.results.elements }
    ensures refused { result ≡ true → T.refuses }
{
    let tiles = TableTiles::<'_, T> {
        table: shared,
        depth,
        size: tile_length(geometry, depth),
    };
    stream_results::<TableTiles<'_, T>, Rt, G>(
        rt, &tiles, writer, results, answers, batch, into, gate,
    )
}
