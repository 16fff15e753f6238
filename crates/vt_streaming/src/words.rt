//! A batch is streamed into the shared words.

ghost use Rattle.std.specs.Prelude.{◌≡◌, ◌*◌, ◌<◌, ◌≤◌, ◌^◌, ◌++◌, length, All};
ghost use Rattle.vt_journal.specs.Changes.{newest};
ghost use Rattle.vt_streamer.specs.TableViews.{IsTile};
ghost use Rattle.vt_queue.specs.Queues.{queue_view_of, queue_splits_of, IsPassOfQueue};
ghost use Rattle.vt_streamer.specs.Views.{IsStreamerOf};
ghost use Rattle.vt_requests.specs.Outcomes.{IsBatchFor};
ghost use Rattle.vt_requests.specs.BatchRounds.{result_events, AreLossesOf};
ghost use Rattle.vt_streaming.specs.Made.{HasStreamed};
ghost use Rattle.vt_requests.specs.TakenResults.{Streams, is_tile_length};
ghost use Rattle.vt_requests.specs.BlankReports.{IsBlank};

use crate::entries::put_entry;
use crate::stream::stream_results;
use crate::target::Target;
use std::sync::Wait;
use std::thread::Threads;
use vt_journal::Geometry;
use vt_outside::Gate;
use vt_queue::{Loaded, QueuePass, ResultQueue};
use vt_requests::{Planned, StreamReport};
use vt_streamer::{Streamer, Words};

// Whether so many bytes are those of a tile, of samples of one byte or of two.
fn is_tile_length(geometry: &Geometry, length: usize) -> bool
    ensures { result ≡ is_tile_length geometry.now length }
{
    let side = geometry.tile() as usize;
    let texels = side * side;
    length == 3 * texels || length == 6 * texels
}

impl Target for Words {
    ghost use Rattle.std.specs.Prelude.{◌≤◌, length};
    ghost use Rattle.std.proofs.Common.{le_trans};
    ghost use Rattle.vt_streamer.specs.Views.{IsStreamerOf};
    ghost use Rattle.vt_requests.specs.TakenResults.{is_tile_length};
    ghost use Rattle.vt_streaming.specs.Made.{HasPut};

    type Writer = Streamer;

    ghost is_of = { λ words w. IsStreamerOf words w };

    ghost shape = { λ w. w.shape };

    ghost frame_count = { λ w. length w.owners };

    ghost journal = { λ w. w.writer.journal };

    ghost has_room = { λ w n. n ≤ w.spare };

    ghost is_tile = { λ words s n. is_tile_length s n };

    ghost has_put = { λ words e tile v w. HasPut e tile v w };

    ghost lasts = { λ v w. Unit {0} };

    ghost refuses = { ⊥ };

    fn takes(&self, streamer: &Streamer, length: usize) -> bool {
        is_tile_length(streamer.geometry(), length)
    }

    fn put<R: Wait, G: Gate>(
        &self,
        rt: &R,
        streamer: &mut Streamer,
        planned: &Planned,
        tile: &[u8],
        gate: &G,
    ) -> bool {
        put_entry(rt, self, streamer, planned, tile, gate);
        true
    }

    ghost room_less = { λ w m n less room. le_trans less room };

    ghost lasts_none = { λ w. tt };

    ghost lasts_twice = { λ u v w one two. tt };
}

/// Takes results until there was one for each entry of a batch, and applies each to the entry of its ticket as it comes:
/// where the tile was read, the victim is unmapped, the frame filled once no sampler may look at it, and the page mapped;
/// where it is lost, that is noted. Other results are dropped: those whose ticket is no entry's or was taken before in this
/// call, and those whose buffer has not the length of a tile. It takes no memory, and it may wait. The gate is told of each
/// version.
pub fn stream_batch<Rt: Threads + Wait, G: Gate>(
    rt: &Rt,
    words: &Words,
    streamer: &mut Streamer,
    results: &ResultQueue,
    answers: &mut QueuePass<Loaded>,
    batch: &[Planned],
    into: &mut StreamReport,
    gate: &G,
)
    requires streamer { IsStreamerOf words.now streamer.old }
    requires answers { IsPassOfQueue results.now answers.old }
    requires lawful { IsBatchFor streamer.old.shape (length streamer.old.owners) (newest streamer.old.writer.journal)
        batch.now }
    requires few { length batch.now < 2 ^ 32 }
    requires spare { 2 * length batch.now ≤ streamer.old.spare }
    requires report { IsBlank (length batch.now) into.old }
    ensures streamer { IsStreamerOf words.now streamer.new }
    ensures answers { IsPassOfQueue results.now answers.new × (queue_splits_of answers.new ≡ queue_splits_of answers.old) }
    ensures took { Streams (length batch.now) (queue_view_of answers.old) (queue_view_of answers.new) into.new.taken.elements
        into.new.results.elements }
    ensures all { length into.new.results.elements ≡ length batch.now }
    ensures streamed { HasStreamed streamer.old.shape batch.now into.new.results.elements streamer.old.writer
        streamer.new.writer }
    ensures shape { streamer.new.shape ≡ streamer.old.shape }
    ensures frames { length streamer.new.owners ≡ length streamer.old.owners }
    ensures events { into.new.events.elements
        ≡ into.old.events.elements ++ result_events batch.now into.new.results.elements }
    ensures tiles { All (λ x. IsTile streamer.old.shape x.request.buffer.elements) into.new.results.elements }
    ensures losses { AreLossesOf batch.now into.new.results.elements into.new.losses.elements }
{
    stream_results::<Words, Rt, G>(rt, words, streamer, results, answers, batch, into, gate);
}
