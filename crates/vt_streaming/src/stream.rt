//! A batch is streamed, result by result, until there was one for each entry: one loop for all targets.

ghost use Rattle.std.specs.Prelude.{◌≡◌, ◌*◌, ◌<◌, ◌^◌, ◌++◌, false, true, length, All};
ghost use Rattle.vt_journal.specs.Changes.{newest};
ghost use Rattle.vt_queue.specs.Queues.{queue_view_of, queue_splits_of, IsPassOfQueue};
ghost use Rattle.vt_requests.specs.Outcomes.{IsBatchFor};
ghost use Rattle.vt_requests.specs.BatchRounds.{result_events, AreLossesOf};
ghost use Rattle.vt_requests.specs.TakenResults.{Streams};
ghost use Rattle.vt_requests.specs.BlankReports.{IsBlank};
ghost use Rattle.vt_streaming.specs.Applied.{AreApplied};

use crate::results::{is_wanted, stream_result};
use crate::target::Target;
use crate::waits::take_result;
use std::sync::Wait;
use std::thread::Threads;
use vt_outside::Gate;
use vt_queue::{Loaded, QueuePass, ResultQueue};
use vt_requests::{Planned, StreamReport};

/// Takes results until there was one for each entry of a batch, and applies each to the entry of its ticket as it comes: where the
/// tile was read, the page is put in the place of its victim; where it is lost, that is noted. Other results are dropped: those whose
/// ticket is no entry's or was taken before in this call, and those whose buffer has not the length of a tile that the target takes.
/// It tells whether memory was refused; from then on results are taken and noted, and not applied. It may wait, with a pause before each
/// new look. The gate is told of each version.
pub fn stream_results<A: Target, Rt: Threads + Wait, G: Gate>(
    rt: &Rt,
    target: &A,
    writer: &mut A::Writer,
    results: &ResultQueue,
    answers: &mut QueuePass<Loaded>,
    batch: &[Planned],
    into: &mut StreamReport,
    gate: &G,
) -> bool
    requires of { A.is_of target.now writer.old }
    requires answers { IsPassOfQueue results.now answers.old }
    requires lawful { IsBatchFor (A.shape writer.old) (A.frame_count writer.old) (newest (A.journal writer.old)) batch.now }
    requires few { length batch.now < 2 ^ 32 }
    requires room { A.has_room writer.old (2 * length batch.now) }
    requires report { IsBlank (length batch.now) into.old }
    ensures of { A.is_of target.now writer.new }
    ensures shape { A.shape writer.new ≡ A.shape writer.old }
    ensures frames { A.frame_count writer.new ≡ A.frame_count writer.old }
    ensures lasts { A.lasts writer.old writer.new }
    ensures answers { IsPassOfQueue results.now answers.new × (queue_splits_of answers.new ≡ queue_splits_of answers.old) }
    ensures took { Streams (length batch.now) (queue_view_of answers.old) (queue_view_of answers.new) into.new.taken.elements
        into.new.results.elements }
    ensures all { length into.new.results.elements ≡ length batch.now }
    ensures losses { AreLossesOf batch.now into.new.results.elements into.new.losses.elements }
    ensures tiles { All (λ x. A.is_tile target.now (A.shape writer.old) (length x.request.buffer.elements) ≡ true) into.new.results.elements }
    ensures applied { result ≡ false → AreApplied (A.has_put target.now) batch.now into.new.results.elements writer.old writer.new }
    ensures events { result ≡ false → into.new.events.elements
        ≡ into.old.events.elements ++ result_events batch.now into.new.results.elements }
    ensures refused { result ≡ true → A.refuses }
{
    let mut refused = false;
    let mut done = 0;
    for _ in rt.forever() {
        if done >= batch.len() {
            return refused;
        }
        let loaded = take_result(rt, results, answers);
        if is_wanted::<A>(target, writer, &into.taken, &loaded) {
            refused = stream_result::<A, Rt, G>(
                rt, target, writer, batch, loaded, refused, into, gate,
            );
            done += 1;
        }
    }
    unreachable!()
}
