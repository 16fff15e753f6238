//! Calls that are made again, after a pause, until they are answered.

ghost use Rattle.std.specs.Prelude.{◌≡◌, ◌+◌, ◌<◌, ◌≤◌, [], ◌∷◌, length};
ghost use Rattle.vt_journal.specs.declared.changes.Event.TheVariants.{Changed};
ghost use Rattle.vt_journal.specs.Changes.{newest, IsFree, IsLegalNext};
ghost use Rattle.vt_streamer.specs.TableViews.{filled_for, filled_after, IsReady, IsTableChange};
ghost use Rattle.vt_streamer.specs.Places.{content_of};
ghost use Rattle.vt_streamer.specs.GraceBanks.{MayFill};
ghost use Rattle.vt_streamer.specs.Views.{streamer_table, IsStreamerOf};
ghost use Rattle.vt_queue.specs.Steps.{Takes};
ghost use Rattle.vt_queue.specs.Queues.{queue_view_of, queue_splits_of, IsPassOfQueue};
ghost use Rattle.vt_streaming.specs.Made.{HasMade, after_looks};

use crate::pause::pause;
use std::sync::Wait;
use std::thread::Threads;
use vt_journal::Change;
use vt_queue::{Loaded, QueuePass, ResultQueue};
use vt_streamer::{Streamer, Words};

/// Takes the first result. It waits until there is one, with a pause before each new look.
pub(crate) fn take_result<Rt: Threads + Wait>(
    rt: &Rt,
    results: &ResultQueue,
    answers: &mut QueuePass<Loaded>,
) -> Loaded
    requires of { IsPassOfQueue results.now answers.old }
    ensures of { IsPassOfQueue results.now answers.new × (queue_splits_of answers.new ≡ queue_splits_of answers.old) }
    ensures takes { Takes (queue_view_of answers.old) result (queue_view_of answers.new) }
{
    let mut pauses = 0;
    for _ in rt.forever() {
        match results.take(rt, answers) {
            Some(loaded) => return loaded,
            None => pauses = pause(rt, pauses),
        }
    }
    unreachable!()
}

/// Waits until a frame that no page is mapped to may be filled.
pub(crate) fn free_frame<Rt: Wait>(rt: &Rt, words: &Words, streamer: &mut Streamer, frame: u32)
    requires of { IsStreamerOf words.now streamer.old }
    requires inside { frame < length streamer.old.owners }
    requires free { IsFree (newest streamer.old.writer.journal) frame }
    ensures of { IsStreamerOf words.now streamer.new }
    ensures may { MayFill streamer.new.writer frame }
    ensures looked { streamer.new ≡ after_looks streamer.old streamer.new.writer }
{
    let mut pauses = 0;
    for _ in rt.forever() {
        match streamer.try_free(words, frame) {
            Ok(()) => return,
            Err(_) => pauses = pause(rt, pauses),
        }
    }
    unreachable!()
}

/// Publishes a change, and tells its version. It waits until no sampler holds a version that the change would write over.
pub(crate) fn publish<Rt: Wait>(
    rt: &Rt,
    words: &Words,
    streamer: &mut Streamer,
    change: Change,
) -> u64
    requires of { IsStreamerOf words.now streamer.old }
    requires room { 1 ≤ streamer.old.spare }
    requires within { IsTableChange (streamer_table streamer.old) change }
    requires legal { IsLegalNext streamer.old.shape (newest streamer.old.writer.journal) change }
    requires ready { IsReady (streamer_table streamer.old) change }
    ensures of { IsStreamerOf words.now streamer.new }
    ensures version { result ≡ length streamer.new.writer.journal }
    ensures made { HasMade (Changed change ∷ []) (content_of words.now.sizes streamer.old.writer.texels change ∷ [])
        streamer.old.writer streamer.new.writer }
    ensures filled { filled_for (streamer_table streamer.new) ≡ filled_after (filled_for (streamer_table streamer.old)) change }
    ensures shape { streamer.new.shape ≡ streamer.old.shape }
    ensures spare { streamer.old.spare ≤ streamer.new.spare + 1 }
{
    let mut pauses = 0;
    for _ in rt.forever() {
        match streamer.try_publish(words, change) {
            Ok(version) => return version,
            Err(_) => pauses = pause(rt, pauses),
        }
    }
    unreachable!()
}
