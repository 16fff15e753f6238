//! Changes of a small streamer of three frames that wait for the sampler by being tried again.

ghost use Rattle.std.specs.Prelude.{◌≡◌, ◌<◌, length};
ghost use Rattle.vt_tests_words.specs.SmallStreams.{IsSmallStreamer};

use crate::streamer::small::{mapped, unmapped};
use vt_grace::Words;
use vt_streamer::Streamer;

// How often a call that waits for the sampler is made again.
const TRIES: u64 = 10_000_000_000;

/// Whether a page was mapped to a frame, with a tile that is filled in.
pub(crate) fn comes_in(
    words: &Words,
    streamer: &mut Streamer,
    page: u32,
    frame: u32,
    tile: &[u8],
) -> bool
    requires small { IsSmallStreamer words.now 3 streamer.old }
    requires page { page < 5 }
    requires frame { frame < 3 }
    requires tile { length tile.now ≡ 12 }
    ensures small { IsSmallStreamer words.now 3 streamer.new }
    ensures out { streamer.new.writer.out ≡ streamer.old.writer.out }
{
    for turn in 0..TRIES {
        match mapped(words, streamer, 3, page, frame, tile) {
            Some(Ok(_)) => return true,
            Some(Err(_)) => {}
            None => return false,
        }
    }
    false
}

/// Whether a page was unmapped.
pub(crate) fn goes_out(words: &Words, streamer: &mut Streamer, page: u32, frame: u32) -> bool
    requires small { IsSmallStreamer words.now 3 streamer.old }
    requires page { page < 4 }
    requires frame { frame < 3 }
    ensures { IsSmallStreamer words.now 3 streamer.new }
{
    for turn in 0..TRIES {
        match unmapped(words, streamer, 3, page, frame) {
            Some(Ok(_)) => return true,
            Some(Err(_)) => {}
            None => return false,
        }
    }
    false
}
