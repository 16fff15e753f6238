//! In how many threads the workers of a pass are at work.
//!
//! A job for a hand of a crew costs some 10 microseconds of processor time, a thread that is made and joined 25 to 60. A pixel takes 4 to 5
//! nanoseconds, and a tile in the system's cache is read in some 10 microseconds, but one that it has not may take milliseconds. So samplers share
//! a thread where each would have few pixels, and loaders have a thread for each request where there are two requests or more.

ghost use Rattle.std.specs.Prelude.{◌≡◌, ◌+◌, ◌*◌, ◌<◌, ◌≤◌, ◌⊎◌, length};

use crate::crew::Crew;
use crate::hand_task::HandTask;
use crate::machine::PassMachine;
use vt_evict::Planned;
use vt_pictures::Path;

// For how many pixels a thread more pays that is made for the pass.
const PIXELS: usize = 16_384;

// For how many pixels a hand more pays.
const HAND_PIXELS: usize = 4_096;

// How many pixels a picture has.
fn pixels_of(path: &Path) -> usize
    ensures { result ≡ path.now.width * path.now.height }
{
    path.width() as usize * path.height() as usize
}

// So many threads, or two where samplers are to have two at least.
fn for_samplers<S, M: HandTask<S>>(threads: usize) -> usize
    ensures least { threads ≤ result }
    ensures most { (result ≡ threads) ⊎ (result ≡ 2) }
{
    if M::IN_TWO && threads < 2 { 2 } else { threads }
}

/// In how many threads that are made for a pass its samplers are at work: in one, and one more for each `PIXELS` of a picture, or in two where that is
/// one and they are to have two.
pub(crate) fn sampler_threads<S, M: HandTask<S>>(path: &Path) -> usize
    ensures some { 1 ≤ result }
    ensures few { (result ≡ 2) ⊎ (result * 16384 ≤ path.now.width * path.now.height + 16384) }
    ensures all { path.now.width * path.now.height < result * 16384 }
{
    for_samplers::<S, M>(1 + pixels_of(path) / PIXELS)
}

/// To how many hands samplers go: to one, and to one more for each `HAND_PIXELS` of a picture, or to two where that is one and they are to have two.
pub(crate) fn sampler_hands<S, M: HandTask<S>>(samplers: usize, path: &Path) -> usize
    ensures { result ≤ samplers }
{
    let hands = for_samplers::<S, M>(1 + pixels_of(path) / HAND_PIXELS);
    if samplers < hands { samplers } else { hands }
}

/// How many hands a walk by a machine of this kind has use for, with so many samplers and loaders.
pub fn hands_for<M: PassMachine>(crew: &Crew, path: &Path) -> usize
    ensures { result ≤ crew.now.samplers + crew.now.loaders }
{
    sampler_hands::<M::Shared, M::Sampler>(crew.samplers as usize, path) + crew.loaders as usize
}

/// In how many threads the loaders of a batch are at work: in no more than there are requests.
pub(crate) fn loader_threads(batch: &[Planned]) -> usize
    ensures { result ≡ length batch.now }
{
    batch.len()
}
