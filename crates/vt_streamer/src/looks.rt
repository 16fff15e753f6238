//! The writer looks at the samplers whose floors are below a version.

ghost use Rattle.std.specs.Prelude.{◌≡◌, ℕ, ◌<◌, ◌≤◌, false, IfNone, IfSome, IsNone};
ghost use Rattle.vt_grace.specs.WriterViews.{raised, floor_of, version_of, is_out};
ghost use Rattle.vt_grace.specs.Sound.{IsSound};
ghost use Rattle.vt_grace.specs.Tokens.{IsWriterOf};
ghost use Rattle.vt_streamer.specs.Looks.{HasOnlyLooked, IsBehind, IsFirstBehind};

use vt_grace::{Words, WriterSeat};

/// Whom a call waits for: a sampler that may still hold a version that the call would write over.
#[derive(Clone, Copy)]
pub struct Waiting {
    /// The sampler.
    pub sampler: u32,
    /// The version that it announced: it may hold this one or a later one.
    pub holds: u64,
}

// A floor after a look.
fn raise(version: u64, floor: u64, word: u64) -> u64
    ensures { result ≡ raised version floor word }
{
    if word == 0 {
        version
    } else if word - 1 > floor {
        word - 1
    } else {
        floor
    }
}

// Looks at a sampler whose floor is below a version.
fn reach(
    words: &Words,
    writer: &mut WriterSeat,
    floors: &mut [u64],
    sampler: u32,
    least: u64,
) -> Option<Waiting>
    requires of { IsWriterOf words.now writer.old }
    requires sound { IsSound writer.old.view }
    requires floors { floors.old ≡ writer.old.view.floors }
    requires inside { sampler < words.now.sizes.samplers }
    requires least { least ≤ version_of writer.old.view }
    ensures of { IsWriterOf words.now writer.new }
    ensures sound { IsSound writer.new.view }
    ensures floors { floors.new ≡ writer.new.view.floors }
    ensures looked { HasOnlyLooked writer.old.view writer.new.view }
    ensures reached { IfNone result (least ≤ floor_of writer.new.view sampler) }
    ensures waiting { IfSome result (λ w. (w.sampler ≡ sampler) × IsBehind writer.old.view writer.new.view least sampler w.holds) }
    ensures idle { is_out writer.old.view sampler ≡ false → IsNone result }
{
    let floor = floors[sampler as usize];
    if floor >= least {
        return None;
    }
    let word = writer.look(words, sampler);
    let now = raise(writer.version(), floor, word);
    floors[sampler as usize] = now;
    if now >= least {
        None
    } else {
        Some(Waiting {
            sampler,
            holds: word - 1,
        })
    }
}

/// Looks at each sampler whose floor is below a version, from the least sampler on, until one stays below it.
pub(crate) fn reach_all(
    words: &Words,
    writer: &mut WriterSeat,
    floors: &mut [u64],
    samplers: u32,
    least: u64,
) -> Option<Waiting>
    requires of { IsWriterOf words.now writer.old }
    requires sound { IsSound writer.old.view }
    requires floors { floors.old ≡ writer.old.view.floors }
    requires samplers { samplers ≡ words.now.sizes.samplers }
    requires least { least ≤ version_of writer.old.view }
    ensures of { IsWriterOf words.now writer.new }
    ensures sound { IsSound writer.new.view }
    ensures floors { floors.new ≡ writer.new.view.floors }
    ensures looked { HasOnlyLooked writer.old.view writer.new.view }
    ensures reached { IfNone result ((k : ℕ) → k < samplers → least ≤ floor_of writer.new.view k) }
    ensures waiting { IfSome result (λ w. IsFirstBehind writer.old.view writer.new.view least w.sampler w.holds) }
    ensures idle { ((k : ℕ) → is_out writer.old.view k ≡ false) → IsNone result }
{
    for sampler in 0..samplers {
        if let Some(waiting) = reach(words, writer, floors, sampler, least) {
            return Some(waiting);
        }
    }
    None
}
