//! Where the words of a table are.

ghost use Rattle.std.specs.Prelude.{◌≡◌, ◌<◌};
ghost use Rattle.vt_grace.specs.Sizes.{AreWithinLimits};
ghost use Rattle.vt_grace.specs.Places.{words_of, entry_word, texel_word};

use crate::sizes::Sizes;

/// How many words a table has.
pub(crate) fn count_words(sizes: &Sizes) -> usize
    requires { AreWithinLimits sizes.now }
    ensures { result ≡ words_of sizes.now }
{
    1 + sizes.samplers as usize
        + 4 * sizes.pages as usize
        + sizes.frames as usize * sizes.texels as usize
}

/// The word of the first entry of a bank.
pub(crate) fn first_entry(sizes: &Sizes, bank: usize) -> usize
    requires limits { AreWithinLimits sizes.now }
    requires bank { bank < 4 }
    ensures { result ≡ entry_word sizes.now bank 0 }
{
    1 + sizes.samplers as usize + bank * sizes.pages as usize
}

/// The word of the first texel of the first frame.
pub(crate) fn first_texel(sizes: &Sizes) -> usize
    requires { AreWithinLimits sizes.now }
    ensures { result ≡ texel_word sizes.now 0 0 }
{
    1 + sizes.samplers as usize + 4 * sizes.pages as usize
}

/// The word of a page's entry in a bank.
pub(crate) fn word_of_entry(sizes: &Sizes, bank: usize, page: usize) -> usize
    requires limits { AreWithinLimits sizes.now }
    requires bank { bank < 4 }
    requires page { page < sizes.now.pages }
    ensures word { result ≡ entry_word sizes.now bank page }
    ensures inside { result < words_of sizes.now }
{
    1 + sizes.samplers as usize + bank * sizes.pages as usize + page
}

/// The word of a frame at a place.
pub(crate) fn word_of_texel(sizes: &Sizes, frame: usize, place: usize) -> usize
    requires limits { AreWithinLimits sizes.now }
    requires frame { frame < sizes.now.frames }
    requires place { place < sizes.now.texels }
    ensures word { result ≡ texel_word sizes.now frame place }
    ensures inside { result < words_of sizes.now }
{
    1 + sizes.samplers as usize + 4 * sizes.pages as usize + (frame * sizes.texels as usize + place)
}

/// The first word of a frame.
pub(crate) fn start_of_frame(sizes: &Sizes, frame: u32) -> usize
    requires { AreWithinLimits sizes.now }
    ensures { result ≡ texel_word sizes.now frame 0 }
{
    let texels = frame as usize * sizes.texels as usize;
    1 + sizes.samplers as usize + 4 * sizes.pages as usize + texels
}
