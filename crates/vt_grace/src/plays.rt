//! What each step on the words tells the thread that makes it.

ghost use Rattle.vt_grace.specs.Plays.{hinted, announced, held, unpinned, looked, published, learnt, read, entered, worded, filled};
ghost use Rattle.vt_grace.specs.Giving.{giving, fresh_pass, taken};
ghost use Rattle.vt_grace.specs.declared.views.View.TheVariants.{Spent};

use crate::views::View;
use atomic_table::{Join, Play, Split};

/// The newest version is read as a hint.
pub(crate) struct Hint;

impl Play<(), View> for Hint {
    ghost then = { hinted };
}

/// The hint is announced.
pub(crate) struct Announce;

impl Play<(), View> for Announce {
    ghost then = { announced };
}

/// The newest version is read, and held.
pub(crate) struct Hold;

impl Play<(), View> for Hold {
    ghost then = { held };
}

/// The announcement is taken back.
pub(crate) struct Unpin;

impl Play<(), View> for Unpin {
    ghost then = { unpinned };
}

/// The writer looks at a sampler.
pub(crate) struct LookAt;

impl Play<(), View> for LookAt {
    ghost then = { looked };
}

/// The writer publishes a version.
pub(crate) struct Publish;

impl Play<(), View> for Publish {
    ghost then = { published };
}

/// The writer learns that all notes that it has are true.
pub(crate) struct Learn;

impl Play<(), View> for Learn {
    ghost then = { learnt };
}

/// A sampler reads an entry.
pub(crate) struct Read;

impl Play<(), View> for Read {
    ghost then = { read };
}

/// The writer writes an entry.
pub(crate) struct Enter;

impl Play<(), View> for Enter {
    ghost then = { entered };
}

/// A sampler reads a texel word.
pub(crate) struct ReadWord;

impl Play<(), View> for ReadWord {
    ghost then = { worded };
}

/// The writer writes a texel word.
pub(crate) struct FillWord;

impl Play<(), View> for FillWord {
    ghost then = { filled };
}

/// A pass is given to the sampler at which the writer looked last.
pub(crate) struct Give;

impl Split<View> for Give {
    ghost left = { giving };

    ghost right = { fresh_pass };
}

/// A pass is taken back.
pub(crate) struct TakeBack;

impl Join<View> for TakeBack {
    ghost both = { taken };

    ghost spent = { Spent };
}
