//! The log of what was done to the page table and to the frames. It exists in proofs alone, but for its length.

ghost use Rattle.std.specs.Prelude.{◌≡◌, length};

use crate::records::{LogRecord, Tile};
use logbook::{Gain, Plain, Play, Rule, Seen, Word};
use vt_journal::Change;

/// The rule: the one word is the length of the log, each record of which could come after those before it.
pub struct Law;

impl Rule<LogRecord, u64> for Law {
    ghost use Rattle.std.specs.Prelude.{[]};
    ghost use base.Fml.{ftrue};
    ghost use Rattle.vt_swap_log.specs.Logs.{IsLogKept};

    ghost holds = { λ cells log. IsLogKept cells log };

    ghost first = { [] };

    ghost hinted = { λ n log. Unit {0} };

    ghost shows = { λ log. [] };

    ghost keeps = { λ names log. ftrue };

    ghost moves = { λ ask before after answer. Unit {0} };
}

/// Who adds to the log trades nothing.
pub struct Nothing;

impl Gain<LogRecord, u64> for Nothing {
    ghost use base.Fml.{ftrue};

    ghost after = { λ names about answer. ftrue };
}

/// A step that adds a record.
pub struct Add;

impl Play<LogRecord, u64> for Add {
    ghost use Rattle.vt_swap_log.specs.Logs.{AddsRecord};

    ghost then = { AddsRecord };
}

impl Plain<Change, LogRecord, u64> for Add {
    ghost use Rattle.std.specs.Prelude.{None};
    ghost use Rattle.vt_swap_log.specs.declared.records.LogRecord.TheVariants.{Changed};

    ghost ask = { λ change. Changed change };

    ghost state = { λ change. None };
}

impl Plain<Tile, LogRecord, u64> for Add {
    ghost use Rattle.std.specs.Prelude.{None};
    ghost use Rattle.vt_swap_log.specs.declared.records.LogRecord.TheVariants.{Filled};

    ghost ask = { λ tile. Filled tile.frame tile.page tile.words.items };

    ghost state = { λ tile. None };
}

/// The word that has the length of a log.
#[derive(Drop)]
pub struct Head {
    pub(crate) word: Word<LogRecord, u64, Law>,
}

/// A beginning of a log that was seen, and how large the page cache of that log is.
#[derive(Drop)]
pub struct Front {
    /// How many pages the cache has.
    pub pages: u32,
    /// How many frames.
    pub frames: u32,
    /// How many records were seen.
    pub count: u64,
    /// These records.
    pub seen: Seen<LogRecord, u64, Law>,
    ghost counted: { count ≡ length seen.log },
}
