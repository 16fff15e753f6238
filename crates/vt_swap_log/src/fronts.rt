//! What is seen of the log, and how its writer adds to it.

ghost use Rattle.std.specs.Prelude.{◌≡◌, ◌<◌, ◌^◌, ◌∷◌, ◌++◌, [], None, length, IsTrue, MatchBool};
ghost use mathlib.Core.List.{IsPrefix};
ghost use Rattle.vt_swap_log.specs.declared.records.LogRecord.TheVariants.{Changed};
ghost use Rattle.vt_swap_log.specs.Logs.{IsLawfulLog, MayFollow};
ghost use Rattle.vt_swap_log.specs.Heads.{IsHeadOf};
ghost use Rattle.vt_swap_log.specs.Caches.{AreOfOneLog};

use crate::log::{Add, Front, Head, Law, Nothing};
use crate::records::LogRecord;
use logbook::{Offer, Seen, Start, Word};
use vt_journal::Change;

/// A log with no records, of a page cache of so many pages and frames: the word of its length, and what is seen of it.
#[tactic(auto, using(crate::proofs::Lawful::lawful_none))]
pub fn open_log(pages: u32, frames: u32) -> (Head, Front)
    ensures of { IsHeadOf result.0 result.1 }
    ensures empty { result.1.seen.log ≡ [] }
    ensures pages { result.1.pages ≡ pages }
    ensures frames { result.1.frames ≡ frames }
{
    let (seen, mut first, _second) = Seen::open(Start::alone(), 0, 0);
    let word = Word::tracked(0, &mut first);
    let front = Front {
        pages,
        frames,
        count: 0,
        seen,
    };
    (Head { word }, front)
}

/// Each record of what was seen could come after those before it.
pub fn is_lawful(front: &Front)
    ensures { IsLawfulLog front.now.seen.log }
{
    let mut more = front.seen.again();
    more.learn(&front.seen);
}

/// The same beginning.
pub fn again(front: &Front) -> Front
    ensures { result ≡ front.now }
{
    Front {
        pages: front.pages,
        frames: front.frames,
        count: front.count,
        seen: front.seen.again(),
    }
}

/// Adds the record that an offer asks for to all that was seen, and says whether it did. It did not where the log is longer.
pub fn add(head: &Head, front: &mut Front, offer: Offer<LogRecord, u64, Law, Nothing>) -> bool
    requires of { IsHeadOf head.now front.old }
    requires names { offer.names ≡ front.old.seen.names }
    requires new { offer.state ≡ None }
    requires may { MayFollow front.old.seen.log offer.ask }
    requires room { length front.old.seen.log < 2 ^ 62 }
    ensures of { IsHeadOf head.now front.new }
    ensures cache { AreOfOneLog front.new front.old }
    ensures added { IsTrue result → front.new.seen.log ≡ front.old.seen.log ++ offer.ask ∷ [] }
{
    let mut offer = offer;
    let mut pen = front.seen.no_pen();
    let count = front.count;
    let found = head
        .word
        .compare_exchange::<Add, Nothing>(count, count + 1, &mut front.seen, &mut offer, &mut pen);
    front.count = if found == count { count + 1 } else { found };
    found == count
}

/// Notes a change of the page table, which may come next, and says whether it did.
pub fn note_change(head: &Head, front: &mut Front, change: Change) -> bool
    requires of { IsHeadOf head.now front.old }
    requires may { MayFollow front.old.seen.log (Changed change) }
    requires room { length front.old.seen.log < 2 ^ 62 }
    ensures of { IsHeadOf head.now front.new }
    ensures cache { AreOfOneLog front.new front.old }
    ensures added { IsTrue result → front.new.seen.log ≡ front.old.seen.log ++ Changed change ∷ [] }
{
    let offer: Offer<LogRecord, u64, Law, Nothing> = front
        .seen
        .plain::<Nothing, Change, Add>(&change);
    add(head, front, offer)
}

/// Which of two beginnings of one log is the shorter: it is a beginning of the other.
pub fn is_behind(one: &Front, other: &Front) -> bool
    requires { AreOfOneLog other.now one.now }
    ensures { MatchBool result (IsPrefix one.now.seen.log other.now.seen.log) (IsPrefix other.now.seen.log one.now.seen.log) }
{
    let mut both = one.seen.again();
    both.learn(&other.seen);
    one.count <= other.count
}

/// Learns what another beginning of the log has.
#[tactic(auto, using(crate::proofs::Prefixes::prefix_self))]
pub fn learn(mine: &mut Front, other: &Front)
    requires { AreOfOneLog other.now mine.old }
    ensures cache { AreOfOneLog mine.new mine.old }
    ensures mine { IsPrefix mine.old.seen.log mine.new.seen.log }
    ensures other { IsPrefix other.now.seen.log mine.new.seen.log }
{
    if is_behind(mine, other) {
        *mine = again(other);
    }
}
