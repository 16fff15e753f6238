//! A change of the page table is noted and published.

ghost use Rattle.std.specs.Prelude.{◌≡◌, ◌+◌, ◌<◌, ◌≤◌, ◌^◌, [], ◌∷◌, ◌++◌, drop, length, IfSome, IsSome, OnOk};
ghost use Rattle.vt_journal.specs.Limits.{most_versions};
ghost use Rattle.vt_journal.specs.Kept.{change_frame};
ghost use Rattle.vt_swap_log.specs.declared.records.LogRecord.TheVariants.{Changed};
ghost use Rattle.vt_swap_log.specs.Logs.{MayFollow};
ghost use Rattle.vt_swap_log.specs.Heads.{IsHeadOf};
ghost use Rattle.vt_swap_log.specs.Caches.{AreOfOneLog};
ghost use Rattle.vt_swap_steps.specs.Tables.{IsPublished, MayPublish, journal_of};

use crate::rule::{Known, OneJournal, Publishes};
use crate::table::{NewestTable, Operation};
use left_right::writer::Writer;
use std::mem;
use std::sync::Wait;
use vt_journal::Change;
use vt_outside::NoMemory;
use vt_swap_log::{Front, Head, again, note_change};

/// The writer of the page table.
pub type TableWriter = Writer<NewestTable, Operation, Known, OneJournal>;

/// The greatest length of a log.
pub(crate) const MOST_RECORDS: u64 = 1 << 61;

// Publishes the change that waits.
fn publish_waiting<R: Wait>(
    rt: &R,
    writer: TableWriter,
    change: Change,
    front: &Front,
) -> (TableWriter, Result<(), NoMemory>)
    requires may { MayPublish writer.desk.shown.value [] change front.now }
    requires waits { drop writer.behind writer.log.items ≡ record { change = change; front = front.now } ∷ [] }
    ensures published { OnOk result.1
        (IsPublished result.0.desk.shown.value (drop result.0.behind result.0.log.items) front.now) }
{
    let (writer, done) = writer.publish_as::<Publishes, R>(rt);
    match done {
        Ok(()) => (writer, Ok(())),
        Err(_) => (writer, Err(NoMemory)),
    }
}

// Publishes a change that was noted.
fn publish_change<R: Wait>(
    rt: &R,
    writer: TableWriter,
    change: Change,
    front: &Front,
) -> (TableWriter, Result<(), NoMemory>)
    requires may { MayPublish writer.desk.shown.value (drop writer.behind writer.log.items) change front.now }
    ensures published { OnOk result.1
        (IsPublished result.0.desk.shown.value (drop result.0.behind result.0.log.items) front.now) }
{
    let mut writer = writer;
    let operation = Operation {
        change,
        front: again(front),
    };
    match writer.append(operation) {
        Ok(()) => publish_waiting(rt, writer, change, front),
        Err(_) => (writer, Err(NoMemory)),
    }
}

// The same by the writer where it lies.
fn publish_in<R: Wait>(
    rt: &R,
    home: &mut Option<TableWriter>,
    change: Change,
    front: &Front,
) -> Result<(), NoMemory>
    requires there { IsSome home.old }
    requires may { IfSome home.old (λ w. MayPublish w.desk.shown.value (drop w.behind w.log.items) change front.now) }
    ensures there { IsSome home.new }
    ensures published { OnOk result
        (IfSome home.new (λ w. IsPublished w.desk.shown.value (drop w.behind w.log.items) front.now)) }
{
    let Some(writer) = mem::replace(home, None) else {
        unreachable!()
    };
    let (writer, done) = publish_change(rt, writer, change, front);
    let nobody = mem::replace(home, Some(writer));
    match nobody {
        None => {}
        Some(_) => unreachable!(),
    }
    done
}

/// Notes a change, which may come next, and publishes it.
#[tactic(auto, using(crate::proofs::Published::journal_noted))]
pub fn note_and_publish<R: Wait>(
    rt: &R,
    home: &mut Option<TableWriter>,
    head: &Head,
    front: &mut Front,
    change: Change,
) -> Result<(), NoMemory>
    requires there { IsSome home.old }
    requires published { IfSome home.old (λ w. IsPublished w.desk.shown.value (drop w.behind w.log.items) front.old) }
    requires of { IsHeadOf head.now front.old }
    requires may { MayFollow front.old.seen.log (Changed change) }
    requires early { length (journal_of front.old) + 1 ≤ most_versions }
    requires frame { change_frame change + 1 < 2 ^ 32 }
    ensures there { IsSome home.new }
    ensures of { IsHeadOf head.now front.new }
    ensures cache { AreOfOneLog front.new front.old }
    ensures noted { OnOk result (front.new.seen.log ≡ front.old.seen.log ++ Changed change ∷ []) }
    ensures journal { OnOk result (journal_of front.new ≡ journal_of front.old ++ change ∷ []) }
    ensures published { OnOk result
        (IfSome home.new (λ w. IsPublished w.desk.shown.value (drop w.behind w.log.items) front.new)) }
{
    if front.count >= MOST_RECORDS {
        return Err(NoMemory);
    }
    if !note_change(head, front, change) {
        return Err(NoMemory);
    }
    publish_in(rt, home, change, front)
}
