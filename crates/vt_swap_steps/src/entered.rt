//! A version of the page table that a reader entered.

ghost use Rattle.std.specs.Prelude.{◌≡◌, ◌∷◌};
ghost use mathlib.Core.List.{IsPrefix};
ghost use Rattle.left_right.specs.Sides.{view};
ghost use Rattle.vt_swap_log.specs.Caches.{AreOfOneLog};
ghost use Rattle.vt_swap_steps.specs.Rules.{HasEnteredVersion, IsEntered, Knows, KnowsLog};

use crate::rule::{Enters, Known, OneJournal};
use crate::table::NewestTable;
use left_right::reader::{Reader, Reading};
use std::sync::Wait;
use std::thread;
use vt_swap_log::{Front, learn};

/// A reader of the table that is published.
pub type LeftRightReader = Reader<NewestTable, Known, OneJournal>;

/// A reader with the version that it entered.
pub type EnteredTable = Reading<NewestTable, Known, OneJournal>;

/// Enters the version that was published last, and tells which it is. It waits where no version is.
pub fn enter<R: Wait>(rt: &R, reader: LeftRightReader, front: &mut Front) -> (EnteredTable, u64)
    requires log { KnowsLog (view reader.place) front.old }
    ensures entered { IsEntered (view result.0.place) result.0.part.value front.new }
    ensures version { result.1 ≡ result.0.part.value.version }
    ensures noted { view result.0.place ≡ record (view reader.place) { entered = result.1 ∷ (view reader.place).entered } }
    ensures before { Knows result.0.part.value (view reader.place) }
    ensures cache { AreOfOneLog front.new front.old }
    ensures seen { IsPrefix front.old.seen.log front.new.seen.log }
{
    let reading = enter_when_there(rt, reader);
    learn(front, &reading.get().front);
    let version = reading.get().version;
    (reading, version)
}

// Enters the version that was published last, once there is one.
fn enter_when_there<R: Wait>(rt: &R, reader: LeftRightReader) -> EnteredTable
    ensures { HasEnteredVersion (view reader.place) result.part.value result.part.value (view result.place) }
{
    let mut reader = reader;
    for _ in rt.forever() {
        match reader.enter_as::<Enters>() {
            Ok(reading) => return reading,
            Err(back) => reader = back,
        }
        thread::yield_now();
    }
    unreachable!()
}
