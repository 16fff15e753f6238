//! Row y is drawn by sampler y modulo their number.

ghost use Rattle.std.specs.Prelude.{◌≡◌, ◌≢◌, ℕ, ◌<◌, ◌≤◌, ◌^◌, [], length, reverse, All, IfOk, OnOk, slice_index_or};
ghost use Rattle.vt_definitions.specs.Dealing.{sampler_of, own_count};
ghost use Rattle.vt_sampler.specs.Samplers.{own_rows};
ghost use Rattle.vt_schedules.specs.declared.bag.RowJob.{RowJob as Job};
ghost use Rattle.vt_schedules.specs.SharedRows.{FitsRow, rows_of};
ghost use Rattle.vt_schedules.specs.Dealt.{AreOwnInPlace, AreDealt};
ghost use Rattle.vt_schedules.specs.Rows.{AreRowsInPlace};

use crate::bag::RowJob;
use crate::jobs::no_row;
use crate::schedule::Schedule;
use std::alloc::Global;
use std::mem;
use std::sync::Wait;
use vt_outside::{Items, NoMemory};

/// The schedule by which row y is drawn by sampler y modulo their number.
pub struct Dealt;

/// What samplers share of rows that are dealt.
#[derive(Drop)]
pub struct Nothing;

/// The rows that were not dealt yet, each in its place.
#[derive(Drop)]
pub struct DealtHome {
    pub(crate) jobs: Items<RowJob>,
}

/// The rows that a sampler is dealt, the next one last.
#[derive(Drop)]
pub struct DealtWay {
    pub(crate) jobs: Items<RowJob>,
}

// Takes rows out of their places, in their order.
fn take_rows(alloc: Global, jobs: &mut [RowJob]) -> Result<Items<RowJob>, NoMemory>
    ensures number { length jobs.new ≡ length jobs.old }
    ensures rows { IfOk result (λ made. made.elements ≡ jobs.old) }
{
    let mut list = Items::new(alloc);
    list.reserve(jobs.len() as u64)?;
    for y in 0..jobs.len() {
        list.push(mem::replace(&mut jobs[y], no_row(alloc)));
    }
    Ok(list)
}

// How many of so many rows a sampler is dealt.
fn count_own(rows: usize, samplers: u32, number: u32) -> usize
    requires one_of { number < samplers }
    requires few { rows < 2 ^ 32 }
    ensures { result ≡ own_count number samplers rows }
{
    (rows + samplers as usize - 1 - number as usize) / samplers as usize
}

// Takes the rows of a sampler out of their places, from the last on.
fn deal_rows(
    alloc: Global,
    jobs: &mut [RowJob],
    samplers: u32,
    number: u32,
) -> Result<Items<RowJob>, NoMemory>
    requires one_of { number < samplers }
    requires few { length jobs.old < 2 ^ 32 }
    ensures number { length jobs.new ≡ length jobs.old }
    ensures others { (y : ℕ) (d : Job) → sampler_of y samplers ≢ number → slice_index_or jobs.new y d ≡ slice_index_or jobs.old y d }
    ensures rows { IfOk result (λ own. (height line : ℕ) → length jobs.old ≡ height → AreOwnInPlace height line samplers number jobs.old
        → (rows_of own.elements ≡ reverse (own_rows number samplers height)) × All (FitsRow height line) own.elements) }
{
    let mut own = Items::new(alloc);
    let rows = count_own(jobs.len(), samplers, number);
    own.reserve(rows as u64)?;
    for i in 0..rows {
        let y = (rows - 1 - i) * samplers as usize + number as usize;
        own.push(mem::replace(&mut jobs[y], no_row(alloc)));
    }
    Ok(own)
}

impl Dealt {
    /// Begins the dealing of the rows of a picture as a schedule does. It needs no runtime, since it waits for nobody.
    pub fn begin_alone(
        alloc: Global,
        home: &mut DealtHome,
        jobs: &mut [RowJob],
    ) -> Result<(), NoMemory>
        requires few { length jobs.old < 2 ^ 32 }
        ensures number { length jobs.new ≡ length jobs.old }
        ensures home { OnOk result (length home.new.jobs.elements < 2 ^ 32) }
        ensures dealt { OnOk result ((height line samplers : ℕ) → 1 ≤ samplers → AreRowsInPlace height line jobs.old
            → AreDealt height line samplers [] home.new.jobs.elements) }
    {
        home.jobs = take_rows(alloc, jobs)?;
        Ok(())
    }
}

impl Schedule for Dealt {
    ghost use Rattle.std.specs.Prelude.{true, ◌<◌, ◌^◌, length, All};
    ghost use Rattle.std.proofs.Common.{inr};
    ghost use Rattle.vt_schedules.specs.SharedRows.{FitsRow};
    ghost use Rattle.vt_schedules.specs.Dealt.{TookDealt, EndsDealt, AreDealt, AreDealtWays};
    ghost use Rattle.vt_schedules.specs.DealtLaws.{took_dealt_none, dealt_ways};

    const DEALT: bool = true;

    ghost DEALT = { true };

    type Shared = Nothing;

    type Own = DealtWay;

    type Home = DealtHome;

    ghost is_of = { λ shared height line own. All (FitsRow height line) own.jobs.elements };

    ghost is_home = { λ shared home. length home.jobs.elements < 2 ^ 32 };

    ghost took = { λ height line first own rows. TookDealt first.jobs.elements own.jobs.elements rows };

    ghost ended = { λ height line first own rows. EndsDealt height own.jobs.elements rows };

    ghost has_dealt = { λ shared height line samplers owns home. AreDealt height line samplers owns home.jobs.elements };

    ghost has_gathered = { λ shared height line samplers firsts owns home. AreDealtWays height samplers firsts };

    fn make(alloc: Global) -> Result<(Nothing, DealtHome), NoMemory> {
        Ok((
            Nothing,
            DealtHome {
                jobs: Items::new(alloc),
            },
        ))
    }

    fn no_way(alloc: Global) -> DealtWay {
        DealtWay {
            jobs: Items::new(alloc),
        }
    }

    fn begin<R: Wait>(
        _rt: &R,
        alloc: Global,
        _shared: &mut Nothing,
        home: &mut DealtHome,
        jobs: &mut [RowJob],
    ) -> Result<(), NoMemory> {
        Dealt::begin_alone(alloc, home, jobs)
    }

    fn deal(
        alloc: Global,
        _shared: &Nothing,
        home: &mut DealtHome,
        samplers: u32,
        number: u32,
    ) -> Result<DealtWay, NoMemory> {
        let jobs = deal_rows(alloc, home.jobs.slice_mut(), samplers, number)?;
        Ok(DealtWay { jobs })
    }

    fn next<R: Wait>(
        _rt: &R,
        _shared: &Nothing,
        own: &mut DealtWay,
        _height: u32,
        _line: usize,
    ) -> Option<RowJob> {
        own.jobs.pop()
    }

    fn gather(_shared: &Nothing, _home: &mut DealtHome, _own: &mut DealtWay) {}

    fn finish<R: Wait>(_rt: &R, _shared: &Nothing, _home: &mut DealtHome) {}

    ghost none_gathered = { λ shared height line samplers firsts home dealt. dealt_ways height line samplers firsts home.jobs.elements dealt };

    ghost took_none = { λ shared height line own of. took_dealt_none own.jobs.elements };

    ghost all_taken = { λ height line first own rows took all. inr all };
}
