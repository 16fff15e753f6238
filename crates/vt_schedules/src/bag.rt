//! The bag: rows that any sampler may take.

ghost use Rattle.std.specs.Prelude.{◌≡◌, ◌+◌, ◌-◌, ◌/◌, ◌^◌, ◌<◌, ◌≤◌, [], MatchBool, IfOk, IfErr, OnErr, OnOk, IfSome, IfNone, IsTrue};
ghost use Rattle.vt_queue.specs.PassViews.{first_view, joined, Splits, all_shares, split_part};
ghost use Rattle.vt_queue.specs.Steps.{Puts, Takes, IsAtStep};
ghost use Rattle.crossbeam_deque.specs.Steals.{MatchSteal};
ghost use Rattle.vt_schedules.specs.Bags.{view_of, splits_of, IsPassOfBag};

use crossbeam_deque::protocol::{Join, Outcome, Protocol, Split};
use crossbeam_deque::{Injector, InjectorPass, Steal};
use std::alloc::Global;
use std::sync::Wait;
use std::thread;
use vt_outside::{Bytes, NoMemory};
use vt_queue::PassView;

/// A row of a picture that is to be drawn, or was.
#[derive(Drop)]
pub struct RowJob {
    /// The number of the row, from 0 at the top.
    pub row: u32,
    /// The number of the sampler that drew it last.
    pub sampler: u32,
    /// The version of the page table at which it was drawn last.
    pub version: u64,
    /// Its bytes: three samples a pixel, the most significant byte of a sample first.
    pub samples: Bytes,
}

/// Rows that any sampler may take, first in, first out. Threads share it by reference; each has a pass of its own.
#[derive(Drop)]
pub struct RowBag {
    pub(crate) rows: Injector<RowJob, Global, PassView<RowJob>, OneOrder>,
}

/// What one thread knows of a bag, and its leave to put and take.
#[derive(Drop)]
pub struct BagPass {
    pub(crate) pass: InjectorPass<RowJob, PassView<RowJob>>,
    // How often it, and what is split off from it, may be split: fewer times than it has shares.
    pub(crate) splits: u64,
}

/// The rule of a bag is that of a queue: all that was put is in one order, and what was taken is its front.
pub struct OneOrder;

impl Protocol<RowJob, PassView<RowJob>> for OneOrder {
    ghost use Rattle.vt_queue.specs.PassViews.{first_view};
    ghost use Rattle.vt_queue.specs.Rules.{IsQueueKept};

    ghost holds = { IsQueueKept };

    ghost first = { first_view };

    ghost guest = { first_view };
}

/// The step of a put.
pub struct Putting;

impl Outcome<RowJob, PassView<RowJob>> for Putting {
    ghost use Rattle.vt_queue.specs.Steps.{Puts};
    ghost use Rattle.vt_schedules.specs.Bags.{OfOne};

    ghost then = { OfOne Puts };
}

/// The step of a take.
pub struct Taking;

impl Outcome<RowJob, PassView<RowJob>> for Taking {
    ghost use Rattle.std.specs.Prelude.{[]};
    ghost use Rattle.vt_queue.specs.Steps.{Takes, IsAtStep};
    ghost use Rattle.vt_schedules.specs.Bags.{OfOne};

    ghost then = { OfOne Takes };

    ghost empty = { λ v. IsAtStep v [] };
}

/// The steps by which a pass becomes two, and two become one.
pub struct Sharing;

impl Split<PassView<RowJob>> for Sharing {
    ghost use Rattle.vt_queue.specs.PassViews.{kept_view, given_view};

    ghost left = { kept_view };

    ghost right = { given_view };
}

impl Join<PassView<RowJob>> for Sharing {
    ghost use Rattle.vt_queue.specs.PassViews.{joined, spent_view};

    ghost both = { joined };

    ghost spent = { spent_view };
}

// How often a new pass may be split.
const SPLITS: u64 = (1 << 60) - 1;

// One of so many splits goes to the pass that is split off.
const PART: u64 = 1024;

// Whether a pass has no splits left.
fn are_spent(splits: u64) -> bool
    ensures { MatchBool result (splits ≡ 0) (0 < splits) }
{
    splits == 0
}

// How many splits go to the pass that is split off.
fn given_of(splits: u64) -> u64
    requires { 0 < splits }
    ensures { result ≡ (splits - 1) / split_part }
{
    (splits - 1) / PART
}

// The splits of two passes that are joined: those of both, and the one by which the second was split off. A join teaches nothing of how
// many shares there are, so that the sum is small is known to callers only.
fn with_splits(splits: u64, given: u64) -> u64
    ensures all { splits + given + 1 < 2 ^ 64 → result ≡ splits + given + 1 }
    ensures least { splits ≤ result }
    ensures most { result ≤ splits + given + 1 }
{
    splits.saturating_add(given).saturating_add(1)
}

impl RowBag {
    /// An empty bag and its one pass.
    pub fn new(alloc: Global) -> Result<(RowBag, BagPass), NoMemory>
        ensures of { IfOk result (λ made. IsPassOfBag made.0 made.1) }
        ensures view { IfOk result (λ made. view_of made.1 ≡ first_view) }
        ensures splits { IfOk result (λ made. splits_of made.1 + 1 ≡ all_shares) }
    {
        let (rows, pass) = Injector::new_as(alloc)?;
        Ok((
            RowBag { rows },
            BagPass {
                pass,
                splits: SPLITS,
            },
        ))
    }

    /// Splits a pass off, for another thread: it has no puts and takes of its own, and knows what this one put and knew. It is
    /// refused only where this pass has no splits left, and then nothing changed.
    pub fn split(&self, _alloc: Global, pass: &mut BagPass) -> Result<BagPass, NoMemory>
        requires { IsPassOfBag self.now pass.old }
        ensures of { IsPassOfBag self.now pass.new }
        ensures other { IfOk result (λ other. IsPassOfBag self.now other) }
        ensures splits { IfOk result (λ other. Splits (view_of pass.old) (view_of pass.new) (view_of other)) }
        ensures budget { IfOk result (λ other. splits_of pass.new + splits_of other + 1 ≡ splits_of pass.old) }
        ensures refused { OnErr result ((pass.new ≡ pass.old) × (splits_of pass.old ≡ 0)) }
    {
        if are_spent(pass.splits) {
            return Err(NoMemory);
        }
        let given = given_of(pass.splits);
        let other = self.rows.another::<Sharing>(&mut pass.pass);
        pass.splits = pass.splits - 1 - given;
        Ok(BagPass {
            pass: other,
            splits: given,
        })
    }

    /// Takes a pass in: what it put, took and knew is now this one's, and so are its splits.
    pub fn join(&self, into: &mut BagPass, pass: BagPass)
        requires { IsPassOfBag self.now into.old × IsPassOfBag self.now pass }
        ensures of { IsPassOfBag self.now into.new }
        ensures joined { view_of into.new ≡ joined (view_of into.old) (view_of pass) }
        ensures splits { splits_of into.old + splits_of pass + 1 < 2 ^ 64
            → splits_of into.new ≡ splits_of into.old + splits_of pass + 1 }
        ensures least { splits_of into.old ≤ splits_of into.new }
    {
        let BagPass { pass, splits } = pass;
        self.rows.absorb::<Sharing>(&mut into.pass, pass);
        into.splits = with_splits(into.splits, splits);
    }

    /// Puts a row at the end. A refusal hands it back, and nothing changed. It may wait.
    pub fn put<Rt: Wait>(
        &self,
        rt: &Rt,
        pass: &mut BagPass,
        job: RowJob,
    ) -> Result<(), (RowJob, NoMemory)>
        requires { IsPassOfBag self.now pass.old }
        ensures of { IsPassOfBag self.now pass.new × (splits_of pass.new ≡ splits_of pass.old) }
        ensures puts { OnOk result (Puts (view_of pass.old) job (view_of pass.new)) }
        ensures job { IfErr result (λ refused. refused.0 ≡ job) }
        ensures same { OnErr result (view_of pass.new ≡ view_of pass.old) }
    {
        match self.rows.push_as::<Putting, Rt>(rt, &mut pass.pass, job) {
            Ok(()) => Ok(()),
            Err(job) => Err((job, NoMemory)),
        }
    }

    // Takes the first row, or tells that there was none, or that another thread was in the way.
    fn steal<Rt: Wait>(&self, rt: &Rt, pass: &mut BagPass) -> Steal<RowJob>
        requires { IsPassOfBag self.now pass.old }
        ensures of { IsPassOfBag self.now pass.new × (splits_of pass.new ≡ splits_of pass.old) }
        ensures steals { MatchSteal result ((view_of pass.new ≡ view_of pass.old) × IsAtStep (view_of pass.old) [])
            (view_of pass.new ≡ view_of pass.old) (λ job. Takes (view_of pass.old) job (view_of pass.new)) }
    {
        self.rows.steal_as::<Taking, Rt>(rt, &mut pass.pass)
    }

    /// Takes the first row. It answers `None` only if there was a step of the call at which the bag had none. It may wait.
    pub fn take<Rt: Wait>(&self, rt: &Rt, pass: &mut BagPass) -> Option<RowJob>
        requires { IsPassOfBag self.now pass.old }
        ensures of { IsPassOfBag self.now pass.new × (splits_of pass.new ≡ splits_of pass.old) }
        ensures takes { IfSome result (λ job. Takes (view_of pass.old) job (view_of pass.new)) }
        ensures empty { IfNone result ((view_of pass.new ≡ view_of pass.old) × IsAtStep (view_of pass.old) []) }
    {
        for _ in rt.forever() {
            match self.steal(rt, pass) {
                Steal::Success(job) => return Some(job),
                Steal::Empty => return None,
                Steal::Retry => thread::yield_now(),
            }
        }
        unreachable!()
    }

    /// Waits until the bag has no row.
    pub fn wait_empty<Rt: Wait>(&self, rt: &Rt, pass: &mut BagPass)
        requires { IsPassOfBag self.now pass.old }
        ensures of { IsPassOfBag self.now pass.new }
        ensures same { view_of pass.new ≡ view_of pass.old }
        ensures empty { IsAtStep (view_of pass.new) [] }
    {
        for _ in rt.forever() {
            if self.is_empty(pass) {
                return;
            }
            thread::yield_now();
        }
        unreachable!()
    }

    // Whether the bag had no row at a step of the call.
    fn is_empty(&self, pass: &mut BagPass) -> bool
        requires { IsPassOfBag self.now pass.old }
        ensures of { IsPassOfBag self.now pass.new }
        ensures same { view_of pass.new ≡ view_of pass.old }
        ensures empty { IsTrue result → IsAtStep (view_of pass.old) [] }
    {
        self.rows.is_empty_as::<Taking>(&mut pass.pass)
    }
}
