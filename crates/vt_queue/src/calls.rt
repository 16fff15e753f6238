ghost use Rattle.std.specs.Prelude.{◌≡◌, ◌+◌, ◌-◌, ◌/◌, ◌<◌, ◌≤◌, [], List, MatchBool, IfOk, IfErr, OnErr, IfSome, IfNone, OnOk};
ghost use Rattle.vt_definitions.specs.Limits.{most_entries};
ghost use Rattle.vt_queue.specs.PassViews.{first_view, joined, Splits, all_shares, split_part};
ghost use Rattle.vt_queue.specs.Steps.{Puts, Takes, IsAtStep};
ghost use Rattle.vt_queue.specs.Queues.{queue_view_of, queue_splits_of, IsPassOfQueue, capacity_of, WasFull};

use crate::queue::{Putting, Queue, QueuePass, Sharing, Taking};
use crossbeam_queue::RuledArrayQueue;
use std::alloc::Global;
use std::sync::Wait;
use std::thread::Threads;
use vt_outside::NoMemory;

// How often a new pass may be split.
const SPLITS: u64 = (1 << 60) - 1;

// One of so many splits goes to the pass that is split off.
const PART: u64 = 1024;

// Whether a pass has no splits left.
fn are_spent(splits: u64) -> bool
    ensures { MatchBool result (splits ≡ 0) (0 < splits) }
{
    splits == 0
}

// How many splits go to the pass that is split off.
fn given_of(splits: u64) -> u64
    requires { 0 < splits }
    ensures { result ≡ (splits - 1) / split_part }
{
    (splits - 1) / PART
}

/// The item that a full queue hands back.
#[derive(Drop)]
pub struct Full<I> {
    /// The item.
    pub item: I,
}

impl<I> Queue<I> {
    /// An empty queue with room for `capacity` items, from 1 to 4,096, and its one pass.
    pub fn new(alloc: Global, capacity: u32) -> Result<(Queue<I>, QueuePass<I>), NoMemory>
        requires { (1 ≤ capacity) × (capacity ≤ most_entries) }
        ensures of { IfOk result (λ made. IsPassOfQueue made.0 made.1) }
        ensures capacity { IfOk result (λ made. capacity_of made.0 ≡ capacity) }
        ensures view { IfOk result (λ made. queue_view_of made.1 ≡ first_view) }
        ensures splits { IfOk result (λ made. queue_splits_of made.1 + 1 ≡ all_shares) }
    {
        let (ring, pass) = RuledArrayQueue::ruled(alloc, capacity as usize)?;
        Ok((
            Queue { ring },
            QueuePass {
                pass,
                splits: SPLITS,
            },
        ))
    }

    /// How many items it has room for.
    pub fn capacity(&self) -> u32
        ensures { result ≡ capacity_of self.now }
    {
        self.ring.capacity() as u32
    }

    /// Splits a pass off, for another thread: it has no puts and takes of its own, and knows what this one put and knew. It is
    /// refused only where this pass has no splits left, and then nothing changed.
    pub fn split(&self, _alloc: Global, pass: &mut QueuePass<I>) -> Result<QueuePass<I>, NoMemory>
        requires { IsPassOfQueue self.now pass.old }
        ensures of { IsPassOfQueue self.now pass.new }
        ensures other { IfOk result (λ other. IsPassOfQueue self.now other) }
        ensures splits { IfOk result (λ other. Splits (queue_view_of pass.old) (queue_view_of pass.new) (queue_view_of other)) }
        ensures budget { IfOk result (λ other. queue_splits_of pass.new + queue_splits_of other + 1 ≡ queue_splits_of pass.old) }
        ensures part { IfOk result (λ other. queue_splits_of other ≡ (queue_splits_of pass.old - 1) / split_part) }
        ensures refused { OnErr result ((pass.new ≡ pass.old) × (queue_splits_of pass.old ≡ 0)) }
    {
        if are_spent(pass.splits) {
            return Err(NoMemory);
        }
        let given = given_of(pass.splits);
        let other = self.ring.another::<Sharing>(&mut pass.pass);
        pass.splits = pass.splits - 1 - given;
        Ok(QueuePass {
            pass: other,
            splits: given,
        })
    }

    /// Takes a pass in: what it put, took and knew is now this one's. Where no other pass is left, this one knows the queue.
    pub fn join(&self, into: &mut QueuePass<I>, pass: QueuePass<I>)
        requires { IsPassOfQueue self.now into.old × IsPassOfQueue self.now pass }
        ensures of { IsPassOfQueue self.now into.new }
        ensures joined { queue_view_of into.new ≡ joined (queue_view_of into.old) (queue_view_of pass) }
        ensures splits { queue_splits_of into.new ≡ queue_splits_of into.old + queue_splits_of pass + 1 }
        ensures at_step { (left : List I) × IsAtStep (queue_view_of into.new) left }
    {
        let QueuePass { pass, splits } = pass;
        self.ring.absorb::<Sharing>(&mut into.pass, pass);
        self.ring.learn_as::<Taking>(&mut into.pass);
        into.splits += splits + 1;
    }

    /// Puts an item at the end. It is refused only if there was a step of the call at which every place was taken; the item
    /// then comes back in `Full`.
    pub fn put<Rt: Threads + Wait>(
        &self,
        rt: &Rt,
        pass: &mut QueuePass<I>,
        item: I,
    ) -> Result<(), Full<I>>
        requires { IsPassOfQueue self.now pass.old }
        ensures of { IsPassOfQueue self.now pass.new × (queue_splits_of pass.new ≡ queue_splits_of pass.old) }
        ensures puts { OnOk result (Puts (queue_view_of pass.old) item (queue_view_of pass.new)) }
        ensures item { IfErr result (λ full. full.item ≡ item) }
        ensures same { OnErr result (queue_view_of pass.new ≡ queue_view_of pass.old) }
        ensures full { OnErr result (WasFull self.now (queue_view_of pass.old)) }
    {
        match self.ring.push_as::<Putting, Rt>(rt, &mut pass.pass, item) {
            Ok(()) => Ok(()),
            Err(item) => Err(Full { item }),
        }
    }

    /// Takes the first item. It answers `None` only if there was a step of the call at which the queue had no item.
    pub fn take<Rt: Threads + Wait>(&self, rt: &Rt, pass: &mut QueuePass<I>) -> Option<I>
        requires { IsPassOfQueue self.now pass.old }
        ensures of { IsPassOfQueue self.now pass.new × (queue_splits_of pass.new ≡ queue_splits_of pass.old) }
        ensures takes { IfSome result (λ item. Takes (queue_view_of pass.old) item (queue_view_of pass.new)) }
        ensures empty { IfNone result ((queue_view_of pass.new ≡ queue_view_of pass.old) × IsAtStep (queue_view_of pass.new) []) }
    {
        self.ring.pop_as::<Taking, Rt>(rt, &mut pass.pass)
    }
}
