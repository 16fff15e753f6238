//! Laws of queues and their passes: each is the contract of a function that does nothing.

ghost use Rattle.std.specs.Prelude.{◌≡◌, ℕ, ◌+◌, ◌<◌, List, [], ◌∷◌, ◌++◌, length, All, Contains, IsPermutation};
ghost use Rattle.vt_queue.specs.declared.views.PassView.{PassView};
ghost use Rattle.vt_queue.specs.declared.queue.Queue.{Queue};
ghost use Rattle.vt_queue.specs.PassViews.{pass_view, all_shares, all_joined, shares_of};
ghost use Rattle.vt_queue.specs.Orders.{items_of, gathered, IsFirstInFirstOut};
ghost use Rattle.vt_queue.specs.Steps.{IsAtStep, Puts, Takes};
ghost use Rattle.vt_queue.specs.Queues.{capacity_of, WasFull};

/// A pass that has all shares knows its queue: what it put is all that was put, first in, first out, and what it knows else is
/// among that. Where the queue was full, as many items as it has room for had been put and not taken.
pub fn whole_pass_knows_the_queue<I>()
    ensures order { (v : PassView I) (left : List I) → IsAtStep v left → v.shares ≡ all_shares
        → IsFirstInFirstOut v.put v.took left }
    ensures known { (v : PassView I) (left : List I) → IsAtStep v left → v.shares ≡ all_shares
        → All (Contains v.put) v.known }
    ensures full { (q : Queue I) (v : PassView I) → WasFull q v → v.shares ≡ all_shares
        → length v.put ≡ length v.took + capacity_of q }
{}

/// A pass that has all shares puts at the place after all that was put, and takes what was put at the first place of which
/// nothing was taken.
pub fn whole_pass_goes_in_order<I>()
    ensures puts { (v w : PassView I) (x : I) → Puts v x w → v.shares ≡ all_shares
        → w ≡ pass_view v.shares v.known (v.put ++ (length v.put, x) ∷ []) v.took }
    ensures takes { (v w : PassView I) (x : I) → Takes v x w → v.shares ≡ all_shares
        → w ≡ pass_view v.shares v.known v.put (v.took ++ (length v.took, x) ∷ []) }
    ensures first { (v w : PassView I) (x : I) → Takes v x w → v.shares ≡ all_shares → Contains v.put (length v.took, x) }
{}

/// What was put is what was taken and what is left, each as often. Where as many were taken as were put, nothing is left.
pub fn nothing_is_lost_or_doubled<I>()
    ensures items { (put took : List (ℕ × I)) (left : List I) → IsFirstInFirstOut put took left
        → IsPermutation (items_of put) (items_of took ++ left) }
    ensures count { (put took : List (ℕ × I)) (left : List I) → IsFirstInFirstOut put took left
        → length put ≡ length took + length left }
    ensures all { (put took : List (ℕ × I)) (left : List I) → IsFirstInFirstOut put took left → length took ≡ length put
        → (left ≡ []) × IsPermutation (items_of put) (items_of took) }
{}

/// First in, first out: what was put has a place each, and what was taken is what was put at the first places.
pub fn first_in_is_first_out<I>()
    ensures places { (put took : List (ℕ × I)) (left : List I) (place : ℕ) (x y : I) → IsFirstInFirstOut put took left
        → Contains put (place, x) → Contains put (place, y) → x ≡ y }
    ensures first { (put took : List (ℕ × I)) (left : List I) (entry : ℕ × I) → IsFirstInFirstOut put took left
        → Contains put entry → entry.0 < length took → Contains took entry }
    ensures taken { (put took : List (ℕ × I)) (left : List I) (entry : ℕ × I) → IsFirstInFirstOut put took left
        → Contains took entry → Contains put entry × (entry.0 < length took) }
{}

/// A fact of items, for the law of facts: what it says of an item, and of what it compares the item with.
pub trait ItemFact<C, I> {
    ghost holds: { C → I → Type 0 };
}

/// What is so of each item that was put is so of each that was taken, and of each that is left.
pub fn facts_of_puts_hold_of_takes<C, I, F: ItemFact<C, I>>()
    ensures { (c : C) (put took : List (ℕ × I)) (left : List I) → IsFirstInFirstOut put took left
        → All (F.holds c) (items_of put) → All (F.holds c) (items_of took) × All (F.holds c) left }
{}

/// A pass to which others were joined has the shares, the puts and the takes of all.
pub fn joined_pass_has_all<I>()
    ensures shares { (v : PassView I) (ws : List (PassView I)) → (all_joined v ws).shares ≡ v.shares + shares_of ws }
    ensures puts { (v : PassView I) (ws : List (PassView I))
        → IsPermutation (all_joined v ws).put (v.put ++ gathered (λ w. w.put) ws) }
    ensures takes { (v : PassView I) (ws : List (PassView I))
        → IsPermutation (all_joined v ws).took (v.took ++ gathered (λ w. w.took) ws) }
{}
