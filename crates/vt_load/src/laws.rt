//! Laws of loaders, each the contract of a function that does nothing.

ghost use Rattle.std.specs.Prelude.{◌≡◌, ℕ, List, Option, length};
ghost use Rattle.vt_tiles.specs.Shape.{Shape};
ghost use Rattle.vt_load.specs.declared.queued.Queues.{Queues as Both};
ghost use Rattle.vt_load.specs.Rounds.{Round, IsRound, AreServed};
ghost use Rattle.vt_load.specs.Streamed.{IsStreamedRound};

use vt_outside::File;

/// However many loaders there are, each request of a round is answered once.
pub fn each_request_is_answered_once<F: File>()
    ensures { (q : Both) (s : Shape) (d : ℕ) (known : Option (List ℕ)) (r : Round F) → IsRound F.File q s d known r
        → AreServed F.File s d known r }
{}

/// The same where the results are taken while the loaders are at work, until there are at least as many as requests were put: no
/// more were taken, and each request was answered once.
pub fn each_streamed_request_is_answered_once<F: File>()
    ensures { (q : Both) (s : Shape) (d : ℕ) (known : Option (List ℕ)) (r : Round F) → (x : IsStreamedRound F.File q s d known r)
        → (length x.got ≡ length r.asks.put) × AreServed F.File s d known r }
{}
