//! A batch whose tiles are read by loaders through two queues.

ghost use Rattle.std.specs.Prelude.{◌≡◌, ℕ, Bool, List, length, All, Option};
ghost use Rattle.vt_table.specs.Shape.{Shape};
ghost use Rattle.vt_table.specs.JournalTypes.changes.Event.{Event};
ghost use Rattle.vt_machine.specs.PlanTypes.batches.Planned.{Planned as Entry};
ghost use Rattle.vt_load.specs.Orders.{items_of};
ghost use Rattle.vt_load.specs.QueuedLoaders.{stores_of};
ghost use Rattle.vt_load.specs.Rounds.{Round, AreServed};
ghost use Rattle.vt_machine.specs.Outcomes.{IsOrder, IsOutcome};
ghost use Rattle.vt_machine.specs.Requests.{AreReadFor};
ghost use Rattle.vt_machine.specs.Machines.{files_of};
ghost use Rattle.vt_requests.specs.BatchRounds.{AreRequestsOf, tickets_of, result_events, AreLossesOf, IsResultOf};

use vt_outside::File;

/// A round of requests for a batch, which was answered once: its results come in an order of the batch's tickets, each
/// for its entry; with what they leave the events are an outcome of the batch, and the loaders' files were read for it,
/// however many there are.
pub fn rounds_are_passes<F: File>()
    ensures tickets { (s : Shape) (d : ℕ) (known : Option (List ℕ)) (r : Round F) (batch : List Entry)
        → AreServed F.File s d known r
        → AreRequestsOf batch (items_of r.asks.put) → IsOrder (length batch) (tickets_of r.results) }
    ensures entries { (s : Shape) (d : ℕ) (known : Option (List ℕ)) (r : Round F) (batch : List Entry)
        → AreServed F.File s d known r
        → AreRequestsOf batch (items_of r.asks.put) → All (IsResultOf batch) r.results }
    ensures outcome { (s : Shape) (d : ℕ) (known : Option (List ℕ)) (r : Round F) (batch : List Entry)
        (losses : List Bool) (events : List Event)
        → AreServed F.File s d known r → AreRequestsOf batch (items_of r.asks.put) → AreLossesOf batch r.results losses
        → events ≡ result_events batch r.results → IsOutcome batch losses events }
    ensures read { (s : Shape) (d : ℕ) (known : Option (List ℕ)) (r : Round F) (batch : List Entry) (losses : List Bool)
        → AreServed F.File s d known r → AreRequestsOf batch (items_of r.asks.put) → AreLossesOf batch r.results losses
        → AreReadFor s d batch losses (files_of F.File (stores_of r.first)) (files_of F.File (stores_of r.last)) }
{}
