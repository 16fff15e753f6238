//! What is known of a walk between two passes, and of a pass that was drawn.

ghost use Rattle.std.specs.Prelude.{◌≡◌, ◌+◌, ◌<◌, ◌^◌, length};
ghost use Rattle.vt_machine.specs.Outcomes.{lost_count};
ghost use Rattle.vt_walk_decisions.specs.Reported.{IsReported, next_step};

use crate::tallies::Tally;
use vt_journal::PassText;
use vt_machine::{Batch, Losses, PassReport};

/// What a walk is to do next.
#[derive(Drop)]
pub struct WalkStep {
    /// The picture of the next pass, or the number of pictures where all are finished.
    pub picture: u32,
    /// The batch of the next pass.
    pub batch: Batch,
    /// What was counted of the picture's passes so far.
    pub tally: Tally,
    /// How many tiles were asked for so far.
    pub reads: u64,
}

/// What is known of a pass that was made.
#[derive(Drop)]
pub struct Passed {
    /// The picture that was drawn.
    pub picture: u32,
    /// Its batch was empty.
    pub loads_nothing: bool,
    /// How many tiles were lost in it.
    pub lost: u64,
    /// What it leaves for the next pass.
    pub next_plan: NextPlan,
    /// What was counted of its picture's passes so far.
    pub tally: Tally,
    /// How many tiles were asked for so far.
    pub reads: u64,
}

/// A pass that was drawn, and is to be journaled.
#[derive(Drop)]
pub struct Drawn {
    pub text: PassText,
    pub passed: Passed,
}

/// What comes next in a walk.
#[derive(Drop)]
pub enum Next {
    /// This pass, which was drawn, is to be journaled.
    Pass(Drawn),
    /// All pictures are finished, for which so many tiles were asked for.
    End(u64),
}

/// What a pass leaves for the next one.
#[derive(Drop)]
pub struct NextPlan {
    /// How many pages its picture wants.
    pub wanted: u64,
    /// How many unpinned pages are in the lines of these.
    pub needed: u32,
    /// What is planned next.
    pub plan: Batch,
}

/// The step after a pass that has finished its picture: the next picture's first pass.
pub fn step_after(passed: Passed) -> WalkStep
    requires { passed.picture + 1 < 2 ^ 32 }
    ensures { result ≡ next_step passed }
{
    WalkStep {
        picture: passed.picture + 1,
        batch: passed.next_plan.plan,
        tally: Tally::new(),
        reads: passed.reads,
    }
}

/// What was drawn, by the report of a pass and what it leaves for the next one.
pub fn drawn_of(
    number: u32,
    step: WalkStep,
    start: u64,
    report: PassReport,
    next_plan: NextPlan,
) -> Drawn
    requires passes { step.tally.passes + 1 < 2 ^ 32 }
    requires loaded { step.tally.loaded + length report.events.elements < 2 ^ 64 }
    requires lost { step.tally.lost + length report.events.elements < 2 ^ 64 }
    requires evicted { step.tally.evicted + length report.events.elements < 2 ^ 64 }
    requires reads { step.reads + length step.batch.elements < 2 ^ 64 }
    ensures { IsReported number step start report next_plan result }
{
    let PassReport {
        rows,
        events,
        losses,
    } = report;
    let batch = step.batch.len();
    let passed = Passed {
        picture: step.picture,
        loads_nothing: batch == 0,
        lost: count_lost(&losses),
        next_plan,
        tally: step.tally.with_pass(events.slice()),
        reads: step.reads + batch as u64,
    };
    let text = PassText {
        pass: number,
        picture: passed.picture,
        start,
        events,
        rows,
    };
    Drawn { text, passed }
}

// How many tiles were lost.
fn count_lost(losses: &Losses) -> u64
    ensures { result ≡ lost_count losses.now.elements }
{
    losses.slice().iter().filter(|lost| **lost).count() as u64
}
