//! The steps of one pass.

ghost use Rattle.std.specs.Prelude.{◌≡◌, ◌⊎◌, ℕ, ◌+◌, ◌≤◌, take, length, slice_index, All, IfOk, OnOk, OnErr, IsErrOf, option_map};
ghost use Rattle.vt_pages.specs.Limits.{most_versions};
ghost use Rattle.vt_outside.specs.Counts.{Rose};
ghost use Rattle.vt_outside.specs.Files.{with_appended, IsThere};
ghost use Rattle.vt_pages.specs.Pages.{pages_of};
ghost use Rattle.vt_journal.specs.JournalText.{IsEventInChain, pass_text};
ghost use Rattle.vt_journal.specs.Passes.{pass_of};
ghost use Rattle.vt_evict.specs.Batches.{IsLawfulBatch};
ghost use Rattle.vt_walk_decisions.specs.Jobs.{job_of};
ghost use Rattle.vt_walk_decisions.specs.Passes.{MayPrepare, IsJobFor, EndsPassRun};
ghost use Rattle.vt_walk.specs.Outlooks.{IsOutlook};

use crate::output_folder::OutputFolder;
use std::alloc::Global;
use std::sync::Wait;
use std::thread::Threads;
use vt_evict::{Batch, Losses, Recency};
use vt_feedback::Counts;
use vt_journal::{PassText, add_pass};
use vt_outside::{Gate, NoMemory, OutsideError};
use vt_pages::Geometry;
use vt_pictures::Shot;
use vt_walk_decisions::{Desks, LentWorker, Meanwhile, NextPlan, PassMachine, PassReport};

/// Prepares a pass for a batch and runs it by hands at these desks. What the caller does meanwhile is done in any case, also where memory is
/// refused.
pub fn run_pass<'w, Rt: Threads + Wait, M: PassMachine, G: Gate, A: Meanwhile>(
    rt: &Rt,
    desks: &mut Desks<LentWorker<'w, M::Shared, M::Loader, M::Sampler, G>>,
    machine: &mut M,
    shot: &Shot<'w>,
    batch: &Batch,
    gate: &'w G,
    meanwhile: &mut A,
) -> Result<PassReport, NoMemory>
    requires idle { M.is_idle machine.old }
    requires may { MayPrepare (M.state machine.old) batch.now.elements }
    requires job { IsJobFor (M.state machine.old).setup (job_of shot.now batch.now.elements) }
    requires meanwhile { A.ready meanwhile.old }
    ensures ran { EndsPassRun M.drawing (M.drawn machine.new) (M.is_idle machine.new)
        (job_of shot.now batch.now.elements) result (M.state machine.old) (M.state machine.new) }
    ensures meanwhile { A.did meanwhile.old meanwhile.new }
{
    if let Err(refusal) = machine.prepare(rt, batch) {
        meanwhile.act();
        return Err(refusal);
    }
    machine.run(rt, desks, shot, batch, gate, meanwhile)
}

/// Settles a batch of which some entries were lost, makes the pages that the counts want the most recent ones, and
/// plans for them with at most `most` entries.
pub fn plan_next(
    alloc: Global,
    geometry: &Geometry,
    counts: &Counts,
    recency: &mut Recency,
    batch: &Batch,
    losses: &Losses,
    most: u32,
) -> Result<NextPlan, NoMemory>
    requires counts { length counts.now ≡ pages_of geometry.now }
    requires shape { recency.old.shape ≡ geometry.now }
    requires lawful { IsLawfulBatch recency.old batch.now.elements }
    requires lost_for_all { length losses.now.elements ≡ length batch.now.elements }
    ensures { IfOk result (IsOutlook geometry.now (slice_index counts.now)
        most recency.old batch.now.elements losses.now.elements recency.new) }
{
    let wants = counts.wanted(alloc, geometry)?;
    recency.settle(batch, losses)?;
    recency.touch(&wants);
    let needed = recency.needed(alloc, &wants)?;
    let plan = recency.plan(alloc, &wants, most)?;
    Ok(NextPlan {
        wanted: wants.len() as u64,
        needed,
        plan,
    })
}

// Makes a buffer hold the text of a pass. What it held is dropped, and its room is kept.
fn make_text(buffer: &mut Vec<u8>, geometry: &Geometry, pass: &PassText) -> Result<(), NoMemory>
    requires pages { All (IsEventInChain geometry.now) pass.now.events.elements }
    requires room { pass.now.start + length pass.now.events.elements ≤ most_versions }
    ensures { OnOk result (buffer.new.items ≡ pass_text geometry.now (pass_of pass.now)) }
{
    buffer.clear();
    add_pass(buffer, geometry, pass)
}

/// Adds the text of a pass, which is made in a buffer, to the journal, in one call. After a refusal a prefix of
/// it was added.
pub fn journal_pass<D: OutputFolder>(
    buffer: &mut Vec<u8>,
    folder: &mut D,
    journal: &str,
    geometry: &Geometry,
    pass: &PassText,
) -> Result<(), OutsideError>
    requires pages { All (IsEventInChain geometry.now) pass.now.events.elements }
    requires room { pass.now.start + length pass.now.events.elements ≤ most_versions }
    ensures whole { OnOk result (D.files folder.new ≡ option_map (with_appended journal.now (pass_text geometry.now
        (pass_of pass.now))) (D.files folder.old)) }
    ensures part { OnErr result ((D.files folder.new ≡ D.files folder.old) ⊎ ((k : ℕ) × (D.files folder.new
        ≡ option_map (with_appended journal.now (take k (pass_text geometry.now (pass_of pass.now))))
        (D.files folder.old)))) }
    ensures there { IsThere (D.files folder.old) journal.now → IsThere (D.files folder.new) journal.now }
    ensures failed { IsErrOf result OutsideError.Failed → IsThere (D.files folder.old) journal.now → Rose
        (D.faults folder.old) (D.faults folder.new) }
    ensures asked { D.asked folder.new ≡ D.asked folder.old }
    ensures faults { D.faults folder.old ≤ D.faults folder.new }
{
    make_text(buffer, geometry, pass)?;
    folder.extend_file(journal, buffer)
}
