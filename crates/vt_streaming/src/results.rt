//! A result is applied to the entry of its ticket, and noted.

ghost use Rattle.std.specs.Prelude.{◌≡◌, ◌+◌, ◌<◌, ◌≤◌, false, true, Some, ◌++◌, length, slice_get};
ghost use Rattle.vt_journal.specs.Changes.{newest};
ghost use Rattle.vt_requests.specs.PlanTypes.batches.Planned.{Planned as Entry};
ghost use Rattle.vt_requests.specs.Readings.{is_lost};
ghost use Rattle.vt_requests.specs.Outcomes.{IsEntryFor, group_of, victim_events};
ghost use Rattle.vt_requests.specs.BatchRounds.{result_group};
ghost use Rattle.vt_requests.specs.TakenResults.{is_new, is_wanted};
ghost use Rattle.vt_streaming.specs.Applied.{IsAppliedIf, IsApplied};
ghost use Rattle.vt_streaming.specs.Reports.{HasChanged, HasNotedResult};

use crate::target::Target;
use std::sync::Wait;
use vt_journal::{Change, Event, Events};
use vt_outside::Gate;
use vt_queue::{Loaded, Outcome};
use vt_requests::{Losses, Planned, StreamReport};

// Whether a result is for an entry, by its ticket, whose result was not taken.
fn is_new(taken: &Losses, ticket: usize) -> bool
    ensures { result ≡ is_new taken.now.elements (length taken.now.elements) ticket }
{
    ticket < taken.len() && !*taken.at(ticket)
}

/// Whether a result is to be applied: it is for an entry whose result was not taken, and its buffer has the length of a tile
/// that the target takes.
pub(crate) fn is_wanted<A: Target>(
    target: &A,
    writer: &A::Writer,
    taken: &Losses,
    loaded: &Loaded,
) -> bool
    requires { A.is_of target.now writer.now }
    ensures { result ≡ is_wanted (A.is_tile target.now (A.shape writer.now)) taken.now.elements loaded.now }
{
    is_new(taken, loaded.request.ticket as usize)
        && target.takes(writer, loaded.request.buffer.len())
}

// Notes the events of an entry whose tile was read.
fn note_group(planned: &Planned, events: &mut Events)
    requires room { 2 ≤ events.old.spare }
    ensures events { events.new.elements ≡ events.old.elements ++ group_of planned.now false }
    ensures room { events.old.spare ≤ events.new.spare + 2 }
{
    note_victim(planned, events);
    events.push(Event::Changed(Change::Map {
        page: planned.page,
        frame: planned.frame,
    }));
}

// Notes the unmap of an entry's victim, if it has one.
fn note_victim(planned: &Planned, events: &mut Events)
    requires room { 1 ≤ events.old.spare }
    ensures events { events.new.elements ≡ events.old.elements ++ victim_events planned.now.victim planned.now.frame }
    ensures room { events.old.spare ≤ events.new.spare + 1 }
{
    let Some(victim) = planned.victim else {
        return;
    };
    events.push(Event::Changed(Change::Unmap {
        page: victim,
        frame: planned.frame,
    }));
}

// Applies a result to its entry, or notes that it was lost; tells whether memory was refused.
fn apply_result<A: Target, R: Wait, G: Gate>(
    rt: &R,
    target: &A,
    writer: &mut A::Writer,
    planned: &Planned,
    loaded: &Loaded,
    events: &mut Events,
    gate: &G,
) -> bool
    requires of { A.is_of target.now writer.old }
    requires entry { IsEntryFor (A.shape writer.old) (A.frame_count writer.old) (newest (A.journal writer.old)) planned.now }
    requires room { A.has_room writer.old 2 }
    requires tile { A.is_tile target.now (A.shape writer.old) (length loaded.now.request.buffer.elements) ≡ true }
    requires events_room { 2 ≤ events.old.spare }
    ensures of { A.is_of target.now writer.new }
    ensures shape { A.shape writer.new ≡ A.shape writer.old }
    ensures frames { A.frame_count writer.new ≡ A.frame_count writer.old }
    ensures lasts { A.lasts writer.old writer.new }
    ensures changed { result ≡ false → HasChanged A.Target (group_of planned.now (is_lost loaded.now.outcome)) writer.old writer.new }
    ensures applied { result ≡ false → IsAppliedIf (A.has_put target.now) planned.now (is_lost loaded.now.outcome)
        loaded.now.request.buffer.elements writer.old writer.new }
    ensures events { result ≡ false → events.new.elements ≡ events.old.elements ++ group_of planned.now (is_lost loaded.now.outcome) }
    ensures events_room { events.old.spare ≤ events.new.spare + 2 }
    ensures refused { result ≡ true → A.refuses }
{
    match loaded.outcome {
        Outcome::Read => {
            let tile = loaded.request.buffer.slice();
            if !target.put::<R, G>(rt, writer, planned, tile, gate) {
                return true;
            }
            note_group(planned, events);
            false
        }
        Outcome::Lost => {
            events.push(Event::Lost { page: planned.page });
            false
        }
    }
}

// Applies a result to the entry of its ticket, and tells whether memory was refused.
fn apply_at<A: Target, R: Wait, G: Gate>(
    rt: &R,
    target: &A,
    writer: &mut A::Writer,
    batch: &[Planned],
    loaded: &Loaded,
    events: &mut Events,
    gate: &G,
) -> bool
    requires of { A.is_of target.now writer.old }
    requires inside { loaded.now.request.ticket < length batch.now }
    requires entry { (e : Entry) → slice_get batch.now loaded.now.request.ticket ≡ Some e
        → IsEntryFor (A.shape writer.old) (A.frame_count writer.old) (newest (A.journal writer.old)) e }
    requires room { A.has_room writer.old 2 }
    requires tile { A.is_tile target.now (A.shape writer.old) (length loaded.now.request.buffer.elements) ≡ true }
    requires events_room { 2 ≤ events.old.spare }
    ensures of { A.is_of target.now writer.new }
    ensures shape { A.shape writer.new ≡ A.shape writer.old }
    ensures frames { A.frame_count writer.new ≡ A.frame_count writer.old }
    ensures lasts { A.lasts writer.old writer.new }
    ensures changed { result ≡ false → HasChanged A.Target (result_group batch.now loaded.now) writer.old writer.new }
    ensures applied { result ≡ false → IsApplied (A.has_put target.now) batch.now loaded.now writer.old writer.new }
    ensures events { result ≡ false → events.new.elements ≡ events.old.elements ++ result_group batch.now loaded.now }
    ensures events_room { events.old.spare ≤ events.new.spare + 2 }
    ensures refused { result ≡ true → A.refuses }
{
    let planned = &batch[loaded.request.ticket as usize];
    apply_result::<A, R, G>(rt, target, writer, planned, loaded, events, gate)
}

// Whether the tile of a result is lost.
fn is_lost(loaded: &Loaded) -> bool
    ensures { result ≡ is_lost loaded.now.outcome }
{
    match loaded.outcome {
        Outcome::Read => false,
        Outcome::Lost => true,
    }
}

/// Applies a result to the entry of its ticket, if memory was not refused before, and notes it. Tells whether memory was refused by now.
pub(crate) fn stream_result<A: Target, R: Wait, G: Gate>(
    rt: &R,
    target: &A,
    writer: &mut A::Writer,
    batch: &[Planned],
    loaded: Loaded,
    refused: bool,
    into: &mut StreamReport,
    gate: &G,
) -> bool
    requires of { A.is_of target.now writer.old }
    requires inside { loaded.request.ticket < length batch.now }
    requires entry { refused ≡ false → (e : Entry) → slice_get batch.now loaded.request.ticket ≡ Some e
        → IsEntryFor (A.shape writer.old) (A.frame_count writer.old) (newest (A.journal writer.old)) e }
    requires room { refused ≡ false → A.has_room writer.old 2 }
    requires tile { A.is_tile target.now (A.shape writer.old) (length loaded.request.buffer.elements) ≡ true }
    requires losses { length into.old.losses.elements ≡ length batch.now }
    requires taken { length into.old.taken.elements ≡ length batch.now }
    requires events_room { refused ≡ false → 2 ≤ into.old.events.spare }
    requires results_room { 1 ≤ into.old.results.spare }
    requires refused { refused ≡ true → A.refuses }
    ensures of { A.is_of target.now writer.new }
    ensures shape { A.shape writer.new ≡ A.shape writer.old }
    ensures frames { A.frame_count writer.new ≡ A.frame_count writer.old }
    ensures lasts { A.lasts writer.old writer.new }
    ensures before { result ≡ false → refused ≡ false }
    ensures changed { result ≡ false → HasChanged A.Target (result_group batch.now loaded) writer.old writer.new }
    ensures applied { result ≡ false → IsApplied (A.has_put target.now) batch.now loaded writer.old writer.new }
    ensures events { result ≡ false → into.new.events.elements ≡ into.old.events.elements ++ result_group batch.now loaded }
    ensures noted { HasNotedResult loaded into.old into.new }
    ensures refused { result ≡ true → A.refuses }
{
    let refused = refused
        || apply_at::<A, R, G>(rt, target, writer, batch, &loaded, &mut into.events, gate);
    let ticket = loaded.request.ticket as usize;
    into.losses.set(ticket, is_lost(&loaded));
    into.taken.set(ticket, true);
    into.results.push(loaded);
    refused
}
