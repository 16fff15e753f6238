//! Loads: which are under way, and which a plan adds to them.

ghost use Rattle.std.specs.Prelude.{◌≡◌, ℕ, ◌^◌, ◌<◌, ◌≤◌, ◌+◌, ◌++◌, if◌then◌else◌, [], ◌∷◌, map, take, drop, length, IfOk};
ghost use Rattle.std.specs.List.{filter};
ghost use Rattle.vt_evict.specs.Batches.{read_entries};
ghost use Rattle.vt_residency.specs.Loads.{load_in, HasLoads, is_apart, is_same};

use std::alloc::Global;
use vt_evict::{Batch, Losses, Planned};
use vt_outside::NoMemory;

/// What stands for no page.
pub const NO_PAGE: u32 = 4294967295;

/// A page that is to be loaded, its frame, and the page that has it before, or 4294967295 for none.
#[repr(C)]
#[derive(Clone, Copy)]
pub struct Load {
    pub page: u32,
    pub frame: u32,
    pub victim: u32,
}

// A load as a caller sees it.
fn load_of(planned: &Planned) -> Load
    ensures { result ≡ load_in planned.now }
{
    Load {
        page: planned.page,
        frame: planned.frame,
        victim: planned.victim.unwrap_or(NO_PAGE),
    }
}

// Writes loads to the front of a list that is as long at least.
fn fill(batch: &[Planned], out: &mut [Load])
    requires { length batch.now ≤ length out.old }
    ensures loads { take (length batch.now) out.new ≡ map load_in batch.now }
    ensures rest { drop (length batch.now) out.new ≡ drop (length batch.now) out.old }
    ensures long { length out.new ≡ length out.old }
{
    for i in 0..batch.len() {
        out[i] = load_of(&batch[i]);
    }
}

/// Writes loads to the front of a list where it has room for all of them, and answers how many they are.
pub fn put_loads(batch: &[Planned], out: &mut [Load]) -> u32
    requires { length batch.now < 2 ^ 32 }
    ensures { HasLoads batch.now out.old result out.new }
{
    if batch.len() <= out.len() {
        fill(batch, out);
    }
    batch.len() as u32
}

// Whether two loads have the same page or the same frame.
fn is_same(one: &Planned, other: &Planned) -> bool
    ensures { result ≡ is_same other.now one.now }
{
    one.page == other.page || one.frame == other.frame
}

// Whether an entry has neither the page nor the frame of one of some loads.
fn is_apart(loads: &[Planned], entry: &Planned) -> bool
    ensures { result ≡ is_apart loads.now entry.now }
{
    for load in loads {
        if is_same(load, entry) {
            return false;
        }
    }
    true
}

/// Adds the entries of a plan that have neither the page nor the frame of a load that is under way.
pub fn add_apart(loads: &mut Batch, plan: &[Planned])
    requires { length plan.now ≤ loads.old.spare }
    ensures { loads.new.elements ≡ loads.old.elements ++ filter (is_apart loads.old.elements) plan.now }
{
    let known = loads.len();
    for entry in plan {
        if is_apart(&loads.slice()[..known], entry) {
            loads.push(*entry);
        }
    }
}

// Adds a load unless it is marked.
fn add_unless(marked: bool, load: &Planned, left: &mut Batch)
    requires { 1 ≤ left.old.spare }
    ensures added { left.new.elements ≡ left.old.elements ++ (if marked then [] else load.now ∷ []) }
    ensures room { left.old.spare ≤ left.new.spare + 1 }
{
    if !marked {
        left.push(*load);
    }
}

/// The loads that are not marked.
pub fn unmarked(alloc: Global, loads: &Batch, marks: &Losses) -> Result<Batch, NoMemory>
    requires { length marks.now.elements ≡ length loads.now.elements }
    ensures { IfOk result (λ b. b.elements ≡ read_entries loads.now.elements marks.now.elements) }
{
    let mut left = Batch::new(alloc);
    left.reserve(loads.len() as u64)?;
    for i in 0..loads.len() {
        add_unless(*marks.at(i), loads.at(i), &mut left);
    }
    Ok(left)
}
