//! The changes of a page table, in the order in which they may be uploaded.

ghost use Rattle.std.specs.Prelude.{◌≡◌, ◌+◌, ◌^◌, ◌<◌, ◌≤◌, ◌++◌, Option, None, Some, take, drop, length};
ghost use Rattle.std.specs.List.{flat_map};
ghost use Rattle.vt_residency.specs.Changes.{load_changes, HasChanges};

use vt_evict::Planned;

/// A page that was mapped to a frame, where `mapped` is 1, or taken out of it, where that is 0.
#[repr(C)]
#[derive(Clone, Copy)]
pub struct Change {
    pub page: u32,
    pub frame: u32,
    pub mapped: u32,
}

// How many changes a load makes.
fn count_of(load: &Planned) -> usize
    ensures { result ≡ length (load_changes load.now) }
{
    match load.victim {
        Some(_) => 2,
        None => 1,
    }
}

/// How many changes loads make.
pub fn change_count(loads: &[Planned]) -> usize
    requires { length loads.now < 2 ^ 31 }
    ensures count { result ≡ length (flat_map load_changes loads.now) }
    ensures few { result < 2 ^ 32 }
{
    let mut count = 0;
    for load in loads {
        count += count_of(load);
    }
    count
}

// Writes the changes of a load behind those that are at the front of a list.
fn put(load: &Planned, out: &mut [Change], from: usize)
    requires { from + length (load_changes load.now) ≤ length out.old }
    ensures changes { take (from + length (load_changes load.now)) out.new ≡ take from out.old ++ load_changes load.now }
    ensures rest { drop (from + length (load_changes load.now)) out.new ≡ drop (from + length (load_changes load.now)) out.old }
    ensures long { length out.new ≡ length out.old }
{
    let map = Change {
        page: load.page,
        frame: load.frame,
        mapped: 1,
    };
    match load.victim {
        Some(victim) => {
            out[from] = Change {
                page: victim,
                frame: load.frame,
                mapped: 0,
            };
            out[from + 1] = map;
        }
        None => out[from] = map,
    }
}

// Writes the changes of loads to the front of a list that is as long at least.
fn fill(loads: &[Planned], out: &mut [Change])
    requires { length (flat_map load_changes loads.now) ≤ length out.old }
    ensures changes { take (length (flat_map load_changes loads.now)) out.new ≡ flat_map load_changes loads.now }
    ensures rest { drop (length (flat_map load_changes loads.now)) out.new ≡ drop (length (flat_map load_changes loads.now)) out.old }
    ensures long { length out.new ≡ length out.old }
{
    let mut count = 0;
    for load in loads {
        put(load, out, count);
        count += count_of(load);
    }
}

/// Writes the changes of loads to the front of a list where it has room for all of them, and answers how many they are.
pub fn put_changes(loads: &[Planned], out: &mut [Change]) -> u32
    requires { length loads.now < 2 ^ 31 }
    ensures { HasChanges loads.now out.old result out.new }
{
    let count = change_count(loads);
    if count <= out.len() {
        fill(loads, out);
    }
    count as u32
}
