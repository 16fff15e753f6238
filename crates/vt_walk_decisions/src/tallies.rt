//! What a walk counts for its log.

ghost use Rattle.std.specs.Prelude.{◌≡◌, ◌+◌, ◌<◌, ◌≤◌, ◌^◌, length, count_by};
ghost use Rattle.vt_walk_decisions.specs.Tallies.{is_load, is_loss, is_eviction, with_pass, no_passes};

use vt_journal::{Change, Event};

/// How many passes a picture has had, and how many pages were mapped, lost and unmapped in them.
#[derive(Clone, Copy)]
pub struct Tally {
    pub passes: u32,
    pub loaded: u64,
    pub lost: u64,
    pub evicted: u64,
}

impl Tally {
    /// The tally of a picture that has had no pass.
    pub fn new() -> Tally
        ensures { result ≡ no_passes }
    {
        Tally {
            passes: 0,
            loaded: 0,
            lost: 0,
            evicted: 0,
        }
    }

    /// The tally with one more pass, which had these events.
    pub fn with_pass(&self, events: &[Event]) -> Tally
        requires passes { self.now.passes + 1 < 2 ^ 32 }
        requires loaded { self.now.loaded + length events.now < 2 ^ 64 }
        requires lost { self.now.lost + length events.now < 2 ^ 64 }
        requires evicted { self.now.evicted + length events.now < 2 ^ 64 }
        ensures { result ≡ with_pass events.now self.now }
    {
        let tally = *self;
        Tally {
            passes: tally.passes + 1,
            loaded: tally.loaded + count_loads(events),
            lost: tally.lost + count_losses(events),
            evicted: tally.evicted + count_evictions(events),
        }
    }
}

// How many pages were mapped.
fn count_loads(events: &[Event]) -> u64
    ensures count { result ≡ count_by is_load events.now }
    ensures most { result ≤ length events.now }
{
    events.iter().filter(|event| is_load(event)).count() as u64
}

// How many pages were lost.
fn count_losses(events: &[Event]) -> u64
    ensures count { result ≡ count_by is_loss events.now }
    ensures most { result ≤ length events.now }
{
    events.iter().filter(|event| is_loss(event)).count() as u64
}

// How many pages were unmapped.
fn count_evictions(events: &[Event]) -> u64
    ensures count { result ≡ count_by is_eviction events.now }
    ensures most { result ≤ length events.now }
{
    events.iter().filter(|event| is_eviction(event)).count() as u64
}

// A page was mapped.
fn is_load(event: &Event) -> bool
    ensures { result ≡ is_load event.now }
{
    match *event {
        Event::Changed(Change::Map { .. }) => true,
        Event::Changed(Change::Unmap { .. }) => false,
        Event::Lost { .. } => false,
    }
}

// A page was unmapped.
fn is_eviction(event: &Event) -> bool
    ensures { result ≡ is_eviction event.now }
{
    match *event {
        Event::Changed(Change::Map { .. }) => false,
        Event::Changed(Change::Unmap { .. }) => true,
        Event::Lost { .. } => false,
    }
}

// A page was lost.
fn is_loss(event: &Event) -> bool
    ensures { result ≡ is_loss event.now }
{
    match *event {
        Event::Changed(_) => false,
        Event::Lost { .. } => true,
    }
}
