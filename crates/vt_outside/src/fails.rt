ghost use Rattle.std.specs.Prelude.{◌≡◌, ◌≤◌, ◌/◌, length, take, if◌then◌else◌};
ghost use Rattle.vt_outside.specs.Counts.{added};
ghost use Rattle.vt_outside.specs.Outcomes.{raised_if};
ghost use Rattle.vt_outside.specs.Fails.{is_listed};

use crate::Items;

/// A call on an object in memory that is to fail. Each kind of call is counted from 0 over the folder or the sink.
#[derive(Clone, Copy, PartialEq, Eq)]
pub enum Fail {
    /// The call of `open` of that number.
    Open(u64),
    /// The call of `create` of that number.
    Create(u64),
    /// The call of `append` of that number.
    Append(u64),
    /// The call of `put` of that number.
    Put(u64),
    /// Every call of `length` on the file of that opening. Openings that succeeded are counted from 0 over the folder.
    Length { opening: u64 },
    /// The call of `read_at` of that number on the file of that opening. Each file's reads are counted from 0.
    Read { opening: u64, read: u64 },
}

/// The calls that are to fail.
pub type Fails = Items<Fail>;

// Whether the call is in the list.
fn is_listed(fails: &[Fail], call: Fail) -> bool
    ensures { result ≡ is_listed fails.now call }
{
    fails.contains(&call)
}

/// Whether the call is in the list; if so, it is a fault.
pub fn meets_fault(fails: &[Fail], call: Fail, faults: &mut u64) -> bool
    ensures met { result ≡ is_listed fails.now call }
    ensures rises { faults.old ≤ faults.new }
    ensures count { faults.new ≡ raised_if (is_listed fails.now call) faults.old }
{
    let met = is_listed(fails, call);
    let before = *faults;
    if met {
        *faults = next(before);
    }
    met
}

/// What a call adds of the bytes: the first half (their number halved, rounded down) where it met a fault, and else all.
pub fn part_of(bytes: &[u8], met: bool) -> &[u8]
    ensures { result.now ≡ (if met then take (length bytes.now / 2) bytes.now else bytes.now) }
{
    if met {
        &bytes[..bytes.len() / 2]
    } else {
        bytes
    }
}

/// One more, up to the end of the type.
pub fn next(count: u64) -> u64
    ensures { result ≡ added count 1 }
{
    count.saturating_add(1)
}
