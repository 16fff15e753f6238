ghost use Rattle.std.specs.Prelude.{◌≡◌, ◌≤◌, ◌/◌, [], Some, length, take, IsTrue, IsErrOf, OnOk, false};
ghost use Rattle.vt_outside.specs.Counts.{added};
ghost use Rattle.vt_outside.specs.Files.{gained};

use crate::fails::{meets_fault, next, part_of};
use crate::{Fail, Fails, OutsideError, Sink};
use std::alloc::Global;

/// A sink in memory, which keeps what is put.
#[derive(Drop)]
pub struct MemorySink {
    held: Vec<u8>,
    fails: Fails,
    puts: u64,
    faults: u64,
    refusals: u64,
}

impl MemorySink {
    ghost use Rattle.vt_outside.specs.MemorySink.{sink_bytes, sink_fails, sink_puts, sink_faults, sink_refusals};

    /// A sink that holds nothing, with the calls that are to fail. It takes no memory.
    pub fn new(alloc: Global, fails: Fails) -> MemorySink
        ensures bytes { sink_bytes result ≡ [] }
        ensures fails { sink_fails result ≡ fails.elements }
        ensures puts { sink_puts result ≡ 0 }
        ensures faults { sink_faults result ≡ 0 }
        ensures refusals { sink_refusals result ≡ 0 }
    {
        MemorySink {
            held: Vec::new(alloc),
            fails,
            puts: 0,
            faults: 0,
            refusals: 0,
        }
    }

    /// The bytes put so far.
    pub fn bytes(&self) -> &[u8]
        ensures { result.now ≡ sink_bytes self.now }
    {
        self.held.as_slice()
    }
}

impl Sink for MemorySink {
    ghost use Rattle.vt_outside.specs.MemorySink.{sink_bytes, sink_fails, sink_puts, sink_faults, sink_refusals, is_put_listed};
    ghost use Rattle.vt_outside.specs.Outcomes.{is_failed, is_no_memory, raised_if};

    ghost held = { λ sink. Some (sink_bytes sink) };

    ghost faults = { sink_faults };

    ghost refusals = { sink_refusals };

    /// Adds the bytes. Up to want of memory it fails exactly where `Put` of the number of puts so far is in the list.
    /// A put that fails leaves the first half of the bytes (their number halved, rounded down); one that is refused for memory leaves none.
    fn put(&mut self, bytes: &[u8]) -> Result<(), OutsideError>
        ensures held { OnOk result (sink_bytes self.new ≡ gained bytes.now (sink_bytes self.old)) }
        ensures half { IsErrOf result OutsideError.Failed → sink_bytes self.new ≡ gained (take (length bytes.now / 2) bytes.now) (sink_bytes self.old) }
        ensures none { IsErrOf result OutsideError.NoMemory → sink_bytes self.new ≡ sink_bytes self.old }
        ensures failed { IsErrOf result OutsideError.Failed → IsTrue (is_put_listed self.old) }
        ensures done { OnOk result (is_put_listed self.old ≡ false) }
        ensures faults { sink_faults self.new ≡ raised_if (is_put_listed self.old) (sink_faults self.old) }
        ensures faults_rise { sink_faults self.old ≤ sink_faults self.new }
        ensures refusals { sink_refusals self.new ≡ raised_if (is_no_memory result) (sink_refusals self.old) }
        ensures refusals_rise { sink_refusals self.old ≤ sink_refusals self.new }
        ensures puts { sink_puts self.new ≡ added (sink_puts self.old) 1 }
        ensures fails { sink_fails self.new ≡ sink_fails self.old }
    {
        let call = Fail::Put(self.puts);
        self.puts = next(self.puts);
        let met = meets_fault(self.fails.slice(), call, &mut self.faults);
        if self.held.extend_from_slice(part_of(bytes, met)).is_err() {
            self.refusals = next(self.refusals);
            return Err(OutsideError::NoMemory);
        }
        if met {
            return Err(OutsideError::Failed);
        }
        Ok(())
    }
}
