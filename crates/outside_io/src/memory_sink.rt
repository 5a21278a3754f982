// A sink in memory, whose bytes are known. It fails at the calls whose numbers it was given, and
// never at another; one that fails appends nothing.
ghost use Rattle.std.specs.Prelude.{◌≡◌, ◌++◌, ◌↔◌, [], Some, OnErr, OnOk, IsErrOf, IsTrue};
ghost use Rattle.outside_io.specs.Count.{HasCause};
ghost use Rattle.outside_io.specs.Calls.{no_calls, fails_next, after_call};

use crate::failing::FailingCalls;
use crate::{PutFault, Sink};
use std::alloc::Global;
use std::marker::Model;

/// A sink in memory, whose calls fail by their numbers.
#[derive(Drop)]
pub struct MemorySink {
    bytes: Vec<u8>,
    calls: FailingCalls,
}

impl Model for MemorySink {
    ghost use Rattle.outside_io.specs.Memory.{MemorySinkState};

    ghost Value = { MemorySinkState };

    ghost view = { λ s. record { got = s.bytes.items; calls = s.calls } };
}

impl MemorySink {
    /// A sink that has got nothing yet. `fails` has the numbers, from 1, of the calls of `put` that
    /// are to fail.
    pub fn new(alloc: Global, fails: Vec<u64>) -> MemorySink
        ensures got { result.got ≡ [] }
        ensures calls { result.calls ≡ no_calls fails.items }
    {
        MemorySink {
            bytes: Vec::new(alloc),
            calls: FailingCalls::new(fails),
        }
    }

    /// The bytes that it has got.
    pub fn bytes(&self) -> &[u8]
        ensures { result.now ≡ self.now.got }
    {
        &self.bytes
    }
}

impl Sink for MemorySink {
    ghost got = { λ s. Some s.got };

    ghost faults = { λ s. s.calls.failed };

    fn put(&mut self, bytes: &[u8]) -> Result<(), PutFault>
        ensures all { OnOk result (self.new.got ≡ self.old.got ++ bytes.now) }
        ensures kept { OnErr result (self.new.got ≡ self.old.got) }
        ensures faults { HasCause (IsErrOf result PutFault.Failed)
            self.old.calls.failed self.new.calls.failed }

        // The calls that are to fail do, and no others.
        ensures fails { IsErrOf result PutFault.Failed ↔ IsTrue (fails_next self.old.calls) }
        ensures counted { self.new.calls ≡ after_call self.old.calls }
    {
        if self.calls.next_fails() {
            return Err(PutFault::Failed);
        }
        self.bytes.extend_from_slice(bytes)?;
        Ok(())
    }
}
