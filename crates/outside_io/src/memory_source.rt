// A source in memory, whose bytes are known. It fails at the calls whose numbers it was given, and
// never at another; it never allocates.
ghost use Rattle.std.specs.Prelude.{◌≡◌, ◌++◌, ◌≤◌, ◌<◌, ◌↔◌, [], take, length, min, not, Some};
ghost use Rattle.std.specs.Prelude.{is_ok, IfOk, IsErr, OnErr};
ghost use Rattle.outside_io.specs.Count.{HasCause};
ghost use Rattle.outside_io.specs.Calls.{no_calls, fails_next, after_call};

use crate::failing::FailingCalls;
use crate::source::copy_first;
use crate::{Failed, Source};
use std::marker::Model;

/// A source of bytes in memory, whose calls fail by their numbers.
#[derive(Drop)]
pub struct MemorySource {
    bytes: Vec<u8>,
    at: usize,
    calls: FailingCalls,
}

impl Model for MemorySource {
    ghost use Rattle.std.specs.Prelude.{drop, ◌≤◌, vec_len};
    ghost use Rattle.outside_io.specs.Memory.{MemorySourceState};

    ghost Value = { MemorySourceState };

    ghost view = { λ s. record { left = drop s.at s.bytes.items; calls = s.calls } };

    ghost invariant = { λ s. s.at ≤ vec_len s.bytes };
}

impl MemorySource {
    /// A source of these bytes. `fails` has the numbers, from 1, of the calls of `take` that are
    /// to fail.
    pub fn new(bytes: Vec<u8>, fails: Vec<u64>) -> MemorySource
        ensures left { result.left ≡ bytes.items }
        ensures calls { result.calls ≡ no_calls fails.items }
    {
        MemorySource {
            bytes,
            at: 0,
            calls: FailingCalls::new(fails),
        }
    }
}

impl Source for MemorySource {
    ghost left = { λ s. Some s.left };

    ghost faults = { λ s. s.calls.failed };

    fn take(&mut self, into: &mut [u8]) -> Result<usize, Failed>
        ensures within { IfOk result (λ n. n ≤ length into.old) }
        ensures taken { IfOk result (λ n. self.old.left ≡ take n into.new ++ self.new.left) }
        ensures end { IfOk result (λ n. 0 < length into.old → (n ≡ 0) ↔ (self.old.left ≡ [])) }
        ensures kept { OnErr result (self.new.left ≡ self.old.left) }
        ensures faults { HasCause (IsErr result) self.old.calls.failed self.new.calls.failed }

        // The calls that are to fail do, and no others.
        ensures fails { is_ok result ≡ not (fails_next self.old.calls) }
        ensures counted { self.new.calls ≡ after_call self.old.calls }
    {
        if self.calls.next_fails() {
            return Err(Failed);
        }
        let n = copy_first(&self.bytes[self.at..], into);
        self.at += n;
        Ok(n)
    }
}
