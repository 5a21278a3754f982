// A source in memory that never fails. Its bytes are known, and it never allocates.
ghost use Rattle.std.specs.Prelude.{◌≡◌, ◌++◌, ◌≤◌, ◌<◌, ◌↔◌, [], take, length, Some, IfOk, IsOk};

use crate::source::copy_first;
use crate::{Failed, Source};
use std::marker::Model;

/// A source of bytes in memory whose calls never fail.
#[derive(Drop)]
pub struct NeverFailsSource {
    bytes: Vec<u8>,
    at: usize,
}

impl Model for NeverFailsSource {
    ghost use Rattle.std.specs.Prelude.{ℕ, List, drop, ◌≤◌, vec_len};

    ghost Value = { List ℕ };

    ghost view = { λ s. drop s.at s.bytes.items };

    ghost invariant = { λ s. s.at ≤ vec_len s.bytes };
}

impl NeverFailsSource {
    /// A source of these bytes.
    pub fn new(bytes: Vec<u8>) -> NeverFailsSource
        ensures { result ≡ bytes.items }
    {
        NeverFailsSource { bytes, at: 0 }
    }
}

impl Source for NeverFailsSource {
    ghost left = { λ s. Some s };

    ghost faults = { λ _. 0 };

    fn take(&mut self, into: &mut [u8]) -> Result<usize, Failed>
        ensures within { IfOk result (λ n. n ≤ length into.old) }
        ensures taken { IfOk result (λ n. self.old ≡ take n into.new ++ self.new) }
        ensures end { IfOk result (λ n. 0 < length into.old → (n ≡ 0) ↔ (self.old ≡ [])) }
        ensures never { IsOk result }
    {
        let n = copy_first(&self.bytes[self.at..], into);
        self.at += n;
        Ok(n)
    }
}
