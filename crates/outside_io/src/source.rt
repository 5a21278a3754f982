// Where the script comes from: the trait of every source. It never says what the bytes mean.
ghost use Rattle.std.specs.Prelude.{◌≡◌, ℕ, ◌≤◌, ◌<◌, ◌↔◌, List, [], take, length, Option};
ghost use Rattle.std.specs.Prelude.{IfOk, IsErr, OnErr, IfSome, min};
ghost use Rattle.std.specs.Io.KnownBytes.{Consumes, Keeps};
ghost use Rattle.outside_io.specs.Count.{HasCause};

use crate::Failed;

/// Copies as many of the first bytes as there is room for, and returns how many these are.
pub(crate) fn copy_first(from: &[u8], into: &mut [u8]) -> usize
    ensures count { result ≡ min (length from.now) (length into.old) }
    ensures copied { take result into.new ≡ take result from.now }
{
    let n = from.len().min(into.len());
    into[..n].copy_from_slice(&from[..n]);
    n
}

/// A source of bytes.
pub trait Source {
    /// The bytes that it has left, where they are known.
    ghost left: { Self → Option (List ℕ) };

    /// How often it failed. The count ends at 2^64 - 1.
    ghost faults: { Self → ℕ };

    /// Moves the first of the bytes that are left into the slice, and returns how many these are,
    /// from 0 to its length. 0 for a slice that isn't empty means the end.
    ///
    /// `Failed`: the source failed, and it has left what it had.
    fn take(&mut self, into: &mut [u8]) -> Result<usize, Failed>
        ensures within { IfOk result (λ n. n ≤ length into.old) }
        ensures taken { IfOk result (λ n.
            Consumes (left self.old) (left self.new) (take n into.new)) }
        ensures end { IfOk result (λ n. 0 < length into.old →
            IfSome (left self.old) (λ bytes. (n ≡ 0) ↔ (bytes ≡ []))) }
        ensures kept { OnErr result (Keeps (left self.old) (left self.new)) }
        ensures faults { HasCause (IsErr result) (faults self.old) (faults self.new) };
}
