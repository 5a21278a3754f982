// Where the output goes: the trait of every sink. It never says what the bytes mean.
ghost use Rattle.std.specs.Prelude.{ℕ, List, take, Option, OnOk, IsErrOf};
ghost use Rattle.std.specs.Io.KnownBytes.{Appends, Keeps};
ghost use Rattle.outside_io.specs.Count.{HasCause};

use crate::PutFault;

/// A sink for bytes.
pub trait Sink {
    /// The bytes that it has got, where they are known.
    ghost got: { Self → Option (List ℕ) };

    /// How often it failed. The count ends at 2^64 - 1.
    ghost faults: { Self → ℕ };

    /// Appends the bytes to what it has got.
    ///
    /// `Failed`: the sink failed, and the first of the bytes may have been appended. `NoMemory`:
    /// out of memory, and none was.
    fn put(&mut self, bytes: &[u8]) -> Result<(), PutFault>
        ensures all { OnOk result (Appends (got self.old) (got self.new) bytes.now) }
        ensures part { IsErrOf result PutFault.Failed →
            (n : ℕ) × Appends (got self.old) (got self.new) (take n bytes.now) }
        ensures nothing { IsErrOf result PutFault.NoMemory → Keeps (got self.old) (got self.new) }
        ensures faults { HasCause (IsErrOf result PutFault.Failed)
            (faults self.old) (faults self.new) };
}
