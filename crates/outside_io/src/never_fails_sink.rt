// A sink in memory that never fails. Its bytes are known; a put that finds no memory appends nothing.
ghost use Rattle.std.specs.Prelude.{◌≡◌, ◌++◌, [], Some, OnErr, OnOk, IfErr};

use crate::{PutFault, Sink};
use std::alloc::Global;
use std::marker::Model;

/// A sink in memory whose calls fail only if memory runs out.
#[derive(Drop)]
pub struct NeverFailsSink {
    bytes: Vec<u8>,
}

impl Model for NeverFailsSink {
    ghost use Rattle.std.specs.Prelude.{ℕ, List};

    ghost Value = { List ℕ };

    ghost view = { λ s. s.bytes.items };
}

impl NeverFailsSink {
    /// A sink that has got nothing yet.
    pub fn new(alloc: Global) -> NeverFailsSink
        ensures { result ≡ [] }
    {
        NeverFailsSink {
            bytes: Vec::new(alloc),
        }
    }

    /// The bytes that it has got.
    pub fn bytes(&self) -> &[u8]
        ensures { result.now ≡ self.now }
    {
        &self.bytes
    }
}

impl Sink for NeverFailsSink {
    ghost got = { λ s. Some s };

    ghost faults = { λ _. 0 };

    fn put(&mut self, bytes: &[u8]) -> Result<(), PutFault>
        ensures all { OnOk result (self.new ≡ self.old ++ bytes.now) }
        ensures kept { OnErr result (self.new ≡ self.old) }
        ensures never { IfErr result (λ fault. fault ≡ PutFault.NoMemory) }
    {
        self.bytes.extend_from_slice(bytes)?;
        Ok(())
    }
}
