// A sink over any writer. It relies on what the writer's trait says of the bytes that it holds, and
// it never returns Ok before the writer has flushed.
ghost use Rattle.std.specs.Prelude.{◌≡◌, ℕ, ◌<◌, ◌≤◌, ◌↔◌, take, length};
ghost use Rattle.std.specs.Prelude.{IfOk, IfErr, OnOk, OnErr, IsErrOf, IsTrue};
ghost use Rattle.std.specs.Io.KnownBytes.{Appends, Keeps, WriteAppends};
ghost use Rattle.outside_io.specs.Count.{HasCause, CountsEach};

use crate::{PutFault, Sink};
use std::io;
use std::io::{ErrorKind, Printer, Write};
use std::marker::Model;

/// A sink that writes what it gets. What it has got is what the writer holds.
#[derive(Drop)]
pub struct WriterSink<W: Write + Drop> {
    writer: W,
    faults: u64,
}

/// Standard output as a sink. Nothing is known of the bytes that it has got.
pub type StdSink<'a, P> = WriterSink<Printer<'a, P>>;

impl<W: Write + Drop> Model for WriterSink<W> {
    ghost use Rattle.outside_io.specs.Streams.{SinkState};

    ghost Value = { SinkState };

    ghost view = { λ s. record { got = W.contents s.writer; faults = s.faults } };
}

// One write, which is made again where a signal came between. A writer that takes nothing fails.
fn write_some<W: Write>(writer: &mut W, bytes: &[u8]) -> io::Result<usize>
    ensures within { IfOk result (λ n. n ≤ length bytes.now) }
    ensures some { IfOk result (λ n. 0 < n) }
    ensures wrote { WriteAppends (W.contents writer.old) (W.contents writer.new) result bytes.now }
{
    for _ in 0..u64::MAX {
        match writer.write(bytes) {
            Ok(0) => return Err(io::Error::from(ErrorKind::WriteZero)),
            Ok(n) => return Ok(n),
            Err(error) => {
                if error.kind() != ErrorKind::Interrupted {
                    return Err(error);
                }
            }
        }
    }
    Err(io::Error::from(ErrorKind::Interrupted))
}

// Writes all bytes, in as many writes as it takes, and flushes.
pub(crate) fn write_whole<W: Write>(writer: &mut W, bytes: &[u8]) -> io::Result<()>
    ensures all { OnOk result (Appends (W.contents writer.old) (W.contents writer.new) bytes.now) }
    ensures part { OnErr result ((n : ℕ) ×
        Appends (W.contents writer.old) (W.contents writer.new) (take n bytes.now)) }
{
    let mut written = 0;
    while written < bytes.len() {
        written += write_some(writer, &bytes[written..])?;
    }
    writer.flush()
}

impl<W: Write + Drop> WriterSink<W> {
    /// A sink that appends to what the writer holds.
    pub fn new(writer: W) -> WriterSink<W>
        ensures got { result.got ≡ W.contents writer }
        ensures faults { result.faults ≡ 0 }
    {
        WriterSink { writer, faults: 0 }
    }

    /// Whether a put has failed.
    pub fn has_failed(&self) -> bool
        ensures { IsTrue result ↔ (0 < self.now.faults) }
    {
        self.faults > 0
    }
}

impl<W: Write + Drop> Sink for WriterSink<W> {
    ghost got = { λ s. s.got };

    ghost faults = { λ s. s.faults };

    fn put(&mut self, bytes: &[u8]) -> Result<(), PutFault>
        ensures all { OnOk result (Appends self.old.got self.new.got bytes.now) }
        ensures part { IsErrOf result PutFault.Failed →
            (n : ℕ) × Appends self.old.got self.new.got (take n bytes.now) }
        ensures nothing { IsErrOf result PutFault.NoMemory → Keeps self.old.got self.new.got }
        ensures faults { HasCause (IsErrOf result PutFault.Failed) self.old.faults self.new.faults }

        // Each failure is counted once, and nothing else is. It is the one fault.
        ensures counted { CountsEach (IsErrOf result PutFault.Failed)
            self.old.faults self.new.faults }
        ensures only_failed { IfErr result (λ e. e ≡ PutFault.Failed) }
    {
        match write_whole(&mut self.writer, bytes) {
            Ok(()) => Ok(()),
            Err(_) => {
                self.faults = self.faults.saturating_add(1);
                Err(PutFault::Failed)
            }
        }
    }
}
