// A source over any reader. It relies on what the reader's trait says of the bytes that are left,
// and it never gives a failure as the end.
ghost use Rattle.std.specs.Prelude.{◌≡◌, ◌≤◌, ◌<◌, ◌↔◌, [], take, length};
ghost use Rattle.std.specs.Prelude.{IfOk, IsErr, OnErr, IfSome, IsTrue};
ghost use Rattle.std.specs.Io.KnownBytes.{Consumes, Keeps, ReadConsumes};
ghost use Rattle.outside_io.specs.Count.{HasCause, CountsEach};

use crate::{Failed, Source};
use std::alloc::Allocator;
use std::io;
use std::io::{ErrorKind, Read, StdinLock};
use std::marker::Model;

/// A source of the bytes that a reader reads. What it has left is what the reader has left.
#[derive(Drop)]
pub struct ReaderSource<R: Read + Drop> {
    reader: R,
    faults: u64,
}

/// Standard input as a source. Nothing is known of the bytes that it has left.
pub type StdSource = ReaderSource<StdinLock<'static>>;

impl<R: Read + Drop> Model for ReaderSource<R> {
    ghost use Rattle.outside_io.specs.Streams.{SourceState};

    ghost Value = { SourceState };

    ghost view = { λ s. record { left = R.remaining s.reader; faults = s.faults } };
}

// One read, which is made again where a signal came between.
fn read_some<R: Read>(reader: &mut R, into: &mut [u8]) -> io::Result<usize>
    ensures within { IfOk result (λ n. n ≤ length into.old) }
    ensures read { ReadConsumes (R.remaining reader.old) (R.remaining reader.new) result into.new }
{
    for _ in 0..u64::MAX {
        match reader.read(into) {
            Ok(n) => return Ok(n),
            Err(error) => {
                if error.kind() != ErrorKind::Interrupted {
                    return Err(error);
                }
            }
        }
    }
    Err(io::Error::from(ErrorKind::Interrupted))
}

// All that a reader has left, of which so many bytes are expected.
pub(crate) fn read_all<R: Read + Drop, A: Allocator>(
    alloc: A,
    mut reader: R,
    expected: u64,
) -> io::Result<Vec<u8, A>>
    ensures { IfOk result (λ bytes. IfSome (R.remaining reader) (λ left. bytes.items ≡ left)) }
{
    let mut bytes = Vec::new(alloc);
    bytes.try_reserve(expected as usize)?;
    reader.read_to_end(&mut bytes)?;
    Ok(bytes)
}

impl<R: Read + Drop> ReaderSource<R> {
    /// A source of what the reader has left.
    pub fn new(reader: R) -> ReaderSource<R>
        ensures left { result.left ≡ R.remaining reader }
        ensures faults { result.faults ≡ 0 }
    {
        ReaderSource { reader, faults: 0 }
    }

    /// Whether a read has failed.
    pub fn has_failed(&self) -> bool
        ensures { IsTrue result ↔ (0 < self.now.faults) }
    {
        self.faults > 0
    }
}

impl<R: Read + Drop> Source for ReaderSource<R> {
    ghost left = { λ s. s.left };

    ghost faults = { λ s. s.faults };

    fn take(&mut self, into: &mut [u8]) -> Result<usize, Failed>
        ensures within { IfOk result (λ n. n ≤ length into.old) }
        ensures taken { IfOk result (λ n. Consumes self.old.left self.new.left (take n into.new)) }
        ensures end { IfOk result (λ n. 0 < length into.old →
            IfSome self.old.left (λ bytes. (n ≡ 0) ↔ (bytes ≡ []))) }
        ensures kept { OnErr result (Keeps self.old.left self.new.left) }
        ensures faults { HasCause (IsErr result) self.old.faults self.new.faults }

        // Each failure is counted once, and nothing else is.
        ensures counted { CountsEach (IsErr result) self.old.faults self.new.faults }
    {
        match read_some(&mut self.reader, into) {
            Ok(n) => Ok(n),
            Err(_) => {
                self.faults = self.faults.saturating_add(1);
                Err(Failed)
            }
        }
    }
}
