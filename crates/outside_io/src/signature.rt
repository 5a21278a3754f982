// Which files a write may replace: empty ones, and those that begin as a bouquet's file does. It
// never reads more of a file than that.
ghost use Rattle.std.specs.Prelude.{◌≡◌, ◌⊎◌, [], take, IfOk, IfSome};
ghost use Rattle.outside_io.specs.Signature.{signature};

use crate::reader_source::read_all;
use std::alloc::Allocator;
use std::io;
use std::io::{ErrorKind, Read};

// How the file of a bouquet begins.
static SIGNATURE: &str = "{\"bouquet\":";

/// A file that was looked at, and may be replaced. Only `check_replaceable` makes one.
#[derive(Drop)]
pub(crate) struct Replaceable(());

/// Refuses a file that is neither empty nor a bouquet's, by an error that isn't 'not found'.
pub(crate) fn check_replaceable<F: Read + Drop, A: Allocator>(
    alloc: A,
    file: F,
) -> io::Result<Replaceable>
    ensures { IfOk result (λ _. IfSome (F.remaining file)
        (λ held. (take 11 held ≡ []) ⊎ (take 11 held ≡ signature))) }
{
    let start = read_all(alloc, file.take(11), 11)?;
    if !start.is_empty() && start.as_slice() != SIGNATURE.as_bytes() {
        return Err(io::Error::from(ErrorKind::InvalidInput));
    }
    Ok(Replaceable(()))
}
