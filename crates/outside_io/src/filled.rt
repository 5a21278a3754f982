// The two last steps of a write, each of which gives a value that only it can make: a new file that is filled, and one that
// stands in its place. So a write can't be called done without them.
ghost use Rattle.std.specs.Prelude.{IfOk, IfSome};
ghost use Rattle.std.specs.Fs.{permissions_mode};
ghost use Rattle.std.specs.Io.KnownBytes.{Appends};
ghost use Rattle.outside_io.specs.Rights.{NeverRuns};

use crate::writer_sink::write_whole;
use std::fs::{OpenFile, Permissions};
use std::io::Write;
use std::rt::Files;
use std::{fs, io};

/// A new file that has all its bytes and its rights.
#[derive(Drop)]
pub(crate) struct Filled<F> {
    file: F,
}

/// A filled file that stands in its place.
#[derive(Drop)]
pub(crate) struct Moved(());

/// Puts the bytes into a new file, which has its rights before the first of them.
pub(crate) fn fill<F: OpenFile + Write + Drop>(
    mut file: F,
    rights: Option<Permissions>,
    bytes: &[u8],
) -> io::Result<Filled<F>>
    requires { IfSome rights (λ rights. NeverRuns (permissions_mode rights)) }
    ensures { IfOk result (λ filled.
        Appends (F.contents file) (F.contents filled.file) bytes.now) }
{
    if let Some(rights) = rights {
        file.set_permissions(rights)?;
    }
    write_whole(&mut file, bytes)?;
    file.sync_all()?;
    Ok(Filled { file })
}

impl<F> Filled<F> {
    /// Moves the file, which has the name `path`, to its place.
    pub(crate) fn move_to<R: Files>(
        &self,
        files: &R,
        path: &str,
        place: &str,
    ) -> io::Result<Moved> {
        fs::rename(files, path, place)?;
        Ok(Moved(()))
    }
}
