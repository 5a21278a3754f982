// Whether what a name leads to is a regular file. A directory, a pipe and a device are none.
ghost use Rattle.std.specs.Prelude.{◌≡◌, ◌↔◌, IfErr, IsOk};
ghost use Rattle.std.specs.Fs.{IsFile, file_type};
ghost use Rattle.std.specs.IoError.{error_kind};

use std::fs::Metadata;
use std::io;
use std::io::ErrorKind;

/// Refuses what is no regular file, by an error that isn't 'not found'.
pub(crate) fn check_regular(found: &Metadata) -> io::Result<()>
    ensures regular { IsOk result ↔ IsFile (file_type found.now) }
    ensures kind { IfErr result (λ e. error_kind e ≡ ErrorKind.InvalidInput) }
{
    if !found.is_file() {
        return Err(io::Error::from(ErrorKind::InvalidInput));
    }
    Ok(())
}
