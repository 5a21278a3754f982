// What a call on the outside returns where it doesn't do what it was asked.
use std::alloc::AllocError;
use std::io;
use std::io::ErrorKind;

/// A source failed, and gave nothing.
#[derive(Clone, Copy)]
pub struct Failed;

/// Why a sink didn't take the bytes.
#[derive(Clone, Copy)]
pub enum PutFault {
    /// The sink failed. It may have taken the first of the bytes.
    Failed,
    /// Out of memory. The sink took nothing.
    NoMemory,
}

/// Why a folder didn't read or write a file.
#[derive(Clone, Copy)]
pub enum FileFault {
    /// The folder has no file of that name.
    Absent,
    /// The file has more bytes than the limit.
    TooLong {
        /// How many bytes the file has, as far as they were counted.
        len: u64,
    },
    /// The folder failed.
    Failed,
    /// Out of memory. The folder holds what it held.
    NoMemory,
}

impl From<AllocError> for PutFault {
    ghost use Rattle.std.specs.Prelude.{◌≡◌};
    ghost use Rattle.outside_io.specs.declared.fault.PutFault.TheVariants.{NoMemory};

    ghost from_gives = { λ _ fault. fault ≡ NoMemory };

    fn from(_: AllocError) -> PutFault {
        PutFault::NoMemory
    }
}

impl From<AllocError> for FileFault {
    ghost use Rattle.std.specs.Prelude.{◌≡◌};
    ghost use Rattle.outside_io.specs.declared.fault.FileFault.TheVariants.{NoMemory};

    ghost from_gives = { λ _ fault. fault ≡ NoMemory };

    fn from(_: AllocError) -> FileFault {
        FileFault::NoMemory
    }
}

/// What a read of a file returns where the system has an error.
impl From<io::Error> for FileFault {
    ghost use Rattle.std.specs.Prelude.{◌≡◌};
    ghost use Rattle.std.specs.IoError.{error_kind};
    ghost use Rattle.outside_io.specs.Files.{fault_of_kind};

    ghost from_gives = { λ error fault. fault ≡ fault_of_kind (error_kind error) };

    fn from(error: io::Error) -> FileFault {
        match error.kind() {
            ErrorKind::NotFound => FileFault::Absent,
            ErrorKind::OutOfMemory => FileFault::NoMemory,
            _ => FileFault::Failed,
        }
    }
}
