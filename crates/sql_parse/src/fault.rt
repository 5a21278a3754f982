use std::alloc::{AllocError, AllocFailed};
use thiserror::Error;

/// Why tokens are no statements.
#[derive(Clone, Copy, Debug, Drop, Error)]
pub enum SyntaxFault {
    /// A piece between semicolons isn't a statement.
    #[error("no statement begins at byte {place}")]
    Syntax {
        /// The place of the piece's first byte, from 0.
        place: usize,
    },
    /// No memory for the statements.
    #[error("out of memory")]
    NoMemory,
}

// Why a piece isn't read.
#[derive(Clone, Copy, Drop)]
pub(crate) enum ReadFault {
    NotAStatement,
    NoMemory,
}

impl From<AllocError> for ReadFault {
    ghost use Rattle.std.specs.Prelude.{◌≡◌};
    ghost use Rattle.sql_parse.specs.declared.fault.ReadFault.TheVariants.{NoMemory};

    ghost from_gives = { λ _ fault. fault ≡ NoMemory };

    fn from(_: AllocError) -> Self {
        ReadFault::NoMemory
    }
}

impl<T: Drop> From<AllocFailed<T>> for ReadFault {
    ghost use Rattle.std.specs.Prelude.{◌≡◌};
    ghost use Rattle.sql_parse.specs.declared.fault.ReadFault.TheVariants.{NoMemory};

    ghost from_gives = { λ _ fault. fault ≡ NoMemory };

    fn from(_: AllocFailed<T>) -> Self {
        ReadFault::NoMemory
    }
}
