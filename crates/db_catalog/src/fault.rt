// Why a change is refused.
use sql_values::{LimitName, Text};
use std::alloc::{AllocError, AllocFailed};

/// Why a database refuses a change. It is then as it was.
#[derive(Drop)]
pub enum DbFault {
    /// The name stands already.
    Duplicate {
        /// The name.
        name: Text,
    },
    /// A number would pass its limit.
    Limit {
        /// Which limit.
        name: LimitName,
        /// The number.
        value: u128,
    },
    /// Out of memory.
    NoMemory,
}

impl From<AllocError> for DbFault {
    ghost use Rattle.std.specs.Prelude.{◌≡◌};
    ghost use Rattle.db_catalog.specs.declared.fault.DbFault.TheVariants.{NoMemory};

    ghost from_gives = { λ _ fault. fault ≡ NoMemory };

    fn from(_: AllocError) -> DbFault {
        DbFault::NoMemory
    }
}

impl<T: Drop> From<AllocFailed<T>> for DbFault {
    ghost use Rattle.std.specs.Prelude.{◌≡◌};
    ghost use Rattle.db_catalog.specs.declared.fault.DbFault.TheVariants.{NoMemory};

    ghost from_gives = { λ _ fault. fault ≡ NoMemory };

    fn from(_: AllocFailed<T>) -> DbFault {
        DbFault::NoMemory
    }
}
