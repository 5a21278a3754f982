// Why a query can't be bound.
use sql_values::{LimitName, Text};
use std::alloc::{AllocError, AllocFailed};

/// Why a query has no block. Names are in upper case.
#[derive(Drop)]
pub enum BindFault {
    /// The database has no such table.
    UnknownTable {
        /// Its name.
        name: Text,
    },
    /// No table of FROM has such a column.
    UnknownColumn {
        /// The column as it is written: its alias, if it has one, a dot, and its name.
        name: Text,
    },
    /// Several tables of FROM have such a column.
    Ambiguous {
        /// Its name.
        name: Text,
    },
    /// A table of FROM before has the alias.
    DuplicateAlias {
        /// The alias.
        name: Text,
    },
    /// A predicate compares a number with a text.
    TypeMismatch {
        /// Its number in WHERE, from 1, in written order.
        predicate: u32,
    },
    /// A conjunct is neither over one relation nor an equality of columns of two.
    PredicateForm {
        /// Its number in WHERE, from 1, in written order.
        conjunct: u32,
    },
    /// A number is past its limit.
    Limit {
        /// Which limit.
        name: LimitName,
        /// The number.
        value: u128,
    },
    /// Out of memory.
    NoMemory,
}

impl From<AllocError> for BindFault {
    ghost use Rattle.std.specs.Prelude.{◌≡◌};
    ghost use Rattle.sql_bind.specs.declared.fault.BindFault.TheVariants.{NoMemory};

    ghost from_gives = { λ _ fault. fault ≡ NoMemory };

    fn from(_: AllocError) -> BindFault {
        BindFault::NoMemory
    }
}

impl<T: Drop> From<AllocFailed<T>> for BindFault {
    ghost use Rattle.std.specs.Prelude.{◌≡◌};
    ghost use Rattle.sql_bind.specs.declared.fault.BindFault.TheVariants.{NoMemory};

    ghost from_gives = { λ _ fault. fault ≡ NoMemory };

    fn from(_: AllocFailed<T>) -> BindFault {
        BindFault::NoMemory
    }
}
