// Why a file isn't opened, and where in it the fault is.
use cost_model::{CountName, Stale};
use std::alloc::{AllocError, AllocFailed};

/// The place of a value that isn't there or doesn't fit. Items are numbered from 1.
#[derive(Clone, Copy)]
pub enum FieldPath {
    /// The version.
    Bouquet,
    /// A key that a file doesn't have.
    Keys,
    /// The text of the query.
    Query,
    /// The levels of each axis: 2 to 25, of no more than 4096 points.
    Levels,
    /// The threshold, in percent: 0 to 1000.
    Threshold,
    /// The list of relations: as many as the query has.
    Relations,
    /// A relation: an object with exactly its keys.
    Relation(u32),
    /// A count of a relation: at most 4194304 rows, 32 indexes.
    Count(u32, CountName),
    /// The list of contours: 1 to 128.
    Contours,
    /// A contour: an object with exactly its keys.
    Contour(u32),
    /// The cost of a contour: the decimal text of a number below 2^128.
    Cost(u32),
    /// The list of a contour's plans: 1 to 4096.
    Plans(u32),
    /// A plan of a contour: a text.
    Plan(u32, u32),
    /// The number of parameters in a file of version 2: 1 to 16777216.
    Parameters,
}

/// Why a file isn't opened as a bouquet: the first fault.
#[derive(Clone, Copy)]
pub enum OpenFault {
    /// It is no JSON of at most 127 levels.
    NotJson,
    /// A value isn't there or doesn't fit.
    Field {
        /// The first such value.
        path: FieldPath,
    },
    /// It is of a version that isn't known.
    Version {
        /// The version that it says.
        found: u64,
    },
    /// It is of another query.
    OtherQuery,
    /// It is of a query with another number of parameters.
    Parameters {
        /// How many parameters it says, 0 in version 1.
        kept: u64,
        /// How many the query has.
        present: u64,
    },
    /// A count isn't that of the tables.
    Stale(Stale),
    /// A contour costs more than 2^114.
    BudgetLimit {
        /// The contour, from 1.
        contour: u32,
    },
    /// A plan of a contour is no plan of the query.
    NotAPlan {
        /// The contour, from 1.
        contour: u32,
        /// The plan on it, from 1.
        plan: u32,
    },
    /// Out of memory.
    NoMemory,
}

impl From<AllocError> for OpenFault {
    ghost use Rattle.std.specs.Prelude.{◌≡◌};
    ghost use Rattle.bouquet_file.specs.declared.fault.OpenFault.TheVariants.{NoMemory};

    ghost from_gives = { λ _ fault. fault ≡ NoMemory };

    fn from(_: AllocError) -> OpenFault {
        OpenFault::NoMemory
    }
}

impl<T: Drop> From<AllocFailed<T>> for OpenFault {
    ghost use Rattle.std.specs.Prelude.{◌≡◌};
    ghost use Rattle.bouquet_file.specs.declared.fault.OpenFault.TheVariants.{NoMemory};

    ghost from_gives = { λ _ fault. fault ≡ NoMemory };

    fn from(_: AllocFailed<T>) -> Self {
        OpenFault::NoMemory
    }
}

impl From<Stale> for OpenFault {
    ghost use Rattle.std.specs.Prelude.{◌≡◌};
    ghost use Rattle.bouquet_file.specs.declared.fault.OpenFault.TheVariants as fault;

    ghost from_gives = { λ stale why. why ≡ fault.Stale stale };

    fn from(stale: Stale) -> OpenFault {
        OpenFault::Stale(stale)
    }
}
