use std::alloc::AllocError;

/// Why there are no counts.
#[derive(Clone, Copy)]
pub enum StatsFault {
    /// The tables have too many combinations of one row each.
    ProductLimit {
        /// The first product of counts of rows, in FROM order, that passes 2^100.
        value: u128,
    },
    /// Out of memory.
    NoMemory,
}

impl From<AllocError> for StatsFault {
    ghost use Rattle.std.specs.Prelude.{◌≡◌};
    ghost use Rattle.table_stats.specs.declared.fault.StatsFault.TheVariants.{NoMemory};

    ghost from_gives = { λ _ fault. fault ≡ NoMemory };

    fn from(_: AllocError) -> StatsFault {
        StatsFault::NoMemory
    }
}
