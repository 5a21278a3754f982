// Why a file gives a table no rows.
use sql_values::LimitName;
use std::alloc::AllocError;

/// Why a file isn't loaded. The database is then as it was. Entries are numbered from 1 without the header, fields from 1.
#[derive(Drop)]
pub enum LoadFault {
    /// The header hasn't the columns' names in their order, in any case (of ASCII). A file without entries has none.
    Header {
        /// The first field that differs, is missing or is too many.
        field: u32,
    },
    /// An entry hasn't a field for each column.
    FieldCount {
        /// The entry.
        entry: u64,
        /// How many fields it has.
        found: u64,
        /// How many columns there are.
        wanted: u64,
    },
    /// A field isn't UTF-8 (RFC 3629), in a column of any kind.
    NotUtf8 {
        /// The entry.
        entry: u64,
        /// The field.
        field: u32,
    },
    /// A field of an INTEGER column is neither empty nor digits after a sign, which may be left out.
    NotInteger {
        /// The entry.
        entry: u64,
        /// The field.
        field: u32,
    },
    /// The number in a field of an INTEGER column is above 9223372036854775807 or below -9223372036854775807.
    OutOfRange {
        /// The entry.
        entry: u64,
        /// The field.
        field: u32,
    },
    /// A field of a NOT NULL column is empty.
    NullInNotNull {
        /// The entry.
        entry: u64,
        /// The field.
        field: u32,
    },
    /// A text has more characters than its column allows.
    TooLong {
        /// The entry.
        entry: u64,
        /// The field.
        field: u32,
    },
    /// All entries are good, and with them a number would pass its limit.
    Limit {
        /// Which limit.
        name: LimitName,
        /// The number that there would be.
        value: u128,
    },
    /// Out of memory.
    NoMemory,
}

impl From<AllocError> for LoadFault {
    ghost use Rattle.std.specs.Prelude.{◌≡◌};
    ghost use Rattle.csv_load.specs.declared.fault.LoadFault.TheVariants.{NoMemory};

    ghost from_gives = { λ _ fault. fault ≡ NoMemory };

    fn from(_: AllocError) -> LoadFault {
        LoadFault::NoMemory
    }
}
