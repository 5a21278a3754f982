// The columns of a table. Nothing here tests a value against its column.
use crate::text::Text;

/// What a column holds.
#[derive(Clone, Copy, PartialEq, Eq)]
pub enum ColumnType {
    /// Whole numbers from -9223372036854775807 to 9223372036854775807 (SQL-92, 4.4).
    Integer,
    /// Texts of at most so many characters, from 1 (SQL-92, 4.2). A byte of 128 to 191 goes on with a character of UTF-8
    /// and isn't counted.
    Varchar(u64),
}

/// A column of a table.
#[derive(Clone, Drop)]
pub struct ColumnDef {
    /// The column's name, in upper case.
    pub name: Text,
    /// What it holds.
    pub kind: ColumnType,
    /// Whether the column refuses NULL.
    pub not_null: bool,
}
