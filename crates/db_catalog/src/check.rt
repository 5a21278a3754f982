// The checks before a change: limits, names and columns. None of them changes anything.
ghost use Rattle.std.specs.Prelude.{◌≡◌, ◌≢◌, ◌<◌, [], map, length};
ghost use Rattle.sql_values.specs.Dictionary.{has_text};
ghost use Rattle.db_catalog.specs.Refused.{Refuses, RefusesExactly, RefusesWhereDue};
ghost use Rattle.db_catalog.specs.Refused.{past, column_fault, columns_fault, indexed_fault};

use crate::fault::DbFault;
use sql_values::{ColumnDef, ColumnType, LimitName, MAX_LENGTH, MIN_LENGTH, Text};
use std::alloc::Global;

// Refuses a number past its limit.
pub(crate) fn check_limit(name: LimitName, most: u64, value: u128) -> Result<(), DbFault>
    ensures { RefusesExactly (past name most value) result }
{
    if value > u128::from(most) {
        return Err(DbFault::Limit { name, value });
    }
    Ok(())
}

// The refusal of a name that stands already.
pub(crate) fn duplicate(alloc: Global, name: &[u8]) -> DbFault
    ensures { result ≢ DbFault.NoMemory → result ≡ DbFault.Duplicate name.now }
{
    match Text::new(alloc, name) {
        Ok(name) => DbFault::Duplicate { name },
        Err(_) => DbFault::NoMemory,
    }
}

// Whether a column has this name.
fn is_taken(columns: &[ColumnDef], name: &[u8]) -> bool
    ensures { result ≡ has_text (map (λ column. column.name) columns.now) name.now }
{
    for column in columns {
        if name == column.name.bytes() {
            return true;
        }
    }
    false
}

// Refuses a column whose name stands among those before it, or whose texts have no allowed length.
fn check_column(alloc: Global, before: &[ColumnDef], column: &ColumnDef) -> Result<(), DbFault>
    ensures { RefusesWhereDue (column_fault (map (λ c. c.name) before.now) column.now) result }
{
    if is_taken(before, column.name.bytes()) {
        return Err(duplicate(alloc, column.name.bytes()));
    }
    if let ColumnType::Varchar(length) = column.kind
        && !(MIN_LENGTH..=MAX_LENGTH).contains(&length)
    {
        return Err(DbFault::Limit {
            name: LimitName::Length,
            value: u128::from(length),
        });
    }
    Ok(())
}

// Refuses columns at the first that can't be.
pub(crate) fn check_columns(alloc: Global, columns: &[ColumnDef]) -> Result<(), DbFault>
    ensures { RefusesWhereDue (columns_fault [] columns.now) result }
{
    for i in 0..columns.len() {
        check_column(alloc, &columns[..i], &columns[i])?;
    }
    Ok(())
}

// Refuses a column that is among the indexed ones.
pub(crate) fn check_unindexed(
    alloc: Global,
    columns: &[ColumnDef],
    indexed: &[u8],
    column: u8,
) -> Result<(), DbFault>
    requires { column < length columns.now }
    ensures { Refuses (indexed_fault columns.now indexed.now column) result }
{
    if indexed.contains(&column) {
        return Err(duplicate(alloc, columns[column as usize].name.bytes()));
    }
    Ok(())
}
