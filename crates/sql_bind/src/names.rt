// Written columns, and the columns of the tables of FROM that they name.
ghost use Rattle.std.specs.Prelude.{◌≡◌, ◌≢◌, ◌≤◌, IfOk, Some, length, fold};
ghost use Rattle.sql_values.specs.Limits.{max_columns};
ghost use Rattle.sql_bind.specs.Names.{places_among, places_from, place_of, written_column_fault, may_name, written_name};
ghost use Rattle.sql_bind.specs.Refused.{RefusesBlock, added};

use crate::fault::BindFault;
use crate::scope::{NamedTable, Scope};
use query_block::ColumnAt;
use sql_parse::ColRef;
use sql_values::{ColumnDef, Text};
use std::alloc::{AllocError, Global};

/// The columns that a written column was found to name.
#[derive(Clone, Copy)]
pub(crate) enum NamedColumns {
    Nothing,
    One(ColumnAt),
    /// Two or more.
    Several,
}

impl NamedColumns {
    fn added(self, place: ColumnAt) -> NamedColumns
        ensures { result ≡ added self place }
    {
        match self {
            NamedColumns::Nothing => NamedColumns::One(place),
            _ => NamedColumns::Several,
        }
    }
}

// What is found with the columns of this name of one relation.
fn found_among(
    found: NamedColumns,
    relation: u8,
    columns: &[ColumnDef],
    name: &[u8],
) -> NamedColumns
    requires { length columns.now ≤ max_columns }
    ensures { result ≡ fold added found (places_among relation 0 columns.now name.now) }
{
    let mut found = found;
    for number in 0..columns.len() {
        if columns[number].name.bytes() == name {
            let column = number as u8;
            found = found.added(ColumnAt { relation, column });
        }
    }
    found
}

// Whether a column written with this alias, or without one, may be one of the table.
fn may_name(written: &ColRef, table: &NamedTable<'_>) -> bool
    ensures { result ≡ may_name written.now.alias table.now }
{
    match &written.alias {
        Some(alias) => alias.bytes() == table.alias,
        None => true,
    }
}

// The columns that a written column names.
fn look_up(scope: &Scope<'_>, written: &ColRef) -> NamedColumns
    ensures { result ≡ fold added NamedColumns.Nothing (places_from 0 scope.now written.now) }
{
    let tables = scope.tables();
    let mut found = NamedColumns::Nothing;
    for number in 0..tables.len() {
        let table = &tables[number];
        if may_name(written, table) {
            found = found_among(found, number as u8, table.columns, written.column.bytes());
        }
    }
    found
}

// A column as it is written.
fn written_name(alloc: Global, written: &ColRef) -> Result<Text, AllocError>
    ensures { IfOk result (λ name. name ≡ written_name written.now) }
{
    let mut name = Vec::new(alloc);
    if let Some(alias) = &written.alias {
        name.extend_from_slice(alias.bytes())?;
        name.push(b'.')?;
    }
    name.extend_from_slice(written.column.bytes())?;
    Ok(Text::from(name))
}

// The refusal of a column that no table has.
fn unknown_column(alloc: Global, written: &ColRef) -> BindFault
    ensures { result ≢ BindFault.NoMemory
        → result ≡ BindFault.UnknownColumn (written_name written.now) }
{
    match written_name(alloc, written) {
        Ok(name) => BindFault::UnknownColumn { name },
        Err(_) => BindFault::NoMemory,
    }
}

// The refusal of a column that several tables have.
fn ambiguous(written: &ColRef) -> BindFault
    ensures { result ≢ BindFault.NoMemory → result ≡ BindFault.Ambiguous written.now.column }
{
    match written.column.clone() {
        Ok(name) => BindFault::Ambiguous { name },
        Err(_) => BindFault::NoMemory,
    }
}

/// The column that a written column names: refused where it doesn't name exactly one.
pub(crate) fn place_of(scope: &Scope<'_>, written: &ColRef) -> Result<ColumnAt, BindFault>
    ensures refuses { RefusesBlock (written_column_fault scope.now written.now) result }
    ensures place { IfOk result (λ place. place_of scope.now written.now ≡ Some place) }
{
    match look_up(scope, written) {
        NamedColumns::Nothing => Err(unknown_column(scope.alloc(), written)),
        NamedColumns::One(place) => Ok(place),
        NamedColumns::Several => Err(ambiguous(written)),
    }
}
