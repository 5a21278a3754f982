// The columns that SELECT asks for.
ghost use Rattle.std.specs.Prelude.{◌≡◌, ◌≤◌, ◌++◌, IfOk, OnOk, length};
ghost use Rattle.std.specs.List.{filter_map};
ghost use Rattle.sql_values.specs.Limits.{max_columns};
ghost use Rattle.sql_bind.specs.Names.{first_fault_among, written_column_fault, place_of};
ghost use Rattle.sql_bind.specs.Binding.{projection_fault, projection_of, columns_from, every_column};
ghost use Rattle.sql_bind.specs.Refused.{RefusesBlock};

use crate::fault::BindFault;
use crate::from::check_limit;
use crate::names::place_of;
use crate::scope::Scope;
use query_block::ColumnAt;
use sql_parse::ColRef;
use sql_values::{ColumnDef, LimitName, MAX_PROJECTION, Sequence};
use std::alloc::AllocError;

// The columns that written columns name.
fn places_of(scope: &Scope<'_>, columns: &[ColRef]) -> Result<Vec<ColumnAt>, BindFault>
    ensures refuses { RefusesBlock (first_fault_among (written_column_fault scope.now) columns.now) result }
    ensures places { IfOk result
        (λ places. places.items ≡ filter_map (place_of scope.now) columns.now) }
{
    let mut places = Vec::with_capacity(scope.alloc(), columns.len())?;
    for i in 0..columns.len() {
        places.push(place_of(scope, &columns[i])?)?;
    }
    Ok(places)
}

// Adds every column of a relation.
fn push_columns(
    relation: u8,
    columns: &[ColumnDef],
    places: &mut Vec<ColumnAt>,
) -> Result<(), AllocError>
    requires { length columns.now ≤ max_columns }
    ensures { OnOk result
        (places.new.items ≡ places.old.items ++ columns_from relation 0 columns.now) }
{
    for number in 0..columns.len() {
        let column = number as u8;
        places.push(ColumnAt { relation, column })?;
    }
    Ok(())
}

// Every column of all tables.
fn every_column(scope: &Scope<'_>) -> Result<Vec<ColumnAt>, AllocError>
    ensures { IfOk result (λ places. places.items ≡ every_column 0 scope.now) }
{
    let tables = scope.tables();
    let mut places = Vec::new(scope.alloc());
    for i in 0..tables.len() {
        let table = &tables[i];
        push_columns(i as u8, table.columns, &mut places)?;
    }
    Ok(places)
}

/// The columns that SELECT asks for: those that it names, or every column.
pub(crate) fn projection(
    scope: &Scope<'_>,
    columns: &Option<Sequence<ColRef>>,
) -> Result<Vec<ColumnAt>, BindFault>
    ensures refuses { RefusesBlock (projection_fault scope.now columns.now) result }
    ensures places { IfOk result (λ places. places.items ≡ projection_of scope.now columns.now) }
{
    match columns {
        None => {
            let places = every_column(scope)?;
            Ok(places)
        }
        Some(columns) => {
            let columns = columns.as_slice();
            check_limit(LimitName::Projection, MAX_PROJECTION, columns.len())?;
            places_of(scope, columns)
        }
    }
}
