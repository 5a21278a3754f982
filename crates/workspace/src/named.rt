// What a statement names: a table's column, and refusals for names that stand for nothing, each of which costs nothing.
ghost use Rattle.std.specs.Prelude.{◌≡◌, ◌<◌, ◌≤◌, length, IfSome};
ghost use Rattle.sql_values.specs.Limits.{max_columns};
ghost use Rattle.workspace.specs.CreateIndex.{column_number};
ghost use Rattle.workspace.specs.Outcome.{Refuses};
ghost use Rattle.workspace.specs.Stop.{StopsAt};

use crate::refusal::Refusal;
use crate::stop::Stop;
use sql_parse::Name;
use sql_values::ColumnDef;

/// There is no table of this name.
pub(crate) fn no_table(name: &Name) -> Stop
    ensures { StopsAt (Refuses (Refusal.NoTable name.now)) result }
{
    match name.clone() {
        Ok(name) => Stop::Refused(Refusal::NoTable(name)),
        Err(_) => Stop::NoMemory,
    }
}

/// The table has no column of this name.
pub(crate) fn no_column(name: &Name) -> Stop
    ensures { StopsAt (Refuses (Refusal.NoColumn name.now)) result }
{
    match name.clone() {
        Ok(name) => Stop::Refused(Refusal::NoColumn(name)),
        Err(_) => Stop::NoMemory,
    }
}

/// There is no bouquet of this name.
pub(crate) fn no_bouquet(name: &Name) -> Stop
    ensures { StopsAt (Refuses (Refusal.NoBouquet name.now)) result }
{
    match name.clone() {
        Ok(name) => Stop::Refused(Refusal::NoBouquet(name)),
        Err(_) => Stop::NoMemory,
    }
}

/// A bouquet has this name already.
pub(crate) fn taken(name: &Name) -> Stop
    ensures { StopsAt (Refuses (Refusal.NameTaken name.now)) result }
{
    match name.clone() {
        Ok(name) => Stop::Refused(Refusal::NameTaken(name)),
        Err(_) => Stop::NoMemory,
    }
}

/// The number of the column of this name, from 0.
pub(crate) fn column_of(columns: &[ColumnDef], name: &Name) -> Option<u8>
    requires few { length columns.now ≤ max_columns }
    ensures number { result ≡ column_number columns.now name.now }
    ensures there { IfSome result (λ number. number < length columns.now) }
{
    for number in 0..columns.len() {
        if name.bytes() == columns[number].name.bytes() {
            return Some(number as u8);
        }
    }
    None
}
