// The tables of FROM.
ghost use Rattle.std.specs.Prelude.{◌≡◌, ◌≢◌, ◌≤◌, ◌<◌, [], All, IfOk, length, map};
ghost use Rattle.std.specs.Option.{option_or};
ghost use Rattle.sql_values.specs.Limits.{max_relations};
ghost use Rattle.sql_values.specs.Dictionary.{has_text};
ghost use Rattle.db_catalog.specs.Database.{table_number};
ghost use Rattle.sql_bind.specs.Binding.{named_table, named_tables, past_limit, table_fault, alias_fault, from_fault};
ghost use Rattle.sql_bind.specs.Named.{IsNamed};
ghost use Rattle.sql_bind.specs.Refused.{RefusesAlways, RefusesBlock};

use crate::fault::BindFault;
use crate::scope::{NamedTable, Scope};
use db_catalog::Database;
use sql_parse::{Item, Name};
use sql_values::LimitName;
use std::alloc::Global;

/// Refuses a number past its limit. It takes no memory.
pub(crate) fn check_limit(name: LimitName, most: usize, value: usize) -> Result<(), BindFault>
    ensures { RefusesAlways (past_limit name most value) result }
{
    if value > most {
        return Err(BindFault::Limit {
            name,
            value: value as u128,
        });
    }
    Ok(())
}

// The refusal of a table that the database doesn't have.
fn unknown_table(name: &Name) -> BindFault
    ensures { result ≢ BindFault.NoMemory → result ≡ BindFault.UnknownTable name.now }
{
    match name.clone() {
        Ok(name) => BindFault::UnknownTable { name },
        Err(_) => BindFault::NoMemory,
    }
}

// The refusal of an alias that stands before.
fn duplicate_alias(name: &Name) -> BindFault
    ensures { result ≢ BindFault.NoMemory → result ≡ BindFault.DuplicateAlias name.now }
{
    match name.clone() {
        Ok(name) => BindFault::DuplicateAlias { name },
        Err(_) => BindFault::NoMemory,
    }
}

// Whether one of these items has the alias.
fn has_alias(items: &[Item], alias: &Name) -> bool
    ensures { result ≡ has_text (map (λ item. item.alias) items.now) alias.now }
{
    for i in 0..items.len() {
        if alias.bytes() == items[i].alias.bytes() {
            return true;
        }
    }
    false
}

// The number of an item's table.
fn number_of(database: &Database, item: &Item) -> Result<u32, BindFault>
    ensures refuses { RefusesBlock
        (table_fault item.now (table_number database.now item.now.table)) result }
    ensures number { IfOk result
        (λ number. table_number database.now item.now.table ≡ Some number) }
{
    match database.table_of(item.table.bytes()) {
        Some(number) => Ok(number),
        None => Err(unknown_table(&item.table)),
    }
}

// An item as the table that it names, of which this is the number.
fn named_table<'q>(database: &'q Database, item: &'q Item, number: u32) -> NamedTable<'q>
    requires there { table_number database.now item.now.table ≡ Some number }
    ensures table { result ≡ named_table database.now item.now }
    ensures named { IsNamed result }
{
    NamedTable {
        alias: item.alias.bytes(),
        number,
        columns: database.columns(number),
        indexed: database.indexes(number),
    }
}

// An item behind these as the table that it names. The database has the table, and no item before has the alias.
fn next_table<'q>(
    database: &'q Database,
    before: &[Item],
    item: &'q Item,
) -> Result<NamedTable<'q>, BindFault>
    ensures refuses { RefusesBlock
        (option_or (table_fault item.now (table_number database.now item.now.table))
        (alias_fault (map (λ item. item.alias) before.now) item.now)) result }
    ensures table { IfOk result (λ table. table ≡ named_table database.now item.now) }
    ensures named { IfOk result IsNamed }
{
    let number = number_of(database, item)?;
    if has_alias(before, &item.alias) {
        return Err(duplicate_alias(&item.alias));
    }
    Ok(named_table(database, item, number))
}

/// The tables of FROM.
pub(crate) fn named_tables<'q>(
    alloc: Global,
    database: &'q Database,
    items: &'q [Item],
) -> Result<Scope<'q>, BindFault>
    requires { length items.now ≤ max_relations }
    ensures refuses { RefusesBlock (from_fault database.now [] items.now) result }
    ensures tables { IfOk result (λ scope. scope ≡ named_tables database.now items.now) }
    ensures named { IfOk result (λ scope. All IsNamed scope) }
{
    let mut tables = Vec::with_capacity(alloc, items.len())?;
    for i in 0..items.len() {
        let table = next_table(database, &items[..i], &items[i])?;
        tables.push(table)?;
    }
    Ok(Scope::new(alloc, tables))
}
