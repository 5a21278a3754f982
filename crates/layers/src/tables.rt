// Rows that come to a table value after value, all in one call, and rows that are read page after page for pay.
ghost use Rattle.std.specs.Prelude.{◌≡◌, ◌<◌, length, IsTrue};
ghost use Rattle.sql_values.specs.Stored.{IsValueOf, IsRowOf};
ghost use Rattle.db_catalog.specs.Database.{FillRows};
ghost use Rattle.db_catalog.specs.Meter.{table_pages};

use crate::scripts::table_of;
use db_catalog::{Database, Metered};
use sql_values::{ColumnDef, ColumnType, NULL_WORD, Text, Value};
use std::alloc::Global;
use work_ledger::Exhausted;

// Whether a value may stand in a column. No text has more characters than bytes.
fn is_value_of(column: &ColumnDef, value: &Value) -> bool
    ensures { IsTrue result → IsValueOf column.now value.now }
{
    match (value, column.kind) {
        (Value::Null, _) => !column.not_null,
        (Value::Int(number), ColumnType::Integer) => *number != NULL_WORD,
        (Value::Text(text), ColumnType::Varchar(most)) => text.bytes().len() as u64 <= most,
        _ => false,
    }
}

// Whether values are a row of these columns.
fn is_row_of(columns: &[ColumnDef], row: &[Value]) -> bool
    ensures { IsTrue result → IsRowOf columns.now row.now }
{
    let ([column, columns @ ..], [value, row @ ..]) = (columns, row) else {
        return columns.is_empty() && row.is_empty();
    };
    is_value_of(column, value) && is_row_of(columns, row)
}

// Whether values are whole rows of them.
fn fill_rows(columns: &[ColumnDef], values: &[Value]) -> bool
    ensures { IsTrue result → FillRows columns.now values.now }
{
    let width = columns.len();
    if width == 0 || values.len() % width != 0 {
        return false;
    }
    for i in 0..values.len() / width {
        if !is_row_of(columns, &values[i * width..i * width + width]) {
            return false;
        }
    }
    true
}

// The value that a word stands for: N for NULL, a number, or a text.
fn value_of(alloc: Global, word: &str) -> Option<Value> {
    match word.parse::<i64>() {
        _ if word == "N" => Some(Value::Null),
        Ok(number) => Some(Value::Int(number)),
        Err(_) => Some(Value::Text(Text::new(alloc, word.as_bytes()).ok()?)),
    }
}

// The values of words.
fn values_of(alloc: Global, words: &str) -> Option<Vec<Value>> {
    let mut values = Vec::new(alloc);
    for word in words.split(' ') {
        values.push(value_of(alloc, word)?).ok()?;
    }
    Some(values)
}

// How many rows a table has, how many texts the database, and the words of the table's last row, N for that of NULL.
fn last_row(alloc: Global, db: &Database, table: u32) -> Option<String>
    requires { table < length db.now.tables }
{
    let rows = db.rows(table);
    if rows == 0 {
        return None;
    }
    let mut text = format!(in alloc; "{rows} {}", db.texts().len()).ok()?;
    for word in db.plain_row(table, rows - 1) {
        if *word == NULL_WORD {
            text.push_str(" N").ok()?;
        } else {
            write!(text, " {word}").ok()?;
        }
    }
    Some(text)
}

// Appends the values of words to a table, row after row, and tells what is there then.
pub(crate) fn append(alloc: Global, db: &mut Database, table: &str, words: &str) -> Option<String> {
    let table = table_of(db, table.as_bytes())?;
    let values = values_of(alloc, words)?;
    if !fill_rows(db.columns(table), &values) {
        return None;
    }
    db.append_rows(table, &values).ok()?;
    last_row(alloc, db, table)
}

// Reads the rows of a page, up to the first that is no longer paid for, and adds their first words up.
fn read_page(meter: &mut Metered<'_>, table: u32, no: u64, sum: &mut u64) -> Result<(), Exhausted>
    requires { no < table_pages meter.old.database table }
    ensures { meter.new.database ≡ meter.old.database }
{
    let page = meter.scan_page(table, no)?;
    for slot in 0..meter.rows_on_page(table, no) {
        let row = meter.row(table, &page, slot)?;
        let first = row.first().copied().unwrap_or(0);
        *sum = sum.saturating_add(first.unsigned_abs());
    }
    Ok(())
}

// Reads the rows of a table in the same way.
fn read_table(meter: &mut Metered<'_>, table: u32, sum: &mut u64) -> Result<(), Exhausted>
    requires { table < length meter.old.database.tables }
{
    for no in 0..meter.pages(table) {
        read_page(meter, table, no, sum)?;
    }
    Ok(())
}

// Reads a table for so much work at most: the sum of the first words of the rows that are read, and the work.
pub(crate) fn read(alloc: Global, db: &Database, table: &str, asked: &[u32]) -> Option<String> {
    let table = table_of(db, table.as_bytes())?;
    let mut meter = Metered::new(db);
    meter.grant(u128::from(*asked.first()?));
    let mut sum = 0;
    let _ = read_table(&mut meter, table, &mut sum);
    format!(in alloc; "{sum} {}", meter.spent()).ok()
}
