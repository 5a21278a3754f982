// A file into a table: its header, then entry after entry into a batch, which the table gets when all were good. Reading
// ends at the first fault.
ghost use Rattle.std.specs.Prelude.{◌≡◌, ◌+◌, ◌<◌, ◌≤◌, ◌^◌, [], ◌∷◌, ◌++◌, length, map, IfOk, OnOk, OnErr};
ghost use Rattle.std.specs.Option.{option_and_then};
ghost use Rattle.csv.specs.Records.{fields_of};
ghost use Rattle.db_catalog.specs.Database.{table_at};
ghost use Rattle.db_catalog.specs.Refused.{append_fault};
ghost use Rattle.csv_load.specs.Entries.{records_left, GivesEntries};
ghost use Rattle.csv_load.specs.Load.{entry_fault, entry_row, entries_fault, file_fault, file_rows, entries_of, limit_of, Appends, Loads, IsBatchOf};
ghost use Rattle.csv_load.specs.Fault.{GivesFault};

use crate::entries::{next_entry, reader_of};
use crate::fault::LoadFault;
use crate::field::put_field;
use crate::header::check_header;
use crate::place::Place;
use csv::{ByteRecord, Reader};
use db_catalog::{Batch, Database, DbFault};
use sql_values::ColumnDef;
use std::alloc::Global;
use std::hash::RandomState;
use std::io::Read;

// Puts the row of entry n into a batch.
#[tactic(auto, using(crate::proofs::Rows::of_rows))]
fn put_entry(
    batch: &mut Batch,
    columns: &[ColumnDef],
    entry: &ByteRecord,
    n: u64,
) -> Result<(), LoadFault>
    requires batch { IsBatchOf columns.now batch.old.rows batch.old }
    requires few { length columns.now < 2 ^ 31 }
    ensures row { OnOk result (IsBatchOf columns.now
        (batch.old.rows ++ entry_row columns.now (fields_of entry.now) ∷ []) batch.new) }
    ensures fault { GivesFault (entry_fault columns.now n (fields_of entry.now)) result }
{
    if entry.len() != columns.len() {
        return Err(LoadFault::FieldCount {
            entry: n,
            found: entry.len() as u64,
            wanted: columns.len() as u64,
        });
    }
    for (i, column) in columns.iter().enumerate() {
        let Some(field) = entry.get(i) else {
            unreachable!()
        };
        let place = Place {
            entry: n,
            field: i as u32 + 1,
        };
        put_field(batch, column, field, place)?;
    }
    batch.end_row()?;
    Ok(())
}

// Puts the rows of all entries that are left into a batch.
#[tactic(auto, using(crate::proofs::Rows::of_files))]
fn put_entries<R: Read>(
    batch: &mut Batch,
    columns: &[ColumnDef],
    reader: &mut Reader<R>,
    entry: &mut ByteRecord,
) -> Result<(), LoadFault>
    requires gives { GivesEntries R.remaining reader.old }
    requires short { length (records_left R.remaining reader.old) < 2 ^ 63 }
    requires empty { IsBatchOf columns.now [] batch.old }
    requires few { length columns.now < 2 ^ 31 }
    ensures rows { OnOk result (IsBatchOf columns.now
        (map (entry_row columns.now) (records_left R.remaining reader.old)) batch.new) }
    ensures fault { GivesFault (entries_fault columns.now
        (records_left R.remaining reader.old)) result }
{
    for n in 1..u64::MAX {
        if !next_entry(reader, entry)? {
            return Ok(());
        }
        put_entry(batch, columns, entry, n)?;
    }
    unreachable!()
}

// The rows of a file whose entries the reader gives, each into this one.
fn read_batch<R: Read>(
    alloc: Global,
    key: RandomState,
    columns: &[ColumnDef],
    reader: &mut Reader<R>,
    entry: &mut ByteRecord,
) -> Result<Batch, LoadFault>
    requires gives { GivesEntries R.remaining reader.old }
    requires short { length (records_left R.remaining reader.old) ≤ 2 ^ 63 }
    requires some { 1 ≤ length columns.now }
    requires few { length columns.now < 2 ^ 31 }
    ensures rows { IfOk result (IsBatchOf columns.now
        (file_rows columns.now (records_left R.remaining reader.old))) }
    ensures fault { GivesFault (file_fault columns.now
        (records_left R.remaining reader.old)) result }
{
    if !next_entry(reader, entry)? {
        return Err(LoadFault::Header { field: 1 });
    }
    check_header(entry, columns)?;
    let mut batch = Batch::new(alloc, key, columns)?;
    put_entries(&mut batch, columns, reader, entry)?;
    Ok(batch)
}

// The rows of a file.
fn batch_of(
    alloc: Global,
    key: RandomState,
    columns: &[ColumnDef],
    bytes: &[u8],
) -> Result<Batch, LoadFault>
    requires some { 1 ≤ length columns.now }
    requires few { length columns.now < 2 ^ 31 }
    ensures rows { IfOk result
        (IsBatchOf columns.now (file_rows columns.now (entries_of bytes.now))) }
    ensures fault { GivesFault (file_fault columns.now (entries_of bytes.now)) result }
{
    let mut reader = reader_of(alloc, bytes);
    let mut entry = ByteRecord::new(alloc);
    read_batch(alloc, key, columns, &mut reader, &mut entry)
}

// Appends the rows of a batch to a table, and returns how many these are.
fn append(db: &mut Database, table: u32, batch: Batch) -> Result<u64, LoadFault>
    requires there { table < length db.old.tables }
    requires columns { batch.columns ≡ (table_at db.old table).columns }
    requires whole { batch.row ≡ [] }
    ensures loaded { IfOk result (λ count. Appends table db.old db.new count batch.rows) }
    ensures fault { GivesFault (option_and_then limit_of (append_fault db.old table batch.rows)) result }
    ensures unchanged { OnErr result (db.new ≡ db.old) }
{
    let rows = batch.rows();
    match db.append_batch(table, batch) {
        Ok(()) => Ok(rows),
        Err(DbFault::Limit { name, value }) => Err(LoadFault::Limit { name, value }),
        Err(DbFault::NoMemory) => Err(LoadFault::NoMemory),
        Err(DbFault::Duplicate { .. }) => unreachable!(),
    }
}

/// Appends the rows of a CSV file (RFC 4180) to a table, and returns how many these are. The first entry is the header: the
/// columns' names in their order, in any case (of ASCII). A byte order mark before it is dropped, and blank lines are no
/// entries. An empty field is NULL, quoted or not.
///
/// The first entry and field that are faulty are named. An entry's count of fields is looked at before its fields, and a
/// field may be: not UTF-8, no INTEGER, out of range, NULL where the column refuses it, too long. Limits of the database come
/// when all entries are good.
#[tactic(auto, unfolding(crate::specs::Load::load_due))]
pub fn load(alloc: Global, db: &mut Database, table: u32, bytes: &[u8]) -> Result<u64, LoadFault>
    requires { table < length db.old.tables }
    ensures { Loads table bytes.now db.old db.new result }
{
    let batch = batch_of(alloc, db.key(), db.columns(table), bytes)?;
    append(db, table, batch)
}

/// As `load`, of a file that is given up: its bytes are let go before the table takes memory for its rows.
#[tactic(auto, unfolding(crate::specs::Load::load_due))]
pub fn load_file(
    alloc: Global,
    db: &mut Database,
    table: u32,
    bytes: Vec<u8>,
) -> Result<u64, LoadFault>
    requires { table < length db.old.tables }
    ensures { Loads table bytes.items db.old db.new result }
{
    let batch = batch_of(alloc, db.key(), db.columns(table), &bytes)?;
    drop(bytes);
    append(db, table, batch)
}
