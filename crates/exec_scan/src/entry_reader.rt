// Rows by the entries of an index: it descends to those of a range of words, and then fetches the row of each. It relies on
// the meter for entries and rows, and fetches the row of an entry once.
ghost use Rattle.std.specs.Prelude.{◌≡◌, ◌↔◌, ◌*◌, IsSome, IsTrue, None};
ghost use Rattle.work_ledger.specs.Charges.{node_charge};
ghost use Rattle.btree_index.specs.Entries.{HaveWords};
ghost use Rattle.db_catalog.specs.Database.{StandAsWords};
ghost use Rattle.db_catalog.specs.Indexes.{index_at, index_height};
ghost use Rattle.db_catalog.specs.Meter.{Reads};
ghost use Rattle.exec_scan.specs.EntryReading.{Descends, IsReaderOf, ReadsNext};

use btree_index::Cursor;
use db_catalog::Metered;
use std::marker::Model;
use work_ledger::Exhausted;

/// Reads the rows of a table by the entries of an index on one of its columns. It keeps numbers alone: each call is given a
/// meter of the same database.
#[derive(Drop)]
pub struct EntryReader {
    table: u32,
    column: u8,
    // Where it is among the entries, once it has descended to them.
    cursor: Option<Cursor>,
}

impl Model for EntryReader {
    ghost use Rattle.exec_scan.specs.EntryReading.{EntryReaderState};

    ghost Value = { EntryReaderState };

    ghost view = { λ reader. record {
      table = reader.table;
      column = reader.column;
      cursor = reader.cursor;
    } };
}

impl EntryReader {
    /// A reader by the index on a column, to which it hasn't descended yet.
    pub fn new(table: u32, column: u8) -> EntryReader
        ensures { result ≡ record { table = table; column = column; cursor = None } }
    {
        EntryReader {
            table,
            column,
            cursor: None,
        }
    }

    /// The column by whose index it reads.
    pub fn column(&self) -> u8
        ensures { result ≡ self.now.column }
    {
        self.column
    }

    /// Whether it has descended.
    pub fn has_descended(&self) -> bool
        ensures { IsTrue result ↔ IsSome self.now.cursor }
    {
        self.cursor.is_some()
    }

    /// Descends to the entries with words from `from` to `to`, both included, which pays for each level. There are none where
    /// `from` is greater than `to`, and none for NULL. What the entries and the rows are is told.
    pub fn descend(&mut self, from: i64, to: i64, meter: &mut Metered<'_>) -> Result<(), Exhausted>
        requires { IsReaderOf meter.old.database self.old }
        ensures descends { Descends meter.old.database from to self.old self.new result }
        ensures words { HaveWords (index_at meter.old.database self.old.table self.old.column) }
        ensures rows { StandAsWords meter.old.database self.old.table }
        ensures reads { Reads
            (node_charge * index_height meter.old.database self.old.table self.old.column)
            meter.old meter.new result }
    {
        let cursor = meter.seek(self.table, self.column, from, to)?;
        self.cursor = Some(cursor);
        Ok(())
    }

    /// Reads the next entry and its row, for which it pays. None where all entries are read, or it hasn't descended yet.
    pub fn read<'d>(&mut self, meter: &mut Metered<'d>) -> Result<Option<&'d [i64]>, Exhausted>
        requires { IsReaderOf meter.old.database self.old }
        ensures { ReadsNext self.old self.new meter.old meter.new result (λ words. words.now) }
    {
        let Some(mut cursor) = self.cursor else {
            return Ok(None);
        };
        let Some(row) = meter.next(self.table, self.column, &mut cursor)? else {
            return Ok(None);
        };
        self.cursor = Some(cursor);
        Ok(Some(meter.fetch(self.table, row)?))
    }
}
