// The meter: the only way by which the layers above reach a row. It relies on the ledger for what is paid, and lends
// rows for as long as the database is lent.
ghost use Rattle.std.specs.Prelude.{◌≡◌, ℕ, ◌+◌, ◌*◌, ◌<◌, ◌≤◌, drop, length, take, Contains, IfOk};
ghost use Rattle.btree_index.specs.Cursors.{IsOnRange};
ghost use Rattle.btree_index.specs.Entries.{HaveWords, entries_left, next_charge};
ghost use Rattle.heap_pages.specs.Rows.{IsSlot};
ghost use Rattle.work_ledger.specs.Account.{IsInBounds, max_account};
ghost use Rattle.work_ledger.specs.Budget.{granted, new_account};
ghost use Rattle.work_ledger.specs.Charges.{page_charge, row_charge, fetch_charge, node_charge};
ghost use Rattle.sql_values.specs.Limits.{max_rows};
ghost use Rattle.db_catalog.specs.Database.{IsRowAt, StandAsWords, table_at};
ghost use Rattle.db_catalog.specs.Tables.{AreColumnsOfTable};
ghost use Rattle.db_catalog.specs.Indexes.{index_at, index_height};
ghost use Rattle.db_catalog.specs.Cursors.{GivesNext, IsCursorOf};
ghost use Rattle.db_catalog.specs.Meter.{Reads, table_pages, page_rows, IsRowIn};
ghost use Rattle.db_catalog.specs.Opened.{HasPage, marks_on};

use crate::database::Database;
use crate::near::{Near, is_at_first, near_entries};
use crate::opened_page::OpenedPage;
use crate::page_marks::PageMarks;
use btree_index::Cursor;
use heap_pages::PageView;
use sql_values::{ColumnDef, Texts};
use std::marker::Model;
use work_ledger::{Exhausted, Ledger};

/// A database that is read for pay. Counts and texts are free.
#[derive(Drop)]
pub struct Metered<'d> {
    database: &'d Database,
    ledger: Ledger,
    near: Near,
}

impl<'d> Model for Metered<'d> {
    ghost use Rattle.db_catalog.specs.Meter.{MeterState};

    ghost Value = { MeterState };

    ghost view = { λ m. record { database = m.database.now; account = m.ledger } };
}

#[tactic(auto, using(crate::proofs::Tables::of_reads))]
impl<'d> Metered<'d> {
    /// Nothing is spent, and nothing may be.
    pub fn new(database: &'d Database) -> Metered<'d>
        ensures { result ≡ record { database = database.now; account = new_account } }
    {
        Metered {
            database,
            ledger: Ledger::new(),
            near: Near::new(),
        }
    }

    /// The work paid so far.
    pub fn spent(&self) -> u128
        ensures spent { result ≡ self.now.account.spent }
        ensures bounds { IsInBounds self.now.account }
    {
        self.ledger.spent()
    }

    /// The work up to which payments fit.
    pub fn limit(&self) -> u128
        ensures { result ≡ self.now.account.limit }
    {
        self.ledger.limit()
    }

    /// Allows as much work more as the budget says, counted from what is spent. What was left before is gone.
    pub fn grant(&mut self, budget: u128)
        requires { self.old.account.spent + budget ≤ max_account }
        ensures { self.new ≡ record self.old { account = granted budget self.old.account } }
    {
        self.ledger.grant(budget);
    }

    /// Pays `n` units. A payment that doesn't fit spends what is left and is refused.
    pub fn pay(&mut self, n: u128) -> Result<(), Exhausted>
        requires { n ≤ max_account }
        ensures reads { Reads n self.old self.new result }
    {
        self.ledger.pay(n)
    }

    /// A table's columns.
    pub fn columns(&self, table: u32) -> &'d [ColumnDef]
        requires { table < length self.now.database.tables }
        ensures columns { result.now ≡ (table_at self.now.database table).columns }
        ensures few { AreColumnsOfTable result.now }
    {
        self.database.columns(table)
    }

    /// How many rows a table has.
    pub fn rows(&self, table: u32) -> u64
        requires { table < length self.now.database.tables }
        ensures count { result ≡ length (table_at self.now.database table).rows }
        ensures few { result ≤ max_rows }
    {
        self.database.rows(table)
    }

    /// How many pages they take.
    pub fn pages(&self, table: u32) -> u64
        requires { table < length self.now.database.tables }
        ensures { result ≡ table_pages self.now.database table }
    {
        self.database.pages(table)
    }

    /// How many levels the index of a column has.
    pub fn height(&self, table: u32, column: u8) -> u32
        requires { Contains (table_at self.now.database table).indexed column }
        ensures { result ≡ index_height self.now.database table column }
    {
        self.database.height(table, column)
    }

    /// How many rows stand on page `no` of a table, from 0.
    pub fn rows_on_page(&self, table: u32, no: u64) -> usize
        requires { no < table_pages self.now.database table }
        ensures { result ≡ page_rows self.now.database table no }
    {
        self.database.rows_on_page(table, no)
    }

    /// The different texts that stand in the tables.
    pub fn texts(&self) -> &'d Texts
        ensures { result.now ≡ self.now.database.texts }
    {
        self.database.texts()
    }

    /// Opens page `no` of a table, from 0, which pays for it.
    pub fn scan_page(&mut self, table: u32, no: u64) -> Result<PageView, Exhausted>
        requires { no < table_pages self.old.database table }
        ensures page { IfOk result (λ view. view.number ≡ no) }
        ensures reads { Reads page_charge self.old self.new result }
    {
        self.database.heap(table).page(no, &mut self.ledger)
    }

    /// Opens page `no` of a table, from 0, which pays at once for it and for each row on it, and gives the key to it.
    pub fn open_page(&mut self, table: u32, no: u64) -> Result<OpenedPage, Exhausted>
        requires { no < table_pages self.old.database table }
        ensures key { IfOk result (λ key. key ≡ record { table = table; page = no }) }
        ensures reads { Reads (page_charge + row_charge * page_rows self.old.database table no)
            self.old self.new result }
    {
        OpenedPage::pay(self.database, table, no, &mut self.ledger)
    }

    /// The words of the rows on the page to which this is the key, one row after another. They are paid.
    pub fn opened_page(&self, key: &OpenedPage) -> &'d [i64]
        requires { HasPage self.now.database key.now }
        ensures filled { length result.now ≡ page_rows self.now.database key.now.table key.now.page
            * length (table_at self.now.database key.now.table).columns }
        ensures rows { (slot : ℕ) → slot < page_rows self.now.database key.now.table key.now.page
            → let width = length (table_at self.now.database key.now.table).columns in
            IsRowIn self.now.database key.now.table key.now.page slot
            (take width (drop (slot * width) result.now)) }
    {
        self.database.plain_page(key.table(), key.page())
    }

    /// Whoever tells which rows of the page to which this is the key have words of a range. They are paid.
    pub fn opened_marks(&self, key: &OpenedPage) -> PageMarks<'d>
        requires { HasPage self.now.database key.now }
        ensures { result ≡ marks_on self.now.database key.now }
    {
        PageMarks::new(self.database, key)
    }

    /// The words of the row in this slot, from 0, of an opened page, which pays for the row.
    pub fn row(&mut self, table: u32, view: &PageView, slot: usize) -> Result<&'d [i64], Exhausted>
        requires { let read = table_at self.old.database table in
            IsSlot (length read.columns) (length read.rows) view.now.number slot }
        ensures row { IfOk result (λ words.
            IsRowIn self.old.database table view.now.number slot words.now) }
        ensures reads { Reads row_charge self.old self.new result }
    {
        let heap = self.database.heap(table);
        heap.row_of(view, slot, &mut self.ledger)
    }

    /// The words of row `i` of a table, from 0, which pays for the look-up.
    pub fn fetch(&mut self, table: u32, i: u64) -> Result<&'d [i64], Exhausted>
        requires { i < length (table_at self.old.database table).rows }
        ensures row { IfOk result (λ words. IsRowAt self.old.database table i words.now) }
        ensures reads { Reads fetch_charge self.old self.new result }
    {
        self.database.heap(table).fetch(i, &mut self.ledger)
    }

    /// Descends in the index of a column to the entries with words from `from` to `to`, both included, which pays for each
    /// level. There are none where `from` is greater than `to`, and none for NULL. What the entries and the rows are is told.
    pub fn seek(&mut self, table: u32, column: u8, from: i64, to: i64) -> Result<Cursor, Exhausted>
        requires { Contains (table_at self.old.database table).indexed column }
        ensures range { IfOk result (IsOnRange (index_at self.old.database table column) from to) }
        ensures words { HaveWords (index_at self.old.database table column) }
        ensures rows { StandAsWords self.old.database table }
        ensures reads { Reads (node_charge * index_height self.old.database table column)
            self.old self.new result }
    {
        let index = self.database.index(table, column);
        let cursor = index.seek(from, to, &mut self.ledger)?;
        self.bring_near(table, column, &cursor);
        Ok(cursor)
    }

    /// The row of the cursor's next entry, which pays for the entry and moves the cursor past it. Past the last entry there
    /// is none, and nothing is paid.
    pub fn next(
        &mut self,
        table: u32,
        column: u8,
        cursor: &mut Cursor,
    ) -> Result<Option<u64>, Exhausted>
        requires { IsCursorOf self.old.database table column cursor.old }
        ensures gives { GivesNext self.old.database table column cursor.old cursor.new result }
        ensures reads { Reads
            (next_charge (entries_left (index_at self.old.database table column) cursor.old))
            self.old self.new result }
    {
        if is_at_first(cursor) {
            self.bring_near(table, column, cursor);
        }
        self.database
            .index(table, column)
            .next(cursor, &mut self.ledger)
    }

    // Brings the rows of the cursor's next entries near. It pays for nothing, and tells nothing.
    fn bring_near(&self, table: u32, column: u8, cursor: &Cursor)
        requires { IsCursorOf self.now.database table column cursor.now }
    {
        let entries = self
            .database
            .entries_near(table, column, cursor, near_entries(cursor));
        self.near.look_at(self.database.heap(table), entries);
    }
}
