// The database: tables under their names, the one dictionary of their texts, and the names of all indexes. It relies on
// the heap for rows and on the batch for their words, and never drops or changes a row.
ghost use Rattle.std.specs.Prelude.{◌≡◌, ◌+◌, ◌*◌, ◌<◌, ◌≤◌, ◌^◌, [], ◌∷◌, ◌++◌, length, map, All};
ghost use Rattle.std.specs.Prelude.{OnOk, OnErr, IfOk, nat_eq, vec_capacity, IsSomeAnd, slice_get};
ghost use Rattle.std.specs.List.{IsDistinct};
ghost use Rattle.std.specs.Str.{bytes_eq};
ghost use Rattle.sql_values.specs.Limits.{max_tables, max_columns, max_rows};
ghost use Rattle.db_catalog.specs.Database.{with_table, with_rows, with_index, new_table, rows_in};
ghost use Rattle.db_catalog.specs.Tables.{AreColumnsOfTable};
ghost use Rattle.db_catalog.specs.Database.{table_at, table_number, FillRows};
ghost use Rattle.db_catalog.specs.Meter.{table_pages, page_rows};
ghost use Rattle.db_catalog.specs.Refused.{Refuses, creation_fault, append_fault, index_fault};
ghost use Rattle.db_catalog.specs.Refused.{room_fault, texts_fault};
ghost use Rattle.db_catalog.specs.Refused.{RefusesExactly, RefusesWhereDue, TellsLimit};
ghost use Rattle.db_catalog.specs.Kept.{MeanRows, SameRows, AppendsWords, HasWords, kept_words};
ghost use Rattle.db_catalog.specs.Kept.{HasColumn, IndexesColumn, IsHeapOf};
ghost use Rattle.heap_pages.specs.Rows.{cut_rows, row_number};
ghost use Rattle.heap_pages.specs.Changes.{Becomes};
ghost use Rattle.sql_values.specs.Dictionary.{with_texts};

use crate::batch::Batch;
use crate::check::{check_columns, check_limit, check_unindexed, duplicate};
use crate::fault::DbFault;
use crate::recode::recode;
use crate::room::push_within;
use crate::table::Table;
use heap_pages::{Heap, HeapFault};
use sql_values::{
    ColumnDef, LimitName, MAX_COLUMNS, MAX_ROWS, MAX_TABLES, MAX_TEXT_BYTES, MAX_TEXTS, MAX_WORDS,
    Texts, Value,
};
use std::alloc::{AllocError, Global};
use std::hash::RandomState;
use std::marker::Model;

/// Tables and their rows. A table has a number, from 0, by the order in which tables were made.
#[derive(Drop)]
pub struct Database {
    alloc: Global,
    key: RandomState,
    names: Texts,
    pub(crate) tables: Vec<Table>,
    texts: Texts,
    index_names: Texts,
}

impl Model for Database {
    ghost use Rattle.std.specs.Prelude.{map};
    ghost use Rattle.db_catalog.specs.Database.{DatabaseState};
    ghost use Rattle.db_catalog.specs.Kept.{stored_table, AreKept};

    ghost Value = { DatabaseState };

    ghost view = { λ d. record {
      tables = map (stored_table d.texts) d.tables.items;
      texts = d.texts;
      index_names = d.index_names;
    } };

    ghost invariant = { λ d. AreKept d.names d.texts d.tables.items };
}

// How many words stand in these tables.
fn words_in(tables: &[Table]) -> u128
    requires { All (λ table. length table.columns.items ≤ max_columns) tables.now }
    ensures words { result ≡ kept_words tables.now }
    ensures bound { result ≤ length tables.now * (max_rows * max_columns) }
{
    let mut words = 0u128;
    for table in tables {
        words += u128::from(table.heap.rows()) * table.columns.len() as u128;
    }
    words
}

// Takes the texts of a batch into a dictionary, and gives its words the codes that these texts have there. A refusal changes
// no text.
fn settle(
    texts: &mut Texts,
    more: Texts,
    words: &mut [i64],
    columns: &[ColumnDef],
    rows: u64,
) -> Result<(), DbFault>
    requires filled { length words.old ≡ rows * length columns.now }
    requires mean { MeanRows more columns.now (cut_rows (length columns.now) rows words.old) }
    ensures texts { OnOk result (texts.new ≡ with_texts texts.old more) }
    ensures words { OnOk result (SameRows columns.now more texts.new
        (cut_rows (length columns.now) rows words.old)
        (cut_rows (length columns.now) rows words.new)) }
    ensures unchanged { OnErr result (texts.new ≡ texts.old) }
    ensures refuses { Refuses (texts_fault (with_texts texts.old more)) result }
{
    let before = texts.len();
    let added = more.len();
    if before == 0 {
        check_texts(&more)?;
        *texts = more;
        return Ok(());
    }
    let codes = texts.merge(more)?;
    if let Err(fault) = check_texts(texts) {
        texts.cut(before);
        return Err(fault);
    }
    if added > 0 {
        recode(words, columns, &codes, rows as usize);
    }
    Ok(())
}

// Puts the words of rows behind those of a table, and their entries into its indexes. Out of memory changes nothing.
fn append_words(
    tables: &mut [Table],
    alloc: Global,
    number: usize,
    words: Vec<i64>,
    rows: u64,
) -> Result<(), HeapFault>
    requires there { number < length tables.old }
    requires filled { IsSomeAnd (slice_get tables.old number) (HasWords (length words.items) rows) }
    ensures appended { OnOk result (AppendsWords number rows words.items tables.old tables.new) }
    ensures unchanged { OnErr result (tables.new ≡ tables.old) }
{
    tables[number].append_rows(alloc, words, rows)
}

// Makes an index of a column of a table. Out of memory changes nothing.
fn index_column(
    tables: &mut [Table],
    alloc: Global,
    number: usize,
    column: u8,
) -> Result<(), AllocError>
    requires there { number < length tables.old }
    requires column { IsSomeAnd (slice_get tables.old number) (HasColumn column) }
    ensures indexed { OnOk result (IndexesColumn number column tables.old tables.new) }
    ensures unchanged { OnErr result (tables.new ≡ tables.old) }
{
    tables[number].index_column(alloc, column)
}

// Refuses a dictionary past a limit.
fn check_texts(texts: &Texts) -> Result<(), DbFault>
    ensures { RefusesExactly (texts_fault texts.now) result }
{
    check_limit(LimitName::Texts, MAX_TEXTS, texts.len() as u128)?;
    check_limit(
        LimitName::TextBytes,
        MAX_TEXT_BYTES,
        u128::from(texts.bytes()),
    )
}

impl Database {
    /// A database without tables. Its texts and names are hashed by `key`.
    pub fn new(alloc: Global, key: RandomState) -> Database
        ensures { result ≡ record { tables = []; texts = []; index_names = [] } }
    {
        Database {
            alloc,
            key,
            names: Texts::new(alloc, key),
            tables: Vec::new(alloc),
            texts: Texts::new(alloc, key),
            index_names: Texts::new(alloc, key),
        }
    }

    /// By what texts and names are hashed.
    pub fn key(&self) -> RandomState {
        self.key
    }

    /// Makes a table without rows, and returns its number. The checks, in order: how many tables there are, the name, how
    /// many columns there are; then for each column from left to right its name, among those before it, and the length of
    /// a VARCHAR.
    pub fn create_table(&mut self, name: &[u8], columns: &[ColumnDef]) -> Result<u32, DbFault>
        requires some { 1 ≤ length columns.now }
        ensures number { IfOk result (λ number. number ≡ length self.old.tables) }
        ensures created { let table = new_table name.now columns.now in
            Becomes (with_table self.old table) self.old self.new result }
        ensures refuses { Refuses (creation_fault self.old name.now columns.now) result }
        ensures limit { TellsLimit (creation_fault self.old name.now columns.now) result }
    {
        self.check_creation(name, columns)?;
        let number = self.tables.len() as u32;
        self.tables.reserve(1)?;
        let table = Table::new(self.alloc, name, columns)?;
        self.names.add(name)?;
        push_within(&mut self.tables, table);
        Ok(number)
    }

    // The checks of `create_table`.
    fn check_creation(&self, name: &[u8], columns: &[ColumnDef]) -> Result<(), DbFault>
        ensures { RefusesWhereDue (creation_fault self.now name.now columns.now) result }
    {
        let tables = self.names.len() as u128 + 1;
        check_limit(LimitName::Tables, MAX_TABLES as u64, tables)?;
        if self.names.code_of(name).is_some() {
            return Err(duplicate(self.alloc, name));
        }
        check_limit(
            LimitName::Columns,
            MAX_COLUMNS as u64,
            columns.len() as u128,
        )?;
        check_columns(self.alloc, columns)
    }

    /// Makes an index, of a name, of a column of a table. The checks, in order: the name, among those of all indexes, then
    /// the column, which is indexed already; that refusal has the column's name.
    pub fn create_index(&mut self, name: &[u8], table: u32, column: u8) -> Result<(), DbFault>
        requires { column < length (table_at self.old table).columns }
        ensures created { let after = with_index self.old name.now table column in
            Becomes after self.old self.new result }
        ensures refuses { Refuses (index_fault self.old name.now table column) result }
    {
        self.check_index(name, table, column)?;
        let before = self.index_names.len();
        self.index_names.add(name)?;
        prove!(before <= self.index_names.len());
        if index_column(&mut self.tables, self.alloc, table as usize, column).is_err() {
            self.index_names.cut(before);
            return Err(DbFault::NoMemory);
        }
        Ok(())
    }

    // The checks of `create_index`.
    #[tactic(auto, using(crate::proofs::Tables::of_reads))]
    fn check_index(&self, name: &[u8], table: u32, column: u8) -> Result<(), DbFault>
        requires { column < length (table_at self.now table).columns }
        ensures { Refuses (index_fault self.now name.now table column) result }
    {
        if self.index_names.code_of(name).is_some() {
            return Err(duplicate(self.alloc, name));
        }
        check_unindexed(self.alloc, self.columns(table), self.indexes(table), column)
    }

    /// Appends rows, whose values follow one another, to a table. The checks, in order, each of the number that there would
    /// be then: the table's rows, the words of all tables, the different texts, their bytes.
    pub fn append_rows(&mut self, table: u32, rows: &[Value]) -> Result<(), DbFault>
        requires there { table < length self.old.tables }
        requires fill { FillRows (table_at self.old table).columns rows.now }
        ensures appended { let more = rows_in (table_at self.old table).columns rows.now in
            Becomes (with_rows self.old table more) self.old self.new result }
        ensures refuses { let more = rows_in (table_at self.old table).columns rows.now in
            Refuses (append_fault self.old table more) result }
    {
        let batch = Batch::filled(self.alloc, self.key, self.columns(table), rows)?;
        self.append_batch(table, batch)
    }

    /// Appends the rows of a batch to a table. The checks are those of `append_rows`. Each word is copied once, to the
    /// table's pages.
    pub fn append_batch(&mut self, table: u32, batch: Batch) -> Result<(), DbFault>
        requires there { table < length self.old.tables }
        requires columns { batch.columns ≡ (table_at self.old table).columns }
        requires whole { batch.row ≡ [] }
        ensures appended { Becomes (with_rows self.old table batch.rows) self.old self.new result }
        ensures refuses { Refuses (append_fault self.old table batch.rows) result }
        ensures limit { TellsLimit (room_fault self.old table (length batch.rows)) result }
    {
        self.check_room(table, batch.rows)?;
        let Batch {
            columns,
            texts,
            mut words,
            rows,
            row: _,
        } = batch;
        let before = self.texts.len();
        settle(&mut self.texts, texts, &mut words, &columns, rows)?;
        prove!(before <= self.texts.len());
        if append_words(&mut self.tables, self.alloc, table as usize, words, rows).is_err() {
            self.texts.cut(before);
            return Err(DbFault::NoMemory);
        }
        Ok(())
    }

    // The checks of an append that need no text.
    fn check_room(&self, table: u32, rows: u64) -> Result<(), DbFault>
        requires { table < length self.now.tables }
        ensures { RefusesExactly (room_fault self.now table rows) result }
    {
        let present = self.tables[table as usize].heap.rows();
        check_limit(
            LimitName::Rows,
            MAX_ROWS,
            u128::from(present) + u128::from(rows),
        )?;
        let width = self.tables[table as usize].columns.len();
        let more = u128::from(rows) * width as u128;
        check_limit(LimitName::Words, MAX_WORDS, words_in(&self.tables) + more)
    }

    /// How many tables there are.
    pub fn tables(&self) -> u32
        ensures count { result ≡ length self.now.tables }
        ensures limit { result ≤ max_tables }
        ensures distinct { IsDistinct bytes_eq (map (λ table. table.name) self.now.tables) }
    {
        self.names.len() as u32
    }

    /// The number of the table of this name.
    pub fn table_of(&self, name: &[u8]) -> Option<u32>
        ensures { result ≡ table_number self.now name.now }
    {
        let number = self.names.code_of(name)?;
        Some(number as u32)
    }

    /// A table's columns.
    pub fn columns(&self, table: u32) -> &[ColumnDef]
        requires { table < length self.now.tables }
        ensures columns { result.now ≡ (table_at self.now table).columns }
        ensures few { AreColumnsOfTable result.now }
    {
        self.tables[table as usize].columns.as_slice()
    }

    /// The different texts that stand in the tables.
    pub fn texts(&self) -> &Texts
        ensures texts { result.now ≡ self.now.texts }
        ensures distinct { IsDistinct bytes_eq self.now.texts }
    {
        &self.texts
    }

    /// How many rows a table has.
    pub fn rows(&self, table: u32) -> u64
        requires { table < length self.now.tables }
        ensures count { result ≡ length (table_at self.now table).rows }
        ensures few { result ≤ max_rows }
    {
        self.heap(table).rows()
    }

    /// The numbers of a table's columns that are indexed, from 0, each once, in the order in which their indexes were made.
    pub fn indexes(&self, table: u32) -> &[u8]
        requires { table < length self.now.tables }
        ensures indexed { result.now ≡ (table_at self.now table).indexed }
        ensures there { All (λ column.
            column < length (table_at self.now table).columns) result.now }
        ensures different { IsDistinct nat_eq result.now }
    {
        self.tables[table as usize].indexes.columns()
    }

    /// How many rows stand on page `no` of a table, from 0.
    pub fn rows_on_page(&self, table: u32, no: u64) -> usize
        requires { no < table_pages self.now table }
        ensures { result ≡ page_rows self.now table no }
    {
        self.heap(table).rows_on_page(no)
    }

    /// The number of the first row on page `no` of a table, both from 0.
    pub fn first_row(&self, table: u32, no: u64) -> u64
        requires { no < table_pages self.now table }
        ensures { result ≡ row_number (length (table_at self.now table).columns) no 0 }
    {
        self.heap(table).first_row(no)
    }

    /// How many pages a table's rows take.
    pub fn pages(&self, table: u32) -> u64
        requires { table < length self.now.tables }
        ensures { result ≡ table_pages self.now table }
    {
        self.heap(table).pages()
    }

    // The rows of a table.
    pub(crate) fn heap(&self, table: u32) -> &Heap
        requires { table < length self.now.tables }
        ensures { IsHeapOf self.now table result.now }
    {
        &self.tables[table as usize].heap
    }
}
