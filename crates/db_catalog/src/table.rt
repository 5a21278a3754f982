// One table: its name, its columns, its rows as words, and its indexes. What the words mean is said where the texts are.
ghost use Rattle.std.specs.Prelude.{◌≡◌, ◌^◌, ◌<◌, ◌≤◌, ◌++◌, [], length, map, slice_index_or, Contains, IfOk, OnOk, OnErr};
ghost use Rattle.sql_values.specs.Limits.{max_columns};
ghost use Rattle.heap_pages.specs.Rows.{cut_rows};
ghost use Rattle.db_catalog.specs.Indexes.{kept_index};
ghost use Rattle.db_catalog.specs.Kept.{AreIndexes, IsWide, HasWords, TakesWords, with_column};

use crate::columns::copy_of;
use crate::entries::{FlatRows, entries_among, entries_in};
use crate::indexes::{Indexes, place_of};
use btree_index::Index;
use heap_pages::{Heap, HeapFault};
use sql_values::{ColumnDef, Text};
use std::alloc::{AllocError, Global};

// A table.
#[derive(Drop)]
pub(crate) struct Table {
    pub(crate) name: Text,
    pub(crate) columns: Vec<ColumnDef>,
    pub(crate) heap: Heap,
    pub(crate) indexes: Indexes,
}

impl Table {
    // A table without rows and indexes.
    pub(crate) fn new(
        alloc: Global,
        name: &[u8],
        columns: &[ColumnDef],
    ) -> Result<Table, AllocError>
        requires some { 1 ≤ length columns.now }
        requires few { length columns.now ≤ max_columns }
        ensures name { IfOk result (λ table. table.name ≡ name.now) }
        ensures columns { IfOk result (λ table. table.columns.items ≡ columns.now) }
        ensures width { IfOk result (λ table. table.heap.columns ≡ length columns.now) }
        ensures rows { IfOk result (λ table. table.heap.rows ≡ []) }
        ensures indexes { IfOk result (λ table.
            table.indexes ≡ record { columns = []; entries = [] }) }
    {
        let name = Text::new(alloc, name)?;
        let heap = Heap::new(alloc, columns.len());
        let columns = copy_of(alloc, columns)?;
        Ok(Table {
            name,
            columns,
            heap,
            indexes: Indexes::new(alloc),
        })
    }

    // Makes an index of a column, behind those that the table has. A refusal changes nothing.
    pub(crate) fn index_column(&mut self, alloc: Global, column: u8) -> Result<(), AllocError>
        requires wide { IsWide self.old }
        requires there { column < self.old.heap.columns }
        ensures indexed { OnOk result (self.new ≡ with_column self.old column) }
        ensures unchanged { OnErr result (self.new ≡ self.old) }
    {
        let entries = entries_in(alloc, &self.heap, column as usize)?;
        let index = Index::from_entries(alloc, entries)?;
        self.indexes.add(column, index)
    }

    // Puts the words of rows behind those of the table, and their entries into its indexes. New indexes are made beside the
    // old ones, and all memory is taken, before anything changes: a refusal changes nothing.
    pub(crate) fn append_rows(
        &mut self,
        alloc: Global,
        words: Vec<i64>,
        rows: u64,
    ) -> Result<(), HeapFault>
        requires { HasWords (length words.items) rows self.old }
        ensures appended { OnOk result (TakesWords rows words.items self.old self.new) }
        ensures unchanged { OnErr result (self.new ≡ self.old) }
    {
        let indexes = self.indexes_with(alloc, &words, rows)?;
        self.heap.append_rows(words, rows)?;
        self.indexes.replace(indexes);
        Ok(())
    }

    // The index of each indexed column, as it is once there are the rows of these words too.
    fn indexes_with(
        &self,
        alloc: Global,
        words: &[i64],
        rows: u64,
    ) -> Result<Vec<Index>, AllocError>
        requires { HasWords (length words.now) rows self.now }
        ensures { IfOk result (λ indexes. indexes.items
            ≡ map (kept_index (self.now.heap.rows ++ cut_rows self.now.heap.columns rows words.now))
            self.now.indexes.columns) }
    {
        let count = self.indexes.columns().len();
        let mut indexes = Vec::with_capacity(alloc, count)?;
        for place in 0..count {
            indexes.push(self.index_with(alloc, place, words, rows)?)?;
        }
        Ok(indexes)
    }

    // That of the column at this place among the indexed ones. The new entries are put in order first, so that what is
    // left to do is to merge lists.
    fn index_with(
        &self,
        alloc: Global,
        place: usize,
        words: &[i64],
        rows: u64,
    ) -> Result<Index, AllocError>
        requires filled { HasWords (length words.now) rows self.now }
        requires there { place < length self.now.indexes.columns }
        ensures { IfOk result (λ index. index
            ≡ kept_index (self.now.heap.rows ++ cut_rows self.now.heap.columns rows words.now)
            (slice_index_or self.now.indexes.columns place 0)) }
    {
        let column = self.indexes.columns()[place] as usize;
        let width = self.columns.len();
        let first = self.heap.rows();
        let flat = FlatRows {
            words,
            rows: rows as usize,
            width,
            first,
        };
        let mut more = entries_among(alloc, &flat, column)?;
        more.sort_unstable();
        self.indexes.entries()[place].merged(alloc, &more)
    }

    // The index of a column that is indexed.
    pub(crate) fn index_of(&self, column: u8) -> &Index
        requires kept { AreIndexes self.now }
        requires indexed { Contains self.now.indexes.columns column }
        ensures { result.now ≡ kept_index self.now.heap.rows column }
    {
        &self.indexes.entries()[place_of(self.indexes.columns(), column)]
    }
}
