// Reads that aren't paid, by which tables are counted. They rely on the heap and the indexes, and change nothing.
ghost use Rattle.std.specs.Prelude.{◌≡◌, ℕ, ◌*◌, ◌<◌, ◌++◌, All, Contains, drop, filter, length, take};
ghost use Rattle.std.specs.List.Sorted.{IsPermutation};
ghost use Rattle.btree_index.specs.Entries.{HaveWords, IndexEntry, is_within};
ghost use Rattle.btree_index.specs.Height.{height_of};
ghost use Rattle.db_catalog.specs.Database.{IsRowAt, StandAsWords, table_at};
ghost use Rattle.db_catalog.specs.Cursors.{IsCursorOf};
ghost use Rattle.db_catalog.specs.Indexes.{index_at, index_height};
ghost use Rattle.db_catalog.specs.Marks.{AreMarksOf, HasSpan, IsCountOf};
ghost use Rattle.db_catalog.specs.Meter.{IsRowIn, page_rows, table_pages};

use crate::column_range::ColumnRange;
use crate::database::Database;
use btree_index::{Cursor, Found, Index};
use heap_pages::RowSpan;

#[tactic(auto, using(crate::proofs::Tables::of_reads))]
impl Database {
    /// The words of row `i` of a table, from 0. This read isn't paid.
    pub fn plain_row(&self, table: u32, i: u64) -> &[i64]
        requires { i < length (table_at self.now table).rows }
        ensures { IsRowAt self.now table i result.now }
    {
        self.heap(table).get(i)
    }

    /// The words of the rows on page `no` of a table, from 0, one row after another. This read isn't paid.
    pub fn plain_page(&self, table: u32, no: u64) -> &[i64]
        requires { no < table_pages self.now table }
        ensures filled { length result.now
            ≡ page_rows self.now table no * length (table_at self.now table).columns }
        ensures rows { (slot : ℕ) → slot < page_rows self.now table no
            → let width = length (table_at self.now table).columns in
            IsRowIn self.now table no slot (take width (drop (slot * width) result.now)) }
    {
        self.heap(table).plain_page(no)
    }

    /// Which rows of a span of a table, of at most 64, have a word of a range: bit k stands for the row k places behind the
    /// first. This read isn't paid.
    pub fn plain_marks(&self, table: u32, found: ColumnRange, span: RowSpan) -> u64
        requires { HasSpan self.now table found span }
        ensures { AreMarksOf self.now table found span result }
    {
        let heap = self.heap(table);
        heap.marks(usize::from(found.column), found.from, found.to, span)
    }

    /// How many rows of a table have a word of a range. This read isn't paid.
    pub fn count_in_range(&self, table: u32, found: ColumnRange) -> u64
        requires { found.column < length (table_at self.now table).columns }
        ensures { IsCountOf self.now table found result }
    {
        let heap = self.heap(table);
        heap.count_in_range(usize::from(found.column), found.from, found.to)
    }

    // The index of a column.
    pub(crate) fn index(&self, table: u32, column: u8) -> &Index
        requires { Contains (table_at self.now table).indexed column }
        ensures entries { result.now ≡ index_at self.now table column }
        ensures height { height_of (length result.now) ≡ index_height self.now table column }
        ensures rows { StandAsWords self.now table }
    {
        self.tables[table as usize].index_of(column)
    }

    /// The entries of a column's index with words from `from` to `to`, both included: two lists, each in order by word, then
    /// row. There are none where `from` is greater than `to`, and none for NULL. They aren't paid, and are found by two
    /// descents in each of the index's runs.
    pub fn entries_within(&self, table: u32, column: u8, from: i64, to: i64) -> Found<'_>
        requires { Contains (table_at self.now table).indexed column }
        ensures entries { IsPermutation (filter (is_within from to) (index_at self.now table column))
            (result.older.now ++ result.newer.now) }
        ensures words { HaveWords (index_at self.now table column) }
        ensures rows { StandAsWords self.now table }
    {
        self.index(table, column).within(from, to)
    }

    // Entries that stand near a cursor, at most so many of them. They aren't paid.
    pub(crate) fn entries_near(
        &self,
        table: u32,
        column: u8,
        cursor: &Cursor,
        most: usize,
    ) -> &[(i64, u64)]
        requires { IsCursorOf self.now table column cursor.now }
        ensures { All (λ (e : IndexEntry). e.1 < length (table_at self.now table).rows) result.now }
    {
        self.index(table, column).near(cursor, most)
    }

    /// How many levels a column's index has.
    pub fn height(&self, table: u32, column: u8) -> u32
        requires { Contains (table_at self.now table).indexed column }
        ensures { result ≡ index_height self.now table column }
    {
        self.index(table, column).height()
    }
}
