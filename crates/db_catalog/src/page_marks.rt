// The marks of the rows of one page, which are told to whoever has the key to it. It relies on the heap for the words.
ghost use Rattle.std.specs.Prelude.{◌≡◌, ◌+◌, ◌-◌, ◌≤◌};
ghost use Rattle.db_catalog.specs.Opened.{AreOnPage, HasPage, marks_on};

use crate::column_range::ColumnRange;
use crate::database::Database;
use crate::marks::RowMarks;
use crate::opened_page::OpenedPage;
use heap_pages::RowSpan;
use std::marker::Model;

/// Whoever tells which rows of one page have words of a range: of these rows alone, which are paid.
#[derive(Drop)]
pub struct PageMarks<'d> {
    database: &'d Database,
    table: u32,
    first: u64,
    rows: usize,
}

impl<'d> Model for PageMarks<'d> {
    ghost use Rattle.std.specs.Prelude.{◌+◌, ◌≤◌};
    ghost use Rattle.sql_values.specs.Limits.{max_rows};
    ghost use Rattle.db_catalog.specs.Opened.{PageMarksState};

    ghost Value = { PageMarksState };

    ghost view = { λ m. record {
      database = m.database.now;
      table = m.table;
      first = m.first;
      rows = m.rows;
    } };

    ghost invariant = { λ m. m.first + m.rows ≤ max_rows };
}

#[tactic(auto, using(crate::proofs::Tables::of_reads))]
impl<'d> PageMarks<'d> {
    /// Those of the page to which this is the key.
    pub(crate) fn new(database: &'d Database, key: &OpenedPage) -> PageMarks<'d>
        requires { HasPage database.now key.now }
        ensures { result ≡ marks_on database.now key.now }
    {
        let (table, page) = (key.table(), key.page());
        // A table has few enough rows for the sum.
        let _ = database.rows(table);
        PageMarks {
            database,
            table,
            first: database.first_row(table, page),
            rows: database.rows_on_page(table, page),
        }
    }

    /// The rows in the slots of the page, from 0, from one up to another, which isn't among them.
    pub fn span(&self, from: usize, to: usize) -> RowSpan
        requires { from ≤ to × to ≤ self.now.rows }
        ensures first { result.first ≡ self.now.first + from }
        ensures count { result.count ≡ to - from }
    {
        // No slot is past the last one, so the sum fits.
        let _ = &self.rows;
        RowSpan {
            first: self.first + from as u64,
            count: to - from,
        }
    }
}

impl<'d> RowMarks for PageMarks<'d> {
    ghost database = { λ marks. marks.database };

    ghost tells = { AreOnPage };

    fn marks(&self, table: u32, found: ColumnRange, span: RowSpan) -> u64 {
        self.database.plain_marks(table, found, span)
    }
}
