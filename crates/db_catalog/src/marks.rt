// Which rows of a table pass a test, told 64 at a time by the words of one column. It relies on the heap for the words, and
// pays for nothing.
ghost use Rattle.db_catalog.specs.Database.{DatabaseState};
ghost use Rattle.db_catalog.specs.Marks.{AreMarksOf, HasSpan};
ghost use Rattle.std.specs.Prelude.{ℕ, ⊤};
ghost use Rattle.heap_pages.specs.declared.spans.RowSpan.{RowSpan};

use crate::column_range::ColumnRange;
use crate::database::Database;
use heap_pages::RowSpan;

/// Whoever tells which rows of a table have words of a range. A database tells all rows, for no pay. A meter tells none: who
/// has paid for a page gets the marks of its rows.
pub trait RowMarks {
    /// The database whose rows they are.
    ghost database: { Self → DatabaseState };

    /// The rows that it tells of a table.
    ghost tells: { Self → ℕ → RowSpan → Type 0 };

    /// Which rows of a span, of at most 64, have a word of a range: bit k stands for the row k places behind the first.
    fn marks(&self, table: u32, found: ColumnRange, span: RowSpan) -> u64
        requires span { HasSpan (database self.now) table found span }
        requires told { tells self.now table span }
        ensures { AreMarksOf (database self.now) table found span result };
}

impl RowMarks for Database {
    ghost database = { λ database. database };

    ghost tells = { λ database table span. ⊤ };

    fn marks(&self, table: u32, found: ColumnRange, span: RowSpan) -> u64 {
        self.plain_marks(table, found, span)
    }
}
