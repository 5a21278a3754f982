// A region of words: what the words of a row have to be, so that a condition may be met.
ghost use Rattle.std.specs.Prelude.{◌≡◌, ◌&&◌, ◌||◌, ℤ, Bool, IfSome, List, int_le, map, ℕ};
ghost use Rattle.sql_values.specs.declared.column.ColumnType.{ColumnType};
ghost use Rattle.sql_values.specs.Stored.{ValueRow};
ghost use Rattle.narrow_columns.specs.Marks.{marks_of};
ghost use Rattle.heap_pages.specs.Spans.{rows_of_span};
ghost use Rattle.db_catalog.specs.Database.{table_at};
ghost use Rattle.db_catalog.specs.ColumnRanges.{IsWordsOf};
ghost use Rattle.row_filter.specs.Regions.{IsRegionIn, IsRegionOf};
ghost use Rattle.row_filter.specs.RowFilters.{IsSpanIn};

use crate::every::every_row;
use db_catalog::{ColumnRange, RowMarks, RowSpan};

/// All rows, or those with a word of a range, or with words of two ranges of different columns.
#[derive(Clone, Copy)]
pub(crate) enum Region {
    Every,
    Range(ColumnRange),
    Pair(ColumnRange, ColumnRange),
}

/// The greater of two words.
pub(crate) fn greater(a: i64, b: i64) -> i64
    ensures above { (word : ℤ) → int_le result word ≡ (int_le a word && int_le b word) }
    ensures below { (word : ℤ) → int_le word result ≡ (int_le word a || int_le word b) }
{
    a.max(b)
}

/// The lesser of two words.
pub(crate) fn lesser(a: i64, b: i64) -> i64
    ensures above { (word : ℤ) → int_le result word ≡ (int_le a word || int_le b word) }
    ensures below { (word : ℤ) → int_le word result ≡ (int_le word a && int_le word b) }
{
    a.min(b)
}

/// The words that two ranges of one column share.
pub(crate) fn shared(a: ColumnRange, b: ColumnRange) -> ColumnRange
    requires { a.column ≡ b.column }
    ensures { (texts : List (List ℕ)) → (kinds : List ColumnType) → (one other : ValueRow → Bool)
        → IsWordsOf texts kinds one a → IsWordsOf texts kinds other b
        → IsWordsOf texts kinds (λ row. one row && other row) result }
{
    ColumnRange {
        column: a.column,
        from: greater(a.from, b.from),
        to: lesser(a.to, b.to),
    }
}

// Narrowed to a range by another.
fn narrowed_range(own: ColumnRange, found: ColumnRange) -> Region
    ensures { (texts : List (List ℕ)) → (kinds : List ColumnType) → (one other : ValueRow → Bool)
        → IsWordsOf texts kinds one own → IsWordsOf texts kinds other found
        → IsRegionOf texts kinds (λ row. one row && other row) result }
{
    if own.column == found.column {
        return Region::Range(shared(own, found));
    }
    Region::Pair(own, found)
}

// Narrowed to two ranges by a third, which is of the column of one of them. Else there is no room.
fn narrowed_pair(first: ColumnRange, second: ColumnRange, found: ColumnRange) -> Option<Region>
    ensures { (texts : List (List ℕ)) → (kinds : List ColumnType) → (test other : ValueRow → Bool)
        → IsRegionOf texts kinds test (Region.Pair first second) → IsWordsOf texts kinds other found
        → IfSome result (IsRegionOf texts kinds (λ row. test row && other row)) }
{
    if first.column == found.column {
        return Some(Region::Pair(shared(first, found), second));
    }
    if second.column == found.column {
        return Some(Region::Pair(first, shared(second, found)));
    }
    None
}

impl Region {
    /// The rows of a region that have a word of a range too. None where there is no room for the range.
    pub(crate) fn narrowed(self, found: ColumnRange) -> Option<Region>
        ensures { (texts : List (List ℕ)) → (kinds : List ColumnType) → (test other : ValueRow → Bool)
            → IsRegionOf texts kinds test self → IsWordsOf texts kinds other found
            → IfSome result (IsRegionOf texts kinds (λ row. test row && other row)) }
    {
        match self {
            Region::Every => Some(Region::Range(found)),
            Region::Range(own) => Some(narrowed_range(own, found)),
            Region::Pair(first, second) => narrowed_pair(first, second, found),
        }
    }

    /// Which rows of a span are in a region.
    pub(crate) fn marks<R: RowMarks>(&self, rows: &R, table: u32, span: RowSpan) -> u64
        requires region { (test : ValueRow → Bool)
            × IsRegionIn (R.database rows.now) table test self.now }
        requires span { IsSpanIn (R.database rows.now) table span }
        requires told { R.tells rows.now table span }
        ensures { (test : ValueRow → Bool) → IsRegionIn (R.database rows.now) table test self.now
            → result ≡ marks_of (map test
            (rows_of_span span (table_at (R.database rows.now) table).rows)) }
    {
        match self {
            Region::Every => every_row(span.count),
            Region::Range(found) => rows.marks(table, *found, span),
            Region::Pair(first, second) => {
                let marks = rows.marks(table, *first, span);
                if marks == 0 {
                    return 0;
                }
                marks & rows.marks(table, *second, span)
            }
        }
    }
}
