// Two ranges of a column as one. Where words lie between them, these are told too.
ghost use Rattle.std.specs.Prelude.{◌≡◌, ◌&&◌, ◌||◌, ◌+ℤ◌, ℤ, pos, true, Bool, List, int_le, not, ℕ};
ghost use Rattle.sql_values.specs.declared.column.ColumnType.{ColumnType};
ghost use Rattle.sql_values.specs.Stored.{ValueRow};
ghost use Rattle.narrow_columns.specs.Marks.{is_among};
ghost use Rattle.db_catalog.specs.ColumnRanges.{IsWordsOf};
ghost use Rattle.row_filter.specs.Regions.{IsKnownRegion};

use crate::known_region::KnownRegion;
use crate::region::{Region, greater, lesser};
use db_catalog::ColumnRange;

/// Whether a range has no words.
pub(crate) fn is_empty(range: ColumnRange) -> bool
    ensures { result ≡ not (int_le range.from range.to) }
{
    range.to < range.from
}

// Whether a range that begins here begins at most one word behind the end of another.
fn follows(from: i64, to: i64) -> bool
    ensures { result ≡ int_le from (to +ℤ pos 1) }
{
    from <= to || from - 1 == to
}

// All words from the least of two ranges to the greatest.
fn hull(a: ColumnRange, b: ColumnRange) -> ColumnRange
    ensures column { result.column ≡ a.column }
    ensures words { (word : ℤ) → is_among result.from result.to word
        ≡ ((int_le a.from word || int_le b.from word) && (int_le word a.to || int_le word b.to)) }
{
    ColumnRange {
        column: a.column,
        from: lesser(a.from, b.from),
        to: greater(a.to, b.to),
    }
}

/// One range, exactly.
pub(crate) fn exactly(range: ColumnRange) -> KnownRegion
    ensures { (texts : List (List ℕ)) → (kinds : List ColumnType) → (test : ValueRow → Bool)
        → IsWordsOf texts kinds test range → IsKnownRegion texts kinds test result }
{
    KnownRegion {
        region: Region::Range(range),
        exact: true,
    }
}

/// The words of two ranges of a column as one range. It is exact unless words lie between them.
pub(crate) fn joined(a: ColumnRange, b: ColumnRange) -> KnownRegion
    requires { a.column ≡ b.column }
    ensures { (texts : List (List ℕ)) → (kinds : List ColumnType) → (one other : ValueRow → Bool)
        → IsWordsOf texts kinds one a → IsWordsOf texts kinds other b
        → IsKnownRegion texts kinds (λ row. one row || other row) result }
{
    if is_empty(b) {
        return exactly(a);
    }
    if is_empty(a) {
        return exactly(b);
    }
    KnownRegion {
        region: Region::Range(hull(a, b)),
        exact: follows(a.from, b.to) & follows(b.from, a.to),
    }
}
