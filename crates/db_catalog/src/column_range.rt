// Rows of words as a reader of pages sees them: the row in a slot, and the words of one column by which rows are told that
// pass a test.
ghost use Rattle.std.specs.Prelude.{◌≡◌, ℕ, ℤ, ◌+◌, ◌*◌, ◌≤◌, ◌&&◌, not, Bool, FitsSigned, List, int_le, length};
ghost use Rattle.std.specs.Int.{w64};
ghost use Rattle.std.specs.Ordering.{int_eq};
ghost use Rattle.sql_values.specs.Words.{null_word};
ghost use Rattle.sql_values.specs.declared.column.ColumnType.{ColumnType};
ghost use Rattle.sql_values.specs.Stored.{ValueRow};
ghost use Rattle.db_catalog.specs.ColumnRanges.{IsRangeOf, IsWordsOf, slot_words};

use sql_values::NULL_WORD;

/// A column, and the words from the first to the second, both included, that it has in a row that passes a test. NULL's is
/// none of them.
#[derive(Clone, Copy)]
pub struct ColumnRange {
    /// The column, from 0.
    pub column: u8,
    /// The least word.
    pub from: i64,
    /// The greatest word.
    pub to: i64,
}

// The least word that may be one of them. NULL's is less than any other.
fn least(from: i64) -> i64
    ensures { (word : ℤ) → FitsSigned w64 word
        → int_le result word ≡ (not (int_eq word null_word) && int_le from word) }
{
    from.max(NULL_WORD + 1)
}

impl ColumnRange {
    /// The same words where NULL's counts as any other, of which it is none: it is the least of all.
    pub fn without_null(self) -> ColumnRange
        ensures { (texts : List (List ℕ)) → (kinds : List ColumnType) → (test : ValueRow → Bool)
            → IsRangeOf texts kinds test self → IsWordsOf texts kinds test result }
    {
        ColumnRange {
            from: least(self.from),
            ..self
        }
    }
}

/// The words of the row in this slot of a page, from 0, whose rows have `width` words each.
#[inline]
pub fn row_in(page: &[i64], width: usize, slot: usize) -> &[i64]
    requires { slot * width + width ≤ length page.now }
    ensures { result.now ≡ slot_words page.now width slot }
{
    &page[slot * width..slot * width + width]
}
