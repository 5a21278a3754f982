// The words of one column in the rows that meet a condition. Once they are in order, a search among them tells whether a row
// does, in the time of the logarithm of their number.
ghost use Rattle.std.specs.Prelude.{◌≡◌, [], Bool, IfOk, List, ℕ};
ghost use Rattle.std.specs.List.{list_any};
ghost use Rattle.std.specs.List.Sorted.{IsPermutation, IsSorted};
ghost use Rattle.std.specs.Ordering.{int_cmp, int_eq};
ghost use Rattle.sql_values.specs.declared.column.ColumnType.{ColumnType};
ghost use Rattle.sql_values.specs.Stored.{ValueRow};
ghost use Rattle.db_catalog.specs.ColumnRanges.{IsWordsOf};
ghost use Rattle.row_filter.specs.InLists.{AddsToList};

use db_catalog::ColumnRange;
use std::alloc::{AllocError, Global};

/// A column, and the words that it has in a row that meets a condition.
#[derive(Drop)]
pub(crate) struct InList {
    pub(crate) column: u8,
    words: Vec<i64>,
}

impl InList {
    /// No words of a column, and room for so many.
    pub(crate) fn new(alloc: Global, column: u8, room: usize) -> Result<InList, AllocError>
        ensures column { IfOk result (λ list. list.column ≡ column) }
        ensures empty { IfOk result (λ list. list.words.items ≡ []) }
    {
        let words = Vec::with_capacity(alloc, room)?;
        Ok(InList { column, words })
    }

    /// Puts a range of the column to the others, where it is one word, or none. False where it isn't, or memory is wanting.
    pub(crate) fn put(&mut self, found: ColumnRange) -> bool
        ensures { (texts : List (List ℕ)) → (kinds : List ColumnType) → (more : ValueRow → Bool)
            → IsWordsOf texts kinds more found
            → AddsToList texts kinds more self.old self.new result }
    {
        if found.column != self.column {
            return false;
        }
        if found.from > found.to {
            return true;
        }
        if found.from != found.to {
            return false;
        }
        self.words.push(found.from).is_ok()
    }

    /// Puts the words in order.
    pub(crate) fn sort(&mut self)
        ensures column { self.new.column ≡ self.old.column }
        ensures words { IsPermutation self.old.words.items self.new.words.items }
        ensures sorted { IsSorted int_cmp self.new.words.items }
    {
        self.words.sort_unstable();
    }

    /// Whether a word is one of them, which are in order.
    pub(crate) fn has(&self, word: i64) -> bool
        requires { IsSorted int_cmp self.now.words.items }
        ensures { result ≡ list_any (int_eq word) self.now.words.items }
    {
        self.words.binary_search(&word).is_ok()
    }
}
