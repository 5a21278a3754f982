// The text of a whole table. Rows are sorted by their words as numbers, which is the order of their values as far as INTEGER
// columns come first. Where rows tie in these, and there alone, texts are ranked: each text's word becomes its place among
// the texts of such rows in ascending order, and the rows come back in that order into the places that they had together.
ghost use Rattle.std.specs.Prelude.{◌≡◌, ◌≤◌, ℕ, List, All, length, take, IfOk, IsPermutation, IsSorted};
ghost use Rattle.sql_values.specs.declared.column.ColumnType.TheVariants.{Integer};
ghost use Rattle.sql_values.specs.Stored.{ValueRow, AreWordsOf};
ghost use Rattle.result_text.specs.Order.{row_cmp, in_order};
ghost use Rattle.result_text.specs.Printed.{table_text, words_text};

use crate::placed::{PlacedRows, place_rows};
use crate::print::text_in_turn;
use crate::row::LentRow;
use crate::sort::{by_places, by_words};
use crate::ties::{leading_integers, tied_rows, ties, weave_rows};
use sql_values::{ColumnType, Text, Texts};
use std::alloc::{AllocError, Global};

// The text of rows of numbers.
fn text_by_words(
    alloc: Global,
    texts: &Texts,
    kinds: &[ColumnType],
    names: &[Text],
    rows: &[LentRow<'_>],
) -> Result<Vec<u8>, AllocError>
    requires words { All (AreWordsOf texts.now kinds.now) rows.now }
    requires integers { All (λ kind. kind ≡ Integer) kinds.now }
    ensures { IfOk result
        (λ text. text.items ≡ words_text texts.now kinds.now names.now rows.now) }
{
    let sorted = by_words(alloc, rows)?;
    text_in_turn(alloc, texts, kinds, names, &sorted)
}

// The text of rows, by the places of all their texts in ascending order.
fn text_by_places(
    alloc: Global,
    texts: &Texts,
    kinds: &[ColumnType],
    names: &[Text],
    rows: &[LentRow<'_>],
) -> Result<Vec<u8>, AllocError>
    requires { All (AreWordsOf texts.now kinds.now) rows.now }
    ensures { IfOk result
        (λ text. text.items ≡ words_text texts.now kinds.now names.now rows.now) }
{
    let PlacedRows { texts, words } = place_rows(alloc, texts, kinds, rows)?;
    let sorted = by_places(alloc, rows, &words)?;
    text_in_turn(alloc, &texts, kinds, names, &sorted)
}

// The text of rows, by their leading columns that are INTEGER, and by the places of texts where rows tie in these.
fn text_by_ties(
    alloc: Global,
    texts: &Texts,
    kinds: &[ColumnType],
    names: &[Text],
    rows: &[LentRow<'_>],
) -> Result<Vec<u8>, AllocError>
    requires { All (AreWordsOf texts.now kinds.now) rows.now }
    ensures { IfOk result
        (λ text. text.items ≡ words_text texts.now kinds.now names.now rows.now) }
{
    let count = leading_integers(kinds);
    let sorted = by_words(alloc, rows)?;
    let marks = ties(alloc, &sorted, count)?;
    let tied = tied_rows(alloc, &sorted, &marks)?;
    let PlacedRows { texts, words } = place_rows(alloc, texts, kinds, &tied)?;
    let woven = weave_rows(alloc, &sorted, &marks, &tied, &words)?;
    text_in_turn(alloc, &texts, kinds, names, &woven)
}

/// The CSV text (RFC 4180) of a header and of these rows, in ascending order: the leftmost column first, and in it NULL,
/// then numbers by value, then texts by their bytes. Each row stands there as often as it was given. NULL is an empty
/// field, a number is decimal, a text is its bytes. The only error is out of memory: the csv writer refuses a record that
/// isn't as wide as the header, and with one name a column (`named`) none is.
pub fn table_text(
    alloc: Global,
    texts: &Texts,
    kinds: &[ColumnType],
    names: &[Text],
    rows: &[LentRow<'_>],
) -> Result<Vec<u8>, AllocError>
    requires named { length names.now ≡ length kinds.now }
    requires words { All (AreWordsOf texts.now kinds.now) rows.now }
    ensures { IfOk result
        (λ text. text.items ≡ words_text texts.now kinds.now names.now rows.now) }
{
    let count = leading_integers(kinds);
    if count == kinds.len() {
        return text_by_words(alloc, texts, kinds, names, rows);
    }
    if count == 0 {
        return text_by_places(alloc, texts, kinds, names, rows);
    }
    text_by_ties(alloc, texts, kinds, names, rows)
}

/// A law: rows in order are the same rows, each as often, and they ascend.
pub fn rows_in_order()
    ensures permutation { (rows : List ValueRow) → IsPermutation rows (in_order rows) }
    ensures ascending { (rows : List ValueRow) → IsSorted row_cmp (in_order rows) }
{}

/// A law: a table prints the same text in whatever order its rows are given.
pub fn printed_in_any_order()
    ensures same { (names : List (List ℕ)) (rows rows' : List ValueRow)
        → IsPermutation rows rows' → table_text names rows ≡ table_text names rows' }
{}
