// Rows sorted by their words as numbers. A row is lent by its table and never copied.
ghost use Rattle.std.specs.Prelude.{◌≡◌, ◌↔◌, ◌≤◌, All, IsPermutation, IsSorted, IsTrue, IfOk, OnOk, length, sum_by, take};
ghost use Rattle.std.proofs.Common.{rules};
ghost use Rattle.std.specs.Cmp.{partial_order_from_own_ties, eq_by_cmp_equiv, int_cmp_total};
ghost use Rattle.std.specs.Cmp.Rules.{comparing};
ghost use Rattle.std.specs.Ordering.{as_partial_cmp, eq_by_cmp};
ghost use Rattle.result_text.specs.Rows.{WordRow, AreNumbers};
ghost use Rattle.result_text.specs.Order.{word_row_cmp};
ghost use Rattle.result_text.specs.SortKey.{word_at, key_of};
ghost use Rattle.result_text.specs.Sorted.{AreSorted};

use crate::row::{LentRow, lend};
use sql_values::NULL_WORD;
use std::alloc::{AllocError, Global};
use std::cmp::Ordering;
use std::marker::Model;

/// A row that is lent, with its first two words beside it as one number (the least where it has none), so that most
/// comparisons are one, and need not go to the row.
#[derive(Drop)]
pub(crate) struct SortedRow<'a> {
    key: i128,
    row: &'a [i64],
}

impl<'a> Model for SortedRow<'a> {
    ghost use Rattle.result_text.specs.Rows.{WordRow};

    ghost Value = { WordRow };

    ghost view = { λ s. s.row.now };

    ghost use Rattle.result_text.specs.SortKey.{IsSortKey};

    ghost invariant = { λ s. IsSortKey s.key s.row.now };
}

// The word in this place, and the least one where the row has none.
fn word_at(row: &[i64], place: usize) -> i64
    ensures { result ≡ word_at place row.now }
{
    row.get(place).copied().unwrap_or(NULL_WORD)
}

// Two words as one number, which is ordered as they are.
fn key_of(first: i64, second: i64) -> i128
    ensures { result ≡ key_of first second }
{
    i128::from(first) * 18446744073709551616 + (i128::from(second) + 9223372036854775808)
}

fn same_words(a: &[i64], b: &[i64]) -> bool
    ensures { IsTrue result ↔ (a.now ≡ b.now) }
{
    a == b
}

impl<'a> SortedRow<'a> {
    fn new(row: &'a [i64]) -> SortedRow<'a>
        ensures { result ≡ row.now }
    {
        let (first, second) = (word_at(row, 0), word_at(row, 1));
        SortedRow {
            key: key_of(first, second),
            row,
        }
    }

    pub(crate) fn row(&self) -> &'a [i64]
        ensures { result.now ≡ self.now }
    {
        self.row
    }

    /// The same row once more.
    pub(crate) fn again<'b>(&self) -> SortedRow<'b>
    where
        'a: 'b,
        ensures { result ≡ self.now }
    {
        SortedRow {
            key: self.key,
            row: self.row,
        }
    }

    /// Whether the first `count` words of both are the same.
    pub(crate) fn begins_as(&self, other: &SortedRow<'_>, count: usize) -> bool
        requires here { count ≤ length self.now }
        requires there { count ≤ length other.now }
        ensures { IsTrue result ↔ (take count self.now ≡ take count other.now) }
    {
        if count > 0 && self.key.abs_diff(other.key) >= 18446744073709551616 {
            return false;
        }
        if count > 1 && self.key != other.key {
            return false;
        }
        same_words(&self.row[..count], &other.row[..count])
    }
}

impl PartialEq for SortedRow<'_> {
    ghost eq = { eq_by_cmp word_row_cmp };

    ghost laws = { Prim.search (comparing, rules) };

    fn eq(&self, other: &Self) -> bool {
        self.cmp(other) == Ordering::Equal
    }
}

impl Eq for SortedRow<'_> {
    ghost laws = { Prim.search (comparing, rules) };
}

impl PartialOrd for SortedRow<'_> {
    ghost partial_cmp = { as_partial_cmp word_row_cmp };

    ghost laws = { partial_order_from_own_ties
        (Prim.search (comparing, rules)) (Prim.search (comparing, rules)) };

    fn partial_cmp(&self, other: &Self) -> Option<Ordering> {
        Some(self.cmp(other))
    }
}

impl Ord for SortedRow<'_> {
    ghost cmp = { word_row_cmp };

    ghost total = { Prim.search (comparing, rules) };

    ghost matches_partial_cmp = { Prim.search (comparing, rules) };

    ghost matches_eq = { Prim.search (comparing, rules) };

    #[inline]
    fn cmp(&self, other: &Self) -> Ordering {
        match self.key.cmp(&other.key) {
            Ordering::Equal => self.row.cmp(other.row),
            unequal => unequal,
        }
    }
}

// A law: no word is less than the least number. Each is read, since only a number that is read is known to be one.
fn words_are_numbers(row: &[i64])
    ensures { AreNumbers row.now }
{
    for word in row {
        prove!(*word >= NULL_WORD);
    }
}

// The same of the words of rows.
fn rows_are_numbers(rows: &[LentRow<'_>])
    ensures { All AreNumbers rows.now }
{
    for row in rows {
        words_are_numbers(row.words());
    }
}

// Rows with their keys.
fn with_keys<'a>(alloc: Global, rows: &[LentRow<'a>]) -> Result<Vec<SortedRow<'a>>, AllocError>
    ensures { IfOk result (λ keyed. keyed.items ≡ rows.now) }
{
    let mut keyed = Vec::with_capacity(alloc, rows.len())?;
    for row in rows {
        keyed.push(SortedRow::new(row.words()))?;
    }
    Ok(keyed)
}

/// The rows, each as often as it stands there, sorted by their words as numbers.
pub(crate) fn by_words<'a>(
    alloc: Global,
    rows: &[LentRow<'a>],
) -> Result<Vec<SortedRow<'a>>, AllocError>
    ensures permutation { IfOk result (λ sorted. IsPermutation rows.now sorted.items) }
    ensures sorted { IfOk result (λ sorted. IsSorted word_row_cmp sorted.items) }
    ensures numbers { All AreNumbers rows.now }
{
    rows_are_numbers(rows);
    let mut sorted = with_keys(alloc, rows)?;
    sorted.sort_unstable();
    Ok(sorted)
}

/// The rows of these words, each as long as the row at its place in `like`, sorted by their words as numbers.
pub(crate) fn by_places<'a>(
    alloc: Global,
    like: &[LentRow<'_>],
    words: &'a [i64],
) -> Result<Vec<SortedRow<'a>>, AllocError>
    requires { sum_by length like.now ≡ length words.now }
    ensures { IfOk result (λ sorted. AreSorted words.now like.now sorted.items) }
{
    let lent = lend(alloc, like, words)?;
    by_words(alloc, &lent)
}
