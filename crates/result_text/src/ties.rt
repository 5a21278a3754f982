// Rows that tie in their first columns, which are INTEGER: which ones they are, and how they come back into their places
// once they are in order. Nothing else about a row's place is known before its texts are compared.
ghost use Rattle.std.specs.Prelude.{◌≡◌, ◌<◌, ◌≤◌, List, All, IfOk, IsTrue, length, sum_by, take};
ghost use Rattle.sql_values.specs.declared.column.ColumnType.TheVariants.{Integer};
ghost use Rattle.result_text.specs.Ties.{AreMarked, TieAt, select, weave};
ghost use Rattle.result_text.specs.Rows.{WordRow};
ghost use Rattle.result_text.specs.Sorted.{AreSorted};

use crate::row::LentRow;
use crate::sort::{SortedRow, by_places};
use sql_values::ColumnType;
use std::alloc::{AllocError, Global};

/// How many of the first columns are INTEGER.
pub(crate) fn leading_integers(kinds: &[ColumnType]) -> usize
    ensures bound { result ≤ length kinds.now }
    ensures integers { All (λ kind. kind ≡ Integer) (take result kinds.now) }
{
    for (place, kind) in kinds.iter().enumerate() {
        if let ColumnType::Varchar(_) = kind {
            return place;
        }
    }
    kinds.len()
}

// Whether there is a row behind the one in this place, which begins with the same `count` words.
fn tie_at(rows: &[SortedRow<'_>], place: usize, count: usize) -> bool
    requires wide { All (λ row. count ≤ length row) rows.now }
    requires inside { place < length rows.now }
    ensures { TieAt count rows.now place → IsTrue result }
{
    place + 1 < rows.len() && rows[place].begins_as(&rows[place + 1], count)
}

/// Of each row whether it begins with the same `count` words as the one before it or behind it.
pub(crate) fn ties(
    alloc: Global,
    rows: &[SortedRow<'_>],
    count: usize,
) -> Result<Vec<bool>, AllocError>
    requires { All (λ row. count ≤ length row) rows.now }
    ensures long { IfOk result (λ ties. length ties.items ≡ length rows.now) }
    ensures marked { IfOk result (λ ties. AreMarked count rows.now ties.items) }
{
    let mut ties = Vec::with_capacity(alloc, rows.len())?;
    let mut before = false;
    for place in 0..rows.len() {
        let behind = tie_at(rows, place, count);
        ties.push(before || behind)?;
        before = behind;
    }
    Ok(ties)
}

/// The rows that tie, as they stand.
pub(crate) fn tied_rows<'a>(
    alloc: Global,
    rows: &[SortedRow<'a>],
    ties: &[bool],
) -> Result<Vec<LentRow<'a>>, AllocError>
    requires { length ties.now ≡ length rows.now }
    ensures { IfOk result (λ tied. tied.items ≡ select ties.now rows.now) }
{
    let mut tied = Vec::new(alloc);
    for (place, row) in rows.iter().enumerate() {
        if ties[place] {
            tied.push(LentRow::new(row.row()))?;
        }
    }
    Ok(tied)
}

// The rows, but in the places of those that tie other ones, in turn.
fn weave<'a>(
    alloc: Global,
    rows: &'a [SortedRow<'_>],
    ties: &[bool],
    tied: &[SortedRow<'a>],
) -> Result<Vec<SortedRow<'a>>, AllocError>
    requires { length ties.now ≡ length rows.now }
    ensures { IfOk result (λ woven. woven.items ≡ weave ties.now rows.now tied.now) }
{
    let mut woven = Vec::with_capacity(alloc, rows.len())?;
    let mut next = 0;
    for (place, row) in rows.iter().enumerate() {
        if ties[place] && next < tied.len() {
            woven.push(tied[next].again())?;
            next += 1;
        } else {
            woven.push(row.again())?;
        }
    }
    Ok(woven)
}

/// The rows, but in the places of those that tie the rows of these words, sorted by them. Each is as long as the one at its
/// place in `tied`.
pub(crate) fn weave_rows<'a>(
    alloc: Global,
    rows: &'a [SortedRow<'_>],
    ties: &[bool],
    tied: &[LentRow<'_>],
    words: &'a [i64],
) -> Result<Vec<SortedRow<'a>>, AllocError>
    requires long { length ties.now ≡ length rows.now }
    requires words { sum_by length tied.now ≡ length words.now }
    ensures { IfOk result
        (λ woven. (sorted : List WordRow) × AreSorted words.now tied.now sorted
        × (woven.items ≡ weave ties.now rows.now sorted)) }
{
    let sorted = by_places(alloc, tied, words)?;
    weave(alloc, rows, ties, &sorted)
}
