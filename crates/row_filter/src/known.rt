// The words by which a condition is known: those of one column in the rows that meet it, where these are one range.
ghost use Rattle.std.specs.Prelude.{◌≡◌, ◌<◌, ◌≤◌, [], IfSome, IsTrue, length};
ghost use Rattle.sql_values.specs.Limits.{max_columns};
ghost use Rattle.query_block.specs.Blocks.{FitsColumns};
ghost use Rattle.query_block.specs.Conditions.{IsNull, Not, filter_tree};
ghost use Rattle.plan_tree.specs.Usable.{is_usable};
ghost use Rattle.row_filter.specs.RowFilters.{IsKnown};

use db_catalog::ColumnRange;
use plan_tree::{is_usable, range_of};
use query_block::Condition;
use sql_values::{ColumnType, NULL_WORD, Texts};
use std::slice;

// A column by which an index could find the rows that meet a condition.
fn usable_column(columns: &[ColumnType], condition: &Condition) -> Option<u8>
    requires few { length columns.now ≤ max_columns }
    ensures there { IfSome result (λ column. column < length columns.now) }
    ensures usable { IfSome result (λ column.
        IsTrue (is_usable columns.now column (filter_tree condition.now))) }
{
    for place in 0..columns.len() {
        if is_usable(columns, place as u8, condition) {
            return Some(place as u8);
        }
    }
    None
}

// The words by which an index could find these rows. None where no index could.
fn index_words(columns: &[ColumnType], condition: &Condition, texts: &Texts) -> Option<ColumnRange>
    requires few { length columns.now ≤ max_columns }
    requires fits { FitsColumns [] columns.now (filter_tree condition.now) }
    ensures { IsKnown texts.now columns.now (filter_tree condition.now) result }
{
    let column = usable_column(columns, condition)?;
    let range = range_of(column, slice::from_ref(condition), texts);
    let found = ColumnRange {
        column,
        from: range.from,
        to: range.to,
    };
    Some(found.without_null())
}

// NULL's word alone, which is the same whatever the texts are.
fn null_words(column: u8, columns: &[ColumnType], _texts: &Texts) -> Option<ColumnRange>
    requires { FitsColumns [] columns.now (IsNull column) }
    ensures { IsKnown _texts.now columns.now (IsNull column) result }
{
    Some(ColumnRange {
        column,
        from: NULL_WORD,
        to: NULL_WORD,
    })
}

// All other words.
fn other_words(column: u8, columns: &[ColumnType], _texts: &Texts) -> Option<ColumnRange>
    requires { FitsColumns [] columns.now (IsNull column) }
    ensures { IsKnown _texts.now columns.now (Not (IsNull column)) result }
{
    Some(ColumnRange {
        column,
        from: NULL_WORD + 1,
        to: i64::MAX,
    })
}

// The words of a column that isn't NULL, where a condition asks for that alone.
fn negated_words(inner: &Condition, columns: &[ColumnType], texts: &Texts) -> Option<ColumnRange>
    requires { FitsColumns [] columns.now (filter_tree inner.now) }
    ensures { IsKnown texts.now columns.now (Not (filter_tree inner.now)) result }
{
    match inner {
        Condition::IsNull(column) => other_words(*column, columns, texts),
        _ => None,
    }
}

/// The words of a column in the rows that meet a condition without a parameter. None where one range of words doesn't tell
/// these rows.
pub(crate) fn known_words(
    columns: &[ColumnType],
    condition: &Condition,
    texts: &Texts,
) -> Option<ColumnRange>
    requires few { length columns.now ≤ max_columns }
    requires fits { FitsColumns [] columns.now (filter_tree condition.now) }
    ensures { IsKnown texts.now columns.now (filter_tree condition.now) result }
{
    match condition {
        Condition::IsNull(column) => null_words(*column, columns, texts),
        Condition::Not(inner) => negated_words(inner, columns, texts),
        _ => index_words(columns, condition, texts),
    }
}
