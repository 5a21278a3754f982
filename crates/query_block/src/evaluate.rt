// The truth of a condition on a row. It calls itself for a nested condition alone: a chain is a loop, however long. A column
// and a number are compared where they stand, without a call.
ghost use Rattle.std.specs.Prelude.{◌≡◌, All, [], map};
ghost use Rattle.sql_values.specs.Stored.{values_of, AreWordsOf};
ghost use Rattle.query_block.specs.Conditions.{filter_tree, chain, And, Or};
ghost use Rattle.query_block.specs.Blocks.{FitsColumns};
ghost use Rattle.query_block.specs.Cells.{row_values, FitsRow};
ghost use Rattle.query_block.specs.Truth.{truth_of, truth_of_all, truth_of_any};
ghost use Rattle.query_block.specs.Meaning.{is_true, meets_filter};

use crate::condition::Condition;
use crate::predicate::{between, compare, holds_of_column, is_null, one_of};
use crate::row::Row;
use sql_values::{ColumnType, Texts, Truth, and, certain, not, or};

// The truth of a condition.
#[cycle(truth)]
fn truth_on(condition: &Condition, row: &Row<'_>) -> Truth
    requires { FitsRow row.now (filter_tree condition.now) }
    ensures { result ≡ truth_of (filter_tree condition.now) (row_values row.now) }
{
    match condition {
        Condition::Compare(op, left, right) => compare(*op, left, right, row),
        Condition::Between(of, low, high) => between(of, low, high, row),
        Condition::OneOf(of, operands) => one_of(of, operands.as_slice(), row),
        Condition::IsNull(column) => is_null(*column, row),
        Condition::Not(inner) => not(truth_on(inner, row)),
        Condition::And(parts) => truth_of_all(parts.as_slice(), row),
        Condition::Or(parts) => truth_of_any(parts.as_slice(), row),
    }
}

// The truth of a AND b AND .., up to the first that is false.
#[cycle(truth)]
fn truth_of_all(parts: &[Condition], row: &Row<'_>) -> Truth
    requires { FitsRow row.now (And (chain (map filter_tree parts.now))) }
    ensures { result ≡ truth_of_all (chain (map filter_tree parts.now)) (row_values row.now) }
{
    let mut found = Truth::True;
    for part in parts {
        let truth = match holds_of_column(part, row) {
            Some(holds) => certain(holds),
            None => truth_on(part, row),
        };
        found = and(found, truth);
        if found == Truth::False {
            return Truth::False;
        }
    }
    found
}

// The truth of a OR b OR .., up to the first that is true.
#[cycle(truth)]
fn truth_of_any(parts: &[Condition], row: &Row<'_>) -> Truth
    requires { FitsRow row.now (Or (chain (map filter_tree parts.now))) }
    ensures { result ≡ truth_of_any (chain (map filter_tree parts.now)) (row_values row.now) }
{
    let mut found = Truth::False;
    for part in parts {
        let truth = match holds_of_column(part, row) {
            Some(holds) => certain(holds),
            None => truth_on(part, row),
        };
        found = or(found, truth);
        if found == Truth::True {
            return Truth::True;
        }
    }
    found
}

/// The truth of a condition on a row (SQL-92, 8.2 to 8.12). It takes no memory, and as much of the machine's stack as the
/// condition is nested deep. The condition has no parameter.
pub fn truth(condition: &Condition, columns: &[ColumnType], row: &[i64], texts: &Texts) -> Truth
    requires condition { FitsColumns [] columns.now (filter_tree condition.now) }
    requires words { AreWordsOf texts.now columns.now row.now }
    ensures { result
        ≡ truth_of (filter_tree condition.now) (values_of texts.now columns.now row.now) }
{
    let lent = Row {
        columns,
        words: row,
        texts,
    };
    truth_on(condition, &lent)
}

/// Whether each conjunct of a filter without parameters is true on a row, up to the first that isn't.
pub fn meets_filter(
    filter: &[Condition],
    columns: &[ColumnType],
    row: &[i64],
    texts: &Texts,
) -> bool
    requires conjuncts { All (FitsColumns [] columns.now) (map filter_tree filter.now) }
    requires words { AreWordsOf texts.now columns.now row.now }
    ensures { result
        ≡ meets_filter (map filter_tree filter.now) (values_of texts.now columns.now row.now) }
{
    let lent = Row {
        columns,
        words: row,
        texts,
    };
    for conjunct in filter {
        if !is_met(conjunct, &lent) {
            return false;
        }
    }
    true
}

// Whether a conjunct is true on a row. That of a column and a number is told without a call.
#[inline(always)]
fn is_met(conjunct: &Condition, row: &Row<'_>) -> bool
    requires { FitsRow row.now (filter_tree conjunct.now) }
    ensures { result ≡ is_true (truth_of (filter_tree conjunct.now) (row_values row.now)) }
{
    match holds_of_column(conjunct, row) {
        Some(holds) => holds,
        None => truth_on(conjunct, row) == Truth::True,
    }
}
