// The conjuncts of a filter by which an index on a column finds rows: one range of numbers, or one text.
ghost use Rattle.std.specs.Prelude.{◌≡◌, ◌<◌, length, map};
ghost use Rattle.std.specs.List.{list_any};
ghost use Rattle.query_block.specs.Conditions.{filter_tree};
ghost use Rattle.plan_tree.specs.Usable.{is_column, is_fixed_usable, is_range, is_usable, is_value};

use query_block::{Condition, Operand, holds_texts, is_open};
use sql_values::{ColumnType, Op};

// Whether an operand is this column.
fn is_column(column: u8, operand: &Operand) -> bool
    ensures { result ≡ is_column column operand.now }
{
    match operand {
        Operand::Column(other) => column == *other,
        Operand::Literal(_) => false,
        Operand::Parameter(_) => false,
    }
}

// Whether an operand is a literal or a parameter.
fn is_value(operand: &Operand) -> bool
    ensures { result ≡ is_value operand.now }
{
    match operand {
        Operand::Column(_) => false,
        Operand::Literal(_) => true,
        Operand::Parameter(_) => true,
    }
}

// Whether one range of a column's values meets an operator.
fn is_range(kind: ColumnType, op: Op) -> bool
    ensures { result ≡ is_range kind op }
{
    match kind {
        ColumnType::Integer => op != Op::Ne,
        ColumnType::Varchar(_) => op == Op::Eq,
    }
}

/// Whether an index on a column can use a conjunct: the column compared with a literal or a parameter, or an
/// INTEGER column between two of these.
pub fn is_usable(columns: &[ColumnType], column: u8, conjunct: &Condition) -> bool
    requires { column < length columns.now }
    ensures { result ≡ is_usable columns.now column (filter_tree conjunct.now) }
{
    let kind = columns[column as usize];
    match conjunct {
        Condition::Compare(op, left, right) => {
            is_range(kind, *op)
                && (is_column(column, left) && is_value(right)
                    || is_value(left) && is_column(column, right))
        }
        Condition::Between(of, low, high) => {
            !holds_texts(kind) && is_column(column, of) && is_value(low) && is_value(high)
        }
        Condition::OneOf(_, _) => false,
        Condition::IsNull(_) => false,
        Condition::Not(_) => false,
        Condition::And(_) => false,
        Condition::Or(_) => false,
    }
}

/// Whether an index on a column can use a conjunct that has no parameter.
pub fn is_fixed_usable(columns: &[ColumnType], column: u8, conjunct: &Condition) -> bool
    requires { column < length columns.now }
    ensures { result ≡ is_fixed_usable columns.now column (filter_tree conjunct.now) }
{
    is_usable(columns, column, conjunct) && !is_open(conjunct)
}

/// Whether an index on a column can use some conjunct of a filter.
pub fn has_usable(columns: &[ColumnType], column: u8, filter: &[Condition]) -> bool
    requires { column < length columns.now }
    ensures { result ≡ list_any (is_usable columns.now column) (map filter_tree filter.now) }
{
    for conjunct in filter {
        if is_usable(columns, column, conjunct) {
            return true;
        }
    }
    false
}
