// The predicates on operands of a row. Nothing here takes memory or calls itself.
ghost use Rattle.std.specs.Prelude.{◌≡◌, [], IfSome};
ghost use Rattle.sql_values.specs.Words.{IsWord, value_of};
ghost use Rattle.sql_values.specs.declared.value.Value.TheVariants.{Int};
ghost use Rattle.sql_values.specs.Truth.{certain, comparison, AreComparable};
ghost use Rattle.query_block.specs.Blocks.{IsOperand, kind_at};
ghost use Rattle.query_block.specs.Cells.{cell_value, row_values, FitsRow, IsCell, IsRow};
ghost use Rattle.query_block.specs.declared.condition.Operand.TheVariants.{Literal};
ghost use Rattle.query_block.specs.Conditions.{filter_tree, Compare, Between, OneOf, IsNull};
ghost use Rattle.query_block.specs.Truth.{operand_value, truth_of, value_at};

use crate::cell::{Cell, compare_cells, holds_of_numbers};
use crate::condition::{Condition, Operand};
use crate::row::Row;
use sql_values::{ColumnType, NULL_WORD, Op, Texts, Truth, Value, and, certain, or};

// The cell of a word.
#[inline(always)]
fn cell_of<'a>(kind: ColumnType, word: i64, texts: &Texts) -> Cell<'a>
    requires { IsWord texts.now kind word }
    ensures is { IsCell texts.now result }
    ensures value { cell_value texts.now result ≡ value_of texts.now kind word }
{
    if word == NULL_WORD {
        return Cell::Null;
    }
    match kind {
        ColumnType::Integer => Cell::Int(word),
        ColumnType::Varchar(_) => Cell::Code(word),
    }
}

// The cell of a column.
#[inline(always)]
fn column_cell<'a>(column: u8, row: &Row<'_>) -> Cell<'a>
    requires { FitsRow row.now (IsNull column) }
    ensures is { IsCell row.now.texts.now result }
    ensures value { cell_value row.now.texts.now result ≡ value_at (row_values row.now) column }
{
    let place = column as usize;
    cell_of(row.columns[place], row.words[place], row.texts)
}

// The cell of an operand.
#[inline(always)]
fn operand_cell<'a>(operand: &'a Operand, row: &Row<'_>) -> Cell<'a>
    requires row { IsRow row.now }
    requires operand { IsOperand [] row.now.columns.now operand.now }
    ensures is { IsCell row.now.texts.now result }
    ensures value { cell_value row.now.texts.now result
        ≡ operand_value (row_values row.now) operand.now }
{
    match operand {
        Operand::Column(column) => column_cell(*column, row),
        Operand::Literal(literal) => match literal {
            Value::Null => Cell::Null,
            Value::Int(number) => Cell::Int(*number),
            Value::Text(text) => Cell::Text(text.bytes()),
        },
        Operand::Parameter(_) => unreachable!(),
    }
}

// Compares a cell with an operand. Numbers are compared at once.
#[inline(always)]
fn compare_with(op: Op, left: Cell<'_>, right: &Operand, row: &Row<'_>) -> Truth
    requires row { IsRow row.now }
    requires left { IsCell row.now.texts.now left }
    requires right { IsOperand [] row.now.columns.now right.now }
    requires kinds { AreComparable (cell_value row.now.texts.now left)
        (operand_value (row_values row.now) right.now) }
    ensures { result ≡ comparison op (cell_value row.now.texts.now left.entry)
        (operand_value (row_values row.now) right.now) }
{
    if let Cell::Int(a) = left {
        if let Some(b) = number_of(right) {
            return certain(holds_of_numbers(op, a, b));
        }
    }
    compare_cells(op, left, operand_cell(right, row), row.texts)
}

// The number that an operand is, if it is written as one.
#[inline(always)]
fn number_of(operand: &Operand) -> Option<i64>
    ensures { IfSome result (λ number. operand.now ≡ Literal (Int number)) }
{
    match operand {
        Operand::Literal(Value::Int(number)) => Some(*number),
        _ => None,
    }
}

/// Whether a condition is true that compares a column, which isn't NULL, with a number. None where it isn't of that kind.
#[inline(always)]
pub(crate) fn holds_of_column(condition: &Condition, row: &Row<'_>) -> Option<bool>
    requires { FitsRow row.now (filter_tree condition.now) }
    ensures { IfSome result (λ holds. truth_of (filter_tree condition.now) (row_values row.now) ≡ certain holds) }
{
    let Condition::Compare(op, Operand::Column(column), right) = condition else {
        return None;
    };
    let number = number_of(right)?;
    match column_cell(*column, row) {
        Cell::Int(word) => Some(holds_of_numbers(*op, word, number)),
        _ => None,
    }
}

/// Compares two operands (SQL-92, 8.2).
pub(crate) fn compare(op: Op, left: &Operand, right: &Operand, row: &Row<'_>) -> Truth
    requires { FitsRow row.now (Compare op left.now right.now) }
    ensures { result ≡ truth_of (Compare op left.now right.now) (row_values row.now) }
{
    compare_with(op, operand_cell(left, row), right, row)
}

/// Whether an operand lies between two others (SQL-92, 8.3). The upper one is left alone where the lower one decides.
pub(crate) fn between(of: &Operand, low: &Operand, high: &Operand, row: &Row<'_>) -> Truth
    requires { FitsRow row.now (Between of.now low.now high.now) }
    ensures { result ≡ truth_of (Between of.now low.now high.now) (row_values row.now) }
{
    let above = compare(Op::Ge, of, low, row);
    if above == Truth::False {
        return Truth::False;
    }
    and(above, compare(Op::Le, of, high, row))
}

/// Whether an operand is one of others (SQL-92, 8.4), up to the first that is equal to it.
pub(crate) fn one_of(of: &Operand, operands: &[Operand], row: &Row<'_>) -> Truth
    requires { FitsRow row.now (OneOf of.now operands.now) }
    ensures { result ≡ truth_of (OneOf of.now operands.now) (row_values row.now) }
{
    let cell = operand_cell(of, row);
    let mut found = Truth::False;
    for operand in operands {
        found = or(found, compare_with(Op::Eq, cell, operand, row));
        if found == Truth::True {
            return Truth::True;
        }
    }
    found
}

/// Whether a column is NULL (SQL-92, 8.6).
pub(crate) fn is_null(column: u8, row: &Row<'_>) -> Truth
    requires { FitsRow row.now (IsNull column) }
    ensures { result ≡ truth_of (IsNull column) (row_values row.now) }
{
    match column_cell(column, row) {
        Cell::Null => Truth::True,
        _ => Truth::False,
    }
}
