// The words of a value, by which a column is known that is one of several values.
ghost use Rattle.std.specs.Prelude.{◌≡◌, ◌<◌, [], IfSome, length};
ghost use Rattle.sql_values.specs.declared.op.Op.TheVariants.{Eq};
ghost use Rattle.sql_values.specs.declared.value.Value.TheVariants as value;
ghost use Rattle.sql_values.specs.Truth.{comparison};
ghost use Rattle.query_block.specs.declared.condition.Operand.TheVariants.{Column, Literal};
ghost use Rattle.query_block.specs.Blocks.{AreOperands};
ghost use Rattle.query_block.specs.Conditions.{OneOf};
ghost use Rattle.query_block.specs.Blocks.{FitsColumns};
ghost use Rattle.query_block.specs.Meaning.{is_true};
ghost use Rattle.query_block.specs.Truth.{operand_value, truth_of};
ghost use Rattle.row_filter.specs.Unions.{AddsTest, EqualsIn, IsKnownEqual};

use crate::union::RangeUnion;
use db_catalog::ColumnRange;
use query_block::Operand;
use sql_values::{ColumnType, Texts, Value};

// A number is its own word.
fn number_words(
    column: u8,
    number: i64,
    columns: &[ColumnType],
    _texts: &Texts,
) -> Option<ColumnRange>
    requires { AreOperands [] columns.now (Column column) (Literal (value.Int number)) }
    ensures { IsKnownEqual _texts.now columns.now column (value.Int number) result }
{
    let found = ColumnRange {
        column,
        from: number,
        to: number,
    };
    Some(found.without_null())
}

// The word of a text is its code. No row has a text without one.
fn text_words(column: u8, text: &[u8], columns: &[ColumnType], texts: &Texts) -> Option<ColumnRange>
    requires { AreOperands [] columns.now (Column column) (Literal (value.Text text.now)) }
    ensures { IsKnownEqual texts.now columns.now column (value.Text text.now) result }
{
    match texts.code_of(text) {
        Some(code) => {
            let found = ColumnRange {
                column,
                from: code,
                to: code,
            };
            Some(found.without_null())
        }
        None => {
            let none = ColumnRange {
                column,
                from: i64::MAX,
                to: i64::MIN,
            };
            Some(none.without_null())
        }
    }
}

// The words of a column in the rows in which it is a literal.
fn literal_words(
    column: u8,
    literal: &Value,
    columns: &[ColumnType],
    texts: &Texts,
) -> Option<ColumnRange>
    requires { AreOperands [] columns.now (Column column) (Literal literal.now) }
    ensures { IsKnownEqual texts.now columns.now column literal.now result }
{
    match literal {
        Value::Null => None,
        Value::Int(number) => number_words(column, *number, columns, texts),
        Value::Text(text) => text_words(column, text.bytes(), columns, texts),
    }
}

/// The words of a column in the rows in which two operands are equal: the column, and a literal.
pub(crate) fn equal_words(
    of: &Operand,
    operand: &Operand,
    columns: &[ColumnType],
    texts: &Texts,
) -> Option<ColumnRange>
    requires { AreOperands [] columns.now of.now operand.now }
    ensures { EqualsIn texts.now columns.now of.now operand.now result }
{
    match of {
        Operand::Column(column) => match operand {
            Operand::Literal(literal) => literal_words(*column, literal, columns, texts),
            _ => None,
        },
        _ => None,
    }
}

/// Puts the words of each of several values to others. False where they are no ranges, or there is no room.
pub(crate) fn add_values(
    union: &mut RangeUnion,
    columns: &[ColumnType],
    of: &Operand,
    operands: &[Operand],
    texts: &Texts,
) -> bool
    requires { FitsColumns [] columns.now (OneOf of.now operands.now) }
    ensures { AddsTest texts.now columns.now
        (λ row. is_true (truth_of (OneOf of.now operands.now) row)) union.old union.new result }
{
    for operand in operands {
        let Some(found) = equal_words(of, operand, columns, texts) else {
            return false;
        };
        if !union.put(found) {
            return false;
        }
    }
    true
}
