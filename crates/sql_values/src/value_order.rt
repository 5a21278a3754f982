// The order of values. It relies on std's orders of numbers and of lists of bytes.
ghost use Rattle.std.specs.Prelude.{◌≡◌};
ghost use Rattle.std.specs.Cmp.{IsTotalOrder};
ghost use Rattle.sql_values.specs.Order.{value_cmp, SameWhereEqual};

use crate::value::Value;
use std::cmp::Ordering;

/// Which of two values comes first: NULL, then numbers by value, then texts by their bytes, without padding.
pub fn order(a: &Value, b: &Value) -> Ordering
    ensures { result ≡ value_cmp a.now b.now }
{
    match a {
        Value::Null => match b {
            Value::Null => Ordering::Equal,
            Value::Int(_) => Ordering::Less,
            Value::Text(_) => Ordering::Less,
        },
        Value::Int(number) => match b {
            Value::Null => Ordering::Greater,
            Value::Int(other) => number.cmp(other),
            Value::Text(_) => Ordering::Less,
        },
        Value::Text(text) => match b {
            Value::Null => Ordering::Greater,
            Value::Int(_) => Ordering::Greater,
            Value::Text(other) => text.bytes().cmp(other.bytes()),
        },
    }
}

/// A law: the order is total, and only the same value is equal to a value.
pub fn order_is_total()
    ensures total { IsTotalOrder value_cmp }
    ensures same { SameWhereEqual value_cmp }
{}
