// Three-valued truth, and what a comparison of two values comes to. It relies on the order of values.
ghost use Rattle.std.specs.Prelude.{◌≡◌};
ghost use Rattle.sql_values.specs.Truth.{truth_and, truth_or, truth_not, certain, holds, comparison};
ghost use Rattle.sql_values.specs.Truth.{is_null, AreComparable};

use crate::op::Op;
use crate::value::Value;
use crate::value_order::order;
use std::cmp::Ordering;

/// What a condition is of a row (SQL-92, 8.12).
#[derive(Clone, Copy, PartialEq, Eq)]
pub enum Truth {
    True,
    False,
    /// Neither: a comparison with NULL.
    Unknown,
}

/// AND of two truths (SQL-92, 8.12): false where one of them is, else unknown where one of them is.
pub fn and(a: Truth, b: Truth) -> Truth
    ensures { result ≡ truth_and a b }
{
    match a {
        Truth::True => b,
        Truth::False => Truth::False,
        Truth::Unknown => match b {
            Truth::False => Truth::False,
            _ => Truth::Unknown,
        },
    }
}

/// OR of two truths (SQL-92, 8.12): true where one of them is, else unknown where one of them is.
pub fn or(a: Truth, b: Truth) -> Truth
    ensures { result ≡ truth_or a b }
{
    match a {
        Truth::True => Truth::True,
        Truth::False => b,
        Truth::Unknown => match b {
            Truth::True => Truth::True,
            _ => Truth::Unknown,
        },
    }
}

/// NOT of a truth (SQL-92, 8.12): unknown stays unknown.
pub fn not(a: Truth) -> Truth
    ensures { result ≡ truth_not a }
{
    match a {
        Truth::True => Truth::False,
        Truth::False => Truth::True,
        Truth::Unknown => Truth::Unknown,
    }
}

/// The truth of a test that is never unknown.
pub fn certain(test: bool) -> Truth
    ensures { result ≡ certain test }
{
    if test { Truth::True } else { Truth::False }
}

/// Whether an operator holds of two values that are in this order.
pub fn holds(op: Op, order: Ordering) -> bool
    ensures { result ≡ holds op order }
{
    match op {
        Op::Eq => order.is_eq(),
        Op::Ne => order.is_ne(),
        Op::Lt => order.is_lt(),
        Op::Le => order.is_le(),
        Op::Gt => order.is_gt(),
        Op::Ge => order.is_ge(),
    }
}

fn is_null(value: &Value) -> bool
    ensures { result ≡ is_null value.now }
{
    match value {
        Value::Null => true,
        _ => false,
    }
}

/// What a comparison of two values comes to (SQL-92, 8.2): unknown where one of them is NULL; else as numbers compare by
/// value and texts by their bytes, without padding.
pub fn compare(op: Op, a: &Value, b: &Value) -> Truth
    requires { AreComparable a.now b.now }
    ensures { result ≡ comparison op a.now b.now }
{
    if is_null(a) || is_null(b) {
        return Truth::Unknown;
    }
    certain(holds(op, order(a, b)))
}
