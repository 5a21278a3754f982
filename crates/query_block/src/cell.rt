// Values as they are compared, lent: no text is copied, and a stored text is read only where its bytes decide.
ghost use Rattle.std.specs.Prelude.{◌≡◌, IsSome};
ghost use Rattle.std.specs.Cmp.Lexicographic.{slice_cmp};
ghost use Rattle.std.specs.Ordering.{int_cmp, nat_cmp};
ghost use Rattle.sql_values.specs.Dictionary.{text_of};
ghost use Rattle.sql_values.specs.Truth.{holds, comparison, AreComparable};
ghost use Rattle.query_block.specs.Cells.{cell_value, text_at, IsCell};

use sql_values::{Op, Texts, Truth, certain, holds};

/// A value: of a stored text its code, of a literal text its bytes.
#[derive(Clone, Copy)]
pub(crate) enum Cell<'a> {
    Null,
    Int(i64),
    Code(i64),
    Text(&'a [u8]),
}

// Whether an operator holds of two texts: equal ones have one length, so most of the others aren't read.
fn holds_of_texts(op: Op, a: &[u8], b: &[u8]) -> bool
    ensures { result ≡ holds op (slice_cmp nat_cmp a.now b.now) }
{
    match op {
        Op::Eq => a == b,
        Op::Ne => a != b,
        _ => holds(op, a.cmp(b)),
    }
}

// Whether an operator holds of two stored texts. Different codes have different texts, so equality reads none.
fn holds_of_codes(op: Op, a: i64, b: i64, texts: &Texts) -> bool
    requires left { IsSome (text_of texts.now a) }
    requires right { IsSome (text_of texts.now b) }
    ensures { result ≡ holds op (slice_cmp nat_cmp (text_at texts.now a) (text_at texts.now b)) }
{
    let _count = texts.len();
    match op {
        Op::Eq => a == b,
        Op::Ne => a != b,
        _ => holds(op, texts.text_of(a).cmp(texts.text_of(b))),
    }
}

/// Whether an operator holds of two numbers.
pub(crate) fn holds_of_numbers(op: Op, a: i64, b: i64) -> bool
    ensures { result ≡ holds op (int_cmp a b) }
{
    match op {
        Op::Eq => a == b,
        Op::Ne => a != b,
        Op::Lt => a < b,
        Op::Le => a <= b,
        Op::Gt => a > b,
        Op::Ge => a >= b,
    }
}

/// What a comparison of two cells comes to (SQL-92, 8.2).
#[inline(always)]
pub(crate) fn compare_cells(op: Op, a: Cell<'_>, b: Cell<'_>, texts: &Texts) -> Truth
    requires left { IsCell texts.now a }
    requires right { IsCell texts.now b }
    requires kinds { AreComparable (cell_value texts.now a) (cell_value texts.now b) }
    ensures { result ≡ comparison op (cell_value texts.now a.entry) (cell_value texts.now b.entry) }
{
    match a {
        Cell::Null => Truth::Unknown,
        Cell::Int(a) => match b {
            Cell::Int(b) => certain(holds_of_numbers(op, a, b)),
            _ => Truth::Unknown,
        },
        Cell::Code(a) => match b {
            Cell::Code(b) => certain(holds_of_codes(op, a, b, texts)),
            Cell::Text(b) => certain(holds_of_texts(op, texts.text_of(a), b)),
            _ => Truth::Unknown,
        },
        Cell::Text(a) => match b {
            Cell::Code(b) => certain(holds_of_texts(op, a, texts.text_of(b))),
            Cell::Text(b) => certain(holds_of_texts(op, a, b)),
            _ => Truth::Unknown,
        },
    }
}
