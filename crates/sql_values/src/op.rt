// The operators that compare two values. Nothing here says what they mean of NULL: the layer that compares does.

/// An operator that compares two values (SQL-92, 8.2): `=`, `<>`, `<`, `<=`, `>` and `>=`.
#[derive(Clone, Copy, PartialEq, Eq)]
pub enum Op {
    Eq,
    Ne,
    Lt,
    Le,
    Gt,
    Ge,
}
