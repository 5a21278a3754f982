// Conditions on one relation. The definitions see them as the trees of `specs/Conditions.antt`.
use sql_values::{Op, Value};

/// An operand of a predicate.
#[derive(Drop)]
pub enum Operand {
    /// A column of the condition's relation, from 0.
    Column(u8),
    /// A number or a text; never NULL in a block.
    Literal(Value),
    /// A value that is put in before the block is run: a parameter by its number, from 0 in written order.
    Parameter(u32),
}

/// A condition on a row of one relation (SQL-92, 8.12).
#[derive(Drop)]
pub enum Condition {
    Compare(Op, Operand, Operand),
    /// The first operand lies between the second and the third.
    Between(Operand, Operand, Operand),
    /// The first operand is one of the others.
    OneOf(Operand, Vec<Operand>),
    /// The column is NULL.
    IsNull(u8),
    Not(Box<Condition>),
    /// A chain of operands of AND.
    And(Vec<Condition>),
    /// A chain of operands of OR.
    Or(Vec<Condition>),
}
