// What statements and conditions are made of. The definitions see them as the trees of `specs/Trees.antt`.

use sql_values::{ColumnDef, Op, Sequence, Text, Value};

/// A name, in upper case.
pub type Name = Text;

/// CREATE TABLE.
#[derive(Drop)]
pub struct TableDef {
    pub name: Name,
    /// At least one.
    pub columns: Sequence<ColumnDef>,
}

/// CREATE INDEX.
#[derive(Drop)]
pub struct IndexDef {
    pub name: Name,
    pub table: Name,
    pub column: Name,
}

/// LOAD.
#[derive(Drop)]
pub struct LoadDef {
    pub file: Text,
    pub table: Name,
}

/// COMPILE. Levels and threshold are none where they aren't written.
#[derive(Drop)]
pub struct CompileDef {
    pub name: Name,
    pub levels: Option<u64>,
    pub threshold: Option<u64>,
    pub query: Query,
}

/// SAVE.
#[derive(Drop)]
pub struct FileDef {
    pub name: Name,
    pub file: Text,
}

/// OPEN.
#[derive(Drop)]
pub struct OpenDef {
    pub name: Name,
    pub file: Text,
    pub query: Query,
}

/// RUN, or LEARN. Without USING there are no values.
#[derive(Drop)]
pub struct RunDef {
    pub name: Name,
    /// The values of the query's parameters, in order; never NULL.
    pub values: Sequence<Value>,
}

/// TURNS. Without BY there are no numbers.
#[derive(Drop)]
pub struct TurnsDef {
    /// The bouquets, at least one, each with its values.
    pub uses: Sequence<RunDef>,
    /// Whose turn it is, from 1, in order.
    pub by: Sequence<u64>,
}

/// AUDIT. Without AT there are no levels, and without USING no values.
#[derive(Drop)]
pub struct AuditDef {
    pub name: Name,
    pub levels: Sequence<u64>,
    /// The values of the query's parameters, in order; never NULL.
    pub values: Sequence<Value>,
}

/// A query (SQL-92, 7.9).
#[derive(Drop)]
pub struct Query {
    /// The columns in the order in which they are written, at least one; none for `*`.
    pub columns: Option<Sequence<ColRef>>,
    /// The tables, at least one.
    pub from: Sequence<Item>,
    /// The condition after WHERE.
    pub condition: Option<Cond>,
}

/// A table of FROM. Where no alias is written, it is the table's name.
#[derive(Drop)]
pub struct Item {
    pub table: Name,
    pub alias: Name,
}

/// A column as a query writes it.
#[derive(Drop)]
pub struct ColRef {
    pub alias: Option<Name>,
    pub column: Name,
}

/// An operand of a predicate.
#[derive(Drop)]
pub enum Term {
    Column(ColRef),
    /// A number or a text; never NULL.
    Literal(Value),
    /// A parameter, by its number in the statement, from 0 in written order.
    Parameter(u32),
}

/// A condition (SQL-92, 8.12). In a predicate, true stands for the predicate's own NOT.
#[derive(Drop)]
pub enum Cond {
    Compare(Op, Term, Term),
    /// The first term lies between the second and the third.
    Between(bool, Term, Term, Term),
    /// The first term is one of the others, of which there is at least one.
    OneOf(bool, Term, Sequence<Term>),
    IsNull(bool, ColRef),
    Not(Box<Cond>),
    /// A chain of two or more operands of AND.
    And(Vec<Cond>),
    /// A chain of two or more operands of OR.
    Or(Vec<Cond>),
}
