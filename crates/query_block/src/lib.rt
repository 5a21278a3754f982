//! What a query means, once its names are bound: a block of relations with filters, edges between them and a projection,
//! and the truth of a condition on a row.
//! To the layers above it promises that a block keeps its invariant (numbers that stand for something, operands of one
//! kind, no NULL literal), and that `truth` is the truth of SQL-92 on the values for which the words of a row stand. The
//! definitions of a query's rows, as a filtered product, stand here too.
//! It never reads a table, never looks up a name, and takes no memory to find a truth.
#![tactic(auto)]

mod block;
mod cell;
mod condition;
mod edge;
mod evaluate;
mod kind;
mod open;
mod predicate;
mod put;
mod row;
mod values;

pub use block::{Block, Relation, axis_of_edge, blocks_without_parameters_stay};
pub use condition::{Condition, Operand};
pub use edge::{ColumnAt, Edge};
pub use evaluate::{meets_filter, truth};
pub use kind::{Kind, holds_texts};
pub use open::is_open;
pub use values::ValueFault;
