//! From a query to its block: names become numbers, the conjuncts of WHERE become filters and edges.
//! To the layer above it promises exactly the block of the definitions, which fits the database, or the first check that
//! fails, in their order; out of memory is its only other refusal.
//! It never reads a row, and changes neither the database nor the query.
#![tactic(auto)]

mod axes;
mod binding;
mod bound;
mod conjuncts;
mod fault;
mod from;
mod located;
mod names;
mod projection;
mod reach;
mod scope;
mod walk;

pub use binding::bind;
pub use fault::BindFault;
