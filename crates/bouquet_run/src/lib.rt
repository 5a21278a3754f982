//! The run of a bouquet: its plans are executed one after another under its budgets, until one is done; its rows are the
//! answer.
//! To the layers above it promises, whatever a bouquet's costs say, that the rows of an answer are exactly those of the
//! block, that the work which is reported is exactly what was paid and what the definition of a run says, that it is within
//! the bound where the bouquet is sound and works are as costs say, and that a run refused leaves no row. A book takes in
//! what each run paid, and nothing else.
//! It never looks at a cost or at a count, never chooses between plans, and never works out a budget.
#![tactic(auto)]

mod attempts;
mod book;
mod step;

pub use attempts::{run, run_ladder};
pub use book::Book;
pub use step::execute;
