//! A run of a bouquet that learns: it skips the executions that those which were exhausted have ruled out.
//! To the layers above it promises, whatever a bouquet's costs say, that the rows of an answer are exactly those of the block,
//! that it skips exactly what is defined, that the work which is reported is exactly what was paid and what the definition of
//! the run says, and that it is within the bound where the bouquet is compiled and works are as costs say. A run refused leaves
//! no row.
//! It never changes a budget or the order of executions, never skips the last execution, and never looks at a table itself.
#![tactic(auto)]

mod corners;
mod frontiers;
mod learned;
mod lesson;
mod optima;
mod probes;
mod raise;
mod rows;
mod run;
mod tried;

pub use learned::{Learned, Skip};
pub use run::learn;
