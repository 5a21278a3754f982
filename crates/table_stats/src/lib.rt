//! The exact counts of a block's tables, and whether counts are still those of the tables.
//! To the layers above it promises that `stats_of` counts exactly, and refuses exactly where the tables have too many
//! combinations of rows, and that `fresh` finds the first count that isn't what it was.
//! It never pays for what it reads, looks at a row only where neither an index nor marks tell the count, and keeps nothing
//! but the counts.
#![tactic(auto)]

mod fault;
mod filter;
mod indexes;
mod kept;
mod law;
mod product;
mod staleness;
mod stats;

pub use fault::StatsFault;
pub use law::counts_fit_their_block;
pub use staleness::fresh;
pub use stats::stats_of;
