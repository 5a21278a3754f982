//! What the executions of a run have seen of numbers of rows: how many rows each set of a block's relations has at the
//! least, how many entries of an index each edge finds for these rows, and the least work that a plan can take by it.
//! To the layers above it promises that what is learned of a set is known of it, that nothing known is forgotten, and that
//! `least_work` is exactly the least work of the definition, up to 2^128 - 1. By a law no plan works less, as long as what
//! is known is so. So a plan whose least work is more than its budget exceeds its budget.
//! It never reads a row, never guesses a number, and never takes memory.
#![tactic(auto)]

mod known;
mod law;
mod least;

pub use known::KnownRows;
pub use law::{
    no_plan_works_less_than_the_least, nothing_is_known_at_first, what_is_allowed_is_known,
    what_is_found_is_known, what_is_learned_is_known,
};
