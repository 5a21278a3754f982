//! Fewer plans for a contour: of the best plans at the points of its frontier those that greedy reduction takes, so that
//! each point is covered by one of them.
//! To the layers above it promises that `reduce` and `reduce_frontier` answer exactly the plans of the definition, in the
//! order in which they are taken.
//! It never looks for a plan, and never looks at a point that it isn't given.
#![tactic(auto)]

mod cover;
mod reduction;
mod turn;

pub use reduction::{reduce, reduce_frontier};
