//! The compiled bouquet of a block: contours whose costs double from the optimal cost at the bottom of the grid to that at
//! its top, each with the few plans that greedy reduction takes for its frontier.
//! To the layers above it promises that `compile` answers exactly the defined bouquet, that `Lazy` climbs the very same one
//! and makes a contour only when it is climbed to, and that this bouquet is sound.
//! It never reads a row, and never executes a plan.
#![tactic(auto)]

mod compiled;
mod contours;
mod law;
mod lazy;
mod maker;

pub use compiled::compile;
pub use law::compiled_bouquets_are_sound;
pub use lazy::Lazy;
