//! Bouquets: a few plans of a block on each of some contours, whose budgets double.
//! To the layers above it promises that a bouquet keeps its invariant, that `budget` and `most` are those of the definitions,
//! and that a `Schedule` gives the executions, each once and in order, whatever ladder it climbs: contours that are there, or
//! contours that are made one by one. What a compiled bouquet is, when one is sound, how a run over one goes, and the law that
//! the work of a run of a sound bouquet meets the bound, stand here too.
//! It never holds a plan that isn't one of the block, never looks for one, never executes one, and never takes memory itself.
#![tactic(auto)]

mod bouquet;
mod contour;
mod kept;
mod ladder;
mod law;
mod outline;
mod report;
mod schedule;

pub use bouquet::Bouquet;
pub use contour::Contour;
pub use kept::Kept;
pub use ladder::Ladder;
pub use law::{
    a_run_ends_with_the_first_that_fits, a_sound_bouquet_meets_the_bound,
    there_is_one_compiled_bouquet,
};
pub use outline::Outline;
pub use report::{Report, RunFault};
pub use schedule::{Attempt, Schedule};
