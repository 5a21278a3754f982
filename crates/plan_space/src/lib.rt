//! The best plan of a block at a point of the grid: of all plans of the block the cheapest there, and
//! of equally cheap ones the first in plan order. And the frontiers of a block: the points of each
//! with their best plans, looked at only as far as the frontier lies.
//! To the layers above it promises that `best` answers exactly that plan and its cost, over all
//! bushy shapes, products, indexes and edges, that a `CostSurface` tells exactly which points are on
//! the frontier of a cost, and that an `Outlook` gives them with their best plans, each once.
//! It never lists the plans, never says what a node costs, never looks at a table, and takes memory
//! for its answers alone.
#![tactic(auto)]

mod alike;
mod best_plans;
mod costed_plans;
mod entry;
mod joins;
mod kept_rows;
mod leaves;
mod node;
mod outlook;
mod part_costs;
mod part_sums;
mod parts;
mod reach;
mod reached;
mod search;
mod sets;
mod steps;
mod surface;
mod table;

pub use costed_plans::CostedPlans;
pub use outlook::{FrontierPlans, Outlook};
pub use search::best;
pub use surface::{CostSurface, SurfacePoint};
