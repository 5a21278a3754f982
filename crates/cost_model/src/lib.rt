//! What plans cost: the exact counts of a block's tables, these counts at a point of the grid, where a selectivity stands
//! for each parameter, how many rows each set of relations is taken to give there (its card), what each node of a plan costs
//! by itself (its price), and the cost of each plan.
//! The definitions of the exact counts, of the optimal cost and the best plan, of frontiers and of greedy reduction stand
//! here too, and a point of a frontier with its best plan, as plain data.
//! To the layers above it promises that `card`, `cost` and `own` are exactly those of the definitions, rounded up and
//! without loss of a bit, that cards and costs grow with selectivity, and that a plan costs the sum of its nodes' prices.
//! It never reads a table, never looks for a plan, and never takes memory.
#![tactic(auto)]

mod arithmetic;
mod at_point;
mod axes;
mod costing;
mod cover;
mod frontier_point;
mod law;
mod own;
mod plan_cost;
mod prices;
mod set;
mod set_cards;
mod stale;
mod stats;

pub use costing::Costing;
pub use cover::is_covered;
pub use frontier_point::FrontierPoint;
pub use law::{
    a_card_is_rounded_once, cards_see_the_set_alone, costs_are_bounded, costs_are_sums,
    costs_grow_with_selectivity, frontiers_lie_above, greedy_plans_cover_all_points,
    one_plan_is_best, optimal_costs_are_least,
};
pub use prices::{PriceRoom, Prices};
pub use set::set_count;
pub use stale::{CountName, Stale, check_count};
pub use stats::{IndexStats, RelationStats, Stats};
