// The points of a grid at which the optimal cost is at most so much. Costs grow with selectivity: where a point costs more, so does
// each point above it, and these aren't asked for.
ghost use Rattle.std.specs.Prelude.{◌≡◌, ◌+◌, ◌<◌, ◌≤◌, IfOk, IsTrue, OnOk, length};
ghost use Rattle.sql_values.specs.Limits.{max_contour_cost};
ghost use Rattle.ess_grid.specs.Points.{points_of};
ghost use Rattle.cost_model.specs.Costing.{costing_tree};
ghost use Rattle.plan_space.specs.Surface.{optimal_costs};
ghost use Rattle.plan_space.specs.KnownCosts.{AreAllReached, AreKnownCosts, AreReached, IsBeyond};

use crate::best_plans::BestPlans;
use cost_model::Costing;
use ess_grid::Grid;
use sql_values::MAX_CONTOUR_COST;
use std::alloc::{AllocError, Global};

// Whether more than this cost stands at a point that is next below the one at this place: on each axis the next point below stands
// levels to the power of the axis before it.
fn is_beyond(grid: &Grid, costs: &[u128], cost: u128, place: usize) -> bool
    requires place { place < length (points_of grid.now) }
    requires long { length costs.now ≡ length (points_of grid.now) }
    ensures { IsTrue result → IsBeyond grid.now costs.now cost place }
{
    let levels = grid.levels();
    let mut rest = place;
    let mut stride = 1;
    for _axis in 0..grid.axes() {
        if rest % levels > 0 && costs[place - stride] > cost {
            return true;
        }
        rest /= levels;
        stride *= levels;
    }
    false
}

// Comes to the point at this place: it is asked for unless its cost is known, or a point next below costs more. An error is want
// of memory.
fn reach_place(
    best: &mut BestPlans<'_>,
    costs: &mut [u128],
    cost: u128,
    place: usize,
) -> Result<(), AllocError>
    requires cost { cost ≤ max_contour_cost }
    requires place { place < length (points_of best.old.grid) }
    requires reached { AreReached (costing_tree best.old) cost place costs.old }
    ensures known { AreKnownCosts (costing_tree best.old) costs.new }
    ensures reached { OnOk result (AreReached (costing_tree best.old) cost (place + 1) costs.new) }
    ensures same { best.new ≡ best.old }
{
    if costs[place] != u128::MAX {
        return Ok(());
    }
    if is_beyond(best.costing().grid(), costs, cost, place) {
        return Ok(());
    }
    costs[place] = best.cost(place)?;
    Ok(())
}

/// Finds the optimal costs that are at most this one, where they aren't known yet. The only error is out of memory.
pub(crate) fn reach(
    best: &mut BestPlans<'_>,
    costs: &mut [u128],
    cost: u128,
) -> Result<(), AllocError>
    requires cost { cost ≤ max_contour_cost }
    requires known { AreKnownCosts (costing_tree best.old) costs.old }
    ensures known { AreKnownCosts (costing_tree best.old) costs.new }
    ensures reached { OnOk result (AreAllReached (costing_tree best.old) cost costs.new) }
    ensures same { best.new ≡ best.old }
{
    for place in 0..costs.len() {
        reach_place(best, costs, cost, place)?;
    }
    Ok(())
}

/// A number for each point of the grid, none of which is known. The only error is out of memory.
pub(crate) fn unknown_costs(alloc: Global, costing: &Costing<'_>) -> Result<Vec<u128>, AllocError>
    ensures { IfOk result (λ costs. AreKnownCosts (costing_tree costing.now) costs.items) }
{
    vec![in alloc; u128::MAX; costing.grid().points()]
}

/// The optimal costs at all points, in the grid's order. The only error is out of memory.
pub(crate) fn all_costs(alloc: Global, costing: &Costing<'_>) -> Result<Vec<u128>, AllocError>
    ensures { IfOk result (λ costs. costs.items ≡ optimal_costs (costing_tree costing.now)) }
{
    let _block = costing.block();
    let mut best = BestPlans::new(alloc, costing)?;
    let mut costs = unknown_costs(alloc, costing)?;
    reach(&mut best, costs.as_mut_slice(), MAX_CONTOUR_COST)?;
    Ok(costs)
}
