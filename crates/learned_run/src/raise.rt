// How the least levels of the points that are left rise. Costs grow with selectivity, so these points are closed upwards, and
// on each axis the least level is the first at whose corner, the top but for this level, all plans cost more than their
// budgets. Where even the best plan costs more at these corners, nothing rises: so much the optimal costs tell, without a plan.
ghost use Rattle.std.specs.Prelude.{◌≡◌, ℕ, ◌<◌, IfSome, IsTrue, slice_index};
ghost use Rattle.ess_grid.specs.Points.{IsPoint, top_of};
ghost use Rattle.query_block.specs.Blocks.{block_tree};
ghost use Rattle.plan_tree.specs.Plans.{plan_tree};
ghost use Rattle.plan_tree.specs.Enumerated.{IsPlan};
ghost use Rattle.cost_model.specs.Costing.{costing_tree};
ghost use Rattle.cost_model.specs.Costs.{cost_of};
ghost use Rattle.cost_model.specs.Optimal.{optimal_cost};
ghost use Rattle.plan_space.specs.Surface.{optimal_costs};
ghost use Rattle.learned_run.specs.Raising.{IsLevelPast, IsRaised, RulesOut, corner_of};

use crate::corners::{corner, even, highest};
use crate::optima::optimal_at;
use cost_model::Costing;
use ess_grid::Point;
use plan_tree::Plan;
use sql_values::MAX_AXES;

// The least level on an axis, from this one on, at whose corner a plan costs more than a budget.
fn level_past(costing: &Costing<'_>, p: &Plan, budget: u128, axis: usize, before: u8) -> u8
    requires plan { IsPlan (block_tree costing.now.block) (plan_tree p.now) }
    requires axis { axis < costing.now.grid.axes }
    requires level { before < costing.now.grid.levels }
    requires top { budget < cost_of (costing_tree costing.now) (plan_tree p.now)
        (top_of costing.now.grid) }
    ensures level { IsLevelPast (costing_tree costing.now) (plan_tree p.now) budget axis before result }
    ensures of_grid { result < costing.now.grid.levels }
{
    let grid = costing.grid();
    let highest = highest(grid);
    for level in before..highest {
        if costing.cost(p, &corner(grid, axis, level)) > budget {
            return level;
        }
    }
    highest
}

// The point whose levels have risen so.
fn raised(costing: &Costing<'_>, p: &Plan, budget: u128, point: &Point) -> Point
    requires plan { IsPlan (block_tree costing.now.block) (plan_tree p.now) }
    requires point { IsPoint costing.now.grid point.now }
    requires top { budget < cost_of (costing_tree costing.now) (plan_tree p.now)
        (top_of costing.now.grid) }
    ensures { IsRaised (costing_tree costing.now) (plan_tree p.now) budget point.now result }
{
    let axes = costing.grid().axes();
    let before = point.levels();
    let mut levels = [0; MAX_AXES];
    for axis in 0..axes {
        levels[axis] = level_past(costing, p, budget, axis, before[axis]);
    }
    Point::new(&levels[..axes])
}

// Whether the optimal costs are above a budget at the top, and at the corner of each of a point's levels.
fn are_past(costing: &Costing<'_>, costs: &[u128], budget: u128, point: &Point) -> bool
    requires costs { costs.now ≡ optimal_costs (costing_tree costing.now) }
    requires point { IsPoint costing.now.grid point.now }
    ensures { let optimal = optimal_cost (costing_tree costing.now) in IsTrue result
        → (budget < optimal (top_of costing.now.grid))
        × ((axis : ℕ) → axis < costing.now.grid.axes → budget
        < optimal (corner_of costing.now.grid axis (slice_index point.now axis))) }
{
    let grid = costing.grid();
    let levels = point.levels();
    for axis in 0..grid.axes() {
        if optimal_at(costing, costs, &corner(grid, axis, levels[axis])) <= budget {
            return false;
        }
    }
    optimal_at(costing, costs, &even(grid, highest(grid))) > budget
}

/// The least levels of the points at which a plan costs more than a budget too, if there are points: of those that were left
/// before, with these least levels. The optimal costs at all points of the grid, in its order, are used where they are known.
pub(crate) fn rule_out(
    costing: &Costing<'_>,
    costs: Option<&[u128]>,
    least: Option<Point>,
    p: &Plan,
    budget: u128,
) -> Option<Point>
    requires plan { IsPlan (block_tree costing.now.block) (plan_tree p.now) }
    requires costs { IfSome costs (λ costs. costs.now ≡ optimal_costs (costing_tree costing.now)) }
    requires point { IfSome least (IsPoint costing.now.grid) }
    ensures levels { RulesOut (costing_tree costing.now) (plan_tree p.now) budget least result }
    ensures of_grid { IfSome result (IsPoint costing.now.grid) }
{
    let point = least?;
    if let Some(costs) = costs {
        if are_past(costing, costs, budget, &point) {
            return Some(point);
        }
    }
    if costing.cost(p, &point) > budget {
        return Some(point);
    }
    let grid = costing.grid();
    if costing.cost(p, &even(grid, highest(grid))) <= budget {
        return None;
    }
    Some(raised(costing, p, budget, &point))
}
