// A quick look at a contour's frontier, one point in every few. A plan often covers points that are near to each other, so most
// plans that cover some are found by this, without memory.
ghost use Rattle.std.specs.Prelude.{◌≡◌, ◌≤◌, All, IsTrue, true};
ghost use Rattle.sql_values.specs.Limits.{max_threshold};
ghost use Rattle.ess_grid.specs.Points.{IsPoint};
ghost use Rattle.query_block.specs.Blocks.{block_tree};
ghost use Rattle.plan_tree.specs.Plans.{plan_tree};
ghost use Rattle.plan_tree.specs.Enumerated.{IsPlan};
ghost use Rattle.cost_model.specs.Costing.{costing_tree};
ghost use Rattle.cost_model.specs.Greedy.{covers_at};
ghost use Rattle.plan_space.specs.Surface.{optimal_costs};
ghost use Rattle.learned_run.specs.Skips.{covers_above};

use crate::optima::optimal_at;
use cost_model::{Costing, is_covered};
use ess_grid::{Point, below};
use plan_tree::Plan;

// One point in so many is looked at.
const POINTS_A_PROBE: usize = 5;

/// What a plan is tested by where all optimal costs are known.
#[derive(Drop)]
pub(crate) struct CoverTest<'c> {
    /// What plans cost.
    pub(crate) costing: &'c Costing<'c>,
    /// The optimal costs at all points of the grid, in its order.
    pub(crate) costs: &'c [u128],
    /// How many percent more than the best plan a plan may cost at a point that it covers.
    pub(crate) threshold: u32,
}

// Whether a plan covers a point.
fn covers_at(test: &CoverTest<'_>, p: &Plan, point: &Point) -> bool
    requires costs { test.now.costs.now ≡ optimal_costs (costing_tree test.now.costing.now) }
    requires threshold { test.now.threshold ≤ max_threshold }
    requires plan { IsPlan (block_tree test.now.costing.now.block) (plan_tree p.now) }
    requires point { IsPoint test.now.costing.now.grid point.now }
    ensures { result ≡ covers_at (costing_tree test.now.costing.now) test.now.threshold
        (plan_tree p.now) point.now }
{
    let cost = test.costing.cost(p, point);
    let optimal = optimal_at(test.costing, test.costs, point);
    is_covered(cost, optimal, test.threshold)
}

/// Whether a plan is found to cover one of some points at or above this one: of each few points the last is looked at, from the
/// last on.
pub(crate) fn probe_covers(test: &CoverTest<'_>, p: &Plan, points: &[Point], point: &Point) -> bool
    requires costs { test.now.costs.now ≡ optimal_costs (costing_tree test.now.costing.now) }
    requires threshold { test.now.threshold ≤ max_threshold }
    requires plan { IsPlan (block_tree test.now.costing.now.block) (plan_tree p.now) }
    requires points { All (IsPoint test.now.costing.now.grid) points.now }
    ensures { IsTrue result → true ≡ covers_above (costing_tree test.now.costing.now)
        test.now.threshold (plan_tree p.now) point.now points.now }
{
    let count = points.len();
    for probe in 0..count.div_ceil(POINTS_A_PROBE) {
        let other = &points[count - 1 - probe * POINTS_A_PROBE];
        if below(point, other) && covers_at(test, p, other) {
            return true;
        }
    }
    false
}
