// The optimal costs that a bouquet keeps.
ghost use Rattle.std.specs.Prelude.{◌≡◌};
ghost use Rattle.ess_grid.specs.Points.{IsPoint};
ghost use Rattle.cost_model.specs.Costing.{costing_tree};
ghost use Rattle.cost_model.specs.Optimal.{optimal_cost};
ghost use Rattle.plan_space.specs.Surface.{optimal_costs};

use cost_model::Costing;
use ess_grid::Point;

/// The optimal cost at a point, by those at all points of the grid, in its order.
pub(crate) fn optimal_at(costing: &Costing<'_>, costs: &[u128], point: &Point) -> u128
    requires costs { costs.now ≡ optimal_costs (costing_tree costing.now) }
    requires point { IsPoint costing.now.grid point.now }
    ensures { result ≡ optimal_cost (costing_tree costing.now) point.now }
{
    costs[costing.grid().place_of(point)]
}
