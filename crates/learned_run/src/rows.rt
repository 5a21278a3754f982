// The rows of a contour's frontier, one for each of its points, made with nothing worked out of which plans cover them.
ghost use Rattle.std.specs.Prelude.{◌≡◌, ◌≤◌, All, IfOk, map};
ghost use Rattle.sql_values.specs.Limits.{max_contour_cost};
ghost use Rattle.ess_grid.specs.Points.{IsPoint};
ghost use Rattle.cost_model.specs.Costing.{costing_tree};
ghost use Rattle.cost_model.specs.Frontier.{frontier};
ghost use Rattle.plan_space.specs.Surface.{optimal_costs};
ghost use Rattle.learned_run.specs.Covering.{bare_row};

use crate::optima::optimal_at;
use cost_model::Costing;
use ess_grid::Point;
use plan_space::CostSurface;
use std::alloc::{AllocError, Global};

/// A point of a contour's frontier.
#[derive(Drop)]
pub(crate) struct FrontierRow {
    /// The point.
    pub(crate) point: Point,
    /// The optimal cost there, in units of work.
    pub(crate) cost: u128,
    /// For each plan of the contour, in order, whether it covers the point. None while that isn't worked out.
    pub(crate) covers: Option<Vec<bool>>,
}

/// The rows of these points, by the optimal costs of all points of the grid, in its order. Fails only if memory runs out.
pub(crate) fn kept_rows(
    alloc: Global,
    costing: &Costing<'_>,
    costs: &[u128],
    points: &[Point],
) -> Result<Vec<FrontierRow>, AllocError>
    requires costs { costs.now ≡ optimal_costs (costing_tree costing.now) }
    requires points { All (IsPoint costing.now.grid) points.now }
    ensures { IfOk result (λ rows. rows.items
        ≡ map (bare_row (costing_tree costing.now)) points.now) }
{
    let mut rows = Vec::with_capacity(alloc, points.len())?;
    for point in points {
        rows.push(FrontierRow {
            point: *point,
            cost: optimal_at(costing, costs, point),
            covers: None,
        })?;
    }
    Ok(rows)
}

/// The rows of the frontier of a contour of this cost. Fails only if memory runs out.
pub(crate) fn found_rows(
    alloc: Global,
    surface: &CostSurface<'_>,
    cost: u128,
) -> Result<Vec<FrontierRow>, AllocError>
    requires { cost ≤ max_contour_cost }
    ensures { IfOk result (λ rows. rows.items
        ≡ map (bare_row (costing_tree surface.now)) (frontier (costing_tree surface.now) cost)) }
{
    let frontier = surface.frontier(alloc, cost)?;
    let points = frontier.as_slice();
    let mut rows = Vec::with_capacity(alloc, points.len())?;
    for at in points {
        rows.push(FrontierRow {
            point: at.point,
            cost: at.cost,
            covers: None,
        })?;
    }
    Ok(rows)
}
