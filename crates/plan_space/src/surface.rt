// The optimal cost at each point of a grid, and the frontiers.
ghost use Rattle.std.specs.Prelude.{◌≡◌, ◌<◌, ◌≤◌, All, IfOk, IfSome, Some, length, map};
ghost use Rattle.sql_values.specs.Limits.{max_contour_cost};
ghost use Rattle.ess_grid.specs.Points.{points_of, bottom_of, top_of};
ghost use Rattle.cost_model.specs.Costing.{costing_tree, IsCosting};
ghost use Rattle.cost_model.specs.Optimal.{optimal_cost};
ghost use Rattle.cost_model.specs.Frontier.{frontier, is_on_frontier};
ghost use Rattle.plan_space.specs.Places.{HoldsAt};
ghost use Rattle.plan_space.specs.Surface.{optimal_costs};
ghost use Rattle.plan_space.specs.SurfacePoints.{IsSurfacePoint};

use crate::reach::all_costs;
use crate::reached::Reached;
use cost_model::Costing;
use ess_grid::Point;
use std::alloc::{AllocError, Global};
use std::marker::Model;

/// A point of a frontier.
#[derive(Drop)]
pub struct SurfacePoint {
    /// The point.
    pub point: Point,
    /// The optimal cost there, in units of work.
    pub cost: u128,
}

/// The optimal costs at the points of a costing's grid, by the places of points. They decide which
/// points are on which frontier.
#[derive(Drop)]
pub struct CostSurface<'c> {
    costing: &'c Costing<'c>,
    // The optimal cost at each point.
    costs: Vec<u128>,
}

impl<'c> Model for CostSurface<'c> {
    ghost use Rattle.query_block.specs.contracts.condition.Condition as condition;
    ghost use Rattle.std.specs.Coded.{codes};
    ghost use Rattle.std.specs.Prelude.{◌≡◌};
    ghost use Rattle.cost_model.specs.Costing.{CostingShape, IsCosting, costing_tree};
    ghost use Rattle.plan_space.specs.Surface.{optimal_costs};

    ghost Value = { CostingShape };

    ghost coded = { Prim.hlevel (codes, condition.the_row.coded) };

    ghost view = { λ s. s.costing.now };

    ghost invariant = { λ s. IsCosting (costing_tree s.costing.now)
        × (s.costs.items ≡ optimal_costs (costing_tree s.costing.now)) };
}

impl<'c> CostSurface<'c> {
    // That of a costing by these optimal costs.
    pub(crate) fn by_costs(costing: &'c Costing<'c>, costs: Vec<u128>) -> CostSurface<'c>
        requires { costs.items ≡ optimal_costs (costing_tree costing.now) }
        ensures { result ≡ costing.now }
    {
        let _block = costing.block();
        CostSurface { costing, costs }
    }

    /// That of a costing. Where the optimal costs at all points of the grid are known, in its order, they aren't worked out
    /// again. The only error is out of memory.
    pub fn new(
        alloc: Global,
        costing: &'c Costing<'c>,
        known: Option<&[u128]>,
    ) -> Result<CostSurface<'c>, AllocError>
        requires { IfSome known (λ costs. costs.now ≡ optimal_costs (costing_tree costing.now)) }
        ensures { IfOk result (λ surface. surface ≡ costing.now) }
    {
        let costs = match known {
            Some(costs) => Vec::from_slice(alloc, costs)?,
            None => all_costs(alloc, costing)?,
        };
        Ok(CostSurface::by_costs(costing, costs))
    }

    /// The costing.
    pub fn costing(&self) -> &Costing<'c>
        ensures same { result.now ≡ self.now }
        ensures costing { IsCosting (costing_tree self.now) }
    {
        self.costing
    }

    /// The optimal costs at all points, in the grid's order.
    pub fn costs(&self) -> &[u128]
        ensures { result.now ≡ optimal_costs (costing_tree self.now) }
    {
        &self.costs
    }

    /// The optimal cost at the bottom of the grid.
    pub fn bottom_cost(&self) -> u128
        ensures { result ≡ optimal_cost (costing_tree self.now) (bottom_of self.now.grid) }
    {
        prove!(self.costing.grid().points() > 0);
        self.costs[0]
    }

    /// The optimal cost at its top.
    pub fn top_cost(&self) -> u128
        ensures { result ≡ optimal_cost (costing_tree self.now) (top_of self.now.grid) }
    {
        self.costs[self.costing.grid().points() - 1]
    }

    // The costs that are at most this one.
    fn reached(&self, cost: u128) -> Reached<'_>
        requires { cost ≤ max_contour_cost }
        ensures { result ≡ record { costing = self.now; cost = cost } }
    {
        Reached::new(self.costing, &self.costs, cost)
    }

    /// Whether the point at this place of the grid, from 0, is on the frontier of a contour of this cost.
    pub fn is_on_frontier(&self, cost: u128, place: usize) -> bool
        requires cost { cost ≤ max_contour_cost }
        requires place { place < length (points_of self.now.grid) }
        ensures { HoldsAt self.now.grid place
            (λ point. result ≡ is_on_frontier (costing_tree self.now) cost point) }
    {
        self.reached(cost).is_on_frontier(place)
    }

    /// The points of the frontier of a contour of this cost, in the grid's order. The only error is out of memory.
    pub fn frontier(&self, alloc: Global, cost: u128) -> Result<Vec<SurfacePoint>, AllocError>
        requires { cost ≤ max_contour_cost }
        ensures points { IfOk result (λ found.
            map (λ at. at.point) found.items ≡ frontier (costing_tree self.now) cost) }
        ensures each { IfOk result (λ found.
            All (IsSurfacePoint (costing_tree self.now)) found.items) }
    {
        self.reached(cost).frontier(alloc)
    }
}
