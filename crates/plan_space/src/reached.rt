// The frontier of a cost: the points that cost at most so much, and above which each next point costs more.
ghost use Rattle.std.specs.Prelude.{◌≡◌, ◌<◌, ◌≤◌, All, IfOk, IsTrue, Some, length, map, true};
ghost use Rattle.std.specs.List.{list_any};
ghost use Rattle.sql_values.specs.Limits.{max_contour_cost};
ghost use Rattle.ess_grid.specs.Points.{IsGrid, points_of, point_at};
ghost use Rattle.ess_grid.specs.Order.{successors};
ghost use Rattle.cost_model.specs.Costing.{IsCosting, costing_tree};
ghost use Rattle.cost_model.specs.Frontier.{frontier, is_on_frontier, is_within_cost};
ghost use Rattle.plan_space.specs.Places.{HoldsAt};
ghost use Rattle.plan_space.specs.SurfacePoints.{IsSurfacePoint};
ghost use Rattle.plan_space.specs.KnownCosts.{AreAllReached};

use crate::surface::SurfacePoint;
use cost_model::Costing;
use std::alloc::{AllocError, Global};
use std::marker::Model;

/// The optimal costs that are at most this one, by the places of points; what stands at other places is more.
#[derive(Drop)]
pub(crate) struct Reached<'r> {
    costing: &'r Costing<'r>,
    costs: &'r [u128],
    cost: u128,
}

impl<'r> Model for Reached<'r> {
    ghost use Rattle.query_block.specs.contracts.condition.Condition as condition;
    ghost use Rattle.std.specs.Coded.{codes};
    ghost use Rattle.plan_space.specs.KnownCosts.{IsReached, ReachedShape};

    ghost Value = { ReachedShape };

    ghost coded = { Prim.hlevel (codes, condition.the_row.coded) };

    ghost view = { λ r. record { costing = r.costing.now; cost = r.cost } };

    ghost invariant = { λ r. IsReached (record { costing = r.costing.now; cost = r.cost }) r.costs.now };
}

impl<'r> Reached<'r> {
    /// Those of a costing.
    pub(crate) fn new(costing: &'r Costing<'r>, costs: &'r [u128], cost: u128) -> Reached<'r>
        requires cost { cost ≤ max_contour_cost }
        requires costs { AreAllReached (costing_tree costing.now) cost costs.now }
        ensures { result ≡ record { costing = costing.now; cost = cost } }
    {
        let _block = costing.block();
        Reached {
            costing,
            costs,
            cost,
        }
    }

    // How many points the grid has.
    fn points(&self) -> usize
        ensures count { result ≡ length (points_of self.now.costing.grid) }
        ensures grid { IsGrid self.now.costing.grid }
    {
        self.costing.grid().points()
    }

    // Whether the optimal cost at the point at this place is at most this one.
    fn is_within_cost(&self, place: usize) -> bool
        requires { place < length (points_of self.now.costing.grid) }
        ensures { HoldsAt self.now.costing.grid place
            (λ point. result ≡ is_within_cost (costing_tree self.now.costing) self.now.cost point) }
    {
        let costs = self.costs;
        costs[place] <= self.cost
    }

    // Whether the optimal cost is at most this one at a point that is next above the one at this place: on each axis the next point
    // stands levels to the power of the axis further on.
    fn has_successor_within(&self, place: usize) -> bool
        requires { place < length (points_of self.now.costing.grid) }
        ensures { HoldsAt self.now.costing.grid place (λ point. result
            ≡ list_any (is_within_cost (costing_tree self.now.costing) self.now.cost)
            (successors self.now.costing.grid point)) }
    {
        let grid = self.costing.grid();
        let levels = grid.levels();
        let mut rest = place;
        let mut stride = 1;
        for _axis in 0..grid.axes() {
            if rest % levels + 1 < levels && self.is_within_cost(place + stride) {
                return true;
            }
            rest /= levels;
            stride *= levels;
        }
        false
    }

    /// Whether the point at this place of the grid, from 0, is on the frontier.
    pub(crate) fn is_on_frontier(&self, place: usize) -> bool
        requires { place < length (points_of self.now.costing.grid) }
        ensures { HoldsAt self.now.costing.grid place
            (λ point. result ≡ is_on_frontier (costing_tree self.now.costing) self.now.cost point) }
    {
        self.is_within_cost(place) && !self.has_successor_within(place)
    }

    // The point at a place, with the optimal cost there.
    fn surface_point(&self, place: usize) -> SurfacePoint
        requires place { place < length (points_of self.now.costing.grid) }
        requires within { HoldsAt self.now.costing.grid place (λ point.
            IsTrue (is_within_cost (costing_tree self.now.costing) self.now.cost point)) }
        ensures point { point_at self.now.costing.grid place ≡ Some result.point }
        ensures cost { IsSurfacePoint (costing_tree self.now.costing) result }
    {
        let costs = self.costs;
        SurfacePoint {
            point: self.costing.grid().point(place),
            cost: costs[place],
        }
    }

    /// The points of the frontier, in the grid's order. The only error is out of memory.
    pub(crate) fn frontier(&self, alloc: Global) -> Result<Vec<SurfacePoint>, AllocError>
        ensures points { IfOk result (λ found. map (λ at. at.point) found.items
            ≡ frontier (costing_tree self.now.costing) self.now.cost) }
        ensures each { IfOk result (λ found.
            All (IsSurfacePoint (costing_tree self.now.costing)) found.items) }
    {
        let mut found = Vec::new(alloc);
        for place in 0..self.points() {
            if self.is_on_frontier(place) {
                found.push(self.surface_point(place))?;
            }
        }
        Ok(found)
    }
}
