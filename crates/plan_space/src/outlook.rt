// The frontiers of a block with the plans that are best there. What is found for one frontier is kept for the next.
ghost use Rattle.std.specs.Prelude.{ℕ, ◌≡◌, ◌+◌, ◌<◌, ◌≤◌, All, IfOk, IsTrue, List, OnOk, length};
ghost use Rattle.sql_values.specs.Limits.{max_contour_cost};
ghost use Rattle.ess_grid.specs.Points.{bottom_of, top_of};
ghost use Rattle.query_block.specs.Blocks.{block_tree};
ghost use Rattle.plan_tree.specs.Plans.{plan_tree};
ghost use Rattle.cost_model.specs.Best.{IsBest};
ghost use Rattle.cost_model.specs.Costing.{costing_tree, IsCosting};
ghost use Rattle.cost_model.specs.Frontier.{frontier};
ghost use Rattle.cost_model.specs.Optimal.{optimal_cost};
ghost use Rattle.plan_space.specs.Alike.{LeastAt};
ghost use Rattle.plan_space.specs.Surface.{optimal_costs};
ghost use Rattle.plan_space.specs.SurfacePoints.{IsSurfacePoint, surface_points};
ghost use Rattle.plan_space.specs.Table.{AllStand};
ghost use Rattle.plan_space.specs.FrontierPlans.{AreFrontierPlans, HasBest, HoldsBest};

use crate::best_plans::BestPlans;
use crate::entry::Entry;
use crate::reach::{reach, unknown_costs};
use crate::reached::Reached;
use crate::search::{rebuilt, tells};
use crate::sets::set_of_all;
use crate::surface::SurfacePoint;
use cost_model::Costing;
use plan_tree::Plan;
use sql_values::MAX_CONTOUR_COST;
use std::alloc::{AllocError, Global};
use std::marker::Model;

/// A frontier: its points, and the plans that are best there.
#[derive(Drop)]
pub struct FrontierPlans {
    /// The points, in the grid's order, with the optimal costs there.
    pub points: Vec<SurfacePoint>,
    /// The plans that are best at these points, in the order in which they were found.
    pub plans: Vec<Plan>,
}

/// What is best at points of a costing's grid, by which frontiers are found. Points are looked at as they are asked for: those that
/// cost at most so much, and no point above one that costs more.
#[derive(Drop)]
pub struct Outlook<'c> {
    best: BestPlans<'c>,
    // The optimal cost at the point of each place; `u128::MAX` where it isn't known yet.
    costs: Vec<u128>,
    // Those at the bottom and at the top of the grid.
    bottom: u128,
    top: u128,
}

impl<'c> Model for Outlook<'c> {
    ghost use Rattle.query_block.specs.contracts.condition.Condition as condition;
    ghost use Rattle.std.specs.Coded.{codes};
    ghost use Rattle.cost_model.specs.Costing.{CostingShape};
    ghost use Rattle.plan_space.specs.KnownCosts.{IsOutlook};

    ghost Value = { CostingShape };

    ghost coded = { Prim.hlevel (codes, condition.the_row.coded) };

    ghost view = { λ o. o.best };

    ghost invariant = { λ o. IsOutlook o.best o.costs.items o.bottom o.top };
}

// Whether one of these plans is the best one at the point of which this is the row. The last ones are looked at first, since
// points that lie together often have the same plan.
fn has_plan(costing: &Costing<'_>, row: &[Entry; 64], plans: &[Plan]) -> bool
    requires { AllStand (block_tree costing.now.block) row.now }
    ensures { IsTrue result → (point : List ℕ) → LeastAt costing.now row.now point →
        HasBest (costing_tree costing.now) plans.now point }
{
    let block = costing.block();
    let all = set_of_all(block);
    for later in 0..plans.len() {
        let number = plans.len() - 1 - later;
        if tells(block, row, all, &plans[number]) {
            return true;
        }
    }
    false
}

// The best plan at the point of which this is the row.
fn plan_of(alloc: Global, costing: &Costing<'_>, row: &[Entry; 64]) -> Result<Plan, AllocError>
    requires { AllStand (block_tree costing.now.block) row.now }
    ensures { IfOk result (λ p. (point : List ℕ) → LeastAt costing.now row.now point →
        IsBest (costing_tree costing.now) point (plan_tree p)) }
{
    let block = costing.block();
    let p = rebuilt(alloc, block, row, set_of_all(block))?;
    Ok(p)
}

// Adds the best plan at the next of some points, where it isn't there.
fn add_plan(
    alloc: Global,
    best: &BestPlans<'_>,
    points: &[SurfacePoint],
    number: usize,
    plans: &mut Vec<Plan>,
) -> Result<(), AllocError>
    requires points { All (IsSurfacePoint (costing_tree best.now)) points.now }
    requires number { number < length points.now }
    requires known { HoldsBest
        (costing_tree best.now) (surface_points points.now) number plans.old.items }
    ensures { OnOk result (HoldsBest
        (costing_tree best.now) (surface_points points.now) (number + 1) plans.new.items) }
{
    let costing = best.costing();
    let row = best.row(costing.grid().place_of(&points[number].point));
    if has_plan(costing, &row, plans.as_slice()) {
        return Ok(());
    }
    plans.push(plan_of(alloc, costing, &row)?)?;
    Ok(())
}

// The best plans at some points, each once.
fn plans_at(
    alloc: Global,
    best: &BestPlans<'_>,
    points: &[SurfacePoint],
) -> Result<Vec<Plan>, AllocError>
    requires { All (IsSurfacePoint (costing_tree best.now)) points.now }
    ensures { IfOk result (λ plans. HoldsBest
        (costing_tree best.now) (surface_points points.now) (length points.now) plans.items) }
{
    let mut plans = Vec::new(alloc);
    for number in 0..points.len() {
        add_plan(alloc, best, points, number, &mut plans)?;
    }
    Ok(plans)
}

impl<'c> Outlook<'c> {
    /// That of a costing. Only the points at the bottom and at the top of the grid are looked at. The only error is out of memory.
    pub fn new(alloc: Global, costing: &'c Costing<'c>) -> Result<Outlook<'c>, AllocError>
        ensures { IfOk result (λ outlook. outlook ≡ costing.now) }
    {
        let _block = costing.block();
        let points = costing.grid().points();
        let mut best = BestPlans::new(alloc, costing)?;
        let bottom = best.cost(0)?;
        let top = best.cost(points - 1)?;
        let costs = unknown_costs(alloc, costing)?;
        Ok(Outlook {
            best,
            costs,
            bottom,
            top,
        })
    }

    /// The costing.
    pub fn costing(&self) -> &'c Costing<'c>
        ensures same { result.now ≡ self.now }
        ensures costing { IsCosting (costing_tree self.now) }
    {
        self.best.costing()
    }

    /// The optimal cost at the bottom of the grid.
    pub fn bottom_cost(&self) -> u128
        ensures { result ≡ optimal_cost (costing_tree self.now) (bottom_of self.now.grid) }
    {
        self.bottom
    }

    /// The optimal cost at its top.
    pub fn top_cost(&self) -> u128
        ensures { result ≡ optimal_cost (costing_tree self.now) (top_of self.now.grid) }
    {
        self.top
    }

    /// The optimal costs at all points, in the grid's order. Those that aren't known yet are found. The only error is out of
    /// memory.
    pub fn costs(&mut self, alloc: Global) -> Result<Vec<u128>, AllocError>
        ensures costs { IfOk result (λ costs. costs.items ≡ optimal_costs (costing_tree self.old)) }
        ensures same { self.new ≡ self.old }
    {
        reach(&mut self.best, self.costs.as_mut_slice(), MAX_CONTOUR_COST)?;
        let costs = Vec::from_slice(alloc, self.costs.as_slice())?;
        Ok(costs)
    }

    // The points of the frontier of a contour of this cost.
    fn points(&mut self, alloc: Global, cost: u128) -> Result<Vec<SurfacePoint>, AllocError>
        requires { cost ≤ max_contour_cost }
        ensures points { IfOk result (λ found.
            surface_points found.items ≡ frontier (costing_tree self.old) cost) }
        ensures each { IfOk result (λ found.
            All (IsSurfacePoint (costing_tree self.old)) found.items) }
        ensures same { self.new ≡ self.old }
    {
        reach(&mut self.best, self.costs.as_mut_slice(), cost)?;
        Reached::new(self.best.costing(), self.costs.as_slice(), cost).frontier(alloc)
    }

    /// The frontier of a contour of this cost. A plan that is best at several points is made once. The only error is out of
    /// memory.
    pub fn frontier(&mut self, alloc: Global, cost: u128) -> Result<FrontierPlans, AllocError>
        requires { cost ≤ max_contour_cost }
        ensures points { IfOk result (λ found.
            surface_points found.points.items ≡ frontier (costing_tree self.old) cost) }
        ensures plans { IfOk result (AreFrontierPlans (costing_tree self.old)) }
        ensures same { self.new ≡ self.old }
    {
        let points = self.points(alloc, cost)?;
        let plans = plans_at(alloc, &self.best, points.as_slice())?;
        Ok(FrontierPlans { points, plans })
    }
}
