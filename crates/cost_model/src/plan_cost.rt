// What a plan costs: the sum of what its nodes cost by themselves. Each function calls itself for the sides of a join, so the
// stack that it takes is bounded by how deep the plan is.
ghost use Rattle.std.specs.Prelude.{◌≡◌, ◌^◌, ◌<◌, ◌≤◌};
ghost use Rattle.sql_values.specs.Limits.{cost_bound};
ghost use Rattle.ess_grid.specs.Points.{IsPoint};
ghost use Rattle.query_block.specs.Blocks.{block_tree};
ghost use Rattle.plan_tree.specs.Plans.{plan_tree, covers_of};
ghost use Rattle.plan_tree.specs.Enumerated.{IsSubPlan};
ghost use Rattle.plan_tree.specs.Roots.{root_of};
ghost use Rattle.cost_model.specs.Costing.{costing_tree, IsCosting};
ghost use Rattle.cost_model.specs.Costs.{cost_of};
ghost use Rattle.cost_model.specs.Prices.{own_at, block_at, sum_of};

use crate::costing::Costing;
use crate::prices::{PriceRoom, Prices};
use ess_grid::Point;
use plan_tree::{Plan, covers};

// What the outermost node of a plan costs by itself.
fn root_cost(prices: &Prices<'_>, p: &Plan) -> u128
    requires { IsSubPlan (block_at prices.now) (plan_tree p.now) }
    ensures costing { IsCosting (costing_tree prices.now.costing) }
    ensures own { result
        ≡ own_at prices.now (root_of (plan_tree p.now)) (covers_of (plan_tree p.now)) }
    ensures bound { result ≤ 2 ^ 108 }
{
    let _block = prices.block();
    prices.own(p.root(), covers(p))
}

// What all nodes of a plan cost.
#[cycle(sum)]
fn sum(prices: &Prices<'_>, p: &Plan) -> u128
    requires { IsSubPlan (block_at prices.now) (plan_tree p.now) }
    ensures sum { result ≡ sum_of (own_at prices.now) (plan_tree p.now) }
    ensures bound { result < cost_bound }
{
    let own = root_cost(prices, p);
    match p {
        Plan::Scan(_) | Plan::IndexScan(_, _) => own,
        Plan::Nest(left, right) | Plan::Hash(_, left, right) | Plan::Merge(_, left, right) => {
            sum(prices, left) + sum(prices, right) + own
        }
        Plan::IndexLoop(_, left, _) => sum(prices, left) + own,
    }
}

impl Costing<'_> {
    /// What a plan of some of the block's relations costs at a point of the grid. It takes no memory; of the machine's
    /// stack it takes 2 KiB, and more the deeper the plan is.
    pub fn cost(&self, p: &Plan, q: &Point) -> u128
        requires plan { IsSubPlan (block_tree self.now.block) (plan_tree p.now) }
        requires point { IsPoint self.now.grid q.now }
        ensures cost { result ≡ cost_of (costing_tree self.now) (plan_tree p.now) q.now }
        ensures bound { result < cost_bound }
    {
        sum(&Prices::new(self, q, &mut PriceRoom::new()), p)
    }
}
