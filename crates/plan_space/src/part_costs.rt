// What the parts of plans cost at a point: what each node costs by itself is worked out first, and then the sum of each part, whose
// sides come before it.
ghost use Rattle.std.specs.Prelude.{◌≡◌, ◌<◌, length};
ghost use Rattle.sql_values.specs.Limits.{cost_bound};
ghost use Rattle.cost_model.specs.Costing.{costing_tree};
ghost use Rattle.cost_model.specs.Costs.{cost_of};
ghost use Rattle.cost_model.specs.Prices.{block_at};
ghost use Rattle.plan_space.specs.Parts.{nth_plan, ArePartCosts};
ghost use Rattle.plan_space.specs.PartSums.{AllStandAlone, AreOwnCosts, ArePartSums, HasCosts};

use crate::node::Node;
use crate::part_sums::PartSum;
use crate::parts::Parts;
use cost_model::Prices;
use plan_tree::Subset;

/// Works out what nodes cost by themselves at the point of the prices.
pub(crate) fn fill_own_costs(prices: &Prices<'_>, nodes: &[Node], own_costs: &mut [u128])
    requires stand { AllStandAlone (block_at prices.now) nodes.now }
    requires long { length own_costs.old ≡ length nodes.now }
    ensures costs { AreOwnCosts prices.now nodes.now own_costs.new (length nodes.now) }
    ensures long { length own_costs.new ≡ length own_costs.old }
{
    for place in 0..nodes.len() {
        let node = &nodes[place];
        own_costs[place] = prices.own(node.root, Subset::new(node.set));
    }
}

impl Parts<'_> {
    // What a part costs, by the costs of those before it.
    fn cost(
        &self,
        prices: &Prices<'_>,
        nodes: &[Node],
        sums: &[PartSum],
        own_costs: &[u128],
        costs: &[u128],
        number: usize,
    ) -> u128
        requires block { prices.now.costing.block ≡ self.now.block }
        requires number { number < length self.now.plans }
        requires sums { ArePartSums self.now nodes.now sums.now (length self.now.plans) }
        requires own_long { length own_costs.now ≡ length nodes.now }
        requires own_costs { AreOwnCosts prices.now nodes.now own_costs.now (length nodes.now) }
        requires costs { HasCosts self.now.plans costs.now }
        requires before { ArePartCosts prices.now self.now.plans costs.now number }
        ensures cost { result ≡ cost_of (costing_tree prices.now.costing)
            (nth_plan self.now.plans number) prices.now.point }
        ensures bound { result < cost_bound }
    {
        let _ = &self.nodes;
        let _block = prices.block();
        let sum = sums[number];
        own_costs[sum.node] + costs[sum.left] + costs[sum.right]
    }

    /// Works out what all parts cost at the point of the prices, by their sums and what the nodes of these cost by themselves.
    pub(crate) fn fill_costs(
        &self,
        prices: &Prices<'_>,
        nodes: &[Node],
        sums: &[PartSum],
        own_costs: &[u128],
        costs: &mut [u128],
    )
        requires block { prices.now.costing.block ≡ self.now.block }
        requires sums { ArePartSums self.now nodes.now sums.now (length self.now.plans) }
        requires own_long { length own_costs.now ≡ length nodes.now }
        requires own_costs { AreOwnCosts prices.now nodes.now own_costs.now (length nodes.now) }
        requires costs { HasCosts self.now.plans costs.old }
        ensures costs { HasCosts self.now.plans costs.new }
        ensures right { ArePartCosts prices.now self.now.plans costs.new
            (length self.now.plans) }
    {
        for number in 0..sums.len() {
            costs[number] = self.cost(prices, nodes, sums, own_costs, costs, number);
        }
    }
}
