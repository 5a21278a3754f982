// Plans of a block with what they cost at one point of the grid after another.
ghost use Rattle.std.specs.Prelude.{◌≡◌, ◌<◌, All, IfOk, IfSome, length, map};
ghost use Rattle.sql_values.specs.Limits.{cost_bound};
ghost use Rattle.ess_grid.specs.Points.{IsPoint};
ghost use Rattle.query_block.specs.Blocks.{block_tree};
ghost use Rattle.plan_tree.specs.Plans.{plan_tree, FitsSet};
ghost use Rattle.plan_tree.specs.Enumerated.{IsPlan, IsSubPlan};
ghost use Rattle.cost_model.specs.Costing.{costing_tree};
ghost use Rattle.cost_model.specs.Costs.{cost_of};
ghost use Rattle.plan_space.specs.Parts.{nth_plan};
ghost use Rattle.plan_space.specs.CostedPlans.{AreNumbersOf, HoldsPlans, costed_at};

use crate::part_costs::fill_own_costs;
use crate::part_sums::PartSums;
use crate::parts::Parts;
use cost_model::{Costing, PriceRoom, Prices};
use ess_grid::Point;
use plan_tree::Plan;
use std::alloc::{AllocError, Global};
use std::marker::Model;

/// Plans of a block, and what they cost at a point of the grid. Equal parts of plans are costed once.
#[derive(Drop)]
pub struct CostedPlans<'c> {
    costing: &'c Costing<'c>,
    parts: Parts<'c>,
    // The number of each plan among the parts.
    numbers: Vec<usize>,
    // The parts as sums.
    sums: PartSums,
    // What nodes cost by themselves at the point; 0 where there is none.
    own_costs: Vec<u128>,
    // What the parts cost there, and 0 behind them.
    costs: Vec<u128>,
    room: PriceRoom,
    point: Option<Point>,
}

impl<'c> Model for CostedPlans<'c> {
    ghost use Rattle.query_block.specs.contracts.condition.Condition as condition;
    ghost use Rattle.std.specs.Coded.{codes};
    ghost use Rattle.std.specs.Prelude.{map};
    ghost use Rattle.plan_space.specs.PlanCodes.{plan_tree_code};
    ghost use Rattle.plan_space.specs.Parts.{nth_plan};
    ghost use Rattle.plan_space.specs.CostedPlans.{CostedPlansShape, KeepsCosts};

    ghost Value = { CostedPlansShape };

    ghost coded = { Prim.hlevel (codes, condition.the_row.coded, plan_tree_code) };

    ghost view = { λ c. record {
      costing = c.costing.now;
      plans = map (nth_plan c.parts.plans) c.numbers.items;
      point = c.point;
    } };

    ghost invariant = { λ c. KeepsCosts c.costing.now c.parts c.sums c.numbers.items
        c.own_costs.items c.costs.items c.point };
}

// The number of each of some plans among the parts, in their order. Parts that aren't there are added.
fn numbers_of(
    alloc: Global,
    parts: &mut Parts<'_>,
    plans: &[Plan],
) -> Result<Vec<usize>, AllocError>
    requires plans { All (λ p. IsSubPlan (block_tree parts.old.block) (plan_tree p)) plans.now }
    requires fit { All (λ p. FitsSet (plan_tree p)) plans.now }
    ensures block { parts.new.block ≡ parts.old.block }
    ensures numbers { IfOk result (λ numbers.
        AreNumbersOf parts.new (map plan_tree plans.now) numbers.items) }
{
    let mut numbers = Vec::with_capacity(alloc, plans.len())?;
    for p in plans {
        numbers.push(parts.number(p)?)?;
    }
    Ok(numbers)
}

impl<'c> CostedPlans<'c> {
    /// Some plans of the block, in their order. The only error is out of memory.
    pub fn of_plans(
        alloc: Global,
        costing: &'c Costing<'c>,
        plans: &[Plan],
    ) -> Result<CostedPlans<'c>, AllocError>
        requires { All (λ p. IsPlan (block_tree costing.now.block) (plan_tree p)) plans.now }
        ensures { IfOk result (HoldsPlans costing.now plans.now) }
    {
        let block = costing.block();
        let mut parts = Parts::new(alloc, block, plans.len())?;
        let numbers = numbers_of(alloc, &mut parts, plans)?;
        let sums = parts.sums(alloc)?;
        let own_costs = vec![in alloc; 0; sums.nodes.len()]?;
        let costs = vec![in alloc; 0; sums.parts.len() + 1]?;
        Ok(CostedPlans {
            costing,
            parts,
            numbers,
            sums,
            own_costs,
            costs,
            room: PriceRoom::new(),
            point: None,
        })
    }

    /// Works out what all plans cost at a point of the grid. It takes no memory.
    pub fn cost_at(&mut self, q: &Point)
        requires { IsPoint self.old.costing.grid q.now }
        ensures { self.new ≡ costed_at self.old q.now }
    {
        let prices = Prices::new(self.costing, q, &mut self.room);
        fill_own_costs(
            &prices,
            self.sums.nodes.as_slice(),
            self.own_costs.as_mut_slice(),
        );
        self.parts.fill_costs(
            &prices,
            self.sums.nodes.as_slice(),
            self.sums.parts.as_slice(),
            self.own_costs.as_slice(),
            self.costs.as_mut_slice(),
        );
        self.point = Some(*q);
    }

    /// What the plan at this place, from 0, costs at the point at which all were costed last. It is 0 while there is none.
    pub fn cost(&self, place: usize) -> u128
        requires { place < length self.now.plans }
        ensures cost { IfSome self.now.point (λ point. result
            ≡ cost_of (costing_tree self.now.costing) (nth_plan self.now.plans place) point) }
        ensures bound { result < cost_bound }
    {
        self.costs.as_slice()[self.numbers.as_slice()[place]]
    }
}
