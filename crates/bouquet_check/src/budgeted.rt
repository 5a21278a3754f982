// The plans of a contour, held against points of the grid. What fitted at the last point is tried first, since it often fits at
// the next one. All plans are costed, equal parts of them once, only where it doesn't.
ghost use Rattle.std.specs.Prelude.{◌≡◌, ◌<◌, ◌≤◌, All, IfOk, length, map};
ghost use Rattle.ess_grid.specs.Points.{IsPoint};
ghost use Rattle.query_block.specs.Blocks.{block_tree};
ghost use Rattle.plan_tree.specs.Plans.{plan_tree};
ghost use Rattle.plan_tree.specs.Enumerated.{IsPlan};
ghost use Rattle.cost_model.specs.Costing.{costing_tree};
ghost use Rattle.bouquet_check.specs.Verdicts.{fits_at};
ghost use Rattle.plan_space.specs.CostedPlans.{HoldsPlans};
ghost use Rattle.bouquet_check.specs.Budgeted.{FindsWithin};

use cost_model::Costing;
use ess_grid::Point;
use plan_space::CostedPlans;
use plan_tree::Plan;
use std::alloc::{AllocError, Global};
use std::marker::Model;

/// The plans of a contour under its budget.
#[derive(Drop)]
pub(crate) struct BudgetedPlans<'c> {
    costing: &'c Costing<'c>,
    plans: &'c [Plan],
    budget: u128,
    // The place of the plan that fitted last.
    last: usize,
    // All plans, once they were asked for.
    all: Option<CostedPlans<'c>>,
}

impl<'c> Model for BudgetedPlans<'c> {
    ghost use Rattle.query_block.specs.contracts.condition.Condition as condition;
    ghost use Rattle.plan_tree.specs.contracts.plan.Plan as plan;
    ghost use Rattle.std.specs.Coded.{codes};
    ghost use Rattle.std.specs.Option.{ForSome};
    ghost use Rattle.std.specs.Prelude.{◌<◌, All, length};
    ghost use Rattle.query_block.specs.Blocks.{block_tree};
    ghost use Rattle.plan_tree.specs.Enumerated.{IsPlan};
    ghost use Rattle.plan_tree.specs.Plans.{plan_tree};
    ghost use Rattle.plan_space.specs.CostedPlans.{HoldsPlans};
    ghost use Rattle.bouquet_check.specs.Budgeted.{BudgetedShape};

    ghost Value = { BudgetedShape };

    ghost coded = { Prim.hlevel (codes, condition.the_row.coded, plan.the_row.coded) };

    ghost view = { λ c. record {
      costing = c.costing.now;
      plans = c.plans.now;
      budget = c.budget;
    } };

    ghost invariant = { λ c. (c.last < length c.plans.now)
        × All (λ p. IsPlan (block_tree c.costing.now.block) (plan_tree p)) c.plans.now
        × ForSome c.all (HoldsPlans c.costing.now c.plans.now) };
}

// Of so many plans that are costed at a point the place of the first that is within a budget there.
fn place_within(all: &CostedPlans<'_>, count: usize, budget: u128) -> Option<usize>
    requires { count ≡ length all.now.plans }
    ensures { FindsWithin all.now budget result }
{
    for place in 0..count {
        if all.cost(place) <= budget {
            return Some(place);
        }
    }
    None
}

impl<'c> BudgetedPlans<'c> {
    /// Some plans of a block under a budget, in units of work. It takes no memory.
    pub(crate) fn new(
        costing: &'c Costing<'c>,
        plans: &'c [Plan],
        budget: u128,
    ) -> BudgetedPlans<'c>
        requires some { 1 ≤ length plans.now }
        requires plans { All (λ p. IsPlan (block_tree costing.now.block) (plan_tree p)) plans.now }
        ensures { result ≡ record { costing = costing.now; plans = plans.now; budget = budget } }
    {
        BudgetedPlans {
            costing,
            plans,
            budget,
            last: 0,
            all: None,
        }
    }

    // All plans, to be put back. They are made where they aren't there yet.
    fn take_all(&mut self, alloc: Global) -> Result<CostedPlans<'c>, AllocError>
        ensures plans { IfOk result (HoldsPlans self.old.costing self.old.plans) }
        ensures same { self.new ≡ self.old }
    {
        match self.all.take() {
            Some(all) => Ok(all),
            None => CostedPlans::of_plans(alloc, self.costing, self.plans),
        }
    }

    // Whether some plan is within the budget at a point. Where one is, it is the first to be tried at the next point.
    fn search(&mut self, alloc: Global, q: &Point) -> Result<bool, AllocError>
        requires { IsPoint self.old.costing.grid q.now }
        ensures fits { IfOk result (λ fits. fits
            ≡ fits_at (costing_tree self.old.costing) self.old.budget (map plan_tree self.old.plans) q.now) }
        ensures same { self.new ≡ self.old }
    {
        let mut all = self.take_all(alloc)?;
        all.cost_at(q);
        let place = place_within(&all, self.plans.len(), self.budget);
        self.all = Some(all);
        let Some(place) = place else {
            return Ok(false);
        };
        self.last = place;
        Ok(true)
    }

    /// Whether some plan is within the budget at a point of the grid. The only error is out of memory.
    pub(crate) fn fits(&mut self, alloc: Global, q: &Point) -> Result<bool, AllocError>
        requires { IsPoint self.old.costing.grid q.now }
        ensures fits { IfOk result (λ fits. fits
            ≡ fits_at (costing_tree self.old.costing) self.old.budget (map plan_tree self.old.plans) q.now) }
        ensures same { self.new ≡ self.old }
    {
        if self.costing.cost(&self.plans[self.last], q) <= self.budget {
            return Ok(true);
        }
        self.search(alloc, q)
    }
}
