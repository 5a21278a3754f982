// The executions of a bouquet, one after another.
ghost use Rattle.std.specs.Prelude.{◌≡◌, All, OnErr, OnOk, length};
ghost use Rattle.plan_tree.specs.Plans.{plan_tree};
ghost use Rattle.plan_tree.specs.Enumerated.{IsPlan};
ghost use Rattle.bouquet_type.specs.Cursor.{TakesNext, IsAtAttempt, IsWholeSchedule, IsSchedule};
ghost use Rattle.bouquet_type.specs.Cursor.{schedule_of, attempt_at, attempt_tree};
ghost use Rattle.bouquet_type.specs.Ladders.{StandsAtFoot};

use crate::bouquet::budget_on;
use crate::ladder::Ladder;
use plan_tree::Plan;
use std::alloc::{AllocError, Global};

/// An execution.
#[derive(Clone, Copy)]
pub struct Attempt<'b> {
    /// The plan that is executed.
    pub plan: &'b Plan,
    /// The most that it may spend, in units of work. None for the last execution, which has no budget.
    pub budget: Option<u128>,
    /// The number of its contour, from 1; 0 for the last execution.
    pub contour: u32,
    /// The place of the plan among those of its contour, from 1. The last execution has that of the last plan.
    pub place: usize,
    /// What its contour costs, in units of work.
    pub cost: u128,
    /// The plans of its contour that come behind it. None for the last execution.
    pub coming: &'b [Plan],
}

/// The executions of a bouquet: the plans of the first contour in order, each under the contour's budget, then those of the
/// next one; last the last plan of the last contour, without a budget. A budget is worked out once a contour.
#[derive(Drop)]
pub struct Schedule<L> {
    ladder: L,
    // Of the contour at hand how many plans were given, the budget, and the number, from 1; 0 at the foot. No budget where the
    // last execution is at hand.
    given: usize,
    budget: Option<u128>,
    number: u32,
}

impl<L: Ladder> Schedule<L> {
    /// All executions of a bouquet that stands at its foot.
    pub fn new(ladder: L) -> Schedule<L>
        requires { StandsAtFoot (L.state ladder) }
        ensures { IsWholeSchedule (L.state ladder).whole (schedule_of L.state result) }
    {
        Schedule {
            ladder,
            given: 0,
            budget: Some(0),
            number: 0,
        }
    }

    // Goes on where all plans of the contour at hand were given: to the first of the next one; where there is none, the last
    // execution is at hand.
    fn climb(&mut self, alloc: Global) -> Result<(), AllocError>
        requires is { IsSchedule (schedule_of L.state self.old) }
        requires given { self.old.given ≡ length (schedule_of L.state self.old).ladder.hand.plans }
        ensures goes_on { OnOk result
            (TakesNext (schedule_of L.state self.old) (schedule_of L.state self.new)) }
        ensures stays { OnErr result
            (schedule_of L.state self.new ≡ schedule_of L.state self.old) }
    {
        if self.ladder.climb(alloc)? {
            self.budget = Some(budget_on(self.ladder.threshold(), self.ladder.cost()));
            self.number += 1;
            self.given = 1;
        } else {
            self.budget = None;
        }
        Ok(())
    }

    /// Goes on to the next execution. The last one stays, as does the one at hand where memory is wanting.
    pub fn next(&mut self, alloc: Global) -> Result<(), AllocError>
        requires { IsSchedule (schedule_of L.state self.old) }
        ensures goes_on { OnOk result
            (TakesNext (schedule_of L.state self.old) (schedule_of L.state self.new)) }
        ensures stays { OnErr result
            (schedule_of L.state self.new ≡ schedule_of L.state self.old) }
    {
        if self.given < self.ladder.plans().len() {
            self.given += 1;
            return Ok(());
        }
        self.climb(alloc)
    }

    /// The execution at hand.
    pub fn attempt(&self) -> Attempt<'_>
        requires { IsAtAttempt (schedule_of L.state self.now) }
        ensures step { attempt_tree result ≡ attempt_at (schedule_of L.state self.now) }
        ensures place { result.place ≡ (schedule_of L.state self.now).given }
        ensures cost { result.cost ≡ (schedule_of L.state self.now).ladder.hand.cost }
        ensures plan { IsPlan (L.state self.now.ladder).whole.costing.block (plan_tree result.plan.now) }
        ensures coming { All
            (λ p. IsPlan (L.state self.now.ladder).whole.costing.block (plan_tree p))
            result.coming.now }
    {
        let plans = self.ladder.plans();
        Attempt {
            plan: &plans[self.given - 1],
            budget: self.budget,
            contour: if self.budget.is_some() {
                self.number
            } else {
                0
            },
            place: self.given,
            cost: self.ladder.cost(),
            coming: &plans[self.given..],
        }
    }
}
