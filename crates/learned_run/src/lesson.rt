// What a run has learned so far.
ghost use Rattle.std.specs.Prelude.{◌≡◌, [], true, None, IfSome, if◌then◌else◌};
ghost use Rattle.ess_grid.specs.Points.{IsPoint};
ghost use Rattle.query_block.specs.Blocks.{block_tree};
ghost use Rattle.plan_tree.specs.Plans.{plan_tree};
ghost use Rattle.plan_tree.specs.Enumerated.{IsPlan};
ghost use Rattle.cost_model.specs.Costing.{costing_tree};
ghost use Rattle.plan_space.specs.Surface.{optimal_costs};
ghost use Rattle.learned_run.specs.Raising.{IsLearned, RulesOut};

use crate::corners::even;
use crate::raise::rule_out;
use bouquet_type::Attempt;
use cost_model::Costing;
use ess_grid::Point;

/// What exhausted executions have shown.
#[derive(Drop)]
pub(crate) struct Lesson {
    // Whether there were some.
    some: bool,
    // The least levels of the points that are left. None where no point is.
    least: Option<Point>,
}

impl Lesson {
    /// Nothing yet.
    pub(crate) fn new(costing: &Costing<'_>) -> Lesson
        ensures { IsLearned (costing_tree costing.now) [] result.some result.least }
    {
        let grid = costing.grid();
        grid.levels();
        Lesson {
            some: false,
            least: Some(even(grid, 0)),
        }
    }

    /// The learned point.
    pub(crate) fn point(&self) -> Option<Point>
        ensures { result ≡ (if self.now.some then self.now.least else None) }
    {
        if self.some { self.least } else { None }
    }

    /// An execution was exhausted. The last one, without a budget, never is, and shows nothing. The optimal costs at all points
    /// of the grid, in its order, are used where they are known.
    pub(crate) fn learn(&mut self, costing: &Costing<'_>, costs: Option<&[u128]>, step: Attempt<'_>)
        requires plan { IsPlan (block_tree costing.now.block) (plan_tree step.plan.now) }
        requires costs { IfSome costs (λ costs. costs.now ≡ optimal_costs (costing_tree costing.now)) }
        requires point { IfSome self.old.least (IsPoint costing.now.grid) }
        ensures some { IfSome step.entry.budget (λ _. self.new.some ≡ true) }
        ensures levels { IfSome step.entry.budget (λ budget. RulesOut (costing_tree costing.now)
            (plan_tree step.entry.plan.now) budget self.old.least self.new.least) }
        ensures of_grid { IfSome self.new.least (IsPoint costing.now.grid) }
    {
        if let Some(budget) = step.budget {
            self.least = rule_out(costing, costs, self.least, step.plan, budget);
            self.some = true;
        }
    }
}
