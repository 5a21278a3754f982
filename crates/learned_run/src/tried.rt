// Which plans of a contour cover which points of its frontier: a row is worked out when it is first looked at.
ghost use Rattle.std.specs.Prelude.{◌≡◌, ◌+◌, ◌*◌, ◌<◌, ◌≤◌, ◌&&◌, All, IfOk, Some, length, map, nat_le};
ghost use Rattle.sql_values.specs.Limits.{cost_bound, max_threshold};
ghost use Rattle.query_block.specs.Blocks.{block_tree};
ghost use Rattle.plan_tree.specs.Plans.{plan_tree};
ghost use Rattle.plan_tree.specs.Enumerated.{IsPlan};
ghost use Rattle.cost_model.specs.Costing.{IsCosting, costing_tree};
ghost use Rattle.cost_model.specs.Costs.{cost_of};
ghost use Rattle.cost_model.specs.Greedy.{covers_at};
ghost use Rattle.plan_space.specs.Parts.{nth_plan};
ghost use Rattle.learned_run.specs.Skips.{covers_above, is_at_or_below};
ghost use Rattle.learned_run.specs.Covering.{IsTriedRow, covers_point};

use crate::rows::FrontierRow;
use cost_model::{Costing, is_covered};
use ess_grid::{Point, below};
use plan_space::CostedPlans;
use plan_tree::Plan;
use std::alloc::{AllocError, Global};
use std::marker::Model;

/// The plans of a contour, which are costed at one point after another.
#[derive(Drop)]
pub(crate) struct TriedPlans<'c> {
    // The plans, in order, and how many there are.
    all: CostedPlans<'c>,
    count: usize,
    // How many percent more than the best plan a plan may cost at a point that it covers.
    threshold: u32,
}

impl<'c> Model for TriedPlans<'c> {
    ghost use Rattle.query_block.specs.contracts.condition.Condition as condition;
    ghost use Rattle.std.specs.Coded.{codes};
    ghost use Rattle.std.specs.Prelude.{◌≡◌, ◌≤◌, length};
    ghost use Rattle.sql_values.specs.Limits.{max_threshold};
    ghost use Rattle.cost_model.specs.Costing.{IsCosting, costing_tree};
    ghost use Rattle.plan_space.specs.PlanCodes.{plan_tree_code};
    ghost use Rattle.learned_run.specs.Covering.{TriedShape};

    ghost Value = { TriedShape };

    ghost coded = { Prim.hlevel (codes, condition.the_row.coded, plan_tree_code) };

    ghost view = { λ t. record {
      costing = t.all.costing;
      plans = t.all.plans;
      threshold = t.threshold;
    } };

    ghost invariant = { λ t. IsCosting (costing_tree t.all.costing)
        × (t.threshold ≤ max_threshold) × (t.count ≡ length t.all.plans) };
}

// Which of so many plans, costed at the point of a row, cover it. Fails only if memory runs out.
fn tests(
    alloc: Global,
    plans: &CostedPlans<'_>,
    count: usize,
    threshold: u32,
    row: &FrontierRow,
) -> Result<Vec<bool>, AllocError>
    requires count { count ≡ length plans.now.plans }
    requires threshold { threshold ≤ max_threshold }
    requires costed { plans.now.point ≡ Some row.now.point }
    requires cost { row.now.cost < cost_bound }
    ensures { IfOk result (λ tests. tests.items ≡ map (λ p. nat_le
        (100 * cost_of (costing_tree plans.now.costing) p row.now.point)
        ((100 + threshold) * row.now.cost)) plans.now.plans) }
{
    let mut tests = Vec::with_capacity(alloc, count)?;
    for place in 0..count {
        tests.push(is_covered(plans.cost(place), row.cost, threshold))?;
    }
    Ok(tests)
}

impl<'c> TriedPlans<'c> {
    /// These plans, in order, by a threshold in percent. Fails only if memory runs out.
    pub(crate) fn new(
        alloc: Global,
        costing: &'c Costing<'c>,
        plans: &[Plan],
        threshold: u32,
    ) -> Result<TriedPlans<'c>, AllocError>
        requires plans { All (λ p. IsPlan (block_tree costing.now.block) (plan_tree p)) plans.now }
        requires costing { IsCosting (costing_tree costing.now) }
        requires threshold { threshold ≤ max_threshold }
        ensures { IfOk result (λ tried. tried ≡ record {
          costing = costing.now;
          plans = map plan_tree plans.now;
          threshold = threshold;
        }) }
    {
        let all = CostedPlans::of_plans(alloc, costing, plans)?;
        Ok(TriedPlans {
            all,
            count: plans.len(),
            threshold,
        })
    }

    // Which of them cover the point of a row. Fails only if memory runs out.
    fn tests_at(&mut self, alloc: Global, row: &FrontierRow) -> Result<Vec<bool>, AllocError>
        requires row { IsTriedRow self.old row.now }
        ensures same { self.new ≡ self.old }
        ensures tests { IfOk result (λ tests. tests.items ≡ map (λ p. covers_at
            (costing_tree self.old.costing) self.old.threshold p row.now.point) self.old.plans) }
    {
        self.all.cost_at(&row.point);
        tests(alloc, &self.all, self.count, self.threshold, row)
    }

    // Whether the plan at this place covers the point of a row. Where that isn't worked out yet, it is, for each plan. Fails only
    // if memory runs out.
    fn covers(
        &mut self,
        alloc: Global,
        row: &mut FrontierRow,
        place: usize,
    ) -> Result<bool, AllocError>
        requires row { IsTriedRow self.old row.old }
        requires place { place < length self.old.plans }
        ensures same { self.new ≡ self.old }
        ensures row { IsTriedRow self.old row.new }
        ensures point { row.new.point ≡ row.old.point }
        ensures covers { IfOk result (λ covers. covers ≡ covers_point self.old place row.old.point) }
    {
        if let Some(covers) = &row.covers {
            return Ok(covers[place]);
        }
        let tests = self.tests_at(alloc, row)?;
        let covers = tests[place];
        row.covers = Some(tests);
        Ok(covers)
    }

    // Whether a row's point is at or above this one, and the plan at this place covers it. Fails only if memory runs out.
    fn row_covers(
        &mut self,
        alloc: Global,
        row: &mut FrontierRow,
        place: usize,
        point: &Point,
    ) -> Result<bool, AllocError>
        requires row { IsTriedRow self.old row.old }
        requires place { place < length self.old.plans }
        ensures same { self.new ≡ self.old }
        ensures row { IsTriedRow self.old row.new }
        ensures point { row.new.point ≡ row.old.point }
        ensures covers { IfOk result (λ covers. covers
            ≡ (is_at_or_below point.now row.old.point && covers_point self.old place row.old.point)) }
    {
        if !below(point, &row.point) {
            return Ok(false);
        }
        self.covers(alloc, row, place)
    }

    /// Whether the plan at this place, from 0, covers a point at or above this one. Each row that is looked at is worked out
    /// then, once. Fails only if memory runs out.
    pub(crate) fn any_row_covers(
        &mut self,
        alloc: Global,
        rows: &mut Vec<FrontierRow>,
        place: usize,
        point: &Point,
    ) -> Result<bool, AllocError>
        requires rows { All (IsTriedRow self.old) rows.old.items }
        requires place { place < length self.old.plans }
        ensures same { self.new ≡ self.old }
        ensures rows { All (IsTriedRow self.old) rows.new.items }
        ensures points { map (λ row. row.point) rows.new.items ≡ map (λ row. row.point) rows.old.items }
        ensures covers { IfOk result (λ covers. covers
            ≡ covers_above (costing_tree self.old.costing) self.old.threshold
            (nth_plan self.old.plans place) point.now (map (λ row. row.point) rows.old.items)) }
    {
        for at in 0..rows.len() {
            if self.row_covers(alloc, &mut rows[at], place, point)? {
                return Ok(true);
            }
        }
        Ok(false)
    }
}
