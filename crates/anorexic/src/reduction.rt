// Greedy reduction.
ghost use Rattle.std.specs.Prelude.{◌≡◌, ◌*◌, ◌<◌, ◌≤◌, All, IfOk, length, map};
ghost use Rattle.std.specs.List.{range_with_len};
ghost use Rattle.sql_values.specs.Limits.{max_threshold};
ghost use Rattle.plan_tree.specs.Plans.{plan_tree, FitsSet};
ghost use Rattle.cost_model.specs.Costing.{costing_tree};
ghost use Rattle.cost_model.specs.Greedy.{greedy};
ghost use Rattle.cost_model.specs.FrontierPoints.{IsFrontier, frontier_points};
ghost use Rattle.plan_space.specs.SurfacePoints.{surface_points};
ghost use Rattle.plan_space.specs.FrontierPlans.{AreFrontierPlans};
ghost use Rattle.anorexic.specs.Turns.{AreTaken, plan_at};

use crate::cover::cover_table;
use crate::turn::{close, count_points, first_candidate};
use cost_model::{Costing, FrontierPoint};
use plan_space::{CostedPlans, FrontierPlans, SurfacePoint};
use plan_tree::{Plan, copy};
use std::alloc::{AllocError, Global};

// So many places, from 0.
fn all_places(alloc: Global, count: usize) -> Result<Vec<usize>, AllocError>
    ensures { IfOk result (λ places. places.items ≡ range_with_len 0 count) }
{
    let mut places = Vec::new(alloc);
    for place in 0..count {
        places.push(place)?;
    }
    Ok(places)
}

// The numbers of the candidates that are taken for so many points, in order: a turn for each, until no point is open.
fn turns(
    alloc: Global,
    points: usize,
    candidates: &[Plan],
    table: &[bool],
) -> Result<Vec<usize>, AllocError>
    requires fit { All (λ p. FitsSet (plan_tree p)) candidates.now }
    requires some { 0 < points → 0 < length candidates.now }
    requires table { length table.now ≡ points * length candidates.now }
    ensures { IfOk result (λ taken. AreTaken points candidates.now table.now taken.items) }
{
    let mut taken = Vec::new(alloc);
    let mut uncovered = all_places(alloc, points)?;
    let mut counts = vec![in alloc; 0; candidates.len()]?;
    count_points(counts.as_mut_slice(), table, uncovered.as_slice());
    for _turn in 0..points {
        if uncovered.is_empty() {
            return Ok(taken);
        }
        let candidate = first_candidate(candidates, table, uncovered.as_slice(), counts.as_slice());
        close(
            table,
            candidates.len(),
            candidate,
            &mut uncovered,
            counts.as_mut_slice(),
        );
        taken.push(candidate)?;
    }
    Ok(taken)
}

// Copies of the plans of these numbers.
fn copies(alloc: Global, plans: &[Plan], numbers: &[usize]) -> Result<Vec<Plan>, AllocError>
    requires { All (λ number. number < length plans.now) numbers.now }
    ensures { IfOk result (λ taken.
        map plan_tree taken.items ≡ map (plan_at plans.now) numbers.now) }
{
    let mut taken = Vec::new(alloc);
    for number in numbers {
        taken.push(copy(alloc, &plans[*number])?)?;
    }
    Ok(taken)
}

/// The plans that greedy reduction takes for a frontier, in the order in which it takes them: in each turn the plan that
/// covers the most points that no plan covers yet, of equals the first in plan order, until all are covered. A plan covers a
/// point where it costs at most so many percent more than the best plan. The only error is out of memory.
pub fn reduce_frontier(
    alloc: Global,
    costing: &Costing<'_>,
    frontier: &FrontierPlans,
    threshold: u32,
) -> Result<Vec<Plan>, AllocError>
    requires frontier { AreFrontierPlans (costing_tree costing.now) frontier.now }
    requires threshold { threshold ≤ max_threshold }
    ensures { IfOk result (λ plans. map plan_tree plans.items
        ≡ greedy (costing_tree costing.now) threshold (surface_points frontier.now.points.items)) }
{
    let _block = costing.block();
    let points = frontier.points.as_slice();
    let candidates = frontier.plans.as_slice();
    let mut costed = CostedPlans::of_plans(alloc, &*costing, candidates)?;
    let table = cover_table(alloc, points, &mut costed, candidates.len(), threshold)?;
    let taken = turns(alloc, points.len(), candidates, table.as_slice())?;
    copies(alloc, candidates, taken.as_slice())
}

// The points of a frontier, and a copy of each of their plans.
fn taken_apart(alloc: Global, frontier: &[FrontierPoint]) -> Result<FrontierPlans, AllocError>
    ensures points { IfOk result (λ apart.
        apart.points.items ≡ map (λ at. record { point = at.point; cost = at.cost }) frontier.now) }
    ensures plans { IfOk result (λ apart.
        map plan_tree apart.plans.items ≡ map (λ at. plan_tree at.plan) frontier.now) }
{
    let mut points = Vec::new(alloc);
    let mut plans = Vec::new(alloc);
    for at in frontier {
        points.push(SurfacePoint {
            point: at.point,
            cost: at.cost,
        })?;
        plans.push(copy(alloc, &at.plan)?)?;
    }
    Ok(FrontierPlans { points, plans })
}

/// The same for a frontier whose points are each given with their plan.
pub fn reduce(
    alloc: Global,
    costing: &Costing<'_>,
    frontier: &[FrontierPoint],
    threshold: u32,
) -> Result<Vec<Plan>, AllocError>
    requires frontier { IsFrontier (costing_tree costing.now) frontier.now }
    requires threshold { threshold ≤ max_threshold }
    ensures { IfOk result (λ plans. map plan_tree plans.items
        ≡ greedy (costing_tree costing.now) threshold (frontier_points frontier.now)) }
{
    let apart = taken_apart(alloc, frontier)?;
    reduce_frontier(alloc, costing, &apart, threshold)
}
