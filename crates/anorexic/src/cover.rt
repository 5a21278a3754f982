// Which plan covers which point: a row of tests for each point, in order, all in one list. At each point all plans are
// costed at once.
ghost use Rattle.std.specs.Prelude.{◌≡◌, ℕ, ◌++◌, ◌+◌, ◌*◌, ◌<◌, ◌≤◌, All, IfOk, OnOk, Some, length, map, nat_le};
ghost use Rattle.sql_values.specs.Limits.{max_threshold, cost_bound};
ghost use Rattle.cost_model.specs.Costing.{costing_tree};
ghost use Rattle.cost_model.specs.Costs.{cost_of};
ghost use Rattle.plan_space.specs.CostedPlans.{costed_at};
ghost use Rattle.plan_space.specs.SurfacePoints.{IsSurfacePoint, surface_points};
ghost use Rattle.anorexic.specs.Turns.{cover_row, IsCoverTable};

use plan_space::{CostedPlans, SurfacePoint};
use std::alloc::{AllocError, Global};

// The most that a plan may cost to cover a point with this optimal cost.
fn most_covering(optimal: u128, threshold: u32) -> u128
    requires optimal { optimal < cost_bound }
    requires threshold { threshold ≤ max_threshold }
    ensures { (cost : ℕ) → nat_le cost result
        ≡ nat_le (100 * cost) ((100 + threshold) * optimal) }
{
    u128::from(100 + threshold) * optimal / 100
}

// Tells which of the plans, costed at a point, cover it.
fn fill_row(row: &mut [bool], plans: &CostedPlans<'_>, threshold: u32, at: &SurfacePoint)
    requires threshold { threshold ≤ max_threshold }
    requires cost { at.now.cost < cost_bound }
    requires costed { plans.now.point ≡ Some at.now.point }
    requires long { length row.old ≡ length plans.now.plans }
    ensures { row.new ≡ map (λ p. nat_le
        (100 * cost_of (costing_tree plans.now.costing) p at.now.point)
        ((100 + threshold) * at.now.cost)) plans.now.plans }
{
    let most = most_covering(at.cost, threshold);
    for place in 0..row.len() {
        row[place] = plans.cost(place) <= most;
    }
}

// Adds which of the plans cover a point. Its row is made in the room that is lent.
fn add_point(
    table: &mut Vec<bool>,
    row: &mut [bool],
    plans: &mut CostedPlans<'_>,
    threshold: u32,
    at: &SurfacePoint,
) -> Result<(), AllocError>
    requires threshold { threshold ≤ max_threshold }
    requires cost { at.now.cost < cost_bound }
    requires point { IsSurfacePoint (costing_tree plans.old.costing) at.now }
    requires long { length row.old ≡ length plans.old.plans }
    ensures costed { plans.new ≡ costed_at plans.old at.now.point }
    ensures row { OnOk result (table.new.items ≡ table.old.items
        ++ cover_row (costing_tree plans.old.costing) threshold plans.old.plans at.now.point) }
    ensures long { length row.new ≡ length row.old }
{
    plans.cost_at(&at.point);
    fill_row(row, &*plans, threshold, at);
    table.extend_from_slice(row)
}

/// Which of so many plans covers which point. The only error is out of memory.
pub(crate) fn cover_table(
    alloc: Global,
    points: &[SurfacePoint],
    plans: &mut CostedPlans<'_>,
    count: usize,
    threshold: u32,
) -> Result<Vec<bool>, AllocError>
    requires threshold { threshold ≤ max_threshold }
    requires costs { All (λ at. at.cost < cost_bound) points.now }
    requires points { All (IsSurfacePoint (costing_tree plans.old.costing)) points.now }
    requires count { count ≡ length plans.old.plans }
    ensures { IfOk result (λ table. IsCoverTable (costing_tree plans.old.costing) threshold
        (surface_points points.now) plans.old.plans table.items) }
{
    let mut row = vec![in alloc; false; count]?;
    let mut table = Vec::new(alloc);
    for at in points {
        add_point(&mut table, row.as_mut_slice(), plans, threshold, at)?;
    }
    Ok(table)
}
