// The check of a bouquet: its steps first, then the frontier of each contour.
ghost use Rattle.std.specs.Prelude.{◌≡◌, ◌↔◌, IfOk, map};
ghost use Rattle.plan_tree.specs.Plans.{plan_tree};
ghost use Rattle.cost_model.specs.Costing.{costing_tree};
ghost use Rattle.bouquet_type.specs.Trees.{IsContour, bouquet_tree};
ghost use Rattle.bouquet_type.specs.Sound.{IsSound, first_cost, last_cost};
ghost use Rattle.bouquet_check.specs.Verdicts.{Sound, verdict_of, verdict_tree};
ghost use Rattle.bouquet_check.specs.Verdicts.{cover_verdict, uncovered_point, wrong_step};

use crate::budgeted::BudgetedPlans;
use crate::verdict::Verdict;
use bouquet_type::{Bouquet, Contour};
use ess_grid::Point;
use plan_space::CostSurface;
use std::alloc::{AllocError, Global};

// What the first contour costs.
fn first_cost(b: &Bouquet) -> u128
    ensures { result ≡ first_cost (bouquet_tree b.now).contours }
{
    b.contours()[0].cost
}

// What the last one costs.
fn last_cost(b: &Bouquet) -> u128
    ensures { result ≡ last_cost (bouquet_tree b.now).contours }
{
    let contours = b.contours();
    contours[contours.len() - 1].cost
}

// The number of the first contour that doesn't cost twice what the one before does.
fn wrong_step(b: &Bouquet) -> Option<u32>
    ensures { result ≡ wrong_step 1 (bouquet_tree b.now).contours }
{
    let contours = b.contours();
    for place in 1..contours.len() {
        if contours[place].cost != 2 * contours[place - 1].cost {
            return Some(place as u32 + 1);
        }
    }
    None
}

// The first point of a contour's frontier at which each of its plans costs more than this budget.
fn uncovered_point(
    alloc: Global,
    surface: &CostSurface<'_>,
    contour: &Contour,
    budget: u128,
) -> Result<Option<Point>, AllocError>
    requires { IsContour (costing_tree surface.now).block contour.now }
    ensures { IfOk result (λ found. found ≡ uncovered_point (costing_tree surface.now)
        contour.now.cost budget (map plan_tree contour.now.plans.items)) }
{
    let costing = surface.costing();
    let grid = costing.grid();
    let mut plans = BudgetedPlans::new(costing, &contour.plans, budget);
    for place in 0..grid.points() {
        if surface.is_on_frontier(contour.cost, place) {
            let q = grid.point(place);
            if !plans.fits(alloc, &q)? {
                return Ok(Some(q));
            }
        }
    }
    Ok(None)
}

// The first contour with such a point; without one the bouquet is sound.
fn cover_verdict(
    alloc: Global,
    surface: &CostSurface<'_>,
    b: &Bouquet,
) -> Result<Verdict, AllocError>
    requires { costing_tree surface.now ≡ (bouquet_tree b.now).costing }
    ensures { IfOk result (λ verdict. verdict_tree verdict
        ≡ cover_verdict (costing_tree surface.now) b.now.threshold 1 (bouquet_tree b.now).contours) }
{
    for (place, contour) in b.contours().iter().enumerate() {
        let budget = b.budget(place + 1);
        if let Some(point) = uncovered_point(alloc, surface, contour, budget)? {
            return Ok(Verdict::Uncovered {
                contour: place as u32 + 1,
                point,
            });
        }
    }
    Ok(Verdict::Sound)
}

// The verdict by a surface.
fn verdict(alloc: Global, surface: &CostSurface<'_>, b: &Bouquet) -> Result<Verdict, AllocError>
    requires { costing_tree surface.now ≡ (bouquet_tree b.now).costing }
    ensures { IfOk result (λ verdict. verdict_tree verdict ≡ verdict_of (bouquet_tree b.now)) }
{
    if first_cost(b) > surface.bottom_cost() {
        return Ok(Verdict::First);
    }
    if let Some(contour) = wrong_step(b) {
        return Ok(Verdict::Step { contour });
    }
    if last_cost(b) < surface.top_cost() {
        return Ok(Verdict::Last);
    }
    cover_verdict(alloc, surface, b)
}

/// The verdict on a bouquet: the first that applies, in the order of `Verdict`. The only error is out of memory.
pub fn check(alloc: Global, b: &Bouquet) -> Result<Verdict, AllocError>
    ensures verdict { IfOk result (λ verdict. verdict_tree verdict ≡ verdict_of (bouquet_tree b.now)) }
    ensures sound { IfOk result (λ verdict.
        (verdict_tree verdict ≡ Sound) ↔ IsSound (bouquet_tree b.now)) }
{
    let _contours = b.contours();
    let costing = b.costing();
    let surface = CostSurface::new(alloc, &costing, b.optimal_costs())?;
    let verdict = verdict(alloc, &surface, b)?;
    Ok(verdict)
}
