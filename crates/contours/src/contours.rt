// All contours of a compiled bouquet, with the optimal costs of the grid and the frontiers.
ghost use Rattle.std.specs.Prelude.{◌≡◌, ◌≤◌, IfOk};
ghost use Rattle.sql_values.specs.Limits.{max_threshold};
ghost use Rattle.cost_model.specs.Costing.{costing_tree};
ghost use Rattle.plan_space.specs.SurfacePoints.{surface_points};
ghost use Rattle.bouquet_type.specs.Trees.{IsOutline};
ghost use Rattle.contours.specs.Contours.{AreContours, bouquet_of};

use crate::maker::Maker;
use bouquet_type::{Contour, Outline};
use cost_model::Costing;
use ess_grid::Point;
use plan_space::{Outlook, SurfacePoint};
use std::alloc::{AllocError, Global};

/// The contours of a compiled bouquet, and what is known of the points of its grid.
#[derive(Drop)]
pub(crate) struct Made {
    /// The contours, the cheapest first.
    pub(crate) contours: Vec<Contour>,
    /// The optimal costs, and the frontier of each contour.
    pub(crate) outline: Outline,
}

// The points of a frontier, without their costs.
fn points(alloc: Global, frontier: &[SurfacePoint]) -> Result<Vec<Point>, AllocError>
    ensures { IfOk result (λ points. points.items ≡ surface_points frontier.now) }
{
    let mut points = Vec::with_capacity(alloc, frontier.len())?;
    for at in frontier {
        points.push(at.point)?;
    }
    Ok(points)
}

// The contours by an outlook. The only error is out of memory.
fn contours_by(alloc: Global, outlook: Outlook<'_>, threshold: u32) -> Result<Made, AllocError>
    requires { threshold ≤ max_threshold }
    ensures contours { IfOk result (λ made.
        AreContours (costing_tree outlook.entry) threshold made.contours.items) }
    ensures outline { IfOk result (λ made.
        IsOutline (bouquet_of (costing_tree outlook.entry) threshold made.contours.items) made.outline) }
{
    let mut maker = Maker::new(outlook, threshold);
    let mut contours = Vec::new(alloc);
    let mut frontiers = Vec::new(alloc);
    while let Some(found) = maker.next(alloc)? {
        frontiers.push(points(alloc, found.points.as_slice())?)?;
        contours.push(found.contour)?;
    }
    let costs = maker.costs(alloc)?;
    Ok(Made {
        contours,
        outline: Outline { costs, frontiers },
    })
}

/// Makes the contours of the compiled bouquet of a block. The only error is out of memory.
pub(crate) fn make(alloc: Global, costing: &Costing<'_>, threshold: u32) -> Result<Made, AllocError>
    requires { threshold ≤ max_threshold }
    ensures contours { IfOk result (λ made.
        AreContours (costing_tree costing.now) threshold made.contours.items) }
    ensures outline { IfOk result (λ made.
        IsOutline (bouquet_of (costing_tree costing.now) threshold made.contours.items) made.outline) }
{
    let outlook = Outlook::new(alloc, costing)?;
    let made = contours_by(alloc, outlook, threshold)?;
    Ok(made)
}
