// Makes the contours of a compiled bouquet, one after another. No contour is made anywhere else.
ghost use Rattle.std.specs.Prelude.{◌≡◌, ◌≤◌, IfOk, OnErr};
ghost use Rattle.sql_values.specs.Limits.{max_threshold, max_contour_cost};
ghost use Rattle.cost_model.specs.Costing.{costing_tree, IsCosting};
ghost use Rattle.cost_model.specs.Frontier.{frontier};
ghost use Rattle.plan_space.specs.Surface.{optimal_costs};
ghost use Rattle.plan_space.specs.SurfacePoints.{surface_points};
ghost use Rattle.bouquet_type.specs.Trees.{contour_tree};
ghost use Rattle.bouquet_type.specs.Compiled.{compiled_contour, contour_count};
ghost use Rattle.contours.specs.Lazy.{Makes};

use anorexic::reduce_frontier;
use bouquet_type::Contour;
use plan_space::{FrontierPlans, Outlook, SurfacePoint};
use std::alloc::{AllocError, Global};
use std::marker::Model;

/// A contour, and the points of its frontier.
#[derive(Drop)]
pub(crate) struct Found {
    /// The contour.
    pub(crate) contour: Contour,
    /// The points, in the grid's order, with the optimal costs there.
    pub(crate) points: Vec<SurfacePoint>,
}

/// Makes the contours of the compiled bouquet of an outlook, the cheapest first.
#[derive(Drop)]
pub(crate) struct Maker<'o> {
    outlook: Outlook<'o>,
    threshold: u32,
    // How many contours there are, and how many were made.
    count: u32,
    made: u32,
    // The cost of the next one.
    cost: u128,
}

impl<'o> Model for Maker<'o> {
    ghost use Rattle.query_block.specs.contracts.condition.Condition as condition;
    ghost use Rattle.std.specs.Coded.{codes};
    ghost use Rattle.contours.specs.Lazy.{MakerState, IsMaker};

    ghost Value = { MakerState };

    ghost coded = { Prim.hlevel (codes, condition.the_row.coded) };

    ghost view = { λ m. record { costing = m.outlook; threshold = m.threshold; made = m.made } };

    ghost invariant = { λ m. IsMaker
        (record { costing = m.outlook; threshold = m.threshold; made = m.made })
        m.count m.cost };
}

// How many contours there are.
fn count(outlook: &Outlook<'_>) -> u32
    ensures count { result ≡ contour_count (costing_tree outlook.now) }
    ensures costing { IsCosting (costing_tree outlook.now) }
{
    let _costing = outlook.costing();
    let top = outlook.top_cost();
    let mut last = outlook.bottom_cost();
    let mut count = 1;
    while last < top {
        last *= 2;
        count += 1;
    }
    count
}

// The contour of this cost. The only error is out of memory.
fn contour(
    alloc: Global,
    outlook: &mut Outlook<'_>,
    threshold: u32,
    cost: u128,
) -> Result<Found, AllocError>
    requires threshold { threshold ≤ max_threshold }
    requires cost { cost ≤ max_contour_cost }
    ensures contour { IfOk result (λ found.
        contour_tree found.contour ≡ compiled_contour (costing_tree outlook.old) threshold cost) }
    ensures points { IfOk result (λ found.
        surface_points found.points.items ≡ frontier (costing_tree outlook.old) cost) }
    ensures same { outlook.new ≡ outlook.old }
{
    let frontier = outlook.frontier(alloc, cost)?;
    let plans = reduce_frontier(alloc, outlook.costing(), &frontier, threshold)?;
    let FrontierPlans { points, plans: _ } = frontier;
    Ok(Found {
        contour: Contour { cost, plans },
        points,
    })
}

impl<'o> Maker<'o> {
    /// Before the first contour, by a threshold in percent. It takes no memory.
    pub(crate) fn new(outlook: Outlook<'o>, threshold: u32) -> Maker<'o>
        requires { threshold ≤ max_threshold }
        ensures start { result ≡ record { costing = outlook.entry; threshold = threshold; made = 0 } }
        ensures costing { IsCosting (costing_tree outlook.entry) }
    {
        let count = count(&outlook);
        let cost = outlook.bottom_cost();
        Maker {
            outlook,
            threshold,
            count,
            made: 0,
            cost,
        }
    }

    /// The threshold, in percent.
    pub(crate) fn threshold(&self) -> u32
        ensures { result ≡ self.now.threshold }
    {
        self.threshold
    }

    /// Makes the next contour. None where all were made. The only error is out of memory, and the contour is the next one
    /// still.
    pub(crate) fn next(&mut self, alloc: Global) -> Result<Option<Found>, AllocError>
        ensures made { IfOk result (Makes self.old self.new) }
        ensures stays { OnErr result (self.new ≡ self.old) }
    {
        if self.made == self.count {
            return Ok(None);
        }
        let found = contour(alloc, &mut self.outlook, self.threshold, self.cost)?;
        self.made += 1;
        self.cost *= 2;
        Ok(Some(found))
    }

    /// The optimal costs at all points of the grid, in its order. The only error is out of memory.
    pub(crate) fn costs(&mut self, alloc: Global) -> Result<Vec<u128>, AllocError>
        ensures costs { IfOk result (λ costs.
            costs.items ≡ optimal_costs (costing_tree self.old.costing)) }
        ensures same { self.new ≡ self.old }
    {
        self.outlook.costs(alloc)
    }
}
