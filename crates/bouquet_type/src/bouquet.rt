// A bouquet. Its parts never change.
ghost use Rattle.std.specs.Prelude.{◌≡◌, ◌^◌, ◌<◌, ◌≤◌, IfSome, length, map};
ghost use Rattle.sql_values.specs.Limits.{max_points, max_threshold, max_contour_cost};
ghost use Rattle.ess_grid.specs.Points.{points_of};
ghost use Rattle.cost_model.specs.Optimal.{optimal_cost};
ghost use Rattle.bouquet_type.specs.Shapes.{bouquet_shape, cost_on};
ghost use Rattle.bouquet_type.specs.Trees.{IsBouquet, IsOutline, bouquet_tree};
ghost use Rattle.bouquet_type.specs.Budgets.{budget_of, most_plans};

use crate::contour::Contour;
use crate::outline::Outline;
use cost_model::{Costing, Stats};
use ess_grid::Grid;
use query_block::Block;
use std::marker::Model;

// The budget on a contour of this cost, by a threshold in percent.
pub(crate) fn budget_on(threshold: u32, cost: u128) -> u128
    requires threshold { threshold ≤ max_threshold }
    requires cost { cost ≤ max_contour_cost }
    ensures budget { result ≡ budget_of threshold cost }
    ensures bound { result < 2 ^ 118 }
{
    cost * u128::from(100 + threshold) / 100
}

/// A few plans of a block on each of its contours: with the counts, the grid and the threshold by which they were chosen.
#[derive(Drop)]
pub struct Bouquet {
    block: Block,
    stats: Stats,
    grid: Grid,
    threshold: u32,
    contours: Vec<Contour>,
    // What whoever made the bouquet knew of its grid's points, if it is kept.
    outline: Option<Outline>,
}

impl Model for Bouquet {
    ghost use Rattle.query_block.specs.contracts.condition.Condition as condition;
    ghost use Rattle.plan_tree.specs.contracts.plan.Plan as plan;
    ghost use Rattle.std.specs.Coded.{codes};
    ghost use Rattle.std.specs.Prelude.{IfSome};
    ghost use Rattle.bouquet_type.specs.Shapes.{BouquetShape, bouquet_shape};
    ghost use Rattle.bouquet_type.specs.Trees.{IsBouquet, IsOutline, bouquet_tree};

    ghost Value = { BouquetShape };

    ghost coded = { Prim.hlevel (codes, condition.the_row.coded, plan.the_row.coded) };

    ghost view = { λ b. record {
      block = b.block;
      stats = b.stats;
      grid = b.grid;
      threshold = b.threshold;
      contours = b.contours.items;
    } };

    ghost invariant = { λ b.
        let shape = bouquet_shape b.block b.stats b.grid b.threshold b.contours.items in
        IsBouquet shape × IfSome b.outline (IsOutline (bouquet_tree shape)) };
}

impl Bouquet {
    /// The bouquet of a block: by these counts, on this grid, with this threshold in percent, of these contours, the
    /// cheapest first. It takes no memory.
    pub fn new(
        block: Block,
        stats: Stats,
        grid: Grid,
        threshold: u32,
        contours: Vec<Contour>,
    ) -> Bouquet
        requires { IsBouquet (bouquet_shape block stats grid threshold contours.items) }
        ensures { result ≡ bouquet_shape block stats grid threshold contours.items }
    {
        Bouquet {
            block,
            stats,
            grid,
            threshold,
            contours,
            outline: None,
        }
    }

    /// The same bouquet, which keeps its outline. It takes no memory.
    pub fn with_outline(self, outline: Outline) -> Bouquet
        requires { IsOutline (bouquet_tree self) outline }
        ensures { result ≡ self }
    {
        Bouquet {
            outline: Some(outline),
            ..self
        }
    }

    /// The block of which its plans are.
    pub fn block(&self) -> &Block
        ensures block { result.now ≡ self.now.block }
        ensures bouquet { IsBouquet self.now }
    {
        &self.block
    }

    /// The counts of the block's tables.
    pub fn stats(&self) -> &Stats
        ensures { result.now ≡ self.now.stats }
    {
        &self.stats
    }

    /// The grid, each of whose axes is an edge of the block or a relation with a parameter.
    pub fn grid(&self) -> &Grid
        ensures { result.now ≡ self.now.grid }
    {
        &self.grid
    }

    /// The threshold, in percent: at most 1000.
    pub fn threshold(&self) -> u32
        ensures { result ≡ self.now.threshold }
    {
        self.threshold
    }

    /// Its contours, the cheapest first: 1 to 128.
    pub fn contours(&self) -> &[Contour]
        ensures contours { result.now ≡ self.now.contours }
        ensures bouquet { IsBouquet self.now }
    {
        &self.contours
    }

    /// What plans of the block cost, by these counts, on this grid.
    pub fn costing(&self) -> Costing<'_>
        ensures { result ≡ record {
          block = self.now.block;
          stats = self.now.stats;
          grid = self.now.grid;
        } }
    {
        Costing::new(&self.block, &self.stats, &self.grid)
    }

    /// The optimal costs of its grid's points, and the frontiers of its contours. None where it doesn't keep them.
    pub fn outline(&self) -> Option<&Outline>
        ensures { IfSome result (λ outline. IsOutline (bouquet_tree self.now) outline.now) }
    {
        match &self.outline {
            Some(outline) => Some(outline),
            None => None,
        }
    }

    /// The optimal cost at each point of its grid, in the grid's order, in units of work. None where it doesn't keep them.
    pub fn optimal_costs(&self) -> Option<&[u128]>
        ensures { IfSome result (λ costs. costs.now
            ≡ map (optimal_cost (bouquet_tree self.now).costing) (points_of self.now.grid)) }
    {
        match &self.outline {
            Some(outline) => Some(outline.costs.as_slice()),
            None => None,
        }
    }

    /// The budget of each execution on the contour of this number, from 1, in units of work.
    pub fn budget(&self, k: usize) -> u128
        requires some { 1 ≤ k }
        requires there { k ≤ length self.now.contours }
        ensures budget { result ≡ budget_of self.now.threshold (cost_on self.now k) }
        ensures bound { result < 2 ^ 118 }
    {
        budget_on(self.threshold, self.contours[k - 1].cost)
    }

    /// The most plans that one of its contours has: 1 to 4096.
    pub fn most(&self) -> u64
        ensures most { result ≡ most_plans (bouquet_tree self.now).contours }
        ensures some { 1 ≤ result }
        ensures few { result ≤ max_points }
    {
        let mut most = 0;
        for contour in self.contours() {
            most = most.max(contour.plans.len());
        }
        most as u64
    }
}
