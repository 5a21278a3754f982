// The frontiers of a bouquet's contours, of which one is at hand: that of the plan that was asked for last.
ghost use Rattle.std.specs.Prelude.{◌≡◌, ◌≤◌, IfOk, IfSome, IsTrue, OnOk, length, map, true};
ghost use Rattle.plan_tree.specs.Plans.{plan_tree};
ghost use Rattle.plan_tree.specs.Enumerated.{IsPlan};
ghost use Rattle.cost_model.specs.Frontier.{frontier};
ghost use Rattle.bouquet_type.specs.Shapes.{cost_on};
ghost use Rattle.bouquet_type.specs.Trees.{bouquet_tree};
ghost use Rattle.learned_run.specs.Skips.{covers_above};
ghost use Rattle.learned_run.specs.Covering.{IsMemberOf, bare_row, costing_shape, member_of, step_skip};

use crate::probes::{CoverTest, probe_covers};
use crate::rows::{FrontierRow, found_rows, kept_rows};
use crate::tried::TriedPlans;
use bouquet_type::{Attempt, Bouquet};
use cost_model::Costing;
use ess_grid::Point;
use plan_space::CostSurface;
use std::alloc::{AllocError, Global};
use std::marker::Model;

/// The frontiers of a bouquet's contours.
#[derive(Drop)]
pub(crate) struct Frontiers<'c> {
    bouquet: &'c Bouquet,
    costing: &'c Costing<'c>,
    // The optimal costs at all points, once they are asked for: those of a bouquet that doesn't keep them.
    surface: Option<CostSurface<'c>>,
    // The number of the contour at hand, from 1; 0 while there is none. Its plans, and the rows of its frontier.
    number: u32,
    plans: Option<TriedPlans<'c>>,
    rows: Vec<FrontierRow>,
}

impl<'c> Model for Frontiers<'c> {
    ghost use Rattle.query_block.specs.contracts.condition.Condition as condition;
    ghost use Rattle.plan_tree.specs.contracts.plan.Plan as plan;
    ghost use Rattle.std.specs.Coded.{codes};
    ghost use Rattle.std.specs.Prelude.{◌≡◌, IfSome};
    ghost use Rattle.bouquet_type.specs.Trees.{bouquet_tree};
    ghost use Rattle.learned_run.specs.Covering.{AreAtHand, FrontiersShape, costing_shape};

    ghost Value = { FrontiersShape };

    ghost coded = { Prim.hlevel (codes, condition.the_row.coded, plan.the_row.coded) };

    ghost view = { λ f. record { bouquet = f.bouquet.now; number = f.number } };

    ghost invariant = { λ f. (f.costing.now ≡ costing_shape f.bouquet.now)
        × IfSome f.surface (λ shape. shape ≡ costing_shape f.bouquet.now)
        × AreAtHand (bouquet_tree f.bouquet.now) f.number f.plans f.rows.items };
}

impl<'c> Frontiers<'c> {
    /// Those of a bouquet. It takes no memory.
    pub(crate) fn new(
        alloc: Global,
        bouquet: &'c Bouquet,
        costing: &'c Costing<'c>,
    ) -> Frontiers<'c>
        requires { costing.now ≡ costing_shape bouquet.now }
        ensures { result ≡ record { bouquet = bouquet.now; number = 0 } }
    {
        Frontiers {
            bouquet,
            costing,
            surface: None,
            number: 0,
            plans: None,
            rows: Vec::new(alloc),
        }
    }

    // The optimal costs, to be put back. They are found where they aren't there yet. Fails only if memory runs out.
    fn take_surface(&mut self, alloc: Global) -> Result<CostSurface<'c>, AllocError>
        ensures surface { IfOk result (λ surface. surface ≡ costing_shape self.old.bouquet) }
        ensures same { self.new ≡ self.old }
    {
        match self.surface.take() {
            Some(surface) => Ok(surface),
            None => CostSurface::new(alloc, self.costing, None),
        }
    }

    // The rows of the contour of this number, none of which is worked out. Fails only if memory runs out.
    fn bare_rows(&mut self, alloc: Global, number: u32) -> Result<Vec<FrontierRow>, AllocError>
        requires some { 1 ≤ number }
        requires there { number ≤ length self.old.bouquet.contours }
        ensures rows { let costing = (bouquet_tree self.old.bouquet).costing in IfOk result (λ rows.
            rows.items ≡ map (bare_row costing) (frontier costing (cost_on self.old.bouquet number))) }
        ensures same { self.new ≡ self.old }
    {
        let place = number as usize - 1;
        let cost = self.bouquet.contours()[place].cost;
        if let Some(outline) = self.bouquet.outline() {
            let points = &outline.frontiers[place];
            return kept_rows(
                alloc,
                self.costing,
                outline.costs.as_slice(),
                points.as_slice(),
            );
        }
        let surface = self.take_surface(alloc)?;
        let rows = found_rows(alloc, &surface, cost);
        self.surface = Some(surface);
        rows
    }

    // Comes to the contour of this number, if it isn't at hand. Fails only if memory runs out.
    fn climb_to(&mut self, alloc: Global, number: u32) -> Result<(), AllocError>
        requires some { 1 ≤ number }
        requires there { number ≤ length self.old.bouquet.contours }
        ensures at { OnOk result (self.new.number ≡ number) }
        ensures same { self.new.bouquet ≡ self.old.bouquet }
    {
        if self.number == number {
            return Ok(());
        }
        let contour = &self.bouquet.contours()[number as usize - 1];
        let threshold = self.bouquet.threshold();
        let plans = TriedPlans::new(alloc, self.costing, &contour.plans, threshold)?;
        let rows = self.bare_rows(alloc, number)?;
        self.plans = Some(plans);
        self.rows = rows;
        self.number = number;
        Ok(())
    }

    // Whether the plan of an execution on the contour at hand covers a point of the contour's frontier at or above this one. Fails
    // only if memory runs out.
    fn covers(
        &mut self,
        alloc: Global,
        step: Attempt<'_>,
        budget: u128,
        point: &Point,
    ) -> Result<bool, AllocError>
        requires member { IsMemberOf (bouquet_tree self.old.bouquet) (member_of step budget) }
        requires at { self.old.number ≡ step.contour }
        ensures covers { let bouquet = bouquet_tree self.old.bouquet in
            IfOk result (λ covers. covers ≡ covers_above bouquet.costing bouquet.threshold
            (plan_tree step.entry.plan.now) point.now (frontier bouquet.costing step.entry.cost)) }
        ensures same { self.new ≡ self.old }
    {
        match &mut self.plans {
            Some(plans) => plans.any_row_covers(alloc, &mut self.rows, step.place - 1, point),
            None => Ok(false),
        }
    }

    // Whether a quick look finds that the plan of an execution covers a point of its contour's frontier at or above this one. It
    // finds none where the bouquet keeps no frontiers.
    fn probe(&self, step: Attempt<'_>, budget: u128, point: &Point) -> bool
        requires member { IsMemberOf (bouquet_tree self.now.bouquet) (member_of step budget) }
        requires some { 1 ≤ step.contour }
        requires there { step.contour ≤ length self.now.bouquet.contours }
        requires plan { IsPlan (bouquet_tree self.now.bouquet).costing.block (plan_tree step.plan.now) }
        ensures { let bouquet = bouquet_tree self.now.bouquet in IsTrue result → true
            ≡ covers_above bouquet.costing bouquet.threshold (plan_tree step.entry.plan.now)
            point.now (frontier bouquet.costing step.entry.cost) }
    {
        let Some(outline) = self.bouquet.outline() else {
            return false;
        };
        self.bouquet.contours();
        let kept = &outline.frontiers[step.contour as usize - 1];
        let test = CoverTest {
            costing: self.costing,
            costs: outline.costs.as_slice(),
            threshold: self.bouquet.threshold(),
        };
        probe_covers(&test, step.plan, kept.as_slice(), point)
    }

    /// By which point an execution is skipped, if it is, where this one is learned. Fails only if memory runs out.
    pub(crate) fn skip_point(
        &mut self,
        alloc: Global,
        step: Attempt<'_>,
        learned: Option<Point>,
    ) -> Result<Option<Point>, AllocError>
        requires step { IfSome step.budget (λ budget.
            IsMemberOf (bouquet_tree self.old.bouquet) (member_of step budget)) }
        requires plan { IsPlan (bouquet_tree self.old.bouquet).costing.block (plan_tree step.plan.now) }
        ensures skip { IfOk result (λ skipped. skipped
            ≡ step_skip (bouquet_tree self.old.bouquet) step.entry learned step.entry.budget) }
        ensures same { self.new.bouquet ≡ self.old.bouquet }
    {
        let Some(budget) = step.budget else {
            return Ok(None);
        };
        let Some(point) = learned else {
            return Ok(None);
        };
        if self.probe(step, budget, &point) {
            return Ok(None);
        }
        self.climb_to(alloc, step.contour)?;
        if self.covers(alloc, step, budget, &point)? {
            return Ok(None);
        }
        Ok(Some(point))
    }
}
