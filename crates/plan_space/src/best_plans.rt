// The best plans of a block at points of a grid.
ghost use Rattle.std.specs.Prelude.{ℕ, ◌≡◌, ◌<◌, ◌≤◌, IfOk, IsTrue, List, length};
ghost use Rattle.sql_values.specs.Limits.{cost_bound};
ghost use Rattle.ess_grid.specs.Points.{points_of};
ghost use Rattle.query_block.specs.Blocks.{block_tree};
ghost use Rattle.cost_model.specs.Costing.{costing_tree, IsCosting};
ghost use Rattle.cost_model.specs.Optimal.{optimal_cost};
ghost use Rattle.plan_space.specs.Places.{HoldsAt};
ghost use Rattle.plan_space.specs.Table.{AllStand};
ghost use Rattle.plan_space.specs.Alike.{AreEarlier, LeastAt};

use crate::alike::axes_inside_sets;
use crate::entry::{Entry, no_entries};
use crate::kept_rows::KeptRows;
use crate::sets::set_of_all;
use crate::table::fill;
use cost_model::{Costing, PriceRoom, Prices};
use sql_values::MAX_AXES;
use std::alloc::{AllocError, Global};
use std::marker::Model;

/// What is best at points of a costing's grid. It is found when a point is asked for, and kept: 2 KiB a point.
#[derive(Drop)]
pub(crate) struct BestPlans<'c> {
    costing: &'c Costing<'c>,
    // For each set of relations the axes inside it.
    inside: [[bool; MAX_AXES]; 64],
    // The entries of all sets at the points that were asked for.
    rows: KeptRows,
    room: PriceRoom,
    // Lent to each point that is looked at.
    table: [Entry; 64],
}

impl<'c> Model for BestPlans<'c> {
    ghost use Rattle.query_block.specs.contracts.condition.Condition as condition;
    ghost use Rattle.std.specs.Coded.{codes};
    ghost use Rattle.cost_model.specs.Costing.{CostingShape};
    ghost use Rattle.plan_space.specs.Alike.{AreEarlierPoints};

    ghost Value = { CostingShape };

    ghost coded = { Prim.hlevel (codes, condition.the_row.coded) };

    ghost view = { λ best. best.costing.now };

    ghost invariant = { λ best. AreEarlierPoints best.costing.now best.inside best.rows };
}

// Fills a table with the entries at the point at this place, where these rows are kept.
fn fill_at(
    costing: &Costing<'_>,
    room: &mut PriceRoom,
    inside: &[[bool; MAX_AXES]; 64],
    rows: &KeptRows,
    place: usize,
    table: &mut [Entry; 64],
)
    requires earlier { AreEarlier costing.now inside.now rows.now }
    requires place { place < length (points_of costing.now.grid) }
    ensures { HoldsAt costing.now.grid place (LeastAt costing.now table.new) }
{
    let q = costing.grid().point(place);
    fill(&Prices::new(costing, &q, room), inside, rows, table);
}

impl<'c> BestPlans<'c> {
    /// That of a costing, of which no point was asked for yet. The only error is out of memory.
    pub(crate) fn new(alloc: Global, costing: &'c Costing<'c>) -> Result<BestPlans<'c>, AllocError>
        ensures { IfOk result (λ best. best ≡ costing.now) }
    {
        let inside = axes_inside_sets(costing);
        let rows = KeptRows::with_places(alloc, costing.grid().points())?;
        Ok(BestPlans {
            costing,
            inside,
            rows,
            room: PriceRoom::new(),
            table: no_entries(),
        })
    }

    /// The costing.
    pub(crate) fn costing(&self) -> &'c Costing<'c>
        ensures { result.now ≡ self.now }
    {
        self.costing
    }

    /// The entries of all sets at the point at this place of the grid, from 0. Where the point wasn't asked for they are found,
    /// and not kept.
    pub(crate) fn row(&self, place: usize) -> [Entry; 64]
        requires { place < length (points_of self.now.grid) }
        ensures least { HoldsAt self.now.grid place (LeastAt self.now result) }
        ensures stands { AllStand (block_tree self.now.block) result }
    {
        if let Some(row) = self.rows.row(place) {
            return *row;
        }
        let mut room = PriceRoom::new();
        let mut table = no_entries();
        fill_at(
            self.costing,
            &mut room,
            &self.inside,
            &self.rows,
            place,
            &mut table,
        );
        table
    }

    /// What the best plan costs at the point at this place of the grid, from 0: the optimal cost there. What is found is kept.
    /// The only error is out of memory.
    pub(crate) fn cost(&mut self, place: usize) -> Result<u128, AllocError>
        requires { place < length (points_of self.old.grid) }
        ensures cost { IfOk result (λ cost. HoldsAt self.old.grid place
            (λ point. cost ≡ optimal_cost (costing_tree self.old) point)) }
        ensures same { self.new ≡ self.old }
    {
        let costing = self.costing;
        let all = set_of_all(costing.block());
        if let Some(row) = self.rows.row(place) {
            return Ok(row[all.number() as usize].cost);
        }
        fill_at(
            costing,
            &mut self.room,
            &self.inside,
            &self.rows,
            place,
            &mut self.table,
        );
        self.rows.keep(place, &self.table)?;
        Ok(self.table[all.number() as usize].cost)
    }
}
