// What the cards and costs of plans depend on.
ghost use Rattle.std.specs.Prelude.{◌≡◌, ◌<◌, ◌≤◌, IfSome, length, slice_index};
ghost use Rattle.ess_grid.specs.Levels.{full_selectivity, halvings_of, selectivity_bits};
ghost use Rattle.ess_grid.specs.Points.{IsPoint};
ghost use Rattle.query_block.specs.Blocks.{axes_of, axis_of, block_tree};
ghost use Rattle.cost_model.specs.Fits.{FitsBlock};
ghost use Rattle.cost_model.specs.Costing.{costing_tree, IsCosting};
ghost use Rattle.cost_model.specs.AtPoint.{axis_of_index};
ghost use Rattle.cost_model.specs.Cards.{selectivity_at};
ghost use Rattle.cost_model.specs.Costs.{relation_stats};
ghost use Rattle.cost_model.specs.Few.{AreFew};

use crate::axes::{open_columns, relation_axes};
use crate::stats::{RelationStats, Stats};
use ess_grid::{Grid, Point};
use query_block::{Block, axis_of_edge};
use sql_values::{MAX_COLUMNS, MAX_RELATIONS};
use std::marker::Model;

/// What plans of a block cost at the points of a grid: the block, the counts of its tables and the grid, lent.
#[derive(Drop)]
pub struct Costing<'c> {
    block: &'c Block,
    stats: &'c Stats,
    grid: &'c Grid,
    axes: [Option<u8>; MAX_RELATIONS],
    open_columns: [[bool; MAX_COLUMNS]; MAX_RELATIONS],
}

impl<'c> Model for Costing<'c> {
    ghost use Rattle.query_block.specs.contracts.condition.Condition as condition;
    ghost use Rattle.std.specs.Coded.{codes};
    ghost use Rattle.cost_model.specs.Costing.{CostingShape, costing_tree};
    ghost use Rattle.cost_model.specs.Axes.{KeepsAxes};

    ghost Value = { CostingShape };

    ghost coded = { Prim.hlevel (codes, condition.the_row.coded) };

    ghost view = { λ c. record { block = c.block.now; stats = c.stats.now; grid = c.grid.now } };

    ghost invariant = { λ c. KeepsAxes (costing_tree
        (record { block = c.block.now; stats = c.stats.now; grid = c.grid.now }))
        c.axes c.open_columns };
}

impl<'c> Costing<'c> {
    /// The costs of plans of this block, by these counts, on this grid, which has the block's axes.
    pub fn new(block: &'c Block, stats: &'c Stats, grid: &'c Grid) -> Costing<'c>
        requires stats { FitsBlock (block_tree block.now) stats.now }
        requires axes { grid.now.axes ≡ axes_of (block_tree block.now) }
        ensures { result ≡ record { block = block.now; stats = stats.now; grid = grid.now } }
    {
        let _levels = grid.levels();
        let axes = relation_axes(block);
        let open_columns = open_columns(block);
        Costing {
            block,
            stats,
            grid,
            axes,
            open_columns,
        }
    }

    /// The block.
    pub fn block(&self) -> &'c Block
        ensures block { result.now ≡ self.now.block }
        ensures costing { IsCosting (costing_tree self.now) }
    {
        self.block
    }

    /// The counts of its tables.
    pub fn stats(&self) -> &'c Stats
        ensures { result.now ≡ self.now.stats }
    {
        self.stats
    }

    /// The grid.
    pub fn grid(&self) -> &'c Grid
        ensures { result.now ≡ self.now.grid }
    {
        self.grid
    }
}

impl<'c> Costing<'c> {
    /// The axis of a relation whose filter has a parameter; any other has none.
    pub fn axis_of(&self, relation: u8) -> Option<u8>
        requires { relation < length self.now.block.relations }
        ensures axis { result ≡ axis_of (block_tree self.now.block) relation }
        ensures of_grid { IfSome result (λ axis. axis < self.now.grid.axes) }
    {
        self.axes[relation as usize]
    }

    /// The axis of an index on a column of a relation, where the rows that it finds depend on a parameter.
    pub(crate) fn axis_of_index(&self, relation: u8, column: u8) -> Option<u8>
        requires { relation < length self.now.block.relations }
        ensures axis { result ≡ axis_of_index (block_tree self.now.block) relation column }
        ensures of_grid { IfSome result (λ axis. axis < self.now.grid.axes) }
    {
        let axis = self.axis_of(relation);
        if axis.is_none() {
            return None;
        }
        let counted = &self.block().relations()[relation as usize];
        if column as usize >= counted.columns.as_slice().len() {
            return None;
        }
        if self.open_columns[relation as usize][column as usize] {
            return axis;
        }
        None
    }

    /// The counts of a relation.
    pub(crate) fn relation(&self, relation: u8) -> &'c RelationStats
        requires { relation < length self.now.block.relations }
        ensures stats { result.now ≡ relation_stats self.now.stats relation }
        ensures few { AreFew result.now }
    {
        &self.stats.relations.as_slice()[relation as usize]
    }
}

impl<'c> Costing<'c> {
    /// The selectivity of an edge at a point of the grid.
    pub(crate) fn selectivity(&self, edge: u8, q: &Point) -> u32
        requires edge { edge < length self.now.block.edges }
        requires point { IsPoint self.now.grid q.now }
        ensures selectivity { result ≡ selectivity_at self.now.grid q.now edge }
        ensures part { result ≤ full_selectivity }
    {
        self.grid.selectivity(q.levels()[axis_of_edge(edge)])
    }
    /// How often the whole is halved to come to it.
    pub(crate) fn halvings(&self, edge: u8, q: &Point) -> u8
        requires edge { edge < length self.now.block.edges }
        requires point { IsPoint self.now.grid q.now }
        ensures halvings { result
            ≡ halvings_of self.now.grid.levels (slice_index q.now edge) }
        ensures few { result ≤ selectivity_bits }
    {
        self.grid.halvings(q.levels()[axis_of_edge(edge)]) as u8
    }
}
