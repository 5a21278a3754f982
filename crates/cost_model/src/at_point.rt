// The counts of a block's tables at a point of the grid: those that depend on a parameter are scaled by the selectivity on an
// axis.
ghost use Rattle.std.specs.Prelude.{◌≡◌, ◌<◌, ◌≤◌, IfSome, length};
ghost use Rattle.ess_grid.specs.Points.{IsPoint};
ghost use Rattle.cost_model.specs.Costing.{costing_tree};
ghost use Rattle.cost_model.specs.AtPoint.{scaled_on, stats_at};
ghost use Rattle.cost_model.specs.Costs.{relation_stats};

use crate::arithmetic::scaled;
use crate::costing::Costing;
use ess_grid::Point;

impl Costing<'_> {
    /// A number of rows, scaled by the selectivity on an axis, if there is one.
    pub(crate) fn scaled_on(&self, axis: Option<u8>, rows: u64, q: &Point) -> u64
        requires axis { IfSome axis (λ axis. axis < self.now.grid.axes) }
        requires point { IsPoint self.now.grid q.now }
        ensures scaled { result ≡ scaled_on self.now.grid q.now axis rows }
        ensures few { result ≤ rows }
    {
        match axis {
            None => rows,
            Some(axis) => {
                let selectivity = self.grid().selectivity(q.levels()[axis as usize]);
                scaled(u128::from(rows), selectivity) as u64
            }
        }
    }

    /// How many rows of a relation its filter is taken to keep at a point of the grid.
    pub(crate) fn kept(&self, relation: u8, q: &Point) -> u64
        requires relation { relation < length self.now.block.relations }
        requires point { IsPoint self.now.grid q.now }
        ensures { let stats = stats_at (costing_tree self.now) q.now in
            result ≡ (relation_stats stats relation).kept }
    {
        let rows = self.relation(relation).kept;
        self.scaled_on(self.axis_of(relation), rows, q)
    }
}
