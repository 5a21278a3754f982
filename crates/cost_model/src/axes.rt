// The axes on which the counts of a block's tables depend. They are found once for a costing, so that no filter is
// walked for a card or an index scan.
ghost use Rattle.std.specs.Prelude.{◌≡◌, ◌<◌, ◌≤◌, length};
ghost use Rattle.query_block.specs.Blocks.{block_tree, relation_tree, IsBlock};
ghost use Rattle.sql_values.specs.Limits.{max_columns};
ghost use Rattle.cost_model.specs.AtPoint.{has_open_usable};
ghost use Rattle.cost_model.specs.Axes.{AreAxes, AreOpen, AreOpenColumns};

use plan_tree::is_usable;
use query_block::{Block, Relation, is_open};
use sql_values::{MAX_COLUMNS, MAX_RELATIONS};

/// The axis of each relation.
pub(crate) fn relation_axes(block: &Block) -> [Option<u8>; MAX_RELATIONS]
    ensures block { IsBlock (block_tree block.now) }
    ensures axes { AreAxes (block_tree block.now) result }
{
    let mut axes = [None; MAX_RELATIONS];
    for relation in 0..block.relations().len() {
        axes[relation] = block.axis_of(relation as u8);
    }
    axes
}

/// For each column of each relation, whether the rows that an index on it finds depend on a parameter.
pub(crate) fn open_columns(block: &Block) -> [[bool; MAX_COLUMNS]; MAX_RELATIONS]
    ensures { AreOpen (block_tree block.now) result }
{
    let relations = block.relations();
    let mut columns = [[false; MAX_COLUMNS]; MAX_RELATIONS];
    for relation in 0..relations.len() {
        columns[relation] = open_columns_of(&relations[relation]);
    }
    columns
}

// The same for the columns of one relation.
fn open_columns_of(relation: &Relation) -> [bool; MAX_COLUMNS]
    requires { length relation.now.columns ≤ max_columns }
    ensures { AreOpenColumns (relation_tree relation.now) result }
{
    let mut columns = [false; MAX_COLUMNS];
    for column in 0..relation.columns.as_slice().len() {
        columns[column] = has_open_usable(relation, column as u8);
    }
    columns
}

// Whether some conjunct that an index on a column of the relation can use has a parameter.
fn has_open_usable(relation: &Relation, column: u8) -> bool
    requires { column < length relation.now.columns }
    ensures { result ≡ has_open_usable (relation_tree relation.now) column }
{
    let columns = relation.columns.as_slice();
    for conjunct in relation.filter.as_slice() {
        if is_usable(columns, column, conjunct) && is_open(conjunct) {
            return true;
        }
    }
    false
}
