// Which trees are plans of a block. A tree may be of any size and name any numbers, so each number is tested before it
// leads anywhere.
ghost use Rattle.std.specs.Prelude.{ℕ, ◌≡◌, ◌↔◌, ◌<◌, ◌≤◌, IsTrue, List, length};
ghost use Rattle.sql_values.specs.declared.value.Value.{Value};
ghost use Rattle.query_block.specs.Blocks.{BlockTree, block_tree, put_of, relation_at};
ghost use Rattle.plan_tree.specs.Plans.{PlanTree, plan_tree, has_leaf};
ghost use Rattle.plan_tree.specs.Enumerated.{AreApart, Crosses, IsIndexed, HasUsable, IsLookUp, IsScannable, IsSubPlan, IsPlan};
ghost use Rattle.plan_tree.specs.Sets.{is_between};

use crate::leaves::{has_leaf, share_leaf};
use crate::plan::Plan;
use crate::subset::column_of_edge;
use crate::usable::has_usable;
use query_block::{Block, Edge};

// Whether the block has a relation of this number.
fn is_relation(block: &Block, relation: u8) -> bool
    ensures { IsTrue result ↔ (relation < length block.now.relations) }
{
    (relation as usize) < block.relations().len()
}

/// Whether a column of a relation of the block is indexed.
pub fn is_indexed(block: &Block, relation: u8, column: u8) -> bool
    requires { relation < length block.now.relations }
    ensures { IsTrue result
        ↔ IsIndexed (relation_at (block_tree block.now).relations relation) column }
{
    let indexes = block.relations()[relation as usize].indexes.as_slice();
    indexes.contains(&column)
}

/// Whether some conjunct of a relation's filter is usable on an indexed column.
pub(crate) fn has_usable_on(block: &Block, relation: u8, column: u8) -> bool
    requires relation { relation < length block.now.relations }
    requires column { IsIndexed (relation_at (block_tree block.now).relations relation) column }
    ensures { IsTrue result
        ↔ HasUsable (relation_at (block_tree block.now).relations relation) column }
{
    let found = &block.relations()[relation as usize];
    has_usable(found.columns.as_slice(), column, found.filter.as_slice())
}

/// Whether a relation may be found by the index on a column.
pub(crate) fn is_scannable(block: &Block, relation: u8, column: u8) -> bool
    ensures { IsTrue result ↔ IsScannable (block_tree block.now) relation column }
{
    if !is_relation(block, relation) || !is_indexed(block, relation, column) {
        return false;
    }
    has_usable_on(block, relation, column)
}

// Whether an edge has one of its relations on each side.
fn joins(edge: &Edge, left: &Plan, right: &Plan) -> bool
    ensures { result ≡ is_between (has_leaf (plan_tree left.now)) (has_leaf (plan_tree right.now)) edge.now }
{
    has_leaf(left, edge.left) && has_leaf(right, edge.right)
        || has_leaf(left, edge.right) && has_leaf(right, edge.left)
}

// Whether the edge exists and crosses the two sides.
fn crosses(block: &Block, edge: u8, left: &Plan, right: &Plan) -> bool
    ensures { IsTrue result
        ↔ Crosses block.now.edges edge (plan_tree left.now) (plan_tree right.now) }
{
    let edges = block.edges();
    if edge as usize >= edges.len() {
        return false;
    }
    joins(&edges[edge as usize], left, right)
}

// Whether a relation may be looked up by an edge for each row of the left side.
fn is_look_up(block: &Block, edge: u8, left: &Plan, relation: u8) -> bool
    ensures { IsTrue result
        ↔ IsLookUp (block_tree block.now) edge (plan_tree left.now) relation }
{
    if !is_relation(block, relation) || has_leaf(left, relation) {
        return false;
    }
    crosses(block, edge, left, &Plan::Scan(relation))
        && is_indexed(block, relation, column_of_edge(block, edge, relation))
}

// Whether a tree is a plan of some of the block's relations.
#[cycle(is_sub_plan)]
fn is_sub_plan(block: &Block, p: &Plan) -> bool
    ensures { IsTrue result ↔ IsSubPlan (block_tree block.now) (plan_tree p.now) }
{
    match p {
        Plan::Scan(relation) => is_relation(block, *relation),
        Plan::IndexScan(relation, column) => is_scannable(block, *relation, *column),
        Plan::Nest(left, right) => {
            is_sub_plan(block, left) && is_sub_plan(block, right) && !share_leaf(left, right)
        }
        Plan::Hash(edge, left, right) | Plan::Merge(edge, left, right) => {
            is_sub_plan(block, left)
                && is_sub_plan(block, right)
                && !share_leaf(left, right)
                && crosses(block, *edge, left, right)
        }
        Plan::IndexLoop(edge, left, relation) => {
            is_sub_plan(block, left) && is_look_up(block, *edge, left, *relation)
        }
    }
}

// Whether a tree joins all relations of which there are so many.
fn joins_all(p: &Plan, relations: usize) -> bool
    requires { relations ≤ 8 }
    ensures { IsTrue result ↔
        ((relation : ℕ) → relation < relations → IsTrue (has_leaf (plan_tree p.now) relation)) }
{
    for relation in 0..relations {
        if !has_leaf(p, relation as u8) {
            return false;
        }
    }
    true
}

/// Whether a tree is a plan of a block: it joins each relation once, an index scan's column is indexed and has a usable
/// conjunct, an edge crosses the two sides of its join, and the right side of an index loop has an index on the edge's
/// column. It takes no memory, and as much of the machine's stack as the tree is deep.
pub fn is_plan(block: &Block, p: &Plan) -> bool
    ensures { IsTrue result ↔ IsPlan (block_tree block.now) (plan_tree p.now) }
{
    is_sub_plan(block, p) && joins_all(p, block.relations().len())
}

/// The law of values: whatever values are put in the places of a block's parameters, it has the same plans.
pub fn values_change_no_plan()
    ensures { (values : List Value) (block : BlockTree) (p : PlanTree) →
        IsPlan (put_of values block) p ↔ IsPlan block p }
{}
