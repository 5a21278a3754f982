// The outermost nodes of plans, and those of all plans of a set of relations.
ghost use Rattle.std.specs.Prelude.{◌≡◌, ◌↔◌, ◌<◌, ◌≤◌, ◌∷◌, [], IfOk, IsTrue, OnOk, length};
ghost use Rattle.query_block.specs.Blocks.{block_tree};
ghost use Rattle.plan_tree.specs.Roots.{root_numbers, IsLookedUp, Stands};
ghost use Rattle.plan_tree.specs.declared.roots.Root.TheVariants as root;
ghost use Rattle.plan_tree.specs.AllPlans.{column_scans, end_of_columns, far_end, index_scans_of, joins_by, nests_of, one_each, roots_of, scans_of};
ghost use Rattle.plan_tree.specs.Enumerated.{edge_at};
ghost use Rattle.plan_tree.specs.Sets.{set_of};
ghost use Rattle.plan_tree.specs.Listing.{join_by, Puts};

use crate::rules::{is_indexed, is_scannable};
use crate::subset::{Subset, column_of_edge, is_crossed};
use query_block::Block;
use std::alloc::{AllocError, Global};

/// The outermost node of a plan of a set of relations: its sides are sets, bit r for relation r. What isn't in the left
/// side of a join is in the right one. Relations, columns and edges are numbers from 0.
#[derive(Clone, Copy, PartialEq, Eq)]
pub enum Root {
    /// All rows of a relation.
    Scan(u8),
    /// The rows of a relation that an index finds: the relation, the column.
    IndexScan(u8, u8),
    /// A nested loop: the left side.
    Nest(u8),
    /// A hash join: the edge, the left side.
    Hash(u8, u8),
    /// A merge join: the edge, the left side.
    Merge(u8, u8),
    /// An index loop: the edge, the left side, the relation on the right.
    IndexLoop(u8, u8, u8),
}

impl Root {
    /// What plan order compares of it: the kind, the edge, a leaf's relation and column, the left side.
    pub fn numbers(self) -> [u8; 5]
        ensures { result ≡ root_numbers self }
    {
        match self {
            Root::Scan(relation) => [0, 0, relation, 0, 0],
            Root::IndexScan(relation, column) => [1, 0, relation, column, 0],
            Root::Nest(left) => [2, 0, 0, 0, left],
            Root::Hash(edge, left) => [3, edge, 0, 0, left],
            Root::Merge(edge, left) => [4, edge, 0, 0, left],
            Root::IndexLoop(edge, left, _) => [5, edge, 0, 0, left],
        }
    }
}

/// The kinds of joins by an edge.
#[derive(Clone, Copy)]
pub(crate) enum EdgeJoin {
    Hash,
    Merge,
    IndexLoop,
}

// Whether the block has a relation of this number, and the set is that relation alone.
fn is_alone(block: &Block, set: Subset, relation: u8) -> bool
    ensures { IsTrue result ↔ Stands (block_tree block.now) (root.Scan relation) set }
{
    (relation as usize) < block.relations().len() && set.number() == Subset::one(relation).number()
}

// Whether the set has two sides, and the edge exists and crosses them.
fn is_joined(block: &Block, set: Subset, edge: u8, left: Subset) -> bool
    ensures { IsTrue result ↔ Stands (block_tree block.now) (root.Hash edge left) set }
{
    left.splits(set)
        && (edge as usize) < block.edges().len()
        && is_crossed(block, edge, left, set.without(left))
}

// Whether the right side is one relation of the block, with an index on its column of the edge.
fn is_looked_up(block: &Block, edge: u8, right: Subset, relation: u8) -> bool
    requires { edge < length block.now.edges }
    ensures { IsTrue result ↔ IsLookedUp (block_tree block.now) edge right relation }
{
    is_alone(block, right, relation)
        && is_indexed(block, relation, column_of_edge(block, edge, relation))
}

// Whether a node may be the outermost one of a plan of the set.
fn stands(block: &Block, set: Subset, node: Root) -> bool
    ensures { IsTrue result ↔ Stands (block_tree block.now) node set }
{
    match node {
        Root::Scan(relation) => is_alone(block, set, relation),
        Root::IndexScan(relation, column) => {
            is_alone(block, set, relation) && is_scannable(block, relation, column)
        }
        Root::Nest(left) => Subset::new(left).splits(set),
        Root::Hash(edge, left) | Root::Merge(edge, left) => {
            is_joined(block, set, edge, Subset::new(left))
        }
        Root::IndexLoop(edge, left, relation) => {
            let left = Subset::new(left);
            is_joined(block, set, edge, left)
                && is_looked_up(block, edge, set.without(left), relation)
        }
    }
}

// Puts a node at the end where it may stand over the set.
fn put(block: &Block, set: Subset, node: Root, into: &mut Vec<Root>) -> Result<(), AllocError>
    ensures { OnOk result (Puts (block_tree block.now) set into.old into.new (λ _. node ∷ [])) }
{
    if stands(block, set, node) {
        into.push(node)?;
    }
    Ok(())
}

// One more than the greatest of some columns; 0 where there is none.
fn end_of_columns(columns: &[u8]) -> usize
    ensures end { result ≡ end_of_columns columns.now }
    ensures bound { result ≤ 256 }
{
    let mut end = 0;
    for column in columns {
        end = end.max(*column as usize + 1);
    }
    end
}

// Puts the scans at the end.
fn put_scans(block: &Block, set: Subset, into: &mut Vec<Root>) -> Result<(), AllocError>
    ensures { OnOk result (Puts (block_tree block.now) set into.old into.new scans_of) }
{
    for relation in 0..block.relations().len() {
        put(block, set, Root::Scan(relation as u8), into)?;
    }
    Ok(())
}

// Puts the index scans of one relation at the end.
fn put_column_scans(
    block: &Block,
    set: Subset,
    relation: u8,
    into: &mut Vec<Root>,
) -> Result<(), AllocError>
    requires { relation < length block.now.relations }
    ensures { OnOk result
        (Puts (block_tree block.now) set into.old into.new (λ b. column_scans b relation)) }
{
    let end = end_of_columns(block.relations()[relation as usize].indexes.as_slice());
    for column in 0..end {
        put(block, set, Root::IndexScan(relation, column as u8), into)?;
    }
    Ok(())
}

// Puts the index scans at the end.
fn put_index_scans(block: &Block, set: Subset, into: &mut Vec<Root>) -> Result<(), AllocError>
    ensures { OnOk result (Puts (block_tree block.now) set into.old into.new index_scans_of) }
{
    for relation in 0..block.relations().len() {
        put_column_scans(block, set, relation as u8, into)?;
    }
    Ok(())
}

// Puts the nested loops at the end.
fn put_nests(block: &Block, set: Subset, into: &mut Vec<Root>) -> Result<(), AllocError>
    ensures { OnOk result (Puts (block_tree block.now) set into.old into.new (λ _. nests_of set)) }
{
    for left in 0..set.number() {
        put(block, set, Root::Nest(left), into)?;
    }
    Ok(())
}

// The relation of an edge that isn't on the left, where the other one is.
fn far_end(block: &Block, edge: u8, left: Subset) -> u8
    requires { edge < length block.now.edges }
    ensures { result ≡ far_end (edge_at block.now.edges edge) (set_of left) }
{
    let edge = block.edges()[edge as usize];
    if left.has(edge.left) {
        edge.right
    } else {
        edge.left
    }
}

// The join of a kind by an edge with a left side.
fn join_by(block: &Block, kind: EdgeJoin, edge: u8, left: u8) -> Root
    requires { edge < length block.now.edges }
    ensures { result ≡ join_by (block_tree block.now) kind edge left }
{
    match kind {
        EdgeJoin::Hash => Root::Hash(edge, left),
        EdgeJoin::Merge => Root::Merge(edge, left),
        EdgeJoin::IndexLoop => {
            Root::IndexLoop(edge, left, far_end(block, edge, Subset::new(left)))
        }
    }
}

// Puts the joins of a kind by an edge at the end.
fn put_joins(
    block: &Block,
    set: Subset,
    kind: EdgeJoin,
    edge: u8,
    into: &mut Vec<Root>,
) -> Result<(), AllocError>
    requires { edge < length block.now.edges }
    ensures { OnOk result
        (Puts (block_tree block.now) set into.old into.new (λ b. one_each (join_by b kind edge) set)) }
{
    for left in 0..set.number() {
        put(block, set, join_by(block, kind, edge, left), into)?;
    }
    Ok(())
}

// Puts the joins of a kind by each edge at the end.
fn put_edge_joins(
    block: &Block,
    set: Subset,
    kind: EdgeJoin,
    into: &mut Vec<Root>,
) -> Result<(), AllocError>
    ensures { OnOk result
        (Puts (block_tree block.now) set into.old into.new (λ b. joins_by b (join_by b kind) set)) }
{
    for edge in 0..block.edges().len() {
        put_joins(block, set, kind, edge as u8, into)?;
    }
    Ok(())
}

/// The outermost nodes of the plans of a set, in plan order. Fails only if memory runs out.
pub(crate) fn roots_of(alloc: Global, block: &Block, set: Subset) -> Result<Vec<Root>, AllocError>
    ensures { IfOk result (λ roots. roots.items ≡ roots_of (block_tree block.now) set) }
{
    let mut roots = Vec::new(alloc);
    put_scans(block, set, &mut roots)?;
    put_index_scans(block, set, &mut roots)?;
    put_nests(block, set, &mut roots)?;
    put_edge_joins(block, set, EdgeJoin::Hash, &mut roots)?;
    put_edge_joins(block, set, EdgeJoin::Merge, &mut roots)?;
    put_edge_joins(block, set, EdgeJoin::IndexLoop, &mut roots)?;
    Ok(roots)
}
