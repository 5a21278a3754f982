// Which other point serves for a set of relations: what plans of a set cost depends on the levels of the axes inside it alone.
// These are the axes of the edges inside it and of its relations.
ghost use Rattle.std.specs.Prelude.{ℕ, ◌≡◌, ◌<◌, ◌≤◌, IsTrue, false, if◌then◌else◌, length, slice_index_or};
ghost use Rattle.query_block.specs.Blocks.{block_tree};
ghost use Rattle.cost_model.specs.Costing.{IsCosting, costing_tree};
ghost use Rattle.cost_model.specs.Prices.{block_at};
ghost use Rattle.plan_space.specs.Alike.{AreInside, AreInsideSets, IsAlikePlace, MarksEdges, MarksRelation};

use cost_model::{Costing, Prices};
use plan_tree::Subset;
use query_block::{Block, axis_of_edge};
use sql_values::MAX_AXES;

// The axes of the edges inside a set.
fn edges_inside(block: &Block, set: Subset) -> [bool; MAX_AXES]
    ensures { MarksEdges (block_tree block.now) set result }
{
    let edges = block.edges();
    let mut inside = [false; MAX_AXES];
    for edge in 0..edges.len() {
        inside[axis_of_edge(edge as u8)] = set.has_both(&edges[edge]);
    }
    inside
}

// Marks the axis of a relation, if it is in the set and has one.
fn mark_relation(costing: &Costing<'_>, set: Subset, relation: u8, inside: &mut [bool; MAX_AXES])
    requires costing { IsCosting (costing_tree costing.now) }
    requires relation { relation < length costing.now.block.relations }
    ensures marked { MarksRelation (block_tree costing.now.block) set relation inside.new }
    ensures others { (axis : ℕ) → IsTrue (slice_index_or inside.old axis false) →
        IsTrue (slice_index_or inside.new axis false) }
{
    if let Some(axis) = costing.axis_of(relation)
        && set.has(relation)
    {
        inside[axis as usize] = true;
    }
}

// The axes inside a set.
fn axes_inside(costing: &Costing<'_>, set: Subset) -> [bool; MAX_AXES]
    ensures { AreInside (block_tree costing.now.block) set result }
{
    let block = costing.block();
    let mut inside = edges_inside(block, set);
    for relation in 0..block.relations().len() {
        mark_relation(costing, set, relation as u8, &mut inside);
    }
    inside
}

/// For each set of relations the axes inside it.
pub(crate) fn axes_inside_sets(costing: &Costing<'_>) -> [[bool; MAX_AXES]; 64]
    ensures { AreInsideSets (block_tree costing.now.block) result }
{
    let mut sets = [[false; MAX_AXES]; 64];
    for set in 0..64 {
        sets[set] = axes_inside(costing, Subset::new(set as u8));
    }
    sets
}

// The level where an axis is inside, and the lowest one elsewhere.
fn kept_level(inside: bool, level: u8) -> u8
    ensures { result ≡ (if inside then level else 0) }
{
    if inside { level } else { 0 }
}

/// The place of the first of the points that are alike for a set: it has the levels of the axes inside the set, and level 0
/// on all others.
pub(crate) fn alike_place(
    prices: &Prices<'_>,
    inside: &[[bool; MAX_AXES]; 64],
    set: Subset,
) -> usize
    requires set { set < 64 }
    requires inside { AreInsideSets (block_at prices.now) inside.now }
    ensures { IsAlikePlace prices.now set result }
{
    let _block = prices.block();
    let kept = &inside[set.number() as usize];
    let count = prices.grid().levels();
    let levels = prices.point().levels();
    let mut place = 0;
    for axis in (0..levels.len()).rev() {
        place = place * count + kept_level(kept[axis], levels[axis]) as usize;
    }
    place
}
