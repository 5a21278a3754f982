// The relations that a plan joins. Each function calls itself for the sides of a join, so the stack that it takes is
// bounded by how deep the plan is.
ghost use Rattle.std.specs.Prelude.{ℕ, ◌≡◌, ◌↔◌, ◌<◌, ◌^◌, IsBitSet, IsTrue, min, length};
ghost use Rattle.std.specs.List.{list_any};
ghost use Rattle.plan_tree.specs.Plans.{plan_tree, leaves_of, has_leaf, covers_of, FitsSet, PlanTree};

use crate::plan::Plan;
use crate::subset::Subset;

/// Whether a plan joins a relation.
#[cycle(has_leaf)]
pub(crate) fn has_leaf(p: &Plan, relation: u8) -> bool
    ensures { result ≡ has_leaf (plan_tree p.now) relation }
{
    match p {
        Plan::Scan(leaf) | Plan::IndexScan(leaf, _) => relation == *leaf,
        Plan::Nest(left, right) | Plan::Hash(_, left, right) | Plan::Merge(_, left, right) => {
            has_leaf(left, relation) || has_leaf(right, relation)
        }
        Plan::IndexLoop(_, left, leaf) => has_leaf(left, relation) || relation == *leaf,
    }
}

/// Whether some relation is joined by both plans.
#[cycle(share_leaf)]
pub(crate) fn share_leaf(p: &Plan, other: &Plan) -> bool
    ensures { result ≡ list_any (has_leaf (plan_tree other.now)) (leaves_of (plan_tree p.now)) }
{
    match p {
        Plan::Scan(leaf) | Plan::IndexScan(leaf, _) => has_leaf(other, *leaf),
        Plan::Nest(left, right) | Plan::Hash(_, left, right) | Plan::Merge(_, left, right) => {
            share_leaf(left, other) || share_leaf(right, other)
        }
        Plan::IndexLoop(_, left, leaf) => share_leaf(left, other) || has_leaf(other, *leaf),
    }
}

/// How many relations a plan joins; 255 stands for more too.
#[cycle(leaf_count)]
pub(crate) fn leaf_count(p: &Plan) -> u8
    ensures { result ≡ min (length (leaves_of (plan_tree p.now))) 255 }
{
    match p {
        Plan::Scan(_) | Plan::IndexScan(_, _) => 1,
        Plan::Nest(left, right) | Plan::Hash(_, left, right) | Plan::Merge(_, left, right) => {
            leaf_count(left).saturating_add(leaf_count(right))
        }
        Plan::IndexLoop(_, left, _) => leaf_count(left).saturating_add(1),
    }
}

/// The relations that a plan joins. It takes no memory.
#[cycle(covers)]
pub fn covers(p: &Plan) -> Subset
    requires { FitsSet (plan_tree p.now) }
    ensures { result ≡ covers_of (plan_tree p.now) }
{
    match p {
        Plan::Scan(leaf) | Plan::IndexScan(leaf, _) => Subset::one(*leaf),
        Plan::Nest(left, right) | Plan::Hash(_, left, right) | Plan::Merge(_, left, right) => {
            covers(left).union(covers(right))
        }
        Plan::IndexLoop(_, left, leaf) => covers(left).union(Subset::one(*leaf)),
    }
}

/// The law of sets as numbers: bit r is 1 exactly where the plan joins relation r.
pub fn bits_are_leaves()
    ensures { (p : PlanTree) (relation : ℕ) →
        IsBitSet (covers_of p) relation ↔ IsTrue (has_leaf p relation) }
{}
