// Plan order. Each function calls itself for the sides of a join, so the stack that it takes is bounded by how deep the
// plans are.
ghost use Rattle.std.specs.Prelude.{ℕ, ◌≡◌, ◌↔◌, ◌++◌, List};
ghost use Rattle.std.specs.declared.cmp.Ordering.TheVariants.{Equal};
ghost use Rattle.std.specs.Ordering.{nat_cmp, ordering_then};
ghost use Rattle.std.specs.Cmp.{IsTotalOrder};
ghost use Rattle.std.specs.Cmp.Lexicographic.{slice_cmp};
ghost use Rattle.plan_tree.specs.Plans.{plan_tree, FitsSet, PlanTree};
ghost use Rattle.plan_tree.specs.Sides.{side_order};
ghost use Rattle.plan_tree.specs.Order.{node_numbers, plan_numbers, plan_order_of};

use crate::plan::Plan;
use std::cmp::Ordering;

// The order of two plans by their outermost nodes alone.
fn node_order(a: &Plan, b: &Plan) -> Ordering
    requires a { FitsSet (plan_tree a.now) }
    requires b { FitsSet (plan_tree b.now) }
    ensures { result
        ≡ slice_cmp nat_cmp (node_numbers (plan_tree a.now)) (node_numbers (plan_tree b.now)) }
{
    a.root().numbers().cmp(&b.root().numbers())
}

// The order of two plans by their sides alone.
#[cycle(plan_order)]
fn side_order(a: &Plan, b: &Plan) -> Ordering
    requires a { FitsSet (plan_tree a.now) }
    requires b { FitsSet (plan_tree b.now) }
    ensures { result ≡ side_order (plan_tree a.now) (plan_tree b.now) }
{
    match a {
        Plan::Scan(_) | Plan::IndexScan(..) => Ordering::Equal,
        Plan::Nest(left, right) | Plan::Hash(_, left, right) | Plan::Merge(_, left, right) => {
            match plan_order(left, b.left()) {
                Ordering::Equal => plan_order(right, b.right()),
                unequal => unequal,
            }
        }
        Plan::IndexLoop(_, left, relation) => match plan_order(left, b.left()) {
            Ordering::Equal => relation.cmp(&b.right_relation()),
            unequal => unequal,
        },
    }
}

/// Which of two plans comes first: it compares the kind, the edge, a leaf's relation and column, the set of the left side
/// as a number, then the left plans, then the right plans or the right relations. It takes no memory.
#[cycle(plan_order)]
pub fn plan_order(a: &Plan, b: &Plan) -> Ordering
    requires a { FitsSet (plan_tree a.now) }
    requires b { FitsSet (plan_tree b.now) }
    ensures { result ≡ plan_order_of (plan_tree a.now) (plan_tree b.now) }
{
    match node_order(a, b) {
        Ordering::Equal => side_order(a, b),
        unequal => unequal,
    }
}

/// A law: plan order is total, only the same plan is equal to a plan, and left plans decide before right ones.
pub fn plan_order_is_total()
    ensures total { IsTotalOrder plan_order_of }
    ensures same { (a b : PlanTree) → (plan_order_of a b ≡ Equal) ↔ (a ≡ b) }
    ensures sides { (a b : PlanTree) (xs ys : List ℕ) →
        slice_cmp nat_cmp (plan_numbers a ++ xs) (plan_numbers b ++ ys)
        ≡ ordering_then (plan_order_of a b) (slice_cmp nat_cmp xs ys) }
{}
