// What is kept of the best plan of a set of relations, and which of two such plans is kept.
ghost use Rattle.std.specs.Prelude.{◌≡◌, ◌⊎◌};
ghost use Rattle.std.specs.Ordering.{nat_cmp};
ghost use Rattle.std.specs.Cmp.Lexicographic.{slice_cmp};
ghost use Rattle.plan_tree.specs.Roots.{root_numbers};
ghost use Rattle.plan_space.specs.Table.{NotLater};

use plan_tree::Root;
use std::cmp::Ordering;

/// The cost of a plan and its outermost node. The plans of the sides stand in the entries of their sets.
#[derive(Clone, Copy)]
pub(crate) struct Entry {
    pub(crate) cost: u128,
    pub(crate) root: Root,
}

/// The entries of a table that isn't filled yet.
pub(crate) fn no_entries() -> [Entry; 64] {
    [Entry {
        cost: 0,
        root: Root::Scan(0),
    }; 64]
}

// What plan order compares of an outermost node.
fn root_numbers(root: Root) -> [u8; 5]
    ensures { result ≡ root_numbers root }
{
    match root {
        Root::Scan(relation) => [0, 0, relation, 0, 0],
        Root::IndexScan(relation, column) => [1, 0, relation, column, 0],
        Root::Nest(left) => [2, 0, 0, 0, left],
        Root::Hash(edge, left) => [3, edge, 0, 0, left],
        Root::Merge(edge, left) => [4, edge, 0, 0, left],
        Root::IndexLoop(edge, left, _) => [5, edge, 0, 0, left],
    }
}

// The order of two outermost nodes.
fn root_order(root: Root, other: Root) -> Ordering
    ensures { result ≡ slice_cmp nat_cmp (root_numbers root) (root_numbers other) }
{
    root_numbers(root).cmp(&root_numbers(other))
}

/// Of the plan that was found and the plan that is offered, the cheaper one; of equally cheap ones the first in plan order.
pub(crate) fn keep(found: Entry, offered: Entry) -> Entry
    ensures either { (result ≡ found) ⊎ (result ≡ offered) }
    ensures to_found { NotLater result found }
    ensures to_offered { NotLater result offered }
{
    match found.cost.cmp(&offered.cost) {
        Ordering::Less => found,
        Ordering::Equal => match root_order(found.root, offered.root) {
            Ordering::Greater => offered,
            _ => found,
        },
        Ordering::Greater => offered,
    }
}
