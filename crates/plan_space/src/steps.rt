// The search for the entry of a set: what the plans of the sides of a node cost, and one node more is considered.
ghost use Rattle.std.specs.Prelude.{◌≡◌, ◌+◌, ◌-◌, ◌*◌, ◌^◌, ◌<◌, ◌≤◌};
ghost use Rattle.plan_tree.specs.declared.roots.Root.{Root};
ghost use Rattle.plan_tree.specs.Roots.{IsSplit, Stands};
ghost use Rattle.cost_model.specs.Prices.{block_at, IsPrice};
ghost use Rattle.plan_space.specs.Table.{entry_at, side_costs};
ghost use Rattle.plan_space.specs.Search.{IsFound};
ghost use Rattle.plan_space.specs.Steps.{Considers, HasLeft};

use crate::entry::{Entry, keep};
use cost_model::Prices;
use plan_tree::{Root, Subset};
use std::marker::Model;

/// The search for the entry of a set of relations: the prices of nodes, the table, in which the entries of all smaller sets
/// stand, and the set.
#[derive(Drop)]
pub(crate) struct Search<'s> {
    pub(crate) prices: &'s Prices<'s>,
    pub(crate) table: &'s [Entry; 64],
    pub(crate) set: Subset,
}

impl<'s> Model for Search<'s> {
    ghost use Rattle.query_block.specs.contracts.condition.Condition as condition;
    ghost use Rattle.std.specs.Coded.{codes};
    ghost use Rattle.plan_space.specs.Search.{SearchShape, IsFilledBelow};

    ghost Value = { SearchShape };

    ghost coded = { Prim.hlevel (codes, condition.the_row.coded) };

    ghost view = { λ s. record { at = s.prices.now; table = s.table.now; set = s.set } };

    ghost invariant = { λ s. IsFilledBelow
        (record { at = s.prices.now; table = s.table.now; set = s.set }) };
}

impl Search<'_> {
    // What the plan of a side of the set costs.
    fn side_cost(&self, side: Subset) -> u128
        requires some { 1 ≤ side }
        requires less { side < self.now.set }
        ensures cost { result ≡ (entry_at self.now.table side).cost }
        ensures bound { result + 2 ^ 108 ≤ 2 ^ 108 * (2 * side) }
    {
        self.table[side.number() as usize].cost
    }

    // What the plans of the sides of a node cost.
    fn side_costs(&self, root: Root) -> u128
        requires { Stands (block_at self.now.at) root self.now.set }
        ensures costs { result ≡ side_costs self.now.table root self.now.set }
        ensures bound { result + 2 ^ 109 ≤ 2 ^ 109 * self.now.set }
        ensures few { self.now.set < 64 }
    {
        match root {
            Root::Scan(_) | Root::IndexScan(_, _) => 0,
            Root::Nest(left) | Root::Hash(_, left) | Root::Merge(_, left) => {
                let left = Subset::new(left);
                self.side_cost(left) + self.side_cost(self.set.without(left))
            }
            Root::IndexLoop(_, left, _) => self.side_cost(Subset::new(left)),
        }
    }

    /// What the plans of the sides of the set cost at the least that a join of them needs: where the right side is one
    /// relation, an index loop needs no plan of it.
    pub(crate) fn least_sides(&self, left: Subset) -> u128
        requires { IsSplit left self.now.set }
        ensures { (node : Root) → HasLeft (λ side. side ≡ left) node →
            Stands (block_at self.now.at) node self.now.set →
            result ≤ side_costs self.now.table node self.now.set }
    {
        let right = self.set.without(left).number();
        if right == 1 << right.trailing_zeros() {
            self.side_cost(left)
        } else {
            self.side_costs(Root::Nest(left.number()))
        }
    }

    /// The entry of a node that costs so much by itself.
    pub(crate) fn offered(&self, root: Root, own: u128) -> Entry
        requires stands { Stands (block_at self.now.at) root self.now.set }
        requires own { IsPrice self.now.at root self.now.set own }
        ensures found { IsFound self.now result }
        ensures root { result.root ≡ root }
    {
        Entry {
            cost: self.side_costs(root) + own,
            root,
        }
    }

    /// Of what was found and a node that is offered, what is kept.
    pub(crate) fn consider(&self, offered: Entry, start: Entry) -> Entry
        requires { IsFound self.now offered }
        ensures { Considers self.now (λ node. node ≡ offered.root) start result }
    {
        keep(start, offered)
    }
}
