// The joins that may be the outermost node of a plan of a set: each split of the set into two sides, and for each split a
// nested loop and the joins by each edge that crosses it.
ghost use Rattle.std.specs.Prelude.{◌≡◌, ◌⊎◌, ◌-◌, ◌^◌, ◌<◌, ◌≤◌, length};
ghost use Rattle.plan_tree.specs.declared.roots.Root.TheVariants.{Hash, Merge};
ghost use Rattle.plan_tree.specs.Roots.{IsSplit};
ghost use Rattle.plan_space.specs.Search.{JoinsSides};
ghost use Rattle.plan_space.specs.Steps.{Considers, HasEdge, HasLeft, IsLookUpBy};

use crate::entry::Entry;
use crate::steps::Search;
use plan_tree::{Root, Subset, column_of_edge, is_crossed, is_indexed};

impl Search<'_> {
    // A hash join and a merge join of the two sides by an edge.
    fn by_pairs(&self, left: Subset, edge: u8, start: Entry) -> Entry
        requires { JoinsSides self.now edge left }
        ensures { Considers self.now
            (λ node. (node ≡ Hash edge left) ⊎ (node ≡ Merge edge left)) start result }
    {
        let candidates = self.prices.candidates(edge, left, self.set);
        let side = left.number();
        let own = self.prices.hash(edge, left, self.set, candidates);
        let found = self.consider(self.offered(Root::Hash(edge, side), own), start);
        let own = self.prices.merge(edge, left, self.set, candidates);
        self.consider(self.offered(Root::Merge(edge, side), own), found)
    }

    // The index loop by an edge whose right side is this one relation.
    fn by_relation(&self, left: Subset, edge: u8, relation: u8, start: Entry) -> Entry
        requires sides { JoinsSides self.now edge left }
        requires relation { self.now.set - left ≡ 2 ^ relation }
        ensures { Considers self.now (IsLookUpBy edge left) start result }
    {
        let block = self.prices.block();
        let column = column_of_edge(block, edge, relation);
        if !is_indexed(block, relation, column) {
            return start;
        }
        let own = self.prices.index_loop(edge, left, relation, self.set);
        let join = self.offered(Root::IndexLoop(edge, left.number(), relation), own);
        self.consider(join, start)
    }

    // The joins of the two sides of the set by an edge: a look-up is one of them where the right side is one relation.
    fn by_edge(&self, left: Subset, edge: u8, start: Entry) -> Entry
        requires split { IsSplit left self.now.set }
        requires edge { edge < length self.now.at.costing.block.edges }
        ensures { Considers self.now (HasEdge (λ number. number ≡ edge) left) start result }
    {
        if !is_crossed(self.prices.block(), edge, left, self.set.without(left)) {
            return start;
        }
        let found = self.by_pairs(left, edge, start);
        let right = self.set.without(left).number();
        let relation = right.trailing_zeros() as u8;
        if right != 1 << relation {
            return found;
        }
        self.by_relation(left, edge, relation, found)
    }

    // The joins of the two sides of the set by all edges.
    fn by_edges(&self, left: Subset, start: Entry) -> Entry
        requires { IsSplit left self.now.set }
        ensures { let edges = length self.now.at.costing.block.edges in
            Considers self.now (HasEdge (λ number. number < edges) left) start result }
    {
        let mut found = start;
        for edge in 0..self.prices.block().edges().len() {
            found = self.by_edge(left, edge as u8, found);
        }
        found
    }

    // All joins of the set whose left side has this number, where there is one. They aren't looked at where their sides alone
    // cost more than what was found.
    fn by_left(&self, left: u8, start: Entry) -> Entry
        requires some { 1 ≤ left }
        requires less { left < self.now.set }
        ensures { Considers self.now (HasLeft (λ side. side ≡ left)) start result }
    {
        if left & (self.set.number() - left) != 0 {
            return start;
        }
        let left = Subset::new(left);
        if self.least_sides(left) > start.cost {
            return start;
        }
        let own = self.prices.nest(left, self.set);
        let found = self.consider(self.offered(Root::Nest(left.number()), own), start);
        self.by_edges(left, found)
    }

    /// All joins of the set.
    pub(crate) fn joins(&self, start: Entry) -> Entry
        ensures { Considers self.now (HasLeft (λ side. side < self.now.set)) start result }
    {
        let mut found = start;
        for left in 1..self.set.number() {
            found = self.by_left(left, found);
        }
        found
    }
}
