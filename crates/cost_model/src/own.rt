// What each node costs by itself over a set of relations: its line of the table of work, with cards for the rows.
ghost use Rattle.std.specs.Prelude.{◌≡◌, ◌+◌, ◌-◌, ◌*◌, ◌^◌, ◌<◌, ◌≤◌, bit_and, length, slice_index_or};
ghost use Rattle.sql_values.specs.Limits.{max_product};
ghost use Rattle.plan_tree.specs.Enumerated.{column_on, edge_at};
ghost use Rattle.cost_model.specs.Costing.{costing_tree, IsCosting};
ghost use Rattle.cost_model.specs.Costs.{index_stats};
ghost use Rattle.plan_tree.specs.declared.roots.Root.TheVariants.{Scan, IndexScan, Nest, Hash, Merge, IndexLoop};
ghost use Rattle.plan_tree.specs.Roots.{Stands};
ghost use Rattle.cost_model.specs.Prices.{IsSetOf, IsSplitOf, IsPrice, IsCandidateCount, block_at, card_at};

use crate::prices::Prices;
use plan_tree::{Root, Subset, column_of_edge, work};

impl Prices<'_> {
    // So many pairs of rows have the two sides of a set.
    fn pairs(&self, left: Subset, set: Subset) -> u128
        requires { IsSplitOf (block_at self.now) left set }
        ensures pairs { result ≡ card_at self.now left * card_at self.now (set - left) }
        ensures few { result ≤ max_product }
    {
        self.card(left) * self.card(set.without(left))
    }

    /// A scan of the one relation of a set.
    pub fn scan(&self, relation: u8, set: Subset) -> u128
        requires relation { relation < length self.now.costing.block.relations }
        requires set { IsSetOf (block_at self.now) set }
        ensures { IsPrice self.now (Scan relation) set result }
    {
        let stats = self.costing.relation(relation);
        work::scan(stats.pages, stats.rows, self.card(set))
    }

    /// A scan by the index on a column.
    pub fn index_scan(&self, relation: u8, column: u8, set: Subset) -> u128
        requires relation { relation < length self.now.costing.block.relations }
        requires set { IsSetOf (block_at self.now) set }
        ensures { IsPrice self.now (IndexScan relation column) set result }
    {
        let index = self.index(relation, column);
        let axis = self.costing.axis_of_index(relation, column);
        let matches = self
            .costing
            .scaled_on(axis, index.matches.unwrap_or(0), self.point());
        work::index_scan(index.height, u128::from(matches), self.card(set))
    }

    /// A nested loop.
    pub fn nest(&self, left: Subset, set: Subset) -> u128
        requires { IsSplitOf (block_at self.now) left set }
        ensures { IsPrice self.now (Nest left) set result }
    {
        let right = self.card(set.without(left));
        work::nest(self.card(left), right, self.card(set))
    }

    /// How many pairs of rows of the two sides are taken to be equal in the columns of an edge.
    pub fn candidates(&self, edge: u8, left: Subset, set: Subset) -> u128
        requires edge { edge < length self.now.costing.block.edges }
        requires split { IsSplitOf (block_at self.now) left set }
        ensures { IsCandidateCount self.now edge left set result }
    {
        self.candidates_among(edge, self.pairs(left, set))
    }

    /// A hash join that has so many candidates.
    pub fn hash(&self, edge: u8, left: Subset, set: Subset, candidates: u128) -> u128
        requires split { IsSplitOf (block_at self.now) left set }
        requires candidates { IsCandidateCount self.now edge left set candidates }
        ensures { IsPrice self.now (Hash edge left) set result }
    {
        let right = self.card(set.without(left));
        work::hash(self.card(left), right, candidates, self.card(set))
    }

    /// A merge join that has so many candidates.
    pub fn merge(&self, edge: u8, left: Subset, set: Subset, candidates: u128) -> u128
        requires split { IsSplitOf (block_at self.now) left set }
        requires candidates { IsCandidateCount self.now edge left set candidates }
        ensures { IsPrice self.now (Merge edge left) set result }
    {
        let right = self.card(set.without(left));
        work::merge(self.card(left), right, candidates, self.card(set))
    }

    /// An index loop, by the index of the relation on the right on its column of the edge.
    pub fn index_loop(&self, edge: u8, left: Subset, relation: u8, set: Subset) -> u128
        requires edge { edge < length self.now.costing.block.edges }
        requires split { IsSplitOf (block_at self.now) left set }
        requires relation { relation < length self.now.costing.block.relations }
        requires apart { bit_and left (2 ^ relation) ≡ 0 }
        ensures { IsPrice self.now (IndexLoop edge left relation) set result }
    {
        let rows = u128::from(self.costing.relation(relation).rows);
        let column = column_of_edge(self.block(), edge, relation);
        let card = self.card(left);
        let candidates = self.candidates_among(edge, card * rows);
        let height = self.index(relation, column).height;
        work::index_loop(height, card, candidates, self.card(set))
    }

    /// What a node of any kind costs by itself over a set of relations: without what the plans of
    /// its sides cost. So the cost of a plan is the sum of this over its nodes.
    pub fn own(&self, root: Root, set: Subset) -> u128
        requires stands { Stands (block_at self.now) root set }
        requires set { IsSetOf (block_at self.now) set }
        ensures { IsPrice self.now root set result }
    {
        match root {
            Root::Scan(relation) => self.scan(relation, set),
            Root::IndexScan(relation, column) => self.index_scan(relation, column, set),
            Root::Nest(left) => self.nest(Subset::new(left), set),
            Root::Hash(edge, left) => {
                let left = Subset::new(left);
                let candidates = self.candidates(edge, left, set);
                self.hash(edge, left, set, candidates)
            }
            Root::Merge(edge, left) => {
                let left = Subset::new(left);
                let candidates = self.candidates(edge, left, set);
                self.merge(edge, left, set, candidates)
            }
            Root::IndexLoop(edge, left, relation) => {
                self.index_loop(edge, Subset::new(left), relation, set)
            }
        }
    }
}
