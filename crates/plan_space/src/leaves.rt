// The ways to read one relation: a scan, and a scan by each index on a column that has a usable conjunct.
ghost use Rattle.std.specs.Prelude.{◌≡◌, ◌↔◌, ◌<◌, IsTrue, length, take};
ghost use Rattle.query_block.specs.Blocks.{relation_at};
ghost use Rattle.plan_tree.specs.Enumerated.{IsIndexed, IsScannable};
ghost use Rattle.plan_tree.specs.declared.roots.Root.TheVariants.{Scan, IndexScan};
ghost use Rattle.plan_tree.specs.Roots.{Stands};
ghost use Rattle.cost_model.specs.Prices.{block_at};
ghost use Rattle.plan_space.specs.Search.{IsFound};
ghost use Rattle.plan_space.specs.Steps.{Considers, ReadsRelation};

use crate::entry::Entry;
use crate::steps::Search;
use cost_model::Prices;
use plan_tree::Root;

// Whether some conjunct of a relation's filter is usable on an indexed column: its matches are counted then.
fn is_scannable(prices: &Prices<'_>, relation: u8, column: u8) -> bool
    requires relation { relation < length prices.now.costing.block.relations }
    requires column { IsIndexed (relation_at (block_at prices.now).relations relation) column }
    ensures { IsTrue result ↔ IsScannable (block_at prices.now) relation column }
{
    let _block = prices.block();
    prices.index(relation, column).matches.is_some()
}

impl Search<'_> {
    // A scan of the one relation of the set by the index on a column, where it is one.
    fn by_column(&self, relation: u8, column: u8, start: Entry) -> Entry
        requires one { Stands (block_at self.now.at) (Scan relation) self.now.set }
        requires column { IsIndexed (relation_at (block_at self.now.at).relations relation) column }
        ensures { Considers self.now (λ node. node ≡ IndexScan relation column) start result }
    {
        if !is_scannable(self.prices, relation, column) {
            return start;
        }
        let own = self.prices.index_scan(relation, column, self.set);
        self.consider(self.offered(Root::IndexScan(relation, column), own), start)
    }

    // The columns of a relation that have an index.
    fn indexes(&self, relation: u8) -> &[u8]
        requires { relation < length self.now.at.costing.block.relations }
        ensures { result.now ≡ (relation_at (block_at self.now.at).relations relation).indexes }
    {
        self.prices.block().relations()[relation as usize]
            .indexes
            .as_slice()
    }

    /// All ways to read the one relation of the set.
    pub(crate) fn readings(&self, relation: u8) -> Entry
        requires { Stands (block_at self.now.at) (Scan relation) self.now.set }
        ensures found { IsFound self.now result }
        ensures all { Considers self.now ReadsRelation result result }
    {
        let own = self.prices.scan(relation, self.set);
        let scan = self.offered(Root::Scan(relation), own);
        let indexes = self.indexes(relation);
        let mut found = scan;
        for i in 0..indexes.len() {
            found = self.by_column(relation, indexes[i], found);
        }
        found
    }
}
