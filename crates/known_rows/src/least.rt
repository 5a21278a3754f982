// The least work of a plan, by what is known of numbers of rows and entries. Each function that calls itself does so for the
// sides of a join, so the stack that it takes is bounded by how deep the plan is.
ghost use Rattle.std.specs.Prelude.{◌≡◌, ◌-◌, ◌*◌, ◌^◌, ◌<◌, if◌then◌else◌, length, max, min};
ghost use Rattle.query_block.specs.Blocks.{block_tree, relation_at};
ghost use Rattle.plan_tree.specs.Plans.{covers_of, has_leaf, plan_tree};
ghost use Rattle.plan_tree.specs.Enumerated.{IsIndexed, IsSubPlan};
ghost use Rattle.plan_tree.specs.Sets.{set_of};
ghost use Rattle.plan_tree.specs.Work.{capped, height_in, scan_work};
ghost use Rattle.db_catalog.specs.Fits.{Fits};
ghost use Rattle.known_rows.specs.LeastWork.{are_joined, least_of_leaf, least_own, least_rows, least_work};

use crate::known::KnownRows;
use db_catalog::Metered;
use plan_tree::{Plan, Subset, column_of_edge, covers, work};
use query_block::Block;

// The table of a relation.
fn table_of(block: &Block, relation: u8) -> u32
    requires { relation < length block.now.relations }
    ensures { result ≡ (relation_at (block_tree block.now).relations relation).table }
{
    block.relations()[relation as usize].table
}

// The work of a scan that gives so many rows.
fn scan(block: &Block, meter: &Metered<'_>, relation: u8, out: u128) -> u128
    requires there { relation < length block.now.relations }
    requires fits { Fits meter.now.database (block_tree block.now) }
    ensures { let own = relation_at (block_tree block.now).relations relation in
        result ≡ capped (scan_work meter.now.database.tables own out) }
{
    let table = table_of(block, relation);
    work::scan(meter.pages(table), meter.rows(table), out)
}

// How many levels the index on a column has.
fn height(block: &Block, meter: &Metered<'_>, relation: u8, column: u8) -> u32
    requires there { relation < length block.now.relations }
    requires indexed { IsIndexed (relation_at (block_tree block.now).relations relation) column }
    requires fits { Fits meter.now.database (block_tree block.now) }
    ensures { let own = relation_at (block_tree block.now).relations relation in
        result ≡ height_in meter.now.database.tables own column }
{
    meter.height(table_of(block, relation), column)
}

// The relations that a plan of the block joins.
fn relations_of(block: &Block, p: &Plan) -> Subset
    requires { IsSubPlan (block_tree block.now) (plan_tree p.now) }
    ensures { result ≡ covers_of (plan_tree p.now) }
{
    block.relations();
    covers(p)
}

// Whether an edge of the block has one of its relations in each of two sets.
fn are_sets_joined(block: &Block, left: Subset, right: Subset) -> bool
    ensures { result ≡ are_joined block.now.edges (set_of left) (set_of right) }
{
    for edge in block.edges() {
        if left.is_joined(right, edge) {
            return true;
        }
    }
    false
}

// Whether an edge of the block has one of its relations on each of two sides.
fn are_joined(block: &Block, left: &Plan, right: &Plan) -> bool
    requires left { IsSubPlan (block_tree block.now) (plan_tree left.now) }
    requires right { IsSubPlan (block_tree block.now) (plan_tree right.now) }
    ensures { result ≡ are_joined block.now.edges (has_leaf (plan_tree left.now))
        (has_leaf (plan_tree right.now)) }
{
    are_sets_joined(block, relations_of(block, left), relations_of(block, right))
}

// How many rows two sides have together, at the least, of which so many are known: whether an edge joins them, and how many
// rows each has.
fn pairs(joined: bool, known: u64, l: u128, r: u128) -> u128
    ensures { result ≡ capped (if joined then known else max known (l * r)) }
{
    let known = u128::from(known);
    if joined {
        known
    } else {
        known.max(l.saturating_mul(r))
    }
}

impl KnownRows {
    // How many rows a leaf gives, at the least.
    fn least_of_leaf(&self, block: &Block, meter: &Metered<'_>, relation: u8) -> u64
        requires there { relation < length block.now.relations }
        requires fits { Fits meter.now.database (block_tree block.now) }
        ensures { result
            ≡ least_of_leaf meter.now.database.tables (block_tree block.now) self.now relation }
    {
        let own = &block.relations()[relation as usize];
        if own.filter.as_slice().is_empty() {
            meter.rows(table_of(block, relation))
        } else {
            self.rows(Subset::one(relation))
        }
    }

    // How many rows a plan gives, at the least.
    #[cycle(least_rows)]
    fn least_rows(&self, block: &Block, meter: &Metered<'_>, p: &Plan) -> u128
        requires plan { IsSubPlan (block_tree block.now) (plan_tree p.now) }
        requires fits { Fits meter.now.database (block_tree block.now) }
        ensures { result ≡ capped (least_rows meter.now.database.tables (block_tree block.now)
            self.now (plan_tree p.now)) }
    {
        match p {
            Plan::Scan(relation) | Plan::IndexScan(relation, _) => {
                u128::from(self.least_of_leaf(block, meter, *relation))
            }
            Plan::Nest(left, right) => {
                let known = self.rows(relations_of(block, p));
                let l = self.least_rows(block, meter, left);
                let r = self.least_rows(block, meter, right);
                pairs(are_joined(block, left, right), known, l, r)
            }
            Plan::Hash(_, _, _) | Plan::Merge(_, _, _) | Plan::IndexLoop(_, _, _) => {
                u128::from(self.rows(relations_of(block, p)))
            }
        }
    }

    // The least work of the outermost node of a plan by itself.
    fn least_own(&self, block: &Block, meter: &Metered<'_>, p: &Plan) -> u128
        requires plan { IsSubPlan (block_tree block.now) (plan_tree p.now) }
        requires fits { Fits meter.now.database (block_tree block.now) }
        ensures { result ≡ capped (least_own meter.now.database.tables (block_tree block.now)
            self.now (plan_tree p.now)) }
    {
        let out = self.least_rows(block, meter, p);
        match p {
            Plan::Scan(relation) => scan(block, meter, *relation, out),
            Plan::IndexScan(relation, column) => {
                work::index_scan(height(block, meter, *relation, *column), out, out)
            }
            Plan::Nest(left, right) => {
                let l = self.least_rows(block, meter, left);
                work::nest(l, self.least_rows(block, meter, right), out)
            }
            Plan::Hash(_, left, right) => {
                let l = self.least_rows(block, meter, left);
                work::hash(l, self.least_rows(block, meter, right), out, out)
            }
            Plan::Merge(_, left, right) => {
                let l = self.least_rows(block, meter, left);
                work::merge(l, self.least_rows(block, meter, right), out, out)
            }
            Plan::IndexLoop(edge, left, relation) => {
                let column = column_of_edge(block, *edge, *relation);
                let levels = height(block, meter, *relation, column);
                let found = out.max(u128::from(self.entries(*edge, relations_of(block, left))));
                work::index_loop(levels, self.least_rows(block, meter, left), found, out)
            }
        }
    }

    /// The least work of a plan of some of the block's relations, over the tables of the meter's database, which the block
    /// fits; 2^128 - 1 stands for more. It pays nothing and takes no memory.
    #[cycle(least_work)]
    pub fn least_work(&self, block: &Block, meter: &Metered<'_>, plan: &Plan) -> u128
        requires plan { IsSubPlan (block_tree block.now) (plan_tree plan.now) }
        requires fits { Fits meter.now.database (block_tree block.now) }
        ensures { result ≡ min (least_work meter.now.database.tables (block_tree block.now) self.now
            (plan_tree plan.now)) (2 ^ 128 - 1) }
    {
        let own = self.least_own(block, meter, plan);
        match plan {
            Plan::Scan(_) | Plan::IndexScan(_, _) => own,
            Plan::Nest(left, right) | Plan::Hash(_, left, right) | Plan::Merge(_, left, right) => {
                let l = self.least_work(block, meter, left);
                let r = self.least_work(block, meter, right);
                l.saturating_add(r).saturating_add(own)
            }
            Plan::IndexLoop(_, left, _) => {
                self.least_work(block, meter, left).saturating_add(own)
            }
        }
    }
}
