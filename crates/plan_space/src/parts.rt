// The parts of some plans, each once, in a list: the sides of a part come before it. A part is found by a chain of the
// parts of its bucket, the last one added first.
ghost use Rattle.std.specs.Prelude.{◌≡◌, ◌^◌, ◌<◌, ◌≤◌, [], IfOk, IfSome, IsTrue, bit_or, length};
ghost use Rattle.query_block.specs.Blocks.{block_tree};
ghost use Rattle.plan_tree.specs.Plans.{plan_tree, covers_of, FitsSet, IndexLoop};
ghost use Rattle.plan_tree.specs.Enumerated.{IsSubPlan};
ghost use Rattle.plan_tree.specs.Roots.{root_of};
ghost use Rattle.plan_tree.specs.Sides.{left_side};
ghost use Rattle.plan_space.specs.Parts.{node_at, nth_plan, plan_over, IsNodeOver, IsNthPlan, IsSameNode, KeepsParts};

use crate::node::Node;
use plan_tree::{Plan, Root, Subset};
use query_block::Block;
use sql_values::MAX_RELATIONS;
use std::alloc::{AllocError, Global};
use std::marker::Model;

// A plan of so many relations has as many leaves, and one join less.
const PARTS_OF_A_PLAN: usize = 2 * MAX_RELATIONS - 1;

const MOST_BUCKETS: usize = 65_536;

/// The parts of plans of a block, and the chains by which they are found.
#[derive(Drop)]
pub(crate) struct Parts<'b> {
    block: &'b Block,
    pub(crate) nodes: Vec<Node>,
    // The part that was added last to each bucket. Where there is none, a number that is no part.
    pub(crate) latest: Vec<usize>,
}

impl<'b> Model for Parts<'b> {
    ghost use Rattle.query_block.specs.contracts.condition.Condition as condition;
    ghost use Rattle.std.specs.Coded.{codes};
    ghost use Rattle.std.specs.Prelude.{◌≤◌, [], length};
    ghost use Rattle.query_block.specs.Blocks.{block_tree};
    ghost use Rattle.plan_space.specs.PlanCodes.{plan_tree_code};
    ghost use Rattle.plan_space.specs.Parts.{PartsShape, parts_behind, AreNodes};

    ghost Value = { PartsShape };

    ghost coded = { Prim.hlevel (codes, condition.the_row.coded, plan_tree_code) };

    ghost view = { λ p. record { block = p.block.now; plans = parts_behind [] p.nodes.items } };

    ghost invariant = { λ p. AreNodes (block_tree p.block.now) p.nodes.items
        × (1 ≤ length p.latest.items) };
}

// How many buckets the parts of so many plans get: about one for each part that may be there, a power of two.
fn bucket_count(plans: usize) -> usize
    ensures { 1 ≤ result }
{
    plans
        .saturating_mul(PARTS_OF_A_PLAN)
        .min(MOST_BUCKETS)
        .next_power_of_two()
}

// A node without its sides as a number: its kind, and what is of that kind alone.
fn root_number(root: Root) -> usize {
    match root {
        Root::Scan(relation) => relation as usize,
        Root::IndexScan(relation, column) => 65_536 + 256 * column as usize + relation as usize,
        Root::Nest(_) => 2 * 65_536,
        Root::Hash(edge, _) => 3 * 65_536 + edge as usize,
        Root::Merge(edge, _) => 4 * 65_536 + edge as usize,
        Root::IndexLoop(edge, _, relation) => {
            5 * 65_536 + 256 * edge as usize + relation as usize
        }
    }
}

/// The bucket of a node, of so many: bits from the middle of products.
pub(crate) fn bucket_of(node: &Node, buckets: usize) -> usize
    requires { 1 ≤ buckets }
    ensures { result < buckets }
{
    let sides = node
        .left
        .wrapping_mul(0x9E37_79B9_7F4A_7C15)
        .wrapping_add(node.right);
    let mixed = sides.wrapping_mul(0xC2B2_AE3D_27D4_EB4F) >> 20;
    let hash = (mixed ^ root_number(node.root)).wrapping_mul(0x9E37_79B9_7F4A_7C15);
    (hash >> 40) & (buckets - 1)
}

// Whether two nodes are the same, wherever they are found.
fn is_same(node: &Node, other: &Node) -> bool
    ensures { IsTrue result → IsSameNode node.now other.now }
{
    node.root == other.root
        && node.set == other.set
        && node.left == other.left
        && node.right == other.right
}

/// The number of the node that is the same, among those of a chain that begins at this number.
pub(crate) fn find(nodes: &[Node], node: &Node, first: usize) -> Option<usize>
    ensures exists { IfSome result (λ number. number < length nodes.now) }
    ensures same { IfSome result (λ number. IsSameNode (node_at nodes.now number) node.now) }
{
    let mut number = first;
    for _step in 0..nodes.len() {
        if number >= nodes.len() {
            return None;
        }
        if is_same(&nodes[number], node) {
            return Some(number);
        }
        number = nodes[number].earlier;
    }
    None
}

// The outermost node of a plan whose left side has these relations.
fn root_over(p: &Plan, left: u8) -> Root
    requires { left ≡ covers_of (left_side (plan_tree p.now)) }
    ensures { result ≡ root_of (plan_tree p.now) }
{
    match p {
        Plan::Scan(relation) => Root::Scan(*relation),
        Plan::IndexScan(relation, column) => Root::IndexScan(*relation, *column),
        Plan::Nest(..) => Root::Nest(left),
        Plan::Hash(edge, ..) => Root::Hash(*edge, left),
        Plan::Merge(edge, ..) => Root::Merge(*edge, left),
        Plan::IndexLoop(edge, _, relation) => Root::IndexLoop(*edge, left, *relation),
    }
}

impl<'b> Parts<'b> {
    /// No parts of plans of a block yet, where so many plans are expected. The only error is out of memory.
    pub(crate) fn new(
        alloc: Global,
        block: &'b Block,
        expected: usize,
    ) -> Result<Parts<'b>, AllocError>
        ensures { IfOk result (λ made. made ≡ record { block = block.now; plans = [] }) }
    {
        let latest = vec![in alloc; usize::MAX; bucket_count(expected)]?;
        Ok(Parts {
            block,
            nodes: Vec::new(alloc),
            latest,
        })
    }

    // The number of the part with this node, which is added where it isn't there. The only error is out of memory.
    fn number_of(&mut self, node: Node) -> Result<usize, AllocError>
        requires { IsNodeOver (block_tree self.old.block) self.old.plans
            node.root node.set node.left node.right }
        ensures kept { KeepsParts self.old self.new }
        ensures there { IfOk result (IsNthPlan self.new.plans
            (plan_over self.old.plans node.root node.left node.right)) }
    {
        let bucket = bucket_of(&node, self.latest.len());
        let earlier = self.latest[bucket];
        if let Some(number) = find(self.nodes.as_slice(), &node, earlier) {
            return Ok(number);
        }
        let number = self.nodes.len();
        self.nodes.push(Node { earlier, ..node })?;
        self.latest[bucket] = number;
        Ok(number)
    }

    /// How many parts there are.
    pub(crate) fn count(&self) -> usize
        ensures { result ≡ length self.now.plans }
    {
        self.nodes.len()
    }

    // The relations of a part.
    fn set(&self, number: usize) -> u8
        requires { number < length self.now.plans }
        ensures { result ≡ covers_of (nth_plan self.now.plans number) }
    {
        self.nodes.as_slice()[number].set
    }

    // The number of a leaf. The only error is out of memory.
    fn leaf(&mut self, root: Root, relation: u8) -> Result<usize, AllocError>
        requires relation { relation < 8 }
        requires node { IsNodeOver (block_tree self.old.block) self.old.plans root (2 ^ relation) 0 0 }
        ensures kept { KeepsParts self.old self.new }
        ensures there { IfOk result (IsNthPlan self.new.plans (plan_over self.old.plans root 0 0)) }
    {
        self.number_of(Node {
            root,
            set: Subset::one(relation).number(),
            left: 0,
            right: 0,
            earlier: 0,
        })
    }

    // The number of a join of two parts. The only error is out of memory.
    fn join(&mut self, root: Root, left: usize, right: usize) -> Result<usize, AllocError>
        requires left { left < length self.old.plans }
        requires right { right < length self.old.plans }
        requires node { let parts = self.old.plans in
            IsNodeOver (block_tree self.old.block) parts root
            (bit_or (covers_of (nth_plan parts left)) (covers_of (nth_plan parts right))) left right }
        ensures kept { KeepsParts self.old self.new }
        ensures there { IfOk result (IsNthPlan self.new.plans
            (plan_over self.old.plans root left right)) }
    {
        let set = self.set(left) | self.set(right);
        self.number_of(Node {
            root,
            set,
            left,
            right,
            earlier: 0,
        })
    }

    // The number of an index loop over a part. The only error is out of memory.
    fn index_loop(&mut self, edge: u8, left: usize, relation: u8) -> Result<usize, AllocError>
        requires left { left < length self.old.plans }
        requires relation { relation < 8 }
        requires plan { IsSubPlan (block_tree self.old.block)
            (IndexLoop edge (nth_plan self.old.plans left) relation) }
        ensures kept { KeepsParts self.old self.new }
        ensures there { IfOk result (IsNthPlan self.new.plans
            (IndexLoop edge (nth_plan self.old.plans left) relation)) }
    {
        let set = self.set(left);
        self.number_of(Node {
            root: Root::IndexLoop(edge, set, relation),
            set: set | Subset::one(relation).number(),
            left,
            right: 0,
            earlier: 0,
        })
    }

    /// The number of a plan, whose parts are added where they aren't there. The only error is out of memory. It takes as much of
    /// the machine's stack as the plan is deep.
    pub(crate) fn number(&mut self, p: &Plan) -> Result<usize, AllocError>
        requires plan { IsSubPlan (block_tree self.old.block) (plan_tree p.now) }
        requires fits { FitsSet (plan_tree p.now) }
        ensures kept { KeepsParts self.old self.new }
        ensures there { IfOk result (IsNthPlan self.new.plans (plan_tree p.now)) }
    {
        match p {
            Plan::Scan(relation) => self.leaf(Root::Scan(*relation), *relation),
            Plan::IndexScan(relation, column) => {
                self.leaf(Root::IndexScan(*relation, *column), *relation)
            }
            Plan::Nest(left, right) | Plan::Hash(_, left, right) | Plan::Merge(_, left, right) => {
                let left = self.number(left)?;
                let right = self.number(right)?;
                let root = root_over(p, self.set(left));
                self.join(root, left, right)
            }
            Plan::IndexLoop(edge, left, relation) => {
                let left = self.number(left)?;
                self.index_loop(*edge, left, *relation)
            }
        }
    }
}
