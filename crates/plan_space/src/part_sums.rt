// The parts of plans as sums: what a node costs by itself depends on the sets of its sides alone, so parts whose nodes are the
// same over the same sets share it. A node is found by a chain of the nodes of its bucket, as a part is.
ghost use Rattle.std.specs.Prelude.{◌≡◌, ◌+◌, ◌<◌, ◌≤◌, IfOk, OnOk, length};
ghost use Rattle.plan_space.specs.PartSums.{ArePartSums, HasSides, IsFoundOrAdded};

use crate::node::Node;
use crate::parts::{Parts, bucket_of, find};
use plan_tree::Root;
use std::alloc::{AllocError, Global};

/// What a part costs: what a node costs by itself, and what two parts cost. Behind all parts is one that costs nothing, for a
/// side that isn't there.
#[derive(Clone, Copy)]
pub(crate) struct PartSum {
    /// The place of the node, from 0.
    pub(crate) node: usize,
    /// The number of the left side.
    pub(crate) left: usize,
    /// The number of the right side.
    pub(crate) right: usize,
}

/// The sums of parts.
#[derive(Drop)]
pub(crate) struct PartSums {
    /// The nodes over their sets, each once.
    pub(crate) nodes: Vec<Node>,
    /// The sum of each part.
    pub(crate) parts: Vec<PartSum>,
}

// The set of the left side of a node; 0 where there is none.
fn left_set(root: Root) -> u8 {
    match root {
        Root::Scan(_) | Root::IndexScan(..) => 0,
        Root::Nest(left) | Root::Hash(_, left) | Root::Merge(_, left) => left,
        Root::IndexLoop(_, left, _) => left,
    }
}

// The node over the sets of its sides: these are in place of the parts.
fn over_sets(node: &Node) -> Node
    ensures root { result.root ≡ node.now.root }
    ensures set { result.set ≡ node.now.set }
{
    Node {
        root: node.root,
        set: node.set,
        left: usize::from(left_set(node.root)),
        right: usize::from(node.set),
        earlier: 0,
    }
}

// The place of a node, which is added where it isn't there. The last one of each bucket is known. The only error is out of memory.
fn place_of(nodes: &mut Vec<Node>, latest: &mut [usize], node: Node) -> Result<usize, AllocError>
    requires { 1 ≤ length latest.old }
    ensures long { length latest.new ≡ length latest.old }
    ensures there { IfOk result (IsFoundOrAdded nodes.old.items nodes.new.items node) }
{
    let bucket = bucket_of(&node, latest.len());
    let earlier = latest[bucket];
    if let Some(place) = find(nodes.as_slice(), &node, earlier) {
        return Ok(place);
    }
    let place = nodes.len();
    nodes.push(Node { earlier, ..node })?;
    latest[bucket] = place;
    Ok(place)
}

// The sum of a part with this node, where the node has this place and there are so many parts.
fn sum_of(node: &Node, place: usize, none: usize) -> PartSum
    ensures node { result.node ≡ place }
    ensures sides { HasSides node.now.root node.now.left node.now.right none result }
{
    match node.root {
        Root::Scan(_) | Root::IndexScan(..) => PartSum {
            node: place,
            left: none,
            right: none,
        },
        Root::Nest(_) | Root::Hash(..) | Root::Merge(..) => PartSum {
            node: place,
            left: node.left,
            right: node.right,
        },
        Root::IndexLoop(..) => PartSum {
            node: place,
            left: node.left,
            right: none,
        },
    }
}

impl Parts<'_> {
    // Adds the sum of a part to those of the parts before it. The only error is out of memory.
    fn add_sum(
        &self,
        sums: &mut PartSums,
        latest: &mut [usize],
        number: usize,
    ) -> Result<(), AllocError>
        requires number { number < length self.now.plans }
        requires some { 1 ≤ length latest.old }
        requires before { ArePartSums self.now sums.old.nodes.items sums.old.parts.items number }
        ensures long { length latest.new ≡ length latest.old }
        ensures sums { OnOk result
            (ArePartSums self.now sums.new.nodes.items sums.new.parts.items (number + 1)) }
    {
        let node = self.nodes.as_slice()[number];
        let place = place_of(&mut sums.nodes, latest, over_sets(&node))?;
        sums.parts.push(sum_of(&node, place, self.nodes.len()))?;
        Ok(())
    }

    /// The sums of all parts. The only error is out of memory.
    pub(crate) fn sums(&self, alloc: Global) -> Result<PartSums, AllocError>
        ensures { IfOk result (λ sums.
            ArePartSums self.now sums.nodes.items sums.parts.items (length self.now.plans)) }
    {
        let count = self.count();
        let mut latest = vec![in alloc; usize::MAX; self.latest.len()]?;
        let mut sums = PartSums {
            nodes: Vec::new(alloc),
            parts: Vec::with_capacity(alloc, count)?,
        };
        for number in 0..count {
            self.add_sum(&mut sums, latest.as_mut_slice(), number)?;
        }
        Ok(sums)
    }
}
