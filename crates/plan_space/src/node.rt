// The outermost node of a part of a plan, over the parts that are its sides.
use plan_tree::Root;

/// A node over the parts that are its sides, which are told by their numbers; a side that isn't there is 0.
#[derive(Clone, Copy)]
pub(crate) struct Node {
    /// The node by the sets of its sides.
    pub(crate) root: Root,
    /// Its relations, bit r for relation r.
    pub(crate) set: u8,
    /// The left side.
    pub(crate) left: usize,
    /// The right side.
    pub(crate) right: usize,
    /// The part that was added before it to its bucket. Where it is the first, any number that is no part.
    pub(crate) earlier: usize,
}
