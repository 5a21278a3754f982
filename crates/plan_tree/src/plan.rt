// Plans, and what stands on their two sides. The definitions see them as the trees of `specs/Plans.antt`.
ghost use Rattle.std.specs.Prelude.{◌≡◌};
ghost use Rattle.plan_tree.specs.Plans.{plan_tree, covers_of, FitsSet};
ghost use Rattle.plan_tree.specs.Roots.{root_of};
ghost use Rattle.plan_tree.specs.Sides.{left_side, right_side, right_relation};

use crate::leaves::covers;
use crate::roots::Root;

/// How the rows of some relations are found. Relations, columns and edges are numbered from 0, as in a block; a plan may
/// name any numbers, and `is_plan` tells whether they are a block's.
#[derive(Drop)]
pub enum Plan {
    /// All rows of a relation.
    Scan(u8),
    /// The rows of a relation that an index finds: the relation, the column.
    IndexScan(u8, u8),
    /// Each row of the left side with each row of the right side.
    Nest(Box<Plan>, Box<Plan>),
    /// A hash table of the right side: the edge, the sides.
    Hash(u8, Box<Plan>, Box<Plan>),
    /// Both sides sorted: the edge, the sides.
    Merge(u8, Box<Plan>, Box<Plan>),
    /// A look-up in a relation's index for each row of the left side: the edge, the left side, the relation.
    IndexLoop(u8, Box<Plan>, u8),
}

impl Plan {
    /// The left side of a join; of a leaf the leaf.
    pub fn left(&self) -> &Plan
        requires { FitsSet (plan_tree self.now) }
        ensures side { plan_tree result.now ≡ left_side (plan_tree self.now) }
        ensures fits { FitsSet (plan_tree result.now) }
    {
        match self {
            Plan::Scan(_) | Plan::IndexScan(..) => self,
            Plan::Nest(left, _) | Plan::Hash(_, left, _) | Plan::Merge(_, left, _) => left,
            Plan::IndexLoop(_, left, _) => left,
        }
    }

    /// The right side of a join; of a leaf and of an index loop the plan itself.
    pub fn right(&self) -> &Plan
        requires { FitsSet (plan_tree self.now) }
        ensures side { plan_tree result.now ≡ right_side (plan_tree self.now) }
        ensures fits { FitsSet (plan_tree result.now) }
    {
        match self {
            Plan::Nest(_, right) | Plan::Hash(_, _, right) | Plan::Merge(_, _, right) => right,
            Plan::Scan(_) | Plan::IndexScan(..) | Plan::IndexLoop(..) => self,
        }
    }

    /// The relation on the right of an index loop; 0 of other plans.
    pub(crate) fn right_relation(&self) -> u8
        ensures { result ≡ right_relation (plan_tree self.now) }
    {
        match self {
            Plan::IndexLoop(_, _, relation) => *relation,
            Plan::Scan(_) | Plan::IndexScan(..) => 0,
            Plan::Nest(..) | Plan::Hash(..) | Plan::Merge(..) => 0,
        }
    }

    /// The outermost node. It takes no memory.
    pub fn root(&self) -> Root
        requires { FitsSet (plan_tree self.now) }
        ensures { result ≡ root_of (plan_tree self.now) }
    {
        self.root_over(covers(self.left()).number())
    }

    /// The same, where the relations of the left side are known, as a number.
    pub fn root_over(&self, left: u8) -> Root
        requires { left ≡ covers_of (left_side (plan_tree self.now)) }
        ensures { result ≡ root_of (plan_tree self.now) }
    {
        match self {
            Plan::Scan(relation) => Root::Scan(*relation),
            Plan::IndexScan(relation, column) => Root::IndexScan(*relation, *column),
            Plan::Nest(..) => Root::Nest(left),
            Plan::Hash(edge, ..) => Root::Hash(*edge, left),
            Plan::Merge(edge, ..) => Root::Merge(*edge, left),
            Plan::IndexLoop(edge, _, relation) => Root::IndexLoop(*edge, left, *relation),
        }
    }
}
