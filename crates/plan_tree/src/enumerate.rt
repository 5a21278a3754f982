// All plans of a block. How many there are is counted before any plan is made: each set of relations, upwards, from the counts
// of smaller sets, and then its plans from the plans of these.
ghost use Rattle.std.specs.Prelude.{◌≡◌, ◌↔◌, ◌<◌, ◌≤◌, ◌++◌, ◌-◌, ◌*◌, ◌^◌, All, Contains, IfErr, IfOk, List, OnOk, length, map, min, slice_index};
ghost use Rattle.std.specs.List.{flat_map, AllPairs};
ghost use Rattle.std.specs.declared.cmp.Ordering.TheVariants.{Less};
ghost use Rattle.query_block.specs.Blocks.{block_tree, BlockTree};
ghost use Rattle.plan_tree.specs.Plans.{plan_tree, PlanTree, IndexLoop as IndexLoopTree};
ghost use Rattle.plan_tree.specs.Enumerated.{IsPlan};
ghost use Rattle.plan_tree.specs.Order.{plan_order_of};
ghost use Rattle.plan_tree.specs.AllPlans.{pairs_by, plans_at, plans_of, plans_over, trees_of};
ghost use Rattle.plan_tree.specs.Work.{capped};
ghost use Rattle.plan_tree.specs.Listing.{joined_by, Adds, CountsFor, HasLeftOf, IsLeftOf};

use crate::copies::copy;
use crate::plan::Plan;
use crate::roots::{Root, roots_of};
use crate::subset::Subset;
use query_block::Block;
use std::alloc::{AllocError, Global};

/// Why not all plans of a block are listed.
#[derive(Clone, Copy)]
pub enum AllFault {
    /// There are more than the limit.
    TooMany,
    /// Want of memory.
    NoMemory,
}

impl From<AllocError> for AllFault {
    ghost use Rattle.plan_tree.specs.declared.enumerate.AllFault.TheVariants.{NoMemory};

    ghost from_gives = { λ _ fault. fault ≡ NoMemory };

    fn from(_: AllocError) -> AllFault {
        AllFault::NoMemory
    }
}

// How many plans two sides make, by how many each has.
fn count_pairs(counts: &[u128], set: u8, left: u8) -> u128
    requires length { length counts.now ≡ set }
    requires left { IsLeftOf left set }
    ensures { result
        ≡ min (slice_index counts.now left * slice_index counts.now (set - left)) (2 ^ 128 - 1) }
{
    counts[left as usize].saturating_mul(counts[(set - left) as usize])
}

// How many plans of a set have this outermost node, by how many smaller sets have.
fn count_with(counts: &[u128], set: u8, root: Root) -> u128
    requires length { length counts.now ≡ set }
    requires left { HasLeftOf root set }
    ensures { CountsFor counts.now result (λ plans. trees_of plans set root) }
{
    match root {
        Root::Scan(_) => 1,
        Root::IndexScan(_, _) => 1,
        Root::Nest(left) => count_pairs(counts, set, left),
        Root::Hash(_, left) => count_pairs(counts, set, left),
        Root::Merge(_, left) => count_pairs(counts, set, left),
        Root::IndexLoop(_, left, _) => counts[left as usize],
    }
}

// How many plans of a set have one of these outermost nodes.
fn count_over(counts: &[u128], set: u8, roots: &[Root]) -> u128
    requires length { length counts.now ≡ set }
    requires left { All (λ root. HasLeftOf root set) roots.now }
    ensures { CountsFor counts.now result (λ plans. flat_map (trees_of plans set) roots.now) }
{
    let mut count = 0u128;
    for root in roots {
        count = count.saturating_add(count_with(counts, set, *root));
    }
    count
}

// How many sets of relations a block has, the empty one too.
fn set_count(block: &Block) -> u8
    ensures count { result ≡ 2 ^ length (block_tree block.now).relations }
    ensures some { 1 ≤ result }
{
    1 << block.relations().len()
}

// How many plans a block has.
fn count_plans(alloc: Global, block: &Block) -> Result<u128, AllocError>
    ensures { IfOk result (λ count. count ≡ capped (length (plans_of (block_tree block.now)))) }
{
    let end = set_count(block);
    let mut counts = Vec::new(alloc);
    for set in 0..end {
        let roots = roots_of(alloc, block, Subset::new(set))?;
        let count = count_over(&counts, set, &roots);
        counts.push(count)?;
    }
    Ok(counts[(end - 1) as usize])
}

// The plan with this outermost node and copies of these sides.
fn join_of(alloc: Global, root: Root, left: &Plan, right: &Plan) -> Result<Plan, AllocError>
    ensures { IfOk result (λ plan. plan_tree plan
        ≡ joined_by root (plan_tree left.now) (plan_tree right.now)) }
{
    let left = Box::new(alloc, copy(alloc, left)?)?;
    let right = Box::new(alloc, copy(alloc, right)?)?;
    Ok(match root {
        Root::Hash(edge, _) => Plan::Hash(edge, left, right),
        Root::Merge(edge, _) => Plan::Merge(edge, left, right),
        _ => Plan::Nest(left, right),
    })
}

// Puts a left plan with each right plan at the end.
fn put_with(
    alloc: Global,
    root: Root,
    left: &Plan,
    rights: &[Plan],
    into: &mut Vec<Plan>,
) -> Result<(), AllocError>
    ensures { OnOk result (Adds into.old into.new
        (map (joined_by root (plan_tree left.now)) (map plan_tree rights.now))) }
{
    for right in rights {
        into.push(join_of(alloc, root, left, right)?)?;
    }
    Ok(())
}

// Puts each left plan with each right plan at the end.
fn put_pairs(
    alloc: Global,
    root: Root,
    lefts: &[Plan],
    rights: &[Plan],
    into: &mut Vec<Plan>,
) -> Result<(), AllocError>
    ensures { OnOk result (Adds into.old into.new
        (pairs_by (joined_by root) (map plan_tree lefts.now) (map plan_tree rights.now))) }
{
    for left in lefts {
        put_with(alloc, root, left, rights, into)?;
    }
    Ok(())
}

// The index loop with a copy of this left side.
fn look_up_of(alloc: Global, edge: u8, left: &Plan, relation: u8) -> Result<Plan, AllocError>
    ensures { IfOk result (λ plan. plan_tree plan
        ≡ IndexLoopTree edge (plan_tree left.now) relation) }
{
    let left = Box::new(alloc, copy(alloc, left)?)?;
    Ok(Plan::IndexLoop(edge, left, relation))
}

// Puts the index loops of each left plan at the end.
fn put_look_ups(
    alloc: Global,
    edge: u8,
    lefts: &[Plan],
    relation: u8,
    into: &mut Vec<Plan>,
) -> Result<(), AllocError>
    ensures { OnOk result (Adds into.old into.new
        (map (λ left. IndexLoopTree edge left relation) (map plan_tree lefts.now))) }
{
    for left in lefts {
        into.push(look_up_of(alloc, edge, left, relation)?)?;
    }
    Ok(())
}

// Puts the plans of a set with this outermost node at the end.
fn put_trees(
    alloc: Global,
    lists: &[Vec<Plan>],
    set: u8,
    root: Root,
    into: &mut Vec<Plan>,
) -> Result<(), AllocError>
    requires length { length lists.now ≡ set }
    requires left { HasLeftOf root set }
    ensures { OnOk result (Adds into.old into.new
        (trees_of (plans_at (map (λ list. map plan_tree list.items) lists.now)) set root)) }
{
    match root {
        Root::Scan(relation) => Ok(into.push(Plan::Scan(relation))?),
        Root::IndexScan(relation, column) => Ok(into.push(Plan::IndexScan(relation, column))?),
        Root::Nest(left) | Root::Hash(_, left) | Root::Merge(_, left) => {
            let right = set - left;
            put_pairs(
                alloc,
                root,
                &lists[left as usize],
                &lists[right as usize],
                into,
            )
        }
        Root::IndexLoop(edge, left, relation) => {
            put_look_ups(alloc, edge, &lists[left as usize], relation, into)
        }
    }
}

// The plans of a set, by those of smaller sets.
fn plans_over(
    alloc: Global,
    block: &Block,
    lists: &[Vec<Plan>],
    set: u8,
) -> Result<Vec<Plan>, AllocError>
    requires { length lists.now ≡ set }
    ensures { IfOk result (λ plans. map plan_tree plans.items
        ≡ plans_over (block_tree block.now) (map (λ list. map plan_tree list.items) lists.now) set) }
{
    let roots = roots_of(alloc, block, Subset::new(set))?;
    let mut plans = Vec::new(alloc);
    for root in &roots {
        put_trees(alloc, lists, set, *root, &mut plans)?;
    }
    Ok(plans)
}

// All plans of a block.
fn list_plans(alloc: Global, block: &Block) -> Result<Vec<Plan>, AllocError>
    ensures { IfOk result (λ plans. map plan_tree plans.items ≡ plans_of (block_tree block.now)) }
{
    let last = set_count(block) - 1;
    let mut lists = Vec::new(alloc);
    for set in 0..last {
        let plans = plans_over(alloc, block, &lists, set)?;
        lists.push(plans)?;
    }
    let plans = plans_over(alloc, block, &lists, last)?;
    Ok(plans)
}

/// All plans of a block, each once, in plan order. TooMany is answered exactly where there are more than the limit, before any
/// plan is made; the other error is that memory ran out.
pub fn all_plans(alloc: Global, block: &Block, limit: u64) -> Result<Vec<Plan>, AllFault>
    ensures plans { IfOk result (λ plans. map plan_tree plans.items ≡ plans_of (block_tree block.now)) }
    ensures few { OnOk result (length (plans_of (block_tree block.now)) ≤ limit) }
    ensures many { IfErr result (λ fault. fault ≡ AllFault.TooMany →
        limit < length (plans_of (block_tree block.now))) }
{
    if count_plans(alloc, block)? > u128::from(limit) {
        return Err(AllFault::TooMany);
    }
    Ok(list_plans(alloc, block)?)
}

/// The law of all plans: the list `plans_of` has each plan of a block once, and nothing else, in plan order.
pub fn all_plans_are_listed()
    ensures all { (block : BlockTree) (p : PlanTree) →
        Contains (plans_of block) p ↔ IsPlan block p }
    ensures ascending { (block : BlockTree) →
        AllPairs (λ a b. plan_order_of a b ≡ Less) (plans_of block) }
{}
