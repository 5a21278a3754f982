// The plan of a text: the way back from `plan_text`. A text is read from the front; each function takes what is still to
// be read, and returns what it has read with what follows. Nothing of the text is copied.
ghost use Rattle.std.specs.Prelude.{◌≡◌, ◌≤◌, ◌&&◌, IfOk, IfSome, IsErrOf, length, nat_eq, nat_le, option_map};
ghost use Rattle.plan_tree.specs.Plans.{leaves_of, plan_tree, PlanTree, Hash, Merge, IndexLoop};
ghost use Rattle.plan_tree.specs.Reader.{GivesPlan, GivesRead, after, digit_at, column_number_at, scan_at, index_scan_at, closed_at, sides_at, nest_at, join_at, plan_node_of, plan_tree_at};
ghost use Rattle.plan_tree.specs.Reading.{HasText};

use crate::leaves::leaf_count;
use crate::plan::Plan;
use std::alloc::{AllocFailed, Global};

/// Why bytes aren't read as a plan.
#[derive(Clone, Copy)]
pub enum PlanFault {
    /// No plan of at most six leaves has this text.
    NotPlanText,
    /// Out of memory.
    NoMemory,
}

impl<T: Drop> From<AllocFailed<T>> for PlanFault {
    ghost use Rattle.std.specs.Prelude.{◌≡◌};
    ghost use Rattle.plan_tree.specs.declared.read.PlanFault.TheVariants.{NoMemory};

    ghost from_gives = { λ _ fault. fault ≡ NoMemory };

    fn from(_: AllocFailed<T>) -> Self {
        PlanFault::NoMemory
    }
}

// The most leaves of a plan, and so the most nodes one below the other; the greatest relation, edge and column.
const MOST_LEAVES: u8 = 6;

const LAST_RELATION: u8 = 5;

const LAST_EDGE: u8 = 5;

const LAST_COLUMN: u8 = 31;

// What follows a sign.
#[tactic(auto, unfolding(crate::specs::Reader::after))]
fn after<'s>(bytes: &'s [u8], sign: u8) -> Option<&'s [u8]>
    ensures { option_map (λ rest. rest.now) result ≡ after sign bytes.now }
{
    let [first, rest @ ..] = bytes else {
        return None;
    };
    if *first == sign { Some(rest) } else { None }
}

// A digit of at most `most`.
#[tactic(auto, unfolding(crate::specs::Reader::digit_at))]
fn digit_at<'s>(bytes: &'s [u8], most: u8) -> Option<(u8, &'s [u8])>
    ensures digit { option_map (λ found. (found.0, found.1.now)) result ≡ digit_at most bytes.now }
    ensures most { IfSome result (λ found. found.0 ≤ most) }
{
    let [first, rest @ ..] = bytes else {
        return None;
    };
    if *first >= b'0' && *first - b'0' <= most {
        Some((*first - b'0', rest))
    } else {
        None
    }
}

// A column: one digit, or two that don't begin with 0.
#[tactic(auto, unfolding(crate::specs::Reader::column_number_at, crate::specs::Reader::with_second))]
fn column_at<'s>(bytes: &'s [u8]) -> Option<(u8, &'s [u8])>
    ensures { option_map (λ found. (found.0, found.1.now)) result ≡ column_number_at bytes.now }
{
    let (first, rest) = digit_at(bytes, 9)?;
    let Some((second, end)) = digit_at(rest, 9) else {
        return Some((first, rest));
    };
    let column = 10 * first + second;
    if column >= 10 && column <= LAST_COLUMN {
        Some((column, end))
    } else {
        None
    }
}

// A scan, after its letter.
#[tactic(auto, unfolding(crate::specs::Reader::scan_at))]
fn scan_at<'s>(bytes: &'s [u8]) -> Option<(Plan, &'s [u8])>
    ensures { option_map (λ found. (plan_tree found.0, found.1.now)) result ≡ scan_at bytes.now }
{
    let (relation, rest) = digit_at(bytes, LAST_RELATION)?;
    Some((Plan::Scan(relation), rest))
}

// An index scan, after its letter.
#[tactic(auto, unfolding(crate::specs::Reader::index_scan_at))]
fn index_scan_at<'s>(bytes: &'s [u8]) -> Option<(Plan, &'s [u8])>
    ensures { option_map (λ found. (plan_tree found.0, found.1.now)) result
        ≡ index_scan_at bytes.now }
{
    let (relation, rest) = digit_at(bytes, LAST_RELATION)?;
    let (column, rest) = column_at(after(rest, b'.')?)?;
    Some((Plan::IndexScan(relation, column), rest))
}

// The relation on the right of an index loop, and the sign after it.
#[tactic(auto, unfolding(crate::specs::Reader::closed_at))]
fn last_relation<'s>(bytes: &'s [u8]) -> Option<(u8, &'s [u8])>
    ensures { option_map (λ found. (found.0, found.1.now)) result
        ≡ closed_at (digit_at 5) 41 bytes.now }
{
    let (relation, rest) = digit_at(bytes, LAST_RELATION)?;
    Some((relation, after(rest, b')')?))
}

// The edge of a join.
fn edge_at<'s>(bytes: &'s [u8]) -> Result<(u8, &'s [u8]), PlanFault>
    ensures { GivesRead (λ found. (found.0, found.1.now)) result (digit_at 5 bytes.now) }
{
    digit_at(bytes, LAST_EDGE).ok_or(PlanFault::NotPlanText)
}

// One side of a join, and the sign after it.
#[cycle(plan)]
#[tactic(auto, unfolding(crate::specs::Reader::closed_at))]
fn side<'s>(
    alloc: Global,
    levels: u8,
    bytes: &'s [u8],
    sign: u8,
) -> Result<(Box<Plan>, &'s [u8]), PlanFault>
    ensures { GivesRead (λ found. (plan_tree found.0.value, found.1.now)) result
        (closed_at (plan_tree_at levels) sign bytes.now) }
{
    let (plan, rest) = plan_at(alloc, levels, bytes)?;
    let rest = after(rest, sign).ok_or(PlanFault::NotPlanText)?;
    Ok((Box::new(alloc, plan)?, rest))
}

// The two plans that a join is of.
#[cycle(plan)]
#[tactic(auto, unfolding(crate::specs::Reader::sides_at))]
fn sides<'s>(
    alloc: Global,
    levels: u8,
    bytes: &'s [u8],
) -> Result<((Box<Plan>, Box<Plan>), &'s [u8]), PlanFault>
    ensures { GivesRead (λ found. ((plan_tree found.0.0.value, plan_tree found.0.1.value), found.1.now))
        result (sides_at (plan_tree_at levels) (plan_tree_at levels) bytes.now) }
{
    let inside = after(bytes, b'(').ok_or(PlanFault::NotPlanText)?;
    let (left, rest) = side(alloc, levels, inside, b',')?;
    let (right, rest) = side(alloc, levels, rest, b')')?;
    Ok(((left, right), rest))
}

// A nested loop, after its letter.
#[cycle(plan)]
#[tactic(auto, unfolding(crate::specs::Reader::nest_at))]
fn nest<'s>(alloc: Global, levels: u8, bytes: &'s [u8]) -> Result<(Plan, &'s [u8]), PlanFault>
    ensures { GivesPlan result
        (nest_at (plan_tree_at levels) bytes.now) }
{
    let ((left, right), rest) = sides(alloc, levels, bytes)?;
    Ok((Plan::Nest(left, right), rest))
}

// A hash join, after its letter.
#[cycle(plan)]
#[tactic(auto, unfolding(crate::specs::Reader::join_at))]
fn hash<'s>(alloc: Global, levels: u8, bytes: &'s [u8]) -> Result<(Plan, &'s [u8]), PlanFault>
    ensures { GivesPlan result
        (join_at Hash (plan_tree_at levels) (plan_tree_at levels) bytes.now) }
{
    let (edge, rest) = edge_at(bytes)?;
    let ((left, right), rest) = sides(alloc, levels, rest)?;
    Ok((Plan::Hash(edge, left, right), rest))
}

// A merge join, after its letter.
#[cycle(plan)]
#[tactic(auto, unfolding(crate::specs::Reader::join_at))]
fn merge<'s>(alloc: Global, levels: u8, bytes: &'s [u8]) -> Result<(Plan, &'s [u8]), PlanFault>
    ensures { GivesPlan result
        (join_at Merge (plan_tree_at levels) (plan_tree_at levels) bytes.now) }
{
    let (edge, rest) = edge_at(bytes)?;
    let ((left, right), rest) = sides(alloc, levels, rest)?;
    Ok((Plan::Merge(edge, left, right), rest))
}

// An index loop, after its letter.
#[cycle(plan)]
#[tactic(auto, unfolding(crate::specs::Reader::join_at, crate::specs::Reader::sides_at))]
fn index_loop<'s>(alloc: Global, levels: u8, bytes: &'s [u8]) -> Result<(Plan, &'s [u8]), PlanFault>
    ensures { GivesPlan result
        (join_at IndexLoop (plan_tree_at levels) (digit_at 5) bytes.now) }
{
    let (edge, rest) = edge_at(bytes)?;
    let inside = after(rest, b'(').ok_or(PlanFault::NotPlanText)?;
    let (left, rest) = side(alloc, levels, inside, b',')?;
    let (relation, rest) = last_relation(rest).ok_or(PlanFault::NotPlanText)?;
    Ok((Plan::IndexLoop(edge, left, relation), rest))
}

// A plan, after the letter of its outermost node.
#[cycle(plan)]
#[tactic(auto, unfolding(crate::specs::Reader::plan_node_of))]
fn node_of<'s>(
    alloc: Global,
    levels: u8,
    letter: u8,
    bytes: &'s [u8],
) -> Result<(Plan, &'s [u8]), PlanFault>
    ensures { GivesPlan result
        (plan_node_of (plan_tree_at levels) letter bytes.now) }
{
    match letter {
        b'S' => scan_at(bytes).ok_or(PlanFault::NotPlanText),
        b'I' => index_scan_at(bytes).ok_or(PlanFault::NotPlanText),
        b'N' => nest(alloc, levels, bytes),
        b'H' => hash(alloc, levels, bytes),
        b'M' => merge(alloc, levels, bytes),
        b'X' => index_loop(alloc, levels, bytes),
        _ => Err(PlanFault::NotPlanText),
    }
}

// A plan of at most so many nodes one below the other.
#[cycle(plan)]
#[tactic(auto, unfolding(crate::specs::Reader::plan_tree_at))]
fn plan_at<'s>(alloc: Global, levels: u8, bytes: &'s [u8]) -> Result<(Plan, &'s [u8]), PlanFault>
    ensures { GivesPlan result
        (plan_tree_at levels bytes.now) }
{
    if levels == 0 {
        return Err(PlanFault::NotPlanText);
    }
    let [letter, rest @ ..] = bytes else {
        return Err(PlanFault::NotPlanText);
    };
    node_of(alloc, levels - 1, *letter, rest)
}

// Whether nothing follows what was read, and it has at most six leaves.
fn is_whole(p: &Plan, rest: &[u8]) -> bool
    ensures { result
        ≡ (nat_eq (length rest.now) 0 && nat_le (length (leaves_of (plan_tree p.now))) 6) }
{
    rest.is_empty() && leaf_count(p) <= MOST_LEAVES
}

/// The plan that has this text, as `plan_text` writes it: of at most six leaves, the relation of each index loop among
/// them; relations and edges up to 5, columns up to 31. A plan has one text, and a text has one plan at the most.
///
/// `NotPlanText`: no such plan has the text. `NoMemory`: out of memory.
#[tactic(auto, using(crate::proofs::Reader::text_is_read))]
pub fn read_plan(alloc: Global, bytes: &[u8]) -> Result<Plan, PlanFault>
    ensures plan { IfOk result (λ p. HasText (plan_tree p) bytes.now) }
    ensures refused { IsErrOf result PlanFault.NotPlanText →
        (p : PlanTree) → HasText p bytes.now → ⊥ }
{
    let (plan, rest) = plan_at(alloc, MOST_LEAVES, bytes)?;
    if is_whole(&plan, rest) {
        Ok(plan)
    } else {
        Err(PlanFault::NotPlanText)
    }
}
