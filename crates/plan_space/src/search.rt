// The best plan of a block at a point.
ghost use Rattle.std.specs.Prelude.{◌≡◌, ◌<◌, ◌≤◌, IfOk, IsTrue};
ghost use Rattle.ess_grid.specs.Points.{IsPoint};
ghost use Rattle.query_block.specs.Blocks.{block_tree};
ghost use Rattle.plan_tree.specs.Plans.{plan_tree, covers_of};
ghost use Rattle.cost_model.specs.Costing.{costing_tree};
ghost use Rattle.cost_model.specs.Best.{IsBest};
ghost use Rattle.cost_model.specs.Optimal.{optimal_cost};
ghost use Rattle.cost_model.specs.Prices.{block_at};
ghost use Rattle.plan_space.specs.Alike.{AreInsideSets};
ghost use Rattle.plan_space.specs.Table.{AllStand, Follows, HasEntry, IsToldPlan};

use crate::alike::axes_inside_sets;
use crate::entry::{Entry, no_entries};
use crate::kept_rows::KeptRows;
use crate::sets::set_of_all;
use crate::table::fill;
use cost_model::{Costing, PriceRoom, Prices};
use ess_grid::Point;
use plan_tree::{Plan, Root, Subset};
use query_block::Block;
use sql_values::MAX_AXES;
use std::alloc::{AllocError, Global};

// The plan of a set that the entries tell, in a box.
#[cycle(rebuilt)]
fn boxed(
    alloc: Global,
    block: &Block,
    table: &[Entry; 64],
    set: Subset,
) -> Result<Box<Plan>, AllocError>
    requires stands { AllStand (block_tree block.now) table.now }
    requires set { HasEntry (block_tree block.now) set }
    ensures follows { IfOk result (λ p. Follows table.now (plan_tree p.value) set) }
    ensures covers { IfOk result (λ p. covers_of (plan_tree p.value) ≡ set) }
{
    let p = rebuilt(alloc, block, table, set)?;
    Ok(Box::new(alloc, p)?)
}

/// The plan of a set that the entries tell.
#[cycle(rebuilt)]
pub(crate) fn rebuilt(
    alloc: Global,
    block: &Block,
    table: &[Entry; 64],
    set: Subset,
) -> Result<Plan, AllocError>
    requires stands { AllStand (block_tree block.now) table.now }
    requires set { HasEntry (block_tree block.now) set }
    ensures follows { IfOk result (λ p. Follows table.now (plan_tree p) set) }
    ensures covers { IfOk result (λ p. covers_of (plan_tree p) ≡ set) }
{
    match table[set.number() as usize].root {
        Root::Scan(relation) => Ok(Plan::Scan(relation)),
        Root::IndexScan(relation, column) => Ok(Plan::IndexScan(relation, column)),
        Root::Nest(left) => {
            let left = Subset::new(left);
            let right = set.without(left);
            let left = boxed(alloc, block, table, left)?;
            Ok(Plan::Nest(left, boxed(alloc, block, table, right)?))
        }
        Root::Hash(edge, left) => {
            let left = Subset::new(left);
            let right = set.without(left);
            let left = boxed(alloc, block, table, left)?;
            Ok(Plan::Hash(edge, left, boxed(alloc, block, table, right)?))
        }
        Root::Merge(edge, left) => {
            let left = Subset::new(left);
            let right = set.without(left);
            let left = boxed(alloc, block, table, left)?;
            Ok(Plan::Merge(edge, left, boxed(alloc, block, table, right)?))
        }
        Root::IndexLoop(edge, left, relation) => {
            let left = boxed(alloc, block, table, Subset::new(left))?;
            Ok(Plan::IndexLoop(edge, left, relation))
        }
    }
}

/// Whether a plan is the one of a set that the entries tell. It takes no memory.
pub(crate) fn tells(block: &Block, table: &[Entry; 64], set: Subset, p: &Plan) -> bool
    requires stands { AllStand (block_tree block.now) table.now }
    requires set { HasEntry (block_tree block.now) set }
    ensures { IsTrue result → IsToldPlan table.now (plan_tree p.now) set }
{
    let root = table[set.number() as usize].root;
    match p {
        Plan::Scan(relation) => root == Root::Scan(*relation),
        Plan::IndexScan(relation, column) => root == Root::IndexScan(*relation, *column),
        Plan::Nest(left, right) => match root {
            Root::Nest(side) => {
                let side = Subset::new(side);
                tells(block, table, side, left) && tells(block, table, set.without(side), right)
            }
            _ => false,
        },
        Plan::Hash(edge, left, right) => match root {
            Root::Hash(other, side) if other == *edge => {
                let side = Subset::new(side);
                tells(block, table, side, left) && tells(block, table, set.without(side), right)
            }
            _ => false,
        },
        Plan::Merge(edge, left, right) => match root {
            Root::Merge(other, side) if other == *edge => {
                let side = Subset::new(side);
                tells(block, table, side, left) && tells(block, table, set.without(side), right)
            }
            _ => false,
        },
        Plan::IndexLoop(edge, left, relation) => match root {
            Root::IndexLoop(other, side, right) if other == *edge && right == *relation => {
                tells(block, table, Subset::new(side), left)
            }
            _ => false,
        },
    }
}

// The best plan at the prices of a point, and what it costs there. These are the axes inside the sets.
fn best_at(
    alloc: Global,
    prices: &Prices<'_>,
    inside: &[[bool; MAX_AXES]; 64],
) -> Result<(Plan, u128), AllocError>
    requires { AreInsideSets (block_at prices.now) inside.now }
    ensures best { IfOk result (λ it. IsBest
        (costing_tree prices.now.costing) prices.now.point (plan_tree it.0)) }
    ensures cost { IfOk result (λ found.
        found.1 ≡ optimal_cost (costing_tree prices.now.costing) prices.now.point) }
{
    let block = prices.block();
    let mut table = no_entries();
    fill(prices, inside, &KeptRows::none(alloc), &mut table);
    let all = set_of_all(block);
    let p = rebuilt(alloc, block, &table, all)?;
    Ok((p, table[all.number() as usize].cost))
}

/// The best plan of the block at a point of the costing's grid, and what it costs there: of all plans of the block the
/// cheapest, and of equally cheap ones the first in plan order. The only error is out of memory.
pub fn best(alloc: Global, costing: &Costing<'_>, q: &Point) -> Result<(Plan, u128), AllocError>
    requires { IsPoint costing.now.grid q.now }
    ensures best { IfOk result (λ found.
        IsBest (costing_tree costing.now) q.now (plan_tree found.0)) }
    ensures cost { IfOk result (λ found.
        found.1 ≡ optimal_cost (costing_tree costing.now) q.now) }
{
    let inside = axes_inside_sets(costing);
    best_at(
        alloc,
        &Prices::new(costing, q, &mut PriceRoom::new()),
        &inside,
    )
}
