// The texts of plans.
ghost use Rattle.std.specs.Prelude.{◌≡◌, ◌++◌, ◌∷◌, decimal, OnOk, IfOk};
ghost use Rattle.plan_tree.specs.Plans.{plan_tree, IndexScan, Nest, IndexLoop};
ghost use Rattle.plan_tree.specs.Text.{plan_text_of, sides_text};

use crate::plan::Plan;
use itoa::Buffer;
use std::alloc::{AllocError, Global};

// Appends a letter or a sign, and a number in decimal.
fn put_number(text: &mut Vec<u8>, sign: u8, number: u8) -> Result<(), AllocError>
    ensures { OnOk result (text.new.items ≡ text.old.items ++ sign ∷ decimal number) }
{
    let mut buffer = Buffer::new();
    text.push(sign)?;
    text.extend_from_slice(buffer.format(number).as_bytes())
}

// Appends the two sides of a join.
#[cycle(text)]
fn put_sides(text: &mut Vec<u8>, left: &Plan, right: &Plan) -> Result<(), AllocError>
    ensures { OnOk result (text.new.items ≡ text.old.items
        ++ sides_text (plan_text_of (plan_tree left.now)) (plan_text_of (plan_tree right.now))) }
{
    text.push(b'(')?;
    put_plan(text, left)?;
    text.push(b',')?;
    put_plan(text, right)?;
    text.push(b')')?;
    Ok(())
}

// Appends an index scan.
fn put_index_scan(text: &mut Vec<u8>, relation: u8, column: u8) -> Result<(), AllocError>
    ensures { OnOk result (text.new.items
        ≡ text.old.items ++ plan_text_of (IndexScan relation column)) }
{
    put_number(text, b'I', relation)?;
    put_number(text, b'.', column)
}

// Appends a nested loop.
#[cycle(text)]
fn put_nest(text: &mut Vec<u8>, left: &Plan, right: &Plan) -> Result<(), AllocError>
    ensures { OnOk result (text.new.items
        ≡ text.old.items ++ plan_text_of (Nest (plan_tree left.now) (plan_tree right.now))) }
{
    text.push(b'N')?;
    put_sides(text, left, right)
}

// Appends a join by an edge, which has this letter.
#[cycle(text)]
fn put_join(
    text: &mut Vec<u8>,
    letter: u8,
    edge: u8,
    left: &Plan,
    right: &Plan,
) -> Result<(), AllocError>
    ensures { OnOk result (text.new.items ≡ text.old.items ++ letter ∷ decimal edge
        ++ sides_text (plan_text_of (plan_tree left.now)) (plan_text_of (plan_tree right.now))) }
{
    put_number(text, letter, edge)?;
    put_sides(text, left, right)
}

// Appends an index loop.
#[cycle(text)]
fn put_index_loop(text: &mut Vec<u8>, edge: u8, left: &Plan, relation: u8) -> Result<(), AllocError>
    ensures { OnOk result (text.new.items
        ≡ text.old.items ++ plan_text_of (IndexLoop edge (plan_tree left.now) relation)) }
{
    put_number(text, b'X', edge)?;
    text.push(b'(')?;
    put_plan(text, left)?;
    put_number(text, b',', relation)?;
    text.push(b')')?;
    Ok(())
}

// Appends a plan.
#[cycle(text)]
fn put_plan(text: &mut Vec<u8>, p: &Plan) -> Result<(), AllocError>
    ensures { OnOk result (text.new.items ≡ text.old.items ++ plan_text_of (plan_tree p.now)) }
{
    match p {
        Plan::Scan(relation) => put_number(text, b'S', *relation),
        Plan::IndexScan(relation, column) => put_index_scan(text, *relation, *column),
        Plan::Nest(left, right) => put_nest(text, left, right),
        Plan::Hash(edge, left, right) => put_join(text, b'H', *edge, left, right),
        Plan::Merge(edge, left, right) => put_join(text, b'M', *edge, left, right),
        Plan::IndexLoop(edge, left, relation) => put_index_loop(text, *edge, left, *relation),
    }
}

/// The text of a plan: a letter for each node, its numbers in decimal, its sides in parentheses, without a space. Fails
/// only if memory runs out.
pub fn plan_text(alloc: Global, p: &Plan) -> Result<Vec<u8>, AllocError>
    ensures { IfOk result (λ text. text.items ≡ plan_text_of (plan_tree p.now)) }
{
    let mut text = Vec::new(alloc);
    put_plan(&mut text, p)?;
    Ok(text)
}
