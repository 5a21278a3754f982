// The contours of a file: first what stands in them, where all of it fits, then their plans.
ghost use Rattle.std.specs.Prelude.{◌≡◌, ◌≤◌, All, IfOk, IfSome, length, map, option_map};
ghost use Rattle.sql_values.specs.Limits.{max_points, max_contours};
ghost use Rattle.serde_json.specs.View.{view, members_view};
ghost use Rattle.query_block.specs.Blocks.{block_tree};
ghost use Rattle.plan_tree.specs.Plans.{plan_tree};
ghost use Rattle.plan_tree.specs.Enumerated.{IsPlan};
ghost use Rattle.bouquet_type.specs.Trees.{IsContour, contour_tree};
ghost use Rattle.sql_values.specs.Steps.{each};
ghost use Rattle.bouquet_file.specs.Given.{GivesChecked, GivesEach};
ghost use Rattle.bouquet_file.specs.Checks.{cost_in, plan_fits, contour_fits, plan_with_text, plan_here, contour_at};
ghost use Rattle.bouquet_file.specs.Parts.{contour_seen, HasTexts};

use crate::fault::{FieldPath, OpenFault};
use crate::values::{Members, ObjectKind, decimal_number, list_at, need, object_of, text_at};
use bouquet_type::Contour;
use plan_tree::{Plan, PlanFault, is_plan, read_plan};
use query_block::Block;
use serde_json::Value;
use sql_values::{MAX_CONTOUR_COST, MAX_POINTS};
use std::alloc::{AllocError, Global};

/// What stands in a contour of a file.
#[derive(Drop)]
pub(crate) struct ContourParts<'v> {
    /// Its cost.
    pub cost: u128,
    /// The texts of its plans.
    pub texts: Vec<&'v [u8]>,
}

// The cost of a contour.
fn cost_in(members: &Members) -> Option<u128>
    ensures { result ≡ cost_in (members_view members.now.entries) }
{
    decimal_number(text_at(members, "cost")?)
}

// The texts of the plans of a contour, or the first that isn't a text.
fn texts_of<'v>(alloc: Global, contour: u32, plans: &'v [Value]) -> Result<Vec<&'v [u8]>, OpenFault>
    requires { length plans.now ≤ max_points }
    ensures texts { GivesEach (λ text. text.now) result
        (each (plan_fits contour) 1 (map view plans.now)) }
    ensures count { IfOk result (λ texts. length texts.items ≡ length plans.now) }
{
    let mut texts = Vec::new(alloc);
    for (place, plan) in plans.iter().enumerate() {
        let text = need(plan.as_str(), FieldPath::Plan(contour, place as u32 + 1))?;
        texts.push(text.as_bytes())?;
    }
    Ok(texts)
}

// What stands in the contour of this number, from 1, or the first value of it that doesn't fit.
fn contour_fits<'v>(
    alloc: Global,
    number: u32,
    value: &'v Value,
) -> Result<ContourParts<'v>, OpenFault>
    ensures parts { GivesChecked contour_seen result (contour_fits number (view value.now)) }
    ensures texts { IfOk result HasTexts }
{
    let members = need(
        object_of(value, ObjectKind::Contour),
        FieldPath::Contour(number),
    )?;
    let cost = need(cost_in(members), FieldPath::Cost(number))?;
    let plans = list_at(members, "plans", 1, MAX_POINTS as usize);
    let plans = need(plans, FieldPath::Plans(number))?;
    let texts = texts_of(alloc, number, plans)?;
    Ok(ContourParts { cost, texts })
}

/// What stands in the contours, or the first value of them that doesn't fit.
pub(crate) fn contours_fit<'v>(
    alloc: Global,
    contours: &'v [Value],
) -> Result<Vec<ContourParts<'v>>, OpenFault>
    requires { length contours.now ≤ max_contours }
    ensures parts { GivesEach contour_seen result
        (each contour_fits 1 (map view contours.now)) }
    ensures texts { IfOk result (λ parts. All HasTexts parts.items) }
    ensures count { IfOk result (λ parts. length parts.items ≡ length contours.now) }
{
    let mut parts = Vec::new(alloc);
    for (place, contour) in contours.iter().enumerate() {
        parts.push(contour_fits(alloc, place as u32 + 1, contour)?)?;
    }
    Ok(parts)
}

// The plan of the block that has this text.
fn plan_with_text(alloc: Global, block: &Block, text: &[u8]) -> Result<Option<Plan>, AllocError>
    ensures plan { IfOk result
        (λ p. option_map plan_tree p ≡ plan_with_text (block_tree block.now) text.now) }
    ensures is_plan { IfOk result
        (λ found. IfSome found (λ p. IsPlan (block_tree block.now) (plan_tree p))) }
{
    prove!(!block.relations().is_empty());
    let plan = match read_plan(alloc, text) {
        Ok(plan) => plan,
        Err(PlanFault::NotPlanText) => return Ok(None),
        Err(PlanFault::NoMemory) => return Err(AllocError),
    };
    if is_plan(block, &plan) {
        Ok(Some(plan))
    } else {
        Ok(None)
    }
}

// The plan of this number, from 1, of a contour.
fn plan_here(
    alloc: Global,
    block: &Block,
    contour: u32,
    number: u32,
    text: &[u8],
) -> Result<Plan, OpenFault>
    ensures plan { GivesChecked plan_tree result
        (plan_here (block_tree block.now) contour number text.now) }
    ensures is_plan { IfOk result (λ p. IsPlan (block_tree block.now) (plan_tree p)) }
{
    match plan_with_text(alloc, block, text)? {
        Some(plan) => Ok(plan),
        None => Err(OpenFault::NotAPlan {
            contour,
            plan: number,
        }),
    }
}

// The plans of a contour.
fn plans_of(
    alloc: Global,
    block: &Block,
    contour: u32,
    texts: &[&[u8]],
) -> Result<Vec<Plan>, OpenFault>
    requires { length texts.now ≤ max_points }
    ensures plans { GivesEach plan_tree result
        (each (plan_here (block_tree block.now) contour) 1 (map (λ text. text.now) texts.now)) }
    ensures count { IfOk result (λ plans. length plans.items ≡ length texts.now) }
    ensures are_plans { IfOk result
        (λ plans. All (λ p. IsPlan (block_tree block.now) (plan_tree p)) plans.items) }
{
    let mut plans = Vec::new(alloc);
    for (place, text) in texts.iter().enumerate() {
        plans.push(plan_here(alloc, block, contour, place as u32 + 1, text)?)?;
    }
    Ok(plans)
}

// The contour of this number, from 1, of contours that fit.
fn contour_at(
    alloc: Global,
    block: &Block,
    number: u32,
    parts: &ContourParts<'_>,
) -> Result<Contour, OpenFault>
    requires { HasTexts parts.now }
    ensures contour { GivesChecked contour_tree result
        (contour_at (block_tree block.now) number (contour_seen parts.now)) }
    ensures is_contour { IfOk result (IsContour (block_tree block.now)) }
{
    let cost = parts.cost;
    if cost > MAX_CONTOUR_COST {
        return Err(OpenFault::BudgetLimit { contour: number });
    }
    let plans = plans_of(alloc, block, number, parts.texts.as_slice())?;
    Ok(Contour { cost, plans })
}

/// The contours of a file, with their costs and plans.
pub(crate) fn contours_of(
    alloc: Global,
    block: &Block,
    parts: &[ContourParts<'_>],
) -> Result<Vec<Contour>, OpenFault>
    requires few { length parts.now ≤ max_contours }
    requires texts { All HasTexts parts.now }
    ensures contours { GivesEach contour_tree result
        (each (contour_at (block_tree block.now)) 1 (map contour_seen parts.now)) }
    ensures count { IfOk result (λ contours. length contours.items ≡ length parts.now) }
    ensures are_contours { IfOk result
        (λ contours. All (IsContour (block_tree block.now)) contours.items) }
{
    let mut contours = Vec::new(alloc);
    for (place, one) in parts.iter().enumerate() {
        contours.push(contour_at(alloc, block, place as u32 + 1, one)?)?;
    }
    Ok(contours)
}
