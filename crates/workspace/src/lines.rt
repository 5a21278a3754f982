// The printed lines that are neither rows nor refusals.
ghost use Rattle.std.specs.Prelude.{◌≡◌, ◌+◌, ◌≤◌, [], ◌++◌, length, map, IfOk, OnOk, decimal, vec_len, vec_capacity};
ghost use Rattle.plan_tree.specs.Plans.{plan_tree};
ghost use Rattle.bouquet_check.specs.Verdicts.{verdict_tree};
ghost use Rattle.plan_tree.specs.Text.{plan_text_of};
ghost use Rattle.bouquet_type.specs.Trees.{bouquet_tree, contour_tree};
ghost use Rattle.workspace.specs.Printed.{load_line, size_line, contour_line, explain_text, plan_texts, point_text, verdict_text, check_line};

use bouquet_check::Verdict;
use bouquet_type::{Bouquet, Contour};
use itoa::Buffer;
use plan_tree::{Plan, plan_text};
use std::alloc::{AllocError, Global};

// The most bytes of the line of a load.
const LOAD_BYTES: usize = 34;

/// Room for the line of a load.
pub(crate) fn load_room(alloc: Global) -> Result<Vec<u8>, AllocError>
    ensures empty { IfOk result (λ text. text.items ≡ []) }
    ensures room { IfOk result (λ text. LOAD_BYTES ≤ vec_capacity text) }
{
    Vec::with_capacity(alloc, LOAD_BYTES)
}

/// Writes the line of a load of so many rows, for which there is room.
#[tactic(auto, using(crate::proofs::LoadLine::rows_digits))]
pub(crate) fn write_load(text: &mut Vec<u8>, rows: u64)
    requires empty { text.old.items ≡ [] }
    requires room { LOAD_BYTES ≤ vec_capacity text.old }
    ensures { text.new.items ≡ load_line rows }
{
    write(text, b"-- load rows=");
    write(text, Buffer::new().format(rows).as_bytes());
    write(text, b"\n");
}

// Appends bytes for which there is room.
fn write(text: &mut Vec<u8>, bytes: &[u8])
    requires { vec_len text.old + length bytes.now ≤ vec_capacity text.old }
    ensures items { text.new.items ≡ text.old.items ++ bytes.now }
    ensures len { vec_len text.new ≡ vec_len text.old + length bytes.now }
    ensures capacity { vec_capacity text.old ≤ vec_capacity text.new }
{
    let Ok(()) = text.extend_from_slice(bytes) else {
        unreachable!()
    };
}

/// Appends a label and a number.
pub fn push_labelled(text: &mut Vec<u8>, label: &str, number: u128) -> Result<(), AllocError>
    ensures { OnOk result (text.new.items ≡ text.old.items ++ (label.now ++ decimal number)) }
{
    text.extend_from_slice(label.as_bytes())?;
    text.extend_from_slice(Buffer::new().format(number).as_bytes())
}

/// Appends a plan.
pub fn push_plan(alloc: Global, text: &mut Vec<u8>, plan: &Plan) -> Result<(), AllocError>
    ensures { OnOk result (text.new.items ≡ text.old.items ++ plan_text_of (plan_tree plan.now)) }
{
    let plan = plan_text(alloc, plan)?;
    text.extend_from_slice(&plan)
}

/// The line with the size of a bouquet, behind a label.
pub(crate) fn size_line(
    alloc: Global,
    label: &str,
    bouquet: &Bouquet,
) -> Result<Vec<u8>, AllocError>
    ensures { IfOk result (λ text. text.items ≡ size_line label.now (bouquet_tree bouquet.now)) }
{
    let mut text = Vec::new(alloc);
    push_labelled(&mut text, label, bouquet.grid().points() as u128)?;
    push_labelled(&mut text, " contours=", bouquet.contours().len() as u128)?;
    push_labelled(&mut text, " r=", u128::from(bouquet.most()))?;
    text.push(b'\n')?;
    Ok(text)
}

// Appends the texts of plans, a space before each but the first.
fn push_plans(alloc: Global, text: &mut Vec<u8>, plans: &[Plan]) -> Result<(), AllocError>
    ensures { OnOk result (text.new.items
        ≡ text.old.items ++ plan_texts (map plan_tree plans.now)) }
{
    for (place, plan) in plans.iter().enumerate() {
        if place > 0 {
            text.push(b' ')?;
        }
        push_plan(alloc, text, plan)?;
    }
    Ok(())
}

// Appends the line of a contour of this number, with this budget.
fn push_contour(
    alloc: Global,
    text: &mut Vec<u8>,
    number: usize,
    budget: u128,
    contour: &Contour,
) -> Result<(), AllocError>
    ensures { OnOk result (text.new.items
        ≡ text.old.items ++ contour_line number budget (contour_tree contour.now)) }
{
    push_labelled(text, "-- contour=", number as u128)?;
    push_labelled(text, " cost=", contour.cost)?;
    push_labelled(text, " budget=", budget)?;
    text.extend_from_slice(b" plans=")?;
    push_plans(alloc, text, contour.plans.as_slice())?;
    text.push(b'\n')?;
    Ok(())
}

/// A line for each contour of a bouquet.
pub(crate) fn contour_lines(alloc: Global, bouquet: &Bouquet) -> Result<Vec<u8>, AllocError>
    ensures { IfOk result (λ text. text.items ≡ explain_text (bouquet_tree bouquet.now)) }
{
    let mut text = Vec::new(alloc);
    for (place, contour) in bouquet.contours().iter().enumerate() {
        push_contour(
            alloc,
            &mut text,
            place + 1,
            bouquet.budget(place + 1),
            contour,
        )?;
    }
    Ok(text)
}

/// Appends the levels of a point, a comma before each but the first; a dash where there is no axis.
pub fn push_point(text: &mut Vec<u8>, levels: &[u8]) -> Result<(), AllocError>
    ensures { OnOk result (text.new.items ≡ text.old.items ++ point_text levels.now) }
{
    let Some((first, others)) = levels.split_first() else {
        return text.extend_from_slice(b"-");
    };
    text.extend_from_slice(Buffer::new().format(*first).as_bytes())?;
    for level in others {
        push_labelled(text, ",", u128::from(*level))?;
    }
    Ok(())
}

// Appends whether a bouquet is sound, and if not, what it breaks first.
fn push_verdict(text: &mut Vec<u8>, verdict: &Verdict) -> Result<(), AllocError>
    ensures { OnOk result (text.new.items
        ≡ text.old.items ++ verdict_text (verdict_tree verdict.now)) }
{
    match verdict {
        Verdict::First => text.extend_from_slice(b"no first"),
        Verdict::Step { contour } => push_labelled(text, "no step ", u128::from(*contour)),
        Verdict::Last => text.extend_from_slice(b"no last"),
        Verdict::Uncovered { contour, point } => {
            text.extend_from_slice(b"no point=")?;
            push_point(text, point.levels())?;
            push_labelled(text, " contour=", u128::from(*contour))
        }
        Verdict::Sound => text.extend_from_slice(b"yes"),
    }
}

/// The line of a check.
pub(crate) fn check_line(alloc: Global, verdict: &Verdict) -> Result<Vec<u8>, AllocError>
    ensures { IfOk result (λ text. text.items ≡ check_line (verdict_tree verdict.now)) }
{
    let mut text = Vec::from_slice(alloc, b"-- check sound=")?;
    push_verdict(&mut text, verdict)?;
    text.push(b'\n')?;
    Ok(text)
}
