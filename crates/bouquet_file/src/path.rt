// The path of a fault, as a refusal prints it.
ghost use Rattle.std.specs.Prelude.{◌≡◌, ◌++◌, IfOk, OnOk, decimal};
ghost use Rattle.bouquet_file.specs.Paths.{relation_path, contour_path, cost_path, plans_path, plan_path, field_path, fault_path};

use crate::fault::{FieldPath, OpenFault};
use cost_model::CountName;
use itoa::Buffer;
use std::alloc::{AllocError, Global};

// Appends a number in decimal.
fn put_number(text: &mut Vec<u8>, number: u32) -> Result<(), AllocError>
    ensures { OnOk result (text.new.items ≡ text.old.items ++ decimal number) }
{
    let mut buffer = Buffer::new();
    text.extend_from_slice(buffer.format(number).as_bytes())
}

// Appends the path of a relation.
fn put_relation(text: &mut Vec<u8>, number: u32) -> Result<(), AllocError>
    ensures { OnOk result (text.new.items ≡ text.old.items ++ relation_path number) }
{
    text.extend_from_slice(b"relations.")?;
    put_number(text, number)
}

// Appends the path of a contour.
fn put_contour(text: &mut Vec<u8>, number: u32) -> Result<(), AllocError>
    ensures { OnOk result (text.new.items ≡ text.old.items ++ contour_path number) }
{
    text.extend_from_slice(b"contours.")?;
    put_number(text, number)
}

// Appends the path of a contour's cost.
fn put_cost(text: &mut Vec<u8>, contour: u32) -> Result<(), AllocError>
    ensures { OnOk result (text.new.items ≡ text.old.items ++ cost_path contour) }
{
    put_contour(text, contour)?;
    text.extend_from_slice(b".cost")
}

// Appends the path of a contour's plans.
fn put_plans(text: &mut Vec<u8>, contour: u32) -> Result<(), AllocError>
    ensures { OnOk result (text.new.items ≡ text.old.items ++ plans_path contour) }
{
    put_contour(text, contour)?;
    text.extend_from_slice(b".plans")
}

// Appends the path of a plan.
fn put_plan(text: &mut Vec<u8>, contour: u32, number: u32) -> Result<(), AllocError>
    ensures { OnOk result (text.new.items ≡ text.old.items ++ plan_path contour number) }
{
    put_plans(text, contour)?;
    text.extend_from_slice(b".")?;
    put_number(text, number)
}

// Appends the path of a count.
fn put_count(text: &mut Vec<u8>, number: u32, count: CountName) -> Result<(), AllocError>
    ensures { OnOk result (text.new.items
        ≡ text.old.items ++ field_path (FieldPath.Count number count)) }
{
    put_relation(text, number)?;
    text.extend_from_slice(b".")?;
    text.extend_from_slice(count.word().as_bytes())
}

// Appends the path of a value.
fn put_field(text: &mut Vec<u8>, path: FieldPath) -> Result<(), AllocError>
    ensures { OnOk result (text.new.items ≡ text.old.items ++ field_path path) }
{
    match path {
        FieldPath::Bouquet => text.extend_from_slice(b"bouquet"),
        FieldPath::Keys => text.extend_from_slice(b"keys"),
        FieldPath::Query => text.extend_from_slice(b"query"),
        FieldPath::Levels => text.extend_from_slice(b"levels"),
        FieldPath::Threshold => text.extend_from_slice(b"threshold"),
        FieldPath::Relations => text.extend_from_slice(b"relations"),
        FieldPath::Relation(number) => put_relation(text, number),
        FieldPath::Count(number, count) => put_count(text, number, count),
        FieldPath::Contours => text.extend_from_slice(b"contours"),
        FieldPath::Contour(number) => put_contour(text, number),
        FieldPath::Cost(contour) => put_cost(text, contour),
        FieldPath::Plans(contour) => put_plans(text, contour),
        FieldPath::Plan(contour, number) => put_plan(text, contour, number),
        FieldPath::Parameters => text.extend_from_slice(b"parameters"),
    }
}

/// Where in the file the fault is: keys and numbers of items, from 1, with dots between. Counts that aren't those of the
/// tables and memory that ran out have no place, and no text. Fails only if memory runs out.
pub fn path_text(alloc: Global, fault: OpenFault) -> Result<Vec<u8>, AllocError>
    ensures { IfOk result (λ text. text.items ≡ fault_path fault) }
{
    let mut text = Vec::new(alloc);
    match fault {
        OpenFault::NotJson => text.extend_from_slice(b"json")?,
        OpenFault::Field { path } => put_field(&mut text, path)?,
        OpenFault::Version { .. } => text.extend_from_slice(b"version")?,
        OpenFault::OtherQuery => text.extend_from_slice(b"query")?,
        OpenFault::Parameters { .. } => text.extend_from_slice(b"parameters")?,
        OpenFault::BudgetLimit { contour } => put_cost(&mut text, contour)?,
        OpenFault::NotAPlan { contour, plan } => put_plan(&mut text, contour, plan)?,
        OpenFault::Stale(_) | OpenFault::NoMemory => {}
    }
    Ok(text)
}
