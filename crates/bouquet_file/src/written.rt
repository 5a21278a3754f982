// The bytes that are written of a bouquet.
ghost use Rattle.std.specs.Prelude.{◌≡◌, ◌≤◌, Ok, IfOk, length, map, string_bytes};
ghost use Rattle.std.specs.Str.{IsUtf8};
ghost use Rattle.serde_json.specs.View.{view, items_view};
ghost use Rattle.plan_tree.specs.Plans.{plan_tree};
ghost use Rattle.bouquet_type.specs.Trees.{bouquet_tree, contour_tree};
ghost use Rattle.sql_values.specs.Limits.{max_parameters};
ghost use Rattle.bouquet_file.specs.Opened.{opened};
ghost use Rattle.bouquet_file.specs.Written.{plan_value, contour_value, relation_value, file_with, file_value, file_text};

use bouquet_type::{Bouquet, Contour};
use cost_model::RelationStats;
use itoa::Buffer;
use plan_tree::{Plan, plan_text};
use serde_json::{Value, json};
use std::alloc::{AllocError, Global};

// The text of a plan.
fn plan_value(alloc: Global, p: &Plan) -> Result<Value, AllocError>
    ensures { IfOk result (λ value. view value ≡ plan_value (plan_tree p.now)) }
{
    let text = plan_text(alloc, p)?;
    match String::from_utf8(text) {
        Ok(text) => Ok(Value::String(text)),
        Err(_) => unreachable!(),
    }
}

// The texts of plans.
fn plan_values(alloc: Global, plans: &[Plan]) -> Result<Vec<Value>, AllocError>
    ensures { IfOk result
        (λ values. map view values.items ≡ map (λ p. plan_value (plan_tree p)) plans.now) }
{
    let mut values = Vec::new(alloc);
    for p in plans {
        values.push(plan_value(alloc, p)?)?;
    }
    Ok(values)
}

// A contour.
fn contour_value(alloc: Global, contour: &Contour) -> Result<Value, AllocError>
    ensures { IfOk result (λ value. view value ≡ contour_value (contour_tree contour.now)) }
{
    let mut buffer = Buffer::new();
    let cost = buffer.format(contour.cost);
    let plans = plan_values(alloc, contour.plans.as_slice())?;
    let value = json!(in alloc; {"cost": cost, "plans": plans})?;
    Ok(value)
}

// The contours.
fn contour_values(alloc: Global, contours: &[Contour]) -> Result<Vec<Value>, AllocError>
    ensures { IfOk result
        (λ values. map view values.items
        ≡ map (λ contour. contour_value (contour_tree contour)) contours.now) }
{
    let mut values = Vec::new(alloc);
    for contour in contours {
        values.push(contour_value(alloc, contour)?)?;
    }
    Ok(values)
}

// What was counted of a relation.
fn relation_value(alloc: Global, stats: &RelationStats) -> Result<Value, AllocError>
    ensures { IfOk result (λ value. view value ≡ relation_value stats.now) }
{
    let indexes = stats.columns.as_slice().len();
    json!(in alloc; {"indexes": indexes, "kept": stats.kept, "rows": stats.rows})
}

// What was counted of the relations.
fn relation_values(alloc: Global, relations: &[RelationStats]) -> Result<Vec<Value>, AllocError>
    ensures { IfOk result (λ values. map view values.items ≡ map relation_value relations.now) }
{
    let mut values = Vec::new(alloc);
    for stats in relations {
        values.push(relation_value(alloc, stats)?)?;
    }
    Ok(values)
}

// What a file of either version says beside the query.
#[derive(Drop)]
struct FileMembers {
    levels: usize,
    threshold: u32,
    contours: Vec<Value>,
    relations: Vec<Value>,
}

// The value of a file of a query with so many parameters.
fn file_with(
    alloc: Global,
    query: &str,
    parameters: usize,
    members: FileMembers,
) -> Result<Value, AllocError>
    ensures { IfOk result (λ value. view value
        ≡ file_with query.now parameters members.levels members.threshold
        (items_view members.contours.items) (items_view members.relations.items)) }
{
    let FileMembers {
        levels,
        threshold,
        contours,
        relations,
    } = members;
    if parameters == 0 {
        return json!(in alloc; {
            "bouquet": 1u64,
            "contours": contours,
            "levels": levels,
            "query": query,
            "relations": relations,
            "threshold": threshold,
        });
    }
    json!(in alloc; {
        "bouquet": 2u64,
        "contours": contours,
        "levels": levels,
        "parameters": parameters,
        "query": query,
        "relations": relations,
        "threshold": threshold,
    })
}

// The value of a file.
fn file_value(alloc: Global, bouquet: &Bouquet, query: &str) -> Result<Value, AllocError>
    ensures { IfOk result
        (λ value. view value ≡ file_value (bouquet_tree bouquet.now) query.now) }
{
    let contours = contour_values(alloc, bouquet.contours())?;
    let relations = relation_values(alloc, bouquet.stats().relations.as_slice())?;
    let parameters = bouquet.block().parameters().len();
    let levels = bouquet.grid().levels();
    let members = FileMembers {
        levels,
        threshold: bouquet.threshold(),
        contours,
        relations,
    };
    file_with(alloc, query, parameters, members)
}

/// The file of a bouquet with the canonical text of its query: one compact JSON object, its keys in ascending order, without
/// a line end. It is of version 2 where the query has parameters, and else of version 1. Fails only if memory runs out.
pub fn to_bytes(alloc: Global, bouquet: &Bouquet, query: &[u8]) -> Result<Vec<u8>, AllocError>
    requires text { IsUtf8 query.now }
    requires parameters { length bouquet.now.block.parameters ≤ max_parameters }
    ensures text { IfOk result (λ bytes. bytes.items
        ≡ file_text (bouquet_tree bouquet.now) query.now) }
    ensures opens { let tree = bouquet_tree bouquet.now in IfOk result (λ bytes.
        opened bytes.items query.now tree.costing.block tree.costing.stats ≡ Ok tree) }
{
    prove!(!bouquet.contours().is_empty());
    let Ok(query) = str::from_utf8(query) else {
        unreachable!()
    };
    file_value(alloc, bouquet, query)?.to_vec(alloc)
}
