// The bouquet of a file, or the first fault.
ghost use Rattle.std.specs.Prelude.{◌≡◌, ◌≤◌, All, IfOk, length};
ghost use Rattle.sql_values.specs.Limits.{max_relations, max_contours};
ghost use Rattle.serde_json.specs.View.{view};
ghost use Rattle.query_block.specs.Blocks.{block_tree};
ghost use Rattle.cost_model.specs.Fits.{FitsBlock};
ghost use Rattle.bouquet_type.specs.Trees.{IsContour, bouquet_tree, contour_tree};
ghost use Rattle.sql_values.specs.Steps.{need};
ghost use Rattle.bouquet_file.specs.Given.{GivesChecked, GivesEach};
ghost use Rattle.bouquet_file.specs.Parts.{HasTexts, parts_seen};
ghost use Rattle.bouquet_file.specs.Opened.{current_contours, json_value, opened};

use crate::contours::contours_of;
use crate::fault::OpenFault;
use crate::parts::{CheckedFile, parts_of};
use crate::relations::check_counts;
use bouquet_type::{Bouquet, Contour};
use cost_model::Stats;
use query_block::Block;
use serde_json::{Category, Value};
use std::alloc::Global;

// The value for which bytes stand.
fn value_of(alloc: Global, bytes: &[u8]) -> Result<Value, OpenFault>
    ensures { GivesChecked view result (need OpenFault.NotJson (json_value bytes.now)) }
{
    match Value::from_slice(alloc, bytes) {
        Ok(value) => Ok(value),
        Err(error) => match error.classify() {
            Category::Memory => Err(OpenFault::NoMemory),
            _ => Err(OpenFault::NotJson),
        },
    }
}

// The contours of a file with these parts, where it is of this query and its numbers are those of now.
fn current_contours(
    alloc: Global,
    parts: &CheckedFile<'_>,
    query: &[u8],
    block: &Block,
    stats: &Stats,
) -> Result<Vec<Contour>, OpenFault>
    requires stats { FitsBlock (block_tree block.now) stats.now }
    requires counts { length parts.now.counts.items ≡ length block.now.relations }
    requires few_counts { length parts.now.counts.items ≤ max_relations }
    requires few_contours { length parts.now.contours.items ≤ max_contours }
    requires texts { All HasTexts parts.now.contours.items }
    ensures contours { GivesEach contour_tree result
        (current_contours (parts_seen parts.now) query.now (block_tree block.now) stats.now) }
    ensures count { IfOk result
        (λ contours. length contours.items ≡ length parts.now.contours.items) }
    ensures are_contours { IfOk result
        (λ contours. All (IsContour (block_tree block.now)) contours.items) }
{
    if parts.query != query {
        return Err(OpenFault::OtherQuery);
    }
    let present = block.parameters().len() as u64;
    if parts.parameters != present {
        return Err(OpenFault::Parameters {
            kept: parts.parameters,
            present,
        });
    }
    check_counts(parts.counts.as_slice(), stats.relations.as_slice())?;
    contours_of(alloc, block, parts.contours.as_slice())
}

/// The bouquet that a file says, of the query with this canonical text, whose block and counts these are. It may have any
/// costs up to 2^114 and any plans of the block. Else the first fault: `NotJson`, `Field` of the version, `Version`, `Field`
/// of the keys and of the values in their order, `OtherQuery`, `Parameters`, `Stale`, and contour by contour `BudgetLimit`,
/// `NotAPlan`. `NoMemory`: out of memory.
pub fn from_bytes(
    alloc: Global,
    bytes: &[u8],
    query: &[u8],
    block: Block,
    stats: Stats,
) -> Result<Bouquet, OpenFault>
    requires stats { FitsBlock (block_tree block) stats }
    ensures opened { GivesChecked bouquet_tree result
        (opened bytes.now query.now (block_tree block) stats) }
    ensures block { IfOk result (λ bouquet. bouquet.block ≡ block) }
    ensures stats { IfOk result (λ bouquet. bouquet.stats ≡ stats) }
{
    let file = value_of(alloc, bytes)?;
    let parts = parts_of(alloc, &file, &block)?;
    let contours = current_contours(alloc, &parts, query, &block, &stats)?;
    Ok(Bouquet::new(block, stats, parts.grid, parts.threshold, contours))
}
