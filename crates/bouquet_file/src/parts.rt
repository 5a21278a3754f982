// The parts of a file, each of which fits.
ghost use Rattle.std.specs.Prelude.{◌≡◌, ◌≤◌, All, IfOk, IfSome, length, option_map};
ghost use Rattle.sql_values.specs.Limits.{max_axes, max_relations, max_threshold, max_contours};
ghost use Rattle.serde_json.specs.View.{view, members_view};
ghost use Rattle.query_block.specs.Blocks.{axes_of, block_tree};
ghost use Rattle.bouquet_file.specs.Given.{GivesChecked, GivesEach};
ghost use Rattle.bouquet_file.specs.Checks.{levels_in, kept_parameters};
ghost use Rattle.bouquet_file.specs.Parts.{HasTexts, contour_seen, counts_in, contours_in, parts_of, parts_seen};

use crate::contours::{ContourParts, contours_fit};
use crate::fault::{FieldPath, OpenFault};
use crate::head::head_of;
use crate::relations::{KeptCounts, all_counts};
use crate::values::{Members, Version, list_at, need, number_at, text_at};
use ess_grid::Grid;
use query_block::Block;
use serde_json::Value;
use sql_values::{MAX_CONTOURS, MAX_LEVELS, MAX_PARAMETERS, MAX_THRESHOLD, MIN_LEVELS};
use std::alloc::Global;

/// The parts of a file.
#[derive(Drop)]
pub(crate) struct CheckedFile<'v> {
    /// The text of its query.
    pub query: &'v [u8],
    /// Its grid.
    pub grid: Grid,
    /// The threshold, in percent.
    pub threshold: u32,
    /// What was counted of each relation.
    pub counts: Vec<KeptCounts>,
    /// Its contours.
    pub contours: Vec<ContourParts<'v>>,
    /// How many parameters its query has.
    pub parameters: u64,
}

// The grid of so many axes.
fn grid_in(axes: usize, members: &Members) -> Option<Grid>
    requires { axes ≤ max_axes }
    ensures levels { option_map (λ grid. grid.levels) result
        ≡ levels_in axes (members_view members.now.entries) }
    ensures axes { IfSome result (λ grid. grid.axes ≡ axes) }
{
    let levels = number_at(members, "levels", MIN_LEVELS, MAX_LEVELS)?;
    Grid::new(axes, Some(levels)).ok()
}

// The number of parameters that a file keeps, of which one of version 1 has none.
fn kept_parameters(version: Version, members: &Members) -> Result<u64, OpenFault>
    ensures { result ≡ kept_parameters version (members_view members.now.entries) }
{
    match version {
        Version::One => Ok(0),
        Version::Two => need(
            number_at(members, "parameters", 1, MAX_PARAMETERS),
            FieldPath::Parameters,
        ),
    }
}

#[tactic(auto, unfolding(crate::specs::Parts::counts_in))]
// What was counted of the relations, as many as the query has.
fn counts_in(alloc: Global, count: usize, members: &Members) -> Result<Vec<KeptCounts>, OpenFault>
    requires { count ≤ max_relations }
    ensures counts { GivesChecked (λ counts. counts.items) result
        (counts_in count (members_view members.now.entries)) }
    ensures count { IfOk result (λ counts. length counts.items ≡ count) }
{
    let relations = list_at(members, "relations", count, count);
    all_counts(alloc, need(relations, FieldPath::Relations)?)
}

#[tactic(auto, unfolding(crate::specs::Parts::contours_in))]
// What stands in the contours.
fn contours_in<'v>(alloc: Global, members: &'v Members) -> Result<Vec<ContourParts<'v>>, OpenFault>
    ensures contours { GivesEach contour_seen result
        (contours_in (members_view members.now.entries)) }
    ensures some { IfOk result (λ contours. 1 ≤ length contours.items) }
    ensures few { IfOk result (λ contours. length contours.items ≤ max_contours) }
    ensures texts { IfOk result (λ contours. All HasTexts contours.items) }
{
    let contours = list_at(members, "contours", 1, MAX_CONTOURS);
    contours_fit(alloc, need(contours, FieldPath::Contours)?)
}

#[tactic(auto, unfolding(crate::specs::Parts::parts_of))]
/// The parts of a file, of a query with this block.
pub(crate) fn parts_of<'v>(
    alloc: Global,
    file: &'v Value,
    block: &Block,
) -> Result<CheckedFile<'v>, OpenFault>
    ensures parts { GivesChecked parts_seen result
        (parts_of (view file.now) (block_tree block.now)) }
    ensures axes { IfOk result (λ parts. parts.grid.axes ≡ axes_of (block_tree block.now)) }
    ensures threshold { IfOk result (λ parts. parts.threshold ≤ max_threshold) }
    ensures counts { IfOk result
        (λ parts. length parts.counts.items ≡ length block.now.relations) }
    ensures some { IfOk result (λ parts. 1 ≤ length parts.contours.items) }
    ensures few { IfOk result (λ parts. length parts.contours.items ≤ max_contours) }
    ensures texts { IfOk result (λ parts. All HasTexts parts.contours.items) }
{
    let (version, members) = head_of(file)?;
    let query = need(text_at(members, "query"), FieldPath::Query)?;
    let grid = need(grid_in(block.axes(), members), FieldPath::Levels)?;
    let threshold = need(
        number_at(members, "threshold", 0, u64::from(MAX_THRESHOLD)),
        FieldPath::Threshold,
    )?;
    let counts = counts_in(alloc, block.relations().len(), members)?;
    let contours = contours_in(alloc, members)?;
    let parameters = kept_parameters(version, members)?;
    Ok(CheckedFile {
        query: query.as_bytes(),
        grid,
        threshold: threshold as u32,
        counts,
        contours,
        parameters,
    })
}
