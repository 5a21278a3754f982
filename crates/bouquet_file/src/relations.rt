// What a file says was counted of the relations, and whether it is what is counted now.
ghost use Rattle.std.specs.Prelude.{◌≡◌, ◌≤◌, IfOk, length, map};
ghost use Rattle.sql_values.specs.Limits.{max_relations};
ghost use Rattle.serde_json.specs.View.{view};
ghost use Rattle.cost_model.specs.Staleness.{RefusesFirst};
ghost use Rattle.sql_values.specs.Steps.{each};
ghost use Rattle.bouquet_file.specs.Given.{GivesChecked};
ghost use Rattle.bouquet_file.specs.Checks.{counts_at, changed_in, changed_counts};

use crate::fault::{FieldPath, OpenFault};
use crate::values::{ObjectKind, need, number_at, object_of};
use cost_model::{CountName, RelationStats, Stale, check_count};
use serde_json::Value;
use sql_values::{MAX_COLUMNS, MAX_ROWS};
use std::alloc::Global;

/// What a file says was counted of a relation.
#[derive(Clone, Copy)]
pub(crate) struct KeptCounts {
    /// The rows of its table.
    pub rows: u64,
    /// The rows on which each conjunct of its filter that has no parameter is true.
    pub kept: u64,
    /// How many of its table's columns are indexed.
    pub indexes: u64,
}

// The counts of the relation of this number, from 1.
fn counts_at(number: u32, value: &Value) -> Result<KeptCounts, OpenFault>
    ensures { result ≡ counts_at number (view value.now) }
{
    let members = need(
        object_of(value, ObjectKind::Relation),
        FieldPath::Relation(number),
    )?;
    let rows = need(
        number_at(members, "rows", 0, MAX_ROWS),
        FieldPath::Count(number, CountName::Rows),
    )?;
    let kept = need(
        number_at(members, "kept", 0, MAX_ROWS),
        FieldPath::Count(number, CountName::Kept),
    )?;
    let indexes = need(
        number_at(members, "indexes", 0, MAX_COLUMNS as u64),
        FieldPath::Count(number, CountName::Indexes),
    )?;
    Ok(KeptCounts {
        rows,
        kept,
        indexes,
    })
}

/// The counts of all relations.
pub(crate) fn all_counts(alloc: Global, relations: &[Value]) -> Result<Vec<KeptCounts>, OpenFault>
    requires { length relations.now ≤ max_relations }
    ensures counts { GivesChecked (λ counts. counts.items) result
        (each counts_at 1 (map view relations.now)) }
    ensures count { IfOk result (λ counts. length counts.items ≡ length relations.now) }
{
    let mut counts = Vec::new(alloc);
    for (place, relation) in relations.iter().enumerate() {
        counts.push(counts_at(place as u32 + 1, relation)?)?;
    }
    Ok(counts)
}

// Refuses the first count of a relation, numbered from 0, that isn't what it was.
fn check_relation(number: u32, kept: &KeptCounts, present: &RelationStats) -> Result<(), Stale>
    ensures { RefusesFirst (changed_in number kept.now present.now) result }
{
    check_count(number, CountName::Rows, kept.rows, present.rows)?;
    check_count(number, CountName::Kept, kept.kept, present.kept)?;
    let indexes = present.columns.as_slice().len() as u64;
    check_count(number, CountName::Indexes, kept.indexes, indexes)
}

/// Refuses the first count that isn't what it was.
pub(crate) fn check_counts(counts: &[KeptCounts], present: &[RelationStats]) -> Result<(), Stale>
    requires few { length counts.now ≤ max_relations }
    requires as_many { length counts.now ≡ length present.now }
    ensures { RefusesFirst (changed_counts 0 counts.now present.now) result }
{
    for (number, kept) in counts.iter().enumerate() {
        check_relation(number as u32, kept, &present[number])?;
    }
    Ok(())
}
