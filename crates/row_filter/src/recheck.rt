// How a row is asked whose marks don't tell whether it meets a filter.
ghost use Rattle.std.specs.Prelude.{◌≡◌, ◌≤◌, [], All, IfOk, length, map};
ghost use Rattle.std.specs.List.{AllZip};
ghost use Rattle.sql_values.specs.Limits.{max_columns};
ghost use Rattle.sql_values.specs.Stored.{values_of};
ghost use Rattle.query_block.specs.Blocks.{FitsColumns};
ghost use Rattle.query_block.specs.Conditions.{filter_tree};
ghost use Rattle.query_block.specs.Meaning.{is_true, meets_filter};
ghost use Rattle.query_block.specs.Truth.{truth_of};
ghost use Rattle.db_catalog.specs.ColumnRanges.{AreStored};
ghost use Rattle.row_filter.specs.InLists.{IsConditionRecheck, IsFilterRecheck};

use crate::in_list::InList;
use crate::listed::{known_list, names_many};
use query_block::{Condition, meets_filter, truth};
use sql_values::{ColumnType, Texts, Truth};
use std::alloc::{AllocError, Global};

/// A condition made ready to be asked of many rows. One that names many values of a column is a search among their words;
/// any other is asked itself.
#[derive(Drop)]
pub struct ConditionRecheck {
    list: Option<InList>,
}

impl ConditionRecheck {
    /// That of a condition without a parameter, which at most so many rows are asked. Where they are few, or memory is wanting, the
    /// condition is asked itself.
    pub fn new(
        alloc: Global,
        rows: u64,
        columns: &[ColumnType],
        condition: &Condition,
        texts: &Texts,
    ) -> ConditionRecheck
        requires few { length columns.now ≤ max_columns }
        requires fits { FitsColumns [] columns.now (filter_tree condition.now) }
        ensures { IsConditionRecheck texts.now columns.now (filter_tree condition.now) result }
    {
        ConditionRecheck {
            list: known_list(alloc, rows, columns, condition, texts),
        }
    }

    /// Whether the condition of which it was made is true on a row.
    pub fn is_met(
        &self,
        condition: &Condition,
        columns: &[ColumnType],
        row: &[i64],
        texts: &Texts,
    ) -> bool
        requires recheck { IsConditionRecheck texts.now columns.now (filter_tree condition.now)
            self.now }
        requires fits { FitsColumns [] columns.now (filter_tree condition.now) }
        requires words { AreStored texts.now columns.now row.now }
        ensures { result ≡ is_true
            (truth_of (filter_tree condition.now) (values_of texts.now columns.now row.now)) }
    {
        match &self.list {
            Some(list) => list.has(row[usize::from(list.column)]),
            None => truth(condition, columns, row, texts) == Truth::True,
        }
    }
}

/// A filter made ready to be asked of many rows, each condition for itself. Where none of them names many values, it has
/// nothing.
#[derive(Drop)]
pub struct FilterRecheck {
    conditions: Vec<ConditionRecheck>,
}

// Whether some condition names many values.
fn any_names_many(filter: &[Condition]) -> bool {
    for condition in filter {
        if names_many(condition) {
            return true;
        }
    }
    false
}

// Those of each condition.
fn rechecks_of(
    alloc: Global,
    rows: u64,
    columns: &[ColumnType],
    filter: &[Condition],
    texts: &Texts,
) -> Result<Vec<ConditionRecheck>, AllocError>
    requires few { length columns.now ≤ max_columns }
    requires fit { All (FitsColumns [] columns.now) (map filter_tree filter.now) }
    ensures { IfOk result (λ found.
        AllZip (IsConditionRecheck texts.now columns.now) (map filter_tree filter.now) found.items) }
{
    let mut found = Vec::with_capacity(alloc, filter.len())?;
    for condition in filter {
        found.push(ConditionRecheck::new(alloc, rows, columns, condition, texts))?;
    }
    Ok(found)
}

impl FilterRecheck {
    /// That of any filter, each condition of which is asked itself.
    pub fn plain(alloc: Global) -> FilterRecheck
        ensures { result.conditions.items ≡ [] }
    {
        FilterRecheck {
            conditions: Vec::new(alloc),
        }
    }

    /// That of a filter without parameters, which at most so many rows are asked. Where they are few, or memory is wanting, the
    /// conditions are asked themselves.
    pub fn new(
        alloc: Global,
        rows: u64,
        columns: &[ColumnType],
        filter: &[Condition],
        texts: &Texts,
    ) -> FilterRecheck
        requires few { length columns.now ≤ max_columns }
        requires fit { All (FitsColumns [] columns.now) (map filter_tree filter.now) }
        ensures { IsFilterRecheck texts.now columns.now (map filter_tree filter.now) result }
    {
        if !any_names_many(filter) {
            return FilterRecheck::plain(alloc);
        }
        match rechecks_of(alloc, rows, columns, filter, texts) {
            Ok(conditions) => FilterRecheck { conditions },
            Err(_) => FilterRecheck::plain(alloc),
        }
    }

    /// Whether each condition of the filter of which it was made is true on a row, up to the first that isn't.
    pub fn meets(
        &self,
        filter: &[Condition],
        columns: &[ColumnType],
        row: &[i64],
        texts: &Texts,
    ) -> bool
        requires recheck { IsFilterRecheck texts.now columns.now (map filter_tree filter.now)
            self.now }
        requires fit { All (FitsColumns [] columns.now) (map filter_tree filter.now) }
        requires words { AreStored texts.now columns.now row.now }
        ensures { result
            ≡ meets_filter (map filter_tree filter.now) (values_of texts.now columns.now row.now) }
    {
        if self.conditions.is_empty() {
            return meets_filter(filter, columns, row, texts);
        }
        for place in 0..filter.len() {
            if !self.conditions[place].is_met(&filter[place], columns, row, texts) {
                return false;
            }
        }
        true
    }
}
