// The list of words by which a condition is known that asks whether a column is one of many values: those of an IN, or of the
// parts of an OR.
ghost use Rattle.std.specs.Prelude.{◌≡◌, ◌≤◌, [], IfOk, length, map};
ghost use Rattle.sql_values.specs.Limits.{max_columns};
ghost use Rattle.query_block.specs.Blocks.{FitsColumns};
ghost use Rattle.query_block.specs.Conditions.{OneOf, Or, chain, filter_tree};
ghost use Rattle.query_block.specs.Meaning.{is_true};
ghost use Rattle.query_block.specs.Truth.{truth_of};
ghost use Rattle.row_filter.specs.InLists.{AddsToList, IsKnownList};

use crate::in_list::InList;
use crate::known::known_words;
use crate::union::MOST_REGIONS;
use crate::values::equal_words;
use query_block::{Condition, Operand};
use sql_values::{ColumnType, Texts};
use std::alloc::Global;

// A list pays where at least so many rows may be asked.
const LISTED_ROWS: u64 = 32;

// Puts each of several values to others. False where one is no literal, or memory is wanting.
fn list_values(
    list: &mut InList,
    columns: &[ColumnType],
    of: &Operand,
    operands: &[Operand],
    texts: &Texts,
) -> bool
    requires { FitsColumns [] columns.now (OneOf of.now operands.now) }
    ensures { AddsToList texts.now columns.now
        (λ row. is_true (truth_of (OneOf of.now operands.now) row)) list.old list.new result }
{
    for operand in operands {
        let Some(found) = equal_words(of, operand, columns, texts) else {
            return false;
        };
        if !list.put(found) {
            return false;
        }
    }
    true
}

// Puts the word of a condition to others. False where it isn't told by one word of the column, or memory is wanting.
fn list_word(
    list: &mut InList,
    columns: &[ColumnType],
    condition: &Condition,
    texts: &Texts,
) -> bool
    requires few { length columns.now ≤ max_columns }
    requires fits { FitsColumns [] columns.now (filter_tree condition.now) }
    ensures { AddsToList texts.now columns.now
        (λ row. is_true (truth_of (filter_tree condition.now) row)) list.old list.new result }
{
    match known_words(columns, condition, texts) {
        Some(found) => list.put(found),
        None => false,
    }
}

// Puts those of a condition that is no OR to others.
fn list_part(list: &mut InList, columns: &[ColumnType], part: &Condition, texts: &Texts) -> bool
    requires few { length columns.now ≤ max_columns }
    requires fits { FitsColumns [] columns.now (filter_tree part.now) }
    ensures { AddsToList texts.now columns.now
        (λ row. is_true (truth_of (filter_tree part.now) row)) list.old list.new result }
{
    match part {
        Condition::OneOf(of, operands) => list_values(
            list,
            columns,
            of,
            operands.as_slice(),
            texts,
        ),
        _ => list_word(list, columns, part, texts),
    }
}

// Puts those of each part of an OR to others.
fn list_parts(list: &mut InList, columns: &[ColumnType], parts: &[Condition], texts: &Texts) -> bool
    requires few { length columns.now ≤ max_columns }
    requires fits { FitsColumns [] columns.now (Or (chain (map filter_tree parts.now))) }
    ensures { AddsToList texts.now columns.now
        (λ row. is_true (truth_of (Or (chain (map filter_tree parts.now))) row))
        list.old list.new result }
{
    for part in parts {
        if !list_part(list, columns, part, texts) {
            return false;
        }
    }
    true
}

// Puts those of a condition, or of its parts, to others.
fn list_condition(
    list: &mut InList,
    columns: &[ColumnType],
    condition: &Condition,
    texts: &Texts,
) -> bool
    requires few { length columns.now ≤ max_columns }
    requires fits { FitsColumns [] columns.now (filter_tree condition.now) }
    ensures { AddsToList texts.now columns.now
        (λ row. is_true (truth_of (filter_tree condition.now) row)) list.old list.new result }
{
    match condition {
        Condition::Or(parts) => list_parts(list, columns, parts.as_slice(), texts),
        _ => list_part(list, columns, condition, texts),
    }
}

// How many values a condition that is no OR names at most.
fn values_in_part(part: &Condition) -> usize {
    match part {
        Condition::OneOf(_, operands) => operands.as_slice().len(),
        _ => 1,
    }
}

// How many values a condition names at most: an IN's, or those of all parts of an OR.
fn values_in(condition: &Condition) -> usize {
    let Condition::Or(parts) = condition else {
        return values_in_part(condition);
    };
    let mut count: usize = 0;
    for part in parts {
        count = count.saturating_add(values_in_part(part));
    }
    count
}

/// Whether a condition names more values than the regions hold by which rows are marked.
pub(crate) fn names_many(condition: &Condition) -> bool {
    values_in(condition) > MOST_REGIONS
}

// The column of which a condition that is no OR asks for values.
fn column_of_part(columns: &[ColumnType], part: &Condition, texts: &Texts) -> Option<u8>
    requires few { length columns.now ≤ max_columns }
    requires fits { FitsColumns [] columns.now (filter_tree part.now) }
{
    match part {
        Condition::OneOf(Operand::Column(column), _) => Some(*column),
        _ => Some(known_words(columns, part, texts)?.column),
    }
}

// The column of which a condition, or the first part of an OR, asks for values.
fn column_of(columns: &[ColumnType], condition: &Condition, texts: &Texts) -> Option<u8>
    requires few { length columns.now ≤ max_columns }
    requires fits { FitsColumns [] columns.now (filter_tree condition.now) }
{
    match condition {
        Condition::Or(parts) => column_of_part(columns, parts.as_slice().first()?, texts),
        _ => column_of_part(columns, condition, texts),
    }
}

/// The words of a column in the rows that meet a condition without a parameter, in order. None where the condition doesn't
/// name many values of one column alone, few rows may be asked, or memory is wanting.
pub(crate) fn known_list(
    alloc: Global,
    rows: u64,
    columns: &[ColumnType],
    condition: &Condition,
    texts: &Texts,
) -> Option<InList>
    requires few { length columns.now ≤ max_columns }
    requires fits { FitsColumns [] columns.now (filter_tree condition.now) }
    ensures { IsKnownList texts.now columns.now (filter_tree condition.now) result }
{
    if rows < LISTED_ROWS {
        return None;
    }
    let count = values_in(condition);
    if count <= MOST_REGIONS {
        return None;
    }
    let column = column_of(columns, condition, texts)?;
    if usize::from(column) >= columns.len() {
        return None;
    }
    let mut list = InList::new(alloc, column, count).ok()?;
    if !list_condition(&mut list, columns, condition, texts) {
        return None;
    }
    list.sort();
    Some(list)
}
