// The regions by which a condition is known: those of its own words, of the values of an IN, of the parts of an AND, which
// share one, or of the parts of an OR.
ghost use Rattle.std.specs.Prelude.{◌≡◌, ◌≤◌, [], IfSome, length, map};
ghost use Rattle.sql_values.specs.Limits.{max_columns};
ghost use Rattle.query_block.specs.Blocks.{FitsColumns};
ghost use Rattle.query_block.specs.Conditions.{And, Or, chain, filter_tree};
ghost use Rattle.query_block.specs.Meaning.{is_true};
ghost use Rattle.query_block.specs.Truth.{truth_of};
ghost use Rattle.row_filter.specs.Regions.{IsKnownRegion};
ghost use Rattle.row_filter.specs.Unions.{AddsTest, IsKnownUnion};

use crate::known::known_words;
use crate::known_region::KnownRegion;
use crate::region::Region;
use crate::union::RangeUnion;
use crate::values::add_values;
use query_block::Condition;
use sql_values::{ColumnType, Texts};

// Puts the words of a condition to others. False where they are no range, or there is no room.
fn add_words(
    union: &mut RangeUnion,
    columns: &[ColumnType],
    condition: &Condition,
    texts: &Texts,
) -> bool
    requires few { length columns.now ≤ max_columns }
    requires fits { FitsColumns [] columns.now (filter_tree condition.now) }
    ensures { AddsTest texts.now columns.now
        (λ row. is_true (truth_of (filter_tree condition.now) row)) union.old union.new result }
{
    match known_words(columns, condition, texts) {
        Some(found) => union.put(found),
        None => false,
    }
}

// The region that the parts of an AND share.
fn shared_region(columns: &[ColumnType], parts: &[Condition], texts: &Texts) -> KnownRegion
    requires few { length columns.now ≤ max_columns }
    requires fits { FitsColumns [] columns.now (And (chain (map filter_tree parts.now))) }
    ensures { IsKnownRegion texts.now columns.now
        (λ row. is_true (truth_of (And (chain (map filter_tree parts.now))) row)) result }
{
    let mut known = KnownRegion::every();
    for part in parts {
        known = known.narrowed(known_words(columns, part, texts));
    }
    known
}

// Puts the region that the parts of an AND share to others. False where none is known, or there is no room.
fn add_shared(
    union: &mut RangeUnion,
    columns: &[ColumnType],
    parts: &[Condition],
    texts: &Texts,
) -> bool
    requires few { length columns.now ≤ max_columns }
    requires fits { FitsColumns [] columns.now (And (chain (map filter_tree parts.now))) }
    ensures { AddsTest texts.now columns.now
        (λ row. is_true (truth_of (And (chain (map filter_tree parts.now))) row))
        union.old union.new result }
{
    let known = shared_region(columns, parts, texts);
    match known.region {
        Region::Every => false,
        _ => union.push(known),
    }
}

// Puts those of a condition that is no OR to others.
fn add_part(union: &mut RangeUnion, columns: &[ColumnType], part: &Condition, texts: &Texts) -> bool
    requires few { length columns.now ≤ max_columns }
    requires fits { FitsColumns [] columns.now (filter_tree part.now) }
    ensures { AddsTest texts.now columns.now
        (λ row. is_true (truth_of (filter_tree part.now) row)) union.old union.new result }
{
    match part {
        Condition::OneOf(of, operands) => {
            add_values(union, columns, of, operands.as_slice(), texts)
        }
        Condition::And(parts) => add_shared(union, columns, parts.as_slice(), texts),
        _ => add_words(union, columns, part, texts),
    }
}

// Puts those of each part of an OR to others.
fn add_parts(
    union: &mut RangeUnion,
    columns: &[ColumnType],
    parts: &[Condition],
    texts: &Texts,
) -> bool
    requires few { length columns.now ≤ max_columns }
    requires fits { FitsColumns [] columns.now (Or (chain (map filter_tree parts.now))) }
    ensures { AddsTest texts.now columns.now
        (λ row. is_true (truth_of (Or (chain (map filter_tree parts.now))) row))
        union.old union.new result }
{
    for part in parts {
        if !add_part(union, columns, part, texts) {
            return false;
        }
    }
    true
}

// Puts those of a condition, or of its parts, to others.
fn add_condition(
    union: &mut RangeUnion,
    columns: &[ColumnType],
    condition: &Condition,
    texts: &Texts,
) -> bool
    requires few { length columns.now ≤ max_columns }
    requires fits { FitsColumns [] columns.now (filter_tree condition.now) }
    ensures { AddsTest texts.now columns.now
        (λ row. is_true (truth_of (filter_tree condition.now) row)) union.old union.new result }
{
    match condition {
        Condition::Or(parts) => add_parts(union, columns, parts.as_slice(), texts),
        _ => add_part(union, columns, condition, texts),
    }
}

/// The ranges of words that tell which rows meet a condition without a parameter. None where no few ranges do.
pub(crate) fn known_union(
    columns: &[ColumnType],
    condition: &Condition,
    texts: &Texts,
) -> Option<RangeUnion>
    requires few { length columns.now ≤ max_columns }
    requires fits { FitsColumns [] columns.now (filter_tree condition.now) }
    ensures { IsKnownUnion texts.now columns.now (filter_tree condition.now) result }
{
    let mut union = RangeUnion::new();
    if !add_condition(&mut union, columns, condition, texts) {
        return None;
    }
    Some(union)
}
