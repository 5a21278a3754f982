// How many axes the grid of a block has: one for each edge, and one for each relation with a parameter.
ghost use Rattle.std.specs.Prelude.{◌≡◌, ◌+◌, ◌≤◌, length, map};
ghost use Rattle.std.specs.List.{count_by, list_any};
ghost use Rattle.sql_values.specs.declared.limit.LimitName.TheVariants as limit;
ghost use Rattle.sql_values.specs.Limits.{max_axes};
ghost use Rattle.query_block.specs.Conditions.{filter_tree};
ghost use Rattle.query_block.specs.Parameters.{is_open};
ghost use Rattle.sql_bind.specs.Binding.{past_limit};
ghost use Rattle.sql_bind.specs.Collected.{filter_trees};
ghost use Rattle.sql_bind.specs.Refused.{RefusesAlways};

use crate::conjuncts::WhereParts;
use crate::fault::BindFault;
use crate::from::check_limit;
use query_block::{Condition, is_open};
use sql_values::{LimitName, MAX_AXES};

// Whether one of a filter's conjuncts has a parameter.
fn is_open_filter(filter: &[Condition]) -> bool
    ensures { result ≡ list_any is_open (map filter_tree filter.now) }
{
    for conjunct in filter {
        if is_open(conjunct) {
            return true;
        }
    }
    false
}

// How many of these filters have a parameter.
fn count_open(filters: &[Vec<Condition>]) -> usize
    ensures count { result ≡ count_by (list_any is_open) (filter_trees filters.now) }
    ensures few { result ≤ length filters.now }
{
    let mut count = 0;
    for filter in filters {
        if is_open_filter(filter.as_slice()) {
            count += 1;
        }
    }
    count
}

/// Refuses the parts of a block with more axes than a grid may have. It takes no memory.
pub(crate) fn check_axes(parts: &WhereParts) -> Result<(), BindFault>
    ensures { RefusesAlways (past_limit limit.Axes max_axes (length parts.now.edges.items
        + count_by (list_any is_open) (filter_trees parts.now.filters.items))) result }
{
    let axes = parts.edges.len() + count_open(parts.filters.as_slice());
    check_limit(LimitName::Axes, MAX_AXES, axes)
}
