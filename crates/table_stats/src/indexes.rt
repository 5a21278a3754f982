// The counts of a relation's indexed columns. They lie in the indexes: no row is looked at.
ghost use Rattle.std.specs.Prelude.{◌≡◌, ◌<◌, All, Contains, IfOk, IfSome, IsTrue, length};
ghost use Rattle.query_block.specs.Blocks.{relation_tree};
ghost use Rattle.cost_model.specs.Counts.{index_stats_of, relation_stats_of};
ghost use Rattle.table_stats.specs.Kept.{StandsIn};
ghost use Rattle.table_stats.specs.Narrow.{TellsAll, uses_some};
ghost use Rattle.table_stats.specs.Ready.{IsReadyFilter, own};

use crate::filter::ReadyFilter;
use cost_model::IndexStats;
use db_catalog::Database;
use plan_tree::{has_usable, range_of};
use query_block::Relation;
use std::alloc::{AllocError, Global};

// In how many rows an indexed column meets each fixed conjunct that the index can use, where it can use some conjunct, be it
// one with a parameter.
fn matches(db: &Database, relation: &Relation, column: u8) -> Option<u64>
    requires stands { StandsIn db.now (relation_tree relation.now) }
    requires indexed { Contains relation.now.indexes column }
    ensures { result ≡ (index_stats_of db.now.tables (relation_tree relation.now) column).matches }
{
    let filter = relation.filter.as_slice();
    if !has_usable(relation.columns.as_slice(), column, filter) {
        return None;
    }
    let range = range_of(column, filter, db.texts());
    let found = db.entries_within(relation.table, column, range.from, range.to);
    Some(found.older.len() as u64 + found.newer.len() as u64)
}

// The counts of an indexed column.
fn counts(db: &Database, relation: &Relation, column: u8) -> IndexStats
    requires stands { StandsIn db.now (relation_tree relation.now) }
    requires indexed { Contains relation.now.indexes column }
    ensures { result ≡ index_stats_of db.now.tables (relation_tree relation.now) column }
{
    IndexStats {
        column,
        height: db.height(relation.table, column),
        matches: matches(db, relation, column),
    }
}

/// The counts of each indexed column.
pub(crate) fn index_stats(
    alloc: Global,
    db: &Database,
    relation: &Relation,
) -> Result<Vec<IndexStats>, AllocError>
    requires { StandsIn db.now (relation_tree relation.now) }
    ensures { IfOk result (λ stats.
        stats.items ≡ (relation_stats_of db.now.tables (relation_tree relation.now)).columns) }
{
    let indexes = relation.indexes.as_slice();
    let mut stats = Vec::with_capacity(alloc, indexes.len())?;
    for column in indexes {
        stats.push(counts(db, relation, *column))?;
    }
    Ok(stats)
}

/// The matches of a column on which every fixed conjunct of the filter is usable, if there is one: then no row needs to be
/// looked at.
pub(crate) fn matches_of_all(filter: &ReadyFilter<'_>, columns: &[IndexStats]) -> Option<u64>
    requires ready { IsReadyFilter filter.now }
    requires there { All (λ index. index.column < length (own filter.now).columns) columns.now }
    ensures { IfSome result (TellsAll (own filter.now) columns.now) }
{
    for index in columns {
        if let Some(matches) = index.matches {
            if filter.uses_all(index.column) {
                return Some(matches);
            }
        }
    }
    None
}

/// Of these the one with the fewest matches, where these are at most so many. An index that can use none but conjuncts with a
/// parameter leads to too few rows: not to those without a value in its column.
pub(crate) fn narrowest(
    filter: &ReadyFilter<'_>,
    columns: &[IndexStats],
    most: u64,
) -> Option<IndexStats>
    requires ready { IsReadyFilter filter.now }
    requires there { All (λ index. index.column < length (own filter.now).columns) columns.now }
    ensures { IfSome result (λ index. Contains columns.now index
        × IsTrue (uses_some (own filter.now) index.column)) }
{
    let mut found = None;
    let mut least = most;
    for index in columns {
        if let Some(matches) = index.matches {
            if matches <= least && filter.uses_some(index.column) {
                found = Some(*index);
                least = matches;
            }
        }
    }
    found
}
