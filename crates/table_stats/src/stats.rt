// The counts of a block's tables.
ghost use Rattle.std.specs.Prelude.{◌≡◌, ◌↔◌, ℕ, map, Err, IfOk, Some};
ghost use Rattle.query_block.specs.Blocks.{block_tree, relation_tree};
ghost use Rattle.db_catalog.specs.Fits.{Fits, FitsTable};
ghost use Rattle.cost_model.specs.Counts.{relation_stats_of, stats_of};
ghost use Rattle.cost_model.specs.Fits.{FitsBlock};
ghost use Rattle.table_stats.specs.Kept.{StandsIn};
ghost use Rattle.table_stats.specs.Ready.{IsReadyFilter, own};
ghost use Rattle.table_stats.specs.Product.{first_past, row_counts};

use crate::fault::StatsFault;
use crate::filter::ReadyFilter;
use crate::indexes::{index_stats, matches_of_all, narrowest};
use crate::kept::{kept_by_marks, kept_within};
use crate::product::product_past;
use cost_model::{IndexStats, RelationStats, Stats};
use db_catalog::Database;
use query_block::{Block, Relation};
use sql_values::Sequence;
use std::alloc::{AllocError, Global};

// A range that holds more than one of so many rows is wide: then marks of all rows are quicker.
const WIDE: u64 = 100;

// How many rows of its table the fixed conjuncts of a relation's filter keep. Without one these are all; where they ask for
// nothing that an index can't use, its matches; else the rows that a narrow range of an index leads to are tried, or all rows
// are marked.
fn kept_rows(alloc: Global, db: &Database, filter: &ReadyFilter<'_>, columns: &[IndexStats]) -> u64
    requires ready { IsReadyFilter filter.now }
    requires fits { FitsTable db.now (own filter.now) }
    requires texts { filter.now.texts.now ≡ db.now.texts }
    requires columns { columns.now ≡ (relation_stats_of db.now.tables (own filter.now)).columns }
    ensures { result ≡ (relation_stats_of db.now.tables (own filter.now)).kept }
{
    let rows = db.rows(filter.relation.table);
    if filter.conjuncts.is_empty() {
        return rows;
    }
    if let Some(matches) = matches_of_all(filter, columns) {
        return matches;
    }
    match narrowest(filter, columns, rows / WIDE) {
        Some(index) => kept_within(db, filter, index.column),
        None => kept_by_marks(alloc, db, filter),
    }
}

// The counts of a relation.
fn relation_stats(
    alloc: Global,
    db: &Database,
    relation: &Relation,
) -> Result<RelationStats, AllocError>
    requires { StandsIn db.now (relation_tree relation.now) }
    ensures { IfOk result (λ stats. stats
        ≡ relation_stats_of db.now.tables (relation_tree relation.now)) }
{
    let columns = index_stats(alloc, db, relation)?;
    let rows = db.rows(relation.table);
    let filter = ReadyFilter::new(alloc, rows, relation, db.texts())?;
    let kept = kept_rows(alloc, db, &filter, &columns);
    Ok(RelationStats {
        rows,
        pages: db.pages(relation.table),
        kept,
        columns: Sequence::from(columns),
    })
}

// The counts of all relations of a block.
fn all_stats(alloc: Global, db: &Database, block: &Block) -> Result<Vec<RelationStats>, AllocError>
    requires { Fits db.now (block_tree block.now) }
    ensures { IfOk result (λ stats. stats.items
        ≡ map (relation_stats_of db.now.tables) (block_tree block.now).relations) }
{
    let mut stats = Vec::new(alloc);
    for relation in block.relations() {
        stats.push(relation_stats(alloc, db, relation)?)?;
    }
    Ok(stats)
}

/// The exact counts of a block's tables: of each relation the rows, the pages and the rows that the fixed conjuncts of its
/// filter keep, and of each indexed column the height of its index and the rows in which it meets the fixed conjuncts that
/// are usable on it. A conjunct with a parameter leaves no row out. Nothing is paid, and a row is looked at only where these
/// conjuncts ask for more than indexes and marks tell. There are none where the product of the tables' counts of rows, each
/// at least 1, passes 2^100 on the way from left to right.
pub fn stats_of(alloc: Global, db: &Database, block: &Block) -> Result<Stats, StatsFault>
    requires { Fits db.now (block_tree block.now) }
    ensures counts { IfOk result (λ stats. stats ≡ stats_of db.now.tables (block_tree block.now)) }
    ensures fits { IfOk result (FitsBlock (block_tree block.now)) }
    ensures product_limit { (value : ℕ) → (result ≡ Err (StatsFault.ProductLimit value))
        ↔ (first_past 1 (row_counts db.now.tables (block_tree block.now).relations) ≡ Some value) }
{
    if let Some(value) = product_past(db, block) {
        return Err(StatsFault::ProductLimit { value });
    }
    let relations = all_stats(alloc, db, block)?;
    Ok(Stats {
        relations: Sequence::from(relations),
    })
}
