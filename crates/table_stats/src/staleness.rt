// Whether counts are still those of the tables.
ghost use Rattle.std.specs.Prelude.{◌<◌, length};
ghost use Rattle.query_block.specs.Blocks.{block_tree, relation_tree};
ghost use Rattle.db_catalog.specs.Fits.{Fits};
ghost use Rattle.cost_model.specs.Fits.{FitsBlock};
ghost use Rattle.cost_model.specs.Staleness.{RefusesFirst};
ghost use Rattle.table_stats.specs.Fresh.{first_stale, stale_in};

use cost_model::{CountName, RelationStats, Stale, Stats, check_count};
use db_catalog::Database;
use query_block::{Block, Relation};

// Refuses the first count of a relation that isn't what it was.
fn check_relation(
    db: &Database,
    number: u32,
    relation: &Relation,
    kept: &RelationStats,
) -> Result<(), Stale>
    requires { relation.now.table < length db.now.tables }
    ensures { RefusesFirst (stale_in db.now number (relation_tree relation.now) kept.now) result }
{
    check_count(number, CountName::Rows, kept.rows, db.rows(relation.table))?;
    let indexed = db.indexes(relation.table).len() as u64;
    let columns = kept.columns.as_slice().len() as u64;
    check_count(number, CountName::Indexes, columns, indexed)
}

/// Whether counts are still those of a block's tables: for each relation in FROM order the rows of its table are so
/// many, then so many of the table's columns are indexed. The first count that differs is told. It takes no memory.
pub fn fresh(db: &Database, block: &Block, stats: &Stats) -> Result<(), Stale>
    requires fits { Fits db.now (block_tree block.now) }
    requires stats { FitsBlock (block_tree block.now) stats.now }
    ensures { RefusesFirst
        (first_stale db.now 0 (block_tree block.now).relations stats.now.relations) result }
{
    let kept = stats.relations.as_slice();
    for (number, relation) in block.relations().iter().enumerate() {
        check_relation(db, number as u32, relation, &kept[number])?;
    }
    Ok(())
}
