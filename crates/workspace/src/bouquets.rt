// The block of a query, and the compiled bouquet of a block. It reads no row but to count.
ghost use Rattle.std.specs.Prelude.{◌≡◌, ◌≤◌, IfOk, length};
ghost use Rattle.sql_values.specs.Limits.{max_threshold, max_parameters};
ghost use Rattle.query_block.specs.Blocks.{block_tree};
ghost use Rattle.sql_parse.specs.Trees.{query_tree};
ghost use Rattle.db_catalog.specs.Fits.{Fits};
ghost use Rattle.bouquet_type.specs.Trees.{bouquet_tree};
ghost use Rattle.bouquet_type.specs.Sound.{IsSound};
ghost use Rattle.workspace.specs.Bouquets.{AreGridLevels, GivesDue, GivesSizes, IsScriptQuery, block_due, compiled_due};
ghost use Rattle.workspace.specs.Counted.{HasCountsOf};

use crate::stop::Stop;
use bouquet_type::Bouquet;
use contours::compile;
use cost_model::Stats;
use db_catalog::Database;
use ess_grid::Grid;
use query_block::Block;
use sql_bind::bind;
use sql_parse::Query;
use std::alloc::Global;
use table_stats::stats_of;

/// The block of a query over the tables. It is refused by binding alone.
pub fn block_of(alloc: Global, database: &Database, query: &Query) -> Result<Block, Stop>
    requires { IsScriptQuery (query_tree query.now) }
    ensures due { GivesDue block_tree (block_due database.now (query_tree query.now)) result }
    ensures fits { IfOk result (λ block. Fits database.now (block_tree block)) }
    ensures parameters { IfOk result (λ block. length block.parameters ≤ max_parameters) }
{
    Ok(bind(alloc, database, query)?)
}

/// The grid of a block, by levels that an axis may have, and the counts of its tables. They are refused where the grid
/// would have too many points, then where the tables have too many combinations of rows.
pub fn sizes_of(
    alloc: Global,
    database: &Database,
    block: &Block,
    levels: Option<u64>,
) -> Result<(Grid, Stats), Stop>
    requires fits { Fits database.now (block_tree block.now) }
    requires levels { AreGridLevels levels }
    ensures { GivesSizes database.now (block_tree block.now) levels result }
{
    let grid = Grid::new(block.axes(), levels)?;
    let stats = stats_of(alloc, database, block)?;
    Ok((grid, stats))
}

/// The compiled bouquet of a block over the tables, by levels that an axis may have and a threshold in percent, at most 1000.
/// It is refused where `sizes_of` refuses its grid or its counts.
pub(crate) fn compiled_of(
    alloc: Global,
    database: &Database,
    block: Block,
    levels: Option<u64>,
    threshold: u32,
) -> Result<Bouquet, Stop>
    requires fits { Fits database.now (block_tree block) }
    requires levels { AreGridLevels levels }
    requires threshold { threshold ≤ max_threshold }
    ensures due { GivesDue bouquet_tree
        (compiled_due database.now levels threshold (block_tree block)) result }
    ensures block { IfOk result (λ bouquet. bouquet.block ≡ block) }
    ensures sound { IfOk result (λ bouquet. IsSound (bouquet_tree bouquet)) }
    ensures counts { IfOk result
        (λ bouquet. HasCountsOf database.now.tables (bouquet_tree bouquet)) }
{
    let (grid, stats) = sizes_of(alloc, database, &block, levels)?;
    Ok(compile(alloc, block, stats, grid, threshold)?)
}
