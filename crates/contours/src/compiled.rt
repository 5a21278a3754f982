// The compiled bouquet.
ghost use Rattle.std.specs.Prelude.{◌≡◌, ◌≤◌, IfOk, length};
ghost use Rattle.sql_values.specs.Limits.{max_threshold};
ghost use Rattle.query_block.specs.Blocks.{axes_of, block_tree};
ghost use Rattle.cost_model.specs.Fits.{FitsBlock};
ghost use Rattle.contours.specs.Contours.{IsCompiledOver};

use crate::contours::make;
use bouquet_type::Bouquet;
use cost_model::{Costing, Stats};
use ess_grid::Grid;
use query_block::Block;
use std::alloc::{AllocError, Global};

/// The compiled bouquet of a block, by the counts of its tables, on a grid with the axes of the block, with a threshold in
/// percent. It keeps its outline, by which it was made. The only error is out of memory.
pub fn compile(
    alloc: Global,
    block: Block,
    stats: Stats,
    grid: Grid,
    threshold: u32,
) -> Result<Bouquet, AllocError>
    requires stats { FitsBlock (block_tree block) stats }
    requires axes { grid.axes ≡ axes_of (block_tree block) }
    requires threshold { threshold ≤ max_threshold }
    ensures { IfOk result
        (IsCompiledOver (record { block = block; stats = stats; grid = grid }) threshold) }
{
    let made = make(alloc, &Costing::new(&block, &stats, &grid), threshold)?;
    let bouquet = Bouquet::new(block, stats, grid, threshold, made.contours);
    Ok(bouquet.with_outline(made.outline))
}
