// The set of all relations.
ghost use Rattle.std.specs.Prelude.{◌≡◌, ◌-◌, ◌^◌, ◌<◌, ◌≤◌, length};
ghost use Rattle.query_block.specs.Blocks.{block_tree};

use cost_model::set_count;
use plan_tree::Subset;
use query_block::Block;

/// The set of all relations of the block.
pub(crate) fn set_of_all(block: &Block) -> Subset
    ensures all { result ≡ 2 ^ length (block_tree block.now).relations - 1 }
    ensures some { 1 ≤ result }
    ensures small { result < 64 }
{
    Subset::new(set_count(block) - 1)
}
