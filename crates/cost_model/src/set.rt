// How many sets of relations a block has.
ghost use Rattle.std.specs.Prelude.{◌≡◌, ◌^◌, ◌<◌, ◌≤◌, length};
ghost use Rattle.query_block.specs.Blocks.{block_tree};

use plan_tree::Subset;
use query_block::Block;

/// How many sets of relations the block has: as numbers they are those below this one.
pub fn set_count(block: &Block) -> u8
    ensures count { result ≡ 2 ^ length (block_tree block.now).relations }
    ensures some { 2 ≤ result }
    ensures few { result ≤ 64 }
{
    let count = block.relations().len();
    Subset::one(count as u8).number()
}
