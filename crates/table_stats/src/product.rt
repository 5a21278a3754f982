// How many combinations of one row of each table there are.
ghost use Rattle.std.specs.Prelude.{◌≡◌, ◌≤◌, All, length, None};
ghost use Rattle.sql_values.specs.Limits.{max_rows};
ghost use Rattle.query_block.specs.Blocks.{block_tree, IsBlock};
ghost use Rattle.plan_tree.specs.Work.{table_rows};
ghost use Rattle.db_catalog.specs.Fits.{Fits};
ghost use Rattle.table_stats.specs.Product.{first_past, row_counts};

use db_catalog::Database;
use query_block::Block;
use sql_values::MAX_PRODUCT;

// The first product of counts of rows, from left to right, that passes the limit.
pub(crate) fn product_past(db: &Database, block: &Block) -> Option<u128>
    requires { Fits db.now (block_tree block.now) }
    ensures past { result
        ≡ first_past 1 (row_counts db.now.tables (block_tree block.now).relations) }
    ensures few { result ≡ None →
        All (λ relation. length (table_rows db.now.tables relation) ≤ max_rows)
        (block_tree block.now).relations }
    ensures block { IsBlock (block_tree block.now) }
{
    let mut product = 1u128;
    for relation in block.relations() {
        product *= u128::from(db.rows(relation.table).max(1));
        if product > MAX_PRODUCT {
            return Some(product);
        }
    }
    None
}
