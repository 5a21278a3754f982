// The law of exact counts. It has no body: its clause speaks of the definitions alone.
ghost use Rattle.std.specs.Prelude.{◌≡◌, ◌≤◌, All, List, None, length};
ghost use Rattle.sql_values.specs.Limits.{max_rows};
ghost use Rattle.sql_values.specs.Stored.{StoredTable};
ghost use Rattle.query_block.specs.Blocks.{BlockTree, IsBlock};
ghost use Rattle.plan_tree.specs.Work.{table_rows};
ghost use Rattle.cost_model.specs.Counts.{stats_of};
ghost use Rattle.cost_model.specs.Fits.{FitsBlock};
ghost use Rattle.table_stats.specs.Product.{first_past, row_counts};

/// The law of counts: the exact counts of a block's tables fit the block, where the tables are within their limit of
/// rows, and their combinations within theirs.
pub fn counts_fit_their_block()
    ensures { (tables : List StoredTable) (block : BlockTree) → IsBlock block →
        All (λ relation. length (table_rows tables relation) ≤ max_rows) block.relations →
        first_past 1 (row_counts tables block.relations) ≡ None →
        FitsBlock block (stats_of tables block) }
{}
