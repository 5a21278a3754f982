// The counts of a block's tables, as plain data. Nothing here counts.
use sql_values::Sequence;

/// What is counted of the tables of a block.
#[derive(Drop)]
pub struct Stats {
    /// One for each relation of the block, in FROM order.
    pub relations: Sequence<RelationStats>,
}

/// What is counted of a relation's table.
#[derive(Drop)]
pub struct RelationStats {
    /// The rows of the table.
    pub rows: u64,
    /// The pages on which they stand.
    pub pages: u64,
    /// The rows on which each conjunct of the relation's filter that has no parameter is true.
    pub kept: u64,
    /// One for each indexed column of the relation, in the block's order.
    pub columns: Sequence<IndexStats>,
}

/// What is counted of an indexed column.
#[derive(Clone, Copy)]
pub struct IndexStats {
    /// The column's number in its table, from 0.
    pub column: u8,
    /// The levels of its index, 1 to 4.
    pub height: u32,
    /// The rows in which the column isn't NULL and meets every usable conjunct on it that has no parameter; none where no
    /// conjunct is usable.
    pub matches: Option<u64>,
}
