// Places of columns in a block, and the edges between them.

/// A column of a relation: the relation's number in FROM order, and the column's number in its table, both from 0.
#[derive(Clone, Copy)]
pub struct ColumnAt {
    pub relation: u8,
    pub column: u8,
}

/// An equality of a column of one relation and a column of another. The lower relation stands on the left.
#[derive(Clone, Copy)]
pub struct Edge {
    pub left: u8,
    pub left_column: u8,
    pub right: u8,
    pub right_column: u8,
}
