// Where the words of one column stand in rows that follow one another.

/// The words of one column among the words of rows, row after row: the one at `place` of each of `count` rows of
/// `width` words.
#[derive(Clone, Copy)]
pub struct ColumnPlace {
    /// How many words a row has.
    pub width: usize,
    /// The word's place in its row, from 0.
    pub place: usize,
    /// How many rows there are.
    pub count: usize,
}
