// A row of stored words, lent.
use sql_values::{ColumnType, Texts};

/// The words of a row, with what its columns hold and the texts of its codes.
#[derive(Clone, Copy)]
pub(crate) struct Row<'a> {
    pub(crate) columns: &'a [ColumnType],
    pub(crate) words: &'a [i64],
    pub(crate) texts: &'a Texts,
}
