//! Prints a table as CSV: a header and the rows in ascending order of their values.
//! To the layer above it promises exactly the text: which rows stand in it, how often, in which order, and how each
//! value is written. Its only refusal is out of memory.
//! To sort, it never copies a row that the order of its numbers decides, nor compares two texts where their places
//! will do.
#![tactic(auto)]

mod placed;
mod places;
mod print;
mod projection;
mod ranked;
mod row;
mod short_text;
mod sort;
mod table;
mod texts;
mod ties;

pub use projection::print_rows;
pub use row::LentRow;
pub use table::{printed_in_any_order, rows_in_order, table_text};
