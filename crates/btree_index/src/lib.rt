//! The index of a column: its entries, each a word and the number of the row that has it, in order by word, then row.
//! To the layers above an index is exactly that sorted list; a cursor gives the rows of a range of words, each once and
//! in order, for the stated charges.
//! It never reads a table, and an index is never changed: more entries make a new one, which shares what stays as it was.
#![tactic(auto)]

mod both;
mod index;
mod levels;
mod node;
mod ordering;
mod packing;
mod parts;
mod run;

pub use index::{Cursor, Found, Index};
