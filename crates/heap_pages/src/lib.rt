//! A table's rows, in the order in which they were appended, with what it costs to read them: a scan pays for each page
//! and each row, a look-up by number for the row alone.
//! To the layers above a heap is a list of rows and the room that is spare; each paid read answers its row and pays
//! exactly its charge, and a refused call leaves the heap as it was. It never knows what a word stands for.
#![tactic(auto)]

mod columns;
mod heap;
mod pages;
mod spans;

pub use heap::{Heap, HeapFault, PageView};
pub use spans::RowSpan;
pub use sql_values::{MAX_COLUMNS, MAX_ROWS};
