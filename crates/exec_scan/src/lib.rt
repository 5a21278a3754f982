//! The leaves of a plan: an operator that gives the rows of one relation of a block, each in its place of a row of all
//! relations. It finds them in the whole table, or by the index on a column.
//! Its reader of rows by the entries of an index serves an index loop too.
//! To the layers above it promises that a scan gives exactly the rows that meet the relation's filter, in some order, and
//! pays exactly the leaf's line of the table of work: to open it, for each page and each row looked at, or for the descent
//! and each entry with its row; and for each row given.
//! It takes memory only as a scan begins, for its filter's ranges and lists; where there is none it does without.
//! It never copies a row that isn't given, and never reads a row unpaid: the meter pays for a row that it fetches, and lends
//! those of a page, and marks of them, for the key alone that the payment for this page makes.
#![tactic(auto)]

mod entry_reader;
mod marks;
mod relation_place;
mod scan_op;
mod table_reader;
mod table_way;
mod way;

pub use entry_reader::EntryReader;
pub use relation_place::{RelationPlace, relation_in};
pub use scan_op::ScanOp;
