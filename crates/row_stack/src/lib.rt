//! Rows of one width, pushed at the end and released from the end: where executions keep the rows that they need
//! again, and the rows of a result.
//! To the layers above a stack is a list of rows and the number of rows that are spare, both exact after each call. A
//! push where a row is spare can't fail, and a release gives all that it releases back to the spare rows.
//! It never lets go of memory before its end, never takes memory where a row is spare, and never knows what a word
//! stands for.
#![tactic(auto)]

mod block;
mod space;
mod stack;

pub use space::Space;
pub use stack::RowStack;
