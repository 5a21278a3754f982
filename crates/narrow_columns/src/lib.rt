//! Columns of words, kept narrow: each word as a code of 1, 2, 4 or 8 bytes above one base, so that a condition on a
//! column is asked of 64 rows at once.
//! To the layers above a column is the list of its words and the room for more. All memory is taken by one call, which
//! changes no word whatever it returns; words for which there is room are appended by a call that can't fail.
//! It never looks at a row, never changes or drops a word, and never takes memory while words are appended or asked for.
#![tactic(auto)]

mod codes;
mod column;
mod extent;
mod ranks;
mod rows;
mod scan;
mod widths;

pub use column::Column;
pub use extent::{Extent, NO_WORDS, extent_of};
pub use rows::ColumnPlace;
