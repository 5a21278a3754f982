//! The filter of a relation made ready for many rows: of the conditions that few ranges of words tell, the ranges.
//! To the layers above it promises marks of up to 64 rows at a time: each row that meets the filter has one, and where
//! ranges tell all of it, no other row has.
//! Where they don't, it tells of one row whether it meets the filter: a condition that names many values of a column is a
//! search in a sorted list of their words, and each other is asked itself.
//! It takes memory for ranges and lists alone, does without where there is none, and looks up a text only when it is made.
#![tactic(auto)]

mod every;
mod filter;
mod in_list;
mod join;
mod known;
mod known_region;
mod listed;
mod parts;
mod recheck;
mod region;
mod union;
mod values;

pub use filter::RowFilter;
pub use recheck::{ConditionRecheck, FilterRecheck};
