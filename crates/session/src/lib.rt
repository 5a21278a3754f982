//! The state of a script and one statement on it: what it prints, what it leaves, or why it is refused.
//! To the layer above it promises that a statement returns what is due to it in the state before, that what SELECT and
//! RUN paid is the work that they print, that works are within the bound of their bouquets, which have the counts of the tables, that a
//! bouquet is as a check tells, and that a statement which stops leaves the state as it was. What executes no plan is carried
//! out by the workspace.
//! It never puts anything out, never asks for a file but for a LOAD whose table is there and an OPEN that isn't refused before,
//! never returns one but for a SAVE, and never reads a row but by a meter.
#![tactic(auto)]

mod answers;
mod audit;
mod by_turns;
mod learn;
mod lines;
mod put_block;
mod run;
mod select;
mod session;
mod turn_lines;
mod uses;

pub use session::Session;
pub use workspace::{Asked, Begun, GivenFile, Refusal, Stop, file_name, refusal_line};
