//! What the statements of a script have made, and one statement on it that executes no plan: what it prints, what it leaves,
//! or why it is refused.
//! To the layer above it promises that a statement returns what is due to it in the state before, that a bouquet is as a check
//! tells, that the bouquet of a name is given only if its counts are those of the tables, and that a statement which stops
//! leaves the state as it was. The bouquets that are kept, compiled or opened from a file, always fit the tables, and have the
//! counts of the tables as they were when they came.
//! It knows no folder: a statement returns the name of a file that it asks for, which is then given, or a file to be written.
//! It never executes a plan, and never reads a row but to count. It never asks for a file but for a LOAD whose table is there
//! and an OPEN that isn't refused before, and never returns one but for a SAVE.
#![tactic(auto)]

mod begun;
mod bouquets;
mod check;
mod columns;
mod compile;
mod create_index;
mod create_table;
mod explain;
mod files;
mod keep;
mod lines;
mod load;
mod named;
mod named_bouquets;
mod open_file;
mod present;
mod refusal;
mod save_file;
mod stop;
mod workspace;

pub use begun::{Asked, Begun, GivenFile};
pub use bouquets::{block_of, sizes_of};
pub use columns::header_of;
pub use files::file_name;
pub use lines::{push_labelled, push_plan, push_point};
pub use refusal::{Refusal, refusal_line};
pub use stop::Stop;
pub use workspace::Workspace;
