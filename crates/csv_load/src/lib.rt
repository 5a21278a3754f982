//! Loading: the rows of a CSV file (RFC 4180) for a table of the database.
//! A file is loaded whole or not at all: its rows are appended, or its first fault is named, by entry and field, and the
//! database stays as it was. Each fault comes exactly where its rule fails.
//! It never opens a file or prints, never appends a part of a file, and never tests a limit of the database itself.
#![tactic(auto)]

mod entries;
mod fault;
mod field;
mod header;
mod integer;
mod loading;
mod place;
mod text;

pub use fault::LoadFault;
pub use loading::{load, load_file};
