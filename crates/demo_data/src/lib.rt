//! The demonstration: a script, and a folder with the files that it loads, made from a number.
//! To the shell it promises each byte of them: the files are counted out, entry by entry, as the definitions say.
//! It reads nothing from outside and never runs the script.
#![tactic(auto)]

mod entries;
mod files;
mod text;

pub use files::{MAX_DEMO, folder, limits_are_as_stated};
pub use text::script;
