//! The arguments of the command line: how much a query may work at most, and whether the demonstration is to be shown.
//! To the layer above it promises which options the arguments give, and that it refuses exactly those that are no command
//! line. It never prints anything, and knows nothing of scripts.
#![tactic(auto)]

mod words;

pub use words::{Options, WordsFault, read_words};
