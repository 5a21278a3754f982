//! The program but for its adapters: it reads its arguments and a script, carries the statements out one after another and
//! prints what each answers, up to and with the first that is refused.
//! To the program it promises, for every source, folder and sink, which bytes go out, what the folder holds afterwards and
//! what each status means. It never prints what wasn't due, and never answers a fault that none of the three counted.
#![tactic(auto)]

mod demonstration;
mod fold;
mod outlets;
mod program;
mod run;
mod script;
mod sink;
mod source;
mod status;

pub use program::{one_answer_is_due, serve};
pub use status::Status;
