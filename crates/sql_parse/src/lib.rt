//! The statements of a script, read from its tokens.
//! It promises that `read_script` returns exactly one statement for each piece between semicolons that isn't empty, as
//! the grammar relates them to their tokens, or the start of the first piece that is no statement; laws say that tokens
//! are read in no second way. Its depth on the stack is bounded by the nesting of parentheses. `print` returns exactly a
//! statement's canonical text, which is read as that statement and as no other.
//! It never looks up a name, never compares kinds, and takes no memory but for statements and texts.
#![tactic(auto)]

mod canonical;
mod canonical_condition;
mod condition;
mod fault;
mod mark;
mod parse;
mod piece;
mod predicate;
mod query;
mod script;
mod statement;
mod tree;
mod writer;

pub use canonical::{canonical_text_is_read, print, print_query};
pub use fault::SyntaxFault;
pub use mark::Mark;
pub use script::{one_parsing_is_due, one_statement, operands_are_tokens, read_script};
pub use statement::Statement;
pub use tree::{
    AuditDef, ColRef, CompileDef, Cond, FileDef, IndexDef, Item, LoadDef, Name, OpenDef, Query,
    RunDef, TableDef, Term, TurnsDef,
};
