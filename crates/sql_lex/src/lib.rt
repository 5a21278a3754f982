//! The tokens of a script: where each one begins and ends, and of which kind it is.
//! It promises that `lex` returns exactly the tokens of the script, or the place and the kind of the first fault, and
//! that each token's value can then be read from its slice without a further test. A law says that every script has
//! exactly one of the two.
//! It never looks at what tokens mean together, never copies the script, and takes no memory but for the list of
//! tokens and for the values that are asked for.
#![tactic(auto)]

mod byte;
mod fault;
mod form;
mod gap;
mod limit;
mod script;
mod token;
mod value;

pub use fault::{LexFault, LexKind};
pub use limit::{MAX_NUMBER, MAX_WORD_BYTES, limits_are_as_stated};
pub use script::{lex, one_lexing_is_due, written_is_read};
pub use token::{Token, TokenKind};
pub use value::{comparison_value, number_value, text_value, word_value};
