// All tokens of a script, and the two laws of tokens. It relies on `gap` and `form` for one token, and never goes back
// past the end of a token.
ghost use Rattle.std.specs.Prelude.{◌≡◌, ◌⊎◌, ℕ, ◌≤◌, List, Result, length, IfOk, IfErr};
ghost use Rattle.sql_lex.specs.Tokens.{ComesNext, Tokens, IsFirstFault, IsLexing};
ghost use Rattle.sql_lex.specs.Once.{AtLeastOne, AtMostOne};
ghost use Rattle.sql_lex.specs.Written.{Written, MayBeWritten, written_text, written_tokens};
ghost use Rattle.sql_lex.specs.declared.token.Token.{Token};
ghost use Rattle.sql_lex.specs.declared.fault.LexFault.{LexFault};

use crate::fault::{LexFault, LexKind};
use crate::form::token_at;
use crate::gap::gap_end;
use crate::token::Token;
use std::alloc::Global;

/// All tokens of a script, in order.
///
/// White space is space, tab, line feed and carriage return. A comment begins with `--` and ends before the next line
/// feed or at the script's end, and may hold any bytes (SQL-92, 5.2). The longest token is taken.
///
/// A refusal names the first fault; `NoMemory` alone may come at any time. By `one_lexing_is_due` no other tokens, and
/// no other place or kind, fit the script.
pub fn lex(alloc: Global, text: &[u8]) -> Result<Vec<Token>, LexFault>
    ensures found { IfOk result (λ tokens. Tokens text.now tokens.items) }
    ensures offends { IfErr result (λ fault.
        (fault.kind ≡ LexKind.NoMemory) ⊎ IsFirstFault text.now fault.place fault.kind) }
{
    let mut tokens = Vec::new(alloc);
    let mut end = 0;
    while let Some(token) = next_token(text, end)? {
        end = token.end;
        if tokens.push(token).is_err() {
            return Err(LexFault {
                place: token.start,
                kind: LexKind::NoMemory,
            });
        }
    }
    Ok(tokens)
}

// The next token from `from` on, or none where a gap alone is left.
fn next_token(text: &[u8], from: usize) -> Result<Option<Token>, LexFault>
    requires { from ≤ length text.now }
    ensures { ComesNext text.now from result }
{
    let start = gap_end(text, from);
    if start == text.len() {
        return Ok(None);
    }
    let token = token_at(text, start)?;
    Ok(Some(token))
}

/// The law of lexing: every script has tokens or a first fault, and no script is read in two ways. A script with
/// tokens has these alone and no first fault; one with a first fault has this one alone and no tokens.
pub fn one_lexing_is_due()
    ensures some { (script : List ℕ) → AtLeastOne (IsLexing script) }
    ensures one { (script : List ℕ) → AtMostOne (IsLexing script) }
{}

/// The law of writing: tokens written one after another, with white space where one would go on into the next, are
/// the tokens of that text. So `lex` returns them for it, or is out of memory.
pub fn written_is_read()
    ensures { (tokens : List Written) → MayBeWritten tokens →
        Tokens (written_text tokens) (written_tokens 0 tokens) }
{}
