// The limits of tokens. It relies on the form of the bytes that it gets, and never looks outside them.
ghost use Rattle.std.specs.Prelude.{◌≡◌, Some, IfSome, IfNone};
ghost use Rattle.sql_lex.specs.Limits.{max_word_bytes, max_number};
ghost use Rattle.sql_lex.specs.Forms.{HasForm, KeepsTokenLimit, limit_fault};

use crate::fault::LexKind;
use crate::token::TokenKind;
use crate::value::{between_quotes, capped_number};

/// The most bytes that a word has (SQL-92, 5.2, says 128 characters).
pub const MAX_WORD_BYTES: usize = 128;

/// The greatest value that a number has: the greatest INTEGER, 2^63 - 1.
pub const MAX_NUMBER: u64 = 9_223_372_036_854_775_807;

/// The law of the limits: each constant is the figure of the definitions.
pub fn limits_are_as_stated()
    ensures word_bytes { MAX_WORD_BYTES ≡ max_word_bytes }
    ensures number { MAX_NUMBER ≡ max_number }
{}

// What is wrong with bytes of a kind's form, where they break its limit.
pub(crate) fn broken_limit(kind: TokenKind, bytes: &[u8]) -> Option<LexKind>
    requires { HasForm kind bytes.now }
    ensures keeps { IfNone result (KeepsTokenLimit kind bytes.now) }
    ensures breaks { IfSome result (λ fault. ¬ (KeepsTokenLimit kind bytes.now)) }
    ensures fault { IfSome result (λ fault. limit_fault kind ≡ Some fault) }
{
    match kind {
        TokenKind::Word => (bytes.len() > MAX_WORD_BYTES).then_some(LexKind::Name),
        TokenKind::Number => (capped_number(bytes) > MAX_NUMBER).then_some(LexKind::Number),
        TokenKind::Text => match str::from_utf8(between_quotes(bytes)) {
            Ok(_) => None,
            Err(_) => Some(LexKind::Utf8),
        },
        TokenKind::Sign | TokenKind::Comparison => None,
    }
}
