// The one token that begins at a place, or what is wrong there. It relies on the caller that no white space and no
// comment begins there, and never looks further than the token and the byte after it.
ghost use Rattle.std.specs.Prelude.{◌≡◌, ◌<◌, length, slice_index, Some, Ok, Err, IsTrue, IfOk, IfErr, IfSome, IfNone};
ghost use Rattle.std.specs.Bool.{IsFalse};
ghost use Rattle.sql_lex.specs.Bytes.{starts_comparison};
ghost use Rattle.sql_lex.specs.Gap.{gap_begins};
ghost use Rattle.sql_lex.specs.Tokens.{IsWhole, StandsAt};
ghost use Rattle.sql_lex.specs.declared.token.TokenKind.{TokenKind};
ghost use Rattle.sql_lex.specs.declared.fault.LexKind.{LexKind};

use crate::byte::{QUOTE, Run, is_second, is_sign, starts_comparison};
use crate::fault::{LexFault, LexKind};
use crate::gap::byte_at;
use crate::limit::broken_limit;
use crate::token::{Token, TokenKind};

// The token that begins at `start`, or what is wrong there.
pub(crate) fn token_at(text: &[u8], start: usize) -> Result<Token, LexFault>
    requires in_text { start < length text.now }
    requires no_gap { IsFalse (gap_begins text.now start) }
    ensures token { IfOk result (λ token. StandsAt text.now start (Ok (Some token))) }
    ensures fault { IfErr result (λ fault. StandsAt text.now start (Err fault)) }
{
    let (kind, end) = match form_at(text, start) {
        Ok(form) => form,
        Err(kind) => return Err(LexFault { place: start, kind }),
    };
    match broken_limit(kind, &text[start..end]) {
        Some(kind) => Err(LexFault { place: start, kind }),
        None => Ok(Token { kind, start, end }),
    }
}

// The kind of the form that begins at `start`, and the place after its last byte.
fn form_at(text: &[u8], start: usize) -> Result<(TokenKind, usize), LexKind>
    requires in_text { start < length text.now }
    requires no_gap { IsFalse (gap_begins text.now start) }
    ensures whole { IfOk result (λ form. IsWhole text.now form.0 start form.1) }
    ensures none { IfErr result (λ fault.
        StandsAt text.now start (Err (record { place = start; kind = fault }))) }
{
    let first = text[start];
    if first.is_ascii_alphabetic() {
        Ok((TokenKind::Word, Run::Word.end(text, start)))
    } else if first.is_ascii_digit() {
        Ok((TokenKind::Number, Run::Number.end(text, start)))
    } else if first == QUOTE {
        let end = text_end(text, start).ok_or(LexKind::OpenText)?;
        Ok((TokenKind::Text, end))
    } else if starts_comparison(first) {
        Ok((TokenKind::Comparison, comparison_end(text, start)))
    } else if is_sign(first) {
        Ok((TokenKind::Sign, start + 1))
    } else {
        Err(LexKind::Byte)
    }
}

// The place after the quote that closes the text which begins at `start`.
fn text_end(text: &[u8], start: usize) -> Option<usize>
    requires in_text { start < length text.now }
    requires quote { slice_index text.now start ≡ 39 }
    ensures whole { IfSome result (λ end. IsWhole text.now TokenKind.Text start end) }
    ensures open { IfNone result
        (StandsAt text.now start (Err (record { place = start; kind = LexKind.OpenText }))) }
{
    let mut at = start + 1;
    while at < text.len() {
        if text[at] != QUOTE {
            at += 1;
        } else if byte_at(text, at + 1) == QUOTE {
            at += 2;
        } else {
            return Some(at + 1);
        }
    }
    None
}

// The place after the comparison that begins at `start`.
fn comparison_end(text: &[u8], start: usize) -> usize
    requires in_text { start < length text.now }
    requires first { IsTrue (starts_comparison (slice_index text.now start)) }
    ensures { IsWhole text.now TokenKind.Comparison start result }
{
    if is_second(text[start], byte_at(text, start + 1)) {
        start + 2
    } else {
        start + 1
    }
}
