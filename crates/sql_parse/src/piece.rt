// The tokens that are still to be read, and the tokens that the grammar ends in.

ghost use Rattle.std.specs.Prelude.{◌≡◌, ◌+◌, ◌<◌, ◌≤◌, ◌^◌, [], ◌∷◌, length, IfOk, IfSome, MatchOption, if◌then◌else◌};
ghost use Rattle.std.specs.List.{All};
ghost use Rattle.sql_lex.specs.Forms.{HasForm, KeepsTokenLimit};
ghost use Rattle.sql_lex.specs.Tokens.{IsToken};
ghost use Rattle.sql_parse.specs.Lexemes.{Parameter, is_question_mark, lexeme_of, lexemes};
ghost use Rattle.sql_parse.specs.Reading.{GivesValue, after_mark, after_word, name_at, number_at, text_token_at, comparison_at, parameter_at, token_kind_at};

use crate::fault::ReadFault;
use crate::mark::{Mark, is_keyword, is_question_mark, is_reserved};
use crate::tree::Name;
use sql_lex::{Token, TokenKind, comparison_value, number_value, text_value, word_value};
use sql_values::{Op, Text};
use std::alloc::Global;
use std::marker::Model;

// The tokens of a statement that are still to be read. Each of them is one, so its value is read without a test.
#[derive(Drop)]
pub(crate) struct Piece<'s> {
    script: &'s [u8],
    tokens: &'s [Token],
    // How many of the statement's `?` lie before them.
    before: u32,
}

impl<'s> Model for Piece<'s> {
    ghost use Rattle.std.specs.Prelude.{List, map, length, ◌+◌, ◌<◌, ◌^◌};
    ghost use Rattle.std.specs.List.{All};
    ghost use Rattle.sql_lex.specs.Tokens.{IsToken};
    ghost use Rattle.sql_parse.specs.Lexemes.{Lexeme, lexeme, numbered};

    ghost Value = { List Lexeme };

    ghost view = { λ p. numbered p.before (map (lexeme p.script.now) p.tokens.now) };

    ghost invariant = { λ p.
        All (IsToken p.script.now) p.tokens.now × (p.before + length p.tokens.now < 2 ^ 32) };
}

// The first token, its number if it is a `?`, and what follows it.
#[derive(Drop)]
struct Lead<'s> {
    kind: TokenKind,
    bytes: &'s [u8],
    number: u32,
    rest: Piece<'s>,
}

// The number of the next `?` after a token, whose own number is `number` if it is one.
fn next_number(number: u32, kind: TokenKind, bytes: &[u8]) -> u32
    requires { number + 1 < 2 ^ 32 }
    ensures number { let mark = is_question_mark (lexeme_of kind bytes.now) in
        result ≡ if mark then number + 1 else number }
    ensures within { result ≤ number + 1 }
{
    if is_question_mark(kind, bytes) {
        number + 1
    } else {
        number
    }
}

impl<'s> Piece<'s> {
    pub(crate) fn new(script: &'s [u8], tokens: &'s [Token]) -> Self
        requires each { All (IsToken script.now) tokens.now }
        requires few { length tokens.now < 2 ^ 32 }
        ensures { result ≡ lexemes script.now tokens.now }
    {
        Piece {
            script,
            tokens,
            before: 0,
        }
    }

    #[tactic(auto, using(crate::proofs::Numbers::numbered_length))]
    pub(crate) fn len(&self) -> usize
        ensures { result ≡ length self.now }
    {
        self.tokens.len()
    }

    fn lead(&self) -> Option<Lead<'s>>
        ensures first { MatchOption result (self.now ≡ [])
            (λ lead. let token = lexeme_of lead.kind lead.bytes.now in
            self.now ≡ (if is_question_mark token then Parameter lead.number else token) ∷ lead.rest) }
        ensures form { IfSome result (λ lead. HasForm lead.kind lead.bytes.now) }
        ensures limit { IfSome result (λ lead. KeepsTokenLimit lead.kind lead.bytes.now) }
    {
        let [first, rest @ ..] = self.tokens else {
            return None;
        };
        let bytes = &self.script[first.start..first.end];
        let rest = Piece {
            script: self.script,
            tokens: rest,
            before: next_number(self.before, first.kind, bytes),
        };
        Some(Lead {
            kind: first.kind,
            bytes,
            number: self.before,
            rest,
        })
    }

    // The kind of the first token.
    pub(crate) fn kind(&self) -> Option<TokenKind>
        ensures { result ≡ token_kind_at self.now }
    {
        Some(self.lead()?.kind)
    }

    // What follows the mark, where it stands first.
    #[tactic(auto, unfolding(crate::specs::Reading::after_mark))]
    pub(crate) fn after(&self, mark: Mark) -> Option<Piece<'s>>
        ensures { result ≡ after_mark mark self.now }
    {
        let lead = self.lead()?;
        if mark.is_written(lead.kind, lead.bytes) {
            Some(lead.rest)
        } else {
            None
        }
    }

    // What follows the mark, which has to stand first.
    pub(crate) fn expect(&self, mark: Mark) -> Result<Piece<'s>, ReadFault>
        ensures { GivesValue result (after_mark mark self.now) }
    {
        self.after(mark).ok_or(ReadFault::NotAStatement)
    }

    // What follows the word, given in upper case, where it stands first.
    #[tactic(auto, unfolding(crate::specs::Reading::after_word))]
    pub(crate) fn after_word(&self, word: &[u8]) -> Option<Piece<'s>>
        ensures { result ≡ after_word word.now self.now }
    {
        let lead = self.lead()?;
        if is_keyword(lead.kind, lead.bytes, word) {
            Some(lead.rest)
        } else {
            None
        }
    }

    // What follows the word, which has to stand first.
    pub(crate) fn expect_word(&self, word: &[u8]) -> Result<Piece<'s>, ReadFault>
        ensures { GivesValue result (after_word word.now self.now) }
    {
        self.after_word(word).ok_or(ReadFault::NotAStatement)
    }

    #[tactic(auto, unfolding(crate::specs::Reading::name_at))]
    pub(crate) fn name(&self, alloc: Global) -> Result<(Name, Piece<'s>), ReadFault>
        ensures { GivesValue result (name_at self.now) }
    {
        let Some(lead) = self.lead() else {
            return Err(ReadFault::NotAStatement);
        };
        if lead.kind != TokenKind::Word || is_reserved(lead.bytes) {
            return Err(ReadFault::NotAStatement);
        }
        Ok((word_value(alloc, lead.bytes)?, lead.rest))
    }

    #[tactic(auto, unfolding(crate::specs::Reading::number_at))]
    pub(crate) fn number(&self) -> Result<(u64, Piece<'s>), ReadFault>
        ensures value { GivesValue result (number_at self.now) }
        ensures limit { IfOk result (λ found. found.0 < 2 ^ 63) }
    {
        let Some(lead) = self.lead() else {
            return Err(ReadFault::NotAStatement);
        };
        match lead.kind {
            TokenKind::Number => Ok((number_value(lead.bytes), lead.rest)),
            _ => Err(ReadFault::NotAStatement),
        }
    }

    #[tactic(auto, unfolding(crate::specs::Reading::text_token_at))]
    pub(crate) fn text(&self, alloc: Global) -> Result<(Text, Piece<'s>), ReadFault>
        ensures { GivesValue result (text_token_at self.now) }
    {
        let Some(lead) = self.lead() else {
            return Err(ReadFault::NotAStatement);
        };
        match lead.kind {
            TokenKind::Text => Ok((text_value(alloc, lead.bytes)?, lead.rest)),
            _ => Err(ReadFault::NotAStatement),
        }
    }

    #[tactic(auto, unfolding(crate::specs::Reading::comparison_at))]
    pub(crate) fn comparison(&self) -> Option<(Op, Piece<'s>)>
        ensures { result ≡ comparison_at self.now }
    {
        let lead = self.lead()?;
        match lead.kind {
            TokenKind::Comparison => Some((comparison_value(lead.bytes), lead.rest)),
            _ => None,
        }
    }

    // The number of a parameter, where one stands first.
    #[tactic(auto, unfolding(crate::specs::Reading::parameter_at))]
    pub(crate) fn parameter(&self) -> Option<(u32, Piece<'s>)>
        ensures { result ≡ parameter_at self.now }
    {
        let lead = self.lead()?;
        if is_question_mark(lead.kind, lead.bytes) {
            Some((lead.number, lead.rest))
        } else {
            None
        }
    }
}
