// What a token stands for, read from its bytes. It relies on the form that `lex` found, and never tests it again.
ghost use Rattle.std.specs.Prelude.{◌≡◌, ◌-◌, ◌^◌, min, IfOk};
ghost use Rattle.std.specs.List.{AllPass};
ghost use Rattle.std.specs.Char.{is_ascii_digit};
ghost use Rattle.sql_lex.specs.Values.{word_value_of, number_value_of, between_quotes, text_value_of, quoted, comparison_text};
ghost use Rattle.sql_lex.specs.Forms.{HasForm, KeepsTokenLimit};
ghost use Rattle.sql_lex.specs.declared.token.TokenKind.{TokenKind};

use crate::byte::QUOTE;
use crate::token::TokenKind;
use sql_values::{Op, Text};
use std::alloc::{AllocError, Global};

/// A word's value: its bytes in upper case.
pub fn word_value(alloc: Global, word: &[u8]) -> Result<Text, AllocError>
    ensures { IfOk result (λ value. value ≡ word_value_of word.now) }
{
    let upper: Vec<u8> = word
        .iter()
        .map(|byte| byte.to_ascii_uppercase())
        .collect(alloc)?;
    Ok(Text::from(upper))
}

/// A number's value, at most `MAX_NUMBER`.
pub fn number_value(number: &[u8]) -> u64
    requires form { HasForm TokenKind.Number number.now }
    requires limit { KeepsTokenLimit TokenKind.Number number.now }
    ensures { result ≡ number_value_of number.now }
{
    capped_number(number)
}

/// The operator that a comparison stands for (SQL-92, 8.2).
pub fn comparison_value(comparison: &[u8]) -> Op
    requires { HasForm TokenKind.Comparison comparison.now }
    ensures { comparison.now ≡ comparison_text result }
{
    match comparison {
        b"=" => Op::Eq,
        b"<>" => Op::Ne,
        b"<" => Op::Lt,
        b"<=" => Op::Le,
        b">" => Op::Gt,
        _ => Op::Ge,
    }
}

/// A text's value: the bytes between its quotes, with one quote for two.
pub fn text_value(alloc: Global, text: &[u8]) -> Result<Text, AllocError>
    requires { HasForm TokenKind.Text text.now }
    ensures value { IfOk result (λ value. value ≡ text_value_of text.now) }
    ensures spelling { IfOk result (λ value. text.now ≡ quoted value) }
{
    let inside = between_quotes(text);
    let mut value = Vec::with_capacity(alloc, inside.len())?;
    let mut is_second = false;
    for byte in inside {
        if is_second {
            is_second = false;
        } else {
            value.push(*byte)?;
            is_second = *byte == QUOTE;
        }
    }
    Ok(Text::from(value))
}

// What stands between the quotes of a text literal.
pub(crate) fn between_quotes(text: &[u8]) -> &[u8]
    requires { HasForm TokenKind.Text text.now }
    ensures { result.now ≡ between_quotes text.now }
{
    &text[1..text.len() - 1]
}

// The value of digits, or the greatest `u64` where the value is above that.
pub(crate) fn capped_number(digits: &[u8]) -> u64
    requires { AllPass is_ascii_digit digits.now }
    ensures { result ≡ min (number_value_of digits.now) (2 ^ 64 - 1) }
{
    let mut value: u64 = 0;
    for digit in digits {
        value = value
            .saturating_mul(10)
            .saturating_add(u64::from(*digit - b'0'));
    }
    value
}
