// A token: its kind and its place. It never holds the token's bytes or its value.

/// What a token is (SQL-92, 5.2).
#[derive(Clone, Copy, PartialEq, Eq)]
pub enum TokenKind {
    /// A name or a keyword: a letter, then letters, digits and `_`.
    Word,
    /// One or more digits.
    Number,
    /// A text literal in single quotes, each quote inside doubled.
    Text,
    /// One of `( ) , . ; * + - ?`.
    Sign,
    /// One of `= <> < <= > >=`.
    Comparison,
}

/// A token of a script.
#[derive(Clone, Copy)]
pub struct Token {
    pub kind: TokenKind,
    /// The place of its first byte, from 0.
    pub start: usize,
    /// The place after its last byte.
    pub end: usize,
}
