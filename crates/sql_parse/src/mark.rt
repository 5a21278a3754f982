// The marks of the grammar: its signs, and the reserved words that stand within a statement. And the words that can't be
// names.

ghost use Rattle.std.specs.Prelude.{◌≡◌, map, codes, bytes_eq};
ghost use Rattle.std.specs.List.{list_any};
ghost use Rattle.sql_lex.specs.Values.{word_value_of};
ghost use Rattle.sql_parse.specs.Lexemes.{Word, lexeme_of, is_question_mark, mark, is_reserved};
ghost use Rattle.sql_parse.specs.Canonical.{Fixed, spelled, joins_previous, joins_next};
ghost use Rattle.sql_parse.specs.Reading.{same, mark_spelled};

use sql_lex::TokenKind;
use sql_values::is_word;

/// A sign, or a reserved word that stands within a statement. Any other keyword stands in its production.
#[derive(Clone, Copy)]
pub enum Mark {
    And,
    As,
    Between,
    From,
    In,
    Int,
    Integer,
    Into,
    Is,
    Not,
    Null,
    On,
    Or,
    Select,
    Table,
    To,
    Using,
    Varchar,
    Where,
    OpenParen,
    CloseParen,
    Star,
    Plus,
    Comma,
    Minus,
    Dot,
}

impl Mark {
    // The kind of its token, and its bytes in upper case.
    fn spelling(self) -> (TokenKind, &'static [u8])
        ensures { mark_spelled result.0 result.1.now ≡ mark self }
    {
        match self {
            Mark::And => (TokenKind::Word, b"AND"),
            Mark::As => (TokenKind::Word, b"AS"),
            Mark::Between => (TokenKind::Word, b"BETWEEN"),
            Mark::From => (TokenKind::Word, b"FROM"),
            Mark::In => (TokenKind::Word, b"IN"),
            Mark::Int => (TokenKind::Word, b"INT"),
            Mark::Integer => (TokenKind::Word, b"INTEGER"),
            Mark::Into => (TokenKind::Word, b"INTO"),
            Mark::Is => (TokenKind::Word, b"IS"),
            Mark::Not => (TokenKind::Word, b"NOT"),
            Mark::Null => (TokenKind::Word, b"NULL"),
            Mark::On => (TokenKind::Word, b"ON"),
            Mark::Or => (TokenKind::Word, b"OR"),
            Mark::Select => (TokenKind::Word, b"SELECT"),
            Mark::Table => (TokenKind::Word, b"TABLE"),
            Mark::To => (TokenKind::Word, b"TO"),
            Mark::Using => (TokenKind::Word, b"USING"),
            Mark::Varchar => (TokenKind::Word, b"VARCHAR"),
            Mark::Where => (TokenKind::Word, b"WHERE"),
            Mark::OpenParen => (TokenKind::Sign, b"("),
            Mark::CloseParen => (TokenKind::Sign, b")"),
            Mark::Star => (TokenKind::Sign, b"*"),
            Mark::Plus => (TokenKind::Sign, b"+"),
            Mark::Comma => (TokenKind::Sign, b","),
            Mark::Minus => (TokenKind::Sign, b"-"),
            Mark::Dot => (TokenKind::Sign, b"."),
        }
    }

    // Its bytes in upper case.
    pub(crate) fn bytes(self) -> &'static [u8]
        ensures { result.now ≡ spelled (mark self) }
    {
        self.spelling().1
    }

    // Whether no space stands before it in canonical text.
    pub(crate) fn joins_previous(self) -> bool
        ensures { result ≡ joins_previous (Fixed self) }
    {
        match self {
            Mark::CloseParen | Mark::Comma | Mark::Dot => true,
            _ => false,
        }
    }

    // Whether no space stands after it in canonical text.
    pub(crate) fn joins_next(self) -> bool
        ensures { result ≡ joins_next (Fixed self) }
    {
        match self {
            Mark::OpenParen | Mark::Dot | Mark::Minus | Mark::Varchar => true,
            _ => false,
        }
    }

    // Whether a token of this kind and these bytes is the mark.
    pub(crate) fn is_written(self, kind: TokenKind, bytes: &[u8]) -> bool
        ensures { result ≡ same (lexeme_of kind bytes.now) (mark self) }
    {
        let (own_kind, spelling) = self.spelling();
        is_same(kind, bytes, own_kind, spelling)
    }
}

// Whether a token of this kind and these bytes is the sign `?`.
pub(crate) fn is_question_mark(kind: TokenKind, bytes: &[u8]) -> bool
    ensures { result ≡ is_question_mark (lexeme_of kind bytes.now) }
{
    match kind {
        TokenKind::Sign => bytes == b"?".as_slice(),
        _ => false,
    }
}

// Whether a token of this kind and these bytes is the word.
pub(crate) fn is_keyword(kind: TokenKind, bytes: &[u8], word: &[u8]) -> bool
    ensures { result ≡ same (lexeme_of kind bytes.now) (Word word.now) }
{
    is_same(kind, bytes, TokenKind::Word, word)
}

// Whether the token is the word or the sign that is spelled so.
fn is_same(kind: TokenKind, bytes: &[u8], other_kind: TokenKind, other: &[u8]) -> bool
    ensures { result ≡ same (lexeme_of kind bytes.now) (mark_spelled other_kind other.now) }
{
    match (kind, other_kind) {
        (TokenKind::Word, TokenKind::Word) => is_word(bytes, other),
        (TokenKind::Word, _) => false,
        (TokenKind::Sign, TokenKind::Word) => false,
        (TokenKind::Sign, _) => bytes == other,
        _ => false,
    }
}

// The words that can't be names (SQL-92, 5.2).
static RESERVED: [&[u8]; 20] = [
    b"AND", b"AS", b"BETWEEN", b"CREATE", b"FROM", b"IN", b"INT", b"INTEGER", b"INTO", b"IS",
    b"NOT", b"NULL", b"ON", b"OR", b"SELECT", b"TABLE", b"TO", b"USING", b"VARCHAR", b"WHERE",
];

fn is_among(word: &[u8], values: &[&[u8]]) -> bool
    ensures { result ≡ list_any (λ value. bytes_eq (word_value_of word.now) value.now) values.now }
{
    values.iter().any(|value| is_word(word, value))
}

/// Whether the word can't be a name.
pub(crate) fn is_reserved(word: &[u8]) -> bool
    ensures { result ≡ is_reserved (word_value_of word.now) }
{
    is_among(word, &RESERVED)
}
