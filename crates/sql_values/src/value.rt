// A value: NULL, a number or a text. Nothing here orders values or turns one into another.
ghost use Rattle.std.specs.Prelude.{◌≡◌};
ghost use Rattle.sql_values.specs.Words.{null_word};

use crate::text::Text;

/// The stored word of NULL: -2^63, the least word, which is no INTEGER.
pub const NULL_WORD: i64 = i64::MIN;

/// The law of NULL's word: it is that of the definitions.
pub fn null_word_is_as_stated()
    ensures { NULL_WORD ≡ null_word }
{}

/// A value as a statement writes it, or as a column holds it.
#[derive(Clone, Drop)]
pub enum Value {
    /// The value that is none: SQL's NULL.
    Null,
    /// A value of an INTEGER column.
    Int(i64),
    /// A value of a VARCHAR column.
    Text(Text),
}
