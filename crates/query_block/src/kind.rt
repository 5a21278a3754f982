// The two kinds of values, texts and numbers: values of one kind alone are compared.
ghost use Rattle.std.specs.Prelude.{◌≡◌};
ghost use Rattle.query_block.specs.Blocks.{holds_texts};

use sql_values::ColumnType;

/// What a parameter stands for.
#[derive(Clone, Copy)]
pub enum Kind {
    /// A number.
    Integer,
    /// A text.
    Text,
}

/// Whether a column holds texts; else it holds numbers.
pub fn holds_texts(kind: ColumnType) -> bool
    ensures { result ≡ holds_texts kind }
{
    match kind {
        ColumnType::Integer => false,
        ColumnType::Varchar(_) => true,
    }
}
