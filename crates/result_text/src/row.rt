// A row of a table, lent.
ghost use Rattle.std.specs.Prelude.{◌≡◌, IfOk, length, map, sum_by};
ghost use Rattle.result_text.specs.Rows.{words_of};

use std::alloc::{AllocError, Global};
use std::marker::Model;

/// A row that is lent by its table, seen as its words, one a column.
#[derive(Drop)]
pub struct LentRow<'a> {
    words: &'a [i64],
}

impl<'a> Model for LentRow<'a> {
    ghost use Rattle.result_text.specs.Rows.{WordRow};

    ghost Value = { WordRow };

    ghost view = { λ r. r.words.now };
}

impl<'a> LentRow<'a> {
    /// The row of these words.
    pub fn new(words: &'a [i64]) -> LentRow<'a>
        ensures { result ≡ words.now }
    {
        LentRow { words }
    }

    /// Its words, lent as long as the table lends them.
    pub fn words(&self) -> &'a [i64]
        ensures { result.now ≡ self.now }
    {
        self.words
    }
}

/// Lends the rows of these words, which stand one row after the other, each as long as the row at its place in `like`.
pub(crate) fn lend<'a>(
    alloc: Global,
    like: &[LentRow<'_>],
    words: &'a [i64],
) -> Result<Vec<LentRow<'a>>, AllocError>
    requires { sum_by length like.now ≡ length words.now }
    ensures words { IfOk result (λ lent. words_of lent.items ≡ words.now) }
    ensures long { IfOk result (λ lent. map length lent.items ≡ map length like.now) }
{
    let mut lent = Vec::with_capacity(alloc, like.len())?;
    let mut left = words;
    for row in like {
        let (first, rest) = left.split_at(row.words().len());
        lent.push(LentRow::new(first))?;
        left = rest;
    }
    Ok(lent)
}
