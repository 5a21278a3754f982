// Numbers behind a word that isn't reserved.

ghost use Rattle.std.specs.Prelude.{◌∷◌, []};
ghost use Rattle.sql_parse.specs.Reading.{GivesValue, number_at};
ghost use Rattle.sql_parse.specs.Canonical.{Number};
ghost use Rattle.sql_parse.specs.Printing.{PutsParts};
ghost use Rattle.sql_parse.specs.Statements.Numbers.{numbers_at, numbers_parts};

use crate::canonical::{Printed, print_list};
use crate::fault::ReadFault;
use crate::parse::{Parse, list};
use crate::piece::Piece;
use crate::writer::Writer;
use sql_values::Sequence;
use std::alloc::{AllocError, Global};

impl Parse for u64 {
    ghost reads = { number_at };

    fn parse<'s>(alloc: Global, piece: Piece<'s>) -> Result<(u64, Piece<'s>), ReadFault> {
        piece.number()
    }
}

// The numbers, where the word stands, which is given in upper case.
#[tactic(auto, unfolding(crate::specs::Statements::Numbers::numbers_at))]
pub(crate) fn numbers<'s>(
    alloc: Global,
    piece: Piece<'s>,
    word: &[u8],
) -> Result<(Sequence<u64>, Piece<'s>), ReadFault>
    ensures { GivesValue result (numbers_at word.now piece.entry) }
{
    let Some(after) = piece.after_word(word) else {
        return Ok((Sequence::from(Vec::new(alloc)), piece));
    };
    list(alloc, after)
}

impl Printed for u64 {
    ghost parts = { λ n. Number n ∷ [] };

    fn print_to(&self, writer: &mut Writer) -> Result<(), AllocError> {
        writer.number(*self)
    }
}

pub(crate) fn print_numbers(
    writer: &mut Writer,
    word: &[u8],
    numbers: &[u64],
) -> Result<(), AllocError>
    ensures { PutsParts result writer.old writer.new (numbers_parts word.now numbers.now) }
{
    if numbers.is_empty() {
        return Ok(());
    }
    writer.keyword(word)?;
    print_list(writer, numbers)
}
