// USING: the values that a bouquet's query is given.

ghost use Rattle.sql_parse.specs.Reading.{GivesValue};
ghost use Rattle.sql_parse.specs.Printing.{PutsParts};
ghost use Rattle.sql_parse.specs.Statements.Using.{using_at, using_parts};

use crate::canonical::print_in_parentheses;
use crate::fault::ReadFault;
use crate::mark::Mark;
use crate::parse::list_in_parentheses;
use crate::piece::Piece;
use crate::writer::Writer;
use sql_values::{Sequence, Value};
use std::alloc::{AllocError, Global};

// The values, where USING stands.
#[tactic(auto, unfolding(crate::specs::Statements::Using::using_at))]
pub(crate) fn using<'s>(
    alloc: Global,
    piece: Piece<'s>,
) -> Result<(Sequence<Value>, Piece<'s>), ReadFault>
    ensures { GivesValue result (using_at piece.entry) }
{
    let Some(after) = piece.after(Mark::Using) else {
        return Ok((Sequence::from(Vec::new(alloc)), piece));
    };
    list_in_parentheses(alloc, after)
}

#[tactic(auto, using(crate::proofs::Written::of_lines))]
pub(crate) fn print_using(writer: &mut Writer, values: &[Value]) -> Result<(), AllocError>
    ensures { PutsParts result writer.old writer.new (using_parts values.now) }
{
    if values.is_empty() {
        return Ok(());
    }
    writer.mark(Mark::Using)?;
    print_in_parentheses(writer, values)
}
