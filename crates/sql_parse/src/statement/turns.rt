// TURNS.

ghost use Rattle.sql_parse.specs.Reading.{GivesStatement};
ghost use Rattle.sql_parse.specs.Trees.{Turns};
ghost use Rattle.sql_parse.specs.Statements.{statement_parts};
ghost use Rattle.sql_parse.specs.Printing.{PutsParts};
ghost use Rattle.sql_parse.specs.Statements.Turns.{turns_at};

use super::numbers::{numbers, print_numbers};
use crate::canonical::print_list;
use crate::fault::ReadFault;
use crate::parse::list;
use crate::piece::Piece;
use crate::statement::Statement;
use crate::tree::TurnsDef;
use crate::writer::Writer;
use std::alloc::{AllocError, Global};

// From the first bouquet on.
#[tactic(auto, unfolding(crate::specs::Statements::Turns::turns_at))]
pub(crate) fn turns<'s>(
    alloc: Global,
    piece: Piece<'s>,
) -> Result<(Statement, Piece<'s>), ReadFault>
    ensures { GivesStatement result (turns_at piece.entry) }
{
    let (uses, rest) = list(alloc, piece)?;
    let (by, rest) = numbers(alloc, rest, b"BY")?;
    Ok((Statement::Turns(TurnsDef { uses, by }), rest))
}

#[tactic(auto, using(crate::proofs::Written::of_lines))]
pub(crate) fn print_turns(writer: &mut Writer, turns: &TurnsDef) -> Result<(), AllocError>
    ensures { PutsParts result writer.old writer.new (statement_parts (Turns turns.now)) }
{
    writer.keyword(b"TURNS")?;
    print_list(writer, turns.uses.as_slice())?;
    print_numbers(writer, b"BY", turns.by.as_slice())
}
